//! Laws of the cache of a history: public functions that do nothing, whose contracts are the laws.
ghost use Rattle.std.specs.Prelude.{◌≡◌, ℕ, ◌≤◌, Bool, true, false, List, [], ◌∷◌, length, map, Some, None, Ok};
ghost use Rattle.std.specs.List.{AllByRecursion};
ghost use Rattle.coap_message.specs.Message.{Message};
ghost use Rattle.coap_endpoint.specs.declared.endpoint.Endpoint.{Endpoint};
ghost use Rattle.coap_endpoint.specs.declared.target.Target.{Target};
ghost use Rattle.coap_target.specs.Request.{request_target};
ghost use Rattle.coap_store.specs.declared.key.CacheKey.{CacheKey};
ghost use Rattle.coap_store.specs.declared.stored.Stored.{Stored};
ghost use Rattle.coap_store.specs.Entries.{Entry, entry_key, entry_size, stored_for, IsStore};
ghost use Rattle.coap_store.specs.Lists.{of_key, others, put, total, used};
ghost use Rattle.coap_model.specs.declared.report.Outcome.TheVariants.{Answered, Hit};
ghost use Rattle.coap_model.specs.declared.report.Storing.TheVariants.{Kept, TooLarge, NoMemory};
ghost use Rattle.coap_model.specs.Setting.{Setting};
ghost use Rattle.coap_model.specs.Keys.{request_key};
ghost use Rattle.coap_model.specs.History as told;
ghost use Rattle.coap_model.specs.History.{Action, Position, IsPositionOf, Brings, moves, accepts_answer, Gets};
ghost use Rattle.coap_model.specs.Answers.{marked_all};
ghost use Rattle.coap_model.specs.Changed.{asked_of, key_asked, to_get, Unchanged, WasChanged, IsTold};
ghost use Rattle.coap_forward.specs.Answers.{fits, passed_part, is_passed_on};
ghost use Rattle.coap_forward.specs.Changes.{changed_by};
ghost use Rattle.coap_store.specs.Renewing.{is_validated, renewed};
ghost use Rattle.coap_option.specs.Selection.{tags_of};
ghost use Rattle.coap_target.specs.Routes.{AreRoutes};
ghost use Rattle.coap_model.specs.Cached.{IsFetched, IsLasting, IsObtained, Cached, cached_key, cached_size, entry_marked, entry_of_cached, store_limits, leaves, copied, entry_got, IsCacheOf, WasCacheAt, StandsFirst, IsStored, IsStoreOf, WasObtained, IsEntryOf};
ghost use Rattle.coap_limits.specs.Limits.{AreLimits};
ghost use Rattle.coap_model.specs.State.{State, counts};
ghost use Rattle.coap_model.specs.Justified.{IsHit, IsKept, IsObtainedHere, entry_here, size_here, JustifiedBy, AllJustified};
ghost use Rattle.coap_model.specs.Carries.{Carries};
ghost use Rattle.coap_model.specs.Word.{IsFromCache, KeepsItsWord};
ghost use Rattle.coap_model.specs.Examples.{play, proxy, tick_at};
ghost use Rattle.coap_model.specs.StoringExamples.{answer_with, answer_in_place, still_delivered};
ghost use Rattle.coap_model.specs.LimitExamples.{after_ids};
ghost use Rattle.coap_model.specs.FormExamples.{after};
ghost use Rattle.coap_model.specs.HitExamples.{seconds, no_second, aged, aged_sent, stale, stale_sent, aged_from_coming, aged_from_coming_sent, again_after, kept_and_hit, kept_and_missed, not_kept, within_bytes, too_large_sent, outgrown, within_entries, two_keys, two_keys_sent, used_since, used_since_sent, with_size, with_accept, with_accept_sent, greatest_token, greatest_token_sent, get_with_tag, tagged, tagged_sent, last_hit, last_hit_sent};
ghost use Rattle.coap_model.specs.OptionExamples.{key_of_temp};
ghost use Rattle.coap_model.specs.Forged as forged;
ghost use Rattle.coap_model.specs.Forged.{setting, opened, asked};
ghost use Rattle.coap_model.specs.ForgedHits.{reply, changed_past, overtaken_past, keeps_overtaken, opens_two};
ghost use Rattle.coap_model.specs.CacheExamples.{storable_in, content_for, max_age, empty_max_age, entry_for, two, kept_within, answered, kept_past, hit_past, asked_past, first_entry, second_entry, first_stored};

/// Which responses may be kept, by their code and Max-Age: a 2.05 and the errors of an origin
/// server, if they stay fresh for at least a second, and no answer of the proxy's own.
pub fn examples_of_storing()
    ensures content { storable_in 0x45 (max_age 10) ≡ Some true }
    ensures one_second { storable_in 0x45 (max_age 1) ≡ Some true }
    ensures no_second { storable_in 0x45 (max_age 0) ≡ Some false }
    ensures no_byte { storable_in 0x45 empty_max_age ≡ Some false }
    ensures no_age { storable_in 0x45 [] ≡ Some true }
    ensures not_found { storable_in 0x84 [] ≡ Some true }
    ensures not_found_at_once { storable_in 0x84 (max_age 0) ≡ Some false }
    ensures server_error { storable_in 0xA0 [] ≡ Some true }
    ensures gateway_of_origin { storable_in 0xA2 (max_age 1) ≡ Some true }
    ensures created { storable_in 0x41 (max_age 10) ≡ Some false }
    ensures changed { storable_in 0x44 (max_age 10) ≡ Some false }
    ensures class_3 { storable_in 0x60 (max_age 10) ≡ Some false }
    ensures own_gateway { storable_in 0x43 (max_age 10) ≡ Some false }
{}

/// What a small cache keeps: a new entry is put in front, it replaces the one with its key, and
/// what no longer fits is evicted; what is used moves to the front.
pub fn examples_of_keeping()
    ensures size { cached_size (entry_for 0x61 1) ≡ 70 }
    ensures room { kept_within 210 3 (entry_for 0x63 3) two ≡ entry_for 0x63 3 ∷ two }
    ensures a_byte_less { kept_within 209 3 (entry_for 0x63 3) two
        ≡ entry_for 0x63 3 ∷ entry_for 0x61 1 ∷ [] }
    ensures an_entry_less { kept_within 210 2 (entry_for 0x63 3) two
        ≡ entry_for 0x63 3 ∷ entry_for 0x61 1 ∷ [] }
    ensures in_place { kept_within 140 2 (entry_for 0x62 3) two
        ≡ entry_for 0x62 3 ∷ entry_for 0x61 1 ∷ [] }
    ensures alone { kept_within 70 1 (entry_for 0x63 3) two ≡ entry_for 0x63 3 ∷ [] }
    ensures alone_too_large { kept_within 69 1 (entry_for 0x63 3) two ≡ [] }
    ensures given_up { others cached_key (entry_for 0x62 3).key two ≡ entry_for 0x61 1 ∷ [] }
    ensures not_there { others cached_key (entry_for 0x63 3).key two ≡ two }
    ensures to_the_front { used cached_key (entry_for 0x62 3).key two
        ≡ entry_for 0x62 2 ∷ entry_for 0x61 1 ∷ [] }
    ensures first_size { cached_size first_entry ≡ 73 }
    ensures stored { entry_of_cached first_entry ≡ (first_entry.key, first_stored) }
{}

/// Runs in which clients are answered from the cache, computed on the definitions: how an answer
/// ages, what is kept and within which limits, which requests it answers, and that it takes a
/// Message ID.
pub fn examples_of_hits()
    ensures at_once { play proxy (aged 0) ≡ aged_sent (seconds 10) }
    ensures in_the_first_second { play proxy (aged 1) ≡ aged_sent (seconds 9) }
    ensures in_the_last_second { play proxy (aged 9001) ≡ aged_sent no_second }
    ensures at_the_last_moment { play proxy (aged 10000) ≡ aged_sent no_second }
    ensures a_moment_later { play proxy stale ≡ stale_sent }
    ensures from_its_coming { play proxy aged_from_coming ≡ aged_from_coming_sent }
    ensures an_error { play proxy (again_after 2500 0x84 (seconds 10))
        ≡ kept_and_hit 0x84 (seconds 10) (seconds 7) }
    ensures an_error_of_class_5 { play proxy (again_after 60000 0xA0 [])
        ≡ kept_and_hit 0xA0 (seconds 60) no_second }
    ensures an_error_no_more { play proxy (again_after 60001 0xA0 [])
        ≡ kept_and_missed 0xA0 (seconds 60) }
    ensures without_max_age { play proxy (again_after 1000 0x45 [])
        ≡ kept_and_hit 0x45 (seconds 60) (seconds 59) }
    ensures max_age_0 { play proxy (again_after 0 0x45 no_second) ≡ not_kept 0x45 no_second }
    ensures an_error_of_max_age_0 { play proxy (again_after 0 0x84 no_second)
        ≡ not_kept 0x84 no_second }
    ensures a_change { play proxy (again_after 0 0x44 []) ≡ not_kept 0x44 [] }
    ensures in_73_bytes { play (within_bytes 73) (aged 0) ≡ aged_sent (seconds 10) }
    ensures not_in_72_bytes { play (within_bytes 72) (aged 0) ≡ too_large_sent }
    ensures not_in_no_bytes { play (within_bytes 0) (aged 0) ≡ too_large_sent }
    ensures counted { (counts (after (within_bytes 73) (aged 0))).cached_bytes ≡ 73 }
    ensures outgrown { (counts (after (within_bytes 72) outgrown)).entries ≡ 0 }
    ensures room_to_grow { (counts (after (within_bytes 73) outgrown)).entries ≡ 1 }
    ensures two_keys { play (within_entries 1) two_keys ≡ two_keys_sent }
    ensures used_since { play (within_entries 2) used_since ≡ used_since_sent }
    ensures with_size { play proxy with_size ≡ aged_sent (seconds 10) }
    ensures with_accept { play proxy with_accept ≡ with_accept_sent }
    ensures greatest_token { play proxy greatest_token ≡ greatest_token_sent }
    ensures held { play proxy (tagged (get_with_tag 0xAB))
        ≡ tagged_sent (0x50 ∷ 0x43 ∷ 0 ∷ 3 ∷ 0x41 ∷ 0xAB ∷ 0xA1 ∷ 7 ∷ []) }
    ensures other_tag { play proxy (tagged (get_with_tag 0xEF))
        ≡ tagged_sent (0x50 ∷ 0x45 ∷ 0 ∷ 3 ∷ 0x41 ∷ 0xAB ∷ 0xA1 ∷ 7 ∷ 0xFF ∷ 0x32 ∷ 0x31 ∷ []) }
    ensures last_id { play (after_ids 32765) last_hit ≡ last_hit_sent }
{}

/// Histories and their caches: an answer that isn't stored, one that is kept, a client that gets
/// it, one that replaces it, and one that is too large. An entry isn't obtained before its response
/// arrives, nor with the answer to another request.
pub fn examples_of_caches()
    ensures not_stored { IsCacheOf setting forged.past [] }
    ensures kept { IsCacheOf setting kept_past (first_entry ∷ []) }
    ensures hit { IsCacheOf setting hit_past (first_entry ∷ []) }
    ensures asked { IsCacheOf setting asked_past (first_entry ∷ []) }
    ensures in_place { IsCacheOf setting (answered 20 3 2 (Answered Kept) ∷ asked_past)
        (second_entry ∷ []) }
    ensures too_large { IsCacheOf setting (answered 20 3 2 (Answered TooLarge) ∷ asked_past) [] }
    ensures not_got_yet { ¬ WasObtained setting (asked ∷ opened ∷ []) first_entry }
    ensures not_its_answer { ¬ IsObtained setting key_of_temp (content_for 1 2)
        (record { before = opened ∷ []; action = asked })
        (record {
          before = asked ∷ opened ∷ [];
          action = record (answered 5 1 2 (Answered Kept)) { act = moves 1 };
        }) }
{}

/// A reply from the cache that is as it should be is justified; replies that are right except for
/// one thing, and an answer that is kept although a change overtook it, are not. A reply whose
/// target was changed isn't one from the cache, and would be one except for that. And a proxy that
/// opened two exchanges with room for one doesn't keep its promise.
pub fn forged_hits_are_refused()
    ensures as_it_is { IsHit setting asked_past (reply 25 9) }
    ensures changed { WasChanged setting key_of_temp.target first_entry.asking changed_past }
    ensures unchanged { Unchanged setting key_of_temp.target first_entry.asking asked_past }
    ensures after_a_change { ¬ IsHit setting changed_past (reply 25 9) }
    ensures too_late { ¬ IsHit setting asked_past (reply 10006 0) }
    ensures as_received { ¬ IsHit setting asked_past (reply 25 10) }
    ensures from_cache { IsFromCache setting asked_past (reply 25 9).observation }
    ensures not_from_cache { ¬ IsFromCache setting changed_past (reply 25 9).observation }
    ensures but_for_the_change { Unchanged setting key_of_temp.target first_entry.asking
        changed_past
        → IsFromCache setting changed_past (reply 25 9).observation }
    ensures overtaken { ¬ IsKept setting overtaken_past keeps_overtaken }
    ensures two_exchanges { (w : State)
        → w.setting.limits.exchanges ≡ 1
        → ¬ KeepsItsWord opens_two w }
{}

/// Answers with and without memory for them: only a key without an entry needs memory, and the
/// client gets its answer in any case.
pub fn examples_of_memory()
    ensures memory { (answer_with true).report.outcome ≡ Answered Kept }
    ensures no_memory { (answer_with false).report.outcome ≡ Answered NoMemory }
    ensures still_delivered { play (answer_with false).state (tick_at 0 ∷ []) ≡ still_delivered }
    ensures in_place { (answer_in_place false).report.outcome ≡ Answered Kept }
{}

/// What may be stored was obtained, in a justified history: it arrived for a GET with its key, or
/// it was obtained for the key before, and a 2.03 that arrived for a GET with its tag renews it.
/// The target wasn't changed since, and it stays fresh for some time.
pub fn what_is_stored_was_obtained()
    ensures obtained { (setting : Setting) (past : List Action) (d : Action)
        (here : IsObtainedHere setting past d)
        → AreRoutes setting.routes
        → AllJustified setting past
        → IsObtained setting (key_asked here.gets) (entry_here here).response
        here.gets.meets.asking (record { before = past; action = d }) }
    ensures fetched { (setting : Setting) (key : CacheKey) (response : Message)
        (asking getting : Position)
        → IsObtained setting key response asking getting
        → IsFetched setting key asking getting }
    ensures lasting { (setting : Setting) (key : CacheKey) (response : Message)
        (asking getting : Position)
        → IsObtained setting key response asking getting
        → IsLasting response }
{}

/// The converse: a response to a GET whose target wasn't changed since, which is passed on, may be
/// stored if it may be kept; and so may the response whose tag the GET had, if a 2.03 renews it.
pub fn what_came_so_may_be_stored()
    ensures as_it_came { (setting : Setting) (past : List Action) (d : Action) (exchange : ℕ)
        (gets : Gets setting exchange (record { before = past; action = d })) (former : List Cached)
        → to_get gets ≡ true
        → Unchanged setting (key_asked gets).target gets.meets.asking past
        → WasCacheAt setting gets.meets.asking.before exchange former
        → is_passed_on setting.limits.datagram true gets.meets.message ≡ true
        → IsLasting (passed_part true gets.meets.message)
        → IsObtainedHere setting past d }
    ensures renewed { (setting : Setting) (past : List Action) (d : Action) (exchange : ℕ)
        (gets : Gets setting exchange (record { before = past; action = d })) (former : List Cached)
        (old : Message)
        → to_get gets ≡ true
        → Unchanged setting (key_asked gets).target gets.meets.asking past
        → WasCacheAt setting gets.meets.asking.before exchange former
        → is_passed_on setting.limits.datagram true gets.meets.message ≡ true
        → copied (tags_of (asked_of gets)) (key_asked gets) former ≡ Some old
        → is_validated old (passed_part true gets.meets.message) ≡ true
        → fits setting.limits.datagram (renewed old (passed_part true gets.meets.message)) ≡ true
        → IsLasting (renewed old (passed_part true gets.meets.message))
        → IsObtainedHere setting past d }
{}

/// What was obtained and is no larger than the limit is kept if its key has an entry: memory can
/// only run out for a key without one.
pub fn what_takes_a_place_is_kept()
    ensures { (setting : Setting) (past : List Action) (d : Action) (cached : List Cached)
        (entry : Cached) (here : IsObtainedHere setting past d)
        → JustifiedBy d.observation.report.outcome setting past d
        → accepts_answer d.observation.report.outcome ≡ true
        → size_here here ≤ setting.limits.cache_bytes
        → IsCacheOf setting past cached
        → of_key cached_key (key_asked here.gets) cached ≡ Some entry
        → d.observation.report.outcome ≡ Answered Kept }
{}

/// What is sent from the cache was received: for a key that is equal to the request's, at an
/// earlier position, for a request that was forwarded before that, in a justified history.
pub fn what_is_shown_was_received()
    ensures asked { (setting : Setting) (past : List Action) (d : Action)
        (hit : IsHit setting past d)
        → AreRoutes setting.routes
        → AllJustified setting past
        → IsPositionOf past hit.entry.asking }
    ensures received { (setting : Setting) (past : List Action) (d : Action)
        (hit : IsHit setting past d)
        → AreRoutes setting.routes
        → AllJustified setting past
        → IsPositionOf past hit.entry.getting }
    ensures equal_key { (setting : Setting) (past : List Action) (d : Action)
        (hit : IsHit setting past d)
        → AreRoutes setting.routes
        → AllJustified setting past
        → IsObtained setting hit.key hit.entry.response hit.entry.asking hit.entry.getting }
{}

/// A history has at most one cache. Each entry of it was obtained in the history, if this is
/// justified. The cache is within the limits, and has at most one entry for a key.
pub fn caches_are_one()
    ensures one { (setting : Setting) (history : List Action) (a b : List Cached)
        → IsCacheOf setting history a
        → IsCacheOf setting history b
        → a ≡ b }
    ensures obtained { (setting : Setting) (history : List Action) (cached : List Cached)
        → AreRoutes setting.routes
        → AllJustified setting history
        → IsCacheOf setting history cached
        → AllByRecursion (WasObtained setting history) cached }
    ensures within { (setting : Setting) (history : List Action) (cached : List Cached)
        → IsCacheOf setting history cached
        → IsStore (store_limits setting) (map entry_of_cached cached) }
{}

/// A store corresponds to the cache of the history, and what is done to one is done to the other:
/// at first both are empty, an answer that is kept is put in front, one that is too large removes
/// the entry with its key, a request that is answered moves it to the front, and every other
/// outcome leaves both as they are. In addition, what an answer changes is marked.
pub fn stores_follow_caches()
    ensures new { (setting : Setting) → IsStoreOf setting [] [] }
    ensures kept { (setting : Setting) (past : List Action) (d : Action) (exchange : ℕ)
        (gets : Gets setting exchange (record { before = past; action = d }))
        (store : List Entry) (former : List Cached) (new : Entry)
        → d.observation.report.outcome ≡ Answered Kept
        → WasCacheAt setting gets.meets.asking.before exchange former
        → IsStored setting (d ∷ past) new (entry_got former gets)
        → IsStoreOf setting past store
        → IsStoreOf setting (d ∷ past)
        (put entry_key entry_size setting.limits.cache_bytes setting.limits.cache_entries
        new (marked_all (changed_by (key_asked gets).target gets.meets.message) store)) }
    ensures too_large { (setting : Setting) (past : List Action) (d : Action) (exchange : ℕ)
        (gets : Gets setting exchange (record { before = past; action = d })) (store : List Entry)
        → d.observation.report.outcome ≡ Answered TooLarge
        → IsStoreOf setting past store
        → IsStoreOf setting (d ∷ past)
        (others entry_key (key_asked gets)
        (marked_all (changed_by (key_asked gets).target gets.meets.message) store)) }
    ensures marked { (setting : Setting) (past : List Action) (d : Action) (exchange : ℕ)
        (gets : Gets setting exchange (record { before = past; action = d })) (store : List Entry)
        → leaves d.observation.report.outcome ≡ true
        → IsStoreOf setting past store
        → IsStoreOf setting (d ∷ past)
        (marked_all (changed_by (key_asked gets).target gets.meets.message) store) }
    ensures hit { (setting : Setting) (past : List Action) (store : List Entry) (d : Action)
        (client : Endpoint) (request : Message) (target : Target) (stored : Entry)
        → d.observation.report.outcome ≡ Hit
        → Brings setting.limits.datagram client request d.observation.event
        → request_target setting.routes request ≡ Ok target
        → of_key entry_key (request_key target request) store ≡ Some stored
        → IsStoreOf setting past store
        → IsStoreOf setting (d ∷ past) (used entry_key (request_key target request) store) }
    ensures otherwise { (setting : Setting) (past : List Action) (store : List Entry) (d : Action)
        → leaves d.observation.report.outcome ≡ true
        → accepts_answer d.observation.report.outcome ≡ false
        → IsStoreOf setting past store
        → IsStoreOf setting (d ∷ past) store }
{}

/// A store that corresponds to the cache of the history has for each key what the cache has, marked
/// if its target was changed since it was requested, and nothing else. It has the same size in
/// bytes and entries, is within the limits, and has at most one entry for a key.
pub fn stores_have_what_caches_have()
    ensures found { (setting : Setting) (history : List Action) (store : List Entry)
        (s : IsStoreOf setting history store) (key : CacheKey) (stored : Stored)
        → stored_for key store ≡ Some stored
        → IsEntryOf setting history s.cached key (key, stored) }
    ensures there { (setting : Setting) (history : List Action) (store : List Entry)
        (s : IsStoreOf setting history store) (key : CacheKey) (entry : Cached)
        → of_key cached_key key s.cached ≡ Some entry
        → (marked : Bool) × (of_key entry_key key store ≡ Some (entry_marked marked entry))
        × IsTold marked setting entry.key.target entry.asking history }
    ensures nothing { (setting : Setting) (history : List Action) (store : List Entry)
        (s : IsStoreOf setting history store) (key : CacheKey)
        → of_key entry_key key store ≡ None
        → of_key cached_key key s.cached ≡ None }
    ensures bytes { (setting : Setting) (history : List Action) (store : List Entry)
        (s : IsStoreOf setting history store)
        → total entry_size store ≡ total cached_size s.cached }
    ensures entries { (setting : Setting) (history : List Action) (store : List Entry)
        (s : IsStoreOf setting history store)
        → length store ≡ length s.cached }
    ensures within { (setting : Setting) (history : List Action) (store : List Entry)
        → IsStoreOf setting history store
        → IsStore (store_limits setting) store }
{}

/// An answer that is kept comes first: in the cache of the history, and in the store of a proxy,
/// with the response that arrived or was renewed, the numbers of the events in which it was
/// requested and in which it arrived, and the moment of the latter, and without a mark.
pub fn what_is_kept_stands_first()
    ensures in_the_cache { (setting : Setting) (past : List Action) (d : Action)
        (cached : List Cached)
        → 1 ≤ setting.limits.cache_entries
        → JustifiedBy d.observation.report.outcome setting past d
        → d.observation.report.outcome ≡ Answered Kept
        → (here : IsObtainedHere setting past d)
        → IsCacheOf setting (d ∷ past) cached
        → StandsFirst (entry_here here) cached }
    ensures in_the_store { (w : State) (history : List told.Observation) (c : Carries history w)
        (past : List Action) (d : Action)
        → AreLimits w.setting.limits
        → c.actions ≡ d ∷ past
        → d.observation.report.outcome ≡ Answered Kept
        → (here : IsObtainedHere w.setting past d)
        → StandsFirst (entry_of_cached (entry_here here)) w.store }
{}
