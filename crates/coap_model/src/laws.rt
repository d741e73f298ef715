//! Laws of the step: public functions that do nothing, whose contracts are the laws.
ghost use Rattle.std.specs.Prelude.{◌≡◌, [], ◌∷◌, Some, None, false, ◌≢◌, ℕ, ◌^◌, ◌<◌, ◌≤◌, List, filter, ◌+◌, ◌-◌, ◌*◌, Bool, length};
ghost use Rattle.coap_message.specs.declared.kind.Kind.TheVariants.{Non, Con};
ghost use Rattle.coap_message.specs.Spelling.{Spells};
ghost use Rattle.coap_limits.specs.Limits.{AreLimits};
ghost use Rattle.coap_model.specs.Setting.{Setting};
ghost use Rattle.coap_model.specs.declared.report.Outcome.TheVariants.{Idle, Answered};
ghost use Rattle.coap_model.specs.declared.report.Storing.TheVariants.{NoMemory};
ghost use Rattle.coap_option.specs.Selection.{sent_on, max_age_of};
ghost use Rattle.coap_forward.specs.Forms.{is_forwarded};
ghost use Rattle.coap_model.specs.Keys.{key_sent};
ghost use Rattle.coap_forward.specs.Answers.{left_of};
ghost use Rattle.coap_model.specs.Events.{tick, Event, IsEvent};
ghost use Rattle.coap_model.specs.State.{client_counts, counts, State, new_state};
ghost use Rattle.coap_model.specs.Ticks.{next_due};
ghost use Rattle.coap_model.specs.History.{Act, no_item, serves, Action, Observation, grown_of};
ghost use Rattle.coap_model.specs.Justified.{Closes, IsForwarding, IsDelivery};
ghost use Rattle.coap_model.specs.Runs.{turns_of, AreTurns, Taken, new_run, run_of, observation_of};
ghost use Rattle.coap_model.specs.Examples.{to, from, client, content_for_client};
ghost use Rattle.coap_model.specs.ResponseExamples.{request};
ghost use Rattle.coap_model.specs.Standing.{sent, done, exchanges_of, waiters_of, HasOwnRoomToJoin, HasOwnRoomToOpen, HasSharedRoomToJoin, HasSharedRoomToOpen, HasRoomToJoin, HasRoomToOpen, open_in, standing_in};
ghost use Rattle.coap_model.specs.Held.{bytes_held, held, most_held};
ghost use Rattle.coap_model.specs.Ranges.{AreInRange};
ghost use Rattle.coap_message.specs.Message.{Message};
ghost use Rattle.coap_endpoint.specs.declared.endpoint.Endpoint.{Endpoint};
ghost use Rattle.coap_target.specs.Routes.{AreRoutes};
ghost use Rattle.coap_option.specs.declared.side.Side.{Side};
ghost use Rattle.coap_option.specs.Screening.{first_refused};
ghost use Rattle.coap_model.specs.Remembered.{remembered_at, remembered_of};
ghost use Rattle.coap_model.specs.Shares.{LeavesRoom};
ghost use Rattle.coap_model.specs.Due.{IsDueAt, IsNextDue};
ghost use Rattle.coap_model.specs.Forged as forged;
ghost use Rattle.coap_model.specs.Forged.{asked, delivery, right, at_an_arrival};
ghost use Rattle.coap_store.specs.declared.answer.Answer.{Answer};
ghost use Rattle.coap_model.specs.declared.report.Outcome.{Outcome};
ghost use Rattle.coap_store.specs.Lists.{total};
ghost use Rattle.coap_model.specs.Cached.{Cached, cached_size, IsCacheOf};
ghost use Rattle.coap_model.specs.Deeds.{outcome_of};
ghost use Rattle.coap_model.specs.Step.{step_of};
ghost use Rattle.coap_model.specs.Carries.{Bears, Carries};
ghost use Rattle.coap_model.specs.Word.{KeepsItsWord};
ghost use Rattle.coap_model.specs.Promised.{Promised};

/// Each forwarded request has the cache key of the client's request for which it is sent, according
/// to the bytes that were sent.
pub fn requests_keep_their_key()
    ensures { (setting : Setting) (past : List Action) (d : Action)
        (f : IsForwarding setting past d) (m : Message)
        → AreRoutes setting.routes
        → Spells d.observation.bytes m
        → key_sent f.to_send.key.target.at m ≡ f.to_send.key }
{}

/// If no option of a request is refused, each option alone decides whether it is forwarded.
pub fn forwarding_needs_no_place()
    ensures { (m : Message)
        → first_refused Side.Request m.options ≡ None
        → sent_on m ≡ filter (is_forwarded m.code) m.options }
{}

/// The rest of a Max-Age and the age add up to the Max-Age: to no more than it, and with one more
/// second to more than it.
pub fn left_and_age_add_up()
    ensures within { (now : ℕ) (a : Answer)
        → 0 < left_of now a
        → 1000 * left_of now a + (now - a.got) ≤ 1000 * max_age_of a.message }
    ensures no_more { (now : ℕ) (a : Answer)
        → 1000 * max_age_of a.message < 1000 * (left_of now a + 1) + (now - a.got) }
{}

/// A tick of a proxy that carries a history does nothing exactly if nothing is due, or only later.
pub fn ticks_are_idle_where_nothing_is_due()
    ensures none { (w : State) (now draw : ℕ) (grown : Bool)
        → next_due w ≡ None
        → (step_of w now draw grown tick).report.outcome ≡ Idle }
    ensures later { (w : State) (now draw at : ℕ) (grown : Bool)
        → next_due w ≡ Some at
        → now < at
        → (step_of w now draw grown tick).report.outcome ≡ Idle }
    ensures due { (w : State) (history : List Observation) (now draw at : ℕ) (grown : Bool)
        → Carries history w
        → next_due w ≡ Some at
        → at ≤ now
        → (step_of w now draw grown tick).report.outcome ≢ Idle }
{}

/// A delivery is justified, to a client with a Non-confirmable request and to one with a
/// Confirmable request; deliveries that are right except for one thing are not. An acknowledgement
/// with the id of an answer, from its client, closes it; one with another id doesn't, nor does one
/// from another client.
pub fn forged_deliveries_are_refused()
    ensures as_it_is { IsDelivery forged.setting forged.past right }
    ensures in_con { IsDelivery forged.setting forged.past_con forged.in_con }
    ensures for_nobody { ¬ IsDelivery forged.setting forged.past
        (delivery (client 1) (content_for_client 7) no_item) }
    ensures for_another { ¬ IsDelivery forged.setting forged.past
        (delivery (client 1) (content_for_client 7) (serves 2)) }
    ensures again { ¬ IsDelivery forged.setting (right ∷ forged.past) right }
    ensures nothing_got { ¬ IsDelivery forged.setting (asked ∷ forged.opened ∷ []) right }
    ensures to_another { ¬ IsDelivery forged.setting forged.past
        (delivery (client 2) (content_for_client 7) (serves 1)) }
    ensures untimely { ¬ IsDelivery forged.setting forged.past (at_an_arrival right) }
    ensures out_of_turn { ¬ IsDelivery forged.setting (forged.opened_too ∷ forged.past) right }
    ensures early { ¬ IsDelivery forged.setting (forged.opened ∷ forged.answered ∷ asked ∷ [])
        right }
    ensures elsewhere { ¬ IsDelivery forged.setting forged.past_elsewhere right }
    ensures another_age { ¬ IsDelivery forged.setting forged.past
        (delivery (client 1) (content_for_client 10) (serves 1)) }
    ensures con_for_non { ¬ IsDelivery forged.setting forged.past forged.in_con }
    ensures non_for_con { ¬ IsDelivery forged.setting forged.past_con right }
    ensures by_its_id { Closes forged.setting (forged.in_con ∷ forged.past_con) 3000 1
        (forged.acknowledged (client 1) 2) }
    ensures by_another_id { ¬ Closes forged.setting (forged.in_con ∷ forged.past_con) 3000 1
        (forged.acknowledged (client 1) 3) }
    ensures by_another_client { ¬ Closes forged.setting (forged.in_con ∷ forged.past_con) 3000 1
        (forged.acknowledged (client 2) 2) }
{}

/// Each step of a proxy that carries a history leaves a proxy that carries the history with the
/// step's observation in front, if moments never decrease and datagrams consist of bytes.
pub fn steps_are_carried()
    ensures carried { (w : State) (history : List Observation) (now draw : ℕ) (grown : Bool)
        (event : Event)
        → Carries history w
        → w.last ≤ now
        → IsEvent event
        → Carries (observation_of now draw event (step_of w now draw grown event) ∷ history)
        (step_of w now draw grown event).state }
{}

/// A proxy that has done nothing carries the empty history.
pub fn new_proxies_carry_nothing()
    ensures carried { (setting : Setting)
        → AreRoutes setting.routes
        → Carries [] (new_state setting) }
{}

/// No step changes the limits, the routes, the first Message ID or the salt, if datagrams consist
/// of bytes.
pub fn settings_stay()
    ensures stays { (w : State) (now draw : ℕ) (grown : Bool) (event : Event)
        → IsEvent event
        → (step_of w now draw grown event).state.setting ≡ w.setting }
{}

/// Whether there was memory for one more entry of the store is the only choice that the event of a
/// step leaves open, and its report says it: the step is the one that its own report determines,
/// and only an answer that wasn't stored since memory ran out says that there was none.
pub fn memory_is_told()
    ensures step { (w : State) (now draw : ℕ) (event : Event) (grown : Bool)
        → step_of w now draw (grown_of (step_of w now draw grown event).report.outcome) event
        ≡ step_of w now draw grown event }
    ensures wanting { (outcome : Outcome) → grown_of outcome ≡ false → outcome ≡ Answered NoMemory }
{}

/// The counts of a proxy agree with the actions that made its tables: the number of open exchanges
/// and of waiters, the entries and bytes of the cache of these actions, and the number of
/// messages that are still remembered.
pub fn counts_are_of_the_history()
    ensures exchanges { (actions : List Action) (w : State)
        → Bears actions w
        → (counts w).exchanges ≡ length (open_in actions) }
    ensures waiters { (actions : List Action) (w : State)
        → Bears actions w
        → (counts w).waiters ≡ length (standing_in actions) }
    ensures entries { (actions : List Action) (w : State) (cached : List Cached)
        → Bears actions w
        → IsCacheOf w.setting actions cached
        → (counts w).entries ≡ length cached }
    ensures cached_bytes { (actions : List Action) (w : State) (cached : List Cached)
        → Bears actions w
        → IsCacheOf w.setting actions cached
        → (counts w).cached_bytes ≡ total cached_size cached }
    ensures con_records { (actions : List Action) (w : State)
        → Bears actions w
        → (counts w).con_records ≡ length (remembered_at Con w.last actions) }
    ensures non_records { (actions : List Action) (w : State)
        → Bears actions w
        → (counts w).non_records ≡ length (remembered_at Non w.last actions) }
{}

/// The same for what is one endpoint's: open exchanges count for the client that opened them,
/// waiters for the client whose requests wait, and remembered messages for their source.
pub fn client_counts_are_of_the_history()
    ensures exchanges { (actions : List Action) (w : State) (client : Endpoint)
        → Bears actions w
        → (client_counts w client).exchanges ≡ exchanges_of client actions }
    ensures waiters { (actions : List Action) (w : State) (client : Endpoint)
        → Bears actions w
        → (client_counts w client).waiters ≡ waiters_of client actions }
    ensures con_records { (actions : List Action) (w : State) (from : Endpoint)
        → Bears actions w
        → (client_counts w from).con_records ≡ remembered_of from Con w.last actions }
    ensures non_records { (actions : List Action) (w : State) (from : Endpoint)
        → Bears actions w
        → (client_counts w from).non_records ≡ remembered_of from Non w.last actions }
{}

/// A proxy that carries a history keeps this promise about it: each observation is justified by the
/// observations before it, each waiter is served at most once, Message IDs count up and none is
/// reused within 247 seconds, each message is sent by its schedule, at most `nstart` requests to
/// one endpoint are outstanding, exchanges, waiters and records are within their shared and client
/// limits, and the store and the bytes held are within their limits.
pub fn what_is_carried_is_promised()
    ensures promised { (history : List Observation) (w : State) → Carries history w
        → Promised history w }
{}

/// The promise in short. A proxy keeps its promise for any history that it carries, at each
/// position of it: exchanges in progress, waiters, remembered messages and the cache are within
/// their shared and client limits; each reply from the cache is a response that was received for an
/// equal key, only renewed by later validations, fresh, with its Max-Age reduced by its age, and
/// with a target that wasn't changed since it was requested; each message that repeats one within
/// its lifetime gets the kept reply again; and no Message ID is given out twice within 247 seconds.
/// So does a new proxy, whatever datagrams and ticks come at moments that never decrease.
pub fn the_word_is_kept()
    ensures carried { (history : List Observation) (w : State)
        → Carries history w
        → KeepsItsWord history w }
    ensures run { (setting : Setting) (turns : List Taken)
        → AreRoutes setting.routes
        → AreTurns 0 (turns_of turns)
        → KeepsItsWord (run_of (new_run setting) turns).history
        (run_of (new_run setting) turns).state }
{}

/// One client doesn't use up the room of the others. In any history that a proxy carries, a message
/// of an endpoint that is below its own limits is dropped, or gets 5.03, only if a limit that all
/// clients share is reached, or if Message IDs are short; and if few enough endpoints have sent
/// anything that the limits for one of them, added up, are no more than the shared ones, then only
/// if Message IDs are short. So it is for a new proxy, whatever datagrams and ticks come at moments
/// that never decrease. What an observation lacked is stated exactly by what justifies it: room of
/// its own or shared room.
pub fn one_client_leaves_room_for_others()
    ensures carried { (history : List Observation) (w : State)
        → Carries history w
        → LeavesRoom history w }
    ensures run { (setting : Setting) (turns : List Taken)
        → AreRoutes setting.routes
        → AreTurns 0 (turns_of turns)
        → LeavesRoom (run_of (new_run setting) turns).history
        (run_of (new_run setting) turns).state }
    ensures to_join { (setting : Setting) (past : List Action) (now : ℕ) (client : Endpoint)
        → HasOwnRoomToJoin setting.limits client past
        → HasSharedRoomToJoin setting.limits now past
        → HasRoomToJoin setting.limits now client past }
    ensures to_open { (setting : Setting) (past : List Action) (now : ℕ) (client : Endpoint)
        → HasOwnRoomToOpen setting.limits client past
        → HasSharedRoomToOpen setting.limits now past
        → HasRoomToOpen setting.limits now client past }
{}

/// The moment at which the next tick is needed is the earliest at which anything is due according
/// to the history, which is unique, and none is needed if nothing is due.
pub fn next_due_is_least()
    ensures next { (w : State) (history : List Observation) (c : Carries history w) (at : ℕ)
        → next_due w ≡ Some at
        → IsNextDue w.setting c.actions at }
    ensures none { (w : State) (history : List Observation) (c : Carries history w)
        → next_due w ≡ None
        → (act : Act) (at : ℕ)
        → ¬ IsDueAt w.setting c.actions act at }
    ensures one { (setting : Setting) (past : List Action) (a b : ℕ)
        → IsNextDue setting past a
        → IsNextDue setting past b
        → a ≡ b }
{}

/// If moments are at most 2^62 milliseconds and draws at most 1,000, nothing is due later than ten
/// minutes after 2^62.
pub fn dues_are_bounded()
    ensures bounded { (w : State) (history : List Observation) (at : ℕ)
        → Carries history w
        → AreInRange history
        → AreLimits w.setting.limits
        → next_due w ≡ Some at
        → at ≤ 2 ^ 62 + 600000 }
{}

/// No datagram that a step sends is longer than the limit `datagram`, if the limits are within
/// their ranges.
pub fn datagrams_fit()
    ensures fits { (w : State) (history : List Observation) (now draw : ℕ) (grown : Bool)
        (event : Event)
        → Carries history w
        → AreLimits w.setting.limits
        → IsEvent event
        → length (step_of w now draw grown event).bytes ≤ w.setting.limits.datagram }
{}

/// The bytes held, as the values count, are at most those that are kept for them, and so within the
/// same bound.
pub fn bytes_held_are_kept()
    ensures kept { (w : State) → bytes_held w ≤ held w }
    ensures within { (w : State) (history : List Observation)
        → Carries history w
        → bytes_held w ≤ most_held w.setting.limits }
{}

/// Whatever happens to a new proxy at moments that never decrease, if datagrams consist of bytes
/// and the origins of the routes are targets, it promises the same for its whole history.
pub fn runs_are_promised()
    ensures kept { (setting : Setting) (turns : List Taken)
        → AreRoutes setting.routes
        → AreTurns 0 (turns_of turns)
        → (run_of (new_run setting) turns).state.setting ≡ setting }
    ensures promised { (setting : Setting) (turns : List Taken)
        → AreRoutes setting.routes
        → AreTurns 0 (turns_of turns)
        → Promised (run_of (new_run setting) turns).history (run_of (new_run setting) turns).state }
{}

/// What a step did in full, its deed, is what it did in short, its outcome.
pub fn deeds_are_outcomes()
    ensures said { (w : State) (now draw : ℕ) (grown : Bool) (event : Event)
        → IsEvent event
        → outcome_of (step_of w now draw grown event).deed
        ≡ (step_of w now draw grown event).report.outcome }
{}
