//! Responses that weren't fetched for a key, though they arrived.
ghost use Rattle.std.specs.Prelude.{◌≡◌, ◌∷◌, [], true};
ghost use Rattle.coap_store.specs.declared.key.CacheKey.{CacheKey};
ghost use Rattle.coap_model.specs.Cached.{IsFetched};
ghost use Rattle.coap_model.specs.CacheExamples.{first_entry};
ghost use Rattle.coap_model.specs.Changed.{to_get, Unchanged};
ghost use Rattle.coap_model.specs.Forged.{asked, opened, setting};
ghost use Rattle.coap_model.specs.ForgedHits.{keeps_overtaken, overtaken_past};
ghost use Rattle.coap_model.specs.History.{Position};
ghost use Rattle.coap_model.specs.OptionExamples.{key_of_temp};
ghost use Rattle.coap_model.specs.WordExamples.{at};
ghost use Rattle.test_promises.specs.Fetches.{asks_put, get_past, gets_error, opens_put, put_past, quiet_past, IsAnswerTo};
ghost use Rattle.test_promises.specs.Replies.{key_accepting, key_of_part};

/// An answer is fetched if its request was a GET, and if the target wasn't changed since that was
/// sent (RFC 7252, 5.6 and 5.9.1.4).
pub fn answers_to_a_get_of_an_unchanged_target_are_fetched()
    ensures whole { (key : CacheKey) (asking getting : Position)
        (answer : IsAnswerTo key asking getting)
        → to_get answer.gets ≡ true
        → Unchanged setting key.target asking getting.before
        → IsFetched setting key asking getting }
{}

/// A response is fetched for the key of the request that it answers, and not for another path, nor
/// for a request with an Accept, although neither target was changed (RFC 7252, 5.6).
pub fn fetches_for_another_key_are_refused()
    ensures its_key { IsFetched setting key_of_temp first_entry.asking first_entry.getting }
    ensures path { ¬ IsFetched setting key_of_part first_entry.asking first_entry.getting }
    ensures but_for_the_path { Unchanged setting key_of_part.target
        first_entry.asking first_entry.getting.before }
    ensures accept { ¬ IsFetched setting key_accepting first_entry.asking first_entry.getting }
    ensures but_for_the_accept { Unchanged setting key_accepting.target
        first_entry.asking first_entry.getting.before }
{}

/// A 4.04 is fetched by a GET, and not by a PUT (RFC 7252, 5.8.3 and 5.9.2).
pub fn fetches_by_another_method_are_refused()
    ensures by_a_get { IsFetched setting key_of_temp (at (opened ∷ []) asked)
        (at get_past gets_error) }
    ensures by_a_put { ¬ IsFetched setting key_of_temp (at (opens_put ∷ []) asks_put)
        (at put_past gets_error) }
    ensures but_for_its_method { IsAnswerTo key_of_temp (at (opens_put ∷ []) asks_put)
        (at put_past gets_error)
        × Unchanged setting key_of_temp.target (at (opens_put ∷ []) asks_put) put_past }
{}

/// A response isn't fetched if a 2.04 for its target arrived after its request was sent; without
/// the 2.04 it is (RFC 7252, 5.9.1.4).
pub fn fetches_that_a_change_overtook_are_refused()
    ensures unchanged { IsFetched setting key_of_temp (at (opened ∷ []) asked)
        (at quiet_past keeps_overtaken) }
    ensures overtaken { ¬ IsFetched setting key_of_temp (at (opened ∷ []) asked)
        (at overtaken_past keeps_overtaken) }
    ensures but_for_the_change { (answer : IsAnswerTo key_of_temp (at (opened ∷ []) asked)
        (at overtaken_past keeps_overtaken))
        × (to_get answer.gets ≡ true) }
{}

/// A response is fetched since the position where its request was sent, and not since an earlier
/// one, although its target wasn't changed since then either.
pub fn fetches_since_another_position_are_refused()
    ensures its_position { IsFetched setting key_of_temp first_entry.asking first_entry.getting }
    ensures another { ¬ IsFetched setting key_of_temp (at [] opened) first_entry.getting }
    ensures but_for_the_position { Unchanged setting key_of_temp.target
        (at [] opened) first_entry.getting.before }
{}
