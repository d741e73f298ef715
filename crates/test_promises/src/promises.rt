//! The promise in short as a whole: what it says of each position of a history, and histories of no
//! proxy that keeps it.
ghost use Rattle.std.specs.Prelude.{◌≡◌, ◌≤◌, List, length};
ghost use Rattle.coap_message.specs.Message.{Message};
ghost use Rattle.coap_endpoint.specs.declared.endpoint.Endpoint.{Endpoint};
ghost use Rattle.coap_store.specs.Entries.{entry_size};
ghost use Rattle.coap_store.specs.Lists.{total};
ghost use Rattle.coap_model.specs.declared.report.Outcome.TheVariants.{Hit};
ghost use Rattle.coap_model.specs.Cached.{IsStoreOf};
ghost use Rattle.coap_model.specs.Duplicates.{Repeats};
ghost use Rattle.coap_model.specs.Forged.{setting};
ghost use Rattle.coap_model.specs.History.{Action, Observation, IsPositionOf, Position, told_by};
ghost use Rattle.coap_model.specs.Justified.{AllJustified, Comes};
ghost use Rattle.coap_model.specs.MessageIds.{IdsDiffer};
ghost use Rattle.coap_model.specs.State.{State};
ghost use Rattle.coap_model.specs.Word.{IsCacheWithin, IsFromCache, IsRepliedAgain, IsWithin, KeepsItsWord, until};
ghost use Rattle.test_promises.specs.Promises.{acknowledges_another, begins_with_a_hit, only_a_hit, IsOtherwiseWithin};

/// For a proxy that keeps its promise: at each position the limits hold, a hit is a reply from the
/// cache, and a message that repeats an earlier one within its lifetime is handled as a duplicate.
pub fn the_promise_covers_each_position()
    ensures limits { (history : List Observation) (w : State) (word : KeepsItsWord history w)
        (p : Position)
        → IsPositionOf word.actions p
        → IsWithin w.setting (until p) }
    ensures hits { (history : List Observation) (w : State) (word : KeepsItsWord history w)
        (p : Position)
        → IsPositionOf word.actions p
        → p.action.observation.report.outcome ≡ Hit
        → IsFromCache w.setting p.before p.action.observation }
    ensures duplicates { (history : List Observation) (w : State) (word : KeepsItsWord history w)
        (p former : Position) (source : Endpoint) (m : Message)
        → IsPositionOf word.actions p
        → IsPositionOf p.before former
        → Comes w.setting source m p.action.observation.event
        → Repeats p.action.observation.now source m former
        → IsRepliedAgain source m former p.action.observation }
{}

/// For a proxy that keeps its promise: its history is the one of the promise, each observation is
/// justified, and no Message ID is given out twice within 247 seconds; its store corresponds to the
/// cache of the history, and is within its limits.
pub fn the_promise_covers_the_whole()
    ensures history { (history : List Observation) (w : State) (word : KeepsItsWord history w)
        → told_by word.actions ≡ history }
    ensures justified { (history : List Observation) (w : State) (word : KeepsItsWord history w)
        → AllJustified w.setting word.actions }
    ensures ids { (history : List Observation) (w : State) (word : KeepsItsWord history w)
        → IdsDiffer word.actions }
    ensures store { (history : List Observation) (w : State) (word : KeepsItsWord history w)
        → IsStoreOf w.setting word.actions w.store }
    ensures entries { (history : List Observation) (w : State)
        → KeepsItsWord history w
        → length w.store ≤ w.setting.limits.cache_entries }
    ensures bytes { (history : List Observation) (w : State)
        → KeepsItsWord history w
        → total entry_size w.store ≤ w.setting.limits.cache_bytes }
{}

/// A history that begins with a reply from the cache has no cache, and so it isn't within limits,
/// although no other limit is exceeded. With a cache within limits it would be.
pub fn a_history_without_a_cache_is_refused()
    ensures no_cache { ¬ IsWithin setting only_a_hit }
    ensures but_for_the_cache { IsOtherwiseWithin only_a_hit }
    ensures whole { (history : List Action)
        → IsOtherwiseWithin history
        → IsCacheWithin setting history
        → IsWithin setting history }
{}

/// No proxy that keeps its promise has a history that begins with a reply from the cache.
pub fn a_hit_before_any_response_is_refused()
    ensures { (w : State) → ¬ KeepsItsWord begins_with_a_hit w }
{}

/// Nor does it have a history where a duplicate of a Confirmable request gets another
/// acknowledgement than the request got, if the request isn't too long for a datagram (RFC 7252,
/// 4.2).
pub fn another_acknowledgement_is_refused()
    ensures { (w : State)
        → 6 ≤ w.setting.limits.datagram
        → ¬ KeepsItsWord acknowledges_another w }
{}
