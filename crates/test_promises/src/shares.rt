//! Shared limits at their edges: reached, and one below.
ghost use Rattle.std.specs.Prelude.{◌≡◌, ◌≢◌, ◌≤◌, ◌∷◌, ℕ, [], List, length};
ghost use Rattle.coap_message.specs.Message.{Message};
ghost use Rattle.coap_endpoint.specs.declared.endpoint.Endpoint.{Endpoint};
ghost use Rattle.coap_limits.specs.Limits.{default_limits};
ghost use Rattle.coap_model.specs.declared.report.Outcome.TheVariants.{NoRecordRoom, Overloaded};
ghost use Rattle.coap_model.specs.History.{Observation, IsPositionOf, IsRequestOf, Position};
ghost use Rattle.coap_model.specs.Justified.{Comes, HasOwnRecordRoom};
ghost use Rattle.coap_model.specs.Shares.{AreFrom, AreShares, IsFullOf, IsShort, LeavesRoom};
ghost use Rattle.coap_model.specs.Standing.{HasIds, HasOwnRoomToOpen};
ghost use Rattle.coap_model.specs.State.{State};
ghost use Rattle.coap_model.specs.Word.{until};
ghost use Rattle.coap_model.specs.WordExamples.{con_read, two_pending, two_pending_con};
ghost use Rattle.test_promises.specs.Replies.{part};
ghost use Rattle.test_promises.specs.Shares.{halves, refusal};

/// Where two messages of a type are remembered, no more of this type may be if two may, and more
/// may be if three may.
pub fn limits_of_remembered_messages_are_exact()
    ensures con { IsFullOf (record default_limits { con_records = 2 }) con_read 0 two_pending_con }
    ensures con_below { ¬ IsFullOf
        (record default_limits { con_records = 3 }) con_read 0 two_pending_con }
    ensures non { IsFullOf (record default_limits { non_records = 2 }) part 0 two_pending }
    ensures non_below { ¬ IsFullOf (record default_limits { non_records = 3 }) part 0 two_pending }
    ensures of_another_type { ¬ IsFullOf
        (record default_limits { con_records = 1 }) con_read 0 two_pending }
{}

/// Where two exchanges are open, with a waiter each, room is short if two may be open, or two
/// waiters may wait, and not if three may.
pub fn limits_of_exchanges_and_clients_are_exact()
    ensures exchanges { IsShort (record default_limits { exchanges = 2 }) 0 two_pending }
    ensures exchanges_below { ¬ IsShort (record default_limits { exchanges = 3 }) 0 two_pending }
    ensures waiters { IsShort (record default_limits { waiters = 2 }) 0 two_pending }
    ensures waiters_below { ¬ IsShort (record default_limits { waiters = 3 }) 0 two_pending }
{}

/// In each 247 seconds 32,768 Message IDs may be given out. One is reserved for each waiter, one for
/// each request that is still to be sent, and what was given out is used up (RFC 7252, 4.4).
pub fn free_ids_are_counted_exactly()
    ensures all { HasIds 32768 0 [] }
    ensures no_more { ¬ HasIds 32769 0 [] }
    ensures besides_two { HasIds 32764 0 two_pending }
    ensures no_more_besides_two { ¬ HasIds 32765 0 two_pending }
    ensures besides_a_given_one { HasIds 32767 246999 (refusal 0 ∷ []) }
    ensures no_more_besides_a_given_one { ¬ HasIds 32768 246999 (refusal 0 ∷ []) }
    ensures later { HasIds 32768 247000 (refusal 0 ∷ []) }
{}

/// What two clients may use up is no more than what they share, and what three may use up is.
pub fn shares_are_added_up_exactly()
    ensures of_two { AreShares halves 2 }
    ensures of_three { ¬ AreShares halves 3 }
    ensures con_records { ¬ AreShares (record halves { client_con_records = 2 }) 2 }
    ensures non_records { ¬ AreShares (record halves { client_non_records = 2 }) 2 }
    ensures exchanges { ¬ AreShares (record halves { client_exchanges = 2 }) 2 }
    ensures waiters { ¬ AreShares (record halves { client_waiters = 2 }) 2 }
{}

/// For a proxy that leaves room to each client: a message of an endpoint below its own limit is
/// dropped only if all endpoints together reach theirs, and a request is turned away only if room
/// is short; where few endpoints have sent anything, neither happens for want of shared room.
pub fn room_is_left_at_each_position()
    ensures remembered { (history : List Observation) (w : State) (left : LeavesRoom history w)
        (p : Position) (source : Endpoint) (m : Message)
        → IsPositionOf left.actions p
        → Comes w.setting source m p.action.observation.event
        → HasOwnRecordRoom w.setting p.before p.action.observation.now source m
        → p.action.observation.report.outcome ≡ NoRecordRoom
        → IsFullOf w.setting.limits m p.action.observation.now p.before }
    ensures served { (history : List Observation) (w : State) (left : LeavesRoom history w)
        (p : Position) (client : Endpoint) (request : Message)
        → IsPositionOf left.actions p
        → IsRequestOf w.setting client request p.action.observation.event
        → HasOwnRoomToOpen w.setting.limits client p.before
        → p.action.observation.report.outcome ≡ Overloaded
        → IsShort w.setting.limits p.action.observation.now p.before }
    ensures remembered_of_few { (history : List Observation) (w : State)
        (left : LeavesRoom history w)
        (many : ℕ) (endpoints : List Endpoint) (p : Position) (source : Endpoint) (m : Message)
        → length endpoints ≤ many
        → AreShares w.setting.limits many
        → IsPositionOf left.actions p
        → AreFrom endpoints (until p)
        → Comes w.setting source m p.action.observation.event
        → HasOwnRecordRoom w.setting p.before p.action.observation.now source m
        → p.action.observation.report.outcome ≢ NoRecordRoom }
    ensures served_of_few { (history : List Observation) (w : State) (left : LeavesRoom history w)
        (many : ℕ) (endpoints : List Endpoint) (p : Position) (client : Endpoint)
        (request : Message)
        → length endpoints ≤ many
        → AreShares w.setting.limits many
        → IsPositionOf left.actions p
        → AreFrom endpoints (until p)
        → IsRequestOf w.setting client request p.action.observation.event
        → HasOwnRoomToOpen w.setting.limits client p.before
        → p.action.observation.report.outcome ≡ Overloaded
        → ¬ HasIds 2 p.action.observation.now p.before }
{}
