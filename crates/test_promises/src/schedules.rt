//! Retransmissions and Message IDs at the edges of their times: accepted at the edge, and refused
//! one step beyond it.
ghost use Rattle.std.specs.Prelude.{◌∷◌, []};
ghost use Rattle.coap_pending.specs.Ids.{AreApart};
ghost use Rattle.coap_pending.specs.Timers.{AreSpaced, IsSchedule};
ghost use Rattle.coap_model.specs.Schedules as traffic;
ghost use Rattle.coap_model.specs.WordExamples.{sending};
ghost use Rattle.coap_model.specs.MessageIds.{IdsDiffer};
ghost use Rattle.test_promises.specs.Shares.{refusal};
ghost use Rattle.test_promises.specs.Schedules.{given, longest, shortest, shortest_four, six};

/// A message is sent again after two to three seconds, depending on the draw, then after twice as
/// long each time, and never a millisecond earlier (RFC 7252, 4.2).
pub fn early_retransmissions_are_refused()
    ensures shortest { IsSchedule 0 shortest }
    ensures longest { IsSchedule 1000 longest }
    ensures second { ¬ IsSchedule 0 (1999 ∷ 0 ∷ []) }
    ensures second_by_the_draw { ¬ IsSchedule 1000 (2999 ∷ 0 ∷ []) }
    ensures third { ¬ IsSchedule 0 (5999 ∷ 2000 ∷ 0 ∷ []) }
    ensures fifth { ¬ IsSchedule 0 (29999 ∷ shortest_four) }
    ensures fourth_of_five { ¬ IsSchedule 0 (30000 ∷ 13999 ∷ 6000 ∷ 2000 ∷ 0 ∷ []) }
{}

/// The last retransmission comes less than 93 seconds after the first transmission (RFC 7252,
/// 4.8.2).
pub fn late_retransmissions_are_refused()
    ensures in_time { IsSchedule 0 (92999 ∷ 0 ∷ []) }
    ensures too_late { ¬ IsSchedule 0 (93000 ∷ 0 ∷ []) }
    ensures third_in_time { IsSchedule 0 (92999 ∷ 50000 ∷ 0 ∷ []) }
    ensures third_too_late { ¬ IsSchedule 0 (93000 ∷ 50000 ∷ 0 ∷ []) }
{}

/// A message is sent five times at most, also where a sixth time would come when it is due (RFC
/// 7252, 4.2 and 4.8).
pub fn a_sixth_sending_is_refused()
    ensures five { IsSchedule 0 shortest }
    ensures six { ¬ IsSchedule 0 six }
    ensures but_for_their_number { AreSpaced 0 six }
{}

/// The edges of a schedule, where the moments are those of the observations of a history.
pub fn retransmissions_in_a_history_have_the_same_edges()
    ensures due { traffic.IsSchedule (sending 6000 ∷ sending 2000 ∷ sending 0 ∷ []) }
    ensures early { ¬ traffic.IsSchedule (sending 1999 ∷ sending 0 ∷ []) }
    ensures third_early { ¬ traffic.IsSchedule (sending 5999 ∷ sending 2000 ∷ sending 0 ∷ []) }
    ensures in_time { traffic.IsSchedule (sending 92999 ∷ sending 0 ∷ []) }
    ensures too_late { ¬ traffic.IsSchedule (sending 93000 ∷ sending 0 ∷ []) }
{}

/// A Message ID may be given out again after 247 seconds, and not a millisecond earlier, whatever
/// was given out between or after (RFC 7252, 4.4).
pub fn an_id_given_out_too_soon_is_refused()
    ensures apart { AreApart (given 247000 1 ∷ given 0 1 ∷ []) }
    ensures another { AreApart (given 0 2 ∷ given 0 1 ∷ []) }
    ensures too_soon { ¬ AreApart (given 246999 1 ∷ given 0 1 ∷ []) }
    ensures with_one_between { ¬ AreApart (given 246999 1 ∷ given 9 2 ∷ given 0 1 ∷ []) }
    ensures with_one_after { ¬ AreApart (given 500000 2 ∷ given 246999 1 ∷ given 0 1 ∷ []) }
{}

/// The edge of 247 seconds, where the Message IDs are those of the observations of a history.
pub fn ids_in_a_history_have_the_same_edge()
    ensures apart { IdsDiffer (refusal 247000 ∷ refusal 0 ∷ []) }
    ensures too_soon { ¬ IdsDiffer (refusal 246999 ∷ refusal 0 ∷ []) }
{}
