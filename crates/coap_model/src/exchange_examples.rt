//! Worked examples of exchanges: duplicates, retransmissions, responses, clients that join, and
//! changes. Functions that do nothing, whose contracts are the examples.
ghost use Rattle.std.specs.Prelude.{◌≡◌, true, [], ◌∷◌, ◌++◌, Some, None, false, ◌+◌, length};
ghost use Rattle.coap_message.specs.declared.kind.Kind.TheVariants.{Non, Ack, Con};
ghost use Rattle.coap_model.specs.declared.report.Outcome.TheVariants.{Again, Opened, Refused, Overloaded, NoId, Answered, Acked, Ignored};
ghost use Rattle.coap_model.specs.declared.report.Storing.TheVariants.{Kept, NotStored};
ghost use Rattle.coap_forward.specs.Answers.{answer_of, bad_gateway};
ghost use Rattle.coap_model.specs.State.{counts};
ghost use Rattle.coap_message.specs.declared.code.TheConstants.Code.{NOT_FOUND};
ghost use Rattle.coap_model.specs.Ticks.{next_due};
ghost use Rattle.coap_model.specs.History.{moves, serves, is_con_datagram};
ghost use Rattle.coap_forward.specs.Messages.{is_bare, is_recorded, acknowledgement, reset};
ghost use Rattle.coap_model.specs.Examples.{nothing, to, get_t, origin, from, tick_at, client, play, proxy, narrow_proxy, first_answer_sent, changed};
ghost use Rattle.coap_model.specs.ReplyExamples.{one_left, none_left};
ghost use Rattle.coap_model.specs.FormExamples.{after};
ghost use Rattle.coap_model.specs.OptionExamples.{forward_proxy};
ghost use Rattle.coap_model.specs.DuplicateExamples.{con_u, con_not_found, twice_until, refused_with, of_one_id, of_one_id_sent, one_record, two_clients, two_clients_sent, con_hit, con_hits, con_hits_sent, opened_until, hit_until, hit_sent, con_t, con_acked, con_busy, con_busy_until, con_busy_sent, non_hit, non_busy, busy_until, busy_sent};
ghost use Rattle.coap_model.specs.ReliableExamples.{hasty_proxy, patient_proxy, silent_origin, longest_waits, silence_sent, late_ticks, late_ticks_sent, first_again_at, again_in_time, too_late, after_the_last, after_the_last_sent, answered_later, answered_later_sent, deadline, deadline_sent, sent_late, never_sent, never_sent_sent, blocked, blocked_sent, turn_of_the_second, turn_of_the_second_sent, after_the_end, after_the_end_sent, one_at_a_time, one_at_a_time_sent, two_at_a_time, two_at_a_time_sent, two_origins, two_origins_sent, next_window, next_window_sent, over_the_edge, over_the_edge_sent, again_without_id, again_without_id_sent, spent_with_cache, hit_without_id, hit_without_id_sent, greatest_id, after_the_greatest, after_the_greatest_sent, sent_twice, then_answered, history_of, two_windows};
ghost use Rattle.coap_model.specs.ResponseExamples as responses;
ghost use Rattle.coap_model.specs.ResponseExamples.{empty_ack, empty_reset, con_got, non_got, acked_as, comes, becomes, taken, ignored, acknowledged_until, silence_after, of_others, of_others_sent, reset_by_origin, reset_by_origin_sent, reset_after, reset_after_sent, con_response, con_response_sent, non_response, non_response_sent, before_acknowledgement, before_acknowledgement_sent, block_in_separate, block_in_separate_sent, of_impostors, of_impostors_sent, after_giving_up, after_giving_up_sent, no_room, no_room_sent, no_room_needed, no_room_needed_sent, closes_unused, lets_go_sent, response, request, is_awaited, queued_turns, sent_turns, acked_turns, answered_turns, opened_acting, sent_acting, acked_acting, reset_acting, got_acting, served_acting, non_acting, record_of_response};
ghost use Rattle.coap_model.specs.ClientExamples as clients;
ghost use Rattle.coap_model.specs.JoiningExamples as joining;
ghost use Rattle.coap_model.specs.ConfirmableExamples as confirmable;
ghost use Rattle.coap_model.specs.ChangeExamples as changes;
ghost use Rattle.coap_model.specs.Standing.{waits, queued, sent, acked, done, stage_of, outstanding_to, queued_in, window_ids, open_in, standing_in, service_of, waiting_in, delivering};
ghost use Rattle.coap_model.specs.Schedules.{sends_by, next_send};
ghost use Rattle.coap_model.specs.Held.{held};
ghost use Rattle.coap_model.specs.LimitExamples.{get_u, not_found, got, one_exchange, one_waiter, two_at_once, narrow, after_ids};
ghost use Rattle.coap_model.specs.Remembered.{remembered_at, is_remembered};

/// Duplicates and Confirmable requests, computed: how long a request of each type is remembered,
/// what is sent again, which requests are the same, when there is no room to remember one, what is
/// held and counted, and that an acknowledgement needs no Message ID.
pub fn duplicates()
    ensures non_again { play proxy (twice_until 144999 (get_u 7))
        ≡ refused_with (not_found 0 1) (nothing Again) }
    ensures non_anew { play proxy (twice_until 145000 (get_u 7))
        ≡ refused_with (not_found 0 1) (to (Refused NOT_FOUND) (client 1) (not_found 0 2)) }
    ensures con_again { play proxy (twice_until 246999 (con_u 1))
        ≡ refused_with (con_not_found 1) (to Again (client 1) (con_not_found 1)) }
    ensures con_anew { play proxy (twice_until 247000 (con_u 1))
        ≡ refused_with (con_not_found 1) (to (Refused NOT_FOUND) (client 1) (con_not_found 1)) }
    ensures of_one_id { play proxy of_one_id ≡ of_one_id_sent }
    ensures no_room { play one_record two_clients ≡ two_clients_sent }
    ensures hit { play proxy con_hits ≡ con_hits_sent }
    ensures opened_again { play proxy (opened_until 144999)
        ≡ first_answer_sent ++ nothing Again ∷ [] }
    ensures opened_anew { play proxy (opened_until 145000)
        ≡ first_answer_sent ++ nothing Opened ∷ [] }
    ensures hit_again { play proxy (hit_until 145999 (get_t []))
        ≡ hit_sent non_hit (nothing Again) }
    ensures hit_anew { play proxy (hit_until 146000 (get_t []))
        ≡ hit_sent non_hit (nothing Opened) }
    ensures con_hit_again { play proxy (hit_until 247999 con_t)
        ≡ hit_sent con_hit (to Again (client 2) con_hit) }
    ensures con_hit_anew { play proxy (hit_until 248000 con_t)
        ≡ hit_sent con_hit (to Opened (client 2) con_acked) }
    ensures busy_again { play one_exchange (busy_until 144999) ≡ busy_sent (nothing Again) }
    ensures busy_anew { play one_exchange (busy_until 145000)
        ≡ busy_sent (to Overloaded (client 2) (non_busy 2)) }
    ensures con_busy_again { play one_exchange (con_busy_until 246999)
        ≡ con_busy_sent (to Again (client 2) con_busy) }
    ensures con_busy_anew { play one_exchange (con_busy_until 247000)
        ≡ con_busy_sent (to Overloaded (client 2) con_busy) }
    ensures con_opened_again { play proxy (twice_until 246999 con_t)
        ≡ to Opened (client 1) con_acked ∷ to Again (client 1) con_acked ∷ [] }
    ensures silent_again { play (after_ids 32768) (twice_until 144999 (get_u 7))
        ≡ nothing NoId ∷ nothing Again ∷ [] }
    ensures silent_anew { play (after_ids 32768) (twice_until 145000 (get_u 7))
        ≡ nothing NoId ∷ nothing NoId ∷ [] }
    ensures no_id { play (after_ids 32768)
        (from 0 (client 1) (con_u 1) ∷ from 0 (client 1) (get_u 1) ∷ [])
        ≡ refused_with (con_not_found 1) (nothing NoId) }
    ensures held { held (after proxy (twice_until 300000 (con_u 1))) ≡ 4 }
    ensures held_of_none { held (after proxy (from 0 (client 1) (get_u 7) ∷ [])) ≡ 0 }
    ensures counted { counts (after proxy (from 0 (client 1) (con_u 1) ∷ from 0 (client 1) (get_u 7)
        ∷ tick_at 145000 ∷ []))
        ≡ record {
          cached_bytes = 0;
          entries = 0;
          con_records = 1;
          non_records = 0;
          exchanges = 0;
          waiters = 0;
        } }
{}

/// Reliability towards origin servers, computed: when a request is retransmitted and when it is
/// given up, how many are sent to one endpoint at once, Message IDs by windows of 247 seconds, and
/// what the history says about them.
pub fn reliability()
    ensures silent_origin { play proxy silent_origin ≡ silence_sent }
    ensures longest_waits { play proxy longest_waits ≡ silence_sent }
    ensures late_ticks { play proxy late_ticks ≡ late_ticks_sent }
    ensures again_in_time { play patient_proxy (first_again_at 92999) ≡ again_in_time }
    ensures too_late { play patient_proxy (first_again_at 93000) ≡ too_late }
    ensures after_the_last { play patient_proxy after_the_last ≡ after_the_last_sent }
    ensures answered_later { play proxy answered_later ≡ answered_later_sent }
    ensures deadline { play hasty_proxy deadline ≡ deadline_sent }
    ensures sent_late { play hasty_proxy sent_late ≡ deadline_sent }
    ensures never_sent { play hasty_proxy never_sent ≡ never_sent_sent }
    ensures blocked { play hasty_proxy blocked ≡ blocked_sent }
    ensures turn_of_the_second { play hasty_proxy turn_of_the_second ≡ turn_of_the_second_sent }
    ensures after_the_end { play hasty_proxy after_the_end ≡ after_the_end_sent }
    ensures one_at_a_time { play proxy one_at_a_time ≡ one_at_a_time_sent }
    ensures two_at_a_time { play two_at_once two_at_a_time ≡ two_at_a_time_sent }
    ensures two_origins { play forward_proxy two_origins ≡ two_origins_sent }
    ensures next_window { play (after_ids 32768) next_window ≡ next_window_sent }
    ensures over_the_edge { play (after_ids 32766) over_the_edge ≡ over_the_edge_sent }
    ensures again_without_id { play (after_ids 32765) again_without_id ≡ again_without_id_sent }
    ensures hit_without_id { play spent_with_cache hit_without_id ≡ hit_without_id_sent }
    ensures after_the_greatest { play greatest_id after_the_greatest ≡ after_the_greatest_sent }
    ensures sent_twice_at { next_send (sends_by (moves 1) (history_of sent_twice)) ≡ 7510 }
    ensures one_sent { outstanding_to origin (history_of sent_twice) ≡ 1 }
    ensures one_waits { queued_in (history_of sent_twice) ≡ 1 }
    ensures second_at { next_send (sends_by (moves 2) (history_of then_answered)) ≡ 5000 }
    ensures another_sent { outstanding_to origin (history_of then_answered) ≡ 1 }
    ensures none_waits { queued_in (history_of then_answered) ≡ 0 }
    ensures none_elsewhere { outstanding_to (client 1) (history_of then_answered) ≡ 0 }
    ensures ids_of_both { window_ids 0 (history_of then_answered) ≡ 3 }
    ensures first_window { window_ids 0 (history_of two_windows) ≡ 2 }
    ensures second_window { window_ids 1 (history_of two_windows) ≡ 1 }
{}

/// What origin servers send, computed: acknowledgements and Resets of requests, until when they
/// count and which requests they release; separate responses, which are awaited, acknowledged and
/// remembered; and what the history says about them.
pub fn responses()
    ensures acked_at_last { play proxy (comes 246999 origin (empty_ack 1))
        ≡ becomes (nothing Acked) }
    ensures acked_too_late { play proxy (comes 247000 origin (empty_ack 1)) ≡ ignored }
    ensures reset_at_last { play proxy (comes 246999 origin (empty_reset 1))
        ≡ becomes (nothing (Answered NotStored)) }
    ensures reset_too_late { play proxy (comes 247000 origin (empty_reset 1)) ≡ ignored }
    ensures answered_late { play proxy (comes 247000 origin (got 1 1)) ≡ taken }
    ensures separate_late { play proxy (comes 247000 origin (non_got 1 1)) ≡ taken }
    ensures acked_again { play patient_proxy (acknowledged_until (2000 ∷ 599999 ∷ 600000 ∷ 600000
        ∷ 600000 ∷ [])) ≡ silence_after }
    ensures acked_silence { play proxy (acknowledged_until (2000 ∷ 92999 ∷ 93000 ∷ 93000 ∷ 93000
        ∷ [])) ≡ silence_after }
    ensures acked_in_haste { play hasty_proxy (acknowledged_until (5 ∷ 999 ∷ 1000 ∷ 1000 ∷ 1000
        ∷ [])) ≡ silence_after }
    ensures of_others { play proxy of_others ≡ of_others_sent }
    ensures reset_by_origin { play proxy reset_by_origin ≡ reset_by_origin_sent }
    ensures reset_after { play proxy reset_after ≡ reset_after_sent }
    ensures con_response { play proxy con_response ≡ con_response_sent }
    ensures non_response { play proxy non_response ≡ non_response_sent }
    ensures con_before { play proxy (before_acknowledgement (con_got 1 1))
        ≡ before_acknowledgement_sent (to (Answered Kept) origin (acked_as 1)) }
    ensures non_before { play proxy (before_acknowledgement (non_got 1 1))
        ≡ before_acknowledgement_sent (nothing (Answered Kept)) }
    ensures block_in_separate { play proxy block_in_separate ≡ block_in_separate_sent }
    ensures of_impostors { play proxy of_impostors ≡ of_impostors_sent }
    ensures after_giving_up { play hasty_proxy after_giving_up ≡ after_giving_up_sent }
    ensures no_room { play one_record no_room ≡ no_room_sent }
    ensures no_room_needed { play one_record no_room_needed ≡ no_room_needed_sent }
    ensures one_id { play proxy responses.of_one_id ≡ responses.of_one_id_sent }
    ensures lets_go_answered { play proxy (closes_unused (non_got 2 2))
        ≡ lets_go_sent (nothing (Answered Kept)) }
    ensures lets_go_acked { play proxy (closes_unused (con_got 2 2))
        ≡ lets_go_sent (to (Answered Kept) origin (acked_as 2)) }
    ensures lets_go_reset { play proxy (closes_unused (empty_reset 2))
        ≡ lets_go_sent (nothing (Answered NotStored)) }
    ensures due_again { next_due (after proxy sent_turns) ≡ Some 2000 }
    ensures due_at_its_end { next_due (after proxy acked_turns) ≡ Some 93000 }
    ensures due_to_serve { next_due (after proxy answered_turns) ≡ Some 5 }
    ensures awaited_con { is_awaited (after proxy sent_turns) origin (response Con 300 1) ≡ true }
    ensures awaited_non { is_awaited (after proxy sent_turns) origin (response Non 300 1) ≡ true }
    ensures awaited_ack { is_awaited (after proxy sent_turns) origin (response Ack 1 1) ≡ true }
    ensures other_id { is_awaited (after proxy sent_turns) origin (response Ack 2 1) ≡ false }
    ensures other_token { is_awaited (after proxy sent_turns) origin (response Con 1 2) ≡ false }
    ensures other_source { is_awaited (after proxy sent_turns) (client 1) (response Con 1 1)
        ≡ false }
    ensures not_sent { is_awaited (after proxy queued_turns) origin (response Con 1 1) ≡ false }
    ensures awaited_still { is_awaited (after proxy acked_turns) origin (response Con 300 1)
        ≡ true }
    ensures awaited_so { is_awaited (after proxy acked_turns) origin (response Ack 1 1) ≡ true }
    ensures no_more { is_awaited (after proxy answered_turns) origin (response Con 300 1) ≡ false }
    ensures bare_ack { is_bare (acknowledgement 7) ≡ true }
    ensures bare_reset { is_bare (reset 7) ≡ true }
    ensures not_bare_con { is_bare (record (reset 7) { kind = Con }) ≡ false }
    ensures not_bare_non { is_bare (record (reset 7) { kind = Non }) ≡ false }
    ensures not_bare_response { is_bare (response Ack 7 1) ≡ false }
    ensures recorded_con { is_recorded (response Con 7 1) ≡ true }
    ensures not_recorded_non { is_recorded (response Non 7 1) ≡ false }
    ensures not_recorded_ack { is_recorded (response Ack 7 1) ≡ false }
    ensures recorded_con_request { is_recorded (request Con) ≡ true }
    ensures recorded_non_request { is_recorded (request Non) ≡ true }
    ensures not_recorded_request { is_recorded (request Ack) ≡ false }
    ensures not_recorded_empty { is_recorded (record (reset 7) { kind = Con }) ≡ false }
    ensures remembers_con { is_remembered (Answered NotStored) Con ≡ true }
    ensures remembers_no_non { is_remembered (Answered Kept) Non ≡ false }
    ensures remembers_no_ack { is_remembered (Answered Kept) Ack ≡ false }
    ensures remembers_no_acked { is_remembered Acked Con ≡ false }
    ensures answer_of_reset { answer_of 1500 true None 9 (reset 7)
        ≡ record { message = bad_gateway; got = 9; own = true } }
    ensures waits { stage_of 1 (history_of opened_acting) ≡ Some queued }
    ensures is_sent { stage_of 1 (history_of sent_acting) ≡ Some (sent origin) }
    ensures is_acked { stage_of 1 (history_of acked_acting) ≡ Some acked }
    ensures is_reset { stage_of 1 (history_of reset_acting) ≡ Some done }
    ensures is_got { stage_of 1 (history_of got_acting) ≡ Some done }
    ensures is_closed { stage_of 1 (history_of served_acting) ≡ None }
    ensures outstanding { outstanding_to origin (history_of sent_acting) ≡ 1 }
    ensures none_outstanding { outstanding_to origin (history_of acked_acting) ≡ 0 }
    ensures none_after_reset { outstanding_to origin (history_of reset_acting) ≡ 0 }
    ensures second_outstanding { outstanding_to origin (history_of served_acting) ≡ 1 }
    ensures no_id { window_ids 0 (history_of got_acting) ≡ 1 }
    ensures remembered { remembered_at Con 247008 (history_of served_acting)
        ≡ record_of_response ∷ [] }
    ensures forgotten { remembered_at Con 247009 (history_of served_acting) ≡ [] }
    ensures apart { remembered_at Non 9 (history_of non_acting)
        ≡ remembered_at Non 9 (history_of acked_acting) }
    ensures none_of_non { remembered_at Con 9 (history_of non_acting) ≡ [] }
{}

/// Clients that request the same, computed: one request to the origin server, and each client
/// served once and individually; until when an exchange is joined, and by which clients; when there
/// is no room to join; and what the history says about them.
pub fn joining()
    ensures collapsing { play proxy joining.collapsing ≡ joining.collapsing_sent }
    ensures joined_twice { play proxy joining.joined_twice ≡ joining.joined_twice_sent }
    ensures joined_until { play proxy joining.joined_until ≡ joining.joined_until_sent }
    ensures joined_in_turn { play proxy joining.joined_in_turn ≡ joining.joined_in_turn_sent }
    ensures then_cached { play proxy joining.then_cached ≡ joining.then_cached_sent }
    ensures then_anew { play proxy joining.then_anew ≡ joining.then_anew_sent }
    ensures given_up { play hasty_proxy joining.given_up ≡ joining.given_up_sent }
    ensures reset_for_all { play proxy joining.reset_for_all ≡ joining.reset_for_all_sent }
    ensures one_waits { play one_waiter joining.one_waits ≡ joining.one_waits_sent }
    ensures full_tables { play joining.two_waiters joining.full_tables ≡ joining.full_tables_sent }
    ensures last_id_joins { play (after_ids 32765) joining.last_id_joins
        ≡ joining.last_id_joins_sent }
    ensures other_keys { play proxy joining.other_keys ≡ joining.other_keys_sent }
    ensures own_tags { play proxy joining.own_tags ≡ joining.own_tags_sent }
    ensures long_joiner { play narrow_proxy joining.long_joiner ≡ joining.long_joiner_sent }
    ensures all_wait { counts (after proxy joining.three_wait)
        ≡ record {
          cached_bytes = 0;
          entries = 0;
          con_records = 0;
          non_records = 3;
          exchanges = 1;
          waiters = 3;
        } }
    ensures one_left { counts (after proxy joining.two_served)
        ≡ record {
          cached_bytes = 0;
          entries = 0;
          con_records = 0;
          non_records = 3;
          exchanges = 1;
          waiters = 1;
        } }
    ensures none_left { counts (after proxy (joining.two_served ++ tick_at 0 ∷ []))
        ≡ record {
          cached_bytes = 0;
          entries = 0;
          con_records = 0;
          non_records = 3;
          exchanges = 0;
          waiters = 0;
        } }
    ensures one_queued { queued_in (history_of joining.queued_acting) ≡ 1 }
    ensures one_open { length (open_in (history_of joining.queued_acting)) ≡ 1 }
    ensures two_stand { length (standing_in (history_of joining.queued_acting)) ≡ 2 }
    ensures one_stands { standing_in (history_of joining.one_left_acting)
        ≡ record { number = 3; client = client 3; service = waits 1 } ∷ [] }
    ensures is_open { stage_of 1 (history_of joining.one_left_acting) ≡ Some done }
    ensures none_stands { standing_in (history_of joining.none_left_acting) ≡ [] }
    ensures is_closed { stage_of 1 (history_of joining.none_left_acting) ≡ None }
{}

/// Clients with Confirmable requests: what they are sent immediately and later, what closes their
/// waiters, and until when these count.
pub fn confirmable_clients()
    ensures confirmable { play proxy confirmable.confirmable ≡ confirmable.confirmable_sent }
    ensures repeated_request { play proxy confirmable.repeated_request
        ≡ confirmable.repeated_request_sent }
    ensures unacknowledged { play proxy confirmable.unacknowledged
        ≡ confirmable.unacknowledged_sent }
    ensures reset_by_client { play proxy confirmable.reset_by_client
        ≡ confirmable.reset_by_client_sent }
    ensures closed_at_last { play proxy (confirmable.closed_at 247019)
        ≡ confirmable.then_sent (nothing Acked ∷ []) }
    ensures closed_too_late { play proxy (confirmable.closed_at 247020)
        ≡ confirmable.then_sent (nothing Ignored ∷ []) }
    ensures drawn { play proxy confirmable.drawn ≡ confirmable.drawn_sent }
    ensures both_kinds { play proxy confirmable.both_kinds ≡ confirmable.both_kinds_sent }
    ensures given_up { play hasty_proxy confirmable.given_up ≡ confirmable.given_up_sent }
    ensures separate_answer { play proxy confirmable.separate_answer
        ≡ confirmable.separate_answer_sent }
    ensures counted_until { play confirmable.one_of_each confirmable.counted_until
        ≡ confirmable.counted_until_sent }
    ensures full_tables { play confirmable.two_clients confirmable.full_tables
        ≡ confirmable.full_tables_sent }
    ensures last_ids { play (after_ids 32764) confirmable.last_ids ≡ confirmable.last_ids_sent }
    ensures due_again { next_due (after proxy confirmable.told_turns) ≡ Some 2020 }
    ensures held_while_told { held (after proxy confirmable.told_turns) ≡ 88 }
    ensures waits_for_it { service_of 1 (history_of confirmable.waits_acting) ≡ Some (waits 1) }
    ensures is_told { service_of 1 (history_of confirmable.told_acting) ≡ Some delivering }
    ensures is_closed { service_of 1 (history_of confirmable.closed_acting) ≡ None }
    ensures one_waits { waiting_in (history_of confirmable.waits_acting) ≡ 1 }
    ensures none_waits { waiting_in (history_of confirmable.told_acting) ≡ 0 }
    ensures none_open { open_in (history_of confirmable.told_acting) ≡ [] }
    ensures next_at { next_send (sends_by (serves 1) (history_of confirmable.told_acting)) ≡ 2020 }
    ensures then_at { next_send (sends_by (serves 1) (history_of confirmable.told_again_acting))
        ≡ 6020 }
    ensures con_datagram { is_con_datagram (0x40 ∷ 0 ∷ 0 ∷ 9 ∷ []) ≡ true }
    ensures other_datagram { is_con_datagram (0x60 ∷ 0 ∷ 0 ∷ 9 ∷ []) ≡ false }
    ensures short_datagram { is_con_datagram (0x40 ∷ 0 ∷ 0 ∷ []) ≡ false }
{}

/// Requests with other methods and their responses: how these affect stored responses and exchanges
/// in progress, what a 2.01 names, and stored responses that are validated, and renewed or not.
pub fn changes()
    ensures changed { play proxy changes.changed ≡ changes.changed_sent }
    ensures not_deleted { play proxy changes.not_deleted ≡ changes.not_deleted_sent }
    ensures overtaken { play proxy changes.overtaken ≡ changes.overtaken_sent }
    ensures changed_by_get { play proxy changes.changed_by_get ≡ changes.changed_by_get_sent }
    ensures not_joined { play proxy changes.not_joined ≡ changes.not_joined_sent }
    ensures posted_once { play proxy changes.posted_once ≡ changes.posted_once_sent }
    ensures tag_of_a_post { play proxy changes.tag_of_a_post ≡ changes.tag_of_a_post_sent }
    ensures created { play proxy changes.created ≡ changes.created_sent }
    ensures changed_elsewhere { play proxy changes.changed_elsewhere
        ≡ changes.changed_elsewhere_sent }
    ensures located_by_query { play proxy changes.located_by_query ≡ changes.located_by_query_sent }
    ensures validated { play proxy changes.validated ≡ changes.validated_sent }
    ensures changed_and_validated { play proxy changes.changed_and_validated
        ≡ changes.changed_and_validated_sent }
    ensures evicted { play changes.one_entry changes.evicted ≡ changes.evicted_sent }
    ensures other_tag { play changes.one_entry changes.other_tag ≡ changes.other_tag_sent }
    ensures valid_for_none { play proxy changes.valid_for_none ≡ changes.valid_for_none_sent }
    ensures own_tag_first { play proxy changes.own_tag_first ≡ changes.own_tag_first_sent }
    ensures renewed_too_long { play narrow changes.renewed_too_long
        ≡ changes.renewed_too_long_sent }
{}
