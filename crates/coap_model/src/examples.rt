//! Runs and values computed on the definitions: public functions that do nothing, whose contracts
//! state the results.
ghost use Rattle.std.specs.Prelude.{◌≡◌, true, [], ◌∷◌, Some, None, false};
ghost use Rattle.coap_message.specs.declared.kind.Kind.TheVariants.{Non, Ack, Con};
ghost use Rattle.coap_message.specs.Spelling.{spelling, with_id};
ghost use Rattle.coap_limits.specs.Limits.{default_limits};
ghost use Rattle.coap_model.specs.Setting.{setting_of};
ghost use Rattle.coap_model.specs.declared.report.Outcome.TheVariants.{Again, NoRecordRoom, Opened, Idle, Refused, Overloaded, NoId, Answered, Acked, Ignored, Delivered, Rejected, Hit, Joined, SentRequest, Resent, GaveUp};
ghost use Rattle.coap_model.specs.declared.report.Storing.TheVariants.{Kept, TooLarge, NotStored};
ghost use Rattle.coap_option.specs.Selection.{sent_on};
ghost use Rattle.coap_forward.specs.Forms.{forwarded};
ghost use Rattle.coap_model.specs.Keys.{request_key};
ghost use Rattle.coap_model.specs.Deeds.{code_of};
ghost use Rattle.coap_model.specs.Verdicts.{refusal_of};
ghost use Rattle.coap_forward.specs.Answers.{bad_gateway, greatest_max_age};
ghost use Rattle.coap_model.specs.Events.{tick};
ghost use Rattle.coap_model.specs.State.{client_counts, counts};
ghost use Rattle.coap_message.specs.declared.code.TheConstants.Code.{BAD_REQUEST, NOT_FOUND};
ghost use Rattle.coap_message.specs.Uint.{uint_spelling};
ghost use Rattle.coap_target.specs.declared.error.TargetError.TheVariants.{OutOfMemory};
ghost use Rattle.coap_model.specs.Memory.{takes_memory};
ghost use Rattle.coap_model.specs.Ticks.{next_due};
ghost use Rattle.coap_model.specs.History.{comes_con};
ghost use Rattle.coap_forward.specs.Messages.{eight_zeros, own_reply, reply_kind, kept_reply};
ghost use Rattle.coap_model.specs.Justified.{HaveOneMemory};
ghost use Rattle.coap_model.specs.Runs.{turns_of, AreTurns};
ghost use Rattle.coap_model.specs.Examples.{to, get_t, bare_get, origin, from, tick_at, client, play, proxy, small_proxy, narrow_proxy, first_answer, first_answer_sent, late_answer, late_answer_sent, error, error_sent, fault, fault_sent, changed, changed_sent, valid, replaced_sent, block_in_response, long_max_age, impostor, impostor_sent, refusals, refusals_sent, long_paths, long_paths_sent, long_segments, long_segments_sent, payload_in_get, payload_in_get_sent, full, full_sent, unprocessed_messages, unprocessed_messages_sent, too_long, too_long_sent, payload_of, payload_of_109_sent, spent_proxy, last_id, last_id_sent, wrapping_proxy, wrapping, wrapping_sent, content_for_client};
ghost use Rattle.coap_model.specs.ReplyExamples.{asks_at, with_token, tokens, tokens_sent, two_faults, two_faults_sent, of_class_3, of_class_3_sent, changed_with_age, changed_with_age_sent, two_ages, beside_an_age, beside_an_age_sent, path_in_response, greatest_age, greatest_age_sent, shorter_age, shorter_age_sent, ten_seconds_after, one_left, none_left, of_one_moment, of_one_moment_sent, request_first, request_first_sent, client_first, client_first_sent};
ghost use Rattle.coap_model.specs.FormExamples.{after, named, named_form, target_in};
ghost use Rattle.coap_model.specs.OptionExamples.{others, form_with_others, key_in, key_of_others, odd_form, odd_key, form_with_tag, key_of_temp, get_with_others, get_with_tags, with_tag, held_sent, other_tag_sent, accepted, accepted_sent, observed, observed_sent, long_observed, odd_observe, with_unknown, safe_sent, beside_a_tag, beside_a_tag_sent, forward_proxy, refused_targets, refused_targets_sent, long_without_map, long_without_map_sent, to_sensor, to_sensor_sent};
ghost use Rattle.coap_model.specs.DuplicateExamples.{con_u};
ghost use Rattle.coap_model.specs.ResponseExamples.{becomes, ignored, response, request};
ghost use Rattle.coap_model.specs.ClientExamples as clients;
ghost use Rattle.coap_model.specs.NextProxyExamples as beyond;
ghost use Rattle.coap_model.specs.ConfirmableExamples as confirmable;
ghost use Rattle.coap_model.specs.Standing.{exchanges_of, waiters_of, sent};
ghost use Rattle.coap_model.specs.Held.{target_bytes, held, most_held};
ghost use Rattle.coap_model.specs.LimitExamples.{got, one_exchange, one_waiter, two_at_once, until_served, until_served_sent, retries_after, two_requests, second_is_told, narrow, long_datagrams, long_datagrams_sent, later_proxy, counted_on, counted_on_sent, after_ids, last_refusal, last_refusal_sent, kept_ids, kept_ids_sent};
ghost use Rattle.coap_model.specs.Remembered.{most_of_client, remembered_of};

/// Runs of the step, computed on the definitions.
pub fn runs()
    ensures first_answer { play proxy first_answer ≡ first_answer_sent }
    ensures late_answer { play proxy late_answer ≡ late_answer_sent }
    ensures error { play proxy error ≡ error_sent }
    ensures fault { play proxy fault ≡ fault_sent }
    ensures changed { play proxy changed ≡ changed_sent }
    ensures valid { play proxy valid ≡ replaced_sent }
    ensures block_in_response { play proxy block_in_response ≡ replaced_sent }
    ensures long_max_age { play proxy long_max_age ≡ replaced_sent }
    ensures impostor { play proxy impostor ≡ impostor_sent }
    ensures refusals { play proxy refusals ≡ refusals_sent }
    ensures long_paths { play narrow_proxy long_paths ≡ long_paths_sent }
    ensures long_segments { play proxy long_segments ≡ long_segments_sent }
    ensures payload_in_get { play proxy payload_in_get ≡ payload_in_get_sent }
    ensures full { play small_proxy full ≡ full_sent }
    ensures unprocessed { play proxy unprocessed_messages ≡ unprocessed_messages_sent }
    ensures too_long { play narrow_proxy too_long ≡ too_long_sent }
    ensures payload_that_fits { play narrow_proxy (payload_of 109) ≡ payload_of_109_sent }
    ensures payload_that_does_not { play narrow_proxy (payload_of 110) ≡ replaced_sent }
    ensures last_id { play spent_proxy last_id ≡ last_id_sent }
    ensures wrapping { play wrapping_proxy wrapping ≡ wrapping_sent }
{}

/// Runs of the step with other limits, another first id and another salt, and when ids run out,
/// computed on the definitions.
pub fn limits()
    ensures one_exchange { play one_exchange until_served ≡ until_served_sent }
    ensures one_waiter { play one_waiter until_served ≡ until_served_sent }
    ensures at_once { play (retries_after 0) two_requests ≡ second_is_told (0xD0 ∷ 1 ∷ []) }
    ensures in_an_hour { play (retries_after 3600) two_requests
        ≡ second_is_told (0xD2 ∷ 1 ∷ 0x0E ∷ 0x10 ∷ []) }
    ensures long_datagrams { play narrow long_datagrams ≡ long_datagrams_sent }
    ensures counted_on { play later_proxy counted_on ≡ counted_on_sent }
    ensures last_refusal { play (after_ids 32767) last_refusal ≡ last_refusal_sent }
    ensures kept_ids { play (after_ids 32766) kept_ids ≡ kept_ids_sent }
{}

/// Limits for one client, computed: what counts for which client and until when, and what other
/// clients may do meanwhile.
pub fn limits_of_clients()
    ensures one_each { play clients.two_exchanges clients.one_each ≡ clients.one_each_sent }
    ensures two_of_one { play (clients.exchanges_of_one 2) clients.two_of_one
        ≡ clients.two_of_one_sent }
    ensures until_closed { play (clients.exchanges_of_one 1) clients.until_closed
        ≡ clients.until_closed_sent }
    ensures one_at_all { play clients.one_for_all clients.one_at_all ≡ clients.one_at_all_sent }
    ensures one_waits { play (clients.waiters_of_one 1) clients.one_waits
        ≡ clients.one_waits_sent }
    ensures until_acknowledged { play (clients.waiters_of_one 1) clients.until_acknowledged
        ≡ clients.until_acknowledged_sent }
    ensures one_record_each { play (clients.records_of_one 1) clients.one_record_each
        ≡ clients.one_record_each_sent }
    ensures one_of_each_type { play (clients.records_of_one 1) clients.one_of_each_type
        ≡ clients.one_of_each_type_sent }
    ensures of_the_origin { play (clients.records_of_one 1) clients.of_the_origin
        ≡ clients.of_the_origin_sent }
    ensures counted { client_counts (after clients.two_exchanges clients.one_each) (client 1)
        ≡ record { con_records = 0; non_records = 3; exchanges = 1; waiters = 2 } }
    ensures of_another { client_counts (after clients.two_exchanges clients.one_each) (client 3)
        ≡ record { con_records = 0; non_records = 1; exchanges = 0; waiters = 0 } }
    ensures of_an_origin { client_counts (after (clients.records_of_one 1) clients.of_the_origin)
        origin
        ≡ record { con_records = 1; non_records = 0; exchanges = 0; waiters = 0 } }
    ensures until_expired { (client_counts
        (after (clients.records_of_one 1)
        (from 0 (client 1) (con_u 1) ∷ tick_at 246999 ∷ []))
        (client 1)).con_records
        ≡ 1 }
    ensures expired { (client_counts
        (after (clients.records_of_one 1)
        (from 0 (client 1) (con_u 1) ∷ tick_at 247000 ∷ []))
        (client 1)).con_records
        ≡ 0 }
    ensures con_limit { most_of_client Con (record default_limits { client_con_records = 7 }) ≡ 7 }
    ensures non_limit { most_of_client Non (record default_limits { client_non_records = 8 })
        ≡ 8 }
    ensures opened_once { exchanges_of (client 1) clients.one_each_actions ≡ 1 }
    ensures opened_too { exchanges_of (client 2) clients.one_each_actions ≡ 1 }
    ensures opened_none { exchanges_of (client 3) clients.one_each_actions ≡ 0 }
    ensures waits_twice { waiters_of (client 1) clients.one_each_actions ≡ 2 }
    ensures waits_once { waiters_of (client 2) clients.one_each_actions ≡ 1 }
    ensures remembered { remembered_of (client 1) Non 144999 clients.one_each_actions ≡ 3 }
    ensures forgotten { remembered_of (client 1) Non 145000 clients.one_each_actions ≡ 0 }
    ensures none_of_that_type { remembered_of (client 1) Con 0 clients.one_each_actions ≡ 0 }
{}

/// What clients are sent, computed for edge cases of definitions that the step and the history
/// share: a client's token, two faults in one request, what a response becomes at some age, and
/// what is due first.
pub fn replies()
    ensures tokens { play one_exchange tokens ≡ tokens_sent }
    ensures two_faults { play proxy two_faults ≡ two_faults_sent }
    ensures of_class_3 { play proxy of_class_3 ≡ of_class_3_sent }
    ensures changed_with_age { play proxy changed_with_age ≡ changed_with_age_sent }
    ensures two_ages { play proxy two_ages ≡ replaced_sent }
    ensures beside_an_age { play narrow_proxy beside_an_age ≡ beside_an_age_sent }
    ensures path_in_response { play proxy path_in_response ≡ replaced_sent }
    ensures greatest_age { play proxy greatest_age ≡ greatest_age_sent }
    ensures shorter_age { play proxy shorter_age ≡ shorter_age_sent }
    ensures last_second { play proxy (ten_seconds_after 9000) ≡ one_left }
    ensures second_that_began { play proxy (ten_seconds_after 9001) ≡ none_left }
    ensures none_left { play proxy (ten_seconds_after 20000) ≡ none_left }
    ensures of_one_moment { play two_at_once of_one_moment ≡ of_one_moment_sent }
    ensures request_first { play proxy request_first ≡ request_first_sent }
    ensures client_first { play proxy client_first ≡ client_first_sent }
{}

/// The form of a target with a host and a query, and that target read back from it; replies that
/// the proxy generates, and ids that are put in; what is held, counted and due after some turns;
/// which pairs of outcomes agree on memory; and the setting that a proxy is created with.
pub fn forms_and_tables()
    ensures form { spelling (forwarded eight_zeros named None bare_get 7) ≡ named_form }
    ensures own { spelling (own_reply NOT_FOUND [] 7 (0xAA ∷ []))
        ≡ 0x51 ∷ 0x84 ∷ 0 ∷ 7 ∷ 0xAA ∷ [] }
    ensures to_no_request { reply_kind Ack ≡ Non }
    ensures of_no_request { kept_reply Ack (9 ∷ []) ≡ None }
    ensures gateway { spelling bad_gateway ≡ 0x50 ∷ 0xA2 ∷ 0 ∷ 0 ∷ [] }
    ensures greatest { uint_spelling greatest_max_age ≡ 0xFF ∷ 0xFF ∷ 0xFF ∷ 0xFF ∷ [] }
    ensures short_of_one { with_id 0x0102 (9 ∷ []) ≡ 9 ∷ [] }
    ensures short_of_two { with_id 0x0102 (9 ∷ 8 ∷ []) ≡ 9 ∷ 8 ∷ [] }
    ensures short_of_three { with_id 0x0102 (9 ∷ 8 ∷ 7 ∷ []) ≡ 9 ∷ 8 ∷ 7 ∷ [] }
    ensures for_want_of_memory { code_of (refusal_of OutOfMemory) ≡ BAD_REQUEST }
    ensures read_back { target_in origin named_form ≡ Some named }
    ensures held_when_opened { held (after proxy (asks_at 0 1 ∷ [])) ≡ 22 }
    ensures held_with_token { held (after proxy (from 0 (client 1) (with_token 0x74) ∷ [])) ≡ 24 }
    ensures held_with_host { target_bytes named ≡ 11 }
    ensures held_with_accept { held (after proxy accepted) ≡ 27 }
    ensures held_when_answered { held
        (after proxy (asks_at 0 1 ∷ tick_at 0 ∷ from 0 origin (got 1 1) ∷ []))
        ≡ 100 }
    ensures bound { most_held default_limits ≡ 16998400 }
    ensures counted { counts (after proxy (asks_at 0 1 ∷ asks_at 0 2
        ∷ from 0 (client 3) (get_t (1 ∷ 0x78 ∷ [])) ∷ []))
        ≡ record {
          cached_bytes = 0;
          entries = 0;
          con_records = 0;
          non_records = 3;
          exchanges = 2;
          waiters = 3;
        } }
    ensures first_id { (setting_of default_limits proxy.setting.routes 7 8).first_id ≡ 7 }
    ensures salt { (setting_of default_limits proxy.setting.routes 7 8).salt ≡ 8 }
    ensures turns { turns_of
        (record { turn = record { now = 5; draw = 3; event = tick }; grown = true } ∷ [])
        ≡ record { now = 5; draw = 3; event = tick } ∷ [] }
    ensures one_memory { HaveOneMemory (Answered Kept) (Answered TooLarge) }
    ensures any_memory { HaveOneMemory Opened Idle }
    ensures no_datagram { comes_con tick ≡ false }
    ensures a_turn { AreTurns 5 (record { now = 5; draw = 3; event = tick } ∷ []) }
    ensures none_due { next_due proxy ≡ None }
    ensures due_at_opening { next_due (after proxy (asks_at 5 1 ∷ [])) ≡ Some 5 }
{}

/// Which steps may run out of memory, by their outcomes: those that remember a new request, keep an
/// answer, or send one to a client in a Confirmable message; and no others.
pub fn memory()
    ensures ignored { takes_memory Ignored [] ≡ false }
    ensures rejected { takes_memory Rejected [] ≡ false }
    ensures again { takes_memory Again [] ≡ false }
    ensures no_record_room { takes_memory NoRecordRoom [] ≡ false }
    ensures refused { takes_memory (Refused NOT_FOUND) [] ≡ true }
    ensures hit { takes_memory Hit [] ≡ true }
    ensures joined { takes_memory Joined [] ≡ true }
    ensures opened { takes_memory Opened [] ≡ true }
    ensures overloaded { takes_memory Overloaded [] ≡ true }
    ensures no_id { takes_memory NoId [] ≡ true }
    ensures answered { takes_memory (Answered Kept) [] ≡ true }
    ensures not_stored { takes_memory (Answered NotStored) [] ≡ true }
    ensures acknowledged { takes_memory Acked [] ≡ false }
    ensures sent { takes_memory SentRequest [] ≡ false }
    ensures resent { takes_memory Resent [] ≡ false }
    ensures given_up { takes_memory GaveUp [] ≡ false }
    ensures idle { takes_memory Idle [] ≡ false }
    ensures confirmable { takes_memory Delivered (confirmable.con_content 2) ≡ true }
    ensures non_confirmable { takes_memory Delivered (content_for_client 10) ≡ false }
{}

/// Definitions about options and targets, computed: the form that is forwarded, its key and the key
/// of a client's request, clients with tags, Observe, options that aren't recognised, what fits a
/// datagram with a tag, and targets by a Proxy-Scheme.
pub fn options()
    ensures form { spelling (forwarded eight_zeros named None get_with_others 7)
        ≡ form_with_others }
    ensures read_back { key_in origin form_with_others ≡ Some key_of_others }
    ensures own_tag { key_in origin form_with_tag ≡ Some key_of_temp }
    ensures odd_form { key_in origin odd_form ≡ Some odd_key }
    ensures of_waiter { request_key named get_with_others ≡ key_of_others }
    ensures sent_on { sent_on get_with_others ≡ others }
    ensures held { play proxy (with_tag 0xAB) ≡ held_sent }
    ensures other_tag { play proxy (with_tag 0xEF) ≡ other_tag_sent }
    ensures held_bytes { held (after proxy (from 0 (client 1) get_with_tags ∷ [])) ≡ 26 }
    ensures accepted { play proxy accepted ≡ accepted_sent }
    ensures observed { play proxy observed ≡ observed_sent }
    ensures long_observed { play narrow_proxy long_observed ≡ payload_of_109_sent }
    ensures odd_observe { play proxy odd_observe ≡ replaced_sent }
    ensures safe { play proxy (with_unknown 64) ≡ safe_sent }
    ensures not_safe { play proxy (with_unknown 66) ≡ replaced_sent }
    ensures fits { play narrow_proxy (beside_a_tag 101) ≡ beside_a_tag_sent }
    ensures does_not { play narrow_proxy (beside_a_tag 102) ≡ replaced_sent }
    ensures refused { play forward_proxy refused_targets ≡ refused_targets_sent }
    ensures no_map { play narrow_proxy long_without_map ≡ long_without_map_sent }
    ensures to_sensor { play forward_proxy to_sensor ≡ to_sensor_sent }
{}

/// A proxy in front of another one, computed: what the next proxy is sent, which requests are the
/// same, what isn't sent there, and the key that is read back from what was sent.
pub fn next_proxies()
    ensures nowhere { play beyond.proxy beyond.nowhere ≡ beyond.nowhere_sent }
    ensures other_ports { play beyond.proxy beyond.other_ports ≡ beyond.other_ports_sent }
    ensures shared { play beyond.proxy beyond.shared ≡ beyond.shared_sent }
    ensures of_an_address { play beyond.proxy beyond.of_an_address ≡ beyond.of_an_address_sent }
    ensures of_a_known_host { play beyond.proxy beyond.of_a_known_host
        ≡ beyond.of_a_known_host_sent }
    ensures local { play beyond.proxy beyond.local ≡ beyond.local_sent }
    ensures refused { play beyond.proxy beyond.refused ≡ beyond.refused_sent }
    ensures without_names { play beyond.nameless beyond.without_names
        ≡ beyond.without_names_sent }
    ensures impostor { play beyond.proxy beyond.impostor ≡ beyond.impostor_sent }
    ensures validated { play beyond.proxy beyond.validated ≡ beyond.validated_sent }
    ensures changed { play beyond.proxy beyond.changed ≡ beyond.changed_sent }
    ensures form { spelling (forwarded eight_zeros beyond.beyond None beyond.put_with_others 7)
        ≡ beyond.beyond_form }
    ensures read_back { key_in beyond.next beyond.beyond_form ≡ Some beyond.key_beyond }
    ensures of_waiter { request_key beyond.beyond beyond.put_with_others ≡ beyond.key_beyond }
    ensures port_alone { target_in beyond.next beyond.port_alone ≡ Some beyond.at_no_port }
    ensures held { target_bytes beyond.beyond ≡ 6 }
{}
