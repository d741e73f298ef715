//! Examples of the promise in short: for each of its words a history that breaks this word, and is
//! right except for that. Public functions that do nothing, whose contracts are the examples.
ghost use Rattle.std.specs.Prelude.{◌≡◌, ◌∷◌, ◌+◌, [], Some, None, true};
ghost use Rattle.coap_message.specs.Message.{Message};
ghost use Rattle.coap_option.specs.Selection.{tags_of};
ghost use Rattle.coap_limits.specs.Limits.{default_limits};
ghost use Rattle.coap_store.specs.Freshness.{is_fresh};
ghost use Rattle.coap_forward.specs.Answers.{is_passed_on};
ghost use Rattle.coap_store.specs.Renewing.{renewed};
ghost use Rattle.coap_forward.specs.Answers.{passed_part};
ghost use Rattle.coap_model.specs.declared.report.Outcome.TheVariants.{Acked, GaveUp, Resent};
ghost use Rattle.coap_model.specs.Cached.{IsFetched, IsObtained, entry_of_cached};
ghost use Rattle.coap_model.specs.CacheExamples.{asked_past, asks_again, first_entry, get_for};
ghost use Rattle.coap_model.specs.Examples.{client, proxy};
ghost use Rattle.coap_model.specs.Forged.{setting, asked, opened, opened_con, in_con, right, past, past_con};
ghost use Rattle.coap_model.specs.ForgedHits.{reply};
ghost use Rattle.coap_model.specs.FormExamples.{after};
ghost use Rattle.coap_model.specs.HitExamples as hits;
ghost use Rattle.coap_model.specs.Held.{bytes_held};
ghost use Rattle.coap_model.specs.History.{IsPositionOf, Finishes};
ghost use Rattle.coap_model.specs.OptionExamples.{key_of_temp};
ghost use Rattle.coap_model.specs.Schedules.{AreSpaced, IsSchedule, MayGoOn};
ghost use Rattle.coap_model.specs.Word.{IsFromCache, IsRepliedAgain, IsWithin, KeepsItsWord};
ghost use Rattle.coap_model.specs.State.{State};
ghost use Rattle.coap_model.specs.WordExamples as words;
ghost use Rattle.coap_model.specs.WordExamples.{at};

/// Replies that aren't from the cache: one that is stale by a millisecond, and would be one except
/// for that; one with the Max-Age as it was received; one with another token; one to another
/// client.
pub fn forged_replies_are_refused()
    ensures stale { ¬ IsFromCache setting asked_past words.stale_reply }
    ensures but_for_its_age { is_fresh 10006 (entry_of_cached first_entry).1 ≡ true
        → IsFromCache setting asked_past words.stale_reply }
    ensures as_received { ¬ IsFromCache setting asked_past (reply 25 10).observation }
    ensures with_a_token { ¬ IsFromCache setting asked_past words.with_a_token }
    ensures to_another { ¬ IsFromCache setting asked_past words.to_another }
{}

/// A response that a 2.03 renews was obtained if the request for the 2.03 was sent after the
/// response had come, with its tag: nothing was if it was sent before, or without the tag. Nor is a
/// response fetched that may not be passed on. Each would be except for that.
pub fn forged_validations_are_refused()
    ensures renewed { IsObtained setting key_of_temp
        (renewed words.tagged_content (passed_part true words.valid_message))
        (at words.tagged_past words.asks_tagged) (at words.validated_past words.gets_valid) }
    ensures older { (response : Message) → ¬ IsObtained setting key_of_temp response
        (at words.early_past words.asks_tagged) (at words.validated_early words.gets_valid) }
    ensures but_for_the_order { IsPositionOf words.early_past
        (at (words.asks_tagged ∷ words.early_past) words.gets_tagged)
        → IsObtained setting key_of_temp
        (renewed words.tagged_content (passed_part true words.valid_message))
        (at words.early_past words.asks_tagged) (at words.validated_early words.gets_valid) }
    ensures untagged { (response : Message) → ¬ IsObtained setting key_of_temp response
        (at words.tagged_past asks_again) (at words.validated_untagged words.gets_valid) }
    ensures but_for_the_tag { tags_of (get_for 3 2) ≡ (0xAB ∷ []) ∷ []
        → IsObtained setting key_of_temp
        (renewed words.tagged_content (passed_part true words.valid_message))
        (at words.tagged_past asks_again) (at words.validated_untagged words.gets_valid) }
    ensures blocked { ¬ IsFetched setting key_of_temp (at (opened ∷ []) asked)
        (at (asked ∷ opened ∷ []) words.gets_block) }
    ensures but_for_the_block { is_passed_on 1500 true words.block_content ≡ true
        → IsFetched setting key_of_temp (at (opened ∷ []) asked)
        (at (asked ∷ opened ∷ []) words.gets_block) }
{}

/// A duplicate of a Confirmable request gets what was sent for it: not another datagram, nor none,
/// nor at another endpoint, nor with another outcome.
pub fn forged_repeats_are_refused()
    ensures as_before { IsRepliedAgain (client 1) words.con_read (at [] opened_con)
        (words.again (Some (client 1)) (0x60 ∷ 0 ∷ 0 ∷ 7 ∷ [])) }
    ensures another { ¬ IsRepliedAgain (client 1) words.con_read (at [] opened_con)
        (words.again (Some (client 1)) (0x60 ∷ 0 ∷ 0 ∷ 8 ∷ [])) }
    ensures nothing { ¬ IsRepliedAgain (client 1) words.con_read (at [] opened_con)
        (words.again None []) }
    ensures to_another { ¬ IsRepliedAgain (client 1) words.con_read (at [] opened_con)
        (words.again (Some (client 2)) (0x60 ∷ 0 ∷ 0 ∷ 7 ∷ [])) }
    ensures in_another_word { ¬ IsRepliedAgain (client 1) words.con_read (at [] opened_con)
        (words.ignored (words.again (Some (client 1)) (0x60 ∷ 0 ∷ 0 ∷ 7 ∷ []))) }
{}

/// Two exchanges of a client, with their clients and messages, are within limits of two each. Where
/// any one limit is one, they aren't.
pub fn histories_above_a_limit_are_refused()
    ensures of_two { IsWithin (words.setting_with words.limits_of_two) words.two_pending }
    ensures exchanges { ¬ IsWithin
        (words.setting_with (record default_limits { exchanges = 1 })) words.two_pending }
    ensures waiters { ¬ IsWithin
        (words.setting_with (record default_limits { waiters = 1 })) words.two_pending }
    ensures con_records { ¬ IsWithin
        (words.setting_with (record default_limits { con_records = 1 })) words.two_pending_con }
    ensures non_records { ¬ IsWithin
        (words.setting_with (record default_limits { non_records = 1 })) words.two_pending }
    ensures client_exchanges { ¬ IsWithin
        (words.setting_with (record default_limits { client_exchanges = 1 })) words.two_pending }
    ensures client_waiters { ¬ IsWithin
        (words.setting_with (record default_limits { client_waiters = 1 })) words.two_pending }
    ensures client_con_records { ¬ IsWithin
        (words.setting_with (record default_limits { client_con_records = 1 }))
        words.two_pending_con }
    ensures client_non_records { ¬ IsWithin
        (words.setting_with (record default_limits { client_non_records = 1 }))
        words.two_pending }
{}

/// A message is sent five times at most, also where a sixth time would come when it is due and in
/// time: by the schedule, and by what may go on.
pub fn a_sixth_transmission_is_refused()
    ensures five { IsSchedule words.five_sends }
    ensures six { ¬ IsSchedule words.six_sends }
    ensures but_for_their_number { AreSpaced words.six_sends }
    ensures a_fifth { MayGoOn 30000 words.four_sends }
    ensures a_sixth { ¬ MayGoOn 62000 words.five_sends }
{}

/// A proxy whose replies to two requests in less than 247 seconds have one Message ID doesn't keep
/// its promise.
pub fn one_id_twice_is_refused()
    ensures { (w : State) → ¬ KeepsItsWord words.of_one_id w }
{}

/// A client is finished when its answer is acknowledged or given up, and when it is sent in a
/// Non-confirmable message; not when it is sent in a Confirmable one, nor when that is sent again.
pub fn examples_of_finished_clients()
    ensures acknowledged { Finishes 1 (at [] (words.done_with Acked)) }
    ensures given_up { Finishes 1 (at [] (words.done_with GaveUp)) }
    ensures served { Finishes 1 (at past right) }
    ensures not_yet { ¬ Finishes 1 (at past_con in_con) }
    ensures sent_again { ¬ Finishes 1 (at [] (words.done_with Resent)) }
{}

/// The bytes that a proxy holds, where each part is: a form, a key, a token and a tag of a request;
/// its answer, with the payload, and its entry in the store; a copy of what is validated; the reply
/// to a Confirmable request, and a Confirmable answer; a reply that is kept for a Non-confirmable
/// request.
pub fn examples_of_bytes_held()
    ensures nothing { bytes_held proxy ≡ 0 }
    ensures asked { bytes_held (after proxy words.asked_with_a_tag) ≡ 17 + 5 + (2 + 3) }
    ensures answered { bytes_held (after proxy words.answered_with_a_tag)
        ≡ 17 + 5 + (2 + 3) + (2 + 2) + (64 + 5 + 2 + 2) }
    ensures copied { bytes_held (after proxy words.copied) ≡ (64 + 5 + 4 + 2) + 19 + 5 + (4 + 2) }
    ensures confirmable { bytes_held (after proxy words.told_in_con) ≡ 73 + 4 + 10 }
    ensures kept { bytes_held words.keeps_a_reply ≡ 3 }
{}
