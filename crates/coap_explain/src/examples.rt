//! Examples, computed on the definitions.
ghost use Rattle.std.specs.Prelude.{◌≡◌, ◌∷◌, ◌++◌, [], codes, false, true, None, Some};
ghost use Rattle.coap_message.specs.Codes.{code_of};
ghost use Rattle.coap_endpoint.specs.declared.endpoint.Ip.TheVariants.{V4};
ghost use Rattle.coap_model.specs.declared.report.Outcome.TheVariants as outcomes;
ghost use Rattle.coap_model.specs.declared.report.Storing.TheVariants as storings;
ghost use Rattle.coap_explain.specs.declared.causes.BadGateway.TheVariants as gateways;
ghost use Rattle.coap_explain.specs.declared.causes.Refusal.TheVariants as refusals;
ghost use Rattle.coap_explain.specs.declared.causes.Unprocessed.TheVariants as unprocessed;
ghost use Rattle.coap_explain.specs.declared.lacks.Need.TheVariants as needs;
ghost use Rattle.coap_explain.specs.declared.routed.Routed.TheVariants as ways;
ghost use Rattle.coap_explain.specs.Causes.{refusal_of, unprocessed_of};
ghost use Rattle.coap_model.specs.Examples as runs;
ghost use Rattle.coap_explain.specs.Account.{line_of, line_text};
ghost use Rattle.coap_explain.specs.Examples as own;
ghost use Rattle.coap_log.specs.Line.{line_text as logged};
ghost use Rattle.coap_explain.specs.Logged as fields;
ghost use Rattle.coap_explain.specs.Runs.{account};
ghost use Rattle.coap_explain.specs.Targets as text;
ghost use Rattle.coap_explain.specs.Words as spec;

/// What a step did, and what the cache did with an answer.
pub fn outcomes_in_words()
    ensures no_record_room { spec.outcome_word outcomes.NoRecordRoom ≡ codes "no record room" }
    ensures given_up { spec.outcome_word outcomes.GaveUp ≡ codes "gave up" }
    ensures no_memory { spec.storing_word storings.NoMemory ≡ codes "no memory" }
    ensures not_stored { spec.storing_word storings.NotStored ≡ codes "not stored" }
{}

/// Why a request was refused: what isn't told by its code is told by its options.
pub fn refusals_in_words()
    ensures option { spec.refusal_text (refusal_of (code_of 4 2) (Some 65001))
        ≡ codes " option 65001" }
    ensures length { spec.refusal_text (refusal_of (code_of 4 13) (Some 65001))
        ≡ codes " length" }
    ensures uri { spec.refusal_text (refusal_of (code_of 4 0) None) ≡ codes " uri" }
    ensures map { spec.refusal_text (refusal_of (code_of 4 4) None) ≡ codes " no map" }
    ensures method { spec.refusal_text (refusal_of (code_of 4 5) None) ≡ codes " method" }
    ensures not_proxied { spec.refusal_text (refusal_of (code_of 5 5) None)
        ≡ codes " not proxied" }
    ensures gateway { spec.gateway_text (gateways.Option 300) ≡ codes "option 300" }
{}

/// Why bytes weren't processed, where a datagram may have four.
pub fn unprocessed_in_words()
    ensures long { unprocessed_of 4 (0x40 ∷ 0 ∷ 0 ∷ 7 ∷ 0xFF ∷ []) ≡ unprocessed.Length }
    ensures length { spec.unprocessed_word unprocessed.Length ≡ codes "length" }
    ensures ping { spec.unprocessed_word unprocessed.Ping ≡ codes "ping" }
{}

/// What is lacking, and codes.
pub fn numbers_in_words()
    ensures lacks { spec.lacks_text
        (Some (record { need = needs.ClientCon; count = 17; limit = 16 }) ∷ None
        ∷ Some (record { need = needs.Ids; count = 32767; limit = 32768 }) ∷ [])
        ≡ codes " client con 17/16 ids 32767/32768" }
    ensures content { spec.code_text (code_of 2 5) ≡ codes "2.05" }
    ensures too_large { spec.code_text (code_of 4 13) ≡ codes "4.13" }
    ensures put { spec.code_text (code_of 0 3) ≡ codes "PUT" }
{}

/// What is said of options that are sent: all four bytes of a Max-Age, the bytes of an ETag, and
/// nothing of others.
pub fn options_in_words()
    ensures max_age { spec.option_text (record { number = 14; value = 1 ∷ 0 ∷ 1 ∷ [] })
        ≡ codes " Max-Age 65537" }
    ensures longest { spec.option_text (record { number = 14; value = 255 ∷ 255 ∷ 255 ∷ 255 ∷ [] })
        ≡ codes " Max-Age 4294967295" }
    ensures tag { spec.option_text (record { number = 4; value = 0x0A ∷ 0xB7 ∷ [] })
        ≡ codes " ETag 0ab7" }
    ensures format { spec.option_text (record { number = 12; value = 40 ∷ [] }) ≡ [] }
{}

/// Lines of an account: of each outcome, the parts in their order.
pub fn accounts()
    ensures first_answer { account runs.proxy runs.first_answer
        ≡ codes "# 1 0 127.0.0.1:40001 NON GET coap://127.0.0.1:5690/temp opened\n"
        ++ codes "# 2 0 tick sent GET to 127.0.0.1:5690\n"
        ++ codes "# 3 0 127.0.0.1:5690 ACK 2.05 answered 2.05 kept\n"
        ++ codes "# 4 0 tick delivered 2.05 Max-Age 10 to 127.0.0.1:40001 of "
        ++ codes "coap://127.0.0.1:5690/temp at 127.0.0.1:5690 sent 1 in 0 ms\n" }
    ensures refusals { account runs.proxy runs.refusals
        ≡ codes "# 1 0 127.0.0.1:40001 NON 0.05 coap://127.0.0.1:5690/temp refused 4.05 "
        ++ codes "method\n"
        ++ codes "# 2 0 127.0.0.1:40001 NON GET refused 4.02 option 23\n"
        ++ codes "# 3 0 127.0.0.1:40001 NON GET refused 4.04 no map\n" }
    ensures unprocessed { account runs.proxy runs.unprocessed_messages
        ≡ codes "# 1 0 127.0.0.1:40001 CON 0.00 rejected ping\n"
        ++ codes "# 2 0 127.0.0.1:40001 NON 0.00 ignored code\n"
        ++ codes "# 3 0 127.0.0.1:40001 rejected format\n"
        ++ codes "# 4 0 127.0.0.1:40001 rejected format\n"
        ++ codes "# 5 0 127.0.0.1:40001 CON 1.00 rejected code\n"
        ++ codes "# 6 0 127.0.0.1:40001 ignored format\n"
        ++ codes "# 7 0 127.0.0.1:40001 ignored format\n" }
    ensures full { account runs.small_proxy runs.full
        ≡ codes "# 1 0 127.0.0.1:40001 NON GET coap://127.0.0.1:5690/temp opened\n"
        ++ codes "# 2 0 127.0.0.1:40003 NON GET coap://127.0.0.1:5690/temp/x overloaded "
        ++ codes "5.03 exchanges 1/1\n" }
    ensures last_id { account runs.spent_proxy runs.last_id
        ≡ codes "# 1 0 127.0.0.1:40001 NON GET coap://127.0.0.1:5690/temp overloaded 5.03 "
        ++ codes "ids 32767/32768\n"
        ++ codes "# 2 0 127.0.0.1:40002 NON GET coap://127.0.0.1:5690/temp no id\n"
        ++ codes "# 3 0 127.0.0.1:40003 NON GET no id\n" }
    ensures shared { account runs.proxy own.shared
        ≡ codes "# 1 0 127.0.0.1:40001 NON GET coap://127.0.0.1:5690/temp opened\n"
        ++ codes "# 2 0 127.0.0.1:40002 CON GET coap://127.0.0.1:5690/temp joined 0.00\n"
        ++ codes "# 3 1 127.0.0.1:40002 CON GET coap://127.0.0.1:5690/temp again 0.00\n"
        ++ codes "# 4 1 tick sent GET to 127.0.0.1:5690\n"
        ++ codes "# 5 4 127.0.0.1:5690 ACK 2.05 answered 2.05 kept\n"
        ++ codes "# 6 5 tick delivered 2.05 Max-Age 9 to 127.0.0.1:40001 of "
        ++ codes "coap://127.0.0.1:5690/temp at 127.0.0.1:5690 sent 1 in 4 ms\n"
        ++ codes "# 7 6 tick delivered 2.05 Max-Age 9 to 127.0.0.1:40002 of "
        ++ codes "coap://127.0.0.1:5690/temp at 127.0.0.1:5690 sent 1 in 4 ms\n"
        ++ codes "# 8 2504 127.0.0.1:40003 NON GET coap://127.0.0.1:5690/temp hit 2.05 "
        ++ codes "Max-Age 7\n" }
    ensures given_up { account own.hasty own.given_up
        ≡ codes "# 1 0 127.0.0.1:40001 NON GET coap://127.0.0.1:5690/temp opened\n"
        ++ codes "# 2 5 tick sent GET to 127.0.0.1:5690\n"
        ++ codes "# 3 1000 tick gave up coap://127.0.0.1:5690/temp at 127.0.0.1:5690 sent 1 "
        ++ codes "in 1000 ms\n"
        ++ codes "# 4 1001 tick delivered 5.04 to 127.0.0.1:40001 of "
        ++ codes "coap://127.0.0.1:5690/temp at 127.0.0.1:5690 sent 1 in 1000 ms\n"
        ++ codes "# 5 1002 tick idle\n" }
    ensures unheard { account runs.proxy own.unheard
        ≡ codes "# 1 0 127.0.0.1:40001 CON GET coap://127.0.0.1:5690/temp opened 0.00\n"
        ++ codes "# 2 0 tick sent GET to 127.0.0.1:5690\n"
        ++ codes "# 3 0 127.0.0.1:5690 ACK 2.05 answered 2.05 kept\n"
        ++ codes "# 4 0 tick delivered 2.05 Max-Age 10 to 127.0.0.1:40001 of "
        ++ codes "coap://127.0.0.1:5690/temp at 127.0.0.1:5690 sent 1 in 0 ms\n"
        ++ codes "# 5 2000 tick resent 2.05 Max-Age 10 to 127.0.0.1:40001\n"
        ++ codes "# 6 6000 tick resent 2.05 Max-Age 10 to 127.0.0.1:40001\n"
        ++ codes "# 7 14000 tick resent 2.05 Max-Age 10 to 127.0.0.1:40001\n"
        ++ codes "# 8 30000 tick resent 2.05 Max-Age 10 to 127.0.0.1:40001\n"
        ++ codes "# 9 62000 tick gave up on 127.0.0.1:40001 sent 5 in 62000 ms\n" }
    ensures rejected { account runs.proxy own.rejected
        ≡ codes "# 1 0 127.0.0.1:40001 NON GET coap://127.0.0.1:5690/temp opened\n"
        ++ codes "# 2 0 tick sent GET to 127.0.0.1:5690\n"
        ++ codes "# 3 2000 tick resent GET to 127.0.0.1:5690\n"
        ++ codes "# 4 2001 127.0.0.1:5690 RST 0.00 answered 5.02 reset\n"
        ++ codes "# 5 2001 tick delivered 5.02 to 127.0.0.1:40001 of "
        ++ codes "coap://127.0.0.1:5690/temp at 127.0.0.1:5690 sent 2 in 2001 ms\n"
        ++ codes "# 6 2001 127.0.0.1:40001 NON GET coap://127.0.0.1:5690/temp opened\n"
        ++ codes "# 7 2001 tick sent GET to 127.0.0.1:5690\n"
        ++ codes "# 8 2001 127.0.0.1:5690 ACK 0.00 acked\n" }
    ensures forgotten { account own.forgetful own.forgotten
        ≡ codes "# 1 0 127.0.0.1:40001 CON GET coap://127.0.0.1:5690/temp opened 0.00\n"
        ++ codes "# 2 0 127.0.0.1:40001 CON GET coap://127.0.0.1:5690/temp no record room "
        ++ codes "con 1/1 client con 1/1\n" }
{}

/// What a 2.03 renews may be too long for a datagram, while the payload of a 2.03 isn't passed on.
pub fn accounts_of_validations()
    ensures long_option { account own.narrow (own.validated_by own.long_option)
        ≡ codes "# 1 0 127.0.0.1:40001 NON GET coap://127.0.0.1:5690/temp opened\n"
        ++ codes "# 2 0 tick sent GET to 127.0.0.1:5690\n"
        ++ codes "# 3 0 127.0.0.1:5690 ACK 2.05 answered 2.05 kept\n"
        ++ codes "# 4 0 tick delivered 2.05 ETag ab Max-Age 10 to 127.0.0.1:40001 of "
        ++ codes "coap://127.0.0.1:5690/temp at 127.0.0.1:5690 sent 1 in 0 ms\n"
        ++ codes "# 5 10001 127.0.0.1:40001 NON GET coap://127.0.0.1:5690/temp opened\n"
        ++ codes "# 6 10001 tick sent GET ETag ab to 127.0.0.1:5690\n"
        ++ codes "# 7 10001 127.0.0.1:5690 ACK 2.03 answered 5.02 doesn't fit\n" }
    ensures long_payload { account own.narrow (own.validated_by own.long_payload)
        ≡ codes "# 1 0 127.0.0.1:40001 NON GET coap://127.0.0.1:5690/temp opened\n"
        ++ codes "# 2 0 tick sent GET to 127.0.0.1:5690\n"
        ++ codes "# 3 0 127.0.0.1:5690 ACK 2.05 answered 2.05 kept\n"
        ++ codes "# 4 0 tick delivered 2.05 ETag ab Max-Age 10 to 127.0.0.1:40001 of "
        ++ codes "coap://127.0.0.1:5690/temp at 127.0.0.1:5690 sent 1 in 0 ms\n"
        ++ codes "# 5 10001 127.0.0.1:40001 NON GET coap://127.0.0.1:5690/temp opened\n"
        ++ codes "# 6 10001 tick sent GET ETag ab to 127.0.0.1:5690\n"
        ++ codes "# 7 10001 127.0.0.1:5690 ACK 2.03 answered 2.03 kept\n" }
{}

/// A turn that is lost, and one whose time of day is known.
pub fn other_lines()
    ensures lost { line_text (line_of own.lost [] ways.Unknown own.nothing_noted)
        ≡ codes "# 0 7 127.0.0.1:40001 NON GET target: out of memory out of memory\n" }
    ensures time { line_text (line_of own.idle (codes "2026-11-27T14:03:05.123Z ") ways.Nowhere
        own.nothing_noted)
        ≡ codes "# 1 7 2026-11-27T14:03:05.123Z tick idle\n" }
{}

/// Endpoints, and targets by an address and by names that would begin a word, a line or another part.
pub fn targets_in_words()
    ensures ipv4 { text.endpoint_text (own.at (V4 (192 ∷ 0 ∷ 2 ∷ 255 ∷ [])) 5683)
        ≡ codes "192.0.2.255:5683" }
    ensures ipv6 { text.endpoint_text (own.at own.ipv6 61616)
        ≡ codes "[2001:db8:0:0:0:0:10:ff0a]:61616" }
    ensures root { text.target_text own.root ≡ codes "coap://192.0.2.7/" }
    ensures named { text.target_text own.named
        ≡ codes "coap://a%0A%23%20b%3A1%40c&d:5684//%2F%3F%26?a=%2F&%25" }
    ensures bracketed { text.target_text own.bracketed ≡ codes "coap://[::1%5D:2]:81/x" }
{}

/// Lines of a log, with all fields in their order. Of a URI that is cut an end is left out, and of
/// one that isn't none of its bytes ends a field.
pub fn logged_lines()
    ensures given_up { logged (codes "gave_up")
        (fields.given_up (fields.uri (codes "coap://h/t?a=b") false) own.exchange 94000)
        ≡ codes "gave_up target=coap://h/t?a%3Db cause=unacknowledged origin=192.0.2.7:5684 "
        ++ codes "sent=4 ms=93000 clients=2\n" }
    ensures refused { logged (codes "failed")
        (fields.failed (fields.uri (codes "coap://h/t") true) own.refused own.exchange 1007)
        ≡ codes "failed client=192.0.2.1:40001 code=5.02 target=coap://h/t... cause=option "
        ++ codes "option=65001 origin=192.0.2.7:5684 sent=4 ms=7\n" }
    ensures passed { logged (codes "failed")
        (fields.failed (fields.uri (codes "coap://h/t") false) own.passed own.exchange 1007)
        ≡ codes "failed client=192.0.2.1:40001 code=5.03 target=coap://h/t cause=origin "
        ++ codes "origin=192.0.2.7:5684 sent=4 ms=7\n" }
    ensures overloaded { logged (codes "failed")
        (fields.overloaded (fields.uri (codes "coap://h/t") false) (own.client_at 1) own.short)
        ≡ codes "failed client=192.0.2.1:40001 code=5.03 target=coap://h/t cause=room "
        ++ codes "exchanges=256/255 client_waiters=65/64\n" }
    ensures dropped { logged (codes "dropped") (fields.dropped (own.client_at 1) own.short)
        ≡ codes "dropped client=192.0.2.1:40001 exchanges=256/255 client_waiters=65/64\n" }
    ensures full { logged (codes "full") (fields.full own.holder)
        ≡ codes "full table=waiters count=81/82 address=[2001:db8:0:0:0:0:10:ff0a] has=83 "
        ++ codes "ports=84\n" }
    ensures heard { logged (codes "answers_again")
        (fields.heard (own.at (own.ipv4 7) 5684) 1000 1723)
        ≡ codes "answers_again origin=192.0.2.7:5684 silent_ms=723\n" }
{}
