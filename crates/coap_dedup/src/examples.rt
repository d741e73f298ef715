//! Examples, computed with the definitions.
ghost use Rattle.std.specs.Prelude.{◌≡◌, ◌^◌, ◌-◌, ◌∷◌, [], true, false, None, Some, length};
ghost use Rattle.coap_endpoint.specs.declared.endpoint.Ip.TheVariants.{V6};
ghost use Rattle.coap_dedup.specs.Examples.{acknowledgement, all_taken, client, confirmable, found_at, message, of_another, one, third, two, two_of_one, unanswered};
ghost use Rattle.coap_dedup.specs.Indexing.{number_of};
ghost use Rattle.coap_dedup.specs.Keys.{key_of};
ghost use Rattle.coap_dedup.specs.Lifetimes.{lives};
ghost use Rattle.coap_dedup.specs.Lists.{bytes_of, count_from, record_of};
ghost use Rattle.coap_dedup.specs.Records.{living_at, living_of, no_records, with_kept};

use coap_message::{EXCHANGE_LIFETIME, NON_LIFETIME};

/// How long messages are remembered (RFC 7252, 4.8.2).
pub fn remembered()
    ensures exchange_lifetime { EXCHANGE_LIFETIME ≡ 247000 }
    ensures non_lifetime { NON_LIFETIME ≡ 145000 }
    ensures at_once { lives 145000 0 0 ≡ true }
    ensures non_last_moment { lives 145000 0 144999 ≡ true }
    ensures non_too_late { lives 145000 0 145000 ≡ false }
    ensures last_moment { lives 247000 0 246999 ≡ true }
    ensures too_late { lives 247000 0 247000 ≡ false }
    ensures later_last_moment { lives 247000 1000 247999 ≡ true }
    ensures later_too_late { lives 247000 1000 248000 ≡ false }
    ensures no_lifetime { lives 0 0 0 ≡ false }
{}

/// Which record is found, and until when.
pub fn found()
    ensures confirmable { found_at 247000 246999 (confirmable 0 ∷ []) ≡ Some (confirmable 0) }
    ensures confirmable_too_late { found_at 247000 247000 (confirmable 0 ∷ []) ≡ None }
    ensures non_confirmable { found_at 145000 144999 (unanswered 0 ∷ []) ≡ Some (unanswered 0) }
    ensures non_confirmable_too_late { found_at 145000 145000 (unanswered 0 ∷ []) ≡ None }
    ensures among_others { found_at 9 9 (message 8 0 ∷ confirmable 1 ∷ message 10 2 ∷ [])
        ≡ Some (confirmable 1) }
    ensures other_id { found_at 9 0 (message 8 0 ∷ message 10 0 ∷ []) ≡ None }
    ensures other_port { record_of (client 40002) 9 (confirmable 0 ∷ []) ≡ None }
    ensures other_address { record_of
        (record { ip = V6 (127 ∷ 0 ∷ 0 ∷ 1 ∷ []); port = 40001 }) 9 (confirmable 0 ∷ [])
        ≡ None }
{}

/// What is held as messages arrive: with two places and a lifetime of ten milliseconds, and with
/// one place and a lifetime of 247 seconds.
pub fn held()
    ensures taken { two.items ≡ message 1 0 ∷ message 2 5 ∷ [] }
    ensures full { length (living_at 9 two) ≡ two.limit }
    ensures room_again { living_at 10 two ≡ message 2 5 ∷ [] }
    ensures third { third.items ≡ message 2 5 ∷ message 3 10 ∷ [] }
    ensures first_is_new { record_of (client 40001) 1 (living_at 10 third) ≡ None }
    ensures second_is_not { record_of (client 40001) 2 (living_at 10 third) ≡ Some (message 2 5) }
    ensures all_leave { (with_kept (message 4 20) third).items ≡ message 4 20 ∷ [] }
    ensures one_place { length (living_at 246999 one) ≡ one.limit }
    ensures one_place_again { length (living_at 247000 one) ≡ 0 }
    ensures same_id_after_its_lifetime { (with_kept (confirmable 247000) one).items
        ≡ confirmable 247000 ∷ [] }
    ensures no_place { length (living_at 0 (no_records 0 0 247000)) ≡ 0 }
{}

/// How many records an endpoint has: of three places one endpoint may have two. Those of another
/// endpoint aren't counted, nor are those that have expired, nor those at another port.
pub fn of_endpoints()
    ensures none { living_of (client 40001) 0 (no_records 3 2 10) ≡ 0 }
    ensures two { living_of (client 40001) 5 two_of_one ≡ two_of_one.per_client }
    ensures room_for_others { length (living_at 5 two_of_one) ≡ 2 }
    ensures of_the_other { living_of (client 40002) 5 two_of_one ≡ 0 }
    ensures both { length (living_at 6 all_taken) ≡ all_taken.limit }
    ensures of_one { living_of (client 40001) 6 all_taken ≡ 2 }
    ensures of_another { living_of (client 40002) 6 all_taken ≡ 1 }
    ensures last_moment { living_of (client 40001) 9 all_taken ≡ 2 }
    ensures one_expired { living_of (client 40001) 10 all_taken ≡ 1 }
    ensures room_again { (with_kept (message 3 10) all_taken).items
        ≡ message 2 5 ∷ of_another 1 6 ∷ message 3 10 ∷ [] }
    ensures held_too { count_from (client 40001) all_taken.items ≡ 2 }
    ensures other_address { living_of
        (record { ip = V6 (127 ∷ 0 ∷ 0 ∷ 1 ∷ []); port = 40001 }) 5 two_of_one
        ≡ 0 }
{}

/// What is counted: every reply, including that of a record that is held but has expired.
pub fn counted()
    ensures nothing { bytes_of [] ≡ 0 }
    ensures no_reply { bytes_of (unanswered 0 ∷ []) ≡ 0 }
    ensures reply { bytes_of (confirmable 0 ∷ []) ≡ 4 }
    ensures acknowledgement { length acknowledgement ≡ 4 }
    ensures dead_too { bytes_of one.items ≡ 4 }
    ensures dead_are_gone { living_at 247000 one ≡ [] }
    ensures replaced { bytes_of (with_kept (unanswered 247000) one).items ≡ 0 }
{}

/// The numbers in the index, which start again at 0 after the greatest that fits.
pub fn numbered()
    ensures first { number_of 7 (key_of (message 1 0)) two.items ≡ Some 7 }
    ensures second { number_of 7 (key_of (message 2 5)) two.items ≡ Some 8 }
    ensures none { number_of 7 (key_of (message 3 10)) two.items ≡ None }
    ensures greatest { number_of (2 ^ 64 - 1) (key_of (message 1 0)) two.items ≡ Some (2 ^ 64 - 1) }
    ensures begins_anew { number_of (2 ^ 64 - 1) (key_of (message 2 5)) two.items ≡ Some 0 }
    ensures newer_counts { number_of 7 (key_of (confirmable 0)) (confirmable 0 ∷ confirmable 9 ∷ [])
        ≡ Some 8 }
{}
