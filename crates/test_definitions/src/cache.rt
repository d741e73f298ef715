//! Keys, stored responses and stores, computed with the definitions of `coap_store`.
ghost use Rattle.std.specs.Prelude.{◌≡◌, ◌∷◌, ◌++◌, [], true, false, None, Some, codes, filter, replicate, count_by};
ghost use Rattle.std.specs.List.{range_with_len};
ghost use Rattle.coap_message.specs.Options.{option_of};
ghost use Rattle.coap_store.specs.Entries.{entry_key, entry_size, is_for, marked};
ghost use Rattle.test_definitions.specs.Cache.{accepting, at, elsewhere, format, kept, key_at, last_two, max_age, plain, put_within, response, sensor, sized, sized_key, sized_size, tag, tagged, tagged_again, temp, three, x, y, z};
ghost use Rattle.coap_store.specs.Freshness.{is_fresh, is_usable, left_of};
ghost use Rattle.coap_store.specs.Keys.{same_key};
ghost use Rattle.coap_store.specs.Lists.{are_distinct, cut, of_key, others, total, used};
ghost use Rattle.coap_store.specs.Renewing.{is_validated, renewed, tag_of, with_max_age};
ghost use Rattle.coap_store.specs.Showing.{shown, is_cacheable};
ghost use Rattle.coap_store.specs.Sizes.{size_of};

/// Which requests have the same key: Accept is part of it, and Size1 isn't (RFC 7252, 5.4.6 and
/// 5.6).
pub fn keyed()
    ensures itself { same_key temp temp ≡ true }
    ensures accept { same_key temp (key_at (codes "temp" ∷ []) (option_of 17 (40 ∷ []) ∷ []))
        ≡ false }
    ensures accepts { same_key (accepting 1).0 (accepting 2).0 ≡ false }
    ensures size1 { same_key temp (key_at (codes "temp" ∷ []) (option_of 60 (5 ∷ []) ∷ [])) ≡ true }
    ensures path { same_key temp (key_at [] []) ≡ false }
    ensures origin { same_key temp elsewhere.0 ≡ false }
{}

/// How long responses are fresh, and how many seconds are left (RFC 7252, 5.6.1 and 5.10.5).
pub fn aged()
    ensures at_once { left_of 0 (kept plain) ≡ 10 }
    ensures second_begun { left_of 1 (kept plain) ≡ 9 }
    ensures second_gone { left_of 1000 (kept plain) ≡ 9 }
    ensures last_second { left_of 9000 (kept plain) ≡ 1 }
    ensures nothing_left { left_of 9001 (kept plain) ≡ 0 }
    ensures long_past { left_of 99000 (kept plain) ≡ 0 }
    ensures last_moment { is_fresh 10000 (kept plain) ≡ true }
    ensures too_late { is_fresh 10001 (kept plain) ≡ false }
    ensures no_max_age { is_fresh 60000 (kept (response 2 5 [] [])) ≡ true }
    ensures after_a_minute { is_fresh 60001 (kept (response 2 5 [] [])) ≡ false }
    ensures no_age { left_of 0 (kept (response 5 3 (max_age 0 ∷ []) [])) ≡ 0 }
    ensures no_age_at_once { is_fresh 0 (kept (response 5 3 (max_age 0 ∷ []) [])) ≡ true }
    ensures no_age_later { is_fresh 1 (kept (response 5 3 (max_age 0 ∷ []) [])) ≡ false }
    ensures unmarked { is_usable 10000 (kept plain) ≡ true }
    ensures stale { is_usable 10001 (kept plain) ≡ false }
    ensures changed { is_usable 0 (marked (at (codes "temp" ∷ [])) (temp, kept plain)).1 ≡ false }
{}

/// How many bytes entries count for.
pub fn counted()
    ensures plain { size_of temp (kept plain) ≡ 73 }
    ensures tagged { size_of temp (kept tagged) ≡ 75 }
    ensures tagged_again { size_of temp (kept tagged_again) ≡ 77 }
    ensures host { size_of sensor (kept (response 2 5 [] (codes "1"))) ≡ 77 }
    ensures empty { size_of (key_at [] []) (kept (response 2 5 [] [])) ≡ 64 }
    ensures query { size_of
        (record temp { target = record (at (codes "temp" ∷ [])) { query = codes "u=C" ∷ [] } })
        (kept plain)
        ≡ 77 }
    ensures key_options { size_of (accepting 1).0 (kept plain) ≡ 75 }
    ensures empty_options { size_of temp (kept (response 2 5 (replicate 9 (tag [])) [])) ≡ 78 }
{}

/// What stores keep of elements of 80, 90 and 100 bytes.
pub fn cut_to_size()
    ensures grown { put_within 300 1024 (z 230) three ≡ z 230 ∷ [] }
    ensures replaced { put_within 300 1024 (z 20) three ≡ z 20 ∷ x ∷ y ∷ [] }
    ensures shrunk { put_within 300 1024 (z 200) three ≡ z 200 ∷ x ∷ [] }
    ensures exact { put_within 370 1024 (z 200) three ≡ z 200 ∷ x ∷ y ∷ [] }
    ensures one_byte_less { put_within 369 1024 (z 200) three ≡ z 200 ∷ x ∷ [] }
    ensures emptied { put_within 79 1024 (z 10) three ≡ z 10 ∷ [] }
    ensures two_entries { put_within 300 2 (z 20) three ≡ z 20 ∷ x ∷ [] }
    ensures first_two { cut sized_size 170 9 three ≡ x ∷ y ∷ [] }
    ensures first_alone { cut sized_size 169 9 three ≡ x ∷ [] }
    ensures nothing_behind_a_gap { cut sized_size 99 9 (y ∷ z 100 ∷ sized (codes "w") 1 ∷ [])
        ≡ y ∷ [] }
    ensures no_bytes { cut sized_size 0 9 three ≡ [] }
    ensures no_entries { cut sized_size 300 0 three ≡ [] }
    ensures all { cut sized_size 270 3 three ≡ three }
    ensures bytes { total sized_size three ≡ 270 }
    ensures of_budget { cut entry_size 73 1024 ((temp, kept plain) ∷ []) ≡ (temp, kept plain) ∷ [] }
    ensures over_budget { cut entry_size 72 1024 ((temp, kept plain) ∷ []) ≡ [] }
    ensures without_budget { cut entry_size 0 1024 ((temp, kept plain) ∷ []) ≡ [] }
{}

/// How elements are found, moved and marked.
pub fn found()
    ensures first { of_key sized_key x.0 three ≡ Some x }
    ensures last { of_key sized_key (z 1).0 three ≡ Some (z 100) }
    ensures none { of_key sized_key temp three ≡ None }
    ensures moved { used sized_key y.0 three ≡ y ∷ x ∷ z 100 ∷ [] }
    ensures unmoved { used sized_key temp three ≡ three }
    ensures given_up { others sized_key y.0 three ≡ x ∷ z 100 ∷ [] }
    ensures distinct { are_distinct sized_key three ≡ true }
    ensures twice { are_distinct sized_key (z 1 ∷ three) ≡ false }
    ensures newest_two { last_two ≡ accepting 3 ∷ accepting 2 ∷ [] }
    ensures both_marked { count_by (is_for (at (codes "temp" ∷ []))) last_two ≡ 2 }
    ensures other_path { count_by (is_for (at [])) last_two ≡ 0 }
    ensures other_origin { is_for (at (codes "temp" ∷ [])) elsewhere ≡ false }
    ensures stays { marked (at (codes "temp" ∷ [])) elsewhere ≡ elsewhere }
    ensures other_parts_stay { entry_key (marked (at (codes "temp" ∷ [])) (accepting 1))
        ≡ entry_key (accepting 1) }
{}

/// How a 2.03 validates and renews a stored response (RFC 7252, 5.9.1.3).
pub fn validated()
    ensures no_max_age { renewed tagged (response 2 3 (tag (0xAB ∷ []) ∷ format 50 ∷ []) [])
        ≡ tagged_again }
    ensures two_kinds { renewed tagged_again
        (response 2 3 (tag (0xAB ∷ []) ∷ format 42 ∷ max_age 0 ∷ option_of 60 (7 ∷ []) ∷ []) [])
        ≡ response 2 5
        (tag (0xAB ∷ []) ∷ format 42 ∷ option_of 14 [] ∷ option_of 60 (7 ∷ []) ∷ []) (codes "21") }
    ensures nothing_new { renewed tagged_again (response 2 3 (tag (0xAB ∷ []) ∷ []) [])
        ≡ tagged_again }
    ensures many_of_a_kind { renewed
        (response 2 5 (option_of 8 (1 ∷ []) ∷ option_of 20 (2 ∷ []) ∷ []) [])
        (response 2 3 (option_of 8 (3 ∷ []) ∷ option_of 8 (4 ∷ []) ∷ max_age 9 ∷ []) [])
        ≡ response 2 5
        (option_of 8 (3 ∷ []) ∷ option_of 8 (4 ∷ []) ∷ max_age 9 ∷ option_of 20 (2 ∷ []) ∷ []) [] }
    ensures nothing_unsafe { renewed tagged_again
        (response 2 3 (tag (0xAB ∷ []) ∷ option_of 18 (7 ∷ []) ∷ []) [])
        ≡ tagged_again }
    ensures leading_zeros { renewed plain (response 2 3 (option_of 14 (0 ∷ 9 ∷ []) ∷ []) [])
        ≡ response 2 5 (max_age 9 ∷ []) (codes "21") }
    ensures the_tag { tag_of tagged.options ≡ Some (0xAB ∷ []) }
    ensures other_tag { tag_of (tag (0xAC ∷ []) ∷ []) ≡ Some (0xAC ∷ []) }
    ensures first_tag { tag_of (tag (0xAC ∷ []) ∷ tag (0xAB ∷ []) ∷ []) ≡ Some (0xAC ∷ []) }
    ensures long_first_tag { tag_of (tag (replicate 9 1) ∷ tag (0xAB ∷ []) ∷ []) ≡ None }
    ensures no_tag { tag_of plain.options ≡ None }
    ensures same_tag { is_validated tagged (response 2 3 (tag (0xAB ∷ []) ∷ []) []) ≡ true }
    ensures wrong_tag { is_validated tagged (response 2 3 (tag (0xAC ∷ []) ∷ []) []) ≡ false }
    ensures unrecognised_tag { is_validated tagged
        (response 2 3 (tag (replicate 9 1) ∷ tag (0xAB ∷ []) ∷ []) [])
        ≡ false }
    ensures without_tags { is_validated plain (response 2 3 [] []) ≡ false }
    ensures no_valid { is_validated tagged (response 2 5 (tag (0xAB ∷ []) ∷ []) []) ≡ false }
    ensures stored_error { is_validated (response 4 4 (tag (0xAB ∷ []) ∷ []) [])
        (response 2 3 (tag (0xAB ∷ []) ∷ []) [])
        ≡ false }
{}

/// What clients are sent (RFC 7252, 5.7.1, 5.10.5 and 5.10.6).
pub fn told()
    ensures left { shown plain (Some 1) [] ≡ response 2 5 (max_age 1 ∷ []) (codes "21") }
    ensures nothing_left { shown plain (Some 0) []
        ≡ response 2 5 (option_of 14 [] ∷ []) (codes "21") }
    ensures as_stored { shown plain None [] ≡ plain }
    ensures not_held { shown tagged_again (Some 60) ((0xAC ∷ []) ∷ []) ≡ tagged_again }
    ensures held { shown tagged_again (Some 60) ((0xAC ∷ []) ∷ (0xAB ∷ []) ∷ [])
        ≡ response 2 3 (tag (0xAB ∷ []) ∷ max_age 60 ∷ []) [] }
    ensures held_as_stored { shown tagged_again None ((0xAB ∷ []) ∷ []) ≡ tagged_again }
    ensures error { shown (response 4 4 [] []) (Some 59) [] ≡ response 4 4 (max_age 59 ∷ []) [] }
    ensures server_error { shown (response 5 3 (max_age 9 ∷ []) []) (Some 8) []
        ≡ response 5 3 (max_age 8 ∷ []) [] }
    ensures tagged_error { shown (response 4 4 (tag (0xAB ∷ []) ∷ []) []) (Some 59)
        ((0xAB ∷ []) ∷ [])
        ≡ response 4 4 (tag (0xAB ∷ []) ∷ max_age 59 ∷ []) [] }
    ensures changed { shown (response 2 4 (max_age 9 ∷ []) []) (Some 8) []
        ≡ response 2 4 (max_age 9 ∷ []) [] }
    ensures in_its_place { with_max_age 300 (format 50 ∷ option_of 60 (7 ∷ []) ∷ [])
        ≡ format 50 ∷ option_of 14 (1 ∷ 44 ∷ []) ∷ option_of 60 (7 ∷ []) ∷ [] }
{}

/// Which codes, of all 256, are sent with a Max-Age: 2.05, and those of classes 4 and 5 (RFC 7252,
/// 5.10.5). A 2.02 isn't.
pub fn told_with_an_age()
    ensures codes { filter (λ n. is_cacheable (record { 0 = n })) (range_with_len 0 256)
        ≡ 0x45 ∷ (range_with_len 0x80 32 ++ range_with_len 0xA0 32) }
    ensures deleted { shown (response 2 2 (max_age 9 ∷ []) []) (Some 8) []
        ≡ response 2 2 (max_age 9 ∷ []) [] }
{}
