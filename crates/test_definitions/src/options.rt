//! Options, computed with the definitions of `coap_option`.
ghost use Rattle.std.specs.Prelude.{◌≡◌, ◌∷◌, [], false, true, None, Some, map, filter};
ghost use Rattle.std.specs.List.{list_all, range_with_len};
ghost use Rattle.coap_message.specs.Codes.{code_of};
ghost use Rattle.coap_message.specs.Options.{option_of};
ghost use Rattle.coap_option.specs.Classes.{is_critical, is_no_cache_key, is_unsafe};
ghost use Rattle.coap_option.specs.Screening.{first_refused};
ghost use Rattle.coap_option.specs.Selection.{key_of, max_age_of, sent_on, tags_of};
ghost use Rattle.coap_option.specs.Side.{side_of};
ghost use Rattle.coap_option.specs.Survey.{key_from, of_none, says_uri};
ghost use Rattle.test_definitions.specs.Options.{content, from_to, get, has_range, is_known, longer, not_used_up, outside, of_requests, of_responses, put, survey_of, tagged, unknown, zeros};

use coap_option::Side;
use coap_option::numbers::*;

/// The numbers of the named options (RFC 7252, 5.10; RFC 7641, 2; RFC 7959, 2.1).
pub fn numbered()
    ensures if_match { IF_MATCH ≡ 1 }
    ensures uri_host { URI_HOST ≡ 3 }
    ensures etag { ETAG ≡ 4 }
    ensures if_none_match { IF_NONE_MATCH ≡ 5 }
    ensures observe { OBSERVE ≡ 6 }
    ensures uri_port { URI_PORT ≡ 7 }
    ensures location_path { LOCATION_PATH ≡ 8 }
    ensures uri_path { URI_PATH ≡ 11 }
    ensures content_format { CONTENT_FORMAT ≡ 12 }
    ensures max_age { MAX_AGE ≡ 14 }
    ensures uri_query { URI_QUERY ≡ 15 }
    ensures accept { ACCEPT ≡ 17 }
    ensures location_query { LOCATION_QUERY ≡ 20 }
    ensures block2 { BLOCK2 ≡ 23 }
    ensures block1 { BLOCK1 ≡ 27 }
    ensures proxy_uri { PROXY_URI ≡ 35 }
    ensures proxy_scheme { PROXY_SCHEME ≡ 39 }
    ensures size1 { SIZE1 ≡ 60 }
{}

/// The classes of options, by number (RFC 7252, 5.4.6).
pub fn classed()
    ensures critical { filter is_critical (range_with_len 0 8) ≡ 1 ∷ 3 ∷ 5 ∷ 7 ∷ [] }
    ensures unsafe_to_forward { filter is_unsafe (range_with_len 0 12)
        ≡ 2 ∷ 3 ∷ 6 ∷ 7 ∷ 10 ∷ 11 ∷ [] }
    ensures no_cache_key { filter is_no_cache_key (range_with_len 0 96)
        ≡ 28 ∷ 29 ∷ 60 ∷ 61 ∷ 92 ∷ 93 ∷ [] }
    ensures last_is_critical { is_critical 65535 ≡ true }
    ensures last_is_unsafe { is_unsafe 65535 ≡ true }
    ensures last_is_of_key { is_no_cache_key 65535 ≡ false }
    ensures high_no_cache_key { is_no_cache_key 65532 ≡ true }
{}

/// Codes of class 0 are those of requests, all others those of responses.
pub fn sided()
    ensures empty { side_of (code_of 0 0) ≡ Side.Request }
    ensures last_of_requests { side_of (code_of 0 31) ≡ Side.Request }
    ensures reserved { side_of (code_of 1 0) ≡ Side.Response }
    ensures content { side_of (code_of 2 5) ≡ Side.Response }
{}

/// Which options are recognised, with which lengths of their values, and which of them more than
/// once (RFC 7252, 5.4.5 and 5.10; RFC 7641, 2).
pub fn recognised()
    ensures requests { list_all (has_range Side.Request) of_requests ≡ true }
    ensures responses { list_all (has_range Side.Response) of_responses ≡ true }
    ensures no_others_in_requests { filter (is_known Side.Request 0) (range_with_len 0 300)
        ≡ map (λ entry. entry.0) of_requests }
    ensures no_others_in_responses { filter (is_known Side.Response 0) (range_with_len 0 300)
        ≡ map (λ entry. entry.0) of_responses }
    ensures again_in_requests { filter (is_known Side.Request 1) (range_with_len 0 300)
        ≡ 1 ∷ 4 ∷ 11 ∷ 15 ∷ [] }
    ensures again_in_responses { filter (is_known Side.Response 1) (range_with_len 0 300)
        ≡ 8 ∷ 20 ∷ [] }
    ensures often { filter (is_known Side.Request 9) (range_with_len 0 300) ≡ 1 ∷ 4 ∷ 11 ∷ 15 ∷ [] }
{}

/// How some messages are screened: Block1 and Block2 cause a message to be rejected, and so does a
/// second Uri-Host, while a second Accept passes. An unknown option is judged by its number.
pub fn screened()
    ensures block2_in_request { first_refused Side.Request (zeros BLOCK2 1 ∷ []) ≡ Some 23 }
    ensures block2_in_response { first_refused Side.Response (zeros BLOCK2 1 ∷ []) ≡ Some 23 }
    ensures block1_in_request { first_refused Side.Request (zeros BLOCK1 1 ∷ []) ≡ Some 27 }
    ensures two_hosts { first_refused Side.Request (zeros 3 4 ∷ zeros 3 4 ∷ []) ≡ Some 3 }
    ensures two_accepts { first_refused Side.Request (zeros 17 1 ∷ zeros 17 1 ∷ []) ≡ None }
    ensures host_in_response { first_refused Side.Response (zeros 3 4 ∷ []) ≡ Some 3 }
    ensures critical_safe { first_refused Side.Request (zeros 2049 1 ∷ []) ≡ None }
    ensures elective_unsafe { first_refused Side.Request (zeros 2050 1 ∷ []) ≡ Some 2050 }
{}

/// Which options of some messages are forwarded, are part of the key, or determine how the message
/// is cached.
pub fn selected()
    ensures accepts { sent_on (get (zeros 17 1 ∷ zeros 17 1 ∷ [])) ≡ zeros 17 1 ∷ zeros 17 1 ∷ [] }
    ensures used_up { sent_on
        (get
        (zeros 3 1 ∷ zeros 6 0 ∷ zeros 7 1 ∷ zeros 11 1 ∷ zeros 14 1 ∷ zeros 15 1 ∷ zeros 35 1
        ∷ zeros 39 1 ∷ []))
        ≡ [] }
    ensures others { sent_on (put not_used_up) ≡ not_used_up }
    ensures observe { sent_on (get (zeros 6 0 ∷ zeros 17 1 ∷ [])) ≡ zeros 17 1 ∷ [] }
    ensures long_observe { sent_on (get (zeros 6 4 ∷ [])) ≡ zeros 6 4 ∷ [] }
    ensures max_age_of_request { sent_on (get (zeros 14 1 ∷ [])) ≡ [] }
    ensures tag_of_get { sent_on (get (zeros 4 1 ∷ zeros 4 9 ∷ [])) ≡ zeros 4 9 ∷ [] }
    ensures tag_of_put { sent_on (put (zeros 4 1 ∷ [])) ≡ zeros 4 1 ∷ [] }
    ensures size1 { sent_on (get (zeros 17 1 ∷ zeros 60 1 ∷ [])) ≡ zeros 17 1 ∷ zeros 60 1 ∷ [] }
    ensures key { key_of (get (zeros 17 1 ∷ zeros 60 1 ∷ [])) ≡ zeros 17 1 ∷ [] }

    ensures tags_of_request { tags_of (get (option_of 4 (1 ∷ []) ∷ option_of 4 (2 ∷ []) ∷ []))
        ≡ (1 ∷ []) ∷ (2 ∷ []) ∷ [] }
    ensures tag_of_response { tags_of (content (option_of 4 (1 ∷ []) ∷ option_of 4 (2 ∷ []) ∷ []))
        ≡ (1 ∷ []) ∷ [] }
    ensures bad_first_tag { tags_of (content (zeros 4 9 ∷ zeros 4 1 ∷ [])) ≡ [] }

    ensures no_max_age { max_age_of (content []) ≡ 60 }
    ensures leading_zeros { max_age_of (content (option_of 14 (0 ∷ 0 ∷ 1 ∷ 44 ∷ []) ∷ [])) ≡ 300 }
    ensures empty_max_age { max_age_of (content (zeros 14 0 ∷ [])) ≡ 0 }
    ensures greatest_max_age { max_age_of (content (option_of 14 (255 ∷ 255 ∷ 255 ∷ 255 ∷ []) ∷ []))
        ≡ 4294967295 }
    ensures first_max_age { max_age_of
        (content (option_of 14 (1 ∷ []) ∷ option_of 14 (2 ∷ []) ∷ []))
        ≡ 1 }
    ensures long_max_age { max_age_of (content (zeros 14 5 ∷ [])) ≡ 60 }
{}

/// What a survey of some requests tells.
pub fn surveyed()
    ensures proxy_uri { says_uri (get (zeros 11 1 ∷ zeros 35 1 ∷ [])) ≡ true }
    ensures proxy_scheme { says_uri (get (zeros 3 1 ∷ zeros 39 1 ∷ [])) ≡ true }
    ensures path { says_uri (get (zeros 3 1 ∷ zeros 11 1 ∷ zeros 15 1 ∷ [])) ≡ false }
    ensures nothing { survey_of
        (get (zeros 3 1 ∷ zeros 11 1 ∷ zeros 15 1 ∷ zeros 15 1 ∷ []))
        ≡ outside 15 }
    ensures named { survey_of (get (zeros 35 1 ∷ [])) ≡ record (outside 35) { says_uri = true } }
    ensures accept { survey_of (get (zeros 11 1 ∷ zeros 17 1 ∷ []))
        ≡ record (outside 11) { has_key_options = true; others = from_to 17 17 } }
    ensures size1 { survey_of (get (zeros 11 1 ∷ zeros 60 1 ∷ []))
        ≡ record (outside 60) { others = from_to 60 60 } }
    ensures tag_of_get { survey_of (get (zeros 4 1 ∷ []))
        ≡ record (outside 4) { has_tags = true } }
    ensures long_tag { survey_of (get (zeros 4 9 ∷ []))
        ≡ record of_none { has_key_options = true; others = from_to 4 4 } }
    ensures tag_of_put { survey_of (put (zeros 4 1 ∷ []))
        ≡ record of_none { has_key_options = true; has_tags = true; others = from_to 4 4 } }
    ensures if_match_to_size1 { survey_of (put not_used_up)
        ≡ record (outside 60) { has_key_options = true; has_tags = true; others = from_to 1 60 } }
{}

/// From which number on all options of a request are part of its key, if no other is forwarded.
pub fn key_at_the_end()
    ensures none { key_from (survey_of (get (zeros 11 1 ∷ zeros 15 1 ∷ []))) ≡ None }
    ensures accept { key_from (survey_of (get (zeros 11 1 ∷ zeros 17 1 ∷ []))) ≡ Some 17 }
    ensures before_proxy_uri { key_from (survey_of (get (zeros 17 1 ∷ zeros 35 1 ∷ []))) ≡ None }
    ensures behind_proxy_uri { key_from (survey_of (get (zeros 35 1 ∷ zeros 2048 4 ∷ [])))
        ≡ Some 2048 }
    ensures with_size1 { key_from (survey_of (get (zeros 17 1 ∷ zeros 60 1 ∷ []))) ≡ None }
    ensures behind_a_tag { key_from (survey_of (get (zeros 4 1 ∷ zeros 4 9 ∷ []))) ≡ None }
    ensures long_tag { key_from (survey_of (get (zeros 4 9 ∷ []))) ≡ Some 4 }
    ensures number_0 { key_from (survey_of (get (zeros 0 1 ∷ []))) ≡ None }
{}

/// For some GETs, the options that are forwarded, those that are part of the key, and the tags: one
/// with an ETag, an empty Accept and an empty Size1; one with two ETags, a path, two query parts
/// and an Accept; and one with two options that aren't recognised, the second of which is
/// NoCacheKey.
pub fn asked()
    ensures sent_of_tagged { sent_on (get tagged) ≡ zeros 17 0 ∷ zeros 60 0 ∷ [] }
    ensures key_of_tagged { key_of (get tagged) ≡ zeros 17 0 ∷ [] }
    ensures tags_of_tagged { tags_of (get tagged) ≡ (7 ∷ []) ∷ [] }
    ensures sent_of_longer { sent_on (get longer) ≡ option_of 17 (0x3C ∷ []) ∷ [] }
    ensures key_of_longer { key_of (get longer) ≡ option_of 17 (0x3C ∷ []) ∷ [] }
    ensures tags_of_longer { tags_of (get longer) ≡ (7 ∷ []) ∷ (8 ∷ 9 ∷ []) ∷ [] }
    ensures sent_of_unknown { sent_on (get unknown) ≡ unknown }
    ensures key_of_unknown { key_of (get unknown) ≡ option_of 65000 (0xAA ∷ 0x0B ∷ []) ∷ [] }
    ensures tags_of_unknown { tags_of (get unknown) ≡ [] }
{}
