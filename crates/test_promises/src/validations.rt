//! Responses to a request with a tag that renew nothing.
ghost use Rattle.std.specs.Prelude.{◌≡◌, ◌∷◌, [], Some, true};
ghost use Rattle.coap_message.specs.Message.{Message};
ghost use Rattle.coap_limits.specs.Limits.{Limits, default_limits};
ghost use Rattle.coap_store.specs.Renewing.{is_validated, tag_of};
ghost use Rattle.coap_forward.specs.Answers.{fits, passed_part};
ghost use Rattle.coap_model.specs.Cached.{IsLasting, IsObtained};
ghost use Rattle.coap_model.specs.Forged.{setting};
ghost use Rattle.coap_model.specs.History.{Position};
ghost use Rattle.coap_model.specs.OptionExamples.{key_of_temp};
ghost use Rattle.coap_model.specs.WordExamples.{asks_tagged, at, gets_valid, setting_with, tagged_content, tagged_past, valid_message, validated_past};
ghost use Rattle.test_promises.specs.Validations.{asks_other, format_valid, gets_format_valid, gets_other_valid, limits_of, other_past, other_valid, renewed_by, tags_asked, IsAsked};

/// A response with the tag AB is renewed by a message that arrives for a GET with this tag, if the
/// message validates it, and if what it makes of that fits a datagram and lasts (RFC 7252, 5.6.2
/// and 5.9.1.3).
pub fn a_validated_response_is_renewed()
    ensures tag { tag_of tagged_content.options ≡ Some (0xAB ∷ []) }
    ensures whole { (limits : Limits) (asking getting : Position) (m : Message)
        (is : IsAsked limits asking getting m)
        → tags_asked is ≡ (0xAB ∷ []) ∷ []
        → is_validated tagged_content (passed_part true m) ≡ true
        → fits limits.datagram (renewed_by m) ≡ true
        → IsLasting (renewed_by m)
        → IsObtained (setting_with limits) key_of_temp (renewed_by m) asking getting }
{}

/// A 2.03 renews what has its tag: nothing is obtained by one with another tag than the cached
/// response and the request have (RFC 7252, 5.9.1.3 and 5.10.6).
pub fn validations_with_another_tag_are_refused()
    ensures another { (response : Message) → ¬ IsObtained setting key_of_temp response
        (at tagged_past asks_tagged) (at validated_past gets_other_valid) }
    ensures but_for_its_tag { (is : IsAsked default_limits
        (at tagged_past asks_tagged) (at validated_past gets_other_valid) other_valid)
        × (tags_asked is ≡ (0xAB ∷ []) ∷ [])
        × (fits default_limits.datagram (renewed_by other_valid) ≡ true)
        × IsLasting (renewed_by other_valid) }
{}

/// A 2.03 renews what its request asked about: nothing is obtained if the request had another tag
/// than the cached response and the 2.03 have (RFC 7252, 5.6.2).
pub fn validations_of_another_tag_are_refused()
    ensures another { (response : Message) → ¬ IsObtained setting key_of_temp response
        (at tagged_past asks_other) (at other_past gets_valid) }
    ensures but_for_the_tag_of_the_request { IsAsked default_limits
        (at tagged_past asks_other) (at other_past gets_valid) valid_message
        × (is_validated tagged_content (passed_part true valid_message) ≡ true)
        × (fits default_limits.datagram (renewed_by valid_message) ≡ true)
        × IsLasting (renewed_by valid_message) }
{}

/// A cached response that gets an option from a 2.03 is obtained if it still fits a datagram, and
/// not if the datagram has one byte less, although the response fitted before, and the 2.03 does.
pub fn validations_that_grow_too_long_are_refused()
    ensures fitting { IsObtained (setting_with (limits_of 24)) key_of_temp (renewed_by format_valid)
        (at tagged_past asks_tagged) (at validated_past gets_format_valid) }
    ensures too_long { ¬ IsObtained (setting_with (limits_of 23)) key_of_temp
        (renewed_by format_valid)
        (at tagged_past asks_tagged) (at validated_past gets_format_valid) }
    ensures but_for_its_length { (is : IsAsked (limits_of 23)
        (at tagged_past asks_tagged) (at validated_past gets_format_valid) format_valid)
        × (tags_asked is ≡ (0xAB ∷ []) ∷ [])
        × (is_validated tagged_content (passed_part true format_valid) ≡ true)
        × IsLasting (renewed_by format_valid) }
{}
