//! Responses with a Max-Age of 0, which aren't stored.
ghost use Rattle.std.specs.Prelude.{◌≡◌, ◌∷◌, [], true};
ghost use Rattle.coap_message.specs.Message.{Message};
ghost use Rattle.coap_limits.specs.Limits.{default_limits};
ghost use Rattle.coap_store.specs.Renewing.{is_validated};
ghost use Rattle.coap_store.specs.Showing.{is_cacheable};
ghost use Rattle.coap_forward.specs.Answers.{fits, passed_part};
ghost use Rattle.coap_model.specs.Cached.{IsFetched, IsObtained};
ghost use Rattle.coap_model.specs.CacheExamples.{first_entry};
ghost use Rattle.coap_model.specs.Forged.{setting};
ghost use Rattle.coap_model.specs.OptionExamples.{key_of_temp};
ghost use Rattle.coap_model.specs.WordExamples.{asks_tagged, at, tagged_content, tagged_past, validated_past};
ghost use Rattle.test_promises.specs.Ages.{ageless, ageless_valid, gets_ageless, gets_ageless_valid};
ghost use Rattle.test_promises.specs.Fetches.{get_past};
ghost use Rattle.test_promises.specs.Validations.{renewed_by, tags_asked, IsAsked};

/// A response with a Max-Age of 0 isn't obtained, nor is one that gets it from a 2.03 (RFC 7252,
/// 5.6.1 and 5.10.5).
pub fn responses_with_a_max_age_of_0_are_refused()
    ensures with_one { IsObtained setting key_of_temp first_entry.response
        first_entry.asking first_entry.getting }
    ensures without { (response : Message) → ¬ IsObtained setting key_of_temp response
        first_entry.asking (at get_past gets_ageless) }
    ensures but_for_its_max_age { (fetched : IsFetched setting key_of_temp
        first_entry.asking (at get_past gets_ageless))
        × (fetched.gets.meets.message ≡ ageless)
        × (is_cacheable (passed_part true ageless).code ≡ true) }
    ensures renewed { ¬ IsObtained setting key_of_temp (renewed_by ageless_valid)
        (at tagged_past asks_tagged) (at validated_past gets_ageless_valid) }
    ensures but_for_the_max_age_of_the_validation { (is : IsAsked default_limits
        (at tagged_past asks_tagged) (at validated_past gets_ageless_valid) ageless_valid)
        × (tags_asked is ≡ (0xAB ∷ []) ∷ [])
        × (is_validated tagged_content (passed_part true ageless_valid) ≡ true)
        × (fits default_limits.datagram (renewed_by ageless_valid) ≡ true)
        × (is_cacheable (renewed_by ageless_valid).code ≡ true) }
{}
