//! Messages, computed with the definitions of `coap_message`.
ghost use Rattle.std.specs.Prelude.{◌≡◌, ◌-◌, ◌^◌, [], ◌∷◌, None, Ok, Some, filter, replicate};
ghost use Rattle.std.specs.List.{range_with_len};
ghost use Rattle.coap_message.specs.declared.error.DecodeError.TheVariants.{Short, Version};
ghost use Rattle.coap_message.specs.declared.kind.Kind.TheVariants.{Ack, Rst};
ghost use Rattle.coap_message.specs.Codes.{code_of, is_request, is_response};
ghost use Rattle.coap_message.specs.Reading.{head_at, read_message};
ghost use Rattle.coap_message.specs.Spelling.{spelling};
ghost use Rattle.coap_message.specs.Uint.{uint_of, uint_spelling};
ghost use Rattle.test_definitions.specs.Messages as of;

use coap_message::Code;

/// The named codes, each by its class and detail (RFC 7252, 12.1).
pub fn named_codes()
    ensures empty { Code.EMPTY ≡ code_of 0 0 }
    ensures get { Code.GET ≡ code_of 0 1 }
    ensures post { Code.POST ≡ code_of 0 2 }
    ensures put { Code.PUT ≡ code_of 0 3 }
    ensures delete { Code.DELETE ≡ code_of 0 4 }
    ensures created { Code.CREATED ≡ code_of 2 1 }
    ensures deleted { Code.DELETED ≡ code_of 2 2 }
    ensures valid { Code.VALID ≡ code_of 2 3 }
    ensures changed { Code.CHANGED ≡ code_of 2 4 }
    ensures content { Code.CONTENT ≡ code_of 2 5 }
    ensures bad_request { Code.BAD_REQUEST ≡ code_of 4 0 }
    ensures bad_option { Code.BAD_OPTION ≡ code_of 4 2 }
    ensures not_found { Code.NOT_FOUND ≡ code_of 4 4 }
    ensures method_not_allowed { Code.METHOD_NOT_ALLOWED ≡ code_of 4 5 }
    ensures request_entity_too_large { Code.REQUEST_ENTITY_TOO_LARGE ≡ code_of 4 13 }
    ensures bad_gateway { Code.BAD_GATEWAY ≡ code_of 5 2 }
    ensures service_unavailable { Code.SERVICE_UNAVAILABLE ≡ code_of 5 3 }
    ensures gateway_timeout { Code.GATEWAY_TIMEOUT ≡ code_of 5 4 }
    ensures proxying_not_supported { Code.PROXYING_NOT_SUPPORTED ≡ code_of 5 5 }
{}

/// Methods are 0.01 to 0.31, response codes 2.00 to 5.31, and 0.00 is neither (RFC 7252, 3 and
/// 12.1).
pub fn requests_and_responses()
    ensures requests { filter (λ n. is_request (record { 0 = n })) (range_with_len 0 256)
        ≡ range_with_len 1 31 }
    ensures responses { filter (λ n. is_response (record { 0 = n })) (range_with_len 0 256)
        ≡ range_with_len 64 128 }
{}

/// Numbers as option values, computed with the definitions (RFC 7252, 3.2).
pub fn numbers()
    ensures no_bytes { uint_of [] ≡ 0 }
    ensures high_byte_first { uint_of (1 ∷ 44 ∷ []) ≡ 300 }
    ensures zeros_at_the_head { uint_of (0 ∷ 0 ∷ 1 ∷ 44 ∷ []) ≡ 300 }
    ensures zero { uint_spelling 0 ≡ [] }
    ensures one_byte { uint_spelling 255 ≡ 255 ∷ [] }
    ensures two_bytes { uint_spelling 300 ≡ 1 ∷ 44 ∷ [] }
    ensures least_of_two { uint_spelling 256 ≡ 1 ∷ 0 ∷ [] }
    ensures least_of_three { uint_spelling 65536 ≡ 1 ∷ 0 ∷ 0 ∷ [] }
    ensures greatest { uint_spelling (2 ^ 64 - 1) ≡ replicate 8 255 }
{}

/// The heads of datagrams, whether or not these are well-formed messages, computed with the
/// definitions.
pub fn heads()
    ensures malformed { head_at (0x70 ∷ 0x45 ∷ 1 ∷ 2 ∷ 0xFF ∷ []) ≡ Some (of.head Rst 0x45 258) }
    ensures version { head_at (0x30 ∷ 0x45 ∷ 1 ∷ 2 ∷ []) ≡ None }
    ensures short { head_at (0x70 ∷ 0x45 ∷ 1 ∷ []) ≡ None }
{}

/// The messages of the standard's own examples (RFC 7252, Appendix A), and Empty messages.
pub fn examples_of_the_standard()
    ensures asking_is_read { read_message of.asking_bytes ≡ Ok (of.asking 0x7D34 []) }
    ensures asking_is_spelled { spelling (of.asking 0x7D34 []) ≡ of.asking_bytes }
    ensures asking_by_token_is_read { read_message of.asking_by_token_bytes
        ≡ Ok (of.asking 0x7D35 (0x20 ∷ [])) }
    ensures asking_by_token_is_spelled { spelling (of.asking 0x7D35 (0x20 ∷ []))
        ≡ of.asking_by_token_bytes }
    ensures told_is_read { read_message of.told_bytes ≡ Ok (of.told 0x7D34 []) }
    ensures told_is_spelled { spelling (of.told 0x7D34 []) ≡ of.told_bytes }
    ensures told_by_token_is_read { read_message of.told_by_token_bytes
        ≡ Ok (of.told 0x7D35 (0x20 ∷ [])) }
    ensures told_by_token_is_spelled { spelling (of.told 0x7D35 (0x20 ∷ []))
        ≡ of.told_by_token_bytes }
    ensures acknowledgement_is_read { read_message (0x60 ∷ 0 ∷ 0x7D ∷ 0x34 ∷ [])
        ≡ Ok (of.empty Ack 0x7D34) }
    ensures acknowledgement_is_spelled { spelling (of.empty Ack 0x7D34)
        ≡ 0x60 ∷ 0 ∷ 0x7D ∷ 0x34 ∷ [] }
    ensures reset_is_read { read_message (0x70 ∷ 0 ∷ 0x7D ∷ 0x34 ∷ []) ≡ Ok (of.empty Rst 0x7D34) }
    ensures reset_is_spelled { spelling (of.empty Rst 0x7D34) ≡ 0x70 ∷ 0 ∷ 0x7D ∷ 0x34 ∷ [] }
{}

/// Further examples, computed with the definitions.
pub fn more_messages()
    ensures get_is_read { read_message of.get_bytes ≡ Ok of.get_message }
    ensures get_is_spelled { spelling of.get_message ≡ of.get_bytes }
    ensures content_is_read { read_message of.content_bytes ≡ Ok of.content_message }
    ensures content_is_spelled { spelling of.content_message ≡ of.content_bytes }
    ensures longest_token_is_read { read_message of.longest_token_bytes
        ≡ Ok of.longest_token_message }
    ensures longest_token_is_spelled { spelling of.longest_token_message ≡ of.longest_token_bytes }
    ensures last_option_is_read { read_message of.last_option_bytes ≡ Ok of.last_option_message }
    ensures last_option_is_spelled { spelling of.last_option_message ≡ of.last_option_bytes }
    ensures short { of.refused of.short_bytes Short }
    ensures version { of.refused of.old_bytes Version }
    ensures format { of.AllRefused of.malformed }
    ensures boundaries { of.Boundaries }
{}
