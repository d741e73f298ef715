//! Laws of the definitions: public functions that do nothing, whose contracts are the laws; and
//! facts about the values of a call, by functions of the crate's own that do nothing.
ghost use Rattle.std.specs.Prelude.{◌≡◌, ◌+◌, ◌<◌, ◌≤◌, ◌^◌, ℕ, List, None, Some, false, length, true};
ghost use Rattle.std.specs.List.{AllByRecursion};
ghost use Rattle.coap_message.specs.Uint.{IsBytes};
ghost use Rattle.coap_endpoint.specs.declared.endpoint.Endpoint.{Endpoint};
ghost use Rattle.coap_endpoint.specs.declared.endpoint.Ip.{Ip};
ghost use Rattle.coap_model.specs.Events.Event.{arrival};
ghost use Rattle.coap_model.specs.Runs.{AreTurns, Turn};
ghost use Rattle.coap_lines.specs.Datagrams.{IsHex, bytes_read, hex_text};
ghost use Rattle.coap_uri.specs.Address.{IsIp};
ghost use Rattle.coap_lines.specs.Endpoints.{IsEndpoint, endpoint_at, endpoint_of, endpoint_text};
ghost use Rattle.coap_lines.specs.Lines.{AreLines, IsNext, is_skipped, lines_of};
ghost use Rattle.coap_lines.specs.Numbers.{IsNumber, number_of};
ghost use Rattle.coap_lines.specs.Scripts.{all_done, bad_at, script_from, script_of, with_turn};
ghost use Rattle.coap_lines.specs.Turns.{IsReadAs, IsSayable, IsSourced, IsTurnLine, greatest, turn_of, turn_text};
ghost use Rattle.coap_lines.specs.declared.reading.input.Next.{Next};

use coap_endpoint::{Endpoint, Ip};

/// A text is read as a number exactly if it is the number's decimal form.
pub fn numbers_are_read()
    ensures read { (most n : ℕ) (text : List ℕ) → most < 2 ^ 64 → IsNumber most text n
        → number_of most text ≡ Some n }
    ensures only { (most n : ℕ) (text : List ℕ) → number_of most text ≡ Some n
        → IsNumber most text n }
{}

/// A text is read as bytes exactly if it encodes them.
pub fn datagrams_are_read()
    ensures read { (text bytes : List ℕ) → IsHex text bytes → bytes_read text ≡ Some bytes }
    ensures only { (text bytes : List ℕ) → bytes_read text ≡ Some bytes → IsHex text bytes }
{}

/// A text is read as an endpoint exactly if it encodes that endpoint.
pub fn endpoints_are_read()
    ensures read { (text : List ℕ) (endpoint : Endpoint) → IsEndpoint text endpoint
        → endpoint_of text ≡ Some endpoint }
    ensures only { (text : List ℕ) (endpoint : Endpoint) → endpoint_of text ≡ Some endpoint
        → IsEndpoint text endpoint }
{}

/// A line is read as a turn exactly if it encodes that turn.
pub fn turns_are_read()
    ensures read { (last : ℕ) (line : List ℕ) (turn : Turn) → IsTurnLine last line turn
        → turn_of last line ≡ Some turn }
    ensures only { (last : ℕ) (line : List ℕ) (turn : Turn) → turn_of last line ≡ Some turn
        → IsTurnLine last line turn }
{}

/// `lines_of` gives the lines of an input, and an input has no other list of lines.
pub fn inputs_have_one_list_of_lines()
    ensures has { (input : List ℕ) → AreLines input (lines_of input) }
    ensures only { (input : List ℕ) (lines : List (List ℕ)) → AreLines input lines
        → lines ≡ lines_of input }
{}

/// The turns of an input follow each other: no moment is below the one before it, and none above
/// 2^62; draws are at most 1,000, and datagrams are bytes.
pub fn turns_follow_each_other()
    ensures follow { (input : List ℕ) → AreTurns 0 (script_of input).turns }
    ensures within { (input : List ℕ)
        → AllByRecursion (λ turn. (turn.now ≤ 2 ^ 62) × (turn.draw ≤ 1000))
        (script_of input).turns }
{}

/// A datagram or an endpoint that was written is read back unchanged.
pub fn written_is_read()
    ensures datagrams { (bytes : List ℕ) → IsBytes bytes
        → bytes_read (hex_text bytes) ≡ Some bytes }
    ensures endpoints { (ip : Ip) (port : ℕ) → IsIp ip → port ≤ 65535
        → endpoint_of (endpoint_text (endpoint_at ip port)) ≡ Some (endpoint_at ip port) }
{}

/// The line of a turn is read back as that turn, if it isn't too long.
pub fn written_turns_are_read()
    ensures { (last : ℕ) (turn : Turn) → IsSayable last turn → length (turn_text turn) ≤ 16384
        → IsReadAs last (turn_text turn) turn }
{}

/// What an input asks for, starting at a line, depending on what comes next.
pub fn an_input_is_done_line_by_line()
    ensures end { (number last events : ℕ) (input left line : List ℕ)
        → IsNext input (Some left) line Next.End
        → script_from number last events (lines_of input) ≡ all_done }
    ensures long { (number last events : ℕ) (input left line : List ℕ)
        → IsNext input (Some left) line Next.TooLong
        → script_from number last events (lines_of input) ≡ bad_at number }
    ensures many { (number last events : ℕ) (input left line : List ℕ)
        → IsNext input (Some left) line Next.Line → greatest < number
        → script_from number last events (lines_of input) ≡ bad_at number }
    ensures skip { (number last events : ℕ) (input left line : List ℕ)
        → IsNext input (Some left) line Next.Line → number ≤ greatest → is_skipped line ≡ true
        → script_from number last events (lines_of input)
        ≡ script_from (number + 1) last events (lines_of left) }
    ensures bad { (number last events : ℕ) (input left line : List ℕ)
        → IsNext input (Some left) line Next.Line → number ≤ greatest → is_skipped line ≡ false
        → turn_of last line ≡ None
        → script_from number last events (lines_of input) ≡ bad_at number }
    ensures turn { (number last events : ℕ) (input left line : List ℕ) (turn : Turn)
        → IsNext input (Some left) line Next.Line → number ≤ greatest → is_skipped line ≡ false
        → turn_of last line ≡ Some turn → events < 2 ^ 63
        → script_from number last events (lines_of input)
        ≡ with_turn turn (script_from (number + 1) turn.now (events + 1) (lines_of left)) }
    ensures full { (number last events : ℕ) (input left line : List ℕ) (turn : Turn)
        → IsNext input (Some left) line Next.Line → number ≤ greatest → is_skipped line ≡ false
        → turn_of last line ≡ Some turn → 2 ^ 63 ≤ events
        → script_from number last events (lines_of input) ≡ bad_at number }
{}

/// Does nothing: octets are below 256.
fn octets_are_below_256(octets: &[u8])
    ensures { AllByRecursion (λ b. b < 256) octets.now }
{}

/// Does nothing: a datagram has a source, and consists of bytes.
pub(crate) fn datagrams_are_sourced(from: Endpoint, bytes: &[u8])
    ensures { IsSourced (arrival from bytes.now) }
{
    let _laws = from.port;
    match from.ip {
        Ip::V4(octets) => octets_are_below_256(&octets),
        Ip::V6(octets) => octets_are_below_256(&octets),
    }
}
