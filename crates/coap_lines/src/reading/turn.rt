//! Turns: an event with its moment and its draw, and the lines that encode one.
ghost use Rattle.std.specs.Prelude.{◌≡◌, ◌≤◌, ◌/◌, Some, length};
ghost use Rattle.coap_lines.specs.Answers.{Finds};
ghost use Rattle.coap_lines.specs.Turns.{arrival_of, event_of, turn_of, turn_seen};
ghost use Rattle.coap_model.specs.Events.{event_given};

use crate::reading::datagram::read_bytes;
use crate::reading::endpoint::read_source;
use crate::reading::number::{read_number_before, read_short_before};
use coap_endpoint::Endpoint;
use coap_message::{Datagram, LAST_MOMENT, MOST_JITTER, Moment};

/// What a line gives: a moment, a draw, and the source of the datagram that was put into the
/// buffer; no source for a tick.
#[derive(Clone, Copy, Debug, PartialEq, Eq)]
pub struct Turn {
    /// In milliseconds, at most 2^62.
    pub now: Moment,
    /// In milliseconds, at most 1,000.
    pub draw: u16,
    pub from: Option<Endpoint>,
}

/// The source of the datagram that a text encodes, whose bytes replace what the buffer holds.
fn read_arrival(text: &[u8], into: &mut Datagram) -> Option<Endpoint>
    requires { length text.now / 2 ≤ into.old.room }
    ensures read { Finds (λ from. event_given (Some from)) (arrival_of text.now) result
        into.new.bytes }
    ensures room { into.new.room ≡ into.old.room }
{
    let (from, hex) = read_source(text)?;
    read_bytes(hex, into)?;
    Some(from)
}

/// The source of the event that a text encodes, none for a tick. The bytes of a datagram replace
/// what the buffer holds.
#[tactic(auto, unfolding(crate::specs::Turns::event_of))]
fn read_event(text: &[u8], into: &mut Datagram) -> Option<Option<Endpoint>>
    requires { length text.now / 2 ≤ into.old.room }
    ensures read { Finds event_given (event_of text.now) result into.new.bytes }
    ensures room { into.new.room ≡ into.old.room }
{
    if text == b"tick".as_slice() {
        return Some(None);
    }
    let from = read_arrival(text, into)?;
    Some(Some(from))
}

/// The turn that a line encodes, after the moment `last`. The line is `MOMENT DRAW FROM HEX` or
/// `MOMENT DRAW tick`, its fields separated by one space, without a line end. The moment is in
/// milliseconds, at least `last` and at most 2^62; the draw is in milliseconds, at most 1,000.
///
/// The bytes of a datagram replace what the buffer holds, which has room for half as many as the
/// line is long, so that this doesn't allocate. If the line encodes no such turn, there is no
/// result, and what the buffer holds isn't specified.
pub fn read_turn(line: &[u8], last: Moment, into: &mut Datagram) -> Option<Turn>
    requires { length line.now / 2 ≤ into.old.room }
    ensures read { Finds turn_seen (turn_of last line.now) result into.new.bytes }
    ensures room { into.new.room ≡ into.old.room }
{
    let (now, rest) = read_number_before(line, b' ', LAST_MOMENT)?;
    let (draw, text) = read_short_before(rest, b' ', MOST_JITTER)?;
    let from = read_event(text, into)?;
    if now < last {
        return None;
    }
    Some(Turn { now, draw, from })
}
