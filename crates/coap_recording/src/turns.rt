//! The line of a turn that a port gave.
ghost use Rattle.std.specs.Prelude.{◌≡◌, ◌≤◌, length};
ghost use Rattle.coap_lines.specs.Room.{Adds, HasRoom, longest_turn};
ghost use Rattle.coap_lines.specs.Turns.{IsSourced, turn_line};
ghost use Rattle.coap_model.specs.Events.{event_given};
ghost use Rattle.coap_port.specs.Given.{given_by};
ghost use Rattle.coap_recording.specs.Recorder.{size_of};

use coap_lines::{put_arrival, put_tick};
use coap_port::Turn;

/// How many bytes the datagram of a turn has; none for a tick.
pub(crate) fn size_of(turn: Turn, bytes: &[u8]) -> usize
    ensures size { result ≡ size_of (event_given turn.from bytes.now) }
    ensures within { result ≤ length bytes.now }
{
    match turn.from {
        Some(_) => bytes.len(),
        None => 0,
    }
}

/// Adds the line of a turn, for which there is room.
pub(crate) fn put_turn(out: &mut Vec<u8>, turn: Turn, bytes: &[u8])
    requires { HasRoom out.old (longest_turn (size_of (event_given turn.from bytes.now))) }
    ensures line { Adds out.old out.new (turn_line (given_by turn bytes.now))
        (longest_turn (size_of (event_given turn.from bytes.now))) }
    ensures sourced { IsSourced (event_given turn.from bytes.now) }
{
    match turn.from {
        Some(from) => put_arrival(out, turn.now, turn.draw, from, bytes),
        None => put_tick(out, turn.now, turn.draw),
    }
}
