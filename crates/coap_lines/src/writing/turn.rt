//! Lines of turns.
ghost use Rattle.std.specs.Prelude.{◌++◌, codes, length};
ghost use Rattle.std.specs.Fmt.{decimal};
ghost use Rattle.coap_model.specs.Events.Event.{arrival, tick};
ghost use Rattle.coap_lines.specs.Room.{Adds, HasRoom, longest_turn};
ghost use Rattle.coap_lines.specs.Turns.{IsSourced, turn_at, turn_line};

use crate::laws;
use crate::room::put;
use crate::writing::datagram::put_bytes;
use crate::writing::endpoint::put_endpoint;
use crate::writing::number::put_number;
use coap_endpoint::Endpoint;
use coap_message::Moment;

/// Adds the moment and the draw, each with the space after it.
fn put_moment(out: &mut Vec<u8>, now: Moment, draw: u16)
    requires { HasRoom out.old 27 }
    ensures { Adds out.old out.new (decimal now ++ codes " " ++ decimal draw ++ codes " ") 27 }
{
    put_number(out, now);
    put(out, b" ");
    put_number(out, draw);
    put(out, b" ");
}

/// Adds the line of a turn in which a datagram came: `MOMENT DRAW FROM HEX` and a line feed. `now`
/// and `draw` are in milliseconds; FROM has groups in lower case without leading zeros, HEX is in
/// upper case, or `-` for no bytes.
///
/// The buffer has room for it, so that this doesn't allocate.
#[tactic(auto, unfolding(crate::specs::Turns::turn_text))]
pub fn put_arrival(out: &mut Vec<u8>, now: Moment, draw: u16, from: Endpoint, bytes: &[u8])
    requires { HasRoom out.old (longest_turn (length bytes.now)) }
    ensures line { Adds out.old out.new (turn_line (turn_at now draw (arrival from bytes.now)))
        (longest_turn (length bytes.now)) }
    ensures sourced { IsSourced (arrival from bytes.now) }
{
    laws::datagrams_are_sourced(from, bytes);
    put_moment(out, now, draw);
    put_endpoint(out, from);
    put(out, b" ");
    put_bytes(out, bytes);
    put(out, b"\n");
}

/// Adds the line of a turn in which none came: `MOMENT DRAW tick` and a line feed. `now` and `draw`
/// are in milliseconds.
///
/// The buffer has room for it, so that this doesn't allocate.
#[tactic(auto, unfolding(crate::specs::Turns::turn_text))]
pub fn put_tick(out: &mut Vec<u8>, now: Moment, draw: u16)
    requires { HasRoom out.old (longest_turn 0) }
    ensures { Adds out.old out.new (turn_line (turn_at now draw tick)) (longest_turn 0) }
{
    put_moment(out, now, draw);
    put(out, b"tick\n");
}
