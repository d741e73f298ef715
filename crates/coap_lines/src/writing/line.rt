//! Lines of an output.
ghost use Rattle.std.specs.Prelude.{◌≡◌, ◌≤◌, ◌++◌, [], IfOk, length, vec_capacity};
ghost use Rattle.coap_lines.specs.Lines.{line_of};
ghost use Rattle.coap_lines.specs.Room.{HasRoom, longest_line};

use crate::room::put;
use crate::writing::datagram::put_bytes;
use crate::writing::endpoint::put_endpoint;
use crate::writing::number::put_number;
use coap_endpoint::Endpoint;
use coap_message::{Moment, OutOfMemory};
use std::alloc::Global;

/// An empty buffer with room for the line of a datagram of `datagram` bytes.
///
/// # Errors
/// Out of memory.
pub fn line_buffer(alloc: Global, datagram: usize) -> Result<Vec<u8>, OutOfMemory>
    ensures empty { IfOk result (λ buffer. buffer.items ≡ []) }
    ensures room { IfOk result (λ buffer. longest_line datagram ≤ vec_capacity buffer) }
{
    let hex = datagram.checked_mul(2).ok_or(OutOfMemory)?;
    let room = hex.checked_add(71).ok_or(OutOfMemory)?;
    Ok(Vec::with_capacity(alloc, room)?)
}

/// Adds the line of a datagram that is sent at `now`, in milliseconds: `MOMENT TO HEX` and a line
/// feed, TO with groups in lower case without leading zeros, HEX in upper case, or `-` for no
/// bytes.
///
/// The buffer has room for it, as one from `line_buffer` has, so that this doesn't allocate.
#[tactic(auto, unfolding(crate::specs::Lines::line_of))]
pub fn put_line(out: &mut Vec<u8>, now: Moment, to: Endpoint, bytes: &[u8])
    requires { HasRoom out.old (longest_line (length bytes.now)) }
    ensures line { out.new.items ≡ out.old.items ++ line_of now to bytes.now }
    ensures room { vec_capacity out.old ≤ vec_capacity out.new }
{
    put_number(out, now);
    put(out, b" ");
    put_endpoint(out, to);
    put(out, b" ");
    put_bytes(out, bytes);
    put(out, b"\n");
}
