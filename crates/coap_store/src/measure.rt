//! How long a response with a Max-Age is, without writing it: bytes are taken off the room that
//! there is for it (RFC 7252, 3 and 3.1).
ghost use Rattle.std.specs.Prelude.{◌≡◌, ◌+◌, ◌≤◌, ℕ, nat_le, length, option_map, IfSome};
ghost use Rattle.coap_message.specs.declared.kind.Kind.{Kind};
ghost use Rattle.coap_message.specs.Options.{last_number, option_of};
ghost use Rattle.coap_message.specs.Spelling.{more_length, option_length, options_length, payload_length, spelling};
ghost use Rattle.coap_option.specs.declared.numbers.TheConstants.{MAX_AGE};
ghost use Rattle.coap_store.specs.Measuring.{Leaves};
ghost use Rattle.coap_store.specs.Renewing.{max_age_option, with_max_age};
ghost use Rattle.coap_store.specs.Showing.{addressed, aged};
ghost use Rattle.coap_store.specs.Writing.{floor_of, side_of};

use crate::show::MaxAgeSide;
use coap_message::{Message, Options, Token, without_zeros};
use coap_option::numbers;

/// Whether a response with one Max-Age of so many seconds is at most `most` bytes long, as a
/// message with this token. Its type and its id make no difference. Nothing is written for that.
pub fn aged_fits(message: &Message, token: &Token, left: u64, most: usize) -> bool
    ensures { (kind : Kind) (id : ℕ)
        → result
        ≡ nat_le (length (spelling (addressed kind id token.now (aged message.now left)))) most }
{
    behind_aged(message, token, left, most).is_some()
}

/// The room that is left behind such a message, or none if it is longer than `room`.
fn behind_aged(message: &Message, token: &Token, left: u64, room: usize) -> Option<usize>
    ensures { Leaves room
        (4 + length token.now + options_length 0 (with_max_age left message.now.options)
        + payload_length message.now.payload)
        result }
{
    let room = room.checked_sub(4 + token.as_slice().len())?;
    let room = behind_options(room, &message.options.lent(), left)?;
    behind_payload(room, message.payload.as_slice())
}

/// The room behind the options of a response, with one Max-Age in place of its own.
fn behind_options(room: usize, options: &Options<'_>, left: u64) -> Option<usize>
    ensures { Leaves room (options_length 0 (with_max_age left options.now)) result }
{
    let (room, before) = behind_side(room, 0, options, MaxAgeSide::Before)?;
    let room = behind_max_age(room, before, left)?;
    let (room, _) = behind_side(room, numbers::MAX_AGE, options, MaxAgeSide::After)?;
    Some(room)
}

/// The room behind those options that stand on this side, after one of the number `before`, and the
/// number of the last.
fn behind_side(
    room: usize,
    before: u16,
    options: &Options<'_>,
    side: MaxAgeSide,
) -> Option<(usize, u16)>
    requires { before ≤ floor_of side }
    ensures left { Leaves room (options_length before (side_of side options.now))
        (option_map (λ behind. behind.0) result) }
    ensures last { IfSome result (λ behind.
        behind.1 ≡ last_number before (side_of side options.now)) }
{
    let mut behind = room;
    let mut last = before;
    for option in options.iter() {
        if side.has(option.number) {
            behind = behind.checked_sub(option_length(last, option.number, option.value))?;
            last = option.number;
        }
    }
    Some((behind, last))
}

/// The room behind a Max-Age of so many seconds after an option of the number `before`.
#[tactic(auto, unfolding(coap_message::specs::Uint::uint_spelling))]
fn behind_max_age(room: usize, before: u16, seconds: u64) -> Option<usize>
    requires { before ≤ MAX_AGE }
    ensures { Leaves room (option_length before (max_age_option seconds)) result }
{
    let bytes = seconds.to_be_bytes();
    room.checked_sub(option_length(before, numbers::MAX_AGE, without_zeros(&bytes)))
}

/// The room behind a payload and its marker, if there is a payload.
fn behind_payload(room: usize, payload: &[u8]) -> Option<usize>
    ensures { Leaves room (payload_length payload.now) result }
{
    if payload.is_empty() {
        return Some(room);
    }
    room.checked_sub(1)?.checked_sub(payload.len())
}

/// How long an option is after one of the number `before`.
fn option_length(before: u16, number: u16, value: &[u8]) -> usize
    requires above { before ≤ number }
    requires within { length value.now ≤ 65804 }
    ensures { result ≡ option_length before (option_of number value.now) }
{
    let delta = usize::from(number - before);
    1 + more_length(delta) + more_length(value.len()) + value.len()
}

/// How many bytes extend a delta or a length.
fn more_length(n: usize) -> usize
    ensures exact { result ≡ more_length n }
    ensures within { result ≤ 2 }
{
    match n {
        0..=12 => 0,
        13..=268 => 1,
        _ => 2,
    }
}
