//! Writing a message as bytes (RFC 7252, 3).
ghost use Rattle.std.specs.Prelude.{◌≡◌, ◌<◌, ◌≤◌, ◌↔◌, [], length, IfOk, OnOk, OnErr, IsErr};
ghost use Rattle.coap_message.specs.Datagram.{Appends, holding, unit_of};
ghost use Rattle.coap_message.specs.Message.{message_of};
ghost use Rattle.coap_message.specs.Options.{from_number, last_number, option_of};
ghost use Rattle.coap_message.specs.Spelling.{Spells, bits_of, more_of, header_spelling, head_spelling, option_spelling, options_spelling, payload_spelling, spelling, with_id};

use crate::datagram::Datagram;
use crate::error::Full;
use crate::message::{Content, Head, Message};
use crate::options::Options;
use crate::reading::PAYLOAD_MARKER;
use crate::seq::Seq;
use crate::token::Token;

/// Appends bytes, if the datagram then holds at most `room` bytes.
fn append(out: &mut Datagram, room: usize, bytes: &[u8]) -> Result<(), Full>
    requires { room ≤ out.old.room }
    ensures { Appends out.old out.new room bytes.now result }
{
    let held = out.bytes().len();
    if held > room || bytes.len() > room - held {
        return Err(Full);
    }
    out.put(bytes);
    Ok(())
}

/// The four bits for a delta or a length (RFC 7252, 3.1).
pub(crate) fn bits(n: usize) -> u8
    ensures value { result ≡ bits_of n }
    ensures within { result < 15 }
{
    match n {
        0..=12 => n as u8,
        13..=268 => 13,
        _ => 14,
    }
}

/// Appends the bytes that extend a delta or a length.
fn put_more(out: &mut Datagram, room: usize, n: usize) -> Result<(), Full>
    requires room { room ≤ out.old.room }
    requires within { n ≤ 65804 }
    ensures { Appends out.old out.new room (more_of n) result }
{
    match n {
        0..=12 => append(out, room, &[]),
        13..=268 => append(out, room, &[(n - 13) as u8]),
        _ => append(out, room, &((n - 269) as u16).to_be_bytes()),
    }
}

/// Appends an option after one with the number `before`, or 0 for the first (RFC 7252, 3.1), if the
/// datagram then holds at most `room` bytes. Doesn't allocate.
///
/// # Errors
/// `Full`. Part of the option may have been appended then.
pub fn put_option(
    out: &mut Datagram,
    room: usize,
    before: u16,
    number: u16,
    value: &[u8],
) -> Result<(), Full>
    requires room { room ≤ out.old.room }
    requires above { before ≤ number }
    requires within { length value.now ≤ 65804 }
    ensures { Appends out.old out.new room (option_spelling before (option_of number value.now))
        result }
{
    let delta = usize::from(number - before);
    let length = value.len();
    append(out, room, &[16 * bits(delta) + bits(length)])?;
    put_more(out, room, delta)?;
    put_more(out, room, length)?;
    append(out, room, value)
}

/// Appends all the options of a message, if the datagram then holds at most `room` bytes. Doesn't
/// allocate.
///
/// # Errors
/// `Full`. None of them was appended then.
pub fn put_options(out: &mut Datagram, room: usize, options: &Options<'_>) -> Result<(), Full>
    requires { room ≤ out.old.room }
    ensures { Appends out.old out.new room (options_spelling 0 options.now) result }
{
    append(out, room, options.bytes())
}

/// Appends those of some options whose numbers aren't lower than `number`, after one with the number
/// `before`, if the datagram then holds at most `room` bytes: all behind the first of them in one
/// piece. Returns the number of the last option. Doesn't allocate.
///
/// # Errors
/// `Full`. Part of them may have been appended then.
pub fn put_options_from(
    out: &mut Datagram,
    room: usize,
    before: u16,
    options: &Options<'_>,
    number: u16,
) -> Result<u16, Full>
    requires room { room ≤ out.old.room }
    requires above { before ≤ number }
    ensures written { Appends out.old out.new room
        (options_spelling before (from_number number options.now))
        (unit_of result) }
    ensures last { IfOk result (λ last. last ≡ last_number before (from_number number options.now)) }
{
    let Some(first) = options.split_from(number) else {
        append(out, room, &[])?;
        return Ok(before);
    };
    put_option(out, room, before, first.number, first.value)?;
    append(out, room, first.rest)?;
    Ok(options.last)
}

/// Appends a payload after its marker, if there is a payload and the datagram then holds at most
/// `room` bytes. Doesn't allocate.
///
/// # Errors
/// `Full`. The marker may have been appended then.
pub fn put_payload(out: &mut Datagram, room: usize, payload: &[u8]) -> Result<(), Full>
    requires { room ≤ out.old.room }
    ensures { Appends out.old out.new room (payload_spelling payload.now) result }
{
    if payload.is_empty() {
        return append(out, room, &[]);
    }
    append(out, room, &[PAYLOAD_MARKER])?;
    append(out, room, payload)
}

/// The four bytes before the token (RFC 7252, 3).
fn header_of(head: Head, token_length: usize) -> [u8; 4]
    requires { token_length ≤ 8 }
    ensures { result ≡ header_spelling head token_length }
{
    let first = 0x40 + 16 * head.kind.number() + token_length as u8;
    let [high, low] = head.id.to_be_bytes();
    [first, head.code.0, high, low]
}

/// Begins a message: clears the datagram, and writes the header and the token (RFC 7252, 3), if
/// they are at most `room` bytes. Options and a payload are to be appended after them. Doesn't
/// allocate.
///
/// # Errors
/// `Full`. Part of them may have been written then.
pub fn put_head(out: &mut Datagram, room: usize, head: Head, token: &Token) -> Result<(), Full>
    requires { room ≤ out.old.room }
    ensures written { Appends (holding out.old []) out.new room (head_spelling head token.now)
        result }
    ensures within { length token.now ≤ 8 }
{
    out.clear();
    let token = token.as_slice();
    let header = header_of(head, token.len());
    append(out, room, &header)?;
    append(out, room, token)
}

/// Clears the datagram and writes the message with this head, token and content (RFC 7252, 3), if
/// it is at most `room` bytes. Doesn't allocate.
///
/// # Errors
/// `Full`, exactly if the message is longer than `room` bytes. Part of it may have been written
/// then.
#[tactic(auto, unfolding(crate::specs::Spelling::spelling))]
pub fn put_message(
    out: &mut Datagram,
    room: usize,
    head: Head,
    token: &Token,
    content: Content<'_>,
) -> Result<(), Full>
    requires { room ≤ out.old.room }
    ensures written { Appends (holding out.old []) out.new room
        (spelling (message_of head token.now content.entry.options content.entry.payload.now))
        result }
    ensures within { length token.now ≤ 8 }
{
    put_head(out, room, head, token)?;
    put_options(out, room, &content.options)?;
    put_payload(out, room, content.payload)
}

/// Clears the datagram and writes the unique encoding of a message, if it is at most `room` bytes.
/// Doesn't allocate.
///
/// # Errors
/// `Full`, exactly if the encoding is longer than `room` bytes. The datagram is empty then.
pub fn encode_into(message: &Message, out: &mut Datagram, room: usize) -> Result<(), Full>
    requires { room ≤ out.old.room }
    ensures ok { OnOk result (out.new ≡ holding out.old (spelling message.now)) }
    ensures spelled { OnOk result (Spells out.new.bytes message.now) }
    ensures full { IsErr result ↔ (room < length (spelling message.now)) }
    ensures err { OnErr result (out.new ≡ holding out.old []) }
{
    let head = Head {
        kind: message.kind,
        code: message.code,
        id: message.id,
    };
    if let Err(full) = put_message(out, room, head, &message.token, message.content()) {
        out.clear();
        return Err(full);
    }
    Ok(())
}

/// Replaces the Message ID in an encoded message: two bytes, the high one first (RFC 7252, 3). A
/// message of fewer than four bytes is left unchanged. Doesn't allocate.
#[tactic(auto, unfolding(crate::specs::Spelling::with_id))]
pub fn set_id(form: &mut Seq<u8>, id: u16)
    ensures { form.new ≡ with_id id form.old }
{
    if form.len() < 4 {
        return;
    }
    let [high, low] = id.to_be_bytes();
    form.set(2, high);
    form.set(3, low);
}
