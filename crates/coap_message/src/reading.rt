//! Reading a message from bytes (RFC 7252, 3).
ghost use Rattle.std.specs.Prelude.{◌≡◌, ◌≢◌, ◌<◌, ◌≤◌, IfSome, IfOk, Some, length, option_map, ◌↔◌, MatchResult, Ok, Err};
ghost use Rattle.coap_message.specs.Message.{Message};
ghost use Rattle.coap_message.specs.Spelling.{Spells, SpellsNone, IsVersionOne};
ghost use Rattle.coap_message.specs.Reading.{extended, option_at, option_behind, option_cut, begins_option, payload_at, body_at, body_behind, read_message, header_at, head_at, Decodes};
ghost use Rattle.coap_message.specs.Parsing.{parsed, body_of};

use crate::code::Code;
use crate::error::DecodeError;
use crate::kind::Kind;
use crate::message::{Head, Message, MessageRef};
use crate::options::{Options, split_options};
use crate::token::Token;
use std::alloc::Global;

/// The byte between the options and a payload.
pub(crate) const PAYLOAD_MARKER: u8 = 0xFF;

/// From this value on, the four bits say how a delta or a length is extended (RFC 7252, 3.1).
pub(crate) const EXTENDED: u8 = 13;

/// An option in a datagram, and the bytes after it.
#[derive(Clone, Copy)]
pub(crate) struct Parsed<'a> {
    pub(crate) number: u16,
    pub(crate) value: &'a [u8],
    pub(crate) rest: &'a [u8],
}

/// What follows the header of a message.
#[derive(Drop)]
struct BodyRef<'a> {
    token: &'a [u8],
    options: Options<'a>,
    payload: &'a [u8],
}

#[tactic(auto, unfolding(crate::specs::Reading::extended))]
fn read_extended(bits: u8, bytes: &[u8]) -> Option<(usize, &[u8])>
    ensures exact { option_map (λ x. (x.0, x.1.now)) result ≡ extended bits bytes.now }
    ensures within { IfSome result (λ x. x.0 ≤ 65804) }
{
    match (bits, bytes) {
        (0..=12, _) => Some((usize::from(bits), bytes)),
        (13, [a, rest @ ..]) => Some((usize::from(*a) + 13, rest)),
        (14, [a, b, rest @ ..]) => Some((256 * usize::from(*a) + usize::from(*b) + 269, rest)),
        _ => None,
    }
}

/// The option after one with the number `before`, and the bytes after it. Most options extend
/// neither their delta nor their length, and many have the number `before`: so those are tried
/// first.
#[inline(always)]
#[tactic(auto, unfolding(crate::specs::Reading::option_at))]
pub(crate) fn read_option(before: u16, bytes: &[u8]) -> Option<Parsed<'_>>
    ensures exact { option_map parsed result ≡ option_at before bytes.now }
    ensures within { IfSome result (λ option. length option.value.now ≤ 65804) }
{
    let (first, rest) = bytes.split_first()?;
    if *first < EXTENDED {
        return cut_option(before, 0, usize::from(*first), rest);
    }
    let delta = *first >> 4;
    let len = *first & 0x0f;
    if delta < EXTENDED && len < EXTENDED {
        return cut_option(before, usize::from(delta), usize::from(len), rest);
    }
    read_long_option(before, delta, len, rest)
}

/// The option with these bits for the delta and the length, and what follows it.
#[inline(always)]
fn read_long_option(before: u16, delta: u8, len: u8, bytes: &[u8]) -> Option<Parsed<'_>>
    ensures exact { option_map parsed result ≡ option_behind before delta len bytes.now }
    ensures within { IfSome result (λ option. length option.value.now ≤ 65804) }
{
    let (delta, rest) = read_extended(delta, bytes)?;
    let (len, rest) = read_extended(len, rest)?;
    cut_option(before, delta, len, rest)
}

/// The option with this delta whose value is the next `len` bytes.
#[inline(always)]
fn cut_option(before: u16, delta: usize, len: usize, bytes: &[u8]) -> Option<Parsed<'_>>
    requires delta { delta ≤ 65804 }
    requires len { len ≤ 65804 }
    ensures exact { option_map parsed result ≡ option_cut before delta len bytes.now }
    ensures within { IfSome result (λ option. length option.value.now ≤ 65804) }
{
    let number = usize::from(before) + delta;
    if number > 65535 || bytes.len() < len {
        return None;
    }
    let (value, rest) = bytes.split_at(len);
    Some(Parsed {
        number: number as u16,
        value,
        rest,
    })
}

pub(crate) fn is_option(bytes: &[u8]) -> bool
    ensures { result ≡ begins_option bytes.now }
{
    match bytes {
        [] => false,
        [first, ..] => *first != PAYLOAD_MARKER,
    }
}

pub(crate) fn read_payload(bytes: &[u8]) -> Option<&[u8]>
    ensures { option_map (λ payload. payload.now) result ≡ payload_at bytes.now }
{
    match bytes {
        [] => Some(bytes),
        [_] => None,
        [_, payload @ ..] => Some(payload),
    }
}

#[tactic(auto, unfolding(crate::specs::Reading::body_at))]
fn read_body(token_length: usize, bytes: &[u8]) -> Option<BodyRef<'_>>
    ensures exact { option_map body_of result ≡ body_at token_length bytes.now }
    ensures within { IfSome result (λ body. length body.token.now ≤ 8) }
{
    if token_length > Token::MOST || bytes.len() < token_length {
        return None;
    }
    let (token, rest) = bytes.split_at(token_length);
    let (options, payload) = split_options(rest)?;
    Some(BodyRef {
        token,
        options,
        payload,
    })
}

fn read_content(code: Code, token_length: usize, bytes: &[u8]) -> Option<BodyRef<'_>>
    ensures exact { option_map body_of result ≡ body_behind code.0 token_length bytes.now }
    ensures within { IfSome result (λ body. length body.token.now ≤ 8) }
{
    if !code.is_empty() {
        return read_body(token_length, bytes);
    }
    if token_length != 0 || !bytes.is_empty() {
        return None;
    }
    Some(BodyRef {
        token: bytes,
        options: Options::none(),
        payload: bytes,
    })
}

impl<'a> MessageRef<'a> {
    /// The message that all of the bytes encode (RFC 7252, 3). Its options and its payload are
    /// borrowed from them, so it doesn't allocate.
    ///
    /// # Errors
    /// 1. `Short`: fewer than four bytes.
    /// 2. `Version`: a version other than 1.
    /// 3. `Format`: the bytes aren't a well-formed message.
    ///
    /// It is never `OutOfMemory`.
    pub fn read(bytes: &'a [u8]) -> Result<MessageRef<'a>, DecodeError>
        // A message that is read is encoded by the bytes, and a message that the bytes encode is
        // read.
        ensures spelled { (m : Message) → (result ≡ Ok m) ↔ Spells bytes.now m }

        // Which error it is.
        ensures short { (result ≡ Err DecodeError.Short) ↔ (length bytes.now < 4) }
        ensures version { (result ≡ Err DecodeError.Version)
            ↔ ((4 ≤ length bytes.now) × (IsVersionOne bytes.now → ⊥)) }
        ensures format { (result ≡ Err DecodeError.Format)
            ↔ ((4 ≤ length bytes.now) × IsVersionOne bytes.now × SpellsNone bytes.now) }
        ensures memory { result ≢ Err DecodeError.OutOfMemory }

        // The same, by the function that reads.
        ensures exact { result ≡ read_message bytes.now }
    {
        read_lent(bytes)
    }
}

#[tactic(auto, unfolding(crate::specs::Reading::read_message))]
fn read_lent(bytes: &[u8]) -> Result<MessageRef<'_>, DecodeError>
    ensures { result ≡ read_message bytes.now }
{
    let [first, code, high, low, rest @ ..] = bytes else {
        return Err(DecodeError::Short);
    };
    let Some(head) = read_header(*first, *code, *high, *low) else {
        return Err(DecodeError::Version);
    };
    let Some(body) = read_content(head.code, usize::from(*first & 0x0f), rest) else {
        return Err(DecodeError::Format);
    };
    Ok(MessageRef {
        kind: head.kind,
        code: head.code,
        id: head.id,
        token: body.token,
        options: body.options,
        payload: body.payload,
    })
}

fn read_copy(alloc: Global, bytes: &[u8]) -> Result<Message, DecodeError>
    ensures { Decodes result (read_message bytes.now) }
{
    let message = MessageRef::read(bytes)?;
    Ok(message.to_message(alloc)?)
}

/// A copy of the message that all of the bytes encode (RFC 7252, 3).
///
/// # Errors
/// As those of `MessageRef::read`, or `OutOfMemory`.
pub fn decode(alloc: Global, bytes: &[u8]) -> Result<Message, DecodeError>
    // A message that is read is encoded by the bytes, and a message that the bytes encode is read,
    // unless memory runs out.
    ensures spelled { IfOk result (λ m. Spells bytes.now m) }
    ensures read { (m : Message)
        → Spells bytes.now m
        → MatchResult result (λ found. found ≡ m) (λ e. e ≡ DecodeError.OutOfMemory) }

    // Which error it is. A format error comes only if the bytes encode no message, and it runs out
    // of memory only if they encode one.
    ensures short { (result ≡ Err DecodeError.Short) ↔ (length bytes.now < 4) }
    ensures version { (result ≡ Err DecodeError.Version)
        ↔ ((4 ≤ length bytes.now) × (IsVersionOne bytes.now → ⊥)) }
    ensures format { (result ≡ Err DecodeError.Format)
        ↔ ((4 ≤ length bytes.now) × IsVersionOne bytes.now × SpellsNone bytes.now) }
    ensures memory { result ≡ Err DecodeError.OutOfMemory → (m : Message) × Spells bytes.now m }

    // The same, by the function that reads.
    ensures exact { Decodes result (read_message bytes.now) }
{
    read_copy(alloc, bytes)
}

/// The start of any datagram of at least four bytes and version 1, whether or not what follows is
/// well-formed.
pub fn head_of(bytes: &[u8]) -> Option<Head>
    ensures { result ≡ head_at bytes.now }
{
    match bytes {
        [first, code, high, low, ..] => read_header(*first, *code, *high, *low),
        _ => None,
    }
}

/// What the first four bytes of a datagram say, if its version is 1 (RFC 7252, 3).
fn read_header(first: u8, code: u8, high: u8, low: u8) -> Option<Head>
    ensures { result ≡ header_at first code high low }
{
    if first >> 6 != 1 {
        return None;
    }
    Some(Head {
        kind: Kind::of_bits(first >> 4 & 3),
        code: Code(code),
        id: u16::from_be_bytes([high, low]),
    })
}
