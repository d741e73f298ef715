//! What clients are sent for a response, written without allocation (RFC 7252, 5.6, 5.7.1, 5.10.5
//! and 5.10.6).
ghost use Rattle.std.specs.Prelude.{◌≡◌, ◌≤◌, ◌<◌, ◌↔◌, ◌∷◌, [], length, IfOk, IsErr, OnOk, OnErr};
ghost use Rattle.coap_message.specs.Datagram.{Appends, holding, unit_of};
ghost use Rattle.coap_message.specs.Message.{message_of};
ghost use Rattle.coap_message.specs.Options.{last_number, option_of};
ghost use Rattle.coap_message.specs.Spelling.{options_spelling, spelling};
ghost use Rattle.coap_option.specs.declared.numbers.TheConstants.{ETAG, MAX_AGE};
ghost use Rattle.coap_store.specs.Renewing.{max_age_option, with_max_age};
ghost use Rattle.coap_store.specs.Envelopes.{enclosed, shown_to};
ghost use Rattle.coap_store.specs.Showing.{addressed, aged, shown, is_cacheable, aged_or_valid};
ghost use Rattle.coap_store.specs.Writing.{floor_of, is_in, side_of};

use crate::envelope::Envelope;
use crate::tag::held_tag;
use coap_message::{
    Code, Datagram, Full, Kind, Message, Options, Pieces, Token, put_head, put_message, put_option,
    put_payload, without_zeros,
};
use coap_option::numbers;

/// Writes what a client is sent for a response, with this type, Message ID and token. Doesn't
/// allocate.
///
/// `left` is for how many seconds an origin's answer to a GET stays fresh. If it is given, a
/// response with code 2.05 or one of class 4 or 5 is sent with exactly one Max-Age, of that many
/// seconds; and a 2.05 whose ETag is among the client's `tags` is sent as a 2.03 with just that
/// ETag and the Max-Age. Every other response, and each one without `left`, is sent as it is.
///
/// # Errors
/// `Full`, exactly if it is longer than `room` bytes: the datagram is empty then.
pub fn show_into(
    message: &Message,
    kind: Kind,
    id: u16,
    token: &Token,
    left: Option<u32>,
    tags: &Pieces,
    out: &mut Datagram,
    room: usize,
) -> Result<(), Full>
    requires { room ≤ out.old.room }
    ensures ok { OnOk result
        (out.new
        ≡ holding out.old
        (spelling (addressed kind id token.now (shown message.now left tags.now)))) }
    ensures full { IsErr result
        ↔ (room
        < length (spelling (addressed kind id token.now (shown message.now left tags.now)))) }
    ensures err { OnErr result (out.new ≡ holding out.old []) }
{
    let envelope = Envelope {
        kind,
        id,
        token,
        tags,
    };
    put_response(message, envelope, left, out, room)
}

/// Writes what a client is sent for a response, as `show_into` does: `envelope` has the type,
/// Message ID, token and tags.
///
/// # Errors
/// `Full`, exactly if it is longer than `room` bytes: the datagram is empty then.
pub fn put_response(
    message: &Message,
    envelope: Envelope<'_>,
    left: Option<u32>,
    out: &mut Datagram,
    room: usize,
) -> Result<(), Full>
    requires { room ≤ out.old.room }
    ensures ok { OnOk result
        (out.new ≡ holding out.old (spelling (shown_to envelope.entry message.now left))) }
    ensures full { IsErr result
        ↔ (room < length (spelling (shown_to envelope.entry message.now left))) }
    ensures err { OnErr result (out.new ≡ holding out.old []) }
{
    if let Err(full) = write_shown(message, envelope, left, out, room) {
        out.clear();
        return Err(full);
    }
    Ok(())
}

/// Whether a response with this code may be cached, and so is sent with a Max-Age: 2.05, 4.xx and
/// 5.xx (RFC 7252, 5.9.1.5, 5.9.2, 5.9.3 and 5.10.5). A 2.03 to a GET doesn't get here: it renews
/// what is stored, or becomes 5.02.
pub fn is_cacheable(code: Code) -> bool
    ensures { result ≡ is_cacheable code }
{
    code == Code::CONTENT || code.class() == 4 || code.class() == 5
}

/// Writes what the client is sent, if it is at most `room` bytes.
fn write_shown(
    message: &Message,
    envelope: Envelope<'_>,
    left: Option<u32>,
    out: &mut Datagram,
    room: usize,
) -> Result<(), Full>
    requires { room ≤ out.old.room }
    ensures { Appends (holding out.old []) out.new room
        (spelling (shown_to envelope.entry message.now left)) result }
{
    match left {
        Some(left) if is_cacheable(message.code) => {
            put_aged_or_valid(message, envelope, u64::from(left), out, room)
        }
        _ => {
            let head = envelope.head(message.code);
            put_message(out, room, head, envelope.token, message.content())
        }
    }
}

/// Writes a response that is sent with a Max-Age.
fn put_aged_or_valid(
    message: &Message,
    envelope: Envelope<'_>,
    left: u64,
    out: &mut Datagram,
    room: usize,
) -> Result<(), Full>
    requires { room ≤ out.old.room }
    ensures { Appends (holding out.old []) out.new room
        (spelling
        (enclosed envelope.entry (aged_or_valid message.now left envelope.entry.tags.now))) result }
{
    match held_tag(message, envelope.tags) {
        Some(tag) => put_valid(envelope, tag, left, out, room),
        None => put_aged(message, envelope, left, out, room),
    }
}

/// Writes a 2.03 with a tag and a Max-Age.
#[tactic(auto, unfolding(coap_message::specs::Spelling::spelling))]
fn put_valid(
    envelope: Envelope<'_>,
    tag: &[u8],
    left: u64,
    out: &mut Datagram,
    room: usize,
) -> Result<(), Full>
    requires room { room ≤ out.old.room }
    requires short { length tag.now ≤ 8 }
    ensures { Appends (holding out.old []) out.new room
        (spelling
        (message_of
        (record { kind = envelope.entry.kind; code = Code.VALID; id = envelope.entry.id })
        envelope.entry.token.now (option_of ETAG tag.now ∷ max_age_option left ∷ []) [])) result }
{
    put_head(out, room, envelope.head(Code::VALID), envelope.token)?;
    put_option(out, room, 0, numbers::ETAG, tag)?;
    put_max_age(out, room, numbers::ETAG, left)
}

/// Adds a Max-Age of `seconds` seconds after an option with the number `before`, 0 for none, if the
/// datagram then holds at most `room` bytes. Doesn't allocate.
///
/// # Errors
/// `Full`, exactly if the datagram would hold more than `room` bytes. Part of it may have been
/// added then.
#[tactic(auto, unfolding(coap_message::specs::Uint::uint_spelling))]
pub fn put_max_age(out: &mut Datagram, room: usize, before: u16, seconds: u64) -> Result<(), Full>
    requires room { room ≤ out.old.room }
    requires above { before ≤ MAX_AGE }
    ensures { Appends out.old out.new room (options_spelling before (max_age_option seconds ∷ []))
        result }
{
    let bytes = seconds.to_be_bytes();
    put_option(out, room, before, numbers::MAX_AGE, without_zeros(&bytes))
}

/// Writes a response with one Max-Age of `left` seconds, if it is at most `room` bytes. Doesn't
/// allocate.
///
/// # Errors
/// `Full`, exactly if it is longer than `room` bytes. Part of it may have been written then.
#[tactic(auto, unfolding(coap_message::specs::Spelling::spelling))]
fn put_aged(
    message: &Message,
    envelope: Envelope<'_>,
    left: u64,
    out: &mut Datagram,
    room: usize,
) -> Result<(), Full>
    requires { room ≤ out.old.room }
    ensures { Appends (holding out.old []) out.new room
        (spelling (enclosed envelope.entry (aged message.now left))) result }
{
    put_head(out, room, envelope.head(message.code), envelope.token)?;
    put_aged_options(out, room, &message.options.lent(), left)?;
    put_payload(out, room, message.payload.as_slice())
}

/// Adds the options of a response, with one Max-Age in place of its own.
fn put_aged_options(
    out: &mut Datagram,
    room: usize,
    options: &Options<'_>,
    left: u64,
) -> Result<(), Full>
    requires room { room ≤ out.old.room }
    requires held { length out.old.bytes ≤ room }
    ensures { Appends out.old out.new room (options_spelling 0 (with_max_age left options.now))
        result }
{
    let before = put_side(out, room, 0, options, MaxAgeSide::Before)?;
    put_max_age(out, room, before, left)?;
    put_side(out, room, numbers::MAX_AGE, options, MaxAgeSide::After)?;
    Ok(())
}

/// On which side of a Max-Age an option goes, by its number.
#[derive(Clone, Copy)]
pub(crate) enum MaxAgeSide {
    /// Before a Max-Age.
    Before,
    /// After it.
    After,
}

impl MaxAgeSide {
    /// Whether an option with this number goes there.
    pub(crate) fn has(self, number: u16) -> bool
        ensures { result ≡ is_in self number }
    {
        match self {
            MaxAgeSide::Before => number < numbers::MAX_AGE,
            MaxAgeSide::After => numbers::MAX_AGE < number,
        }
    }
}

/// Adds the options that go on this side, after one with the number `before`. Returns the number of
/// the last.
fn put_side(
    out: &mut Datagram,
    room: usize,
    before: u16,
    options: &Options<'_>,
    side: MaxAgeSide,
) -> Result<u16, Full>
    requires room { room ≤ out.old.room }
    requires held { length out.old.bytes ≤ room }
    requires above { before ≤ floor_of side }
    ensures written { Appends out.old out.new room
        (options_spelling before (side_of side options.now)) (unit_of result) }
    ensures last { IfOk result (λ last. last ≡ last_number before (side_of side options.now)) }
{
    let mut last = before;
    for option in options.iter() {
        if side.has(option.number) {
            put_option(out, room, last, option.number, option.value)?;
            last = option.number;
        }
    }
    Ok(last)
}
