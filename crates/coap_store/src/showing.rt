//! What clients are sent for a response, as a message (RFC 7252, 5.6, 5.7.1, 5.10.5 and 5.10.6).
ghost use Rattle.std.specs.Prelude.{◌≡◌, ◌≤◌, ◌∷◌, [], true, length, IfOk};
ghost use Rattle.coap_message.specs.Options.{option_of};
ghost use Rattle.coap_option.specs.declared.numbers.TheConstants.{ETAG};
ghost use Rattle.coap_store.specs.Renewing.{max_age_option};
ghost use Rattle.coap_store.specs.Showing.{aged, shown, is_cacheable, aged_or_valid, valid};

use crate::show::is_cacheable;
use crate::tag::held_tag;
use crate::updating::with_max_age;
use coap_message::{Code, Message, OptionList, OutOfMemory, Pieces, Seq, without_zeros};
use coap_option::numbers;
use std::alloc::Global;

/// What a client is sent for a response, as `show_into` writes it, except for type, Message ID and
/// token, which are those of the response.
///
/// `left` is the number of seconds left of an origin's answer to a GET. If it is given, a 2.05 or a
/// code of class 4 or 5 is sent with exactly one Max-Age, of that many seconds; and a 2.05 whose
/// ETag is among the client's `tags` is sent as a 2.03 with just that ETag and the Max-Age. Every
/// other response, and each one without `left`, is sent as it is.
///
/// # Errors
/// Out of memory.
pub fn shown(
    alloc: Global,
    message: &Message,
    left: Option<u32>,
    tags: &Pieces,
) -> Result<Message, OutOfMemory>
    ensures { IfOk result (λ m. m ≡ shown message.now left tags.now) }
{
    match left {
        Some(left) if is_cacheable(message.code) => aged_or_valid(alloc, message, left, tags),
        _ => message.lent().to_message(alloc),
    }
}

/// A response that is sent with a Max-Age.
fn aged_or_valid(
    alloc: Global,
    message: &Message,
    left: u32,
    tags: &Pieces,
) -> Result<Message, OutOfMemory>
    requires { is_cacheable message.now.code ≡ true }
    ensures { IfOk result (λ m. m ≡ aged_or_valid message.now left tags.now) }
{
    match held_tag(message, tags) {
        Some(tag) => valid(alloc, message, left, tag),
        None => aged(alloc, message, left),
    }
}

/// A 2.03 with a tag and a Max-Age, in place of a response.
fn valid(alloc: Global, message: &Message, left: u32, tag: &[u8]) -> Result<Message, OutOfMemory>
    requires { length tag.now ≤ 8 }
    ensures { IfOk result (λ m. m ≡ valid message.now left tag.now) }
{
    Ok(Message {
        kind: message.kind,
        code: Code::VALID,
        id: message.id,
        token: message.token,
        options: tag_and_age(alloc, tag, left)?,
        payload: Seq::new(alloc),
    })
}

/// An ETag and a Max-Age of this many seconds.
#[tactic(auto, unfolding(coap_message::specs::Uint::uint_spelling))]
fn tag_and_age(alloc: Global, tag: &[u8], left: u32) -> Result<OptionList, OutOfMemory>
    requires { length tag.now ≤ 8 }
    ensures { IfOk result (λ list. list ≡ option_of ETAG tag.now ∷ max_age_option left ∷ []) }
{
    let seconds = u64::from(left).to_be_bytes();
    let mut list = OptionList::new(alloc);
    list.push(numbers::ETAG, tag)?;
    list.push(numbers::MAX_AGE, without_zeros(&seconds))?;
    list.shrink_to_fit();
    Ok(list)
}

/// A response with one Max-Age, of this many seconds.
fn aged(alloc: Global, message: &Message, left: u32) -> Result<Message, OutOfMemory>
    requires { is_cacheable message.now.code ≡ true }
    ensures { IfOk result (λ m. m ≡ aged message.now left) }
{
    Ok(Message {
        kind: message.kind,
        code: message.code,
        id: message.id,
        token: message.token,
        options: with_max_age(alloc, u64::from(left), &message.options.lent())?,
        payload: Seq::from_slice(alloc, message.payload.as_slice())?,
    })
}
