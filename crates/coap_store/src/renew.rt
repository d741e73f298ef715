//! Renewing a stored response that an origin server validates (RFC 7252, 5.6.2 and 5.9.1.3).
ghost use Rattle.std.specs.Prelude.{◌≡◌, ◌↔◌, false, IfOk, Err};
ghost use Rattle.coap_store.specs.Renewing.{is_validated, news_of, renewed, safe_options};

use crate::renew_error::RenewError;
use crate::stored::Stored;
use crate::tag::tag_of;
use crate::updating::{updated, with_max_age};
use coap_message::{Code, Message, OptionList, Options, OutOfMemory};
use coap_option::{is_unsafe, max_age};
use std::alloc::Global;

/// The stored response, a 2.05, renewed by a 2.03 with its ETag. Its Max-Age is that of the 2.03,
/// or 60 seconds if that has none, encoded in the fewest bytes. The other safe options of the 2.03
/// replace all those with the same numbers (RFC 7252, 5.9.1.3).
///
/// # Errors
/// 1. `WrongTag`: the stored one isn't a 2.05, or the other isn't a 2.03, or their ETags differ, or
///    one of them has none that is recognised.
/// 2. `OutOfMemory`.
pub fn renewed(alloc: Global, stored: &Stored, valid: &Message) -> Result<Message, RenewError>
    ensures ok { IfOk result (λ message. message ≡ renewed stored.now.response valid.now) }
    ensures wrong_tag { (result ≡ Err RenewError.WrongTag)
        ↔ (is_validated stored.now.response valid.now ≡ false) }
{
    if !is_validated(stored.response.message(), valid) {
        return Err(RenewError::WrongTag);
    }
    match renew(alloc, stored.response.message(), valid) {
        Ok(message) => Ok(message),
        Err(_) => Err(RenewError::OutOfMemory),
    }
}

/// Whether the stored response is a 2.05 and the other one a 2.03 with its ETag.
fn is_validated(response: &Message, valid: &Message) -> bool
    ensures { result ≡ is_validated response.now valid.now }
{
    if response.code != Code::CONTENT || valid.code != Code::VALID {
        return false;
    }
    match tag_of(&response.options.lent()) {
        Some(tag) => match tag_of(&valid.options.lent()) {
            Some(other) => tag == other,
            None => false,
        },
        None => false,
    }
}

/// A stored 2.05 with its options renewed by a 2.03.
fn renew(alloc: Global, response: &Message, valid: &Message) -> Result<Message, OutOfMemory>
    requires { response.now.code ≡ Code.CONTENT }
    ensures { IfOk result (λ message. message ≡ renewed response.now valid.now) }
{
    let newer = news_of(alloc, valid)?;
    with_options(
        response,
        updated(alloc, &newer.lent(), &response.options.lent())?,
    )
}

/// The same 2.05 with other options.
fn with_options(response: &Message, options: OptionList) -> Result<Message, OutOfMemory>
    requires { response.now.code ≡ Code.CONTENT }
    ensures { IfOk result (λ message. message ≡ record response.now { options = options }) }
{
    Ok(Message {
        kind: response.kind,
        code: response.code,
        id: response.id,
        token: response.token,
        options,
        payload: response.payload.clone()?,
    })
}

/// What a 2.03 renews: its safe options, with its Max-Age.
fn news_of(alloc: Global, valid: &Message) -> Result<OptionList, OutOfMemory>
    ensures { IfOk result (λ list. list ≡ news_of valid.now) }
{
    let safe = safe_options(alloc, &valid.options.lent())?;
    with_max_age(alloc, u64::from(max_age(valid)), &safe.lent())
}

/// The options that are safe to forward.
fn safe_options(alloc: Global, options: &Options<'_>) -> Result<OptionList, OutOfMemory>
    ensures { IfOk result (λ list. list ≡ safe_options options.now) }
{
    let mut list = OptionList::new(alloc);
    for option in options.iter() {
        if !is_unsafe(option.number) {
            list.push(option.number, option.value)?;
        }
    }
    Ok(list)
}
