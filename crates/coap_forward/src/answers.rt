//! What a proxy makes of a response: the answer that it keeps, and how long the answer stays fresh.
ghost use Rattle.std.specs.Prelude.{◌≡◌, ◌==◌, true, not, [], filter, option_map, IfOk, IsOk};
ghost use Rattle.std.specs.List.{list_any};
ghost use Rattle.coap_message.specs.declared.code.Code.{Code};
ghost use Rattle.coap_message.specs.declared.kind.Kind.{Kind};
ghost use Rattle.coap_message.specs.declared.kind.Kind.TheVariants.{Non};
ghost use Rattle.coap_option.specs.declared.numbers.TheConstants.{OBSERVE};
ghost use Rattle.coap_forward.specs.Answers.{is_storable, without_observe, passed_part, validates, fits, answer_if_fits, answer_of, copy_in, validated, left_of, left_to_show, bad_gateway, gateway_timeout, origin_answer, own_answer};

use coap_message::{
    Code, Kind, Message, MessageRef, Moment, OptionList, Options, OutOfMemory, Seq, Token,
};
use coap_option::{max_age, numbers, screen_response_ref};
use coap_store::{
    Answer, RenewError, SharedMessage, Stored, aged_fits, is_cacheable, left_at, renewed,
};
use std::alloc::Global;

/// The greatest Max-Age, in seconds: it takes four bytes (RFC 7252, 5.10.5).
const GREATEST_MAX_AGE: u64 = 4_294_967_295;

/// Whether one of the options is an Observe.
fn has_observe(options: &Options<'_>) -> bool
    ensures { result ≡ list_any (λ o. o.number == OBSERVE) options.now }
{
    for option in options.iter() {
        if option.number == numbers::OBSERVE {
            return true;
        }
    }
    false
}

/// A copy of the options without Observe, with no spare capacity.
fn without_observe(alloc: Global, options: &Options<'_>) -> Result<OptionList, OutOfMemory>
    ensures { IfOk result (λ list. list ≡ filter (λ o. not (o.number == OBSERVE)) options.now) }
{
    if !has_observe(options) {
        return options.to_owned(alloc);
    }
    let mut list = OptionList::new(alloc);
    for option in options.iter() {
        if option.number != numbers::OBSERVE {
            list.push(option.number, option.value)?;
        }
    }
    list.shrink_to_fit();
    Ok(list)
}

/// Whether a response is a 2.03 to a GET, which validates what is stored (RFC 7252, 5.9.1.3).
fn validates(to_get: bool, response: &MessageRef<'_>) -> bool
    ensures { result ≡ validates to_get response.now }
{
    to_get && response.code() == Code::VALID
}

/// A copy of what is passed on of a response: it without Observe (RFC 7641, 2), and, if it
/// validates, without its payload too.
fn passed_part(
    alloc: Global,
    to_get: bool,
    response: &MessageRef<'_>,
) -> Result<Message, OutOfMemory>
    ensures { IfOk result (λ message. message ≡ passed_part to_get response.now) }
{
    let payload = if validates(to_get, response) {
        &[]
    } else {
        response.payload()
    };
    Ok(Message {
        kind: response.kind(),
        code: response.code(),
        id: response.id(),
        token: Token::new(response.token()),
        options: without_observe(alloc, &response.option_list())?,
        payload: Seq::from_slice(alloc, payload)?,
    })
}

/// Whether a response fits a datagram of `most` bytes with any token and any Max-Age: whether its
/// longest encoding does, with a token of eight bytes and a Max-Age of four.
fn fits(message: &Message, most: usize) -> bool
    ensures { result ≡ fits most message.now }
{
    let token = Token::new(&[0; 8]);
    aged_fits(message, &token, GREATEST_MAX_AGE, most)
}

/// An answer of the proxy's own, with this code and nothing more. Doesn't allocate.
fn own_answer(alloc: Global, now: Moment, code: Code) -> Answer
    ensures { result
        ≡ own_answer now
        (record { kind = Non; code = code; id = 0; token = []; options = []; payload = [] }) }
{
    Answer {
        message: SharedMessage::new(Message {
            kind: Kind::Non,
            code,
            id: 0,
            token: Token::empty(),
            options: OptionList::new(alloc),
            payload: Seq::new(alloc),
        }),
        got: now,
        own: true,
    }
}

/// 5.02, in place of a response that can't be passed on (RFC 7252, 5.9.3.3), or that never comes
/// because its request was rejected (RFC 7252, 4.2). `now` is in milliseconds. Doesn't allocate.
pub fn bad_gateway(alloc: Global, now: Moment) -> Answer
    ensures exact { result ≡ own_answer now bad_gateway }
{
    own_answer(alloc, now, Code::BAD_GATEWAY)
}

/// 5.04, in place of a response that didn't come in time (RFC 7252, 5.7.1 and 5.9.3.5). `now` is in
/// milliseconds. Doesn't allocate.
pub fn gateway_timeout(alloc: Global, now: Moment) -> Answer
    ensures exact { result ≡ own_answer now gateway_timeout }
{
    own_answer(alloc, now, Code::GATEWAY_TIMEOUT)
}

/// An origin's response, as an answer.
fn origin_answer(now: Moment, message: Message) -> Answer
    ensures { result ≡ origin_answer now message }
{
    Answer {
        message: SharedMessage::new(message),
        got: now,
        own: false,
    }
}

/// An origin's response, as an answer, if it fits a datagram, and 5.02 otherwise.
fn answer_if_fits(alloc: Global, most: usize, now: Moment, message: Message) -> Answer
    ensures { result ≡ answer_if_fits most now message }
{
    if fits(&message, most) {
        origin_answer(now, message)
    } else {
        bad_gateway(alloc, now)
    }
}

/// The answer for a 2.03: the stored response, renewed, if it is the one being validated (RFC 7252,
/// 5.9.1.3).
fn validated(
    alloc: Global,
    most: usize,
    now: Moment,
    copy: Option<&Stored>,
    valid: &Message,
) -> Result<Answer, OutOfMemory>
    ensures { IfOk result (λ answer.
        answer
        ≡ validated most now (option_map (λ stored. stored.now.response) copy.entry) valid.now) }
{
    let Some(stored) = copy else {
        return Ok(bad_gateway(alloc, now));
    };
    match renewed(alloc, stored, valid) {
        Ok(message) => Ok(answer_if_fits(alloc, most, now, message)),
        Err(RenewError::WrongTag) => Ok(bad_gateway(alloc, now)),
        Err(RenewError::OutOfMemory) => Err(OutOfMemory),
    }
}

/// What the answer for a response depends on of the request that was forwarded.
#[derive(Clone, Copy)]
pub struct AnsweredRequest<'c> {
    /// Whether it is a GET.
    pub is_get: bool,
    /// The stored response whose tag it had (RFC 7252, 5.6.2).
    pub copy: Option<&'c Stored>,
}

/// The answer that a message which came for a request makes (RFC 7252, 5.7.1). A response that may
/// be passed on is copied. A 2.03 to a GET renews the stored response whose tag the request had
/// (RFC 7252, 5.6.2). A Reset, a response that may not be passed on or wouldn't fit a datagram of
/// `most` bytes, and a 2.03 that renews nothing give 5.02; a Reset doesn't allocate (the core
/// answers one by `bad_gateway` itself).
///
/// # Errors
/// Out of memory.
#[tactic(auto, unfolding(crate::specs::Answers::answer_of))]
pub fn answer_of(
    alloc: Global,
    most: usize,
    request: AnsweredRequest<'_>,
    now: Moment,
    response: &MessageRef<'_>,
) -> Result<Answer, OutOfMemory>
    ensures exact { IfOk result (λ answer.
        answer ≡ answer_of most request.entry.is_get (copy_in request.entry) now response.now) }
    ensures reset { response.now.kind ≡ Kind.Rst → IsOk result }
{
    if response.kind() == Kind::Rst || screen_response_ref(response).is_err() {
        return Ok(bad_gateway(alloc, now));
    }
    let valid = validates(request.is_get, response);
    if valid && request.copy.is_none() {
        return Ok(bad_gateway(alloc, now));
    }
    let message = passed_part(alloc, request.is_get, response)?;
    if !fits(&message, most) {
        return Ok(bad_gateway(alloc, now));
    }
    if valid {
        validated(alloc, most, now, request.copy, &message)
    } else {
        Ok(origin_answer(now, message))
    }
}

/// For how many seconds an answer stays fresh (RFC 7252, 5.7.1).
fn left_of(now: Moment, answer: &Answer) -> u32
    ensures { result ≡ left_of now answer.now }
{
    left_at(answer.message.message(), now.saturating_sub(answer.got))
}

/// For how many seconds an origin's answer to a GET stays fresh, which a client is shown; `None`
/// for every other answer.
pub(crate) fn left_to_show(to_get: bool, now: Moment, answer: &Answer) -> Option<u32>
    ensures { result ≡ left_to_show to_get now answer.now }
{
    if to_get && !answer.own {
        Some(left_of(now, answer))
    } else {
        None
    }
}

/// Whether an answer may be stored: a 2.05 or an error of class 4 or 5, sent by an origin, with a
/// Max-Age above 0 (RFC 7252, 5.6.1 and 5.9).
pub fn is_storable(answer: &Answer) -> bool
    ensures { result ≡ is_storable answer.now }
{
    let message = answer.message.message();
    !answer.own && is_cacheable(message.code) && max_age(message) > 0
}
