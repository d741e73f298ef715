//! Why a message was refused, ignored or dropped, in words, for an account and for a log. The
//! causes are found again from the message and from what the proxy holds, not from the step's deed.
ghost use Rattle.std.specs.Prelude.{◌≡◌, ◌++◌, codes, OnOk};
ghost use Rattle.std.specs.Io.KnownBytes.{Appends};
ghost use Rattle.std.specs.Option.{option_copied};
ghost use Rattle.coap_option.specs.declared.side.Side.{Side};
ghost use Rattle.coap_option.specs.Screening.{first_refused};
ghost use Rattle.coap_explain.specs.Account as text;
ghost use Rattle.coap_explain.specs.Causes.{gateway_of, is_other_tag, refusal_of, unprocessed_message, unprocessed_of};
ghost use Rattle.coap_explain.specs.Words as spec;

use crate::lacks::{Lack, Lacks, Need, Usage};
use coap_core::{Core, Exchange};
use coap_endpoint::Endpoint;
use coap_message::{Code, Kind, MessageRef};
use coap_option::{screen_request_ref, screen_response_ref};
use coap_store::{Store, tag_of};
use std::io;
use std::io::Write;

impl Need {
    /// The name of a need, as an account has it.
    fn name(self) -> &'static str
        ensures { result.now ≡ spec.need_name self }
    {
        match self {
            Need::Exchanges => "exchanges",
            Need::ClientExchanges => "client exchanges",
            Need::Waiters => "waiters",
            Need::ClientWaiters => "client waiters",
            Need::Con => "con",
            Need::ClientCon => "client con",
            Need::Non => "non",
            Need::ClientNon => "client non",
            Need::Ids => "ids",
        }
    }

    /// The key of a need in a line of a log.
    pub(crate) fn key(self) -> &'static str
        ensures { result.now ≡ spec.need_key self }
    {
        match self {
            Need::ClientExchanges => "client_exchanges",
            Need::ClientWaiters => "client_waiters",
            Need::ClientCon => "client_con",
            Need::ClientNon => "client_non",
            Need::Exchanges | Need::Waiters | Need::Con | Need::Non | Need::Ids => self.name(),
        }
    }
}

/// Adds what is lacking of a need, if anything is: `NAME COUNT/LIMIT`.
fn put_lack<W: Write>(line: &mut W, lack: Option<Lack>) -> io::Result<()>
    ensures { OnOk result (Appends (W.contents line.old) (W.contents line.new)
        (spec.lack_text lack)) }
{
    let Some(lack) = lack else {
        return Ok(());
    };
    let (name, count, limit) = (lack.need.name(), lack.count, lack.limit);
    write!(line, " {name} {count}/{limit}")
}

/// Adds what is lacking of each need.
pub(crate) fn put_lacks<W: Write>(line: &mut W, lacks: &Lacks) -> io::Result<()>
    ensures { OnOk result (Appends (W.contents line.old) (W.contents line.new)
        (spec.lacks_text lacks.now)) }
{
    for lack in lacks {
        put_lack(line, *lack)?;
    }
    Ok(())
}

/// What was lacking for a request that was turned away with 5.03, in the step that was done last: a
/// GET that could have shared the answer of an exchange needed less.
pub(crate) fn overload_of<S: Store + Drop>(
    core: &Core<S>,
    client: Endpoint,
    request: &MessageRef<'_>,
    joins: bool,
) -> Lacks
    ensures { result ≡ text.overload_of core.now client request.now joins }
{
    let usage = Usage::of(core, client).before_reply(request.kind());
    if request.code() == Code::GET && joins {
        usage.to_join()
    } else {
        usage.to_open()
    }
}

/// Whether a GET with the key of the last request may share an exchange's answer.
pub(crate) fn joins<S: Store + Drop>(core: &Core<S>) -> bool {
    core.is_joinable(core.last_key().key())
}

/// Why a request was refused with a code.
#[derive(Clone, Copy, Debug, PartialEq, Eq)]
pub(crate) enum Refusal {
    /// An option that it may not have.
    Option(u16),
    Uri,
    NoMap,
    Method,
    NotProxied,
    Length,
}

/// Why a request was refused with a code.
fn refusal_of(code: Code, request: &MessageRef<'_>) -> Refusal
    ensures { result ≡ refusal_of code (first_refused Side.Request request.now.options) }
{
    if code == Code::BAD_REQUEST {
        Refusal::Uri
    } else if code == Code::NOT_FOUND {
        Refusal::NoMap
    } else if code == Code::METHOD_NOT_ALLOWED {
        Refusal::Method
    } else if code == Code::PROXYING_NOT_SUPPORTED {
        Refusal::NotProxied
    } else {
        match screen_request_ref(request) {
            Err(bad) if code == Code::BAD_OPTION => Refusal::Option(bad.number),
            Err(_) | Ok(()) => Refusal::Length,
        }
    }
}

/// Adds a cause of a refusal.
fn put_refusal_cause<W: Write>(line: &mut W, refusal: Refusal) -> io::Result<()>
    ensures { OnOk result (Appends (W.contents line.old) (W.contents line.new)
        (spec.refusal_text refusal)) }
{
    match refusal {
        Refusal::Option(number) => write!(line, " option {number}"),
        Refusal::Uri => line.write_all(b" uri"),
        Refusal::NoMap => line.write_all(b" no map"),
        Refusal::Method => line.write_all(b" method"),
        Refusal::NotProxied => line.write_all(b" not proxied"),
        Refusal::Length => line.write_all(b" length"),
    }
}

/// Adds why a request was refused with a code.
pub(crate) fn put_refusal<W: Write>(
    line: &mut W,
    code: Code,
    request: &MessageRef<'_>,
) -> io::Result<()>
    ensures { OnOk result (Appends (W.contents line.old) (W.contents line.new)
        (spec.refusal_text
        (refusal_of code (first_refused Side.Request request.now.options)))) }
{
    put_refusal_cause(line, refusal_of(code, request))
}

/// Why a message wasn't processed.
#[derive(Clone, Copy, Debug, PartialEq, Eq)]
enum Unprocessed {
    /// It is longer than a datagram may be.
    Length,
    /// It is no message.
    Format,
    /// It is a response for which no exchange waits.
    NoExchange,
    /// Its code is none of a message of its type.
    Code,
    Ping,
    /// It acknowledges or resets nothing.
    Nothing,
}

impl Unprocessed {
    /// Why these bytes weren't processed, where a datagram may have so many at most.
    fn of(bytes: &[u8], most: u64) -> Unprocessed
        ensures { result ≡ unprocessed_of most bytes.now }
    {
        if bytes.len() as u64 > most {
            return Unprocessed::Length;
        }
        match MessageRef::read(bytes) {
            Ok(message) => Unprocessed::of_message(&message),
            Err(_) => Unprocessed::Format,
        }
    }

    /// Why a message wasn't processed.
    fn of_message(message: &MessageRef<'_>) -> Unprocessed
        ensures { result ≡ unprocessed_message message.now }
    {
        if message.code().is_response() {
            return Unprocessed::NoExchange;
        }
        if !message.code().is_empty() {
            return Unprocessed::Code;
        }
        match message.kind() {
            Kind::Con => Unprocessed::Ping,
            Kind::Non => Unprocessed::Code,
            Kind::Ack | Kind::Rst => Unprocessed::Nothing,
        }
    }

    /// The cause in words.
    fn word(self) -> &'static str
        ensures { result.now ≡ spec.unprocessed_word self }
    {
        match self {
            Unprocessed::Length => "length",
            Unprocessed::Format => "format",
            Unprocessed::NoExchange => "no exchange awaits it",
            Unprocessed::Code => "code",
            Unprocessed::Ping => "ping",
            Unprocessed::Nothing => "nothing awaits it",
        }
    }
}

/// Adds why a message wasn't processed.
pub(crate) fn put_unprocessed<W: Write>(line: &mut W, bytes: &[u8], most: u64) -> io::Result<()>
    ensures { OnOk result (Appends (W.contents line.old) (W.contents line.new)
        (codes " " ++ spec.unprocessed_word (unprocessed_of most bytes.now))) }
{
    let word = Unprocessed::of(bytes, most).word();
    write!(line, " {word}")
}

/// Why a client gets 5.02 of the proxy's own in place of what an origin sent.
#[derive(Clone, Copy, Debug, PartialEq, Eq)]
pub(crate) enum BadGateway {
    /// It was a Reset.
    Reset,
    /// It has an option that it may not have.
    Option(u16),
    /// It is a 2.03 for another ETag than was asked for, or none was.
    Tag,
    /// It is too long, or what it renews is.
    TooLong,
}

impl BadGateway {
    /// The cause of a 5.02 that takes the place of this response. The exchange is the one that
    /// awaited it.
    pub(crate) fn of(response: &MessageRef<'_>, awaited: Option<&Exchange>) -> BadGateway
        ensures { result ≡ gateway_of response.now (option_copied awaited.entry) }
    {
        if response.kind() == Kind::Rst {
            return BadGateway::Reset;
        }
        if let Err(bad) = screen_response_ref(response) {
            return BadGateway::Option(bad.number);
        }
        match awaited {
            Some(exchange) if is_other_tag(response, exchange) => BadGateway::Tag,
            Some(_) | None => BadGateway::TooLong,
        }
    }

    /// The cause in a word.
    pub(crate) fn word(self) -> &'static str
        ensures { result.now ≡ spec.gateway_word self }
    {
        match self {
            BadGateway::Reset => "reset",
            BadGateway::Option(_) => "option",
            BadGateway::Tag => "tag",
            BadGateway::TooLong => "length",
        }
    }

    /// Adds the cause, as an account has it.
    pub(crate) fn put<W: Write>(self, line: &mut W) -> io::Result<()>
        ensures { OnOk result (Appends (W.contents line.old) (W.contents line.new)
            (spec.gateway_text self)) }
    {
        match self {
            BadGateway::Option(number) => write!(line, "option {number}"),
            BadGateway::TooLong => line.write_all(b"doesn't fit"),
            BadGateway::Reset | BadGateway::Tag => line.write_all(self.word().as_bytes()),
        }
    }
}

/// Whether a response is a 2.03 to a GET that asked for another ETag, or for none (RFC 7252,
/// 5.9.1.3).
fn is_other_tag(response: &MessageRef<'_>, exchange: &Exchange) -> bool
    ensures { result ≡ is_other_tag response.now exchange.now }
{
    if response.code() != Code::VALID || !exchange.is_get {
        return false;
    }
    let Some(copy) = &exchange.copy else {
        return true;
    };
    tag_of(&response.option_list()) != tag_of(&copy.response.options.lent())
}

/// How far an exchange was when its origin was given up: why a client gets 5.04.
#[derive(Clone, Copy, Debug, PartialEq, Eq)]
pub(crate) enum Silence {
    /// Its request never had its turn.
    NotSent,
    /// Its request was sent, and not acknowledged.
    NotAcknowledged,
    /// Its request was acknowledged, and not answered.
    NotAnswered,
}

impl Silence {
    /// The cause in a word.
    pub(crate) fn word(self) -> &'static str
        ensures { result.now ≡ spec.silence_word self }
    {
        match self {
            Silence::NotSent => "unsent",
            Silence::NotAcknowledged => "unacknowledged",
            Silence::NotAnswered => "unanswered",
        }
    }
}
