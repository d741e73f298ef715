//! What a step did, in full: which of its cases it took, about which item, and why.
ghost use Rattle.std.specs.Prelude.{◌≡◌};
ghost use Rattle.coap_model.specs.Deeds as spec;

use crate::report::{Outcome, Report, Storing};
use coap_endpoint::Endpoint;
use coap_message::{Code, Kind};
use coap_pending::{ExchangeNumber, ExchangeState, WaiterNumber};
use thiserror::Error;

/// Why a datagram wasn't processed.
#[derive(Clone, Copy, Debug, PartialEq, Eq)]
pub enum Unprocessed {
    /// It is longer than a datagram may be.
    Length,
    /// It is no message.
    Format,
    /// It is a response for which no exchange waits.
    NoExchange,
    /// Its code is none of a message of its type.
    Code,
    /// It is an Empty Confirmable message (RFC 7252, 4.3).
    Ping,
    /// It acknowledges or resets nothing.
    Nothing,
}

/// Why a request was refused with a code.
#[derive(Clone, Copy, Debug, PartialEq, Eq)]
pub enum Refusal {
    /// Its method isn't forwarded: 4.05.
    Method,
    /// It has the option of this number, which it may not have: 4.02.
    Option(u16),
    /// Its target isn't one: 4.00.
    Uri,
    /// Its target isn't proxied: 5.05.
    NotProxied,
    /// No map has its path: 4.04.
    NoMap,
    /// The request that would be forwarded is too long for a datagram: 4.13.
    Length,
}

/// What the cache had for a request that it doesn't answer.
#[derive(Clone, Copy, Debug, PartialEq, Eq, Error)]
pub enum Held {
    /// The request isn't a GET, so that the cache doesn't answer it.
    #[error("the request isn't a GET")]
    NotGet,
    /// Nothing.
    #[error("nothing is stored")]
    Absent,
    /// A response that is marked, as its target was changed (RFC 7252, 5.9.1).
    #[error("what is stored is marked")]
    Marked,
    /// A response that is no longer fresh (RFC 7252, 5.6.1).
    #[error("what is stored is stale")]
    Stale,
}

/// What was lacking for a request that was turned away: each that is true has reached its limit.
#[derive(Clone, Copy, Debug, PartialEq, Eq)]
pub struct Lacks {
    pub exchanges: bool,
    pub client_exchanges: bool,
    pub waiters: bool,
    pub client_waiters: bool,
    pub ids: bool,
}

/// How far an exchange was when its origin was given up.
#[derive(Clone, Copy, Debug, PartialEq, Eq)]
pub enum Silence {
    /// Its request never had its turn.
    NotSent,
    /// Its request was sent, and not acknowledged.
    NotAcknowledged,
    /// Its request was acknowledged, and not answered.
    NotAnswered,
}

/// What a step did: its case, the exchange or the waiter that it is about, by number, and why.
#[derive(Clone, Copy, Debug, PartialEq, Eq)]
pub enum Deed {
    /// The datagram was ignored.
    Ignored(Unprocessed),
    /// A Confirmable message that can't be processed got a Reset (RFC 7252, 4.2).
    Rejected(Unprocessed),
    /// A duplicate got what was kept for it, if anything.
    Repeated,
    /// A message of this type was dropped, as there was no room to remember it.
    Unremembered(Kind),
    /// A request was refused.
    Refused(Refusal),
    /// No Message ID was free for the reply to a request.
    LackedId,
    /// A request was turned away with 5.03.
    Overloaded(Lacks),
    /// A request was answered from the cache.
    Hit,
    /// A client joined an exchange in progress.
    Joined {
        waiter: WaiterNumber,
        exchange: ExchangeNumber,
    },
    /// An exchange was opened, and the client waits for it.
    Opened {
        waiter: WaiterNumber,
        exchange: ExchangeNumber,
        held: Held,
    },
    /// An exchange got its answer.
    Answered {
        exchange: ExchangeNumber,
        storing: Storing,
    },
    /// The request of an exchange was acknowledged.
    Acknowledged {
        exchange: ExchangeNumber,
    },
    /// A client acknowledged its answer, or rejected it with a Reset.
    Closed {
        waiter: WaiterNumber,
    },
    /// The request of an exchange was sent to its origin.
    Sent {
        exchange: ExchangeNumber,
    },
    /// The request of an exchange was sent again.
    Resent {
        exchange: ExchangeNumber,
    },
    /// An exchange was given up, and has the proxy's own answer.
    GaveUp {
        exchange: ExchangeNumber,
        silence: Silence,
    },
    /// A client was sent the answer of an exchange.
    Delivered {
        waiter: WaiterNumber,
        exchange: ExchangeNumber,
    },
    /// A client was sent its answer again.
    Redelivered {
        waiter: WaiterNumber,
    },
    /// A client didn't acknowledge its answer, and was given up.
    Abandoned {
        waiter: WaiterNumber,
    },
    /// Nothing was due.
    Idle,
}

impl Unprocessed {
    /// Why a message of this type and code isn't processed, which neither is a request, nor a
    /// response that is awaited, nor refers to something.
    pub fn of(kind: Kind, code: Code) -> Unprocessed
        ensures exact { result ≡ spec.unprocessable kind code }
    {
        if code.is_response() {
            Unprocessed::NoExchange
        } else if code == Code::EMPTY && kind == Kind::Con {
            Unprocessed::Ping
        } else {
            Unprocessed::Code
        }
    }
}

impl Held {
    /// Whether there is a response.
    pub fn is_stored(self) -> bool
        ensures exact { result ≡ spec.is_stored self }
    {
        match self {
            Held::NotGet | Held::Absent => false,
            Held::Marked | Held::Stale => true,
        }
    }
}

impl Silence {
    /// How far an exchange in this state is.
    pub fn of(state: &ExchangeState) -> Silence
        ensures exact { result ≡ spec.silence_of state.now }
    {
        match state {
            ExchangeState::Queued => Silence::NotSent,
            ExchangeState::Sent => Silence::NotAcknowledged,
            ExchangeState::Acked | ExchangeState::Done(_) => Silence::NotAnswered,
        }
    }
}

impl Refusal {
    /// The code that the client gets.
    pub fn code(self) -> Code
        ensures exact { result ≡ spec.code_of self }
    {
        match self {
            Refusal::Method => Code::METHOD_NOT_ALLOWED,
            Refusal::Option(_) => Code::BAD_OPTION,
            Refusal::Uri => Code::BAD_REQUEST,
            Refusal::NotProxied => Code::PROXYING_NOT_SUPPORTED,
            Refusal::NoMap => Code::NOT_FOUND,
            Refusal::Length => Code::REQUEST_ENTITY_TOO_LARGE,
        }
    }
}

impl Deed {
    /// What it was, in short.
    pub fn outcome(self) -> Outcome
        ensures exact { result ≡ spec.outcome_of self }
    {
        match self {
            Deed::Ignored(_) => Outcome::Ignored,
            Deed::Rejected(_) => Outcome::Rejected,
            Deed::Repeated => Outcome::Again,
            Deed::Unremembered(_) => Outcome::NoRecordRoom,
            Deed::Refused(refusal) => Outcome::Refused(refusal.code()),
            Deed::LackedId => Outcome::NoId,
            Deed::Overloaded(_) => Outcome::Overloaded,
            Deed::Hit => Outcome::Hit,
            Deed::Joined { .. } => Outcome::Joined,
            Deed::Opened { .. } => Outcome::Opened,
            Deed::Answered { storing, .. } => Outcome::Answered { storing },
            Deed::Acknowledged { .. } | Deed::Closed { .. } => Outcome::Acked,
            Deed::Sent { .. } => Outcome::SentRequest,
            Deed::Resent { .. } | Deed::Redelivered { .. } => Outcome::Resent,
            Deed::Delivered { .. } => Outcome::Delivered,
            Deed::GaveUp { .. } | Deed::Abandoned { .. } => Outcome::GaveUp,
            Deed::Idle => Outcome::Idle,
        }
    }
}

/// What a step did in full, and the destination of its datagram, if it sends one.
#[derive(Clone, Copy, Debug, PartialEq, Eq)]
pub struct Did {
    pub send: Option<Endpoint>,
    pub deed: Deed,
}

impl Did {
    /// The same in short.
    pub fn report(self) -> Report
        ensures exact { result ≡ spec.report_of self }
    {
        Report {
            send: self.send,
            outcome: self.deed.outcome(),
        }
    }
}
