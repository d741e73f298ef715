//! What a tick is about, noted before it: an exchange, or a client that is being sent its answer.
ghost use Rattle.std.specs.Prelude.{◌≡◌, OnOk};
ghost use Rattle.std.specs.Io.KnownBytes.{Appends};
ghost use Rattle.coap_explain.specs.Account as text;
ghost use Rattle.coap_explain.specs.Noted as spec;

use crate::causes::Silence;
use crate::messages::put_endpoint;
use coap_core::{Core, Exchange, Waiter};
use coap_endpoint::Endpoint;
use coap_message::{Code, Moment};
use coap_pending::{ExchangeState, WaiterState};
use coap_store::Store;
use std::io;
use std::io::Write;

/// An answer that a client is due to be sent.
#[derive(Clone, Copy, Debug, PartialEq, Eq)]
pub(crate) struct DueAnswer {
    pub(crate) code: Code,
    /// Whether it is the proxy's own, and not its origin's.
    pub(crate) own: bool,
    /// When it came, in milliseconds.
    pub(crate) got: Moment,
}

/// An exchange that a tick is about, as it is before that.
#[derive(Clone, Copy, Debug, PartialEq, Eq)]
pub(crate) struct DueExchange {
    pub(crate) origin: Endpoint,
    /// The Message ID of its request, if that was sent.
    pub(crate) id: Option<u16>,
    /// How often its request was sent.
    pub(crate) transmissions: u8,
    /// When it was opened, in milliseconds.
    pub(crate) admitted: Moment,
    /// How many waiters wait for it: a client that asked twice counts twice.
    pub(crate) waiting: u64,
    /// Why there is no answer, if none comes any more.
    pub(crate) silence: Silence,
    pub(crate) answer: Option<DueAnswer>,
}

/// A client that was sent its answer and hasn't acknowledged it, as it is before a tick.
#[derive(Clone, Copy, Debug, PartialEq, Eq)]
pub(crate) struct DueClient {
    pub(crate) client: Endpoint,
    /// How often it was sent its answer.
    pub(crate) transmissions: u8,
    /// When the answer was first sent, in milliseconds.
    pub(crate) started: Moment,
}

/// What a tick is about, as it is before that.
#[derive(Clone, Copy, Debug, PartialEq, Eq)]
pub(crate) enum TickSubject {
    Nothing,
    Exchange(DueExchange),
    Client(DueClient),
}

/// How far an exchange is.
fn silence_of(state: &ExchangeState) -> Silence
    ensures { result ≡ spec.silence_of state.now }
{
    match state {
        ExchangeState::Queued => Silence::NotSent,
        ExchangeState::Sent => Silence::NotAcknowledged,
        ExchangeState::Acked | ExchangeState::Done(_) => Silence::NotAnswered,
    }
}

/// The answer of an exchange, if it has one.
fn answer_of(state: &ExchangeState) -> Option<DueAnswer>
    ensures { result ≡ spec.answer_in state.now }
{
    match state {
        ExchangeState::Done(answer) => Some(DueAnswer {
            code: answer.message.code,
            own: answer.own,
            got: answer.got,
        }),
        ExchangeState::Queued | ExchangeState::Sent | ExchangeState::Acked => None,
    }
}

impl DueExchange {
    /// An exchange that this many waiters wait for.
    pub(crate) fn of(exchange: &Exchange, waiting: usize) -> DueExchange
        ensures { result ≡ spec.exchange_of exchange.now waiting }
    {
        let (id, transmissions) = match exchange.sending {
            Some(sending) => (Some(sending.id), sending.timer.transmissions),
            None => (None, 0),
        };
        DueExchange {
            origin: exchange.key.target.at,
            id,
            transmissions,
            admitted: exchange.admitted,
            waiting: waiting as u64,
            silence: silence_of(&exchange.state),
            answer: answer_of(&exchange.state),
        }
    }

    /// How long it takes or took, in milliseconds: to its answer, or to this moment.
    pub(crate) fn took(&self, now: Moment) -> u64
        ensures { result ≡ spec.took self.now now }
    {
        let until = match self.answer {
            Some(answer) => answer.got,
            None => now,
        };
        until.saturating_sub(self.admitted)
    }

    /// Adds its origin, how often its request was sent, and how long it took.
    pub(crate) fn put<W: Write>(&self, line: &mut W, now: Moment) -> io::Result<()>
        ensures { OnOk result (Appends (W.contents line.old) (W.contents line.new)
            (text.exchange_text now self.now)) }
    {
        line.write_all(b" at ")?;
        put_endpoint(line, self.origin)?;
        let (transmissions, took) = (self.transmissions, self.took(now));
        write!(line, " sent {transmissions} in {took} ms")
    }
}

impl DueClient {
    /// A client, if it was sent its answer.
    fn of(waiter: &Waiter) -> Option<DueClient>
        ensures { result ≡ spec.client_of waiter.now }
    {
        match &waiter.state {
            WaiterState::Waiting(_) => None,
            WaiterState::Delivering { timer, .. } => Some(DueClient {
                client: waiter.client,
                transmissions: timer.transmissions,
                started: timer.started,
            }),
        }
    }

    /// Adds the client, how often it was sent its answer, and for how long.
    pub(crate) fn put<W: Write>(&self, line: &mut W, now: Moment) -> io::Result<()>
        ensures { OnOk result (Appends (W.contents line.old) (W.contents line.new)
            (text.client_text now self.now)) }
    {
        line.write_all(b" on ")?;
        put_endpoint(line, self.client)?;
        let (transmissions, took) = (self.transmissions, now.saturating_sub(self.started));
        write!(line, " sent {transmissions} in {took} ms")
    }
}

impl TickSubject {
    /// What the next tick of a core is about.
    pub(crate) fn of<S: Store + Drop>(core: &Core<S>) -> TickSubject
        ensures { result ≡ spec.due_of core.now }
    {
        if let Some(exchange) = core.due_exchange() {
            return TickSubject::Exchange(DueExchange::of(exchange, core.due_waiting()));
        }
        let Some(waiter) = core.due_waiter() else {
            return TickSubject::Nothing;
        };
        match DueClient::of(waiter) {
            Some(client) => TickSubject::Client(client),
            None => TickSubject::Nothing,
        }
    }
}
