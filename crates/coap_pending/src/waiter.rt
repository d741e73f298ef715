//! Waiters: requests that wait for an exchange, or whose answer isn't acknowledged yet.
ghost use Rattle.std.specs.Prelude.{◌≡◌, ◌≤◌, ◌^◌};
ghost use Rattle.coap_pending.specs.Waiters.{after_transition, exchange_of, fire_of_state, fired_waiter, is_waiting, joined, was_sent_as, CanChange, CanFire};

use crate::exchange::ExchangeNumber;
use crate::timer::{Fire, Timer};
use coap_endpoint::Endpoint;
use coap_message::{EXCHANGE_LIFETIME, Kind, Moment, Pieces, Seq, Token};
use std::alloc::Global;

/// The number of a waiter. They count up from 1.
pub type WaiterNumber = u64;

/// The state of a waiter.
///
/// ```text
///            its exchange is done, a tick serves it
/// Waiting  ------------------------------------------>  closed, if its request was Non-confirmable
///    |
///    +------>  Delivering  -------------------------->  closed
///                           acknowledged, rejected or given up
/// ```
#[derive(Drop)]
pub enum WaiterState {
    /// It is waiting for the exchange of this number.
    Waiting(ExchangeNumber),
    /// Its client was sent the answer in a Confirmable message, and hasn't acknowledged it.
    Delivering {
        /// The encoded message.
        bytes: Seq<u8>,
        /// Its Message ID.
        id: u16,
        timer: Timer,
    },
}

/// A request that waits for an exchange, or whose answer isn't acknowledged yet.
pub struct Waiter {
    /// The client that sent the request.
    pub client: Endpoint,
    /// The type of the message that carried its request.
    pub kind: Kind,
    /// The token of its request; empty once the answer was sent.
    pub token: Token,
    /// The ETags of the responses that its client already holds (RFC 7252, 5.10.6.2); none once the
    /// answer was sent.
    pub tags: Pieces,
    pub state: WaiterState,
}

impl Drop for Waiter {
    fn drop(self) {
        let Waiter {
            client: _,
            kind: _,
            token: _,
            tags: _,
            state: _,
        } = self;
    }
}

/// A request that is to wait for an exchange.
#[derive(Drop)]
pub struct Joining {
    /// The client that sent it.
    pub client: Endpoint,
    /// The type of the message that carried it.
    pub kind: Kind,
    pub token: Token,
    /// The ETags of the responses that the client already holds (RFC 7252, 5.10.6.2).
    pub tags: Pieces,
    /// The number of the exchange.
    pub exchange: ExchangeNumber,
}

impl Joining {
    /// The waiter that it becomes.
    pub fn joined(self) -> Waiter
        ensures exact { result ≡ joined self }
    {
        Waiter {
            client: self.client,
            kind: self.kind,
            token: self.token,
            tags: self.tags,
            state: WaiterState::Waiting(self.exchange),
        }
    }
}

/// A transition of a waiter from one state to another, or within its state.
#[derive(Drop)]
pub enum WaiterTransition {
    /// Its client is sent the answer.
    Deliver {
        bytes: Seq<u8>,
        id: u16,
        timer: Timer,
    },
    /// Its timer is due at this moment, in milliseconds.
    Fire(Moment),
}

impl Waiter {
    /// The exchange that it waits for, until the answer is sent.
    pub fn exchange(&self) -> Option<ExchangeNumber>
        ensures exact { result ≡ exchange_of self.now.state }
    {
        match &self.state {
            WaiterState::Waiting(exchange) => Some(*exchange),
            WaiterState::Delivering { .. } => None,
        }
    }

    /// Whether it waits for an exchange.
    pub fn is_waiting(&self) -> bool
        ensures exact { result ≡ is_waiting self.now }
    {
        match &self.state {
            WaiterState::Waiting(_) => true,
            WaiterState::Delivering { .. } => false,
        }
    }

    /// Whether the answer was sent to the endpoint `at` with Message ID `id`, less than 247,000
    /// milliseconds before `now` (RFC 7252, 4.4).
    pub fn was_sent_as(&self, at: Endpoint, id: u16, now: Moment) -> bool
        ensures exact { result ≡ was_sent_as at id now self.now }
    {
        match &self.state {
            WaiterState::Waiting(_) => false,
            WaiterState::Delivering {
                bytes: _,
                id: other,
                timer,
            } => {
                self.client == at
                    && *other == id
                    && now.saturating_sub(timer.started) < EXCHANGE_LIFETIME
            }
        }
    }

    /// What its timer calls for, now that it is due.
    pub fn fire_of(&self, now: Moment) -> Fire
        ensures exact { result ≡ fire_of_state now self.now.state }
    {
        match &self.state {
            WaiterState::Waiting(_) => Fire::GiveUp,
            WaiterState::Delivering { timer, .. } => timer.fire_of(now),
        }
    }

    /// Applies a transition.
    pub fn change(&mut self, change: WaiterTransition, alloc: Global)
        requires { CanChange change self.old }
        ensures exact { self.new ≡ after_transition change self.old }
    {
        match change {
            WaiterTransition::Deliver { bytes, id, timer } => {
                self.token = Token::empty();
                self.tags = Pieces::new(alloc);
                self.state = WaiterState::Delivering { bytes, id, timer };
            }
            WaiterTransition::Fire(now) => self.fire(now),
        }
    }

    fn fire(&mut self, now: Moment)
        requires now { now ≤ 2 ^ 62 }
        requires timer { CanFire now self.old.state }
        ensures exact { self.new ≡ fired_waiter now self.old }
    {
        if let WaiterState::Delivering { timer, .. } = &mut self.state {
            timer.fire(now);
        }
    }
}
