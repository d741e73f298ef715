//! Exchanges: what is in progress for requests to origins.
ghost use Rattle.std.specs.Prelude.{◌≡◌, ◌≤◌, ◌^◌};
ghost use Rattle.std.specs.Option.{option_copied};
ghost use Rattle.coap_pending.specs.Exchanges.{answer_at, after_transition, fire_of_sending, fired_exchange, is_meant_by, is_acked, is_changed_with, is_joinable, is_queued, is_sent, tainted_by, was_sent_as, CanChange, CanFire, is_queued_to, is_sent_after, asked_of, is_in_flight, was_sent_with};

use crate::timer::{Fire, Timer};
use coap_endpoint::{Endpoint, Target};
use coap_message::{EXCHANGE_LIFETIME, Moment, Seq, set_id};
use coap_store::{Answer, CacheKey, EventNumber, SharedKey, Stored};

/// The number of an exchange. They count up from 1.
pub type ExchangeNumber = u64;

/// How a request was sent.
#[derive(Clone, Copy)]
pub struct Sending {
    /// The number of the event in which the request was first sent.
    pub asked: EventNumber,
    /// The Message ID of the request.
    pub id: u16,
    pub timer: Timer,
}

impl Sending {
    /// Whether it has this id, and started less than 247,000 milliseconds before `now`.
    pub fn is_meant_by(&self, id: u16, now: Moment) -> bool
        ensures exact { result ≡ is_meant_by id now self.now }
    {
        self.id == id && now.saturating_sub(self.timer.started) < EXCHANGE_LIFETIME
    }
}

/// The state of an exchange.
///
/// ```text
///          a tick sends        acknowledged         the answer        its last waiter is served
/// Queued  ------------->  Sent  ------------>  Acked  -------->  Done  ----------------> closed
/// ```
///
/// An answer may come in each of the first three states: a response, or the proxy's own answer,
/// which is 5.02 if the request was rejected or its response can't be passed on, and 5.04 if none
/// came in time.
#[derive(Drop)]
pub enum ExchangeState {
    /// The request is waiting for its turn.
    Queued,
    /// The request was sent, and neither an acknowledgement nor an answer has come.
    Sent,
    /// The request was acknowledged, and no answer has come.
    Acked,
    /// The answer has come.
    Done(Answer),
}

/// What is in progress for a request to an origin, until its last waiter was served.
pub struct Exchange {
    /// The client that opened it.
    pub client: Endpoint,
    /// What its response is cached under: the target, and the options that are part of the cache
    /// key.
    pub key: SharedKey,
    /// Whether the method is GET.
    pub is_get: bool,
    /// The encoded request that is forwarded. Its Message ID is 0 until it is sent.
    pub form: Seq<u8>,
    /// The stored response that the request asks to validate, if it does (RFC 7252, 5.6.2).
    pub copy: Option<Stored>,
    /// When the exchange was opened, in milliseconds.
    pub admitted: Moment,
    /// How the request was sent, once it has been.
    pub sending: Option<Sending>,
    /// Whether its target has changed since the request was sent (RFC 7252, 5.9.1).
    pub tainted: bool,
    pub state: ExchangeState,
}

impl Drop for Exchange {
    fn drop(self) {
        let Exchange {
            client: _,
            key: _,
            is_get: _,
            form: _,
            copy: _,
            admitted: _,
            sending: _,
            tainted: _,
            state: _,
        } = self;
    }
}

/// A transition of an exchange from one state to another, or within its state.
#[derive(Drop)]
pub enum Transition {
    /// Its request is sent.
    Send(Sending),
    /// Its timer is due at this moment, in milliseconds.
    Fire(Moment),
    /// Its request is acknowledged.
    Acknowledge,
    /// Its answer has come.
    Answer(Answer),
}

impl Transition {
    /// Whether an exchange is in the sent state after this transition, given whether it was before.
    pub fn is_sent_after(&self, was: bool) -> bool
        ensures exact { result ≡ is_sent_after self.now was }
    {
        match self {
            Transition::Send(_) => true,
            Transition::Fire(_) => was,
            Transition::Acknowledge | Transition::Answer(_) => false,
        }
    }
}

impl Exchange {
    /// Whether the request is waiting for its turn.
    pub fn is_queued(&self) -> bool
        ensures exact { result ≡ is_queued self.now }
    {
        match self.state {
            ExchangeState::Queued => true,
            ExchangeState::Sent | ExchangeState::Acked | ExchangeState::Done(_) => false,
        }
    }

    /// Whether the request was sent, and neither an acknowledgement nor an answer has come.
    pub fn is_sent(&self) -> bool
        ensures exact { result ≡ is_sent self.now }
    {
        match self.state {
            ExchangeState::Sent => true,
            ExchangeState::Queued | ExchangeState::Acked | ExchangeState::Done(_) => false,
        }
    }

    /// Whether the request was acknowledged, and no answer has come.
    pub fn is_acked(&self) -> bool
        ensures exact { result ≡ is_acked self.now }
    {
        match self.state {
            ExchangeState::Acked => true,
            ExchangeState::Queued | ExchangeState::Sent | ExchangeState::Done(_) => false,
        }
    }

    /// Whether the request was sent, and no answer has come.
    pub fn is_in_flight(&self) -> bool
        ensures exact { result ≡ is_in_flight self.now }
    {
        self.is_sent() || self.is_acked()
    }

    /// Whether the request was sent with Message ID `id`, however long ago.
    pub fn was_sent_with(&self, id: u16) -> bool
        ensures exact { result ≡ was_sent_with id self.now.sending }
    {
        match &self.sending {
            Some(sending) => sending.id == id,
            None => false,
        }
    }

    /// The number of the event in which the request was first sent; 0 before that, when nobody asks
    /// for it.
    pub fn asked(&self) -> EventNumber
        ensures exact { result ≡ asked_of self.now.sending }
    {
        match &self.sending {
            Some(sending) => sending.asked,
            None => 0,
        }
    }

    /// Whether the request is waiting for its turn with this endpoint.
    pub fn is_queued_to(&self, at: Endpoint) -> bool
        ensures exact { result ≡ is_queued_to at self.now }
    {
        self.is_queued() && self.key.key().target.at == at
    }

    /// The answer, if it has come.
    pub fn answer(&self) -> Option<&Answer>
        ensures exact { option_copied result ≡ answer_at self.now }
    {
        match &self.state {
            ExchangeState::Done(answer) => Some(answer),
            ExchangeState::Queued | ExchangeState::Sent | ExchangeState::Acked => None,
        }
    }

    /// Whether a GET with this key may share its answer: the exchange is a GET with an equal key,
    /// its target hasn't changed since it was sent, and its answer hasn't come.
    pub fn is_joinable(&self, key: &CacheKey) -> bool
        ensures exact { result ≡ is_joinable key.now self.now }
    {
        self.is_get && !self.tainted && self.answer().is_none() && *self.key.key() == *key
    }

    /// Whether its request was sent to the endpoint `at` with Message ID `id`, less than 247,000
    /// milliseconds before `now` (RFC 7252, 4.4).
    pub fn was_sent_as(&self, at: Endpoint, id: u16, now: Moment) -> bool
        ensures exact { result ≡ was_sent_as at id now self.now }
    {
        match &self.sending {
            Some(sending) => self.key.key().target.at == at && sending.is_meant_by(id, now),
            None => false,
        }
    }

    /// Whether a change of this target affects its answer: its request to that target was sent, and
    /// no answer has come.
    pub fn is_changed_with(&self, target: &Target) -> bool
        ensures exact { result ≡ is_changed_with target.now self.now }
    {
        (self.is_sent() || self.is_acked()) && self.key.key().target == *target
    }

    /// What its timer calls for, now that it is due.
    pub fn fire_of(&self, now: Moment) -> Fire
        ensures exact { result ≡ fire_of_sending now self.now.sending }
    {
        match &self.sending {
            Some(sending) => sending.timer.fire_of(now),
            None => Fire::GiveUp,
        }
    }

    /// Applies a transition.
    pub fn change(&mut self, change: Transition)
        requires { CanChange change self.old }
        ensures exact { self.new ≡ after_transition change self.old }
    {
        match change {
            Transition::Send(sending) => {
                set_id(&mut self.form, sending.id);
                self.sending = Some(sending);
                self.state = ExchangeState::Sent;
            }
            Transition::Fire(now) => self.fire(now),
            Transition::Acknowledge => self.state = ExchangeState::Acked,
            Transition::Answer(answer) => self.state = ExchangeState::Done(answer),
        }
    }

    fn fire(&mut self, now: Moment)
        requires now { now ≤ 2 ^ 62 }
        requires timer { CanFire now self.old.sending }
        ensures exact { self.new ≡ fired_exchange now self.old }
    {
        if let Some(sending) = &mut self.sending {
            sending.timer.fire(now);
        }
    }

    /// Taints it if a change of this target affects its answer.
    pub fn taint(&mut self, target: &Target)
        ensures exact { self.new ≡ tainted_by target.now self.old }
    {
        if self.is_changed_with(target) {
            self.tainted = true;
        }
    }
}
