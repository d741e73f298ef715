//! The core of a proxy: one step for one event.
ghost use Rattle.std.specs.Prelude.{◌≡◌, ◌≤◌, ◌<◌, ◌^◌, ◌+◌, [], IfOk, IfSome, IsTrue};
ghost use Rattle.coap_endpoint.specs.declared.endpoint.Endpoint.{Endpoint};
ghost use Rattle.coap_model.specs.Deeds.{outcome_of};
ghost use Rattle.coap_model.specs.Setting.{setting_of};
ghost use Rattle.coap_model.specs.State.{new_state, client_counts, counts};
ghost use Rattle.coap_model.specs.Ticks.{next_due};
ghost use Rattle.coap_model.specs.History.{grown_of};
ghost use Rattle.coap_model.specs.Step.{step_of};
ghost use Rattle.coap_model.specs.Carries.{Carries};
ghost use Rattle.coap_core.specs.Events.{seen};
ghost use Rattle.coap_core.specs.Done.{DoesSo, in_short};
ghost use Rattle.coap_core.specs.StepDone.{IsStepDone};

use crate::event::Event;
use crate::request_target::CacheQuery;
use crate::setting::Setting;
use crate::state::State;
use crate::ticks::moment_of;
use crate::timing::Timing;
use coap_endpoint::Endpoint;
use coap_message::{Datagram, LAST_MOMENT, MOST_JITTER, Moment, OutOfMemory};
use coap_model::{ClientCounts, Counts, Did, DueItem, Limits, Report, laws};
use coap_store::Store;
use coap_target::Routes;
use std::alloc::Global;
use std::marker::Model;

/// The number of events that a core handles at most.
pub const MOST_EVENTS: u64 = 1 << 63;

/// The core of a proxy. A contract sees the model's state: what the core was made with, and its
/// tables.
pub struct Core<S: Store> {
    pub(crate) state: State<S>,
    /// What is due first in the state.
    pub(crate) due: Option<DueItem>,
    /// Room for what the next request asks for, which never grows.
    pub(crate) query: CacheQuery,
}

impl<S: Store + Drop> Drop for Core<S> {
    fn drop(self) {
        let Core {
            state: _,
            due: _,
            query: _,
        } = self;
    }
}

impl<S: Store> Model for Core<S> {
    ghost use Rattle.std.specs.Prelude.{◌≡◌, List};
    ghost use Rattle.coap_model.specs.State.{State};
    ghost use Rattle.coap_model.specs.History.{Observation};
    ghost use Rattle.coap_model.specs.Carries.{Carries};
    ghost use Rattle.coap_model.specs.Ranges.{AreInRange};
    ghost use Rattle.coap_model.specs.Ticks.{item_due};
    ghost use Rattle.coap_limits.specs.Limits.{AreLimits};

    ghost Value = { State };

    ghost view = { λ c. c.state };

    // It carries some history, with moments and draws within their ranges, and knows what is due
    // first.
    ghost invariant = { λ c.
        AreLimits c.state.setting.limits
        × ((history : List Observation) × Carries history c.state × AreInRange history)
        × (c.due ≡ item_due c.state) };
}

impl<S: Store + Drop> Core<S> {
    /// A core that has done nothing yet. Room for exchanges, waiters and records is allocated here.
    ///
    /// `first_id` is the first Message ID that it gives (RFC 7252, 4.4). `salt` makes its tokens
    /// differ from those of earlier runs (RFC 7252, 5.3.1).
    ///
    /// # Errors
    /// Out of memory.
    pub fn new(
        alloc: Global,
        seed: S::Seed,
        limits: Limits,
        routes: Routes,
        first_id: u16,
        salt: u64,
    ) -> Result<Core<S>, OutOfMemory>
        // It is made of exactly the arguments, and carries no history.
        ensures exact { IfOk result (λ core.
            core ≡ new_state (setting_of limits routes first_id salt)) }
        ensures carries { IfOk result (λ core. Carries [] core) }
    {
        laws::new_proxies_carry_nothing();
        let _laws = routes.maps();
        let setting = Setting {
            limits,
            routes,
            first_id,
            salt,
        };
        let state = State::new(alloc, seed, setting)?;
        let query = CacheQuery::for_any(alloc, &state.setting)?;
        let due = state.first_due();
        Ok(Core { state, due, query })
    }

    /// Handles one event at the moment `now`. `draw` is a random number of milliseconds, added to
    /// the two seconds of the first timeout of a request or an answer (RFC 7252, 4.2). The datagram
    /// to send, if there is one, is written to `out`, which is left empty otherwise.
    ///
    /// `now` is in milliseconds, at most 2^62, and never goes back; `draw` is at most 1,000; `out`
    /// has room for `datagram()` bytes; and fewer than 2^63 steps were done before.
    ///
    /// # Errors
    /// Out of memory, in which case nothing changes except that `out` is emptied. That can only
    /// happen when a new request is remembered, when a response becomes the answer of its exchange
    /// (but it isn't an error if the cache has no memory for one more entry), or when an answer is
    /// sent to a client in a Confirmable message, which is kept until it is acknowledged. A tick
    /// that ran out of memory can be retried: what was due is still due.
    pub fn step(
        &mut self,
        now: Moment,
        draw: u16,
        event: Event<'_>,
        out: &mut Datagram,
    ) -> Result<Report, OutOfMemory>
        requires moment { now ≤ 2 ^ 62 }
        requires onward { self.old.last ≤ now }
        requires draw { draw ≤ 1000 }
        requires room { self.old.setting.limits.datagram ≤ out.old.room }
        requires events { self.old.events < 2 ^ 63 }

        // All that is promised of a step is in the fields of this record: the report, the datagram
        // and the core after the step are determined; what is carried is promised; the limits hold;
        // and where memory runs out, which is said of it, nothing happens.
        ensures done { IsStepDone now draw (seen event.entry) result self.old self.new out.old
            out.new }
    {
        match self.step_told(now, draw, event, out) {
            Ok(did) => Ok(did.report()),
            Err(error) => Err(error),
        }
    }

    /// `step`, which says in full what it did: its case, the exchange or the waiter that it is
    /// about, and why. All else is as there.
    ///
    /// # Errors
    /// Out of memory, as `step`.
    pub fn step_told(
        &mut self,
        now: Moment,
        draw: u16,
        event: Event<'_>,
        out: &mut Datagram,
    ) -> Result<Did, OutOfMemory>
        requires moment { now ≤ 2 ^ 62 }
        requires onward { self.old.last ≤ now }
        requires draw { draw ≤ 1000 }
        requires room { self.old.setting.limits.datagram ≤ out.old.room }
        requires events { self.old.events < 2 ^ 63 }

        // What was done is the deed of the step, and all else is as `step` promises.
        ensures exact { IfOk result (λ did.
            DoesSo
            (step_of self.old now draw (grown_of (outcome_of did.deed)) (seen event.entry))
            did out.old out.new self.new) }
        ensures done { IsStepDone now draw (seen event.entry) (in_short result) self.old self.new
            out.old out.new }
    {
        laws::steps_are_carried();
        laws::what_is_carried_is_promised();
        laws::datagrams_fit();
        laws::settings_stay();
        event.laws();
        let timing = Timing { now, draw };
        let done = self
            .state
            .step(timing, event, self.due, &mut self.query, out);
        self.due = self.state.first_due();
        done
    }

    /// Whether `step` may be called with these: the moment isn't before the last one, and is at
    /// most 2^62, the draw is at most 1,000, the datagram has room for `datagram()` bytes, and
    /// fewer than 2^63 steps were done.
    pub fn can_step(&self, now: Moment, draw: u16, out: &Datagram) -> bool
        ensures moment { IsTrue result → now ≤ 2 ^ 62 }
        ensures onward { IsTrue result → self.now.last ≤ now }
        ensures draw { IsTrue result → draw ≤ 1000 }
        ensures room { IsTrue result → self.now.setting.limits.datagram ≤ out.now.room }
        ensures events { IsTrue result → self.now.events < 2 ^ 63 }
        ensures only { now ≤ 2 ^ 62
            → self.now.last ≤ now
            → draw ≤ 1000
            → self.now.setting.limits.datagram ≤ out.now.room
            → self.now.events < 2 ^ 63
            → IsTrue result }
    {
        self.last() <= now
            && now <= LAST_MOMENT
            && draw <= MOST_JITTER
            && self.datagram() <= out.room()
            && self.events() < MOST_EVENTS
    }

    /// When the next item is due, in milliseconds, if any is. It is at most 2^62 + 600,000.
    pub fn next_due(&self) -> Option<Moment>
        ensures exact { result ≡ next_due self.now }
        ensures bounded { IfSome result (λ at. at ≤ 2 ^ 62 + 600000) }
    {
        moment_of(self.due)
    }

    /// The moment of the last step, in milliseconds, or 0 before the first.
    pub fn last(&self) -> Moment
        ensures exact { result ≡ self.now.last }
    {
        self.state.last
    }

    /// The number of steps done.
    pub fn events(&self) -> u64
        ensures exact { result ≡ self.now.events }
    {
        self.state.events
    }

    /// How much it holds at present.
    pub fn counts(&self) -> Counts
        ensures exact { result ≡ counts self.now }
    {
        self.state.counts()
    }

    /// How much of that is an endpoint's: the live records of its messages, the exchanges that it
    /// opened, and its waiters. A client that joins an exchange has a waiter, and a record of a
    /// response counts for the origin that sent it. Doesn't allocate.
    pub fn client_counts(&self, client: Endpoint) -> ClientCounts
        ensures exact { result ≡ client_counts self.now client }
    {
        self.state.client_counts(client)
    }

    /// The greatest length of a datagram, in bytes.
    pub fn datagram(&self) -> usize
        ensures exact { result ≡ self.now.setting.limits.datagram }
    {
        self.state.setting.limits.values().datagram as usize
    }
}
