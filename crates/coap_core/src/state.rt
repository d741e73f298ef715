//! What a proxy was made with, and its tables.
ghost use Rattle.std.specs.Prelude.{◌≡◌, ◌+◌, ◌<◌, ◌^◌, None, IfOk};
ghost use Rattle.coap_pending.specs.Ids.{called, left_of};
ghost use Rattle.coap_pending.specs.Table.{seeded_table};
ghost use Rattle.coap_limits.specs.Limits.{AreLimits};
ghost use Rattle.coap_model.specs.State.{next_id, later, reserved, has_ids, has_exchange_room, has_waiter_room, has_room_to_join, has_room_to_open, lacks_to_join, lacks_to_open, new_state, no_con_records, no_non_records, client_counts, counts};
ghost use Rattle.coap_core.specs.Settings.{seen};
ghost use Rattle.coap_core.specs.Needs.{CanGoOn, CanStep};

use crate::setting::Setting;
use coap_dedup::{EXCHANGE_LIFETIME, NON_LIFETIME, Records};
use coap_endpoint::Endpoint;
use coap_exchange::{ExchangeNumber, Exchanges, Ids, UnderWay, Waiters};
use coap_message::{Moment, OutOfMemory};
use coap_model::{ClientCounts, Counts, Deed, Did, Lacks, Limits};
use coap_store::Store;
use endpoint_counts::DigestedEndpoint;
use std::alloc::Global;
use std::marker::Model;

/// What a proxy was made with, and what it holds. A contract sees the model's state.
pub(crate) struct State<S: Store> {
    pub(crate) alloc: Global,
    pub(crate) setting: Setting,
    /// Exchanges, and their waiters.
    pub(crate) under_way: UnderWay,
    pub(crate) store: S,
    pub(crate) con_records: Records,
    pub(crate) non_records: Records,
    pub(crate) ids: Ids,
    pub(crate) last: Moment,
    pub(crate) events: u64,
}

impl<S: Store + Drop> Drop for State<S> {
    fn drop(self) {
        let State {
            alloc: _,
            setting: _,
            under_way: _,
            store: _,
            con_records: _,
            non_records: _,
            ids: _,
            last: _,
            events: _,
        } = self;
    }
}

impl<S: Store> Model for State<S> {
    ghost use Rattle.std.specs.Prelude.{◌≡◌};
    ghost use Rattle.coap_model.specs.State.{State};
    ghost use Rattle.coap_core.specs.Settings.{seen};
    ghost use Rattle.coap_core.specs.Storing.{AreStoreLimits};

    ghost Value = { State };

    ghost view = { λ w.
        record {
          setting = seen w.setting;
          exchanges = w.under_way.exchanges.items;
          waiters = w.under_way.waiters.items;
          store = S.entries w.store;
          con_records = w.con_records;
          non_records = w.non_records;
          opened = w.under_way.exchanges.admitted;
          admitted = w.under_way.waiters.admitted;
          ids = w.ids;
          last = w.last;
          events = w.events;
        } };

    ghost invariant = { λ w.
        (w.under_way.exchanges.limit ≡ w.setting.limits.exchanges)
        × (w.under_way.waiters.limit ≡ w.setting.limits.waiters)
        × (w.under_way.exchanges.per_client ≡ w.setting.limits.client_exchanges)
        × (w.under_way.waiters.per_client ≡ w.setting.limits.client_waiters)
        × AreStoreLimits w.setting.limits (S.limits w.store)
        × (w.under_way.exchanges.seed ≡ S.secret w.store)
        × (w.under_way.waiters.seed ≡ S.secret w.store) };
}

impl<S: Store + Drop> State<S> {
    /// The state of a proxy that has done nothing yet. Room for exchanges, waiters and records is
    /// allocated here.
    pub(crate) fn new(
        alloc: Global,
        seed: S::Seed,
        setting: Setting,
    ) -> Result<State<S>, OutOfMemory>
        ensures exact { IfOk result (λ state. state ≡ new_state (seen setting)) }
        ensures limits { AreLimits setting.limits }
    {
        let limits = setting.limits;
        let (bytes, entries) = (limits.values().cache_bytes, limits.values().cache_entries);
        let store = S::with_limits(alloc, seed, bytes, entries as usize)?;
        let (con_records, non_records) = new_records(alloc, &limits)?;
        let under_way = new_tables(alloc, &limits, store.secret())?;
        let ids = Ids::new(setting.first_id);
        Ok(State {
            alloc,
            setting,
            under_way,
            store,
            con_records,
            non_records,
            ids,
            last: 0,
            events: 0,
        })
    }

    /// Advances the clock by one event.
    pub(crate) fn advance(&mut self, now: Moment)
        requires { self.old.events < 2 ^ 63 }
        ensures { self.new ≡ later self.old now }
    {
        self.last = now;
        self.events += 1;
    }

    /// The Message ID that is given next.
    pub(crate) fn next_id(&self) -> u16
        ensures { result ≡ next_id self.now }
    {
        self.ids.following
    }

    /// Gives the next Message ID (RFC 7252, 4.4).
    pub(crate) fn take_id(&mut self, now: Moment) -> u16
        requires { 0 < left_of now self.old.ids }
        ensures id { result ≡ next_id self.old }
        ensures given { self.new ≡ record self.old { ids = called now self.old.ids } }
    {
        match self.ids.next(now) {
            Some(id) => id,
            None => unreachable!(),
        }
    }

    /// Looks for the exchange numbered `number`, so that what follows finds it at once.
    pub(crate) fn seek_exchange(&mut self, number: ExchangeNumber)
        ensures { self.new ≡ self.old }
    {
        self.under_way.seek_exchange(number);
    }

    /// Looks for what is counted of a client that is to open an exchange, likewise.
    pub(crate) fn seek_opener(&mut self, client: DigestedEndpoint)
        ensures { self.new ≡ self.old }
    {
        self.under_way.seek_opener(client);
    }

    /// Looks for what is counted of a client that is to join one, likewise.
    pub(crate) fn seek_joiner(&mut self, client: DigestedEndpoint)
        ensures { self.new ≡ self.old }
    {
        self.under_way.seek_joiner(client);
    }

    /// The number of Message IDs reserved for requests that are still to be sent, and for waiters
    /// that are still to be served.
    fn reserved(&self) -> u64
        requires { CanGoOn self.now }
        ensures { result ≡ reserved self.now }
    {
        self.under_way.waiters().waiting() as u64 + self.under_way.exchanges().queued() as u64
    }

    /// Whether `count` Message IDs are free at this moment.
    pub(crate) fn has_ids(&self, count: u64, now: Moment) -> bool
        requires ready { CanStep now self.now }
        requires few { count < 3 }
        ensures { result ≡ has_ids count self.now now }
    {
        self.reserved() + count <= u64::from(self.ids.left(now))
    }

    /// Whether there is room for one more exchange that this client opens.
    fn has_exchange_room(&self, client: DigestedEndpoint) -> bool
        ensures { result ≡ has_exchange_room self.now client }
    {
        (self.under_way.exchanges().len() as u64) < self.setting.limits.values().exchanges
            && (self.under_way.exchanges().count_of_peer(client) as u64)
                < self.setting.limits.values().client_exchanges
    }

    /// Whether there is room for one more request of this client to wait.
    fn has_waiter_room(&self, client: DigestedEndpoint) -> bool
        ensures { result ≡ has_waiter_room self.now client }
    {
        (self.under_way.waiters().len() as u64) < self.setting.limits.values().waiters
            && (self.under_way.waiters().count_of_peer(client) as u64)
                < self.setting.limits.values().client_waiters
    }

    /// Whether there is room for one more waiter, of this client, for an exchange in progress.
    pub(crate) fn has_room_to_join(&self, now: Moment, client: DigestedEndpoint) -> bool
        requires ready { CanStep now self.now }
        ensures { result ≡ has_room_to_join self.now now client }
    {
        self.has_waiter_room(client) && self.has_ids(1, now)
    }

    /// Whether there is room for one more exchange, and for a waiter of this client, which opens
    /// it.
    pub(crate) fn has_room_to_open(&self, now: Moment, client: DigestedEndpoint) -> bool
        requires ready { CanStep now self.now }
        ensures { result ≡ has_room_to_open self.now now client }
    {
        self.has_exchange_room(client) && self.has_waiter_room(client) && self.has_ids(2, now)
    }

    /// What is lacking where there is no room for one more waiter of this client.
    pub(crate) fn lacks_to_join(&self, now: Moment, client: DigestedEndpoint) -> Lacks
        requires ready { CanStep now self.now }
        ensures { result ≡ lacks_to_join self.now now client }
    {
        let limits = self.setting.limits.values();
        let waiters = self.under_way.waiters();
        Lacks {
            exchanges: false,
            client_exchanges: false,
            waiters: limits.waiters <= waiters.len() as u64,
            client_waiters: limits.client_waiters <= waiters.count_of_peer(client) as u64,
            ids: !self.has_ids(1, now),
        }
    }

    /// What is lacking where there is no room for one more exchange, and for a waiter of this
    /// client, which opens it.
    pub(crate) fn lacks_to_open(&self, now: Moment, client: DigestedEndpoint) -> Lacks
        requires ready { CanStep now self.now }
        ensures { result ≡ lacks_to_open self.now now client }
    {
        let limits = self.setting.limits.values();
        let (exchanges, waiters) = (self.under_way.exchanges(), self.under_way.waiters());
        Lacks {
            exchanges: limits.exchanges <= exchanges.len() as u64,
            client_exchanges: limits.client_exchanges <= exchanges.count_of_peer(client) as u64,
            waiters: limits.waiters <= waiters.len() as u64,
            client_waiters: limits.client_waiters <= waiters.count_of_peer(client) as u64,
            ids: !self.has_ids(2, now),
        }
    }

    /// How much of what the proxy holds is an endpoint's.
    pub(crate) fn client_counts(&self, client: Endpoint) -> ClientCounts
        ensures { result ≡ client_counts self.now client }
    {
        ClientCounts {
            con_records: self.con_records.living_of(client, self.last) as u64,
            non_records: self.non_records.living_of(client, self.last) as u64,
            exchanges: self.under_way.exchanges().count_of(client) as u64,
            waiters: self.under_way.waiters().count_of(client) as u64,
        }
    }

    /// How much the proxy holds at present.
    pub(crate) fn counts(&self) -> Counts
        ensures { result ≡ counts self.now }
    {
        Counts {
            cached_bytes: self.store.total(),
            entries: self.store.len() as u64,
            con_records: self.con_records.living(self.last) as u64,
            non_records: self.non_records.living(self.last) as u64,
            exchanges: self.under_way.exchanges().len() as u64,
            waiters: self.under_way.waiters().len() as u64,
        }
    }
}

/// Empty tables of exchanges and of waiters, with room for as many as the limits say. What they are
/// spread by depends on `seed`, which peers can't know.
fn new_tables(alloc: Global, limits: &Limits, seed: u64) -> Result<UnderWay, OutOfMemory>
    ensures exchanges { IfOk result (λ made.
        made.exchanges
        ≡ seeded_table seed limits.now.exchanges limits.now.client_exchanges) }
    ensures waiters { IfOk result (λ made.
        made.waiters ≡ seeded_table seed limits.now.waiters limits.now.client_waiters) }
{
    let (all, per_client) = (limits.values().exchanges, limits.values().client_exchanges);
    let exchanges = Exchanges::seeded(alloc, all as usize, per_client as usize, seed)?;
    let (all, per_client) = (limits.values().waiters, limits.values().client_waiters);
    let waiters = Waiters::seeded(alloc, all as usize, per_client as usize, seed)?;
    UnderWay::new(alloc, exchanges, waiters)
}

/// Empty records, with room for as many as the limits say.
fn new_records(alloc: Global, limits: &Limits) -> Result<(Records, Records), OutOfMemory>
    ensures con { IfOk result (λ made. made.0 ≡ no_con_records limits.now) }
    ensures non { IfOk result (λ made. made.1 ≡ no_non_records limits.now) }
{
    let (all, per_client) = (
        limits.values().con_records as usize,
        limits.values().client_con_records as usize,
    );
    let con_records = Records::new(alloc, all, per_client, EXCHANGE_LIFETIME)?;
    let (all, per_client) = (
        limits.values().non_records as usize,
        limits.values().client_non_records as usize,
    );
    let non_records = Records::new(alloc, all, per_client, NON_LIFETIME)?;
    Ok((con_records, non_records))
}

/// This deed, with nothing sent.
pub(crate) fn silent(deed: Deed) -> Did
    ensures { result ≡ record { send = None; deed = deed } }
{
    Did { send: None, deed }
}
