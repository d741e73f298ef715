//! What a core shows to those who watch it: what its next tick is about, and what a message meets.
ghost use Rattle.std.specs.Prelude.{◌≡◌, ◌≤◌, is_some, length, slice_get};
ghost use Rattle.std.specs.Option.{option_copied, option_map};
ghost use Rattle.coap_pending.specs.Exchanges.{is_joinable, is_opened_by};
ghost use Rattle.coap_pending.specs.Table.{count, first_that, item_at};
ghost use Rattle.coap_pending.specs.Waiters.{is_of, waits_for};
ghost use Rattle.endpoint_counts.specs.Clients.{AreOfClients};
ghost use Rattle.coap_model.specs.State.{records_of};
ghost use Rattle.coap_model.specs.Ticks.{item_due};
ghost use Rattle.coap_store.specs.Entries.{stored_for};
ghost use Rattle.coap_core.specs.declared.holders.SharedTable.{SharedTable};
ghost use Rattle.coap_core.specs.Holders.{limit_of, owners};
ghost use Rattle.coap_core.specs.Watching as spec;

use crate::proxy::Core;
use coap_endpoint::Endpoint;
use coap_exchange::{EndpointMap, Exchange, ExchangeNumber, Waiter};
use coap_message::{Kind, MessageRef};
use coap_model::{DueItem, Limits};
use coap_store::{CacheKey, SharedKey, Store, Stored};
use coap_target::Routes;

impl<S: Store + Drop> Core<S> {
    /// The limits that it was made with.
    pub fn limits(&self) -> &Limits
        ensures exact { result.now ≡ self.now.setting.limits }
    {
        &self.state.setting.limits
    }

    /// The routes that it was made with.
    pub fn routes(&self) -> &Routes
        ensures exact { result.now ≡ self.now.setting.routes }
    {
        &self.state.setting.routes
    }

    /// The number of the exchange that what is due first is about.
    fn due_number(&self) -> Option<ExchangeNumber>
        ensures exact { result ≡ spec.number_of_item self.now (item_due self.now) }
    {
        match self.due? {
            DueItem::OfExchange { number, .. } => Some(number),
            DueItem::OfWaiter { number, .. } => self.state.under_way.waiter(number)?.exchange(),
        }
    }

    /// The exchange that the next tick is about, if one is due then: its request is to be sent, or
    /// sent again, or given up, or its answer is to be sent to a waiter. None if nothing is due, or
    /// if a waiter is due that was sent its answer.
    pub fn due_exchange(&self) -> Option<&Exchange>
        ensures exact { option_copied result ≡ spec.due_exchange self.now }
    {
        self.state.under_way.exchange(self.due_number()?)
    }

    /// How many waiters wait for that exchange.
    pub fn due_waiting(&self) -> usize
        ensures exact { result ≡ spec.due_waiting self.now }
    {
        match self.due_number() {
            Some(number) => self.state.under_way.waiters().waiting_for(number),
            None => 0,
        }
    }

    /// The waiter that the next tick is about, if one is due then: it is to be sent its answer, or
    /// sent it again, or given up.
    pub fn due_waiter(&self) -> Option<&Waiter>
        ensures exact { option_copied result ≡ spec.due_waiter self.now }
    {
        match self.due? {
            DueItem::OfExchange { .. } => None,
            DueItem::OfWaiter { number, .. } => self.state.under_way.waiter(number),
        }
    }

    /// The exchange that awaits this response from this endpoint.
    pub fn awaited(&self, from: Endpoint, response: &MessageRef<'_>) -> Option<&Exchange>
        ensures exact { option_copied result ≡ spec.awaited self.now from response.now }
    {
        let number = self.state.awaiting(from, response)?;
        self.state.under_way.exchange(number)
    }

    /// The exchange of this number, if it isn't closed.
    pub fn exchange(&self, number: ExchangeNumber) -> Option<&Exchange>
        ensures exact { option_copied result ≡ item_at number self.now.exchanges }
    {
        self.state.under_way.exchange(number)
    }

    /// How many waiters wait for the exchange of this number.
    pub fn waiting_for(&self, number: ExchangeNumber) -> usize
        ensures exact { result ≡ count (waits_for number) self.now.waiters }
    {
        self.state.under_way.waiters().waiting_for(number)
    }

    /// The exchange that was opened last, if it isn't closed yet.
    pub fn newest_exchange(&self) -> Option<&Exchange>
        ensures exact { option_copied result ≡ item_at self.now.opened self.now.exchanges }
    {
        let number = self.state.under_way.exchanges().admitted();
        self.state.under_way.exchange(number)
    }

    /// Whether a GET with this key may share the answer of an exchange that is in progress.
    pub fn is_joinable(&self, key: &CacheKey) -> bool
        ensures exact { result
            ≡ is_some (first_that (is_joinable key.now) self.now.exchanges) }
    {
        self.state.under_way.exchanges().joinable(key).is_some()
    }

    /// The cache key of the last request whose verdict was `MayAsk`. The step of that request left
    /// it behind, and no clause speaks of it.
    pub fn last_key(&self) -> &SharedKey {
        &self.query.key
    }

    /// The store.
    pub fn store(&self) -> &S
        ensures entries { S.entries result.now ≡ self.now.store }
    {
        &self.state.store
    }

    /// What is stored for a key, fresh or not. It doesn't count as a use.
    pub fn stored(&self, key: &SharedKey) -> Option<&Stored>
        ensures exact { option_map (λ stored. stored.now) result
            ≡ stored_for key.now self.now.store }
    {
        self.state.store.peek(key)
    }

    /// The endpoint whose message the record at this place is of, counted from 0 for the oldest of
    /// those of messages of this type: Confirmable ones are remembered apart from all others.
    pub fn record_source(&self, kind: Kind, place: usize) -> Option<Endpoint>
        ensures exact { result
            ≡ option_map (λ r. r.from) (slice_get (records_of kind self.now).items place) }
    {
        self.state.records(kind).source(place)
    }

    /// The clients that opened the exchanges in progress, with how many of these each opened.
    pub fn openers(&self) -> &EndpointMap
        ensures exact { AreOfClients is_opened_by self.now.exchanges result.now }
    {
        self.state.under_way.exchanges().clients()
    }

    /// The clients that wait or are being sent an answer, with how many such requests each has.
    pub fn waiting_clients(&self) -> &EndpointMap
        ensures exact { AreOfClients is_of self.now.waiters result.now }
    {
        self.state.under_way.waiters().clients()
    }

    // Does nothing: it lets a proof conclude that no table has more items than it may have.
    pub(crate) fn tables_fit(&self)
        ensures { (table : SharedTable)
            → length (owners table self.now) ≤ limit_of table self.now.setting.limits }
    {
        let _ = &self.state;
    }

    /// The number of Message IDs that are free at the moment of the last step: neither given nor
    /// reserved for requests that are still to be sent, or for waiters that are still to be served.
    pub fn free_ids(&self) -> u64
        ensures exact { result ≡ spec.free_ids self.now }
    {
        let waiting = self.state.under_way.waiters().waiting() as u64;
        let queued = self.state.under_way.exchanges().queued() as u64;
        u64::from(self.state.ids.left(self.state.last))
            .saturating_sub(waiting)
            .saturating_sub(queued)
    }
}
