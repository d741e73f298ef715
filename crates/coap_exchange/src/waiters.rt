//! Tables of waiters: which wait for which exchange, which were sent their answer, and which is
//! due.
ghost use Rattle.std.specs.Prelude.{◌≡◌, ◌+◌, ◌-◌, ◌<◌, ◌≤◌, ◌^◌, ◌==◌, ◌↔◌, length, true, false, OnOk, OnErr, IfOk, IfErr, IfSome};
ghost use Rattle.std.specs.Option.{option_copied};
ghost use Rattle.indexmap.specs.IndexMap.{get};
ghost use Rattle.coap_exchange.specs.declared.table.AdmitError.TheVariants.{ClientFull, Full};
ghost use Rattle.coap_exchange.specs.Answered.{due_at};
ghost use Rattle.coap_endpoint.specs.declared.endpoint.Endpoint.{Endpoint};
ghost use Rattle.endpoint_counts.specs.Clients.{count_of, AreOfClients, AreWithin};
ghost use Rattle.coap_pending.specs.Due.{due_row, first_due};
ghost use Rattle.coap_exchange.specs.WaiterIndex.{answered_of, end_of};
ghost use Rattle.coap_pending.specs.Table.{empty_table, seeded_table, item_at, admitted_to, without, withdrawn, changed_at, count, first_that, passes, IsTable};
ghost use Rattle.coap_pending.specs.Waiters.{awaited_by, delivered, due_after, fire_at, fired_waiter, is_of, is_waiting, joined, waits_for, was_sent_as, IsDue};

use crate::exchanges::Exchanges;
use crate::table::{AdmitError, Table};
use crate::waiter_index::{WaiterIndex, waiter_keys_in, waiter_keys_of};
use coap_endpoint::Endpoint;
use coap_message::{Moment, OutOfMemory, Seq};
use coap_pending::due::{due_under, sooner};
use coap_pending::{ExchangeNumber, Fire, Joining, Timer, Waiter, WaiterNumber, WaiterTransition};
use endpoint_counts::by_client::{count_of, depart, enter};
use endpoint_counts::{DigestedEndpoint, EndpointMap};
use std::alloc::Global;
use std::marker::Model;

/// Waiters by number. A contract sees the table. Only `new`, `seeded` and `admit`
/// allocate.
pub struct Waiters {
    pub(crate) table: Table<Waiter>,
    /// The number of waiters that wait for an exchange.
    pub(crate) waiting: usize,
    /// The number of waiters of each client.
    pub(crate) clients: EndpointMap,
    /// What they are looked up by.
    pub(crate) index: WaiterIndex,
    pub(crate) alloc: Global,
}

impl Drop for Waiters {
    fn drop(self) {
        let Waiters {
            table: _,
            waiting: _,
            clients: _,
            index: _,
            alloc: _,
        } = self;
    }
}

impl Model for Waiters {
    ghost use Rattle.std.specs.Prelude.{◌≡◌};
    ghost use Rattle.coap_pending.specs.declared.waiter.Waiter.{Waiter};
    ghost use Rattle.endpoint_counts.specs.Clients.{AreOfClients, AreWithin};
    ghost use Rattle.coap_exchange.specs.WaiterIndex.{AreWaitersIndexed};
    ghost use Rattle.coap_pending.specs.Table.{Table, IsTable};
    ghost use Rattle.coap_exchange.specs.Tally.{AreWaiters};
    ghost use Rattle.coap_pending.specs.Waiters.{is_of};

    ghost Value = { Table Waiter };

    ghost view = { λ w. w.table };

    ghost invariant = { λ w.
        AreWaiters w.table.items w.waiting w.index.awaited.pairs
        × AreWaitersIndexed w.table.items w.table.limit w.index
        × IsTable w.table
        × AreOfClients is_of w.table.items w.clients
        × AreWithin is_of w.table
        × (w.clients.limit ≡ w.table.limit)
        × (w.clients.seed ≡ w.table.seed) };
}

impl Waiters {
    /// An empty table with room for `limit` waiters, and for `per_client` of one client.
    ///
    /// # Errors
    /// Out of memory.
    pub fn new(alloc: Global, limit: usize, per_client: usize) -> Result<Waiters, OutOfMemory>
        ensures empty { IfOk result (λ waiters. waiters ≡ empty_table limit per_client) }
    {
        Waiters::seeded(alloc, limit, per_client, 0)
    }

    /// An empty table like that of `new`. Where its maps put a number or a client depends on
    /// `seed`, so that whoever doesn't know it can't choose which of them meet there.
    ///
    /// # Errors
    /// Out of memory.
    pub fn seeded(
        alloc: Global,
        limit: usize,
        per_client: usize,
        seed: u64,
    ) -> Result<Waiters, OutOfMemory>
        ensures empty { IfOk result (λ waiters. waiters ≡ seeded_table seed limit per_client) }
    {
        Ok(Waiters {
            table: Table::new(alloc, limit, per_client, seed)?,
            waiting: 0,
            clients: EndpointMap::new(alloc, limit, seed)?,
            index: WaiterIndex::new(alloc, limit)?,
            alloc,
        })
    }

    /// The number of waiters: those that wait, and those whose answer isn't acknowledged.
    pub fn len(&self) -> usize
        ensures exact { result ≡ length self.now.items }
    {
        self.table.len()
    }

    /// The number of waiters of this client: of its requests that wait, and of those whose answer
    /// it hasn't acknowledged. Doesn't allocate.
    pub fn count_of(&self, client: Endpoint) -> usize
        ensures exact { result ≡ count (is_of client) self.now.items }
        ensures within { AreWithin is_of self.now }
    {
        self.count_of_peer(DigestedEndpoint::new(client))
    }

    /// `count_of`, for a client whose digest is made already.
    pub fn count_of_peer(&self, client: DigestedEndpoint) -> usize
        ensures exact { result ≡ count (is_of client) self.now.items }
        ensures within { AreWithin is_of self.now }
    {
        count_of(&self.clients, client)
    }

    /// The clients that waiters are of, with how many each has.
    pub fn clients(&self) -> &EndpointMap
        ensures exact { AreOfClients is_of self.now.items result.now }
    {
        &self.clients
    }

    /// The number of waiters ever admitted.
    pub fn admitted(&self) -> u64
        ensures exact { result ≡ self.now.admitted }
    {
        self.table.admitted()
    }

    /// The number of waiters that wait for an exchange.
    pub fn waiting(&self) -> usize
        ensures exact { result ≡ count is_waiting self.now.items }
    {
        self.waiting
    }

    /// The number of waiters that wait for the exchange numbered `exchange`.
    pub fn waiting_for(&self, exchange: ExchangeNumber) -> usize
        ensures exact { result ≡ count (waits_for exchange) self.now.items }
    {
        self.index.awaited.count_of(exchange)
    }

    /// The waiter numbered `number`, if it is in the table.
    pub fn get(&self, number: WaiterNumber) -> Option<&Waiter>
        ensures exact { option_copied result ≡ item_at number self.now.items }
        ensures sound { IsTable self.now }
    {
        self.table.get(number)
    }

    /// Looks for the waiter numbered `number`, so that the calls about it that follow find it at
    /// once.
    pub(crate) fn seek(&mut self, number: WaiterNumber)
        ensures { self.new ≡ self.old }
    {
        self.table.seek(number);
    }

    /// Looks for what is counted of a client, likewise.
    pub(crate) fn seek_client(&mut self, client: DigestedEndpoint)
        ensures { self.new ≡ self.old }
    {
        self.clients.seek(client);
    }

    /// The number of the waiter whose answer was sent to the endpoint `at` with Message ID `id`,
    /// less than 247,000 milliseconds before `now` (RFC 7252, 4.4). If there are several, the
    /// first.
    pub fn sent_as(&self, at: Endpoint, id: u16, now: Moment) -> Option<WaiterNumber>
        ensures exact { result ≡ first_that (was_sent_as at id now) self.now.items }
    {
        let mut after = 0;
        while let Some(number) = self.index.ids.next_of(u64::from(id), after) {
            if self.was_sent_as(number, at, id, now) {
                return Some(number);
            }
            after = number;
        }
        None
    }

    /// Whether that is so of the waiter numbered `number`, if there is one.
    fn was_sent_as(&self, number: WaiterNumber, at: Endpoint, id: u16, now: Moment) -> bool
        ensures exact { result ≡ passes (was_sent_as at id now) (item_at number self.now.items) }
    {
        match self.get(number) {
            Some(waiter) => waiter.was_sent_as(at, id, now),
            None => false,
        }
    }

    // Does nothing: it lets a proof conclude that waiters are in order of number.
    pub(crate) fn laws(&self)
        ensures { IsTable self.now }
    {
        let _ = &self.table;
    }

    /// The number of the first waiter that waits for the exchange numbered `exchange`.
    pub(crate) fn first_waiting(&self, exchange: ExchangeNumber) -> Option<WaiterNumber>
        ensures exact { result ≡ first_that (waits_for exchange) self.now.items }
    {
        self.index.awaited.next_of(exchange, 0)
    }

    /// The exchange that the waiter numbered `number` waits for, if there is one and it does.
    pub(crate) fn awaited(&self, number: WaiterNumber) -> Option<ExchangeNumber>
        ensures exact { result ≡ awaited_by (item_at number self.now.items) }
        ensures sound { IsTable self.now }
    {
        awaited_by(self.get(number))
    }

    /// When the first timeout of those that were sent their answer ends, in milliseconds, and the
    /// waiter's number.
    pub(crate) fn first_end(&self) -> Option<(Moment, WaiterNumber)>
        ensures exact { result ≡ first_due end_of self.now.items }
        ensures sound { IsTable self.now }
    {
        self.table.laws();
        self.index.ends.first()
    }

    /// The most waiters that it can hold.
    pub(crate) fn limit(&self) -> usize
        ensures exact { result ≡ self.now.limit }
    {
        self.table.limit()
    }

    /// The moment when the first waiter is due, in milliseconds, and its number. If several are due
    /// at the same moment, the one with the least number. A waiter is due when the answer of its
    /// exchange comes, and, once the answer was sent, at the end of the current timeout. All
    /// waiters are scanned: a proxy, which keeps who is due, calls `UnderWay::waiter_due`.
    pub fn due(&self, exchanges: &Exchanges) -> Option<(Moment, WaiterNumber)>
        ensures exact { result ≡ first_due (due_after exchanges.now.items) self.now.items }
    {
        sooner(self.first_end(), self.table.first_answered(exchanges))
    }

    /// Adds a waiter after the others, which waits for an exchange, and returns its number.
    ///
    /// # Errors
    /// `Full` if the table has no room for another waiter; otherwise `ClientFull` if it has none
    /// for another of this client; otherwise `OutOfMemory`. The table is unchanged then.
    pub fn admit(&mut self, joining: Joining) -> Result<WaiterNumber, AdmitError>
        requires { self.old.admitted < 2 ^ 64 - 1 }
        ensures number { IfOk result (λ number. number ≡ self.old.admitted + 1) }
        ensures ok { OnOk result (self.new ≡ admitted_to (joined joining) self.old) }
        ensures full { IfErr result (λ error.
            (error ≡ Full) ↔ (length self.old.items ≡ self.old.limit)) }
        ensures client_full { IfErr result (λ error.
            (error ≡ ClientFull)
            ↔ ((length self.old.items < self.old.limit)
            × (count (is_of joining.client) self.old.items ≡ self.old.per_client))) }
        ensures room { OnOk result (length self.old.items < self.old.limit) }
        ensures client_room { OnOk result
            (count (is_of joining.client) self.old.items < self.old.per_client) }
        ensures err { OnErr result (self.new ≡ self.old) }
        ensures sound { IsTable self.old }
        ensures within { AreWithin is_of self.old }
    {
        if self.table.is_full() {
            return Err(AdmitError::Full);
        }
        let peer = DigestedEndpoint::new(joining.client);
        if count_of(&self.clients, peer) == self.table.per_client() {
            return Err(AdmitError::ClientFull);
        }
        Ok(self.admit_in_room(joining, peer)?)
    }

    /// `admit` without its two tests: there is room for another waiter, and for one more of the
    /// client, which is `peer`.
    ///
    /// # Errors
    /// Out of memory. The table is unchanged then.
    pub(crate) fn admit_in_room(
        &mut self,
        joining: Joining,
        peer: DigestedEndpoint,
    ) -> Result<WaiterNumber, OutOfMemory>
        requires numbers { self.old.admitted < 2 ^ 64 - 1 }
        requires peer { peer ≡ joining.client }
        requires room { length self.old.items < self.old.limit }
        requires client_room { count (is_of joining.client) self.old.items < self.old.per_client }
        ensures number { IfOk result (λ number. number ≡ self.old.admitted + 1) }
        ensures ok { OnOk result (self.new ≡ admitted_to (joined joining) self.old) }
        ensures err { OnErr result (self.new ≡ self.old) }
        ensures sound { IsTable self.old }
    {
        self.table.laws();
        self.clients.laws();
        enter(&mut self.clients, peer);
        let waiter = joining.joined();
        let (was, is) = (waiter_keys_in(None), waiter_keys_of(&waiter));
        match self.table.admit(waiter) {
            Ok(number) => {
                self.waiting += 1;
                self.index.rekey(number, was, is);
                Ok(number)
            }
            Err(_) => {
                depart(&mut self.clients, Some(peer));
                Err(OutOfMemory)
            }
        }
    }

    /// Undoes an `admit`, if that was the last change: removes the waiter with the last number
    /// given, if it is still in the table, and gives that number back.
    pub fn withdraw(&mut self)
        ensures exact { self.new ≡ withdrawn self.old }
        ensures undone { (before : Table Waiter) (item : Waiter)
            → IsTable before
            → self.old ≡ admitted_to item before
            → self.new ≡ before }
    {
        let number = self.table.admitted();
        if self.get(number).is_some() {
            self.update(number, None);
            self.table.give_back();
        }
    }

    /// Removes the waiter numbered `number`, if there is one.
    pub fn close(&mut self, number: WaiterNumber)
        ensures closed { self.new ≡ record self.old { items = without number self.old.items } }
    {
        self.update(number, None);
    }

    /// Notes that the waiter numbered `number`, which was waiting for an exchange, is sent its
    /// answer: `bytes`, with Message ID `id`. Its token and tags are dropped. The timer's timeout
    /// is at most 3,000 milliseconds, like that of a new timer.
    pub fn deliver(&mut self, number: WaiterNumber, bytes: Seq<u8>, id: u16, timer: Timer)
        requires waiting { IfSome (item_at number self.old.items) (λ w. is_waiting w ≡ true) }
        requires short { timer.timeout ≤ 3000 }
        ensures delivered { self.new
            ≡ record self.old {
              items =
                  changed_at number (delivered bytes id timer) self.old.items;
            } }
    {
        self.update(number, Some(WaiterTransition::Deliver { bytes, id, timer }));
    }

    /// Fires the timer of the waiter numbered `number`, which was sent its answer, and returns
    /// what is to be done. If the answer is to be sent again, the timer counts that. `now` is in
    /// milliseconds, and at most 2^62.
    pub fn fire(&mut self, number: WaiterNumber, now: Moment) -> Fire
        requires due { IfSome (item_at number self.old.items) (IsDue now) }
        requires now { now ≤ 2 ^ 62 }
        ensures exact { result ≡ fire_at now (item_at number self.old.items) }
        ensures fired { self.new
            ≡ record self.old { items = changed_at number (fired_waiter now) self.old.items } }
    {
        let fire = match self.get(number) {
            Some(waiter) => waiter.fire_of(now),
            None => Fire::GiveUp,
        };
        self.update(number, Some(WaiterTransition::Fire(now)));
        fire
    }
}

impl Table<Waiter> {
    /// Which waiter is due first because an answer has come. All are scanned.
    fn first_answered(&self, exchanges: &Exchanges) -> Option<(Moment, WaiterNumber)>
        ensures exact { result ≡ first_due (answered_of exchanges.now.items) self.now.items }
    {
        let mut first = None;
        for (number, waiter) in self.items.iter() {
            let due = answered_at(*number, waiter, exchanges);
            first = sooner(first, due);
        }
        first
    }
}

/// Pairs a number with the moment when it is due, if there is a number.
pub(crate) fn due_at(moment: Moment, number: Option<WaiterNumber>) -> Option<(Moment, WaiterNumber)>
    ensures exact { result ≡ due_at moment number }
{
    let number = number?;
    Some((moment, number))
}

/// When the answer came that a waiter waits for, with the waiter's number.
fn answered_at(
    number: WaiterNumber,
    waiter: &Waiter,
    exchanges: &Exchanges,
) -> Option<(Moment, WaiterNumber)>
    ensures exact { result ≡ due_row (answered_of exchanges.now.items) (number, waiter.now) }
{
    let exchange = waiter.exchange()?;
    let answer = exchanges.answer_of(exchange)?;
    due_under(number, Some(answer.got))
}

/// The exchange that a waiter waits for, if there is a waiter and it does.
fn awaited_by(found: Option<&Waiter>) -> Option<ExchangeNumber>
    ensures exact { result ≡ awaited_by (option_copied found.entry) }
{
    match found {
        Some(waiter) => waiter.exchange(),
        None => None,
    }
}
