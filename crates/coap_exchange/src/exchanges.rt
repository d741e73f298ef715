//! Tables of exchanges: which are admitted, sent, answered and closed, and which is due.
ghost use Rattle.std.specs.Prelude.{◌≡◌, ◌+◌, ◌-◌, ◌<◌, ◌≤◌, ◌^◌, ◌↔◌, length, true, false, None, OnOk, OnErr, IfOk, IfErr, IfSome};
ghost use Rattle.std.specs.Option.{option_copied};
ghost use Rattle.coap_endpoint.specs.declared.endpoint.Endpoint.{Endpoint};
ghost use Rattle.coap_pending.specs.declared.exchange.ExchangeState.TheVariants.{Queued};
ghost use Rattle.coap_exchange.specs.declared.table.AdmitError.TheVariants.{ClientFull, Full};
ghost use Rattle.endpoint_counts.specs.Clients.{count_of, AreOfClients, AreWithin};
ghost use Rattle.coap_pending.specs.Due.{first_due};
ghost use Rattle.coap_pending.specs.Exchanges.{acked, answer_in, answered, due_among, fire_at, fired_exchange, is_done, is_joinable, is_opened_by, is_queued, is_sent, sent, tainted_by, was_sent_as, IsDue};
ghost use Rattle.coap_exchange.specs.Opening.{opened};
ghost use Rattle.coap_exchange.specs.Index.{AreIndexed};
ghost use Rattle.coap_exchange.specs.Counted.{AreCounted};
ghost use Rattle.coap_pending.specs.Table.{empty_table, seeded_table, item_at, admitted_to, without, withdrawn, changed_at, all_changed, count, first_that, IsTable};
ghost use Rattle.coap_exchange.specs.SendQueue.{IsSendQueue};

use crate::exchange_changes::taint_all;
use crate::index::{Index, Sought, first_sought, keys_in, keys_of};
use crate::indexed_exchange::IndexedExchange;
use crate::opening::Opening;
use crate::send_queue::{SendQueue, head_of, head_with};
use crate::table::{AdmitError, Table};
use crate::turns::first_turn;
use coap_endpoint::{Endpoint, Target};
use coap_message::{Moment, OutOfMemory};
use coap_pending::due::{later, sooner};
use coap_pending::{Exchange, ExchangeNumber, Fire, Sending, Transition};
use coap_store::{Answer, CacheKey, SharedKey, digests_of};
use endpoint_counts::by_client::{count_of, depart, enter};
use endpoint_counts::{DigestedEndpoint, EndpointMap, Stage, close_one, open_one};
use std::alloc::Global;
use std::marker::Model;

/// Exchanges by number. A contract sees the table. Only `new`, `seeded` and `admit`
/// allocate.
pub struct Exchanges {
    alloc: Global,
    pub(crate) table: Table<IndexedExchange>,
    /// The number of exchanges that are still to be sent.
    pub(crate) queued: usize,
    /// The number of exchanges with each endpoint.
    pub(crate) endpoints: EndpointMap,
    /// The number of exchanges in the table that each client opened.
    pub(crate) clients: EndpointMap,
    /// What they are looked up by.
    pub(crate) index: Index,
    /// Whose turn it is.
    pub(crate) send_queue: SendQueue,
}

impl Drop for Exchanges {
    fn drop(self) {
        let Exchanges {
            alloc: _,
            table: _,
            queued: _,
            endpoints: _,
            clients: _,
            index: _,
            send_queue: _,
        } = self;
    }
}

impl Model for Exchanges {
    ghost use Rattle.coap_pending.specs.declared.exchange.Exchange.{Exchange};
    ghost use Rattle.endpoint_counts.specs.Clients.{AreOfClients, AreWithin};
    ghost use Rattle.coap_pending.specs.Exchanges.{AreExchanges, is_opened_by};
    ghost use Rattle.coap_exchange.specs.Index.{AreIndexed};
    ghost use Rattle.coap_exchange.specs.Counted.{AreCounted, AreSpread, HaveRoom};
    ghost use Rattle.coap_pending.specs.Table.{Table};
    ghost use Rattle.coap_exchange.specs.SendQueue.{IsSendQueue};

    ghost Value = { Table Exchange };

    ghost view = { λ e. e.table };

    ghost invariant = { λ e.
        AreExchanges e.table.items e.queued
        × AreCounted e.table.items e.endpoints
        × AreIndexed e.table.items e.table.limit e.index
        × IsSendQueue e.table.items e.send_queue
        × AreOfClients is_opened_by e.table.items e.clients
        × AreWithin is_opened_by e.table
        × HaveRoom e.table.limit e.send_queue.heads e.endpoints e.clients
        × AreSpread e.table.seed e.index e.endpoints e.clients };
}

impl Exchanges {
    /// An empty table with room for `limit` exchanges, and for `per_client` that one client opened.
    ///
    /// # Errors
    /// Out of memory.
    pub fn new(alloc: Global, limit: usize, per_client: usize) -> Result<Exchanges, OutOfMemory>
        ensures empty { IfOk result (λ exchanges. exchanges ≡ empty_table limit per_client) }
    {
        Exchanges::seeded(alloc, limit, per_client, 0)
    }

    /// An empty table like that of `new`. Where its maps and indexes put a number, an endpoint or a
    /// key depends on `seed`, so that whoever doesn't know it can't choose which of them meet
    /// there.
    ///
    /// # Errors
    /// Out of memory.
    pub fn seeded(
        alloc: Global,
        limit: usize,
        per_client: usize,
        seed: u64,
    ) -> Result<Exchanges, OutOfMemory>
        ensures empty { IfOk result (λ exchanges. exchanges ≡ seeded_table seed limit per_client) }
    {
        let send_queue = SendQueue::new(alloc, limit)?;
        let endpoints = EndpointMap::new(alloc, limit, seed)?;
        let clients = EndpointMap::new(alloc, limit, seed)?;
        let table = Table::new(alloc, limit, per_client, seed)?;
        let index = Index::new(alloc, limit, seed)?;
        Ok(Exchanges {
            alloc,
            table,
            queued: 0,
            endpoints,
            clients,
            index,
            send_queue,
        })
    }

    /// The number of exchanges in the table.
    pub fn len(&self) -> usize
        ensures exact { result ≡ length self.now.items }
    {
        self.table.len()
    }

    /// The number of exchanges in the table that this client opened. Doesn't allocate.
    pub fn count_of(&self, client: Endpoint) -> usize
        ensures exact { result ≡ count (is_opened_by client) self.now.items }
        ensures within { AreWithin is_opened_by self.now }
    {
        self.count_of_peer(DigestedEndpoint::new(client))
    }

    /// `count_of`, for a client whose digest is made already.
    pub fn count_of_peer(&self, client: DigestedEndpoint) -> usize
        ensures exact { result ≡ count (is_opened_by client) self.now.items }
        ensures within { AreWithin is_opened_by self.now }
    {
        count_of(&self.clients, client)
    }

    /// The clients that opened the exchanges in progress, with how many of these each opened.
    pub fn clients(&self) -> &EndpointMap
        ensures exact { AreOfClients is_opened_by self.now.items result.now }
    {
        &self.clients
    }

    /// The number of exchanges ever admitted, without those withdrawn. The model's state calls it
    /// `opened`, and has `admitted` for waiters.
    pub fn admitted(&self) -> u64
        ensures exact { result ≡ self.now.admitted }
    {
        self.table.admitted()
    }

    /// The number of exchanges whose request is still to be sent.
    pub fn queued(&self) -> usize
        ensures exact { result ≡ count is_queued self.now.items }
    {
        self.queued
    }

    /// The exchange numbered `number`, if it is in the table.
    pub fn get(&self, number: ExchangeNumber) -> Option<&Exchange>
        ensures exact { option_copied result ≡ item_at number self.now.items }
        ensures sound { IsTable self.now }
    {
        self.table.exchange(number)
    }

    /// Looks for the exchange numbered `number`, so that the calls about it that follow find it at
    /// once.
    pub(crate) fn seek(&mut self, number: ExchangeNumber)
        ensures { self.new ≡ self.old }
    {
        self.table.seek(number);
    }

    /// Looks for what is counted of a client, so that the calls about it that follow find it at
    /// once.
    pub(crate) fn seek_client(&mut self, client: DigestedEndpoint)
        ensures { self.new ≡ self.old }
    {
        self.clients.seek(client);
    }

    /// The answer of the exchange numbered `number`, if it has come.
    pub fn answer_of(&self, number: ExchangeNumber) -> Option<&Answer>
        ensures exact { option_copied result ≡ answer_in number self.now.items }
    {
        match self.get(number) {
            Some(exchange) => exchange.answer(),
            None => None,
        }
    }

    /// The number of the exchange whose answer a GET with this key may share: a GET with an equal
    /// key, whose target hasn't changed since it was sent, and whose answer hasn't come. If there
    /// are several, the first.
    pub fn joinable(&self, key: &CacheKey) -> Option<ExchangeNumber>
        ensures exact { result ≡ first_that (is_joinable key.now) self.now.items }
    {
        let sought = Sought::Joinable(key);
        let digest = digests_of(self.index.secret, key).key;
        first_sought(&self.table, &self.index.cache_keys, digest, &sought)
    }

    /// `joinable`, for a key that has its digests, so that it isn't hashed.
    pub fn joinable_as(&self, key: &SharedKey) -> Option<ExchangeNumber>
        ensures exact { result ≡ first_that (is_joinable key.now) self.now.items }
    {
        let sought = Sought::Joinable(key.key());
        let digest = key.digests(self.index.secret).key;
        first_sought(&self.table, &self.index.cache_keys, digest, &sought)
    }

    /// The number of the exchange whose request was sent to the endpoint `at` with Message ID `id`,
    /// less than 247,000 milliseconds before `now` (RFC 7252, 4.4). If there are several, the
    /// first.
    pub fn sent_as(&self, at: Endpoint, id: u16, now: Moment) -> Option<ExchangeNumber>
        ensures exact { result ≡ first_that (was_sent_as at id now) self.now.items }
    {
        let sought = Sought::SentAs(at, id, now);
        first_sought(&self.table, &self.index.ids, u64::from(id), &sought)
    }

    /// The moment when the first exchange is due, in milliseconds, and its number. If several are
    /// due at the same moment, the one with the least number. An exchange is due
    ///
    /// - while its request waits for its turn, at its admission, or at its deadline if `nstart` or
    ///   more requests to its endpoint are sent, and neither acknowledged nor answered (RFC 7252,
    ///   4.7);
    /// - once it is sent, at the end of the current timeout, or at its deadline if that is earlier;
    /// - once it is acknowledged, at its deadline.
    ///
    /// The deadline is `exchange_ms` milliseconds after the admission, where `exchange_ms` is at
    /// most 600,000.
    pub fn due(&self, nstart: usize, exchange_ms: u64) -> Option<(Moment, ExchangeNumber)>
        requires { exchange_ms ≤ 600000 }
        ensures exact { result
            ≡ first_due (due_among nstart exchange_ms self.now.items) self.now.items }
    {
        let deadline = later(self.index.openings.first(), exchange_ms);
        let end = self.index.ends.first();
        let turn = first_turn(
            &self.table,
            &self.endpoints,
            self.queued,
            &self.send_queue,
            nstart,
        );
        sooner(deadline, sooner(end, turn))
    }

    /// Opens an exchange of a client after the others, with its request waiting for its turn, and
    /// returns its number. The request came at most at 2^62 milliseconds.
    ///
    /// # Errors
    /// `Full` if the table has no room for another exchange; otherwise `ClientFull` if it has none
    /// for another of this client; otherwise `OutOfMemory`. The table is unchanged then.
    pub fn admit(&mut self, opening: Opening<'_>) -> Result<ExchangeNumber, AdmitError>
        requires numbers { self.old.admitted < 2 ^ 64 - 1 }
        requires now { opening.now ≤ 2 ^ 62 }
        ensures number { IfOk result (λ number. number ≡ self.old.admitted + 1) }
        ensures ok { OnOk result (self.new ≡ admitted_to (opened opening.entry) self.old) }
        ensures full { IfErr result (λ error.
            (error ≡ Full) ↔ (length self.old.items ≡ self.old.limit)) }
        ensures client_full { IfErr result (λ error.
            (error ≡ ClientFull)
            ↔ ((length self.old.items < self.old.limit)
            × (count (is_opened_by opening.entry.client) self.old.items ≡ self.old.per_client))) }
        ensures room { OnOk result (length self.old.items < self.old.limit) }
        ensures client_room { OnOk result
            (count (is_opened_by opening.entry.client) self.old.items < self.old.per_client) }
        ensures err { OnErr result (self.new ≡ self.old) }
        ensures sound { IsTable self.old }
        ensures within { AreWithin is_opened_by self.old }
    {
        if self.table.is_full() {
            return Err(AdmitError::Full);
        }
        if count_of(&self.clients, opening.client) == self.table.per_client() {
            return Err(AdmitError::ClientFull);
        }
        Ok(self.admit_in_room(opening)?)
    }

    /// `admit` without its two tests: there is room for another exchange, and for one more of the
    /// client.
    ///
    /// # Errors
    /// Out of memory. The table is unchanged then.
    pub(crate) fn admit_in_room(
        &mut self,
        opening: Opening<'_>,
    ) -> Result<ExchangeNumber, OutOfMemory>
        requires numbers { self.old.admitted < 2 ^ 64 - 1 }
        requires now { opening.now ≤ 2 ^ 62 }
        requires room { length self.old.items < self.old.limit }
        requires client_room { count (is_opened_by opening.client) self.old.items
            < self.old.per_client }
        ensures number { IfOk result (λ number. number ≡ self.old.admitted + 1) }
        ensures ok { OnOk result (self.new ≡ admitted_to (opened opening.entry) self.old) }
        ensures err { OnErr result (self.new ≡ self.old) }
        ensures sound { IsTable self.old }
    {
        self.table.laws();
        let listed = IndexedExchange::opened(self.alloc, opening)?;
        self.list(listed)
    }

    /// Adds an exchange that was just opened, after the others, to the table and to all that is
    /// kept of it, and returns its number. There is room for it, and for one more of its client.
    ///
    /// # Errors
    /// Out of memory. The table is unchanged then.
    fn list(&mut self, listed: IndexedExchange) -> Result<ExchangeNumber, OutOfMemory>
        requires numbers { self.old.admitted < 2 ^ 64 - 1 }
        requires state { listed.state ≡ Queued }
        requires sending { listed.sending ≡ None }
        requires now { listed.admitted ≤ 2 ^ 62 }
        requires room { length self.old.items < self.old.limit }
        requires client_room { count (is_opened_by listed.client) self.old.items
            < self.old.per_client }
        ensures number { IfOk result (λ number. number ≡ self.old.admitted + 1) }
        ensures ok { OnOk result (self.new ≡ admitted_to listed self.old) }
        ensures err { OnErr result (self.new ≡ self.old) }
    {
        let (opener, at) = (listed.client(), listed.origin());
        let now = listed.exchange().admitted;
        self.table.laws();
        self.send_queue.heads.laws();
        self.endpoints.laws();
        self.clients.laws();
        let sent = open_one(&mut self.endpoints, at);
        let head = head_of(&self.table, &self.index, self.queued, &Some(at), sent);
        enter(&mut self.clients, opener);
        let secret = self.index.secret;
        let (was, is) = (keys_in(None, secret), keys_of(&listed, secret));
        match self.table.admit(listed) {
            Ok(number) => {
                self.queued += 1;
                self.index.rekey(number, was, is);
                let next = head_with(head, sent, number);
                self.send_queue.heads.replace(head, next);
                self.send_queue.note(now);
                Ok(number)
            }
            Err(_) => {
                close_one(&mut self.endpoints, at, Stage::QUEUED);
                depart(&mut self.clients, Some(opener));
                Err(OutOfMemory)
            }
        }
    }

    /// Undoes an `admit`, if that was the last change: removes the exchange with the last number
    /// given, if it is still in the table, and gives that number back.
    pub fn withdraw(&mut self)
        ensures exact { self.new ≡ withdrawn self.old }
        ensures undone { (before : Table Exchange) (item : Exchange)
            → IsTable before
            → self.old ≡ admitted_to item before
            → self.new ≡ before }
    {
        let number = self.table.admitted();
        if self.get(number).is_some() {
            self.update(number, None);
            self.table.give_back();
        }
    }

    /// Removes the exchange numbered `number`, if there is one.
    pub fn close(&mut self, number: ExchangeNumber)
        ensures closed { self.new ≡ record self.old { items = without number self.old.items } }
    {
        self.update(number, None);
    }

    /// Notes that the request of the exchange numbered `number`, which was waiting for its turn, is
    /// sent, and writes the Message ID of the sending into its encoded form. The timer's timeout is
    /// at most 3,000 milliseconds, like that of a new timer.
    pub fn send(&mut self, number: ExchangeNumber, sending: Sending)
        requires queued { IfSome (item_at number self.old.items) (λ x. is_queued x ≡ true) }
        requires short { sending.timer.timeout ≤ 3000 }
        ensures sent { self.new
            ≡ record self.old { items = changed_at number (sent sending) self.old.items } }
    {
        self.update(number, Some(Transition::Send(sending)));
    }

    /// Fires the timer of the exchange numbered `number`, whose request was sent, and returns what
    /// is to be done. If the request is to be sent again, the timer counts that. `now` is in
    /// milliseconds, and at most 2^62.
    pub fn fire(&mut self, number: ExchangeNumber, now: Moment) -> Fire
        requires due { IfSome (item_at number self.old.items) (IsDue now) }
        requires now { now ≤ 2 ^ 62 }
        ensures exact { result ≡ fire_at now (item_at number self.old.items) }
        ensures fired { self.new
            ≡ record self.old { items = changed_at number (fired_exchange now) self.old.items } }
    {
        let fire = match self.get(number) {
            Some(exchange) => exchange.fire_of(now),
            None => Fire::GiveUp,
        };
        self.update(number, Some(Transition::Fire(now)));
        fire
    }

    /// Notes that the request of the exchange numbered `number`, which was sent, was acknowledged.
    pub fn acked(&mut self, number: ExchangeNumber)
        requires sent { IfSome (item_at number self.old.items) (λ x. is_sent x ≡ true) }
        ensures acked { self.new
            ≡ record self.old { items = changed_at number acked self.old.items } }
    {
        self.update(number, Some(Transition::Acknowledge));
    }

    /// Notes the answer of the exchange numbered `number`: a response, or the proxy's own answer.
    pub fn answered(&mut self, number: ExchangeNumber, answer: Answer)
        requires unanswered { IfSome (item_at number self.old.items) (λ x. is_done x ≡ false) }
        ensures answered { self.new
            ≡ record self.old { items = changed_at number (answered answer) self.old.items } }
    {
        self.update(number, Some(Transition::Answer(answer)));
    }

    /// Taints the exchanges with this target whose request was sent and whose answer hasn't come,
    /// because the target has changed (RFC 7252, 5.9.1).
    pub fn taint(&mut self, target: &Target)
        ensures tainted { self.new
            ≡ record self.old { items = all_changed (tainted_by target.now) self.old.items } }
    {
        taint_all(&mut self.table, &mut self.index, target);
    }
}
