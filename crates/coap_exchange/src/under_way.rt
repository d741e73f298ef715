//! What is under way: exchanges, and their waiters.
ghost use Rattle.std.specs.Prelude.{◌≡◌, ◌+◌, ◌-◌, ◌<◌, ◌≤◌, ◌^◌, ◌==◌, if◌then◌else◌, [], true, false, length, OnOk, OnErr, IfOk, IfSome};
ghost use Rattle.std.specs.Option.{option_copied};
ghost use Rattle.coap_pending.specs.declared.exchange.Exchange.{Exchange};
ghost use Rattle.coap_pending.specs.declared.waiter.Waiter.{Waiter};
ghost use Rattle.coap_pending.specs.Due.{first_due};
ghost use Rattle.coap_pending.specs.Exchanges.{acked, answered, fire_at, fired_exchange, is_done, is_opened_by, is_queued, is_sent, sent, tainted_by, IsDue};
ghost use Rattle.coap_exchange.specs.Opening.{opened};
ghost use Rattle.coap_pending.specs.Table.{Table, item_at, admitted_to, without, withdrawn, changed_at, all_changed, count, IsTable};
ghost use Rattle.coap_pending.specs.Waiters.{delivered, due_after, fired_waiter, is_of, is_waiting, joined, waits_for};
ghost use Rattle.coap_pending.specs.Waiters as waiters;
ghost use Rattle.coap_exchange.specs.Updates.{updated_at};

use crate::exchanges::Exchanges;
use crate::opening::Opening;
use crate::ready::{got_in, ready_in, ready_since};
use crate::waiters::Waiters;
use coap_endpoint::Target;
use coap_message::{Moment, OutOfMemory, Seq};
use coap_pending::due::sooner;
use coap_pending::{
    Exchange, ExchangeNumber, Fire, Joining, Sending, Timer, Waiter, WaiterNumber, WaiterTransition,
};
use coap_store::Answer;
use endpoint_counts::DigestedEndpoint;
use ordered_index::OrderedIndex;
use std::alloc::Global;
use std::marker::Model;

/// Exchanges, and their waiters. Its calls are those of the two tables; it also keeps which waiter
/// is to be served first, so that waiters aren't scanned for it. A contract sees the two tables.
pub struct UnderWay {
    exchanges: Exchanges,
    waiters: Waiters,
    /// For each exchange whose answer has come, and that a waiter waits for: the moment when it
    /// came, and the first of those waiters.
    ready: OrderedIndex,
}

impl Drop for UnderWay {
    fn drop(self) {
        let UnderWay {
            exchanges: _,
            waiters: _,
            ready: _,
        } = self;
    }
}

impl Model for UnderWay {
    ghost use Rattle.coap_exchange.specs.Ready.{Tables, AreReady};

    ghost Value = { Tables };

    ghost view = { λ u. record { exchanges = u.exchanges; waiters = u.waiters } };

    ghost invariant = { λ u.
        AreReady (record { exchanges = u.exchanges; waiters = u.waiters }) u.ready };
}

impl UnderWay {
    /// Two empty tables. Room to keep who is to be served first is allocated here.
    ///
    /// # Errors
    /// Out of memory.
    pub fn new(
        alloc: Global,
        exchanges: Exchanges,
        waiters: Waiters,
    ) -> Result<UnderWay, OutOfMemory>
        requires exchanges { exchanges.items ≡ [] }
        requires waiters { waiters.items ≡ [] }
        ensures exact { IfOk result (λ under_way.
            under_way ≡ record { exchanges = exchanges; waiters = waiters }) }
    {
        let ready = OrderedIndex::new(alloc, waiters.limit())?;
        Ok(UnderWay {
            exchanges,
            waiters,
            ready,
        })
    }

    /// The exchanges.
    pub fn exchanges(&self) -> &Exchanges
        ensures exact { result.now ≡ self.now.exchanges }
    {
        &self.exchanges
    }

    /// The waiters.
    pub fn waiters(&self) -> &Waiters
        ensures exact { result.now ≡ self.now.waiters }
    {
        &self.waiters
    }

    /// The exchange numbered `number`: `Exchanges::get`.
    pub fn exchange(&self, number: ExchangeNumber) -> Option<&Exchange>
        ensures exact { option_copied result ≡ item_at number self.now.exchanges.items }
        ensures sound { IsTable self.now.exchanges }
    {
        self.exchanges.get(number)
    }

    /// The waiter numbered `number`: `Waiters::get`.
    pub fn waiter(&self, number: WaiterNumber) -> Option<&Waiter>
        ensures exact { option_copied result ≡ item_at number self.now.waiters.items }
        ensures sound { IsTable self.now.waiters }
    {
        self.waiters.get(number)
    }

    /// The moment when the first waiter is due, in milliseconds, and its number: that of
    /// `Waiters::due`.
    pub fn waiter_due(&self) -> Option<(Moment, WaiterNumber)>
        ensures exact { result
            ≡ first_due (due_after self.now.exchanges.items) self.now.waiters.items }
    {
        sooner(self.waiters.first_end(), self.ready.first())
    }

    /// Opens an exchange: `Exchanges::admit`, where there is room for it, and for one more that its
    /// client opens.
    ///
    /// # Errors
    /// Out of memory. Nothing is changed then.
    pub fn open(&mut self, opening: Opening<'_>) -> Result<ExchangeNumber, OutOfMemory>
        requires numbers { self.old.exchanges.admitted < 2 ^ 64 - 1 }
        requires now { opening.now ≤ 2 ^ 62 }
        requires room { length self.old.exchanges.items < self.old.exchanges.limit }
        requires client_room { count (is_opened_by opening.client) self.old.exchanges.items
            < self.old.exchanges.per_client }
        ensures number { IfOk result (λ number. number ≡ self.old.exchanges.admitted + 1) }
        ensures ok { OnOk result
            (self.new
            ≡ record self.old {
              exchanges = admitted_to (opened opening.entry) self.old.exchanges;
            }) }
        ensures err { OnErr result (self.new ≡ self.old) }
        ensures sound { IsTable self.old.exchanges }
    {
        self.exchanges.admit_in_room(opening)
    }

    /// Undoes an `open`: `Exchanges::withdraw`.
    pub fn withdraw_exchange(&mut self)
        ensures exact { self.new
            ≡ record self.old { exchanges = withdrawn self.old.exchanges } }
        ensures undone { (before : Table Exchange) (item : Exchange)
            → IsTable before
            → self.old.exchanges ≡ admitted_to item before
            → self.new ≡ record self.old { exchanges = before } }
    {
        let number = self.exchanges.admitted();
        self.ready.laws();
        let was = ready_in(&self.exchanges, &self.waiters, number);
        self.exchanges.withdraw();
        self.ready.replace(was, None);
    }

    /// Notes that a request is sent: `Exchanges::send`.
    pub fn send(&mut self, number: ExchangeNumber, sending: Sending)
        requires queued { IfSome (item_at number self.old.exchanges.items)
            (λ x. is_queued x ≡ true) }
        requires short { sending.timer.timeout ≤ 3000 }
        ensures sent { self.new
            ≡ record self.old {
              exchanges =
                  record self.old.exchanges {
                    items = changed_at number (sent sending) self.old.exchanges.items;
                  };
            } }
    {
        self.seek_exchange(number);
        self.exchanges.send(number, sending);
    }

    /// Fires the timer of a request that was sent: `Exchanges::fire`.
    pub fn fire(&mut self, number: ExchangeNumber, now: Moment) -> Fire
        requires due { IfSome (item_at number self.old.exchanges.items) (IsDue now) }
        requires now { now ≤ 2 ^ 62 }
        ensures exact { result ≡ fire_at now (item_at number self.old.exchanges.items) }
        ensures fired { self.new
            ≡ record self.old {
              exchanges =
                  record self.old.exchanges {
                    items = changed_at number (fired_exchange now) self.old.exchanges.items;
                  };
            } }
    {
        self.seek_exchange(number);
        self.exchanges.fire(number, now)
    }

    /// Notes that a request was acknowledged: `Exchanges::acked`.
    pub fn acked(&mut self, number: ExchangeNumber)
        requires sent { IfSome (item_at number self.old.exchanges.items) (λ x. is_sent x ≡ true) }
        ensures acked { self.new
            ≡ record self.old {
              exchanges =
                  record self.old.exchanges {
                    items = changed_at number acked self.old.exchanges.items;
                  };
            } }
    {
        self.seek_exchange(number);
        self.exchanges.acked(number);
    }

    /// Looks for the exchange numbered `number`, so that the calls about it that follow find it at
    /// once.
    pub fn seek_exchange(&mut self, number: ExchangeNumber)
        ensures { self.new ≡ self.old }
    {
        self.exchanges.seek(number);
    }

    /// Looks for the waiter numbered `number`, and for the exchange that it waits for, likewise for
    /// the calls about them.
    pub fn seek_waiter(&mut self, number: WaiterNumber)
        ensures { self.new ≡ self.old }
    {
        self.waiters.seek(number);
        if let Some(exchange) = self.waiters.awaited(number) {
            self.exchanges.seek(exchange);
        }
    }

    /// Looks for what is counted of a client that is to open an exchange and to wait for it,
    /// likewise for the calls about it.
    pub fn seek_opener(&mut self, client: DigestedEndpoint)
        ensures { self.new ≡ self.old }
    {
        self.exchanges.seek_client(client);
        self.waiters.seek_client(client);
    }

    /// `seek_opener`, for one that is only to wait.
    pub fn seek_joiner(&mut self, client: DigestedEndpoint)
        ensures { self.new ≡ self.old }
    {
        self.waiters.seek_client(client);
    }

    /// Notes an answer: `Exchanges::answered`. The first waiter of its exchange is then to be
    /// served.
    pub fn answered(&mut self, number: ExchangeNumber, answer: Answer)
        requires unanswered { IfSome (item_at number self.old.exchanges.items)
            (λ x. is_done x ≡ false) }
        ensures answered { self.new
            ≡ record self.old {
              exchanges =
                  record self.old.exchanges {
                    items = changed_at number (answered answer) self.old.exchanges.items;
                  };
            } }
    {
        self.seek_exchange(number);
        self.note_answer(number, answer);
    }

    /// `answered`, once the exchange was looked for.
    fn note_answer(&mut self, number: ExchangeNumber, answer: Answer)
        requires unanswered { IfSome (item_at number self.old.exchanges.items)
            (λ x. is_done x ≡ false) }
        ensures answered { self.new
            ≡ record self.old {
              exchanges =
                  record self.old.exchanges {
                    items = changed_at number (answered answer) self.old.exchanges.items;
                  };
            } }
    {
        self.ready.laws();
        self.exchanges.answered(number, answer);
        let is = ready_in(&self.exchanges, &self.waiters, number);
        self.ready.replace(None, is);
    }

    /// Taints the exchanges of a changed target: `Exchanges::taint`.
    pub fn taint(&mut self, target: &Target)
        ensures tainted { self.new
            ≡ record self.old {
              exchanges =
                  record self.old.exchanges {
                    items = all_changed (tainted_by target.now) self.old.exchanges.items;
                  };
            } }
    {
        self.exchanges.taint(target);
    }

    /// Removes an exchange for which no waiter waits any more: `Exchanges::close`. Nothing happens
    /// while one does.
    pub fn close_if_unused(&mut self, number: ExchangeNumber)
        ensures closed { self.new
            ≡ record self.old {
              exchanges =
                  record self.old.exchanges {
                    items =
                        if count (waits_for number) self.old.waiters.items == 0
                        then without number self.old.exchanges.items
                        else self.old.exchanges.items;
                  };
            } }
    {
        self.waiters.laws();
        if self.waiters.first_waiting(number).is_none() {
            self.exchanges.close(number);
        }
    }

    /// Adds a waiter for an exchange: `Waiters::admit`, where there is room for it, and for one
    /// more of its client, whose digest is made already.
    ///
    /// # Errors
    /// Out of memory. Nothing is changed then.
    pub fn join(
        &mut self,
        joining: Joining,
        client: DigestedEndpoint,
    ) -> Result<WaiterNumber, OutOfMemory>
        requires client { client ≡ joining.client }
        requires numbers { self.old.waiters.admitted < 2 ^ 64 - 1 }
        requires room { length self.old.waiters.items < self.old.waiters.limit }
        requires client_room { count (is_of joining.client) self.old.waiters.items
            < self.old.waiters.per_client }
        ensures number { IfOk result (λ number. number ≡ self.old.waiters.admitted + 1) }
        ensures ok { OnOk result
            (self.new
            ≡ record self.old { waiters = admitted_to (joined joining) self.old.waiters }) }
        ensures err { OnErr result (self.new ≡ self.old) }
        ensures sound { IsTable self.old.waiters }
    {
        let exchange = Some(joining.exchange);
        self.ready.laws();
        let got = got_in(&self.exchanges, exchange);
        let was = ready_since(got, &self.waiters, exchange);
        let number = self.waiters.admit_in_room(joining, client)?;
        let is = ready_since(got, &self.waiters, exchange);
        self.ready.replace(was, is);
        Ok(number)
    }

    /// Undoes a `join`: `Waiters::withdraw`.
    pub fn withdraw_waiter(&mut self)
        ensures exact { self.new ≡ record self.old { waiters = withdrawn self.old.waiters } }
        ensures undone { (before : Table Waiter) (item : Waiter)
            → IsTable before
            → self.old.waiters ≡ admitted_to item before
            → self.new ≡ record self.old { waiters = before } }
    {
        let exchange = self.waiters.awaited(self.waiters.admitted());
        self.ready.laws();
        let got = got_in(&self.exchanges, exchange);
        let was = ready_since(got, &self.waiters, exchange);
        self.waiters.withdraw();
        let is = ready_since(got, &self.waiters, exchange);
        self.ready.replace(was, is);
    }

    /// Removes a waiter: `Waiters::close`.
    pub fn close_waiter(&mut self, number: WaiterNumber)
        ensures closed { self.new
            ≡ record self.old {
              waiters =
                  record self.old.waiters { items = without number self.old.waiters.items };
            } }
    {
        self.seek_waiter(number);
        self.update_waiter(number, None);
    }

    /// Notes that a waiter was sent its answer: `Waiters::deliver`.
    pub fn deliver(&mut self, number: WaiterNumber, bytes: Seq<u8>, id: u16, timer: Timer)
        requires waiting { IfSome (item_at number self.old.waiters.items)
            (λ w. is_waiting w ≡ true) }
        requires short { timer.timeout ≤ 3000 }
        ensures delivered { self.new
            ≡ record self.old {
              waiters =
                  record self.old.waiters {
                    items = changed_at number (delivered bytes id timer) self.old.waiters.items;
                  };
            } }
    {
        self.seek_waiter(number);
        self.update_waiter(number, Some(WaiterTransition::Deliver { bytes, id, timer }));
    }

    /// Fires the timer of a waiter that was sent its answer: `Waiters::fire`.
    pub fn fire_waiter(&mut self, number: WaiterNumber, now: Moment) -> Fire
        requires due { IfSome (item_at number self.old.waiters.items) (waiters.IsDue now) }
        requires now { now ≤ 2 ^ 62 }
        ensures exact { result ≡ waiters.fire_at now (item_at number self.old.waiters.items) }
        ensures fired { self.new
            ≡ record self.old {
              waiters =
                  record self.old.waiters {
                    items = changed_at number (fired_waiter now) self.old.waiters.items;
                  };
            } }
    {
        self.seek_waiter(number);
        self.waiters.laws();
        self.waiters.fire(number, now)
    }

    /// `Waiters::update`. Which waiter of its exchange is to be served first follows.
    #[inline(always)] // which change it is, each caller knows
    fn update_waiter(&mut self, number: WaiterNumber, change: Option<WaiterTransition>)
        requires { waiters.CanUpdate change (item_at number self.old.waiters.items) }
        ensures { self.new
            ≡ record self.old {
              waiters =
                  record self.old.waiters {
                    items = updated_at waiters.after_transition change number self.old.waiters.items;
                  };
            } }
    {
        let exchange = self.waiters.awaited(number);
        self.ready.laws();
        let got = got_in(&self.exchanges, exchange);
        let was = ready_since(got, &self.waiters, exchange);
        self.waiters.update(number, change);
        let is = ready_since(got, &self.waiters, exchange);
        self.ready.replace(was, is);
    }
}
