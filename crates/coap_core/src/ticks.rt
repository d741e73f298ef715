//! The step of a tick: what is due is done, one item at a time (RFC 7252, 4.2 and 4.7).
ghost use Rattle.std.specs.Prelude.{◌≡◌, ◌≤◌, ◌<◌, ◌^◌, true, false, nat_le, length, is_some, option_map, IfSome, OnOk, OnErr};
ghost use Rattle.coap_pending.specs.Exchanges.{deadline, is_done, is_queued, IsDue};
ghost use Rattle.coap_pending.specs.Table.{item_at};
ghost use Rattle.coap_message.specs.Datagram.{holding};
ghost use Rattle.coap_forward.specs.Messages.{is_con};
ghost use Rattle.coap_model.specs.History.{is_con_datagram};
ghost use Rattle.coap_model.specs.Ticks.{abandons, item_due, moment_of, gives_up, idles, on_tick, without_idle};
ghost use Rattle.coap_pending.specs.Waiters as waiters;
ghost use Rattle.coap_pending.specs.Waiters.{is_waiting};
ghost use Rattle.coap_core.specs.Done.{DoesSo, GivesConfirmable, IsDone};
ghost use Rattle.coap_core.specs.Dues.{HasAnswer, IsWaiterDue, IsExchangeDue, IsServed, answer_at, delivery_at, exchange_at, request_timeout_at, form_at, given_at, sending_at, waiters_after, delivery_timeout_at, waiter_at};
ghost use Rattle.coap_core.specs.Needs.{CanDo, CanGoOn, CanStep, IsFound};

use crate::laws;
use crate::state::{State, silent};
use crate::timing::Timing;
use coap_endpoint::Endpoint;
use coap_exchange::{
    Exchange, ExchangeNumber, ExchangeState, Fire, Sending, Timer, Waiter, WaiterNumber,
    WaiterState,
};
use coap_forward::{gateway_timeout, put_shown};
use coap_message::{Datagram, Kind, Moment, OutOfMemory, Seq};
use coap_model::{Deed, Did, DueItem, Silence};
use coap_store::{Envelope, Store};

/// The moment from which on this is due, if it is something.
pub(crate) fn moment_of(due: Option<DueItem>) -> Option<Moment>
    ensures { result ≡ option_map moment_of due }
{
    match due? {
        DueItem::OfExchange { at, .. } | DueItem::OfWaiter { at, .. } => Some(at),
    }
}

/// An exchange or a waiter that was found due: its number, and the endpoint that is sent its
/// request, or its answer.
#[derive(Clone, Copy)]
pub(crate) struct Addressed {
    number: u64,
    to: Endpoint,
}

/// A waiter that was found due, and waits for this exchange: it is sent its answer in a message of
/// this type.
#[derive(Clone, Copy)]
pub(crate) struct Delivery {
    waiter: Addressed,
    kind: Kind,
    exchange: ExchangeNumber,
}

impl<S: Store + Drop> State<S> {
    /// Does what is due, if anything is; `due` is what is due first.
    pub(crate) fn on_tick(
        &mut self,
        timing: Timing,
        due: Option<DueItem>,
        out: &mut Datagram,
    ) -> Result<Did, OutOfMemory>
        requires due { due ≡ item_due self.old }
        requires can { CanDo (on_tick self.old timing.now timing.draw) timing.now self.old out.old }
        ensures done { IsDone (on_tick self.old timing.now timing.draw)
            result out.old out.new self.old self.new }
        ensures memory { OnErr result (GivesConfirmable (on_tick self.old timing.now timing.draw)) }
    {
        match due {
            Some(DueItem::OfExchange { at, number }) if at <= timing.now => {
                self.seek_exchange(number);
                Ok(self.on_exchange(timing, number, out))
            }
            Some(DueItem::OfWaiter { at, number }) if at <= timing.now => {
                self.on_waiter(timing, number, out)
            }
            _ => Ok(self.idle(timing.now, out)),
        }
    }

    /// What is due first; at the same moment exchanges come before waiters.
    pub(crate) fn first_due(&self) -> Option<DueItem>
        ensures { result ≡ item_due self.now }
    {
        let limits = self.setting.limits.values();
        let exchange = self
            .under_way
            .exchanges()
            .due(limits.nstart as usize, limits.exchange_ms);
        match (exchange, self.under_way.waiter_due()) {
            (Some((at, number)), Some((other, waiter))) => {
                if at <= other {
                    Some(DueItem::OfExchange { at, number })
                } else {
                    Some(DueItem::OfWaiter {
                        at: other,
                        number: waiter,
                    })
                }
            }
            (Some((at, number)), None) => Some(DueItem::OfExchange { at, number }),
            (None, Some((at, number))) => Some(DueItem::OfWaiter { at, number }),
            (None, None) => None,
        }
    }

    /// Nothing is due.
    fn idle(&mut self, now: Moment, out: &mut Datagram) -> Did
        requires { CanGoOn self.old }
        ensures { DoesSo (idles self.old now) result out.old out.new self.new }
    {
        out.clear();
        self.advance(now);
        silent(Deed::Idle)
    }

    // ---- requests

    /// Handles the exchange numbered `number`, which is due: it times out at its deadline, and
    /// before that its request is sent, sent again, or given up after its last timeout.
    fn on_exchange(&mut self, timing: Timing, number: ExchangeNumber, out: &mut Datagram) -> Did
        requires due { IsFound (IsExchangeDue self.old timing.now) number self.old.exchanges }
        requires can { CanDo (exchange_at self.old timing number) timing.now self.old out.old }
        ensures { DoesSo (exchange_at self.old timing number) result out.old out.new self.new }
    {
        let Some(exchange) = self.under_way.exchange(number) else {
            unreachable!()
        };
        if self.is_late(timing.now, exchange) {
            let silence = Silence::of(&exchange.state);
            return self.give_up(timing.now, number, silence, out);
        }
        let to = exchange.key.key().target.at;
        let due = Addressed { number, to };
        match &exchange.state {
            ExchangeState::Queued => self.send(timing, due, out),
            ExchangeState::Sent => self.on_request_timeout(timing.now, due, out),
            ExchangeState::Acked | ExchangeState::Done(_) => unreachable!(),
        }
    }

    /// Whether the deadline of an exchange has come.
    fn is_late(&self, now: Moment, exchange: &Exchange) -> bool
        ensures { result
            ≡ nat_le (deadline self.now.setting.limits.exchange_ms exchange.now) now }
    {
        now.saturating_sub(exchange.admitted) >= self.setting.limits.values().exchange_ms
    }

    /// Sends the request of an exchange to its origin, with a new Message ID. It is to be sent
    /// again until it is acknowledged or answered (RFC 7252, 4.2).
    fn send(&mut self, timing: Timing, due: Addressed, out: &mut Datagram) -> Did
        requires queued { IsFound (λ x. (is_queued x ≡ true) × (due.to ≡ x.key.target.at))
            due.number self.old.exchanges }
        requires can { CanDo (sending_at self.old timing due.number) timing.now self.old out.old }
        ensures { DoesSo (sending_at self.old timing due.number) result out.old out.new self.new }
    {
        let (asked, timer) = (self.events, Timer::start(timing.now, timing.draw));
        let id = self.take_id(timing.now);
        let sending = Sending { asked, id, timer };
        self.under_way.send(due.number, sending);
        self.put_form(due.number, out);
        self.advance(timing.now);
        Did {
            send: Some(due.to),
            deed: Deed::Sent {
                exchange: due.number,
            },
        }
    }

    /// Handles the end of the current timeout of an exchange: its request is retransmitted, with
    /// the same bytes, or given up (RFC 7252, 4.2).
    fn on_request_timeout(&mut self, now: Moment, due: Addressed, out: &mut Datagram) -> Did
        requires ended { IsFound (λ x. IsDue now x × (due.to ≡ x.key.target.at)) due.number
            self.old.exchanges }
        requires can { CanDo (request_timeout_at self.old now due.number) now self.old out.old }
        ensures { DoesSo (request_timeout_at self.old now due.number) result out.old out.new
            self.new }
    {
        match self.under_way.fire(due.number, now) {
            Fire::Again => {
                self.put_form(due.number, out);
                self.advance(now);
                Did {
                    send: Some(due.to),
                    deed: Deed::Resent {
                        exchange: due.number,
                    },
                }
            }
            Fire::GiveUp => self.give_up(now, due.number, Silence::NotAcknowledged, out),
        }
    }

    /// Writes the request of the exchange numbered `number`.
    fn put_form(&self, number: ExchangeNumber, out: &mut Datagram)
        requires there { is_some (item_at number self.now.exchanges) ≡ true }
        requires fits { length (form_at number self.now.exchanges) ≤ out.old.room }
        ensures { out.new ≡ holding out.old (form_at number self.now.exchanges) }
    {
        let Some(exchange) = self.under_way.exchange(number) else {
            unreachable!()
        };
        out.clear();
        out.put(exchange.form.as_slice());
    }

    /// Answers the exchange numbered `number` with 5.04, because no answer came in time (RFC 7252,
    /// 5.7.1 and 5.9.3.5).
    fn give_up(
        &mut self,
        now: Moment,
        number: ExchangeNumber,
        silence: Silence,
        out: &mut Datagram,
    ) -> Did
        requires events { self.old.events < 2 ^ 63 }
        requires unanswered { IfSome (item_at number self.old.exchanges) (λ x. is_done x ≡ false) }
        ensures { DoesSo (gives_up self.old now number silence) result out.old out.new self.new }
    {
        self.under_way
            .answered(number, gateway_timeout(self.alloc, now));
        out.clear();
        self.advance(now);
        silent(Deed::GaveUp {
            exchange: number,
            silence,
        })
    }

    // ---- waiters

    /// Handles the waiter numbered `number`, which is due: if it is waiting it is sent the answer
    /// of its exchange, and otherwise its answer is retransmitted or abandoned.
    fn on_waiter(
        &mut self,
        timing: Timing,
        number: WaiterNumber,
        out: &mut Datagram,
    ) -> Result<Did, OutOfMemory>
        requires due { IsFound (IsWaiterDue self.old timing.now) number self.old.waiters }
        requires can { CanDo (waiter_at self.old timing number) timing.now self.old out.old }
        ensures done { IsDone (waiter_at self.old timing number)
            result out.old out.new self.old self.new }
        ensures memory { OnErr result (GivesConfirmable (waiter_at self.old timing number)) }
    {
        self.under_way.seek_waiter(number);
        let Some(waiter) = self.under_way.waiter(number) else {
            unreachable!()
        };
        let due = Addressed {
            number,
            to: waiter.client,
        };
        match &waiter.state {
            WaiterState::Waiting(exchange) => {
                let (kind, exchange) = (waiter.kind, *exchange);
                self.put_delivery(timing.now, waiter, exchange, out);
                let delivery = Delivery {
                    waiter: due,
                    kind,
                    exchange,
                };
                self.deliver(timing, delivery, out)
            }
            WaiterState::Delivering { .. } => { Ok(self.on_delivery_timeout(timing.now, due, out)) }
        }
    }

    /// Writes what a waiter is sent for the answer of this exchange, with the next Message ID, in a
    /// message of the type of its request.
    fn put_delivery(
        &self,
        now: Moment,
        waiter: &Waiter,
        exchange: ExchangeNumber,
        out: &mut Datagram,
    )
        requires answered { HasAnswer exchange self.now.exchanges }
        requires fits { length (given_at self.now now waiter.now exchange) ≤ out.old.room }
        ensures put { out.new ≡ holding out.old (given_at self.now now waiter.now exchange) }
        ensures con { is_con_datagram out.new.bytes ≡ is_con waiter.now.kind }
    {
        let Some(awaited) = self.under_way.exchange(exchange) else {
            unreachable!()
        };
        let Some(answer) = awaited.answer() else {
            unreachable!()
        };
        laws::tokens_are_short(&waiter.token);
        let envelope = Envelope {
            kind: waiter.kind,
            id: self.next_id(),
            token: &waiter.token,
            tags: &waiter.tags,
        };
        put_shown(now, answer, awaited.is_get, envelope, out);
    }

    /// Sends a waiter its answer, which `out` holds, with the next Message ID. If no other waiter
    /// waits for the exchange, it is closed.
    fn deliver(
        &mut self,
        timing: Timing,
        delivery: Delivery,
        out: &Datagram,
    ) -> Result<Did, OutOfMemory>
        requires ready { CanStep timing.now self.old }
        requires waits { IsFound (IsServed delivery) delivery.waiter.number self.old.waiters }
        requires answered { HasAnswer delivery.exchange self.old.exchanges }
        requires written { out.now.bytes ≡ (delivery_at self.old timing delivery).bytes }
        ensures done { IsDone (delivery_at self.old timing delivery)
            result out.now out.now self.old self.new }
        ensures memory { OnErr result (is_con delivery.kind ≡ true) }
    {
        self.note_delivery(timing, delivery, out)?;
        self.take_id(timing.now);
        self.close_if_unused(delivery.exchange);
        self.advance(timing.now);
        Ok(Did {
            send: Some(delivery.waiter.to),
            deed: Deed::Delivered {
                waiter: delivery.waiter.number,
                exchange: delivery.exchange,
            },
        })
    }

    /// Notes that a waiter is sent what `out` holds, with the next Message ID. A Confirmable
    /// message is kept, to be sent again until it is acknowledged (RFC 7252, 4.2).
    fn note_delivery(
        &mut self,
        timing: Timing,
        delivery: Delivery,
        out: &Datagram,
    ) -> Result<(), OutOfMemory>
        requires waits { IfSome (item_at delivery.waiter.number self.old.waiters)
            (λ v. is_waiting v ≡ true) }
        ensures ok { OnOk result
            (self.new
            ≡ record self.old { waiters = waiters_after self.old timing delivery out.now.bytes }) }
        ensures err { OnErr result (self.new ≡ self.old) }
        ensures memory { OnErr result (is_con delivery.kind ≡ true) }
    {
        let number = delivery.waiter.number;
        match delivery.kind {
            Kind::Con => {
                let bytes = Seq::from_slice(self.alloc, out.bytes())?;
                let (id, timer) = (self.next_id(), Timer::start(timing.now, timing.draw));
                self.under_way.deliver(number, bytes, id, timer);
            }
            Kind::Non | Kind::Ack | Kind::Rst => self.under_way.close_waiter(number),
        }
        Ok(())
    }

    /// Closes an exchange if no waiter waits for it any more.
    fn close_if_unused(&mut self, exchange: ExchangeNumber)
        ensures { self.new
            ≡ record self.old {
              exchanges = without_idle exchange self.old.waiters self.old.exchanges;
            } }
    {
        self.under_way.close_if_unused(exchange);
    }

    /// Handles the end of the current timeout of a waiter that was sent its answer: the answer is
    /// retransmitted, with the same bytes, or abandoned (RFC 7252, 4.2).
    fn on_delivery_timeout(&mut self, now: Moment, due: Addressed, out: &mut Datagram) -> Did
        requires ended { IsFound (λ v. waiters.IsDue now v × (due.to ≡ v.client)) due.number
            self.old.waiters }
        requires can { CanDo (delivery_timeout_at self.old now due.number) now self.old out.old }
        ensures { DoesSo (delivery_timeout_at self.old now due.number) result out.old out.new
            self.new }
    {
        match self.under_way.fire_waiter(due.number, now) {
            Fire::GiveUp => self.abandon(now, due.number, out),
            Fire::Again => {
                self.put_answer(due.number, out);
                self.advance(now);
                Did {
                    send: Some(due.to),
                    deed: Deed::Redelivered { waiter: due.number },
                }
            }
        }
    }

    /// Writes the answer that the waiter numbered `number` was sent.
    fn put_answer(&self, number: WaiterNumber, out: &mut Datagram)
        requires told { IsFound (λ v. is_waiting v ≡ false) number self.now.waiters }
        requires fits { length (answer_at number self.now.waiters) ≤ out.old.room }
        ensures { out.new ≡ holding out.old (answer_at number self.now.waiters) }
    {
        let Some(waiter) = self.under_way.waiter(number) else {
            unreachable!()
        };
        let WaiterState::Delivering { bytes, .. } = &waiter.state else {
            unreachable!()
        };
        out.clear();
        out.put(bytes.as_slice());
    }

    /// Removes the waiter numbered `number`, which didn't acknowledge its answer in time.
    fn abandon(&mut self, now: Moment, number: WaiterNumber, out: &mut Datagram) -> Did
        requires { self.old.events < 2 ^ 63 }
        ensures { DoesSo (abandons self.old now number) result out.old out.new self.new }
    {
        self.under_way.close_waiter(number);
        out.clear();
        self.advance(now);
        silent(Deed::Abandoned { waiter: number })
    }
}
