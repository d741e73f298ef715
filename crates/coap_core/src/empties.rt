//! The step of an Empty message: an acknowledgement or a Reset of a request that was sent, or of an
//! answer (RFC 7252, 4.2 and 4.3).
ghost use Rattle.std.specs.Prelude.{◌≡◌, true, is_some};
ghost use Rattle.coap_pending.specs.Table.{item_at};
ghost use Rattle.coap_forward.specs.Messages.{is_bare};
ghost use Rattle.coap_model.specs.Deeds.{outcome_of};
ghost use Rattle.coap_model.specs.Empties.{acknowledges, closes, on_delivery, on_exchange, on_empty};
ghost use Rattle.coap_model.specs.History.{grown_of};
ghost use Rattle.coap_core.specs.Arrivals.{of_arrival, of_grown};
ghost use Rattle.coap_core.specs.Done.{DoesSo, resets};
ghost use Rattle.coap_core.specs.Needs.{CanGoOn, IsSentAt};

use crate::arrival::Arrival;
use crate::state::{State, silent};
use coap_endpoint::Endpoint;
use coap_exchange::{ExchangeNumber, WaiterNumber};
use coap_forward::bad_gateway;
use coap_message::{Datagram, Kind, MessageRef, Moment};
use coap_model::{Deed, Did, Storing, Unprocessed};
use coap_store::Store;

impl<S: Store + Drop> State<S> {
    /// Handles an Empty acknowledgement or Reset: of a request that was sent, or else of an answer.
    pub(crate) fn on_empty(&mut self, arrival: Arrival<'_, '_>, out: &mut Datagram) -> Did
        requires can { CanGoOn self.old }
        requires bare { is_bare arrival.message.now ≡ true }
        ensures { DoesSo
            (of_grown (on_empty self.old) arrival.entry (grown_of (outcome_of result.deed)))
            result out.old out.new self.new }
    {
        let id = arrival.message.id();
        let exchanges = self.under_way.exchanges();
        match exchanges.sent_as(arrival.from, id, arrival.now) {
            Some(number) => self.on_sent(arrival, number, out),
            None => self.on_delivery(arrival, out),
        }
    }

    /// Handles an acknowledgement or a Reset of the request of the exchange numbered `number`. If
    /// that was acknowledged or answered before, the message can only be about an answer.
    fn on_sent(
        &mut self,
        arrival: Arrival<'_, '_>,
        number: ExchangeNumber,
        out: &mut Datagram,
    ) -> Did
        requires can { CanGoOn self.old }
        requires bare { is_bare arrival.message.now ≡ true }
        requires there { is_some (item_at number self.old.exchanges) ≡ true }
        ensures { DoesSo
            (of_grown (on_exchange self.old) arrival.entry (grown_of (outcome_of result.deed))
            number (item_at number self.old.exchanges))
            result out.old out.new self.new }
    {
        let Some(exchange) = self.under_way.exchange(number) else {
            unreachable!()
        };
        if !exchange.is_sent() {
            return self.on_delivery(arrival, out);
        }
        match arrival.message.kind() {
            Kind::Ack => self.acknowledge(arrival.now, number, out),
            Kind::Con | Kind::Non | Kind::Rst => self.reset(arrival.now, number, out),
        }
    }

    /// Notes that the request of the exchange numbered `number` was acknowledged: its answer is to
    /// come as a separate response.
    fn acknowledge(&mut self, now: Moment, number: ExchangeNumber, out: &mut Datagram) -> Did
        requires can { CanGoOn self.old }
        requires sent { IsSentAt number self.old.exchanges }
        ensures { DoesSo (acknowledges self.old now number) result out.old out.new self.new }
    {
        self.under_way.acked(number);
        out.clear();
        self.advance(now);
        silent(Deed::Acknowledged { exchange: number })
    }

    /// Answers the exchange numbered `number`, whose request was rejected, with 5.02 (RFC 7252, 4.2
    /// and 5.9.3.3). Doesn't allocate.
    fn reset(&mut self, now: Moment, number: ExchangeNumber, out: &mut Datagram) -> Did
        requires can { CanGoOn self.old }
        requires sent { IsSentAt number self.old.exchanges }
        ensures { DoesSo (resets self.old now number) result out.old out.new self.new }
    {
        self.under_way
            .answered(number, bad_gateway(self.alloc, now));
        out.clear();
        self.advance(now);
        silent(Deed::Answered {
            exchange: number,
            storing: Storing::NotStored,
        })
    }

    /// Handles an acknowledgement or a Reset of an answer that a waiter was sent. If there is no
    /// such answer, the message is ignored.
    fn on_delivery(&mut self, arrival: Arrival<'_, '_>, out: &mut Datagram) -> Did
        requires can { CanGoOn self.old }
        ensures { DoesSo (of_arrival (on_delivery self.old) arrival.entry) result out.old out.new
            self.new }
    {
        let id = arrival.message.id();
        let waiters = self.under_way.waiters();
        match waiters.sent_as(arrival.from, id, arrival.now) {
            Some(number) => self.close_waiter(arrival.now, number, out),
            None => self.ignore(arrival.now, Unprocessed::Nothing, out),
        }
    }

    /// Removes the waiter numbered `number`, which has acknowledged its answer, or rejected it.
    fn close_waiter(&mut self, now: Moment, number: WaiterNumber, out: &mut Datagram) -> Did
        requires { CanGoOn self.old }
        ensures { DoesSo (closes self.old now number) result out.old out.new self.new }
    {
        self.under_way.close_waiter(number);
        out.clear();
        self.advance(now);
        silent(Deed::Closed { waiter: number })
    }
}
