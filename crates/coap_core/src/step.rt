//! One step: a datagram or a tick at a moment.
ghost use Rattle.std.specs.Prelude.{◌≡◌, ◌≤◌, ◌<◌, [], true, length, None, Some, IfOk, IsOk, OnErr, option_map};
ghost use Rattle.coap_model.specs.Deeds.{outcome_of, unread};
ghost use Rattle.coap_model.specs.Events.{tick};
ghost use Rattle.coap_message.specs.declared.kind.Kind.{Kind};
ghost use Rattle.coap_message.specs.Datagram.{holding};
ghost use Rattle.coap_forward.specs.Messages.{is_empty};
ghost use Rattle.coap_model.specs.History.{grown_of};
ghost use Rattle.coap_model.specs.State.{ignores, rejects, unprocessed};
ghost use Rattle.coap_model.specs.Step.{message_in, on_message, on_datagram, step_of};
ghost use Rattle.coap_model.specs.Ticks.{item_due, on_tick};
ghost use Rattle.coap_core.specs.Arrivals.{of_grown};
ghost use Rattle.coap_core.specs.Events.{HoldsEmpty, IsUnread, seen};
ghost use Rattle.coap_core.specs.Done.{DoesSo, GivesConfirmable, IsDoneBy, wants_memory};
ghost use Rattle.coap_core.specs.Needs.{CanDo, CanGoOn};

use crate::arrival::Arrival;
use crate::event::Event;
use crate::request_target::CacheQuery;
use crate::state::{State, silent};
use crate::timing::Timing;
use coap_endpoint::Endpoint;
use coap_forward::put_bare;
use coap_message::{Code, Datagram, Head, Kind, MessageRef, Moment, OutOfMemory, Token, head_of};
use coap_model::{Deed, Did, DueItem, Unprocessed};
use coap_store::Store;

impl<S: Store + Drop> State<S> {
    /// One step. `due` is the item that is due first, as `first_due` returns it; what a request
    /// asks for is read into `query`. If it runs out of memory, nothing has happened, and `out` is
    /// empty.
    pub(crate) fn step(
        &mut self,
        timing: Timing,
        event: Event<'_>,
        due: Option<DueItem>,
        query: &mut CacheQuery,
        out: &mut Datagram,
    ) -> Result<Did, OutOfMemory>
        requires due { due ≡ item_due self.old }
        requires can { CanDo (step_of self.old timing.now timing.draw true (seen event))
            timing.now self.old out.old }
        ensures exact { IfOk result (λ did.
            DoesSo
            (step_of self.old timing.now timing.draw (grown_of (outcome_of did.deed))
            (seen event.entry))
            did out.old out.new self.new) }
        ensures err { OnErr result (self.new ≡ self.old) }
        ensures none { OnErr result (out.new ≡ holding out.old []) }
        ensures memory { OnErr result
            (wants_memory (step_of self.old timing.now timing.draw true (seen event.entry))
            ≡ true) }
        ensures ticks { seen event.entry ≡ tick
            → OnErr result (GivesConfirmable (on_tick self.old timing.now timing.draw)) }
        ensures unread { IsUnread self.old.setting.limits.datagram (seen event.entry)
            → IsOk result }
        ensures empty { HoldsEmpty self.old.setting.limits.datagram (seen event.entry)
            → IsOk result }
    {
        let done = match event {
            Event::Datagram { from, bytes } => {
                self.on_datagram(timing.now, from, bytes, query, out)
            }
            Event::Tick => self.on_tick(timing, due, out),
        };
        if done.is_err() {
            out.clear();
        }
        done
    }

    /// Handles a datagram by its message, or else by its head: without one it is ignored.
    fn on_datagram(
        &mut self,
        now: Moment,
        source: Endpoint,
        bytes: &[u8],
        query: &mut CacheQuery,
        out: &mut Datagram,
    ) -> Result<Did, OutOfMemory>
        requires can { CanDo (on_datagram self.old now true source bytes.now) now self.old out.old }
        ensures done { IsDoneBy (λ grown. on_datagram self.old now grown source bytes.now)
            result out.old out.new self.old self.new }
        ensures memory { OnErr result
            (wants_memory (on_datagram self.old now true source bytes.now) ≡ true) }
        ensures unread { message_in self.old.setting.limits.datagram bytes.now ≡ None
            → IsOk result }
        ensures empty { option_map (λ m. is_empty m.code)
            (message_in self.old.setting.limits.datagram bytes.now)
            ≡ Some true
            → IsOk result }
    {
        if let Some(message) = self.message_in(bytes) {
            let arrival = Arrival {
                now,
                from: source,
                message: &message,
            };
            return self.on_message(arrival, query, out);
        }
        match head_of(bytes) {
            Some(head) => {
                let why = self.unread(bytes);
                Ok(self.unprocessed(now, source, head, why, out))
            }
            None => Ok(self.ignore(now, self.unread(bytes), out)),
        }
    }

    /// The message that a datagram encodes, if it isn't too long.
    #[tactic(auto, unfolding(coap_model::specs::Step::message_in))]
    fn message_in<'a>(&self, bytes: &'a [u8]) -> Option<MessageRef<'a>>
        ensures { result ≡ message_in self.now.setting.limits.datagram bytes.now }
    {
        if bytes.len() > self.setting.limits.values().datagram as usize {
            return None;
        }
        MessageRef::read(bytes).ok()
    }

    /// Why a datagram that holds no message isn't processed.
    fn unread(&self, bytes: &[u8]) -> Unprocessed
        ensures { result ≡ unread self.now.setting.limits.datagram bytes.now }
    {
        if bytes.len() > self.setting.limits.values().datagram as usize {
            Unprocessed::Length
        } else {
            Unprocessed::Format
        }
    }

    /// Handles a request, a response or an Empty message; anything else isn't processed.
    #[tactic(auto, using(crate::proofs::Read::no_request, crate::proofs::Read::no_response))]
    fn on_message(
        &mut self,
        arrival: Arrival<'_, '_>,
        query: &mut CacheQuery,
        out: &mut Datagram,
    ) -> Result<Did, OutOfMemory>
        requires can { CanDo (of_grown (on_message self.old) arrival true)
            arrival.now self.old out.old }
        ensures done { IsDoneBy (of_grown (on_message self.old) arrival.entry)
            result out.old out.new self.old self.new }
        ensures memory { OnErr result
            (wants_memory (of_grown (on_message self.old) arrival.entry true) ≡ true) }
        ensures empty { is_empty arrival.entry.message.now.code ≡ true → IsOk result }
    {
        match arrival.message.kind() {
            Kind::Con | Kind::Non if arrival.message.code().is_request() => {
                self.on_request(arrival, query, out)
            }
            Kind::Con | Kind::Non | Kind::Ack if arrival.message.code().is_response() => {
                self.on_response(arrival, out)
            }
            Kind::Ack | Kind::Rst if arrival.message.code() == Code::EMPTY => {
                Ok(self.on_empty(arrival, out))
            }
            kind => {
                let head = Head {
                    kind,
                    code: arrival.message.code(),
                    id: arrival.message.id(),
                };
                let why = Unprocessed::of(kind, arrival.message.code());
                Ok(self.unprocessed(arrival.now, arrival.from, head, why, out))
            }
        }
    }

    /// Rejects a Confirmable message that can't be processed, and ignores any other: `head` is its
    /// start.
    fn unprocessed(
        &mut self,
        now: Moment,
        source: Endpoint,
        head: Head,
        why: Unprocessed,
        out: &mut Datagram,
    ) -> Did
        requires can { CanGoOn self.old }
        requires fits { length (unprocessed self.old now source head.kind head.id why).bytes
            ≤ out.old.room }
        ensures { DoesSo (unprocessed self.old now source head.kind head.id why) result
            out.old out.new self.new }
    {
        match head.kind {
            Kind::Con => self.reject(now, source, head.id, why, out),
            Kind::Non | Kind::Ack | Kind::Rst => self.ignore(now, why, out),
        }
    }

    /// Rejects a message that can't be processed with a Reset, which has its Message ID (RFC 7252,
    /// 4.2).
    pub(crate) fn reject(
        &mut self,
        now: Moment,
        source: Endpoint,
        id: u16,
        why: Unprocessed,
        out: &mut Datagram,
    ) -> Did
        requires can { CanGoOn self.old }
        requires fits { length (rejects self.old now source id why).bytes ≤ out.old.room }
        ensures { DoesSo (rejects self.old now source id why) result out.old out.new self.new }
    {
        let head = Head {
            kind: Kind::Rst,
            code: Code::EMPTY,
            id,
        };
        put_bare(head, &Token::empty(), out);
        self.advance(now);
        Did {
            send: Some(source),
            deed: Deed::Rejected(why),
        }
    }

    /// Ignores a message.
    pub(crate) fn ignore(&mut self, now: Moment, why: Unprocessed, out: &mut Datagram) -> Did
        requires { CanGoOn self.old }
        ensures { DoesSo (ignores self.old now why) result out.old out.new self.new }
    {
        out.clear();
        self.advance(now);
        silent(Deed::Ignored(why))
    }
}
