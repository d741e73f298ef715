//! The step of a response: piggybacked in an acknowledgement, or separate in a message of its own
//! (RFC 7252, 5.2.1 to 5.2.3 and 5.3.2).
ghost use Rattle.std.specs.Prelude.{◌≡◌, ◌≤◌, ◌&&◌, [], ◌∷◌, true, false, length, option_map, IfOk, IfSome, OnOk, OnErr};
ghost use Rattle.coap_message.specs.Datagram.{holding};
ghost use Rattle.coap_endpoint.specs.Endpoint.{same_endpoint};
ghost use Rattle.coap_forward.specs.Messages.{is_con};
ghost use Rattle.coap_forward.specs.Changes.{changed_by};
ghost use Rattle.coap_model.specs.Deeds.{outcome_of};
ghost use Rattle.coap_model.specs.Answers.{answer_for, may_store, with_changed};
ghost use Rattle.coap_pending.specs.Exchanges.{is_in_flight};
ghost use Rattle.coap_model.specs.Responses.{has_id, awaiting, on_response};
ghost use Rattle.coap_model.specs.History.{grown_of};
ghost use Rattle.coap_core.specs.Arrivals.{of_arrival, of_grown};
ghost use Rattle.coap_core.specs.Storing.{IsKept, answering_at, not_confirmable_step, confirmable_step, new_confirmable_step, if_storable, targets_in, accepted, accepted_bytes, accepted_to};
ghost use Rattle.coap_core.specs.Done.{DoesSo, IsDoneBy, wants_memory};
ghost use Rattle.coap_core.specs.Needs.{CanDo, CanGoOn, CanRemember, IsNew, IsUnansweredAt};

use crate::arrival::Arrival;
use crate::known::put_acceptance;
use crate::state::State;
use coap_endpoint::{Endpoint, Target};
use coap_exchange::{Answer, Exchange, ExchangeNumber};
use coap_forward::{AnsweredRequest, answer_of, created_by, is_change, is_storable, number_of};
use coap_message::{Datagram, Kind, MessageRef, Moment, OutOfMemory};
use coap_model::{Deed, Did, Storing, Unprocessed};
use coap_store::{Put, SharedKey, Store, Stored};
use std::alloc::Global;

/// Whether a response has the right Message ID: in an acknowledgement that of the request, in a
/// message of its own any.
fn has_id(response: &MessageRef<'_>, exchange: &Exchange) -> bool
    ensures { result ≡ has_id response.now exchange.now.sending }
{
    match response.kind() {
        Kind::Ack => exchange.was_sent_with(response.id()),
        Kind::Con | Kind::Non | Kind::Rst => true,
    }
}

/// Whether an exchange with the right token awaits this response from this endpoint.
fn awaits(exchange: &Exchange, source: Endpoint, response: &MessageRef<'_>) -> bool
    ensures { result
        ≡ ((is_in_flight exchange.now && has_id response.now exchange.now.sending)
        && same_endpoint exchange.now.key.target.at source) }
{
    exchange.is_in_flight() && has_id(response, exchange) && exchange.key.key().target.at == source
}

/// Whether an answer may be stored: it is for a GET, and its target wasn't changed since the GET
/// was sent (RFC 7252, 5.9.1).
fn may_store(exchange: &Exchange, answer: &Answer) -> bool
    ensures { result ≡ may_store exchange.now answer.now }
{
    exchange.is_get && !exchange.tainted && is_storable(answer)
}

/// What a response changes.
pub(crate) struct Changed {
    /// The target of its request.
    target: Target,
    /// The target that the Location options of a 2.01 name.
    created: Option<Target>,
}

impl Drop for Changed {
    fn drop(self) {
        let Changed {
            target: _,
            created: _,
        } = self;
    }
}

/// What a response to a request for this target changes, if anything.
#[tactic(auto, unfolding(coap_forward::specs::Changes::changed_by))]
fn changed_by(
    alloc: Global,
    target: &Target,
    response: &MessageRef<'_>,
) -> Result<Option<Changed>, OutOfMemory>
    ensures { IfOk result (λ changed. targets_in changed ≡ changed_by target.now response.now) }
{
    if !is_change(response.code()) {
        return Ok(None);
    }
    let same_target = target.copied()?;
    let created = created_by(alloc, target, response)?;
    Ok(Some(Changed {
        target: same_target,
        created,
    }))
}

impl<S: Store + Drop> State<S> {
    /// Handles a response, by whether it is Confirmable.
    pub(crate) fn on_response(
        &mut self,
        arrival: Arrival<'_, '_>,
        out: &mut Datagram,
    ) -> Result<Did, OutOfMemory>
        requires can { CanDo (of_grown (on_response self.old) arrival true)
            arrival.now self.old out.old }
        ensures done { IsDoneBy (of_grown (on_response self.old) arrival.entry)
            result out.old out.new self.old self.new }
        ensures memory { OnErr result
            (wants_memory (of_grown (on_response self.old) arrival.entry true) ≡ true) }
    {
        match arrival.message.kind() {
            Kind::Con => self.on_confirmable(arrival, out),
            Kind::Non | Kind::Ack | Kind::Rst => self.on_not_confirmable(arrival, out),
        }
    }

    /// Handles a response that isn't Confirmable.
    fn on_not_confirmable(
        &mut self,
        arrival: Arrival<'_, '_>,
        out: &mut Datagram,
    ) -> Result<Did, OutOfMemory>
        requires can { CanGoOn self.old }
        requires other { is_con arrival.message.now.kind ≡ false }
        requires room { self.old.setting.limits.datagram ≤ out.old.room }
        ensures done { IsDoneBy (of_grown (not_confirmable_step self.old) arrival.entry)
            result out.old out.new self.old self.new }
        ensures memory { OnErr result
            (wants_memory (of_grown (not_confirmable_step self.old) arrival.entry true) ≡ true) }
    {
        match self.awaiting(arrival.from, arrival.message) {
            Some(number) => {
                self.seek_exchange(number);
                self.answer(arrival, number, out)
            }
            None => Ok(self.ignore(arrival.now, Unprocessed::NoExchange, out)),
        }
    }

    /// Handles a Confirmable response: a duplicate gets the same reply again.
    fn on_confirmable(
        &mut self,
        arrival: Arrival<'_, '_>,
        out: &mut Datagram,
    ) -> Result<Did, OutOfMemory>
        requires con { is_con arrival.message.now.kind ≡ true }
        requires can { CanDo (of_grown (confirmable_step self.old) arrival true)
            arrival.now self.old out.old }
        ensures done { IsDoneBy (of_grown (confirmable_step self.old) arrival.entry)
            result out.old out.new self.old self.new }
        ensures memory { OnErr result
            (wants_memory (of_grown (confirmable_step self.old) arrival.entry true) ≡ true) }
    {
        if let Some(did) = self.repeat(arrival, out) {
            self.advance(arrival.now);
            return Ok(did);
        }
        self.on_new_confirmable(arrival, out)
    }

    /// Handles a new Confirmable response. It is remembered if an exchange awaits it, and so there
    /// has to be room for that.
    fn on_new_confirmable(
        &mut self,
        arrival: Arrival<'_, '_>,
        out: &mut Datagram,
    ) -> Result<Did, OutOfMemory>
        requires can { CanGoOn self.old }
        requires con { is_con arrival.message.now.kind ≡ true }
        requires new { IsNew arrival.now arrival.from arrival.message.now self.old }
        requires room { self.old.setting.limits.datagram ≤ out.old.room }
        requires fits { length
            (of_grown (new_confirmable_step self.old) arrival true).bytes
            ≤ out.old.room }
        ensures done { IsDoneBy (of_grown (new_confirmable_step self.old) arrival.entry)
            result out.old out.new self.old self.new }
        ensures memory { OnErr result
            (wants_memory (of_grown (new_confirmable_step self.old) arrival.entry true) ≡ true) }
    {
        let Some(number) = self.awaiting(arrival.from, arrival.message) else {
            let why = Unprocessed::NoExchange;
            return Ok(self.reject(arrival.now, arrival.from, arrival.message.id(), why, out));
        };
        if !self.has_record_room(arrival.now, arrival.from, arrival.message.kind()) {
            return Ok(self.drop_message(arrival.now, arrival.message.kind(), out));
        }
        self.seek_exchange(number);
        self.answer(arrival, number, out)
    }

    /// The number of the exchange that awaits this response from this endpoint: it is matched by
    /// endpoint and token, and in an acknowledgement also by Message ID.
    pub(crate) fn awaiting(
        &self,
        source: Endpoint,
        response: &MessageRef<'_>,
    ) -> Option<ExchangeNumber>
        ensures exact { result ≡ option_map (λ x. x.0) (awaiting self.now source response.now) }
        ensures unanswered { IfSome result (λ number. IsUnansweredAt number self.now.exchanges) }
    {
        let _laws = self.under_way.exchanges().admitted();
        let number = number_of(self.setting.salt, response.token())?;
        let exchange = self.under_way.exchange(number)?;
        if awaits(exchange, source, response) {
            Some(number)
        } else {
            None
        }
    }

    /// Records the response as the answer of the exchange numbered `number`. What the response
    /// changes is first marked and tainted, and then the answer is stored if it may be.
    fn answer(
        &mut self,
        arrival: Arrival<'_, '_>,
        number: ExchangeNumber,
        out: &mut Datagram,
    ) -> Result<Did, OutOfMemory>
        requires can { CanGoOn self.old }
        requires unanswered { IsUnansweredAt number self.old.exchanges }
        requires new { is_con arrival.message.now.kind ≡ true
            → CanRemember arrival.now arrival.from arrival.message.now self.old }
        requires room { self.old.setting.limits.datagram ≤ out.old.room }
        ensures exact { IfOk result (λ did.
            IfSome
            (of_grown (answering_at self.old) arrival.entry (grown_of (outcome_of did.deed))
            number)
            (λ step. DoesSo step did out.old out.new self.new)) }
        ensures err { OnErr result (self.new ≡ self.old) }
        ensures kept { out.new.room ≡ out.old.room }
    {
        self.laws();
        let Some(exchange) = self.under_way.exchange(number) else {
            unreachable!()
        };
        let mut answer = self.answer_made(arrival.now, exchange, arrival.message)?;
        let entry = self.entry_made(arrival.now, exchange, &mut answer)?;
        let changed = changed_by(self.alloc, &exchange.key.key().target, arrival.message)?;
        let send = self.accept_response(arrival, out)?;
        self.invalidate_all(&changed);
        let storing = self.store_entry(entry);
        self.under_way.answered(number, answer);
        self.advance(arrival.now);
        Ok(Did {
            send,
            deed: Deed::Answered {
                exchange: number,
                storing,
            },
        })
    }

    /// Writes what is sent at once for a response that is accepted, and returns to whom it is sent:
    /// a Confirmable one is acknowledged, and remembered (RFC 7252, 4.2 and 5.2.2).
    fn accept_response(
        &mut self,
        arrival: Arrival<'_, '_>,
        out: &mut Datagram,
    ) -> Result<Option<Endpoint>, OutOfMemory>
        requires new { is_con arrival.message.now.kind ≡ true
            → CanRemember arrival.now arrival.from arrival.message.now self.old }
        requires room { 128 ≤ out.old.room }
        ensures send { IfOk result (λ send.
            send ≡ accepted_to arrival.entry.from arrival.entry.message.now) }
        ensures said { OnOk result
            (out.new ≡ holding out.old (accepted_bytes arrival.entry.message.now)) }
        ensures done { OnOk result (self.new ≡ of_arrival accepted arrival.entry self.old) }
        ensures err { OnErr result (self.new ≡ self.old) }
        ensures kept { out.new.room ≡ out.old.room }
    {
        let send = put_acceptance(arrival.from, arrival.message, out);
        if arrival.message.kind() == Kind::Con {
            self.remember(arrival, out.bytes())?;
        }
        Ok(send)
    }

    /// A law: the limit of a datagram is at least 128 bytes.
    fn laws(&self)
        ensures { 128 ≤ self.now.setting.limits.datagram }
    {
        let _laws = self.setting.limits.values();
    }

    /// The answer that a response makes for an exchange.
    fn answer_made(
        &self,
        now: Moment,
        exchange: &Exchange,
        response: &MessageRef<'_>,
    ) -> Result<Answer, OutOfMemory>
        ensures { IfOk result (λ answer.
            answer ≡ answer_for self.now now response.now exchange.now) }
    {
        let most = self.setting.limits.values().datagram as usize;
        let request = AnsweredRequest {
            is_get: exchange.is_get,
            copy: exchange.copy.as_ref(),
        };
        answer_of(self.alloc, most, request, now, response)
    }

    /// The entry to be stored for the answer of an exchange, if it may be stored: it shares the
    /// exchange's key, and the answer's message.
    ///
    /// # Errors
    /// Out of memory. The message of `answer` is lost then, so the step has to fail.
    fn entry_made(
        &self,
        now: Moment,
        exchange: &Exchange,
        answer: &mut Answer,
    ) -> Result<Option<(SharedKey, Stored)>, OutOfMemory>
        ensures entry { IfOk result (λ entry.
            entry ≡ if_storable self.now now exchange.now answer.old) }
        ensures kept { OnOk result (answer.new ≡ answer.old) }
    {
        if !may_store(exchange, answer) {
            return Ok(None);
        }
        answer.message.make_shared(self.alloc)?;
        let key = exchange.key.share()?;
        let stored = Stored {
            response: answer.message.share()?,
            asked: exchange.asked(),
            got_no: self.events,
            got: now,
            marked: false,
        };
        Ok(Some((key, stored)))
    }

    /// Invalidates what a response changes.
    fn invalidate_all(&mut self, changed: &Option<Changed>)
        ensures { self.new ≡ with_changed (targets_in changed.now) self.old }
    {
        let Some(changed) = changed else {
            return;
        };
        self.invalidate(&changed.target);
        if let Some(created) = &changed.created {
            self.invalidate(created);
        }
    }

    /// Marks what is stored for a target, so that it isn't used before it is validated, and taints
    /// the exchanges for it whose request was sent (RFC 7252, 5.9.1).
    fn invalidate(&mut self, target: &Target)
        ensures { self.new ≡ with_changed (target.now ∷ []) self.old }
    {
        self.store.mark(target);
        self.under_way.taint(target);
    }

    /// Stores an entry in place of the one with its key, if there is an entry to store.
    fn store_entry(&mut self, entry: Option<(SharedKey, Stored)>) -> Storing
        ensures { IsKept self.old entry result self.new }
    {
        let Some((key, stored)) = entry else {
            return Storing::NotStored;
        };
        match self.store.put(key, stored) {
            Put::Kept => Storing::Kept,
            Put::TooLarge => Storing::TooLarge,
            Put::NoMemory => Storing::NoMemory,
        }
    }
}
