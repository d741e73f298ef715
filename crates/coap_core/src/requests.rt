//! The step of a request: it is refused, or answered from the store (RFC 7252, 5.6 and 5.7).
ghost use Rattle.std.specs.Prelude.{◌≡◌, ◌⊎◌, ◌+◌, ◌<◌, ◌≤◌, true, length, None, Ok, Err, is_ok, IfOk, IfErr, OnOk, OnErr};
ghost use Rattle.coap_option.specs.Selection.{tags_of};
ghost use Rattle.coap_option.specs.Survey.{IsSurvey};
ghost use Rattle.coap_endpoint.specs.Target.{IsTarget};
ghost use Rattle.coap_target.specs.declared.error.TargetError.TheVariants as errors;
ghost use Rattle.coap_target.specs.Request.{request_target};
ghost use Rattle.coap_forward.specs.Messages.{is_get, is_method};
ghost use Rattle.coap_model.specs.Verdicts.{verdict_of};
ghost use Rattle.coap_store.specs.Entries.{has_usable};
ghost use Rattle.coap_message.specs.Datagram.{holding};
ghost use Rattle.coap_model.specs.Requests.{lacks_id, refuses, on_key, on_new, on_request};
ghost use Rattle.coap_model.specs.State.{can_reply};
ghost use Rattle.coap_core.specs.Arrivals.{of_arrival};
ghost use Rattle.coap_core.specs.Targets.{seen};
ghost use Rattle.coap_core.specs.Asked.{IsAsked, IsMissed, verdict_seen};
ghost use Rattle.coap_core.specs.Done.{IsDone, IsDoneFor, wants_memory};
ghost use Rattle.coap_core.specs.Needs.{CanDo, CanGoOn, CanRemember, CanReplyTo, CanSend};
ghost use Rattle.coap_core.specs.declared.requests.Verdict.TheVariants as verdicts;

use crate::arrival::Arrival;
use crate::known::reply_kind;
use crate::request_target::{CacheQuery, RequestTarget};
use crate::state::{State, silent};
use coap_forward::{put_bare, put_stored};
use coap_message::{Code, Datagram, MessageRef, OutOfMemory, Token};
use coap_model::{Deed, Did, Held, Refusal};
use coap_option::{Survey, survey_request};
use coap_store::{Envelope, Store};
use coap_target::{TargetError, laws};

/// The verdict on a request, apart from its length, the room, and what is stored.
#[derive(Drop)]
pub(crate) enum Verdict {
    /// It is refused for this.
    RefusedWith(Refusal),
    /// It may be forwarded.
    MayAsk,
}

/// Whether the method is GET.
pub(crate) fn is_get(code: Code) -> bool
    ensures { result ≡ is_get code }
{
    code == Code::GET
}

/// Whether requests with this method are forwarded (RFC 7252, 5.8).
fn is_method(code: Code) -> bool
    ensures { result ≡ is_method code }
{
    code == Code::GET || code == Code::POST || code == Code::PUT || code == Code::DELETE
}

impl<S: Store + Drop> State<S> {
    /// Handles a request. A duplicate gets the kept reply again if it is Confirmable, and otherwise
    /// nothing (RFC 7252, 4.5). A new request is remembered, and its reply only if it is
    /// Confirmable. What it asks for is read into `query`.
    pub(crate) fn on_request(
        &mut self,
        arrival: Arrival<'_, '_>,
        query: &mut CacheQuery,
        out: &mut Datagram,
    ) -> Result<Did, OutOfMemory>
        requires can { CanDo (of_arrival (on_request self.old) arrival)
            arrival.now self.old out.old }
        ensures done { IsDone
            (of_arrival (on_request self.old) arrival.entry)
            result out.old out.new self.old self.new }
        ensures memory { OnErr result
            (wants_memory (of_arrival (on_request self.old) arrival.entry) ≡ true) }
    {
        if let Some(did) = self.repeat(arrival, out) {
            self.advance(arrival.now);
            return Ok(did);
        }
        if !self.has_record_room(arrival.now, arrival.from, arrival.message.kind()) {
            return Ok(self.drop_message(arrival.now, arrival.message.kind(), out));
        }
        self.on_new(arrival, query, out)
    }

    /// Handles a new request: refuses it, or looks up its key, if a reply can be sent to it.
    fn on_new(
        &mut self,
        arrival: Arrival<'_, '_>,
        query: &mut CacheQuery,
        out: &mut Datagram,
    ) -> Result<Did, OutOfMemory>
        requires new { CanRemember arrival.now arrival.from arrival.message.now self.old }
        requires can { CanDo (of_arrival (on_new self.old) arrival) arrival.now self.old out.old }
        ensures { IsDoneFor arrival.entry
            (of_arrival (on_new self.old) arrival.entry)
            result out.old out.new self.old self.new }
    {
        // The model looks for a free Message ID in each case. One look before all of them does,
        // since each takes one: what is replied to a Non-confirmable request is a message of its
        // own, and a request that joins or opens an exchange needs one for what it is sent later.
        if !self.can_reply(arrival.now, arrival.message.kind()) {
            return self.lack_id(arrival, out);
        }
        match self.verdict_of(arrival.message, query)? {
            Verdict::RefusedWith(why) => self.refuse(arrival, why, out),
            Verdict::MayAsk => self.on_key(arrival, query, out),
        }
    }

    /// The verdict on a request, by its method, its options and its target, in this order. If none
    /// is at fault, what it asks for is read into `query`.
    #[tactic(auto, unfolding(coap_model::specs::Verdicts::verdict_of))]
    fn verdict_of(
        &self,
        request: &MessageRef<'_>,
        query: &mut CacheQuery,
    ) -> Result<Verdict, OutOfMemory>
        requires { CanGoOn self.now }
        ensures exact { IfOk result (λ verdict.
            verdict_of self.now.setting.routes request.now ≡ verdict_seen verdict query.new.key) }
        ensures tags { IfOk result (λ verdict.
            verdict ≡ verdicts.MayAsk → query.new.tags ≡ tags_of request.now) }
        ensures survey { IfOk result (λ verdict.
            verdict ≡ verdicts.MayAsk → IsSurvey request.now query.new.survey) }
    {
        if !is_method(request.code()) {
            return Ok(Verdict::RefusedWith(Refusal::Method));
        }
        let survey = match survey_request(request) {
            Ok(survey) => survey,
            Err(bad) => return Ok(Verdict::RefusedWith(Refusal::Option(bad.number))),
        };
        match self.target_of(request, survey) {
            Ok(target) => {
                query.read(&target, request, survey, self.store.secret())?;
                Ok(Verdict::MayAsk)
            }
            Err(TargetError::BadUri) => Ok(Verdict::RefusedWith(Refusal::Uri)),
            Err(TargetError::NotProxied) => Ok(Verdict::RefusedWith(Refusal::NotProxied)),
            Err(TargetError::NotFound) => Ok(Verdict::RefusedWith(Refusal::NoMap)),
            Err(TargetError::OutOfMemory) => Err(OutOfMemory),
        }
    }

    /// Handles a request for a key: a GET is answered by a stored response that is usable;
    /// otherwise an exchange is needed.
    fn on_key(
        &mut self,
        arrival: Arrival<'_, '_>,
        query: &CacheQuery,
        out: &mut Datagram,
    ) -> Result<Did, OutOfMemory>
        requires reply { CanReplyTo arrival self.old }
        requires asked { IsAsked self.old arrival.message.now query.now }
        requires can { CanDo (of_arrival (on_key self.old) arrival query.now.key)
            arrival.now self.old out.old }
        ensures { IsDoneFor arrival.entry
            (of_arrival (on_key self.old) arrival.entry query.now.key)
            result out.old out.new self.old self.new }
    {
        if !is_get(arrival.message.code()) {
            return self.on_exchange_needed(arrival, query, Held::NotGet, out);
        }
        match self.put_usable(arrival, query, out) {
            Ok(()) => {
                let did = self.reply(arrival, Deed::Hit, out)?;
                self.store.touch(&query.key);
                Ok(did)
            }
            Err(held) => self.on_miss(arrival, query, held, out),
        }
    }

    /// Writes to `out` what the client is sent for a usable response that is stored for the key.
    ///
    /// # Errors
    /// If no usable response is stored: what is stored.
    fn put_usable(
        &self,
        arrival: Arrival<'_, '_>,
        query: &CacheQuery,
        out: &mut Datagram,
    ) -> Result<(), Held>
        requires get { is_get arrival.message.now.code ≡ true }
        requires ids { can_reply self.now arrival.now arrival.message.now.kind ≡ true }
        requires tags { query.now.tags ≡ tags_of arrival.message.now }
        requires fits { length (of_arrival (on_key self.now) arrival query.now.key).bytes
            ≤ out.old.room }
        ensures usable { is_ok result
            ≡ has_usable query.now.key arrival.entry.now self.now.store }
        ensures missed { IfErr result
            (IsMissed self.now arrival.entry.message.now query.now.key) }
        ensures shown { OnOk result
            (out.new
            ≡ holding out.old (of_arrival (on_key self.now) arrival.entry query.now.key).bytes) }
        ensures kept { out.new.room ≡ out.old.room }
    {
        match self.store.peek(&query.key) {
            Some(stored) if stored.is_usable(arrival.now) => {
                let id = self.reply_id(arrival.message);
                let kind = reply_kind(arrival.message.kind());
                let token = Token::new(arrival.message.token());
                let envelope = Envelope {
                    kind,
                    id,
                    token: &token,
                    tags: &query.tags,
                };
                put_stored(arrival.now, stored, envelope, out);
                Ok(())
            }
            Some(stored) if stored.marked => Err(Held::Marked),
            Some(_) => Err(Held::Stale),
            None => Err(Held::Absent),
        }
    }

    /// The target of a request whose options were surveyed. A mapped target is borrowed, so that it
    /// doesn't allocate.
    fn target_of<'m, 'a>(
        &'m self,
        request: &MessageRef<'a>,
        survey: Survey,
    ) -> Result<RequestTarget<'m, 'a>, TargetError>
        requires can { CanGoOn self.now }
        requires known { IsSurvey request.now survey }
        ensures ok { IfOk result (λ t.
            request_target self.now.setting.routes request.now ≡ Ok (seen t)) }
        ensures sound { IfOk result (λ t. IsTarget (seen t)) }
        ensures err { IfErr result (λ error.
            (error ≡ errors.OutOfMemory)
            ⊎ (request_target self.now.setting.routes request.now ≡ Err error)) }
    {
        laws::targets_fit_options();
        laws::requests_to_the_proxy_are_mapped();
        if survey.says_uri {
            let target = self.setting.routes.target_of_ref(self.alloc, request)?;
            return Ok(RequestTarget::Named(target));
        }
        match self.setting.routes.mapped(request) {
            Some(target) => Ok(RequestTarget::Mapped(target)),
            None => Err(TargetError::NotFound),
        }
    }

    /// Refuses the request.
    pub(crate) fn refuse(
        &mut self,
        arrival: Arrival<'_, '_>,
        why: Refusal,
        out: &mut Datagram,
    ) -> Result<Did, OutOfMemory>
        requires can { CanSend (of_arrival (refuses self.old) arrival why)
            arrival self.old out.old }
        ensures { IsDoneFor arrival.entry
            (of_arrival (refuses self.old) arrival.entry why)
            result out.old out.new self.old self.new }
    {
        let head = self.reply_head(arrival.message, why.code());
        let token = Token::new(arrival.message.token());
        put_bare(head, &token, out);
        self.reply(arrival, Deed::Refused(why), out)
    }

    /// Remembers a request and sends nothing, because no Message ID is free for a reply.
    fn lack_id(&mut self, arrival: Arrival<'_, '_>, out: &mut Datagram) -> Result<Did, OutOfMemory>
        requires can { CanGoOn self.old }
        requires new { CanRemember arrival.now arrival.from arrival.message.now self.old }
        ensures { IsDoneFor arrival.entry
            (lacks_id self.old arrival.entry.now)
            result out.old out.new self.old self.new }
    {
        out.clear();
        self.remember(arrival, &[])?;
        self.advance(arrival.now);
        Ok(silent(Deed::LackedId))
    }
}
