//! The step of a request that isn't answered from the store: it joins an exchange, or opens one.
ghost use Rattle.std.specs.Prelude.{◌≡◌, ◌+◌, ◌<◌, ◌≤◌, ◌^◌, true, length, option_map, None, Ok, Err, is_ok, IfOk, IfSome, OnOk};
ghost use Rattle.coap_message.specs.Spelling.{spelling};
ghost use Rattle.coap_option.specs.Selection.{tags_of};
ghost use Rattle.coap_forward.specs.Forms.{form_fits, forwarded};
ghost use Rattle.coap_forward.specs.Messages.{is_get};
ghost use Rattle.coap_model.specs.Deeds.{held_of};
ghost use Rattle.coap_model.specs.Requests.{overloads, next_token, copy_of, tag_carried, joins};
ghost use Rattle.coap_model.specs.State.{has_room_to_join, has_room_to_open, later, accepts};
ghost use Rattle.coap_core.specs.Arrivals.{of_arrival};
ghost use Rattle.coap_core.specs.Asked.{CanAsk, IsForwardable, IsMissed, held_for, joinable_step, missed_step, needing_step, opening_step};
ghost use Rattle.coap_core.specs.Done.{IsDoneFor};
ghost use Rattle.coap_core.specs.Needs.{CanDo, CanGoOn, CanRemember, CanSend};
ghost use Rattle.coap_core.specs.Storing.{accepted_bytes};

use crate::arrival::Arrival;
use crate::copies::copy_of_stored;
use crate::known::put_acceptance;
use crate::request_target::CacheQuery;
use crate::requests::is_get;
use crate::state::State;
use coap_exchange::{ExchangeNumber, Joining, Opening};
use coap_forward::{Form, put_forwarded, put_with_max_age, token_of, validating_tag};
use coap_message::{Code, Datagram, Full, MessageRef, OutOfMemory, Pieces, Seq, Token};
use coap_model::{Deed, Did, Held, Lacks, Refusal};
use coap_store::{SharedKey, Store, Stored};
use endpoint_counts::DigestedEndpoint;

/// What an exchange is opened with, in addition to its request.
#[derive(Drop)]
pub(crate) struct NewExchange<'k> {
    client: DigestedEndpoint,
    key: &'k SharedKey,
    /// The tags of the responses that the client already holds.
    tags: Pieces,
    /// The stored response that the request asks to validate.
    copy: Option<Stored>,
    /// What the cache has for the request.
    held: Held,
}

/// A request that waits for the exchange of this number, whose client holds responses with these
/// tags.
fn joining_of(arrival: Arrival<'_, '_>, tags: Pieces, exchange: ExchangeNumber) -> Joining
    ensures { result
        ≡ record {
          client = arrival.entry.from;
          kind = arrival.entry.message.now.kind;
          token = arrival.entry.message.now.token;
          tags = tags;
          exchange = exchange;
        } }
{
    Joining {
        client: arrival.from,
        kind: arrival.message.kind(),
        token: Token::new(arrival.message.token()),
        tags,
        exchange,
    }
}

impl<S: Store + Drop> State<S> {
    /// Handles a request that isn't answered from the store: it joins an exchange of the key that
    /// isn't answered yet, or else needs a new one.
    pub(crate) fn on_miss(
        &mut self,
        arrival: Arrival<'_, '_>,
        query: &CacheQuery,
        held: Held,
        out: &mut Datagram,
    ) -> Result<Did, OutOfMemory>
        requires ask { CanAsk arrival query.now held self.old }
        requires can { CanDo (of_arrival (missed_step self.old) arrival query.now.key)
            arrival.now self.old out.old }
        ensures { IsDoneFor arrival.entry
            (of_arrival (missed_step self.old) arrival.entry query.now.key)
            result out.old out.new self.old self.new }
    {
        let exchanges = self.under_way.exchanges();
        match exchanges.joinable_as(&query.key) {
            Some(exchange) => self.on_joinable(arrival, exchange, query, out),
            None => self.on_exchange_needed(arrival, query, held, out),
        }
    }

    /// Joins the exchange numbered `exchange`, if there is room for the client.
    fn on_joinable(
        &mut self,
        arrival: Arrival<'_, '_>,
        exchange: ExchangeNumber,
        query: &CacheQuery,
        out: &mut Datagram,
    ) -> Result<Did, OutOfMemory>
        requires can { CanSend (of_arrival (joinable_step self.old) arrival exchange)
            arrival self.old out.old }
        requires tags { query.now.tags ≡ tags_of arrival.message.now }
        ensures { IsDoneFor arrival.entry
            (of_arrival (joinable_step self.old) arrival.entry exchange)
            result out.old out.new self.old self.new }
    {
        let client = DigestedEndpoint::new(arrival.from);
        self.seek_joiner(client);
        if !self.has_room_to_join(arrival.now, client) {
            let lacks = self.lacks_to_join(arrival.now, client);
            return self.overload(arrival, lacks, out);
        }
        let tags = query.tags.clone()?;
        self.join(arrival, client, exchange, tags, out)
    }

    /// Opens an exchange for a key. Replies 4.13 if the forwarded request is too long for a
    /// datagram, and otherwise 5.03 if there is no room. The key and the tags are copied, without
    /// spare capacity, only once both tests have passed.
    pub(crate) fn on_exchange_needed(
        &mut self,
        arrival: Arrival<'_, '_>,
        query: &CacheQuery,
        held: Held,
        out: &mut Datagram,
    ) -> Result<Did, OutOfMemory>
        requires ask { CanAsk arrival query.now held self.old }
        requires can { CanDo (of_arrival (needing_step self.old) arrival query.now.key)
            arrival.now self.old out.old }
        ensures { IsDoneFor arrival.entry
            (of_arrival (needing_step self.old) arrival.entry query.now.key)
            result out.old out.new self.old self.new }
    {
        if self.put_request(arrival.message, query, None, out).is_err() {
            return self.refuse(arrival, Refusal::Length, out);
        }
        let client = DigestedEndpoint::new(arrival.from);
        self.seek_opener(client);
        if !self.has_room_to_open(arrival.now, client) {
            let lacks = self.lacks_to_open(arrival.now, client);
            return self.overload(arrival, lacks, out);
        }
        let copy = self.put_validating(arrival.message, query, held, out)?;
        let new = NewExchange {
            client,
            key: &query.key,
            tags: query.tags.clone()?,
            copy,
            held,
        };
        self.open(arrival, new, out)
    }

    /// Asks to validate what is stored for the key, if it has a tag: writes the forwarded request,
    /// which `out` holds, anew with that tag, and returns a copy of what is stored (RFC 7252,
    /// 5.6.2). If it has none, or the request doesn't fit a datagram with it, the request is as it
    /// was, and nothing is returned.
    fn put_validating(
        &self,
        request: &MessageRef<'_>,
        query: &CacheQuery,
        held: Held,
        out: &mut Datagram,
    ) -> Result<Option<Stored>, OutOfMemory>
        requires can { CanGoOn self.now }
        requires missed { IsMissed self.now request.now query.now.key held }
        requires room { self.now.setting.limits.datagram ≤ out.old.room }
        requires forwardable { IsForwardable request.now query.now }
        requires fits { form_fits self.now.setting.limits.datagram query.now.key.target None
            request.now
            ≡ true }
        requires written { out.old.bytes
            ≡ spelling (forwarded (next_token self.now) query.now.key.target None request.now 0) }
        ensures copy { IfOk result (λ copy.
            copy
            ≡ copy_of self.now.setting.limits.datagram query.now.key.target request.now
            (held_for self.now request.now query.now.key)) }
        ensures form { OnOk result
            (out.new.bytes
            ≡ spelling
            (forwarded (next_token self.now) query.now.key.target
            (tag_carried self.now.setting.limits.datagram query.now.key.target request.now
            (held_for self.now request.now query.now.key))
            request.now 0)) }
        ensures kept { out.new.room ≡ out.old.room }
    {
        if !held.is_stored() {
            return Ok(None);
        }
        let Some(stored) = self.store.peek(&query.key) else {
            unreachable!()
        };
        let Some(tag) = validating_tag(request, stored.response.message()) else {
            return Ok(None);
        };
        if self.put_request(request, query, Some(tag), out).is_ok() {
            return Ok(Some(copy_of_stored(stored)?));
        }
        if self.put_request(request, query, None, out).is_err() {
            unreachable!();
        }
        Ok(None)
    }

    /// Writes the forwarded request, with this tag, if any.
    ///
    /// # Errors
    /// `Full`, exactly if it doesn't fit a datagram. Part of it may have been written then.
    fn put_request(
        &self,
        request: &MessageRef<'_>,
        query: &CacheQuery,
        tag: Option<&[u8]>,
        out: &mut Datagram,
    ) -> Result<(), Full>
        requires can { CanGoOn self.now }
        requires room { self.now.setting.limits.datagram ≤ out.old.room }
        requires forwardable { IsForwardable request.now query.now }
        requires short { IfSome tag (λ tag. length tag.now ≤ 8) }
        ensures exact { is_ok result
            ≡ form_fits self.now.setting.limits.datagram query.now.key.target
            (option_map (λ tag. tag.now) tag.entry) request.now }
        ensures form { OnOk result
            (out.new.bytes
            ≡ spelling
            (forwarded (next_token self.now) query.now.key.target
            (option_map (λ tag. tag.now) tag.entry)
            request.now 0)) }
        ensures kept { out.new.room ≡ out.old.room }
    {
        let token = token_of(self.setting.salt, self.under_way.exchanges().admitted() + 1);
        let room = self.setting.limits.values().datagram as usize;
        let form = Form {
            request,
            survey: query.survey,
            target: &query.key.key().target,
            tag,
        };
        put_forwarded(&token, form, out, room)
    }

    /// Replies 5.03, because a table is full, the client has its share of it, or too few Message
    /// IDs are free. The Max-Age of the reply says in how many seconds to try again (RFC 7252,
    /// 5.9.3.4).
    fn overload(
        &mut self,
        arrival: Arrival<'_, '_>,
        lacks: Lacks,
        out: &mut Datagram,
    ) -> Result<Did, OutOfMemory>
        requires can { CanSend (of_arrival (overloads self.old) arrival lacks)
            arrival self.old out.old }
        ensures { IsDoneFor arrival.entry
            (of_arrival (overloads self.old) arrival.entry lacks)
            result out.old out.new self.old self.new }
    {
        let head = self.reply_head(arrival.message, Code::SERVICE_UNAVAILABLE);
        let token = Token::new(arrival.message.token());
        put_with_max_age(head, &token, self.setting.limits.values().retry_s, &[], out);
        self.reply(arrival, Deed::Overloaded(lacks), out)
    }

    /// Accepts a new request: a Confirmable one is acknowledged, and what is sent is remembered
    /// (RFC 7252, 4.2 and 5.2.2).
    fn accept_request(
        &mut self,
        arrival: Arrival<'_, '_>,
        deed: Deed,
        out: &mut Datagram,
    ) -> Result<Did, OutOfMemory>
        requires events { self.old.events < 2 ^ 63 }
        requires new { CanRemember arrival.now arrival.from arrival.message.now self.old }
        requires fits { length (accepted_bytes arrival.message.now) ≤ out.old.room }
        ensures { IsDoneFor arrival.entry
            (accepts deed arrival.entry.from arrival.entry.message.now
            (later self.old arrival.entry.now))
            result out.old out.new self.old self.new }
    {
        let send = put_acceptance(arrival.from, arrival.message, out);
        self.remember(arrival, out.bytes())?;
        self.advance(arrival.now);
        Ok(Did { send, deed })
    }

    /// Opens an exchange, and has the client wait for it. `out` holds the forwarded request. If
    /// memory runs out, what was put into the tables is taken back.
    fn open(
        &mut self,
        arrival: Arrival<'_, '_>,
        exchange: NewExchange<'_>,
        out: &mut Datagram,
    ) -> Result<Did, OutOfMemory>
        requires can { CanSend (of_arrival (opening_step self.old) arrival exchange.key.now)
            arrival self.old out.old }
        requires client { exchange.client ≡ arrival.from }
        requires room { has_room_to_open self.old arrival.now arrival.from ≡ true }
        requires tags { exchange.tags ≡ tags_of arrival.message.now }
        requires copy { exchange.copy
            ≡ copy_of self.old.setting.limits.datagram exchange.key.now.target arrival.message.now
            (held_for self.old arrival.message.now exchange.key.now) }
        requires held { exchange.held
            ≡ held_of arrival.message.now
            (held_for self.old arrival.message.now exchange.key.now) }
        requires form { out.old.bytes
            ≡ spelling
            (forwarded (next_token self.old) exchange.key.now.target
            (tag_carried self.old.setting.limits.datagram exchange.key.now.target
            arrival.message.now
            (held_for self.old arrival.message.now exchange.key.now))
            arrival.message.now 0) }
        ensures { IsDoneFor arrival.entry
            (of_arrival (opening_step self.old) arrival.entry exchange.entry.key.now)
            result out.old out.new self.old self.new }
    {
        let NewExchange {
            client,
            key,
            tags,
            copy,
            held,
        } = exchange;
        let form = Seq::from_slice(self.alloc, out.bytes())?;
        let opening = Opening {
            client,
            key,
            is_get: is_get(arrival.message.code()),
            form,
            copy,
            now: arrival.now,
        };
        let number = self.under_way.open(opening)?;
        let joining = joining_of(arrival, tags, number);
        let waiter = match self.under_way.join(joining, client) {
            Ok(waiter) => waiter,
            Err(error) => {
                self.under_way.withdraw_exchange();
                return Err(error);
            }
        };
        let deed = Deed::Opened {
            waiter,
            exchange: number,
            held,
        };
        let done = self.accept_request(arrival, deed, out);
        if done.is_err() {
            self.under_way.withdraw_waiter();
            self.under_way.withdraw_exchange();
        }
        done
    }

    /// Has the client wait for the exchange numbered `exchange`.
    fn join(
        &mut self,
        arrival: Arrival<'_, '_>,
        client: DigestedEndpoint,
        exchange: ExchangeNumber,
        tags: Pieces,
        out: &mut Datagram,
    ) -> Result<Did, OutOfMemory>
        requires can { CanSend (of_arrival (joins self.old) arrival exchange)
            arrival self.old out.old }
        requires client { client ≡ arrival.from }
        requires room { has_room_to_join self.old arrival.now arrival.from ≡ true }
        requires tags { tags ≡ tags_of arrival.message.now }
        ensures { IsDoneFor arrival.entry
            (of_arrival (joins self.old) arrival.entry exchange)
            result out.old out.new self.old self.new }
    {
        let joining = joining_of(arrival, tags, exchange);
        let waiter = self.under_way.join(joining, client)?;
        let deed = Deed::Joined { waiter, exchange };
        let done = self.accept_request(arrival, deed, out);
        if done.is_err() {
            self.under_way.withdraw_waiter();
        }
        done
    }
}
