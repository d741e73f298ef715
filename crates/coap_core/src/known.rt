//! Messages that came before, and what is sent at once for those that are new (RFC 7252, 4.2, 4.3
//! and 4.5).
ghost use Rattle.std.specs.Prelude.{◌≡◌, ◌≤◌, length, Some, is_some, IfOk, IfSome, OnOk, OnErr};
ghost use Rattle.coap_message.specs.Datagram.{holding};
ghost use Rattle.coap_message.specs.Spelling.{spelling};
ghost use Rattle.coap_message.specs.declared.message.Head.{Head};
ghost use Rattle.coap_forward.specs.Messages.{acknowledgement, reply_kind, reply_id};
ghost use Rattle.coap_model.specs.State.{next_id, records_of, has_record_room, can_reply, drops, known_of, with_record};
ghost use Rattle.coap_model.specs.Requests.{replied};
ghost use Rattle.coap_core.specs.Arrivals.{of_arrival};
ghost use Rattle.coap_core.specs.Done.{DoesSo, IsSaid, repetition_of};
ghost use Rattle.coap_core.specs.Needs.{CanGoOn, CanRemember, CanReplyTo, CanStep};
ghost use Rattle.coap_core.specs.Storing.{accepted_bytes, accepted_to};

use crate::arrival::Arrival;
use crate::state::{State, silent};
use coap_dedup::{Records, Seen};
use coap_endpoint::Endpoint;
use coap_forward::put_bare;
use coap_message::{Code, Datagram, Head, Kind, MessageRef, Moment, OutOfMemory, Seq, Token};
use coap_model::{Deed, Did};
use coap_store::Store;

/// The type of message in which a reply is sent at once to a request of this type.
pub(crate) fn reply_kind(kind: Kind) -> Kind
    ensures { result ≡ reply_kind kind }
{
    match kind {
        Kind::Con => Kind::Ack,
        Kind::Non | Kind::Ack | Kind::Rst => Kind::Non,
    }
}

/// Writes an Empty acknowledgement of the message with this id.
fn put_acknowledgement(id: u16, out: &mut Datagram)
    requires { length (spelling (acknowledgement id)) ≤ out.old.room }
    ensures { out.new ≡ holding out.old (spelling (acknowledgement id)) }
{
    let head = Head {
        kind: Kind::Ack,
        code: Code::EMPTY,
        id,
    };
    put_bare(head, &Token::empty(), out);
}

/// Writes what is sent at once for a message from this endpoint that is accepted, and returns to
/// whom it is sent: a Confirmable message is acknowledged (RFC 7252, 4.2 and 5.2.2).
pub(crate) fn put_acceptance(
    to: Endpoint,
    message: &MessageRef<'_>,
    out: &mut Datagram,
) -> Option<Endpoint>
    requires fits { length (accepted_bytes message.now) ≤ out.old.room }
    ensures send { result ≡ accepted_to to message.now }
    ensures said { out.new ≡ holding out.old (accepted_bytes message.now) }
{
    match message.kind() {
        Kind::Con => {
            put_acknowledgement(message.id(), out);
            Some(to)
        }
        Kind::Non | Kind::Ack | Kind::Rst => {
            out.clear();
            None
        }
    }
}

impl<S: Store + Drop> State<S> {
    /// The records of the messages of this type that came.
    pub(crate) fn records(&self, kind: Kind) -> &Records
        ensures { result.now ≡ records_of kind self.now }
    {
        match kind {
            Kind::Con => &self.con_records,
            Kind::Non | Kind::Ack | Kind::Rst => &self.non_records,
        }
    }

    /// Whether there is room to remember one more message of this type from this endpoint.
    pub(crate) fn has_record_room(&self, now: Moment, source: Endpoint, kind: Kind) -> bool
        requires { CanGoOn self.now }
        ensures { result ≡ has_record_room self.now now source kind }
    {
        let records = self.records(kind);
        !records.is_full(now) && !records.is_client_full(source, now)
    }

    /// If the message is a duplicate, writes to `out` what it gets: the kept reply if it is
    /// Confirmable, and otherwise nothing (RFC 7252, 4.5). If it is new, leaves `out` as it is.
    pub(crate) fn repeat(&self, arrival: Arrival<'_, '_>, out: &mut Datagram) -> Option<Did>
        requires fits { IfSome (of_arrival (repetition_of self.now) arrival) (λ step.
            length step.bytes ≤ out.old.room) }
        ensures found { is_some result ≡ is_some (of_arrival (known_of self.now) arrival.entry) }
        ensures said { IfSome result (λ did.
            IfSome (of_arrival (repetition_of self.now) arrival.entry) (λ step.
            IsSaid step did out.old out.new)) }
        ensures kept { out.new.room ≡ out.old.room }
    {
        let (kind, id) = (arrival.message.kind(), arrival.message.id());
        let Seen::Again(reply) = self.records(kind).seen(arrival.from, id, arrival.now) else {
            return None;
        };
        out.clear();
        let send = match reply {
            Some(bytes) => {
                out.put(bytes);
                Some(arrival.from)
            }
            None => None,
        };
        Some(Did {
            send,
            deed: Deed::Repeated,
        })
    }

    /// Drops a message that there is no room to remember, without a reply.
    pub(crate) fn drop_message(&mut self, now: Moment, kind: Kind, out: &mut Datagram) -> Did
        requires { CanGoOn self.old }
        ensures { DoesSo (drops self.old now kind) result out.old out.new self.new }
    {
        out.clear();
        self.advance(now);
        silent(Deed::Unremembered(kind))
    }

    /// Whether a reply can be sent at once to a request of this type: an acknowledgement needs no
    /// Message ID of the proxy's own.
    pub(crate) fn can_reply(&self, now: Moment, kind: Kind) -> bool
        requires ready { CanStep now self.now }
        ensures { result ≡ can_reply self.now now kind }
    {
        kind == Kind::Con || self.has_ids(1, now)
    }

    /// The Message ID of a reply that is sent at once.
    pub(crate) fn reply_id(&self, request: &MessageRef<'_>) -> u16
        ensures { result ≡ reply_id request.now (next_id self.now) }
    {
        match request.kind() {
            Kind::Con => request.id(),
            Kind::Non | Kind::Ack | Kind::Rst => self.next_id(),
        }
    }

    /// The head of a reply of the proxy's own that is sent at once.
    pub(crate) fn reply_head(&self, request: &MessageRef<'_>, code: Code) -> Head
        ensures { result
            ≡ record {
              kind = reply_kind request.now.kind;
              code = code;
              id = reply_id request.now (next_id self.now);
            } }
    {
        Head {
            kind: reply_kind(request.kind()),
            code,
            id: self.reply_id(request),
        }
    }

    /// Remembers a new message. If it is Confirmable, `sent` is kept with it: what is sent at once,
    /// which a duplicate gets again (RFC 7252, 4.5).
    pub(crate) fn remember(
        &mut self,
        arrival: Arrival<'_, '_>,
        sent: &[u8],
    ) -> Result<(), OutOfMemory>
        requires { CanRemember arrival.now arrival.from arrival.message.now self.old }
        ensures ok { OnOk result
            (self.new ≡ of_arrival with_record arrival.entry sent.now self.old) }
        ensures err { OnErr result (self.new ≡ self.old) }
    {
        let Arrival { now, from, message } = arrival;
        match message.kind() {
            Kind::Con => {
                let reply = Seq::from_slice(self.alloc, sent)?;
                self.con_records
                    .keep_in_room(from, message.id(), now, Some(reply))
            }
            Kind::Non | Kind::Ack | Kind::Rst => {
                self.non_records.keep_in_room(from, message.id(), now, None)
            }
        }
    }

    /// Reports that what `out` holds is sent at once in reply to a new request, and remembers the
    /// request.
    pub(crate) fn reply(
        &mut self,
        arrival: Arrival<'_, '_>,
        deed: Deed,
        out: &Datagram,
    ) -> Result<Did, OutOfMemory>
        requires reply { CanReplyTo arrival self.old }
        ensures did { IfOk result (λ did.
            did ≡ record { send = Some arrival.entry.from; deed = deed }) }
        ensures done { OnOk result
            (self.new
            ≡ of_arrival with_record arrival.entry out.now.bytes
            (replied self.old arrival.entry.now arrival.entry.message.now)) }
        ensures err { OnErr result (self.new ≡ self.old) }
    {
        self.remember(arrival, out.bytes())?;
        if arrival.message.kind() != Kind::Con {
            self.take_id(arrival.now);
        }
        self.advance(arrival.now);
        Ok(Did {
            send: Some(arrival.from),
            deed,
        })
    }
}
