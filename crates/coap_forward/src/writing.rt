//! The messages that a proxy sends, written part by part into the caller's datagram, without
//! allocation.
ghost use Rattle.std.specs.Prelude.{◌≡◌, ◌≤◌, ◌∷◌, [], true, length};
ghost use Rattle.coap_message.specs.Datagram.{Appends, holding};
ghost use Rattle.coap_message.specs.Message.{message_of};
ghost use Rattle.coap_message.specs.Spelling.{spelling};
ghost use Rattle.coap_store.specs.Renewing.{max_age_option};
ghost use Rattle.coap_forward.specs.Answers.{shown_in, stored_answer};

use crate::answers::left_to_show;
use coap_message::{
    Content, Datagram, Full, Head, Moment, Token, put_head, put_message, put_payload,
};
use coap_store::{Answer, Envelope, Stored, put_max_age, put_response};

// ---- the proxy's own messages

/// Writes a message with no options and no payload.
pub fn put_bare(head: Head, token: &Token, out: &mut Datagram)
    requires fits { length (spelling (message_of head token.now [] [])) ≤ out.old.room }
    ensures { out.new ≡ holding out.old (spelling (message_of head token.now [] [])) }
{
    let room = out.room();
    if put_message(out, room, head, token, Content::none()).is_err() {
        unreachable!();
    }
}

/// Writes a message whose only option is a Max-Age of `seconds` seconds (RFC 7252, 5.10.5).
pub fn put_with_max_age(head: Head, token: &Token, seconds: u64, payload: &[u8], out: &mut Datagram)
    requires fits { length
        (spelling (message_of head token.now (max_age_option seconds ∷ []) payload.now))
        ≤ out.old.room }
    ensures { out.new
        ≡ holding out.old
        (spelling (message_of head token.now (max_age_option seconds ∷ []) payload.now)) }
{
    if try_with_max_age(head, token, seconds, payload, out).is_err() {
        unreachable!();
    }
}

#[tactic(auto, unfolding(coap_message::specs::Spelling::spelling))]
fn try_with_max_age(
    head: Head,
    token: &Token,
    seconds: u64,
    payload: &[u8],
    out: &mut Datagram,
) -> Result<(), Full>
    ensures { Appends (holding out.old []) out.new out.old.room
        (spelling (message_of head token.now (max_age_option seconds ∷ []) payload.now)) result }
{
    let room = out.room();
    put_head(out, room, head, token)?;
    put_max_age(out, room, 0, seconds)?;
    put_payload(out, room, payload)
}

// ---- what clients are sent

/// Writes the message in which a client is sent an answer; `to_get` says whether that is to a GET.
pub fn put_shown(
    now: Moment,
    answer: &Answer,
    to_get: bool,
    envelope: Envelope<'_>,
    out: &mut Datagram,
)
    requires fits { length (spelling (shown_in envelope to_get now answer.now)) ≤ out.old.room }
    ensures { out.new ≡ holding out.old (spelling (shown_in envelope.entry to_get now answer.now)) }
{
    let left = left_to_show(to_get, now, answer);
    let room = out.room();
    if put_response(answer.message.message(), envelope, left, out, room).is_err() {
        unreachable!();
    }
}

/// Writes the reply that a client is sent for a stored response, the answer to a GET.
pub fn put_stored(now: Moment, stored: &Stored, envelope: Envelope<'_>, out: &mut Datagram)
    requires fits { length (spelling (shown_in envelope true now (stored_answer stored.now)))
        ≤ out.old.room }
    ensures { out.new
        ≡ holding out.old (spelling (shown_in envelope.entry true now (stored_answer stored.now))) }
{
    let left = Some(stored.left(now));
    let room = out.room();
    if put_response(stored.response.message(), envelope, left, out, room).is_err() {
        unreachable!();
    }
}
