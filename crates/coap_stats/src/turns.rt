//! What a turn means for the counts of maps, of origins and of openings.
ghost use Rattle.std.specs.Prelude.{◌≡◌};
ghost use Rattle.coap_core.specs.Events.{seen};
ghost use Rattle.coap_message.specs.Reading.{read_message};
ghost use Rattle.coap_model.specs.State.{State};
ghost use Rattle.coap_stats.specs.Turns as spec;
ghost use Rattle.coap_core.specs.Told.{told};

use coap_core::{Core, Deed, Event, Exchange, Outcome, WatchedTurn};
use coap_counts::{MapTable, OpeningCounts, OriginAnswer, OriginEvent, OriginTable, way_of};
use coap_endpoint::Endpoint;
use coap_message::{MessageRef, Moment, head_of};
use coap_pending::ExchangeNumber;
use coap_store::Store;
use coap_target::Routes;

/// Whether a datagram is a request.
pub(crate) fn is_request(bytes: &[u8]) -> bool
    ensures { result ≡ spec.is_request bytes.now }
{
    match head_of(bytes) {
        Some(head) => head.code.is_request(),
        None => false,
    }
}

/// The answer that a datagram is, at this moment, to a request that was first sent at that one.
fn answer_of(bytes: &[u8], now: Moment, asked: Option<Moment>) -> Option<OriginAnswer>
    ensures { result ≡ spec.answer_of bytes.now now asked }
{
    let head = head_of(bytes)?;
    Some(OriginAnswer {
        code: head.code,
        now,
        took: match asked {
            Some(asked) => Some(now.saturating_sub(asked)),
            None => None,
        },
    })
}

/// The origin that sent a datagram, with its answer.
fn answered(event: Event<'_>, now: Moment, asked: Option<Moment>) -> Option<(Endpoint, OriginEvent)>
    ensures { result ≡ spec.answered (seen event.entry) now asked }
{
    match event {
        Event::Datagram { from, bytes } => {
            let answer = answer_of(bytes, now, asked)?;
            Some((from, OriginEvent::Answered(answer)))
        }
        Event::Tick => None,
    }
}

/// When the request of an exchange was first sent.
fn asked_at(exchange: &Exchange) -> Option<Moment>
    ensures { result ≡ spec.asked_at exchange.now }
{
    match &exchange.sending {
        Some(sending) => Some(sending.timer.started),
        None => None,
    }
}

/// When the request of the exchange of this number was first sent.
fn asked_of<S: Store + Drop>(core: &Core<S>, number: ExchangeNumber) -> Option<Moment>
    ensures { result ≡ spec.asked_of core.now number }
{
    asked_at(core.exchange(number)?)
}

/// What happened in a turn between the proxy and an origin, if anything did, with the core as it is
/// after it.
#[inline(always)]
fn event_of<S: Store + Drop>(
    turn: WatchedTurn<'_>,
    core: &Core<S>,
) -> Option<(Endpoint, OriginEvent)>
    ensures { result ≡ spec.event_of (told turn.entry core.now) }
{
    let did = turn.did?;
    match did.deed {
        Deed::Sent { .. } => Some((did.send?, OriginEvent::Sent)),
        Deed::Resent { .. } => Some((did.send?, OriginEvent::Resent)),
        Deed::Answered { exchange, .. } => {
            answered(turn.event, turn.now, asked_of(core, exchange))
        }
        Deed::GaveUp { exchange, .. } => {
            let exchange = core.exchange(exchange)?;
            Some((exchange.key.key().target.at, OriginEvent::GaveUp))
        }
        Deed::Ignored(_)
        | Deed::Rejected(_)
        | Deed::Repeated
        | Deed::Unremembered(_)
        | Deed::Refused(_)
        | Deed::LackedId
        | Deed::Overloaded(_)
        | Deed::Hit
        | Deed::Joined { .. }
        | Deed::Opened { .. }
        | Deed::Acknowledged { .. }
        | Deed::Closed { .. }
        | Deed::Delivered { .. }
        | Deed::Redelivered { .. }
        | Deed::Abandoned { .. }
        | Deed::Idle => None,
    }
}

/// Counts what happened in a turn between the proxy and an origin, if anything did.
#[inline(always)]
pub(crate) fn count_origin<S: Store + Drop>(
    origins: &mut OriginTable,
    turn: WatchedTurn<'_>,
    core: &Core<S>,
)
    ensures { origins.new ≡ spec.with_origins (told turn.entry core.now) origins.old }
{
    if let Some((at, event)) = event_of(turn, core) {
        origins.count(at, event);
    }
}

/// Counts the request that came in a turn, if one did, at a proxy with these routes.
#[inline(always)]
pub(crate) fn count_way(maps: &mut MapTable, turn: WatchedTurn<'_>, routes: &Routes)
    ensures { (w : State) → w.setting.routes ≡ routes.now
        → maps.new ≡ spec.with_ways (told turn.entry w) maps.old }
{
    let (Some(report), Event::Datagram { bytes, .. }) = (turn.report(), turn.event) else {
        return;
    };
    if is_request(bytes) {
        count_request(maps, bytes, report.outcome, routes);
    }
}

/// Counts a request with this outcome, if the bytes are one, at a proxy with these routes.
#[inline(never)]
fn count_request(maps: &mut MapTable, bytes: &[u8], outcome: Outcome, routes: &Routes)
    ensures { maps.new ≡ spec.with_read routes.now outcome (read_message bytes.now) maps.old }
{
    let read = MessageRef::read(bytes);
    if let Ok(request) = &read {
        maps.count(way_of(routes, request), outcome);
    }
}

/// Counts the exchange that was opened in a turn, if one was.
#[inline(always)]
pub(crate) fn count_opening(openings: &mut OpeningCounts, turn: WatchedTurn<'_>)
    ensures { (w : State) → openings.new ≡ spec.with_openings (told turn.entry w) openings.old }
{
    if let Some(Deed::Opened { held, .. }) = turn.deed() {
        openings.count(held);
    }
}
