//! Whose turn it is to be sent.
ghost use Rattle.std.specs.Prelude.{◌≡◌, ◌<◌, [], true, IfOk, IfSome};
ghost use Rattle.std.specs.Option.{option_copied};
ghost use Rattle.coap_pending.specs.Exchanges.{is_queued, is_sent_to};
ghost use Rattle.coap_pending.specs.Table.{count};
ghost use Rattle.coap_exchange.specs.Index.{AreIndexed};
ghost use Rattle.coap_exchange.specs.SendQueue.{head_in, head_with, lower, head_may_change_at, noted, IsSendQueue, IsLowestUnder};

use crate::index::{Index, Sought, first_sought};
use crate::indexed_exchange::IndexedExchange;
use crate::table::Table;
use coap_message::{Moment, OutOfMemory};
use coap_pending::{ExchangeNumber, Transition};
use endpoint_counts::DigestedEndpoint;
use ordered_index::OrderedIndex;
use std::alloc::Global;

/// What decides whose turn it is, so that neither exchanges nor endpoints are scanned. The head of
/// an endpoint is how many outstanding exchanges it has, and its first queued one.
#[derive(Drop)]
pub(crate) struct SendQueue {
    /// The first queued exchange of each endpoint, by the number of outstanding exchanges of that
    /// endpoint.
    pub(crate) heads: OrderedIndex,
    /// The latest moment of an admission, in milliseconds.
    pub(crate) latest: Moment,
    /// Whether exchanges were admitted in order of time, so that the lower of two numbers comes
    /// first.
    pub(crate) in_order: bool,
}

impl SendQueue {
    /// The queue of an empty table, with room for `limit` exchanges.
    pub(crate) fn new(alloc: Global, limit: usize) -> Result<SendQueue, OutOfMemory>
        ensures empty { IfOk result (λ send_queue. IsSendQueue [] send_queue) }
        ensures limit { IfOk result (λ send_queue. send_queue.heads.limit ≡ limit) }
    {
        Ok(SendQueue {
            heads: OrderedIndex::new(alloc, limit)?,
            latest: 0,
            in_order: true,
        })
    }

    /// Notes that an exchange is admitted now, after all others.
    pub(crate) fn note(&mut self, now: Moment)
        ensures exact { self.new ≡ noted now self.old }
    {
        self.in_order = self.in_order && self.latest <= now;
        self.latest = self.latest.max(now);
    }

    /// The least number of the exchanges that can be sent, if they were admitted in order: those
    /// with fewer than `nstart` exchanges sent to their endpoint.
    pub(crate) fn first(&self, nstart: usize) -> Option<ExchangeNumber>
        ensures exact { IsLowestUnder nstart self.now.heads.pairs result }
    {
        let mut first = None;
        let mut next = self.heads.first();
        while let Some((sent, number)) = next {
            if sent >= nstart as u64 {
                return first;
            }
            first = lower(first, number);
            next = self.heads.after((sent, u64::MAX));
        }
        first
    }
}

/// The lower of two numbers, or the second if there is no first.
fn lower(first: Option<ExchangeNumber>, number: ExchangeNumber) -> Option<ExchangeNumber>
    ensures { result ≡ lower first number }
{
    match first {
        Some(least) if least < number => first,
        _ => Some(number),
    }
}

/// The endpoint of which the head may be another after a change of this exchange, or, without a
/// change, once it is removed. It is that of an exchange that waits for its turn, or that begins or
/// ceases to be outstanding.
pub(crate) fn head_may_change_at(
    found: Option<&IndexedExchange>,
    change: &Option<Transition>,
) -> Option<DigestedEndpoint>
    ensures exact { result ≡ head_may_change_at change.now (option_copied found.entry) }
{
    let listed = found?;
    let was = listed.stage();
    let sent = match change {
        Some(change) => change.is_sent_after(was.sent),
        None => false,
    };
    if was.queued || was.sent != sent {
        Some(listed.origin())
    } else {
        None
    }
}

/// The head of an endpoint, as `heads` has it: how many exchanges are sent there, which is `sent`,
/// and then the number of its first queued exchange, if there is one. `queued` exchanges are queued
/// in all: where none is, none is looked for.
pub(crate) fn head_of(
    exchanges: &Table<IndexedExchange>,
    index: &Index,
    queued: usize,
    at: &Option<DigestedEndpoint>,
    sent: usize,
) -> Option<(u64, u64)>
    requires indexed { AreIndexed exchanges.now.items exchanges.now.limit index.now }
    requires sent { IfSome at.now (λ at. sent ≡ count (is_sent_to at) exchanges.now.items) }
    requires queued { queued ≡ count is_queued exchanges.now.items }
    ensures exact { result ≡ head_in exchanges.now.items at.now }
{
    let Some(at) = at else {
        return None;
    };
    if queued == 0 {
        return None;
    }
    let sought = Sought::Queued(at.endpoint());
    let number = first_sought(exchanges, &index.queues, at.digest(), &sought)?;
    Some((sent as u64, number))
}

/// The head of an endpoint's queue once the exchange numbered `number` is queued after the others:
/// `head` as before, unless there was none. `sent` exchanges are sent to the endpoint.
pub(crate) fn head_with(
    head: Option<(u64, u64)>,
    sent: usize,
    number: ExchangeNumber,
) -> Option<(u64, u64)>
    ensures exact { result ≡ head_with head sent number }
{
    match head {
        Some(_) => head,
        None => Some((sent as u64, number)),
    }
}
