//! The number of exchanges with each endpoint.
ghost use Rattle.std.specs.Prelude.{◌≡◌, ◌+◌, ◌-◌, ◌<◌, ◌≤◌, ◌^◌, length, true, if◌then◌else◌};
ghost use Rattle.coap_endpoint.specs.declared.endpoint.Endpoint.{Endpoint};
ghost use Rattle.endpoint_counts.specs.Endpoints.{one_if_at, open_in, queued_in, sent_in};
ghost use Rattle.endpoint_counts.specs.Slots.{is_entry_of};
ghost use Rattle.coap_pending.specs.Table.{first_that};

use crate::digested_endpoint::DigestedEndpoint;
use crate::endpoint_map::EndpointMap;

/// The number of exchanges with an endpoint. For a client `all` counts its items, and the others
/// are 0.
#[derive(Clone, Copy)]
pub struct EndpointCounts {
    /// All of them.
    pub all: usize,
    /// Those that are sent, and neither acknowledged nor answered.
    pub sent: usize,
    /// Those that are waiting for their turn.
    pub queued: usize,
}

/// How an exchange is counted for its endpoint.
#[derive(Clone, Copy)]
pub struct Stage {
    /// It is sent, and neither acknowledged nor answered.
    pub sent: bool,
    /// It is waiting for its turn.
    pub queued: bool,
}

/// How many exchanges with an endpoint were sent, and neither acknowledged nor answered, before a
/// change, and how many are after it.
#[derive(Clone, Copy)]
pub struct SentCounts {
    pub was: usize,
    pub is: usize,
}

impl Stage {
    /// The stage of an exchange whose request is waiting for its turn.
    pub const QUEUED: Stage = Stage {
        sent: false,
        queued: true,
    };
}

/// The number of exchanges with the endpoint `at`.
pub fn counts_of(endpoints: &EndpointMap, at: DigestedEndpoint) -> EndpointCounts
    ensures all { result.all ≡ open_in endpoints.now at }
    ensures sent { result.sent ≡ sent_in endpoints.now at }
    ensures queued { result.queued ≡ queued_in endpoints.now at }
{
    counts_at(endpoints, at, endpoints.place_of(at))
}

/// The number of exchanges with an endpoint whose place is known.
pub fn counts_at(
    endpoints: &EndpointMap,
    at: DigestedEndpoint,
    place: Option<u64>,
) -> EndpointCounts
    requires place { place ≡ first_that (is_entry_of at) endpoints.now.items }
    ensures all { result.all ≡ open_in endpoints.now at }
    ensures sent { result.sent ≡ sent_in endpoints.now at }
    ensures queued { result.queued ≡ queued_in endpoints.now at }
{
    match endpoints.get(at, place) {
        Some(counts) => counts,
        None => EndpointCounts {
            all: 0,
            sent: 0,
            queued: 0,
        },
    }
}

/// Adds an exchange with this endpoint, which is waiting for its turn, and returns how many are
/// sent there. There is room for another endpoint.
pub fn open_one(endpoints: &mut EndpointMap, at: DigestedEndpoint) -> usize
    requires all { open_in endpoints.old at < 2 ^ 64 - 1 }
    requires queued { queued_in endpoints.old at < 2 ^ 64 - 1 }
    requires room { length endpoints.old.items < endpoints.old.limit }
    ensures exact { result ≡ sent_in endpoints.old at }
    ensures limit { endpoints.new.limit ≡ endpoints.old.limit }
    ensures seed { endpoints.new.seed ≡ endpoints.old.seed }
    ensures all { (e : Endpoint)
        → open_in endpoints.new e ≡ open_in endpoints.old e + one_if_at true at e }
    ensures sent { (e : Endpoint) → sent_in endpoints.new e ≡ sent_in endpoints.old e }
    ensures queued { (e : Endpoint)
        → queued_in endpoints.new e ≡ queued_in endpoints.old e + one_if_at true at e }
{
    let place = endpoints.place_of(at);
    let counts = counts_at(endpoints, at, place);
    let more = EndpointCounts {
        all: counts.all + 1,
        sent: counts.sent,
        queued: counts.queued + 1,
    };
    endpoints.set(at, place, more);
    counts.sent
}

/// Removes an exchange with this endpoint, which was at the stage `was`.
pub fn close_one(endpoints: &mut EndpointMap, at: DigestedEndpoint, was: Stage) -> SentCounts
    requires all { 0 < open_in endpoints.old at }
    requires sent { sent_in endpoints.old at
        ≤ (open_in endpoints.old at - 1) + (if was.sent then 1 else 0) }
    requires queued { queued_in endpoints.old at
        ≤ (open_in endpoints.old at - 1) + (if was.queued then 1 else 0) }
    ensures was { result.was ≡ sent_in endpoints.old at }
    ensures is { result.is ≡ sent_in endpoints.new at }
    ensures limit { endpoints.new.limit ≡ endpoints.old.limit }
    ensures seed { endpoints.new.seed ≡ endpoints.old.seed }
    ensures all { (e : Endpoint)
        → open_in endpoints.new e ≡ open_in endpoints.old e - one_if_at true at e }
    ensures sent { (e : Endpoint)
        → sent_in endpoints.new e ≡ sent_in endpoints.old e - one_if_at was.sent at e }
    ensures queued { (e : Endpoint)
        → queued_in endpoints.new e ≡ queued_in endpoints.old e - one_if_at was.queued at e }
{
    let place = endpoints.place_of(at);
    let counts = counts_at(endpoints, at, place);
    if counts.all == 1 {
        endpoints.remove(at, place);
        return SentCounts {
            was: counts.sent,
            is: 0,
        };
    }
    let sent = lowered(counts.sent, was.sent);
    let queued = lowered(counts.queued, was.queued);
    let all = counts.all - 1;
    endpoints.set(at, place, EndpointCounts { all, sent, queued });
    SentCounts {
        was: counts.sent,
        is: sent,
    }
}

/// Moves an exchange with this endpoint from the stage `was` to the stage `is`.
pub fn move_one(
    endpoints: &mut EndpointMap,
    at: DigestedEndpoint,
    was: Stage,
    is: Stage,
) -> SentCounts
    requires all { 0 < open_in endpoints.old at }
    requires few_sent { sent_in endpoints.old at < 2 ^ 64 - 1 }
    requires few_queued { queued_in endpoints.old at < 2 ^ 64 - 1 }
    ensures was { result.was ≡ sent_in endpoints.old at }
    ensures is { result.is ≡ sent_in endpoints.new at }
    ensures limit { endpoints.new.limit ≡ endpoints.old.limit }
    ensures seed { endpoints.new.seed ≡ endpoints.old.seed }
    ensures all { (e : Endpoint) → open_in endpoints.new e ≡ open_in endpoints.old e }
    ensures sent { (e : Endpoint)
        → sent_in endpoints.new e
        ≡ (sent_in endpoints.old e - one_if_at was.sent at e) + one_if_at is.sent at e }
    ensures queued { (e : Endpoint)
        → queued_in endpoints.new e
        ≡ (queued_in endpoints.old e - one_if_at was.queued at e) + one_if_at is.queued at e }
{
    let place = endpoints.place_of(at);
    let counts = counts_at(endpoints, at, place);
    let sent = moved(counts.sent, was.sent, is.sent);
    let queued = moved(counts.queued, was.queued, is.queued);
    let all = counts.all;
    endpoints.set(at, place, EndpointCounts { all, sent, queued });
    SentCounts {
        was: counts.sent,
        is: sent,
    }
}

/// Subtracts one from `count` if `was` is true.
pub fn lowered(count: usize, was: bool) -> usize
    ensures exact { result ≡ count - (if was then 1 else 0) }
{
    count.saturating_sub(usize::from(was))
}

/// Subtracts one from `count` if `was` is true, then adds one if `is` is true.
fn moved(count: usize, was: bool, is: bool) -> usize
    requires { count < 2 ^ 64 - 1 }
    ensures exact { result
        ≡ (count - (if was then 1 else 0)) + (if is then 1 else 0) }
{
    lowered(count, was) + usize::from(is)
}
