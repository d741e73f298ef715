//! What is short where a message is turned away: found again from what the proxy holds, not from
//! the step's deed.
ghost use Rattle.std.specs.Prelude.{◌≡◌};
ghost use Rattle.coap_explain.specs.Account as text;
ghost use Rattle.coap_explain.specs.Lacks as spec;

use coap_core::{ClientCounts, Core, Counts, LimitValues};
use coap_endpoint::Endpoint;
use coap_message::Kind;
use coap_store::Store;

/// What may be short: a table, as all share it or for one client, or the Message IDs.
#[derive(Clone, Copy, Debug, PartialEq, Eq)]
pub(crate) enum Need {
    Exchanges,
    ClientExchanges,
    Waiters,
    ClientWaiters,
    Con,
    ClientCon,
    Non,
    ClientNon,
    Ids,
}

/// What is short: how much of it is in use, and how much there may be.
#[derive(Clone, Copy, Debug, PartialEq, Eq)]
pub(crate) struct Lack {
    pub(crate) need: Need,
    pub(crate) count: u64,
    pub(crate) limit: u64,
}

/// What of a message's needs is lacking, if anything is: at most five.
pub(crate) type Lacks = [Option<Lack>; 5];

/// The most Message IDs that are given in a window of 247 seconds (RFC 7252, 4.4): half of all.
const IDS: u64 = 32_768;

/// How much is in use, of all and of one client, with the limits, and how many Message IDs are
/// free.
#[derive(Clone, Copy)]
pub(crate) struct Usage {
    pub(crate) all: Counts,
    pub(crate) own: ClientCounts,
    pub(crate) limits: LimitValues,
    pub(crate) free_ids: u64,
}

/// What is lacking of a need, if none of it is left.
fn full(need: Need, count: u64, limit: u64) -> Option<Lack>
    ensures { result ≡ spec.full need count limit }
{
    if count < limit {
        return None;
    }
    Some(Lack { need, count, limit })
}

/// The Message IDs, if fewer are free than are needed.
fn short_of_ids(free: u64, needed: u64) -> Option<Lack>
    ensures { result ≡ spec.short_of_ids free needed }
{
    if needed <= free {
        return None;
    }
    Some(Lack {
        need: Need::Ids,
        count: IDS.saturating_sub(free),
        limit: IDS,
    })
}

impl Usage {
    /// What a core holds, of which a client has its share.
    pub(crate) fn of<S: Store + Drop>(core: &Core<S>, client: Endpoint) -> Usage
        ensures { result ≡ spec.usage_of core.now client }
    {
        Usage {
            all: core.counts(),
            own: core.client_counts(client),
            limits: *core.limits().values(),
            free_ids: core.free_ids(),
        }
    }

    /// What was in use before a message of this type was replied to at once: a reply in a message
    /// of its own took a Message ID.
    pub(crate) fn before_reply(self, kind: Kind) -> Usage
        ensures { result ≡ text.before_reply kind self }
    {
        if kind == Kind::Non {
            Usage {
                free_ids: self.free_ids.saturating_add(1),
                ..self
            }
        } else {
            self
        }
    }

    /// What is lacking to wait for an exchange that is in progress: only room for a client that
    /// waits, and a Message ID.
    pub(crate) fn to_join(&self) -> Lacks
        ensures { result ≡ spec.to_join self.now }
    {
        [
            None,
            None,
            full(Need::Waiters, self.all.waiters, self.limits.waiters),
            full(
                Need::ClientWaiters,
                self.own.waiters,
                self.limits.client_waiters,
            ),
            short_of_ids(self.free_ids, 1),
        ]
    }

    /// What is lacking to open an exchange.
    pub(crate) fn to_open(&self) -> Lacks
        ensures { result ≡ spec.to_open self.now }
    {
        [
            full(Need::Exchanges, self.all.exchanges, self.limits.exchanges),
            full(
                Need::ClientExchanges,
                self.own.exchanges,
                self.limits.client_exchanges,
            ),
            full(Need::Waiters, self.all.waiters, self.limits.waiters),
            full(
                Need::ClientWaiters,
                self.own.waiters,
                self.limits.client_waiters,
            ),
            short_of_ids(self.free_ids, 2),
        ]
    }

    /// What is lacking to remember a message of a type: Confirmable ones are remembered apart from
    /// the others.
    pub(crate) fn to_remember(&self, kind: Kind) -> Lacks
        ensures { result ≡ spec.to_remember self.now kind }
    {
        let (all, own) = if kind == Kind::Con {
            (
                full(Need::Con, self.all.con_records, self.limits.con_records),
                full(
                    Need::ClientCon,
                    self.own.con_records,
                    self.limits.client_con_records,
                ),
            )
        } else {
            (
                full(Need::Non, self.all.non_records, self.limits.non_records),
                full(
                    Need::ClientNon,
                    self.own.non_records,
                    self.limits.client_non_records,
                ),
            )
        };
        [all, own, None, None, None]
    }

    /// What is lacking to reply at once to a message that isn't Confirmable: a Message ID.
    pub(crate) fn to_reply(&self) -> Lacks
        ensures { result ≡ spec.to_reply self.now }
    {
        [None, None, None, None, short_of_ids(self.free_ids, 1)]
    }
}
