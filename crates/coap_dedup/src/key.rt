//! The key by which a message is recognised as a duplicate.
ghost use Rattle.std.proofs.Common.{rules};
ghost use Rattle.std.specs.Cmp.Rules.{comparing};
ghost use Rattle.coap_endpoint.specs.Alike.{endpoints_equiv};
ghost use Rattle.coap_endpoint.specs.contracts.endpoint.EndpointOrd.TheImpl.Laws as endpoint_laws;
ghost use Rattle.std.specs.Cmp.{partial_order_from_own_ties};
ghost use Rattle.std.specs.Ordering.{as_partial_cmp};
ghost use Rattle.coap_dedup.specs.Keys.{id_then_source, keys_tied, same_key};

use coap_endpoint::Endpoint;
use std::cmp::Ordering;

/// What identifies a message: its source endpoint and its Message ID (RFC 7252, 4.5). Keys are
/// ordered by Message ID first, which usually differs already.
#[derive(Clone, Copy, Debug)]
pub(crate) struct Key {
    pub(crate) id: u16,
    pub(crate) from: Endpoint,
}

impl Eq for Key {
    ghost laws = { Prim.search (endpoints_equiv, comparing, rules) };
}

impl PartialEq for Key {
    ghost eq = { same_key };

    ghost laws = { Prim.search (endpoints_equiv, comparing, rules) };

    fn eq(&self, other: &Key) -> bool {
        self.from == other.from && self.id == other.id
    }
}

/// By Message ID, the greatest first, and then by endpoint. A client counts its IDs up, so a search
/// for a new message mostly goes no further than the first key of each node. `Greater` is tested
/// first: a search goes on there, and then needs no other test.
impl Ord for Key {
    ghost cmp = { id_then_source };

    ghost total = { Prim.search (endpoint_laws.total-law, comparing, rules) };

    ghost matches_partial_cmp = { Prim.search (comparing, rules) };

    ghost matches_eq = { keys_tied };

    fn cmp(&self, other: &Key) -> Ordering {
        if self.id < other.id {
            return Ordering::Greater;
        }
        if self.id > other.id {
            return Ordering::Less;
        }
        self.from.cmp(&other.from)
    }
}

impl PartialOrd for Key {
    ghost partial_cmp = { as_partial_cmp id_then_source };

    ghost laws = { partial_order_from_own_ties
        (Prim.search (endpoint_laws.total-law, comparing, rules)) keys_tied };

    fn partial_cmp(&self, other: &Key) -> Option<Ordering> {
        Some(self.cmp(other))
    }
}
