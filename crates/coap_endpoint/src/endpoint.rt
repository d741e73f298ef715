//! Endpoints: an IP address and a UDP port (RFC 7252, 1.2).
ghost use Rattle.std.specs.Prelude.{◌≡◌};
ghost use Rattle.std.proofs.Common.{rules};
ghost use Rattle.std.specs.Cmp.{partial_equiv_from_equiv, partial_order_from_own_ties};
ghost use Rattle.std.specs.Cmp.Rules.{comparing};
ghost use Rattle.std.specs.Cmp.Lexicographic.{slice_cmp};
ghost use Rattle.std.specs.Ordering.{as_partial_cmp, nat_cmp};
ghost use Rattle.coap_endpoint.specs.Endpoint.{same_endpoint, same_ip};
ghost use Rattle.coap_endpoint.specs.Order.{ip_cmp};
ghost use Rattle.coap_endpoint.specs.Hashing.{fed_endpoint};
ghost use Rattle.coap_endpoint.specs.Alike.{endpoints_equiv, endpoints_fed, ips_equiv, ips_tied};

use std::cmp::Ordering;
use std::hash::{Hash, Hasher};

/// An IP address, with its bytes in network order.
#[derive(Clone, Copy, Debug)]
pub enum Ip {
    V4([u8; 4]),
    V6([u8; 16]),
}

/// The order of the numbers that IPv4 addresses are, which is that of their bytes. `Greater` comes
/// first: a search of a map goes on there, and then needs no other test.
fn compare_v4(a: &[u8; 4], b: &[u8; 4]) -> Ordering
    ensures { result ≡ slice_cmp nat_cmp a.now b.now }
{
    let (x, y) = (u32::from_be_bytes(*a), u32::from_be_bytes(*b));
    if x > y {
        return Ordering::Greater;
    }
    if x < y {
        return Ordering::Less;
    }
    Ordering::Equal
}

/// The same of IPv6 addresses.
fn compare_v6(a: &[u8; 16], b: &[u8; 16]) -> Ordering
    ensures { result ≡ slice_cmp nat_cmp a.now b.now }
{
    let (x, y) = (u128::from_be_bytes(*a), u128::from_be_bytes(*b));
    if x > y {
        return Ordering::Greater;
    }
    if x < y {
        return Ordering::Less;
    }
    Ordering::Equal
}

impl Eq for Ip {
    ghost laws = { ips_equiv };
}

impl PartialEq for Ip {
    ghost eq = { same_ip };

    ghost laws = { partial_equiv_from_equiv ips_equiv };

    fn eq(&self, other: &Ip) -> bool {
        self.cmp(other).is_eq()
    }
}

/// IPv4 before IPv6, and each in the order of its bytes.
impl Ord for Ip {
    ghost cmp = { ip_cmp };

    ghost total = { Prim.search (comparing, rules) };

    ghost matches_partial_cmp = { Prim.search (comparing, rules) };

    ghost matches_eq = { ips_tied };

    fn cmp(&self, other: &Ip) -> Ordering {
        match (self, other) {
            (Ip::V4(a), Ip::V4(b)) => compare_v4(a, b),
            (Ip::V6(a), Ip::V6(b)) => compare_v6(a, b),
            (Ip::V4(_), Ip::V6(_)) => Ordering::Less,
            (Ip::V6(_), Ip::V4(_)) => Ordering::Greater,
        }
    }
}

impl PartialOrd for Ip {
    ghost partial_cmp = { as_partial_cmp ip_cmp };

    ghost laws = { partial_order_from_own_ties (Prim.search (comparing, rules)) ips_tied };

    fn partial_cmp(&self, other: &Ip) -> Option<Ordering> {
        Some(self.cmp(other))
    }
}

/// An address and a port: the source or the destination of a datagram.
#[derive(Clone, Copy, Debug, PartialOrd, Ord)]
pub struct Endpoint {
    pub ip: Ip,
    pub port: u16,
}

impl Eq for Endpoint {
    ghost laws = { endpoints_equiv };
}

impl PartialEq for Endpoint {
    ghost eq = { same_endpoint };

    ghost laws = { partial_equiv_from_equiv endpoints_equiv };

    fn eq(&self, other: &Endpoint) -> bool {
        self.ip == other.ip && self.port == other.port
    }
}

/// In words of 8 bytes, which a hasher processes fastest, and which `Seeded` asks for.
impl Hash for Endpoint {
    ghost hash_input = { fed_endpoint };

    ghost respects_eq = { endpoints_fed };

    fn hash<H: Hasher>(&self, state: &mut H) {
        let port = u64::from(self.port);
        match self.ip {
            Ip::V4(address) => {
                state.write_u64(u64::from(u32::from_be_bytes(address)) * 0x1_0000 + port);
            }
            Ip::V6(address) => {
                let address = u128::from_be_bytes(address);
                state.write_u64(0x1_0000_0000_0000 + port);
                state.write_u64((address % (1 << 64)) as u64);
                state.write_u64((address / (1 << 64)) as u64);
            }
        }
    }
}
