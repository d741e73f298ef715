//! Which address has more than any other of what is listed by endpoint.
ghost use Rattle.std.specs.Prelude.{◌≡◌, ℕ, ◌<◌, ◌+◌, ◌^◌, [], true, IfNone, IfSome};
ghost use Rattle.coap_endpoint.specs.declared.endpoint.Ip.{Ip};
ghost use Rattle.coap_endpoint.specs.Endpoint.{same_ip};
ghost use Rattle.coap_core.specs.Holdings.{AreGrouped, AreRising, IsGreatest, greater_of, held_in, sum_with, AreSome};

use coap_endpoint::Endpoint;

/// What an endpoint has of a table, or some of it.
#[derive(Clone, Copy, Debug, PartialEq, Eq, PartialOrd, Ord)]
pub(crate) struct Holding {
    pub(crate) at: Endpoint,
    pub(crate) count: u64,
}

/// What the ports of an address have that were counted so far, of which this is the last.
#[derive(Clone, Copy)]
pub(crate) struct Sum {
    pub(crate) last: Endpoint,
    pub(crate) held: u64,
    pub(crate) ports: u64,
}

/// The sum with one holding more: of the same address, or the first of another.
fn sum_with(sum: Option<Sum>, holding: Holding) -> Sum
    requires { IfSome sum (λ s. same_ip holding.at.ip s.last.ip ≡ true
        → (s.held + holding.count < 2 ^ 64) × (s.ports + 1 < 2 ^ 64)) }
    ensures { result ≡ sum_with sum holding }
{
    match sum {
        Some(sum) if holding.at.ip == sum.last.ip => Sum {
            last: holding.at,
            held: sum.held + holding.count,
            ports: if holding.at.port == sum.last.port {
                sum.ports
            } else {
                sum.ports + 1
            },
        },
        Some(_) | None => Sum {
            last: holding.at,
            held: holding.count,
            ports: 1,
        },
    }
}

/// The greater of two sums, and of equal ones the second.
fn greater_of(most: Option<Sum>, sum: Sum) -> Option<Sum>
    ensures { result ≡ greater_of most sum }
{
    match most {
        Some(it) if it.held > sum.held => most,
        Some(_) | None => Some(sum),
    }
}

/// The address that has more than any other; of equal ones, the lowest.
pub(crate) fn most_of(holdings: &[Holding]) -> Option<Sum>
    requires grouped { AreGrouped holdings.now }
    requires rising { AreRising holdings.now }
    requires some { AreSome holdings.now }
    requires few { (ip : Ip) → held_in ip holdings.now < 2 ^ 64 }
    ensures none { IfNone result (holdings.now ≡ []) }
    ensures most { IfSome result (λ s. IsGreatest holdings.now s) }
{
    let mut most: Option<Sum> = None;
    let mut sum = None;
    for place in (0..holdings.len()).rev() {
        let next = sum_with(sum, holdings[place]);
        sum = Some(next);
        most = greater_of(most, next);
    }
    most
}
