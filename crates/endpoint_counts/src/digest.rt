//! Digests of endpoints, by which they are found.
ghost use Rattle.std.specs.Prelude.{◌≡◌};
ghost use Rattle.endpoint_counts.specs.Digests.{digest_of_endpoint};

use coap_endpoint::{Endpoint, Ip};
use std::hash::{DefaultHasher, Hash, Hasher};

/// An odd number whose multiples are spread over 64 bits: 2^64 divided by the golden ratio.
const SPREAD: u64 = 0x9E37_79B9_7F4A_7C15;

/// The digest of an endpoint: its IPv4 address and its port as one number, times `SPREAD`, so that
/// the endpoints of one network are far apart; or else what a hasher makes of them. Equal endpoints
/// have equal digests.
pub(crate) fn digest_of_endpoint(at: &Endpoint) -> u64
    ensures exact { result ≡ digest_of_endpoint at.now }
{
    let port = u64::from(at.port);
    match at.ip {
        Ip::V4(octets) => {
            let number = u64::from(u32::from_be_bytes(octets)) * 0x1_0000 + port;
            number.wrapping_mul(SPREAD)
        }
        Ip::V6(_) => {
            let mut hasher = DefaultHasher::new();
            at.hash(&mut hasher);
            hasher.finish()
        }
    }
}
