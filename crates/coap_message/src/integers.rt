//! Integers as option values (RFC 7252, 3.2).
ghost use Rattle.std.specs.Prelude.{◌≡◌, ◌≤◌, ◌<◌, ◌^◌, IfOk, length};
ghost use Rattle.coap_message.specs.Uint.{uint_of, uint_spelling, without_zeros, IsShortest};

use crate::error::OutOfMemory;
use crate::seq::Seq;
use std::alloc::Global;

/// The number that at most eight bytes encode, in network byte order. Leading zeros are allowed,
/// and no bytes at all encode 0.
pub fn uint(value: &[u8]) -> u64
    requires { length value.now ≤ 8 }
    ensures value { result ≡ uint_of value.now }
    ensures below { result < 256 ^ length value.now }
{
    let mut number = 0;
    for byte in value {
        number = 256 * number + u64::from(*byte);
    }
    number
}

/// The fewest bytes that encode a number: none for 0, and never a leading zero.
#[tactic(auto, unfolding(crate::specs::Uint::uint_spelling))]
pub fn uint_bytes(alloc: Global, number: u64) -> Result<Seq<u8>, OutOfMemory>
    ensures value { IfOk result (λ bytes. uint_of bytes ≡ number) }
    ensures shortest { IfOk result (λ bytes. IsShortest bytes) }
    ensures exact { IfOk result (λ bytes. bytes ≡ uint_spelling number) }
{
    let bytes = number.to_be_bytes();
    Seq::from_slice(alloc, without_zeros(&bytes))
}

/// The bytes without leading zeros. For a number in network byte order this is its shortest form.
pub fn without_zeros(bytes: &[u8]) -> &[u8]
    ensures { result.now ≡ without_zeros bytes.now }
{
    let mut rest = bytes;
    while let [0, behind @ ..] = rest {
        rest = behind;
    }
    rest
}
