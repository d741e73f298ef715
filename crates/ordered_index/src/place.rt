//! The places of keys.
ghost use Rattle.std.specs.Prelude.{◌≡◌, ◌<◌};
ghost use Rattle.ordered_index.specs.Hashed.{factor_of, place_of};

use std::hash::{DefaultHasher, Hasher};

/// The place of a key, of `many` places. Multiplied once, keys in a row might lie close together, by
/// chance of the factor: so the upper half of the product joins the lower one, and it is multiplied
/// again.
pub(crate) fn place_of(factor: u64, many: usize, key: u64) -> usize
    requires { 0 < many }
    ensures exact { result ≡ place_of factor many key }
    ensures within { result < many }
{
    let once = key.wrapping_mul(factor);
    let spread = (once ^ (once >> 32)).wrapping_mul(factor);
    (u128::from(spread) * many as u128 / (1 << 64)) as usize
}

/// What spreads the keys of an index that is made with this seed. It is odd, so that different
/// keys stay different.
#[tactic(auto, unfolding(crate::specs::Hashed::factor_of))]
pub(crate) fn factor_of(seed: u64) -> u64
    ensures exact { result ≡ factor_of seed }
{
    let mut hasher = DefaultHasher::new();
    hasher.write_u64(seed);
    hasher.finish() | 1
}
