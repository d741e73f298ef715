//! Digests of cache keys and of targets, by which tables find them.
ghost use Rattle.std.specs.Prelude.{◌≡◌};
ghost use Rattle.coap_store.specs.Digests.{digest_of_target, digests_of};

use crate::key::CacheKey;
use coap_endpoint::Target;
use std::hash::{DefaultHasher, Hash, Hasher};

/// The digests of a cache key and of its target. Equal keys have equal digests, and so have equal
/// targets, if these were made with the same secret.
#[derive(Clone, Copy)]
pub struct Digests {
    pub key: u64,
    pub target: u64,
}

/// The digests of a cache key and of its target, in one pass over the key, whose target is hashed
/// first. A secret is hashed before the key, so that whoever doesn't know it can't look for keys
/// that have the same digest.
#[tactic(auto, unfolding(crate::specs::Digests::digest_of_target, crate::specs::Digests::digest_of_key))]
pub fn digests_of(secret: u64, key: &CacheKey) -> Digests
    ensures exact { result ≡ digests_of secret key.now }
{
    let mut hasher = DefaultHasher::new();
    hasher.write_u64(secret);
    key.target.hash(&mut hasher);
    let target = hasher.finish();
    key.options.hash(&mut hasher);
    Digests {
        key: hasher.finish(),
        target,
    }
}

/// The digest of a target, as `digests_of` makes it.
#[tactic(auto, unfolding(crate::specs::Digests::digest_of_target))]
pub fn digest_of_target(secret: u64, target: &Target) -> u64
    ensures exact { result ≡ digest_of_target secret target.now }
{
    let mut hasher = DefaultHasher::new();
    hasher.write_u64(secret);
    target.hash(&mut hasher);
    hasher.finish()
}
