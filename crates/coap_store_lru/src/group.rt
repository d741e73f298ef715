//! Groups of cache keys.
ghost use Rattle.std.specs.Prelude.{◌≡◌, ◌≢◌, ◌↔◌, ◌&&◌, ◌||◌, ◌∷◌, [], false, IfOk, not, is_ok, length, IfSome, IfNone, IsTrue, IsFalse};
ghost use Rattle.std.specs.HashSet.{contains, hash_set_len};
ghost use Rattle.coap_store.specs.Digested.{Digested, digested, same_digested};
ghost use Rattle.coap_store_lru.specs.Indexing.{has, keys_in};

use coap_message::OutOfMemory;
use coap_store::{CacheKey, DigestedKey};
use std::alloc::Global;
use std::collections::HashSet;
use std::hash::BuildHasher;

/// Keys whose targets have the same digest, as those with the same target do. A single key isn't
/// put into a set, which would take many times its room.
pub(crate) enum Group<H: BuildHasher> {
    One(DigestedKey),
    Several(Box<HashSet<DigestedKey, H>>),
}

impl<H: BuildHasher + Drop> Drop for Group<H> {
    fn drop(self) {
        match self {
            Group::One(_) => {}
            Group::Several(_) => {}
        }
    }
}

impl<H: BuildHasher + Copy> Group<H> {
    /// A group with one key.
    pub(crate) fn of(key: DigestedKey) -> Group<H>
        ensures { keys_in result ≡ key ∷ [] }
    {
        Group::One(key)
    }

    /// The key of the group that equals this one, with digests of this secret.
    pub(crate) fn find(&self, secret: u64, key: &CacheKey) -> Option<&DigestedKey>
        ensures found { IfSome result (λ d. d.now ≡ digested secret key.now) }
        ensures missing { IfNone result (has self.now (digested secret key.now) ≡ false) }
    {
        match self {
            Group::One(only) => {
                if is_equal(only, secret, key) {
                    Some(only)
                } else {
                    None
                }
            }
            Group::Several(keys) => find(keys, secret, key),
        }
    }

    /// Adds a key. If memory runs out, the keys are unchanged.
    pub(crate) fn add(
        &mut self,
        alloc: Global,
        hasher: H,
        key: DigestedKey,
    ) -> Result<(), OutOfMemory>
        ensures { (k : Digested)
            → has self.new k ≡ ((is_ok result && same_digested key k) || has self.old k) }
    {
        let first = match self {
            Group::One(first) => first.share()?,
            Group::Several(keys) => return add(keys, key),
        };
        *self = Group::Several(Box::new(alloc, both(alloc, hasher, first, key)?)?);
        Ok(())
    }

    /// Removes a key from the group, and returns whether no other is left; if so, the group is to
    /// be dropped, and may still contain this key. Doesn't allocate.
    pub(crate) fn leave(&mut self, key: &DigestedKey) -> bool
        ensures left { (k : Digested) → (not result && has self.new k)
            ≡ (not (same_digested key.now k) && has self.old k) }
        ensures filled { IsFalse result → length (keys_in self.new) ≢ 0 }
    {
        match self {
            Group::One(only) => *only == *key,
            Group::Several(keys) => delete(keys, key),
        }
    }
}

/// Whether a key has digests of this secret, and equals this one.
fn is_equal(own: &DigestedKey, secret: u64, key: &CacheKey) -> bool
    ensures { result ≡ same_digested own.now (digested secret key.now) }
{
    own.secret() == secret && *own.key() == *key
}

/// The key of a set that equals this one, with digests of this secret.
fn find<'k, H: BuildHasher>(
    keys: &'k HashSet<DigestedKey, H>,
    secret: u64,
    key: &CacheKey,
) -> Option<&'k DigestedKey>
    ensures found { IfSome result (λ d. d.now ≡ digested secret key.now) }
    ensures missing { IfNone result
        (contains same_digested keys.now (digested secret key.now) ≡ false) }
{
    for own in keys {
        if is_equal(own, secret, key) {
            return Some(own);
        }
    }
    None
}

/// A set of two keys.
fn both<H: BuildHasher>(
    alloc: Global,
    hasher: H,
    first: DigestedKey,
    second: DigestedKey,
) -> Result<HashSet<DigestedKey, H>, OutOfMemory>
where
    H: Drop,
    ensures { IfOk result
        (λ keys. (k : Digested)
        → contains same_digested keys k
        ≡ (same_digested second k || (same_digested first k || false))) }
{
    let mut keys = HashSet::with_hasher(alloc, hasher);
    add(&mut keys, first)?;
    add(&mut keys, second)?;
    Ok(keys)
}

/// Adds a key to a set.
fn add<H: BuildHasher>(
    keys: &mut HashSet<DigestedKey, H>,
    key: DigestedKey,
) -> Result<(), OutOfMemory>
    ensures { (k : Digested)
        → contains same_digested keys.new k
        ≡ ((is_ok result && same_digested key k) || contains same_digested keys.old k) }
{
    keys.insert(key)?;
    Ok(())
}

/// Removes a key from a set, and returns whether the set is empty now.
fn delete<H: BuildHasher>(keys: &mut HashSet<DigestedKey, H>, key: &DigestedKey) -> bool
    ensures left { (k : Digested)
        → contains same_digested keys.new k
        ≡ (not (same_digested key.now k) && contains same_digested keys.old k) }
    ensures empty { IsTrue result ↔ (hash_set_len keys.new ≡ 0) }
{
    keys.remove(key);
    keys.is_empty()
}
