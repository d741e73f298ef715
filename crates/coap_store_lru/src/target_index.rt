//! An index of the keys, by their targets.
ghost use Rattle.std.specs.Prelude.{◌≡◌, ◌&&◌, ◌||◌, ℕ, None, false, nat_eq, not, is_ok, IfSome, IfNone, IsFalse};
ghost use Rattle.std.specs.Hash.{u64};
ghost use Rattle.std.specs.List.{fold};
ghost use Rattle.std.specs.Option.{option_copied};
ghost use Rattle.std.specs.HashMap.{get};
ghost use Rattle.coap_store.specs.declared.key.CacheKey.{CacheKey};
ghost use Rattle.coap_store.specs.Digested.{Digested, digested, same_digested};
ghost use Rattle.coap_store.specs.Digests.{digest_of_target};
ghost use Rattle.coap_store.specs.Keys.{same_key};
ghost use Rattle.coap_store_lru.specs.Indexing.{AreFilled, in_group, is_indexed};

use crate::group::Group;
use coap_endpoint::{Seeded, Target};
use coap_message::OutOfMemory;
use coap_store::{DigestedKey, SharedKey, digest_of_target};
use std::alloc::Global;
use std::collections::HashMap;
use std::collections::hash_map::Entry;
use std::hash::BuildHasher;

/// Keys in groups, one for each digest of a target, so that no targets are stored in addition to
/// those of the keys.
pub(crate) struct TargetIndex<H: BuildHasher> {
    /// The groups by digest. Peers can't aim at a digest, so a fast hasher will do.
    pub(crate) groups: HashMap<u64, Group<H>, Seeded>,
    /// What is hashed before each target to get its digest. It is made by the hasher, which should
    /// be seeded at random, since peers choose targets.
    pub(crate) secret: u64,
    hasher: H,
    alloc: Global,
    ghost filled: { AreFilled groups },
}

impl<H: BuildHasher + Drop> Drop for TargetIndex<H> {
    fn drop(self) {
        let TargetIndex {
            groups: _,
            secret: _,
            hasher: _,
            alloc: _,
        } = self;
    }
}

impl<H: BuildHasher + Copy> TargetIndex<H> {
    /// An index without keys.
    pub(crate) fn new(alloc: Global, hasher: H) -> TargetIndex<H>
        ensures empty { (k : CacheKey) → is_indexed result.secret result.groups k ≡ false }
        ensures secret { result.secret
            ≡ H.Hasher.finish (fold H.Hasher.write (H.build_hasher hasher) (u64 0)) }
    {
        let secret = hasher.hash_one(0u64);
        TargetIndex {
            groups: HashMap::with_hasher(alloc, Seeded::new(secret)),
            secret,
            hasher,
            alloc,
        }
    }

    /// The group with the keys of a target, which has those of other targets only if they have the
    /// same digest.
    pub(crate) fn group_of(&self, target: &Target) -> Option<&Group<H>>
        ensures { option_copied result
            ≡ get nat_eq self.now.groups (digest_of_target self.now.secret target.now) }
    {
        self.groups.get(&digest_of_target(self.secret, target))
    }

    /// A key with digests of the index's secret: the one given, or else the one in the index that
    /// equals it.
    pub(crate) fn own<'k>(&'k self, key: &'k SharedKey) -> Option<&'k DigestedKey>
        ensures found { IfSome result (λ d. d.now ≡ digested self.now.secret key.now) }
        ensures missing { IfNone result
            (is_indexed self.now.secret self.now.groups key.now ≡ false) }
    {
        let given = key.digested();
        if given.secret() == self.secret {
            return Some(given);
        }
        let group = self.group_of(&key.key().target)?;
        group.find(self.secret, key.key())
    }

    /// Adds a key. If memory runs out, the keys are unchanged.
    pub(crate) fn insert(&mut self, key: &DigestedKey) -> Result<(), OutOfMemory>
        requires own { key.now.secret ≡ self.old.secret }
        ensures secret { self.new.secret ≡ self.old.secret }
        ensures more { (k : CacheKey)
            → is_indexed self.new.secret self.new.groups k
            ≡ ((is_ok result && same_key key.now.key k)
            || is_indexed self.old.secret self.old.groups k) }
    {
        let copy = key.share()?;
        let at = key.digests().target;
        enter(&mut self.groups, self.alloc, self.hasher, at, copy)
    }

    /// Removes a key, and with the last key of a digest its group. Doesn't allocate.
    pub(crate) fn remove(&mut self, key: &DigestedKey)
        requires own { key.now.secret ≡ self.old.secret }
        ensures secret { self.new.secret ≡ self.old.secret }
        ensures left { (k : CacheKey) → is_indexed self.new.secret self.new.groups k
            ≡ (not (same_key key.now.key k) && is_indexed self.old.secret self.old.groups k) }
    {
        let at = key.digests().target;
        if leave(&mut self.groups, at, key) {
            self.groups.remove(&at);
        }
    }
}

/// Adds a key to the group of a digest, which is looked up once. If memory runs out, the keys are
/// unchanged.
fn enter<H: BuildHasher + Copy>(
    groups: &mut HashMap<u64, Group<H>, Seeded>,
    alloc: Global,
    hasher: H,
    at: u64,
    key: DigestedKey,
) -> Result<(), OutOfMemory>
    requires { AreFilled groups.old }
    ensures more { (k : Digested) → in_group groups.new at k
        ≡ ((is_ok result && same_digested key k) || in_group groups.old at k) }
    ensures others { (e : ℕ)
        → nat_eq at e ≡ false
        → get nat_eq groups.new e ≡ get nat_eq groups.old e }
    ensures filled { AreFilled groups.new }
{
    match groups.entry(at)? {
        Entry::Occupied(entry) => entry.into_mut().add(alloc, hasher, key),
        Entry::Vacant(entry) => {
            entry.insert(Group::of(key));
            Ok(())
        }
    }
}

/// Removes a key from the group of a digest, and returns whether no other is left in it; if so, the
/// group is to be removed.
fn leave<H: BuildHasher + Copy>(
    groups: &mut HashMap<u64, Group<H>, Seeded>,
    at: u64,
    key: &DigestedKey,
) -> bool
    requires { AreFilled groups.old }
    ensures left { (k : Digested) → (not result && in_group groups.new at k)
        ≡ (not (same_digested key.now k) && in_group groups.old at k) }
    ensures others { (e : ℕ)
        → nat_eq at e ≡ false
        → get nat_eq groups.new e ≡ get nat_eq groups.old e }
    ensures filled { IsFalse result → AreFilled groups.new }
{
    match groups.get_mut(&at) {
        Some(group) => group.leave(key),
        None => false,
    }
}
