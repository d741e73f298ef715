//! A store as an LRU map.
ghost use Rattle.std.specs.Prelude.{◌≡◌, min, ◌<◌, ◌≤◌, ◌^◌, ◌-◌, ◌∷◌, None, true, is_ok, is_some, IsTrue, OnOk, OnErr, length, drop, take, map, nat_lt, ◌||◌, ◌&&◌, count_by, if◌then◌else◌};
ghost use Rattle.std.specs.HashSet.{contains};
ghost use Rattle.std.specs.Hash.{u64};
ghost use Rattle.std.specs.List.{IsDistinct, fold};
ghost use Rattle.coap_store.specs.declared.key.CacheKey.{CacheKey};
ghost use Rattle.coap_store.specs.Entries.{entry_key, entry_size};
ghost use Rattle.coap_store.specs.Evicting.{beyond, evictions_of};
ghost use Rattle.coap_store_lru.specs.Indexing.{AreThoseOf, has, is_held, is_indexed, is_of, is_own, keys_in, marked_by};
ghost use Rattle.coap_store_lru.specs.Recent.{recent_of};
ghost use Rattle.coap_store.specs.Digested.{digested, same_digested};
ghost use Rattle.coap_store.specs.Keys.{same_key};
ghost use Rattle.coap_store.specs.Lists.{are_distinct, cut, of_key, others, used};
ghost use Rattle.coap_store.specs.Sizes.{size_of};

use crate::group::Group;
use crate::recent::Recent;
use crate::target_index::TargetIndex;
use coap_endpoint::Target;
use coap_message::{Moment, OutOfMemory};
use coap_store::{CacheKey, DigestedKey, Evictions, Put, SharedKey, Store, Stored, bytes_with};
use std::alloc::Global;
use std::collections::HashSet;
use std::hash::BuildHasher;

/// A store that finds an entry by the hash of its key, and the keys with a target by a digest of
/// the target. Peers choose both, so the hasher should be seeded at random, as `RandomState` is.
pub struct LruStore<H: BuildHasher> {
    recent: Recent,
    /// The number of bytes that the entries count for.
    total: u64,
    index: TargetIndex<H>,
    /// The maximum number of bytes that the entries may count for.
    most_bytes: u64,
    /// The maximum number of entries.
    most_entries: usize,
    evicted: Evictions,
    ghost are_those: { AreThoseOf recent.entries total (is_indexed index.secret index.groups) },
    ghost hashed: { recent.secret ≡ index.secret },
    ghost within_bytes: { total ≤ most_bytes },
    ghost within_entries: { length recent.entries ≤ most_entries },
    ghost small: { most_bytes < 2 ^ 63 },
}

impl<H: BuildHasher + Drop> Drop for LruStore<H> {
    fn drop(self) {
        let LruStore {
            recent: _,
            total: _,
            index: _,
            most_bytes: _,
            most_entries: _,
            evicted: _,
        } = self;
    }
}

impl<H: BuildHasher + Copy> Store for LruStore<H> {
    type Seed = H;

    ghost limits = { λ s. record { bytes = s.most_bytes; entries = s.most_entries } };

    ghost entries = { λ s. s.recent.entries };

    ghost evicted = { λ s. s.evicted };

    ghost secret = { λ s. s.index.secret };

    ghost secret_of = { λ seed.
        H.Hasher.finish (fold H.Hasher.write (H.build_hasher seed) (u64 0)) };

    fn with_limits(
        alloc: Global,
        seed: H,
        most_bytes: u64,
        most_entries: usize,
    ) -> Result<LruStore<H>, OutOfMemory> {
        let index = TargetIndex::new(alloc, seed);
        Ok(LruStore {
            recent: Recent::new(alloc, index.secret)?,
            total: 0,
            index,
            most_bytes: most_bytes.min(i64::MAX as u64),
            most_entries,
            evicted: Evictions::new(),
        })
    }

    fn secret(&self) -> u64 {
        self.index.secret
    }

    fn touch(&mut self, key: &SharedKey) {
        if is_first(&self.recent, key.key()) {
            return;
        }
        if let Some(own) = self.index.own(key) {
            self.recent.promote(own);
        }
    }

    fn peek(&self, key: &SharedKey) -> Option<&Stored> {
        self.recent.peek(self.index.own(key)?)
    }

    fn put(&mut self, key: SharedKey, stored: Stored) -> Put {
        let size = bytes_with(key.bytes(), &stored);
        if size > self.most_bytes {
            self.forget(&key);
            return Put::TooLarge;
        }
        let room = Room {
            bytes: self.most_bytes,
            entries: self.most_entries,
            now: stored.got,
        };
        let key = key.into_digested(self.index.secret);
        let entry = Measured { key, stored, size };
        match put_first(&mut self.recent, &mut self.total, &mut self.index, entry) {
            Ok(()) => {
                let more = cut_to(&mut self.recent, &mut self.total, &mut self.index, room);
                self.evicted.add(more);
                Put::Kept
            }
            Err(_) => Put::NoMemory,
        }
    }

    fn mark(&mut self, target: &Target) -> usize {
        match self.index.group_of(target) {
            Some(group) => mark_group(&mut self.recent, group, target),
            None => 0,
        }
    }

    fn forget(&mut self, key: &SharedKey) -> bool {
        take_out(&mut self.recent, &mut self.total, &mut self.index, key)
    }

    fn total(&self) -> u64 {
        self.total
    }

    fn len(&self) -> usize {
        self.recent.len()
    }

    fn evictions(&self) -> Evictions {
        self.evicted
    }
}

/// How much there is room for, and the moment at which an entry came that needs some of it, in
/// milliseconds.
#[derive(Clone, Copy)]
struct Room {
    bytes: u64,
    entries: usize,
    now: Moment,
}

/// An entry, and the number of bytes that it counts for.
#[derive(Drop)]
struct Measured {
    key: DigestedKey,
    stored: Stored,
    size: u64,
    ghost measured: { size ≡ min (size_of key.key stored) (2 ^ 64 - 1) },
}

/// How many bytes an entry counts for.
fn bytes_of(key: &DigestedKey, stored: &Stored) -> u64
    ensures { result ≡ min (size_of key.now.key stored.now) (2 ^ 64 - 1) }
{
    bytes_with(key.bytes(), stored)
}

/// Whether the entry with a key is the most recently used one, which is found without hashing the
/// key.
fn is_first(recent: &Recent, key: &CacheKey) -> bool
    requires { are_distinct entry_key recent.now.entries ≡ true }
    ensures { IsTrue result → used entry_key key.now recent.now.entries ≡ recent.now.entries }
{
    match recent.first() {
        Some((first, _)) => *first.key() == *key,
        None => false,
    }
}

/// Removes the entry with a key and drops it. Returns whether there was one.
fn take_out<H: BuildHasher + Copy>(
    recent: &mut Recent,
    total: &mut u64,
    index: &mut TargetIndex<H>,
    key: &SharedKey,
) -> bool
    requires those { AreThoseOf recent.old.entries total.old
        (is_indexed index.old.secret index.old.groups) }
    requires hashed { recent.old.secret ≡ index.old.secret }
    ensures secret { index.new.secret ≡ index.old.secret }
    ensures found { result ≡ is_some (of_key entry_key key.now recent.old.entries) }
    ensures others { recent.new
        ≡ recent_of (others entry_key key.now recent.old.entries) recent.old.secret }
    ensures those { AreThoseOf recent.new.entries total.new
        (is_indexed index.new.secret index.new.groups) }
{
    let Some(own) = index.own(key) else {
        return false;
    };
    match recent.remove(own) {
        Some((of, stored)) => {
            index.remove(&of);
            *total -= bytes_of(&of, &stored);
            true
        }
        None => false,
    }
}

/// Puts an entry first, replacing the one with its key. The index takes a new key first, and loses
/// it again if there is no memory for the entry.
fn put_first<H: BuildHasher + Copy>(
    recent: &mut Recent,
    total: &mut u64,
    index: &mut TargetIndex<H>,
    entry: Measured,
) -> Result<(), OutOfMemory>
    requires those { AreThoseOf recent.old.entries total.old
        (is_indexed index.old.secret index.old.groups) }
    requires few { total.old < 2 ^ 63 }
    requires small { size_of entry.key.key entry.stored < 2 ^ 63 }
    requires own { entry.key.secret ≡ recent.old.secret }
    requires hashed { recent.old.secret ≡ index.old.secret }
    ensures secret { index.new.secret ≡ index.old.secret }
    ensures ok { OnOk result
        (recent.new
        ≡ recent_of
        ((entry.key.key, entry.stored) ∷ others entry_key entry.key.key recent.old.entries)
        recent.old.secret) }
    ensures err { OnErr result (recent.new ≡ recent.old) }
    ensures err_total { OnErr result (total.new ≡ total.old) }
    ensures err_new { OnErr result (of_key entry_key entry.key.key recent.old.entries ≡ None) }
    ensures those { AreThoseOf recent.new.entries total.new
        (is_indexed index.new.secret index.new.groups) }
{
    let _laws = recent.len();
    let Measured { key, stored, size } = entry;
    index_new(recent, index, &key)?;
    match recent.push(key, stored) {
        Ok(Some((of, former))) => {
            let former = bytes_of(&of, &former);
            *total = *total - former + size;
            Ok(())
        }
        Ok(None) => {
            *total += size;
            Ok(())
        }
        Err(refused) => {
            index.remove(&refused);
            Err(OutOfMemory)
        }
    }
}

/// Adds a key to the index, if it is new: one with an entry is in it already. If memory runs out,
/// nothing is changed.
fn index_new<H: BuildHasher + Copy>(
    recent: &Recent,
    index: &mut TargetIndex<H>,
    key: &DigestedKey,
) -> Result<(), OutOfMemory>
    requires own { key.now.secret ≡ recent.now.secret }
    requires hashed { recent.now.secret ≡ index.old.secret }
    requires those { (k : CacheKey)
        → is_indexed index.old.secret index.old.groups k ≡ is_held recent.now.entries k }
    ensures secret { index.new.secret ≡ index.old.secret }
    ensures indexed { (k : CacheKey)
        → is_indexed index.new.secret index.new.groups k
        ≡ ((is_ok result && same_key key.now.key k)
        || is_indexed index.old.secret index.old.groups k) }
    ensures err_new { OnErr result (of_key entry_key key.now.key recent.now.entries ≡ None) }
{
    match recent.peek(key) {
        Some(_) => Ok(()),
        None => index.insert(key),
    }
}

/// Evicts the least recently used entries until there is room for the rest, and returns how many
/// these were.
fn cut_to<H: BuildHasher + Copy>(
    recent: &mut Recent,
    total: &mut u64,
    index: &mut TargetIndex<H>,
    room: Room,
) -> Evictions
    requires those { AreThoseOf recent.old.entries total.old
        (is_indexed index.old.secret index.old.groups) }
    requires hashed { recent.old.secret ≡ index.old.secret }
    ensures secret { index.new.secret ≡ index.old.secret }
    ensures kept { recent.new
        ≡ recent_of (cut entry_size room.bytes room.entries recent.old.entries) recent.old.secret }
    ensures counted { result
        ≡ evictions_of room.now
        (beyond entry_size room.bytes room.entries recent.old.entries) }
    ensures those { AreThoseOf recent.new.entries total.new
        (is_indexed index.new.secret index.new.groups) }
{
    let _laws = recent.len();
    let mut evicted = Evictions::new();
    'over: while is_over(recent, *total, room) {
        evicted.add(take_last(recent, total, index, room.now));
    }
    evicted
}

/// Whether there is no room for entries that count for `total` bytes.
fn is_over(recent: &Recent, total: u64, room: Room) -> bool
    ensures { result
        ≡ (nat_lt room.bytes total || nat_lt room.entries (length recent.now.entries)) }
{
    total > room.bytes || recent.len() > room.entries
}

/// Evicts the least recently used entry, if there is one, and counts it, by whether it is fresh at
/// this moment.
fn take_last<H: BuildHasher + Copy>(
    recent: &mut Recent,
    total: &mut u64,
    index: &mut TargetIndex<H>,
    now: Moment,
) -> Evictions
    requires those { AreThoseOf recent.old.entries total.old
        (is_indexed index.old.secret index.old.groups) }
    requires hashed { recent.old.secret ≡ index.old.secret }
    ensures secret { index.new.secret ≡ index.old.secret }
    ensures left { recent.new
        ≡ recent_of (take (length recent.old.entries - 1) recent.old.entries) recent.old.secret }
    ensures counted { result
        ≡ evictions_of now (drop (length recent.old.entries - 1) recent.old.entries) }
    ensures those { AreThoseOf recent.new.entries total.new
        (is_indexed index.new.secret index.new.groups) }
{
    match recent.remove_last() {
        Some((key, stored)) => {
            index.remove(&key);
            *total -= bytes_of(&key, &stored);
            Evictions {
                entries: 1,
                fresh: u64::from(stored.is_fresh(now)),
            }
        }
        None => Evictions::new(),
    }
}

/// Marks the entries for those keys in a group that have this target, and counts these keys: those
/// with digests of the map's secret, as all are.
fn mark_group<H: BuildHasher>(recent: &mut Recent, group: &Group<H>, target: &Target) -> usize
    requires { are_distinct entry_key recent.old.entries ≡ true }
    ensures marked { recent.new
        ≡ recent_of
        (map (marked_by (λ k. is_of target.now k && has group.now (digested recent.old.secret k)))
        recent.old.entries)
        recent.old.secret }
    ensures counted { result
        ≡ count_by (is_own recent.old.secret target.now) (keys_in group.now) }
    ensures distinct { IsDistinct same_digested (keys_in group.now) }
{
    match group {
        Group::One(key) => mark_of(recent, key, target),
        Group::Several(keys) => mark_keys(recent, keys, target),
    }
}

/// Marks the entries for those keys of a set that have this target, and counts these keys.
fn mark_keys<H: BuildHasher>(
    recent: &mut Recent,
    keys: &HashSet<DigestedKey, H>,
    target: &Target,
) -> usize
    requires { are_distinct entry_key recent.old.entries ≡ true }
    ensures marked { recent.new
        ≡ recent_of
        (map
        (marked_by (λ k.
        is_of target.now k && contains same_digested keys.now (digested recent.old.secret k)))
        recent.old.entries)
        recent.old.secret }
    ensures counted { result ≡ count_by (is_own recent.old.secret target.now) keys.now.keys }
    ensures distinct { IsDistinct same_digested keys.now.keys }
{
    let _laws = keys.len();
    let mut count = 0;
    for key in keys {
        count += mark_of(recent, key, target);
    }
    count
}

/// Marks the entry with a key, if the key has this target, and returns 1 then and otherwise 0.
fn mark_of(recent: &mut Recent, key: &DigestedKey, target: &Target) -> usize
    requires { are_distinct entry_key recent.old.entries ≡ true }
    ensures marked { recent.new
        ≡ recent_of
        (map
        (marked_by (λ k.
        is_of target.now k && same_digested (digested recent.old.secret k) key.now))
        recent.old.entries)
        recent.old.secret }
    ensures counted { result ≡ (if is_own recent.old.secret target.now key.now then 1 else 0) }
{
    if is_own(recent.secret(), target, key) {
        recent.mark(key);
        1
    } else {
        0
    }
}

/// Whether a key has this target, and digests of this secret.
fn is_own(secret: u64, target: &Target, key: &DigestedKey) -> bool
    ensures { result ≡ is_own secret target.now key.now }
{
    key.secret() == secret && key.key().target == *target
}
