//! An LRU map whose keys are hashed as their digests.
ghost use Rattle.std.specs.Prelude.{◌≡◌, ◌<◌, ◌^◌, ◌-◌, ◌∷◌, [], None, IfErr, IfOk, IfNone, IfSome, OnOk, OnErr, length, map, option_map, slice_get, take, true};
ghost use Rattle.std.specs.Map.{lookup, set_value};
ghost use Rattle.lru.specs.LruCache.{lru_cache};
ghost use Rattle.coap_store.specs.Digested.{same_digested};
ghost use Rattle.coap_store.specs.Entries.{entry_key, stored_for};
ghost use Rattle.coap_store.specs.Keys.{same_key};
ghost use Rattle.coap_store.specs.Lists.{are_distinct, of_key, others, used};
ghost use Rattle.coap_store_lru.specs.Indexing.{marked_by};
ghost use Rattle.coap_store_lru.specs.Recent.{recent_of, shown};

use coap_endpoint::Seeded;
use coap_message::OutOfMemory;
use coap_store::{DigestedKey, Stored};
use lru::LruCache;
use std::alloc::{AllocFailed, Global};
use std::marker::Model;

/// Entries, the most recently used first. Their keys are hashed as their digests, all of which were
/// made with one secret, so that whoever doesn't know it can't choose keys that meet. A contract
/// sees the entries and the secret.
pub(crate) struct Recent {
    entries: LruCache<DigestedKey, Stored, Seeded>,
    secret: u64,
}

impl Drop for Recent {
    fn drop(self) {
        let Recent {
            entries: _,
            secret: _,
        } = self;
    }
}

impl Model for Recent {
    ghost use Rattle.std.specs.Prelude.{◌≡◌, ◌^◌, ◌-◌, map};
    ghost use Rattle.coap_store_lru.specs.Recent.{AreOf, Recent, recent_of, shown};

    ghost Value = { Recent };

    ghost view = { λ r. recent_of (map shown r.entries.entries) r.secret };

    ghost invariant = { λ r.
        AreOf r.secret r.entries.entries × (r.entries.cap ≡ 2 ^ 64 - 1) };
}

impl Recent {
    /// No entries. The digests of the keys will be made with this secret.
    ///
    /// # Errors
    /// Out of memory.
    pub(crate) fn new(alloc: Global, secret: u64) -> Result<Recent, OutOfMemory>
        ensures { IfOk result (λ none. none ≡ recent_of [] secret) }
    {
        Ok(Recent {
            entries: LruCache::unbounded_with_hasher(alloc, Seeded::new(secret))?,
            secret,
        })
    }

    /// The secret of the keys' digests.
    pub(crate) fn secret(&self) -> u64
        ensures { result ≡ self.now.secret }
    {
        self.secret
    }

    /// The number of entries.
    pub(crate) fn len(&self) -> usize
        ensures len { result ≡ length self.now.entries }
        ensures fits { result < 2 ^ 63 }
    {
        self.entries.len()
    }

    /// What is stored for a key.
    pub(crate) fn peek(&self, key: &DigestedKey) -> Option<&Stored>
        requires own { key.now.secret ≡ self.now.secret }
        ensures { option_map (λ stored. stored.now) result
            ≡ stored_for key.now.key self.now.entries }
    {
        self.entries.peek(key)
    }

    /// The most recently used entry.
    pub(crate) fn first(&self) -> Option<(&DigestedKey, &Stored)>
        ensures entry { option_map (λ entry. (entry.0.now.key, entry.1.now)) result
            ≡ slice_get self.now.entries 0 }
        ensures own { IfSome result (λ entry. entry.0.now.secret ≡ self.now.secret) }
    {
        self.entries.peek_mru()
    }

    /// Makes the entry with a key the most recently used, if there is one.
    pub(crate) fn promote(&mut self, key: &DigestedKey)
        requires own { key.now.secret ≡ self.old.secret }
        requires distinct { are_distinct entry_key self.old.entries ≡ true }
        ensures { self.new
            ≡ recent_of (used entry_key key.now.key self.old.entries) self.old.secret }
    {
        self.entries.promote(key);
    }

    /// Marks the entry with a key, if there is one.
    pub(crate) fn mark(&mut self, key: &DigestedKey)
        requires own { key.now.secret ≡ self.old.secret }
        requires distinct { are_distinct entry_key self.old.entries ≡ true }
        ensures { self.new
            ≡ recent_of (map (marked_by (λ k. same_key k key.now.key)) self.old.entries)
            self.old.secret }
    {
        mark(&mut self.entries, key);
    }

    /// Puts an entry first, and returns the one with its key that it replaces.
    ///
    /// # Errors
    /// Out of memory, which only a new key needs: the key, and nothing is changed.
    pub(crate) fn push(
        &mut self,
        key: DigestedKey,
        stored: Stored,
    ) -> Result<Option<(DigestedKey, Stored)>, DigestedKey>
        requires own { key.secret ≡ self.old.secret }
        requires distinct { are_distinct entry_key self.old.entries ≡ true }
        ensures old { IfOk result (λ old.
            option_map shown old ≡ of_key entry_key key.key self.old.entries) }
        ensures ok { OnOk result
            (self.new
            ≡ recent_of ((key.key, stored) ∷ others entry_key key.key self.old.entries)
            self.old.secret) }
        ensures err { OnErr result (self.new ≡ self.old) }
        ensures refused { IfErr result (λ refused. refused ≡ key) }
        ensures err_new { OnErr result (of_key entry_key key.key self.old.entries ≡ None) }
    {
        let _laws = self.entries.len();
        match self.entries.push(key, stored) {
            Ok(old) => Ok(old),
            Err(AllocFailed { value: (key, _) }) => Err(key),
        }
    }

    /// Removes the entry with a key, and returns it.
    pub(crate) fn remove(&mut self, key: &DigestedKey) -> Option<(DigestedKey, Stored)>
        requires own { key.now.secret ≡ self.old.secret }
        requires distinct { are_distinct entry_key self.old.entries ≡ true }
        ensures value { option_map shown result
            ≡ of_key entry_key key.now.key self.old.entries }
        ensures own { IfSome result (λ entry. entry.0.secret ≡ self.old.secret) }
        ensures entries { self.new
            ≡ recent_of (others entry_key key.now.key self.old.entries) self.old.secret }
    {
        self.entries.pop_entry(key)
    }

    /// Removes the least recently used entry, and returns it.
    pub(crate) fn remove_last(&mut self) -> Option<(DigestedKey, Stored)>
        ensures value { option_map shown result
            ≡ slice_get self.old.entries (length self.old.entries - 1) }
        ensures own { IfSome result (λ entry. entry.0.secret ≡ self.old.secret) }
        ensures entries { self.new
            ≡ recent_of (take (length self.old.entries - 1) self.old.entries) self.old.secret }
    {
        self.entries.pop_lru()
    }
}

/// Marks the entry with a key, if there is one.
fn mark(entries: &mut LruCache<DigestedKey, Stored, Seeded>, key: &DigestedKey)
    ensures found { IfSome (lookup (same_digested key.now) entries.old.entries) (λ s.
        entries.new
        ≡ lru_cache
        (set_value (same_digested key.now) entries.old.entries (record s { marked = true }))
        entries.old.cap) }
    ensures missing { IfNone (lookup (same_digested key.now) entries.old.entries)
        (entries.new ≡ entries.old) }
{
    match entries.peek_mut(key) {
        Some(stored) => stored.marked = true,
        None => {}
    }
}
