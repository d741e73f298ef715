//! Stores of responses (RFC 7252, 5.6).
ghost use Rattle.std.specs.Prelude.{◌≡◌, ◌≢◌, ◌↔◌, ◌<◌, ◌≤◌, ◌^◌, ◌-◌, ℕ, [], None, IfOk, IsTrue, IsFalse, List, length, map, count_by, is_some, min};
ghost use Rattle.std.specs.Option.{option_map};
ghost use Rattle.coap_store.specs.Entries.{Entry, IsStore, Limits, entry_key, entry_size, has_usable, is_for, marked, stored_for};
ghost use Rattle.coap_store.specs.Evicting.{after_put, no_evictions};
ghost use Rattle.coap_store.specs.declared.evictions.Evictions.{Evictions};
ghost use Rattle.coap_store.specs.Lists.{of_key, others, put, total, used};
ghost use Rattle.coap_store.specs.Sizes.{size_of};

use crate::evictions::Evictions;
use crate::shared_key::SharedKey;
use crate::stored::Stored;
use coap_endpoint::Target;
use coap_message::{Moment, OutOfMemory};
use std::alloc::Global;

/// What a store did with an entry that it was given.
#[derive(Clone, Copy, Debug, PartialEq, Eq)]
pub enum Put {
    /// It is stored, unless the store has room for no entries. What no longer fitted was dropped.
    Kept,
    /// It alone counts for more bytes than the store keeps. What was stored for its key was
    /// dropped.
    TooLarge,
    /// Out of memory for one more entry. Nothing was changed.
    NoMemory,
}

/// A store of responses, which keeps the most recently used within limits. A contract sees its
/// limits, its entries as a list, the most recently used first, and how many it evicted. No two
/// entries have the same key.
pub trait Store {
    /// What a store needs besides its limits, such as a hasher.
    type Seed;

    ghost limits: { Self → Limits };

    ghost entries: { Self → List Entry };

    ghost evicted: { Self → Evictions };

    ghost secret: { Self → ℕ };

    /// The secret that comes of a seed. Whoever can't know the seed can't know it.
    ghost secret_of: { Self.Seed → ℕ };

    /// An empty store, which keeps at most `most_bytes` bytes, as `bytes_of` counts them, and at
    /// most `most_entries` entries. It never keeps more than 2^63 - 1 bytes: a greater limit is
    /// lowered to that.
    ///
    /// # Errors
    /// Out of memory.
    fn with_limits(
        alloc: Global,
        seed: Self::Seed,
        most_bytes: u64,
        most_entries: usize,
    ) -> Result<Self, OutOfMemory>
    where
        Self: Sized,
        ensures limited { IfOk result
            (λ s. limits s
            ≡ record { bytes = min most_bytes (2 ^ 63 - 1); entries = most_entries }) }
        ensures empty { IfOk result (λ s. entries s ≡ []) }
        ensures evicted { IfOk result (λ s. evicted s ≡ no_evictions) }
        ensures secret { IfOk result (λ s. secret s ≡ secret_of seed) };

    /// The secret that its seed gives. Digests are made with it: those by which the store finds a
    /// key, and, so that a key is hashed once, those by which exchanges are found. Doesn't allocate.
    fn secret(&self) -> u64
        ensures exact { result ≡ secret self.now };

    /// Whether the response stored for the key may answer a request at this moment, in
    /// milliseconds: there is one, it is fresh, and it isn't marked (RFC 7252, 5.6 and 5.6.1). If
    /// so, it becomes the most recently used. Doesn't allocate. The core doesn't call it: it writes
    /// a reply between `peek` and `touch`.
    fn hit(&mut self, key: &SharedKey, now: Moment) -> bool
        ensures usable { result ≡ has_usable key.now now (entries self.old) }
        ensures moved { IsTrue result
            → entries self.new ≡ used entry_key key.now (entries self.old) }
        ensures unmoved { IsFalse result → entries self.new ≡ entries self.old }
        ensures limited { limits self.new ≡ limits self.old }
        ensures secret { secret self.new ≡ secret self.old }
        ensures evicted { evicted self.new ≡ evicted self.old }
    {
        let usable = self.peek(key).is_some_and(|stored| stored.is_usable(now));
        if usable {
            self.touch(key);
        }
        usable
    }

    /// Makes what is stored for the key the most recently used, if anything is stored. Doesn't
    /// allocate.
    fn touch(&mut self, key: &SharedKey)
        ensures moved { entries self.new ≡ used entry_key key.now (entries self.old) }
        ensures limited { limits self.new ≡ limits self.old }
        ensures secret { secret self.new ≡ secret self.old }
        ensures evicted { evicted self.new ≡ evicted self.old };

    /// What is stored for the key. Doesn't allocate.
    fn peek(&self, key: &SharedKey) -> Option<&Stored>
        ensures { option_map (λ stored. stored.now) result
            ≡ stored_for key.now (entries self.now) };

    /// Stores a response as the most recently used, replacing the one for its key. Drops the least
    /// recently used ones until the rest is within both limits, so a store with room for no entries
    /// keeps none. Doesn't allocate if the key already has an entry.
    fn put(&mut self, key: SharedKey, stored: Stored) -> Put
        ensures kept { result ≡ Put.Kept
            → entries self.new
            ≡ put entry_key entry_size (limits self.old).bytes (limits self.old).entries
            (key, stored) (entries self.old) }
        ensures kept_fits { result ≡ Put.Kept → size_of key stored ≤ (limits self.old).bytes }

        ensures too_large { result ≡ Put.TooLarge
            → entries self.new ≡ others entry_key key (entries self.old) }
        ensures too_large_exceeds { result ≡ Put.TooLarge
            → (limits self.old).bytes < size_of key stored }

        ensures no_memory { result ≡ Put.NoMemory → entries self.new ≡ entries self.old }
        ensures no_memory_fits { result ≡ Put.NoMemory
            → size_of key stored ≤ (limits self.old).bytes }
        ensures no_memory_new { result ≡ Put.NoMemory
            → of_key entry_key key (entries self.old) ≡ None }

        // What it drops to make room is counted, by whether it is fresh when the new one comes.
        ensures evicted { result ≡ Put.Kept
            → evicted self.new
            ≡ after_put (limits self.old) (key, stored) (entries self.old) (evicted self.old) }
        ensures none_evicted { result ≢ Put.Kept → evicted self.new ≡ evicted self.old }

        ensures limited { limits self.new ≡ limits self.old }
        ensures secret { secret self.new ≡ secret self.old };

    /// Marks what is stored for any key of a target that was changed, so that it no longer answers
    /// requests (RFC 7252, 5.9.1). Returns the number of entries that the target has, including
    /// those marked before. Doesn't allocate.
    fn mark(&mut self, target: &Target) -> usize
        ensures counted { result ≡ count_by (is_for target.now) (entries self.old) }
        ensures marked { entries self.new ≡ map (marked target.now) (entries self.old) }
        ensures limited { limits self.new ≡ limits self.old }
        ensures secret { secret self.new ≡ secret self.old }
        ensures evicted { evicted self.new ≡ evicted self.old };

    /// Drops what is stored for the key, and returns whether there was anything. Doesn't allocate.
    fn forget(&mut self, key: &SharedKey) -> bool
        ensures found { result ≡ is_some (of_key entry_key key.now (entries self.old)) }
        ensures given_up { entries self.new ≡ others entry_key key.now (entries self.old) }
        ensures limited { limits self.new ≡ limits self.old }
        ensures secret { secret self.new ≡ secret self.old }
        ensures evicted { evicted self.new ≡ evicted self.old };

    /// How many bytes the entries count for, as `bytes_of` counts them. Doesn't allocate.
    fn total(&self) -> u64
        ensures bytes { result ≡ total entry_size (entries self.now) }
        ensures within { result ≤ (limits self.now).bytes };

    /// The number of entries. Doesn't allocate.
    fn len(&self) -> usize
        ensures length { result ≡ length (entries self.now) }
        ensures valid { IsStore (limits self.now) (entries self.now) };

    /// How many entries it evicted to make room for others, since it was made. Doesn't allocate.
    fn evictions(&self) -> Evictions
        ensures { result ≡ evicted self.now };

    /// Whether there are no entries. Doesn't allocate.
    fn is_empty(&self) -> bool
        ensures { IsTrue result ↔ (entries self.now ≡ []) }
    {
        self.len() == 0
    }
}
