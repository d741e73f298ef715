//! Cache keys that are shared.
ghost use Rattle.std.specs.Prelude.{◌≡◌, ◌⊎◌, min, IfOk, OnOk, OnErr};
ghost use Rattle.std.specs.Cmp.{partial_equiv_from_equiv};
ghost use Rattle.coap_store.specs.Alike.{keys_equiv};
ghost use Rattle.coap_store.specs.Digested.{digested};
ghost use Rattle.coap_store.specs.Digests.{digests_of};
ghost use Rattle.coap_store.specs.Keys.{same_key, IsEmptiedKey};
ghost use Rattle.coap_store.specs.Sizes.{key_size};

use crate::digested_key::DigestedKey;
use crate::digests::{Digests, digests_of};
use crate::key::CacheKey;
use coap_message::OutOfMemory;
use std::alloc::Global;
use std::marker::Model;
use std::ops::Deref;

/// A cache key that all who need it share, so that it is copied and hashed once: an exchange, the
/// store, and its index of targets. It is a `DigestedKey` of which a contract sees the key alone:
/// its users needn't know with which secret it was hashed.
#[derive(Drop)]
pub struct SharedKey {
    digested: DigestedKey,
}

impl Model for SharedKey {
    ghost use Rattle.coap_store.specs.declared.key.CacheKey.{CacheKey};

    ghost Value = { CacheKey };

    ghost view = { λ s. s.digested.key };
}

/// What a key is made from.
pub trait KeySource {
    ghost use Rattle.coap_store.specs.declared.key.CacheKey.{CacheKey};

    ghost made: { Self → CacheKey };

    /// Overwrites a key with the one that is made, and reuses its room.
    ///
    /// # Errors
    /// Out of memory. The key is then empty.
    fn write_to(&self, key: &mut CacheKey) -> Result<(), OutOfMemory>
        ensures made { OnOk result (key.new ≡ made self.now) }
        ensures emptied { OnErr result (IsEmptiedKey key.new) };
}

impl SharedKey {
    /// A key that nobody shares yet. It is hashed here, with a secret: a store or a table with
    /// another one hashes it again.
    ///
    /// # Errors
    /// Out of memory.
    pub fn new(alloc: Global, key: CacheKey, secret: u64) -> Result<SharedKey, OutOfMemory>
        ensures { IfOk result (λ shared. shared ≡ key) }
    {
        Ok(SharedKey {
            digested: DigestedKey::new(alloc, key, secret)?,
        })
    }

    /// The key.
    pub fn key(&self) -> &CacheKey
        ensures { result.now ≡ self.now }
    {
        self.digested.key()
    }

    /// The key with its digests.
    pub fn digested(&self) -> &DigestedKey
        ensures { result.now.key ≡ self.now }
    {
        &self.digested
    }

    /// The key with the digests that this secret gives.
    pub fn into_digested(self, secret: u64) -> DigestedKey
        ensures { result ≡ digested secret self }
    {
        let SharedKey { digested } = self;
        digested.with_secret(secret)
    }

    /// The digests that this secret gives. The key is hashed again only if it was hashed with
    /// another one.
    pub fn digests(&self, secret: u64) -> Digests
        ensures { result ≡ digests_of secret self.now }
    {
        if self.digested.secret() == secret {
            self.digested.digests()
        } else {
            digests_of(secret, self.key())
        }
    }

    /// How many of the bytes of its entry the key counts for, of which there are at most
    /// `u64::MAX`.
    pub fn bytes(&self) -> u64
        ensures { result ≡ min (key_size self.now) u64.MAX }
    {
        self.digested.bytes()
    }

    /// The same key for one more who needs it. Doesn't allocate.
    ///
    /// # Errors
    /// If 2^64 - 1 share it.
    pub fn share(&self) -> Result<SharedKey, OutOfMemory>
        ensures { IfOk result (λ shared. shared ≡ self.now) }
    {
        Ok(SharedKey {
            digested: self.digested.share()?,
        })
    }

    /// A copy, with no spare capacity, which nobody shares yet. It isn't hashed again.
    ///
    /// # Errors
    /// Out of memory.
    pub fn copied(&self, alloc: Global) -> Result<SharedKey, OutOfMemory>
        ensures { IfOk result (λ copy. copy ≡ self.now) }
    {
        Ok(SharedKey {
            digested: self.digested.copied(alloc)?,
        })
    }

    /// Overwrites the key, which nobody else shares, and reuses its room. It is hashed with this
    /// secret.
    ///
    /// # Errors
    /// - Out of memory. The key is then empty.
    /// - Somebody else shares it. Then it is unchanged.
    pub fn overwrite<S: KeySource>(&mut self, source: &S, secret: u64) -> Result<(), OutOfMemory>
        ensures made { OnOk result (self.new ≡ S.made source.now) }
        ensures emptied { OnErr result ((self.new ≡ self.old) ⊎ IsEmptiedKey self.new) }
    {
        self.digested.overwrite(source, secret)
    }
}

impl Deref for SharedKey {
    type Target = CacheKey;

    ghost deref_gives = { λ shared key. key ≡ shared };

    fn deref(&self) -> &CacheKey
        ensures { result.now ≡ self.now }
    {
        self.key()
    }
}

impl Eq for SharedKey {
    ghost laws = { keys_equiv };
}

/// Compares the keys.
impl PartialEq for SharedKey {
    ghost eq = { same_key };

    ghost laws = { partial_equiv_from_equiv keys_equiv };

    fn eq(&self, other: &SharedKey) -> bool {
        *self.key() == *other.key()
    }
}
