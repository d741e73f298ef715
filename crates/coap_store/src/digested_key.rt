//! Cache keys that are found by their digests.
ghost use Rattle.std.specs.Prelude.{◌≡◌, ◌⊎◌, min, IfOk, OnOk, OnErr};
ghost use Rattle.std.specs.Cmp.{partial_equiv_from_equiv};
ghost use Rattle.coap_store.specs.DigestedAlike.{digested_equiv, digested_fed};
ghost use Rattle.coap_store.specs.Digested.{digested, fed_digested, same_digested};
ghost use Rattle.coap_store.specs.Digests.{digests_of};
ghost use Rattle.coap_store.specs.Keys.{IsEmptiedKey};
ghost use Rattle.coap_store.specs.Sizes.{key_size};

use crate::digests::{Digests, digests_of};
use crate::key::CacheKey;
use crate::shared_key::KeySource;
use crate::size::bytes_of_key;
use coap_message::OutOfMemory;
use std::alloc::Global;
use std::hash::{Hash, Hasher};
use std::marker::Model;
use std::rc::Rc;

/// A cache key that all who need it share, with what it counts for, its digest and that of its
/// target. It is hashed as its digest, so those who don't know the secret can't choose keys that
/// meet in a map. A contract sees the key, and the secret that the digests were made with.
#[derive(Drop)]
pub struct DigestedKey {
    shared: Rc<CountedKey>,
    secret: u64,
    digests: Digests,
}

/// A cache key, and the number of bytes that it counts for in an entry. The one that a request is
/// looked up by isn't counted, since most are found.
#[derive(Drop)]
struct CountedKey {
    key: CacheKey,
    bytes: Option<u64>,
}

impl Model for DigestedKey {
    ghost use Rattle.std.specs.Prelude.{◌≡◌, ◌^◌, ◌-◌, min, IfSome};
    ghost use Rattle.coap_store.specs.Digested.{Digested, digested};
    ghost use Rattle.coap_store.specs.Digests.{digests_of};
    ghost use Rattle.coap_store.specs.Sizes.{key_size};

    ghost Value = { Digested };

    ghost view = { λ d. digested d.secret d.shared.value.key };

    ghost invariant = { λ d.
        (d.digests ≡ digests_of d.secret d.shared.value.key)
        × IfSome
        d.shared.value.bytes
        (λ bytes. bytes ≡ min (key_size d.shared.value.key) (2 ^ 64 - 1)) };
}

impl DigestedKey {
    /// A key that nobody shares yet, with its digests.
    ///
    /// # Errors
    /// Out of memory.
    pub(crate) fn new(alloc: Global, key: CacheKey, secret: u64) -> Result<DigestedKey, OutOfMemory>
        ensures { IfOk result (λ made. made ≡ digested secret key) }
    {
        let digests = digests_of(secret, &key);
        let uncounted = CountedKey { key, bytes: None };
        Ok(DigestedKey {
            shared: Rc::new(alloc, uncounted)?,
            secret,
            digests,
        })
    }

    /// The key.
    pub fn key(&self) -> &CacheKey
        ensures { result.now ≡ self.now.key }
    {
        &self.shared.as_ref().key
    }

    /// The secret that its digests were made with.
    pub fn secret(&self) -> u64
        ensures { result ≡ self.now.secret }
    {
        self.secret
    }

    /// Its digest, and that of its target.
    pub fn digests(&self) -> Digests
        ensures { result ≡ digests_of self.now.secret self.now.key }
    {
        self.digests
    }

    /// How many of the bytes of its entry the key counts for, of which there are at most
    /// `u64::MAX`.
    pub fn bytes(&self) -> u64
        ensures { result ≡ min (key_size self.now.key) u64.MAX }
    {
        let counted = self.shared.as_ref();
        match counted.bytes {
            Some(bytes) => bytes,
            None => bytes_of_key(&counted.key),
        }
    }

    /// The same key for one more who needs it. Doesn't allocate.
    ///
    /// # Errors
    /// If 2^64 - 1 share it.
    pub fn share(&self) -> Result<DigestedKey, OutOfMemory>
        ensures { IfOk result (λ shared. shared ≡ self.now) }
    {
        Ok(DigestedKey {
            shared: self.shared.clone()?,
            secret: self.secret,
            digests: self.digests,
        })
    }

    /// A copy, with no spare capacity, which nobody shares yet. It is counted here, once for all who
    /// will share it.
    ///
    /// # Errors
    /// Out of memory.
    pub(crate) fn copied(&self, alloc: Global) -> Result<DigestedKey, OutOfMemory>
        ensures { IfOk result (λ copy. copy ≡ self.now) }
    {
        let copy = CountedKey {
            key: self.key().copied()?,
            bytes: Some(self.bytes()),
        };
        Ok(DigestedKey {
            shared: Rc::new(alloc, copy)?,
            secret: self.secret,
            digests: self.digests,
        })
    }

    /// The same key with the digests that this secret gives.
    pub fn with_secret(self, secret: u64) -> DigestedKey
        ensures { result ≡ digested secret self.key }
    {
        if self.secret == secret {
            return self;
        }
        let digests = digests_of(secret, self.key());
        let DigestedKey {
            shared,
            secret: _,
            digests: _,
        } = self;
        DigestedKey {
            shared,
            secret,
            digests,
        }
    }

    /// Overwrites the key, which nobody else shares, and reuses its room. The digests are those of
    /// the new key with this secret.
    ///
    /// # Errors
    /// - Out of memory. The key is then empty.
    /// - Somebody else shares it. Then nothing is changed.
    pub(crate) fn overwrite<S: KeySource>(
        &mut self,
        source: &S,
        secret: u64,
    ) -> Result<(), OutOfMemory>
        ensures made { OnOk result (self.new ≡ digested secret (S.made source.now)) }
        ensures emptied { OnErr result ((self.new ≡ self.old) ⊎ IsEmptiedKey self.new.key) }
    {
        let Some(counted) = Rc::get_mut(&mut self.shared) else {
            return Err(OutOfMemory);
        };
        let written = counted.overwrite(source);
        self.secret = secret;
        self.digests = digests_of(secret, &self.shared.as_ref().key);
        written
    }
}

impl CountedKey {
    /// Overwrites the key, which isn't counted then.
    ///
    /// # Errors
    /// Out of memory. The key is then empty.
    fn overwrite<S: KeySource>(&mut self, source: &S) -> Result<(), OutOfMemory>
        ensures key { OnOk result (self.new.key ≡ S.made source.now) }
        ensures emptied { OnErr result (IsEmptiedKey self.new.key) }
        ensures uncounted { self.new.bytes ≡ None }
    {
        self.bytes = None;
        source.write_to(&mut self.key)
    }
}

impl Eq for DigestedKey {
    ghost laws = { digested_equiv };
}

/// Compares the secrets and the keys.
impl PartialEq for DigestedKey {
    ghost eq = { same_digested };

    ghost laws = { partial_equiv_from_equiv digested_equiv };

    fn eq(&self, other: &DigestedKey) -> bool {
        self.secret == other.secret && *self.key() == *other.key()
    }
}

/// Hashes the digest.
impl Hash for DigestedKey {
    ghost hash_input = { fed_digested };

    ghost respects_eq = { digested_fed };

    fn hash<H: Hasher>(&self, state: &mut H) {
        state.write_u64(self.digests.key);
    }
}
