//! Cache keys (RFC 7252, 5.6).
ghost use Rattle.std.specs.Prelude.{◌≡◌, IfOk};
ghost use Rattle.std.specs.Cmp.{partial_equiv_from_equiv};
ghost use Rattle.coap_store.specs.Alike.{fed_key, keys_equiv, keys_fed};
ghost use Rattle.coap_store.specs.Keys.{same_key, IsEmptiedKey};

use coap_endpoint::Target;
use coap_message::{OptionList, OutOfMemory};
use std::hash::{Hash, Hasher};

/// What two requests have in common if one response answers both: the target, and the options that
/// are part of the cache key (RFC 7252, 5.4.2 and 5.6).
pub struct CacheKey {
    pub target: Target,
    pub options: OptionList,
}

impl Drop for CacheKey {
    fn drop(self) {
        let CacheKey {
            target: _,
            options: _,
        } = self;
    }
}

impl Eq for CacheKey {
    ghost laws = { keys_equiv };
}

/// Compares part by part.
impl PartialEq for CacheKey {
    ghost eq = { same_key };

    ghost laws = { partial_equiv_from_equiv keys_equiv };

    fn eq(&self, other: &CacheKey) -> bool {
        self.target == other.target && self.options == other.options
    }
}

/// Hashes the target, and then the options.
impl Hash for CacheKey {
    ghost hash_input = { fed_key };

    ghost respects_eq = { keys_fed };

    fn hash<H: Hasher>(&self, state: &mut H) {
        self.target.hash(state);
        self.options.hash(state);
    }
}

impl CacheKey {
    /// Removes all bytes of its target's host, path and query and all its options, and keeps their
    /// room.
    pub fn clear(&mut self)
        ensures { IsEmptiedKey self.new }
    {
        self.target.clear();
        self.options.clear();
    }

    /// A copy, with no spare capacity.
    ///
    /// # Errors
    /// Out of memory.
    pub fn copied(&self) -> Result<CacheKey, OutOfMemory>
        ensures { IfOk result (λ copy. copy ≡ self.now) }
    {
        Ok(CacheKey {
            target: self.target.copied()?,
            options: self.options.clone()?,
        })
    }
}
