//! What a store evicted to make room.
ghost use Rattle.std.specs.Prelude.{◌≡◌};
ghost use Rattle.coap_store.specs.Evicting as spec;

/// How many entries a store evicted because there was no room; without room for any, that is the
/// new one itself. A count that reaches 2^64 - 1 stays there.
#[derive(Clone, Copy, Debug, PartialEq, Eq)]
pub struct Evictions {
    /// All that were evicted.
    pub entries: u64,
    /// Those among them whose Max-Age hadn't passed when the new entry came (RFC 7252, 5.6.1),
    /// marked or not.
    pub fresh: u64,
}

impl Evictions {
    /// None yet.
    pub fn new() -> Evictions
        ensures { result ≡ spec.no_evictions }
    {
        Evictions {
            entries: 0,
            fresh: 0,
        }
    }

    /// Adds further ones.
    pub fn add(&mut self, more: Evictions)
        ensures { self.new ≡ spec.with_evictions more self.old }
    {
        self.entries = self.entries.saturating_add(more.entries);
        self.fresh = self.fresh.saturating_add(more.fresh);
    }
}
