//! Hashers that begin with a seed.
ghost use Rattle.std.specs.Prelude.{◌≡◌};
ghost use Rattle.coap_endpoint.specs.Seeding.{begun_with, finished, written};

use std::hash::{BuildHasher, DefaultHasher, FoldHasher, Hasher};

/// Makes hashers for the keys of a map, so that whoever doesn't know the seed can't choose keys
/// that meet in it.
///
/// A key feeds at most 8 bytes at a time, since of 16 the hasher multiplies one half by the other,
/// and whoever chooses both could make the product 0 whatever the seed is.
#[derive(Clone, Copy)]
pub struct Seeded {
    begun: SeededHasher,
}

impl Seeded {
    /// Makes hashers that have read this seed.
    pub fn new(seed: u64) -> Seeded
        ensures { result.begun ≡ begun_with seed }
    {
        let mut begun = FoldHasher::default();
        begun.write_u64(seed);
        let mut last = DefaultHasher::new();
        last.write_u64(seed);
        Seeded {
            begun: SeededHasher {
                begun,
                last: last.finish(),
            },
        }
    }
}

impl BuildHasher for Seeded {
    type Hasher = SeededHasher;

    ghost build_hasher = { λ seeded. seeded.begun };

    fn build_hasher(&self) -> SeededHasher {
        self.begun
    }
}

/// A hasher that has read a seed, and reads another word at the end, which is the seed's SipHash.
/// So whoever doesn't know the seed can't tell what its last multiplication takes, nor what it
/// gives.
#[derive(Clone, Copy)]
pub struct SeededHasher {
    begun: FoldHasher,
    last: u64,
}

impl Hasher for SeededHasher {
    ghost write = { written };

    ghost finish = { finished };

    fn finish(&self) -> u64 {
        let mut hasher = self.begun;
        hasher.write_u64(self.last);
        hasher.finish()
    }

    fn write(&mut self, bytes: &[u8]) {
        self.begun.write(bytes);
    }
}
