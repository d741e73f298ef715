//! A store of responses as an LRU map, with the contracts of `coap_store`'s `Store`.
//!
//! # First use
//!
//! ```rust
//! let seed = RandomState::new(&rt)?; // hashes that outsiders can't predict
//! let mut store = LruStore::with_limits(alloc, seed, 262_144, 1024)?; // bytes, entries
//! assert!(rt; store.put(key, stored) == Put::Kept);
//! assert!(rt; store.hit(&same_key, 5_000)); // usable, and the most recently used from now on
//! ```
#![tactic(auto)]

mod group;
mod lru_store;
mod recent;
mod target_index;

pub use lru_store::LruStore;
