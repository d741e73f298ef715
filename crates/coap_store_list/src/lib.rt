//! A store of responses as a plain list, with the contracts of `coap_store`'s `Store`.
//!
//! # First use
//!
//! ```rust
//! let mut store = ListStore::with_limits(alloc, (), 262_144, 1024)?; // bytes, entries
//! assert!(rt; store.put(key, stored) == Put::Kept);
//! assert!(rt; store.hit(&same_key, 5_000)); // usable, and the most recently used from now on
//! ```
#![tactic(auto)]

mod list_store;

pub use list_store::ListStore;
