//! The cache of a proxy (RFC 7252, 5.6): what it stores and under which keys, two implementations
//! of the store, how a stored response is renewed by its origin server, and what clients are sent.
//!
//! It consists of `coap_store`, `coap_store_list` and `coap_store_lru`.
//!
//! # First use
//!
//! ```rust
//! let mut store = LruStore::with_limits(alloc, RandomState::new(&rt)?, 262_144, 1024)?;
//! store.put(key, stored);
//! let stored = store.peek(&same_key).ok_or("it isn't stored")?;
//! let left = stored.left(4_000); // in whole seconds
//! let message = shown(alloc, &stored.response, Some(left), &Pieces::new(alloc))?;
//! assert_eq!(rt; max_age(&message), 6);
//! ```
#![tactic(auto)]

pub use coap_store::{
    CacheKey, Put, RenewError, SharedKey, SharedMessage, Store, Stored, bytes_of, renewed,
    show_into, shown,
};
pub use coap_store_list::ListStore;
pub use coap_store_lru::LruStore;
