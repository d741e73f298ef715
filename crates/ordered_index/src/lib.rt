//! Indexes of numbered items: pairs of a key and a number, in order (`OrderedIndex`) or spread by a
//! hash of the key (`HashedIndex`). A table that finds its items by a key has an index for it. All
//! room is made once, for as many pairs as there may ever be: no change of an index needs memory.
//!
//! # First use
//!
//! ```rust
//! let mut index = OrderedIndex::new(alloc, 256)?;
//! index.put(93_000, 7); // the item numbered 7 is due at 93,000 ms
//! index.rekey(7, Some(93_000), Some(2_250)); // it is due earlier
//! assert!(rt; index.first() == Some((2_250, 7)));
//! ```
#![tactic(auto)]

mod hashed;
mod order;
mod ordered;
mod pair_buffer;
mod place;
mod table;

pub use hashed::HashedIndex;
pub use order::is_before;
pub use ordered::OrderedIndex;
