//! The limits of a proxy.
//!
//! # First use
//!
//! ```rust
//! let limits = Limits::new(LimitValues {
//!     exchanges: 64,
//!     ..LimitValues::default()
//! })?;
//! assert_eq!(rt; limits.values().waiters, 1024);
//! ```
#![tactic(auto)]

mod limits;

pub use limits::{Limit, LimitError, LimitValues, Limits};
