//! Endpoints, and targets: the resources on origin servers that requests are for (RFC 7252, 1.2 and
//! 5.7.2).
//!
//! # First use
//!
//! ```rust
//! let mut path = Pieces::new(alloc);
//! path.push(b"temp")?;
//! let at = Endpoint {
//!     ip: Ip::V4([192, 0, 2, 1]),
//!     port: 5683,
//! };
//! let temp = Target {
//!     host: None,
//!     at,
//!     port: None,
//!     path,
//!     query: Pieces::new(alloc),
//! };
//! assert!(rt; temp == temp.copied()?);
//! ```
#![tactic(auto)]

mod endpoint;
pub mod laws;
mod seeded;
mod target;

pub use endpoint::{Endpoint, Ip};
pub use seeded::{Seeded, SeededHasher};
pub use target::{Target, copy_host};
