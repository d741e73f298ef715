//! The lines of a log: their text in memory that is allocated once, in which no value forges a word
//! or a line, and how many of them are written.
//!
//! # First use
//!
//! ```rust
//! let mut limiter = Limiter::new(); // 20 lines at once, then 5 a second
//! let mut line = Line::new(alloc, 1000)?;
//! if limiter.allows(now) {
//!     line.begin("dropped");
//!     line.key("client");
//!     line.write_all(b"a b\n")?; // a value, whatever is in it
//!     assert_eq!(rt; line.bytes(), b"dropped client=a%20b%0A".as_slice());
//! }
//! ```
#![tactic(auto)]

mod examples;
mod laws;
mod limiter;
mod line;

pub use limiter::Limiter;
pub use line::Line;
