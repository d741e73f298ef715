//! Recordings: a port that writes its turns as the lines of a replay.
//!
//! # First use
//!
//! ```rust
//! let mut port = Recording::new(alloc, inner, Vec::new(alloc))?;
//! drive(alloc, &mut core, &mut port, 1)?;
//! port.finish();
//! assert!(rt; !port.has_ended());
//! assert_eq!(rt; port.writer().as_slice(), b"5 250 tick\n".as_slice()); // `replay` does it again
//! ```
#![tactic(auto)]

mod error;
mod header;
pub mod laws;
mod recording;
mod turns;

pub use error::HeaderError;
pub use header::{Start, header_of, put_since};
pub use recording::Recording;
