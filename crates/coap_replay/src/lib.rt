//! Replays: a core handles the events of an input, and what it sends is written.
//!
//! # First use
//!
//! ```rust
//! let mut input = Input::new(b"0 0 192.0.2.7:40001 50010007B174\n0 0 tick\n".as_slice());
//! let mut output = Output::new(Vec::new(alloc));
//! assert_eq!(rt; replay(alloc, &mut input, &mut output, &mut core)?, 2);
//! let line = b"0 127.0.0.1:5690 480100010000000000000001B474656D70\n";
//! assert_eq!(rt; output.writer().as_slice(), line.as_slice());
//! ```
#![tactic(auto)]

mod buffers;
mod error;
pub mod laws;
mod replays;
mod whole;

pub use coap_core::{Unwatched, Watch, WatchedTurn};
pub use coap_lines::{Input, Output};
pub use error::ReplayError;
pub use replays::{Budget, replay_turns, replay_watched};
pub use whole::replay;
