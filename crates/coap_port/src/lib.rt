//! Ports, which datagrams come from and go to, and the loop that drives a core over one.
//!
//! # First use
//!
//! ```rust
//! let mut port = MemoryPort::new(alloc, None);
//! port.add(Scripted {
//!     now: 5,
//!     draw: 250,
//!     datagram: Some((client, request)),
//! })?;
//! let stats = drive(alloc, &mut core, &mut port, 2)?;
//! assert_eq!(rt; (stats.turns, stats.sent, port.handed().len()), (2, 1, 1));
//! ```
#![tactic(auto)]

mod drives;
mod error;
mod memory;
mod port;
mod stats;
mod turns;

pub use coap_core::{Unwatched, Watch, WatchedTurn};
pub use drives::{drive, drive_watched};
pub use error::{DriveError, PortFault};
pub use memory::{Handed, MemoryPort, Scripted};
pub use port::{Port, Turn};
pub use stats::Stats;
