//! Statistics of a proxy: counts of what its turns did, and their text as a line and as metrics.
//!
//! # First use
//!
//! ```rust
//! let mut statistics = Statistics::new(alloc, core.routes(), core.limits().values())?;
//! drive_watched(alloc, &mut core, &mut port, &mut statistics, 1)?;
//! let mut text = Vec::new(alloc);
//! put_line(&mut text, &statistics, &core.counts(), limits.values())?;
//! assert!(rt; text.starts_with(b"seconds=2 received=0 sent=0 "));
//! ```
#![tactic(auto)]

mod clock;
pub mod examples;
mod held;
mod labels;
pub mod laws;
mod line;
mod metrics;
mod series;
mod statistics;
mod tally;
mod turns;
mod words;

pub use clock::{StandingClock, period_end, period_of};
pub use labels::socket_of;
pub use line::put_line;
pub use metrics::{metrics_room, put_metrics, put_receive_buffer};
pub use statistics::Statistics;
pub use tally::{AnswerCounts, Tally};
