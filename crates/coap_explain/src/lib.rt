//! Accounts and logs: what each event was and what it did, in a line of words; and what goes wrong.
//!
//! Contracts give the line of an account by its parts, and that of a log by its fields, in their
//! order. Only tested is when a line of a log is written, and of which exchange and cause.
//!
//! # First use
//!
//! ```rust
//! let mut explainer = Explainer::new(alloc, &mut output)?;
//! let budget = Budget { alloc, turns: 1 };
//! replay_watched(budget, &mut input, &mut lines, &mut core, &mut explainer)?;
//! drop(explainer);
//! let line = b"# 1 0 192.0.2.7:40001 NON GET coap://127.0.0.1:5690/temp opened\n";
//! assert_eq!(rt; output.as_slice(), line.as_slice());
//! ```
#![tactic(auto)]

mod answering;
mod causes;
mod due;
pub mod examples;
mod explainer;
mod lacks;
pub mod laws;
mod log_fields;
mod log_lines;
mod logger;
mod messages;
mod outcomes;
mod ring;
mod routed;
mod silent;

pub use explainer::Explainer;
pub use logger::Logger;
