//! The meaning of a proxy: its tables as one value, one step over them, histories, and the laws
//! that relate them. There is almost no code here.
//!
//! # First use
//!
//! ```rust
//! the_word_is_kept(); // a function whose contract needs a law calls it: it does nothing else
//! ```
#![tactic(auto)]

pub mod cache_laws;
mod deed;
mod due;
pub mod examples;
pub mod exchange_examples;
pub mod history_laws;
pub mod laws;
mod report;
pub mod word_examples;

pub use coap_limits::{Limit, LimitError, LimitValues, Limits};
pub use deed::{Deed, Did, Held, Lacks, Refusal, Silence, Unprocessed};
pub use due::DueItem;
pub use report::{ClientCounts, Counts, Outcome, Report, Storing};
