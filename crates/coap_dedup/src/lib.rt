//! Messages that were seen before, and the replies that were kept for them (RFC 7252, 4.2 and 4.5).
//!
//! # First use
//!
//! ```rust
//! let mut records = Records::new(alloc, 4096, 256, EXCHANGE_LIFETIME)?;
//! if let Seen::New = records.seen(client, 0x1234, 0) {
//!     records.keep(client, 0x1234, 0, Some(reply))?;
//! }
//! // the same message again, and a message with that id after the lifetime of the first
//! assert!(rt; matches!(records.seen(client, 0x1234, 246_999), Seen::Again(Some(_))));
//! assert!(rt; matches!(records.seen(client, 0x1234, 247_000), Seen::New));
//! ```
#![tactic(auto)]

mod error;
pub mod examples;
mod key;
pub mod laws;
mod numbers;
mod record;
mod records;
mod seen;
mod sources;

pub use coap_message::{EXCHANGE_LIFETIME, NON_LIFETIME};
pub use error::Refused;
pub use record::Record;
pub use records::Records;
pub use seen::Seen;
