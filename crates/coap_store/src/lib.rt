//! The cache of a proxy: keys, stored responses, what a store of them has to do, and what clients
//! are sent; and how a response is renewed that its origin validates (RFC 7252, 5.6, 5.7.1,
//! 5.9.1.3, 5.10.5 and 5.10.6).
//!
//! # First use
//!
//! ```rust
//! // a 2.05 with an ETag and Max-Age 10
//! let response = decode(alloc, b"\x60\x45\x00\x01\x41\xAB\xA1\x0A\xFF21")?;
//! // it came at moment 0, in event 2; the request was sent in event 1
//! let stored = Stored {
//!     response: SharedMessage::new(response),
//!     asked: 1,
//!     got_no: 2,
//!     got: 0,
//!     marked: false,
//! };
//! assert!(rt; stored.is_fresh(10_000) && !stored.is_fresh(10_001));
//! let left = stored.left(4_000);
//! let message = shown(alloc, &stored.response, Some(left), &Pieces::new(alloc))?;
//! assert_eq!(rt; max_age(&message), 6);
//! // a 2.03 with this ETag, and no Max-Age
//! let valid = decode(alloc, b"\x60\x43\x00\x02\x41\xAB")?;
//! assert_eq!(rt; max_age(&renewed(alloc, &stored, &valid)?), 60);
//! ```
#![tactic(auto)]

mod answer;
mod digested_key;
mod digests;
mod envelope;
mod evictions;
mod key;
pub mod laws;
mod measure;
mod renew;
mod renew_error;
mod shared_key;
mod shared_message;
mod show;
mod showing;
mod size;
mod store;
mod stored;
mod tag;
mod updating;

pub use answer::Answer;
pub use digested_key::DigestedKey;
pub use digests::{Digests, digest_of_target, digests_of};
pub use envelope::Envelope;
pub use evictions::Evictions;
pub use key::CacheKey;
pub use measure::aged_fits;
pub use renew::renewed;
pub use renew_error::RenewError;
pub use shared_key::{KeySource, SharedKey};
pub use shared_message::SharedMessage;
pub use show::{is_cacheable, put_max_age, put_response, show_into};
pub use showing::shown;
pub use size::{bytes_of, bytes_with};
pub use store::{Put, Store};
pub use stored::{EventNumber, Stored, left_at};
pub use tag::tag_of;
pub use updating::{updated, with_max_age};
