//! How a proxy treats CoAP options: their classes, which of them it recognises, which messages it
//! refuses because of their options, and which options it forwards (RFC 7252, 5.4, 5.6, 5.7 and
//! 5.10).
//!
//! # First use
//!
//! ```rust
//! assert!(rt; is_critical(35) && is_unsafe(35)); // Proxy-Uri
//! let request = decode(alloc, b"\x40\x01\x00\x01\xB1t\x60\xD1\x1E\x05")?; // with Accept and Size1
//! screen_request(&request)?; // nothing for which a proxy would have to refuse it
//! let key = key_options(alloc, &request)?;
//! assert_eq!(rt; key.lent().bytes(), b"\xD0\x04".as_slice()); // Accept: Size1 isn't part of it
//! ```
#![tactic(auto)]

mod classes;
pub mod numbers;
mod places;
mod recognition;
mod screening;
mod selection;
mod side;
mod survey;
mod table;

pub use classes::{is_critical, is_no_cache_key, is_unsafe};
pub use recognition::recognised;
pub use screening::{
    BadOption, screen_request, screen_request_ref, screen_response, screen_response_ref,
};
pub use selection::{
    forward_options, is_forwarded, key_options, key_options_into, max_age, tags, tags_into,
};
pub use side::Side;
pub use survey::{Span, Survey, survey_request};
