//! What a proxy passes on (RFC 7252, 5.7): the request that it forwards to an origin, what it makes
//! of the response, and what it sends to its clients for it.
//!
//! # First use
//!
//! ```rust
//! let token = token_of(salt, number); // of the exchange with this number
//! let form = Form {
//!     request: &request,
//!     survey: survey_request(&request)?,
//!     target: &target,
//!     tag: None,
//! };
//! put_forwarded(&token, form, &mut out, 1500)?;
//! assert_eq!(rt;
//!     out.bytes(),
//!     b"\x48\x01\0\0\0\0\0\0\0\0\0\x01\xB4temp".as_slice()
//! );
//! // its response, received at `now`
//! let sent = AnsweredRequest {
//!     is_get: true,
//!     copy: None,
//! };
//! let answer = answer_of(alloc, 1500, sent, now, &response)?;
//! assert!(rt; answer.message.code == Code::CONTENT && answer.got == now);
//! ```
#![tactic(auto)]

mod answers;
mod changes;
mod form;
mod part;
mod token;
mod writing;

pub use answers::{AnsweredRequest, answer_of, bad_gateway, gateway_timeout, is_storable};
pub use changes::{created_by, is_change};
pub use form::{Form, put_forwarded, validating_tag};
pub use token::{number_of, token_of};
pub use writing::{put_bare, put_shown, put_stored, put_with_max_age};
