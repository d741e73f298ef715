//! `coap` URIs and addresses, read from text (RFC 7252, 6; RFC 3986, 3.2.2).
//!
//! # First use
//!
//! ```rust
//! let parts = split_uri(alloc, "coap://192.0.2.1/temp?unit=C")?;
//! assert_eq!(rt;
//!     (parts.port, parts.path.len(), parts.query.len()),
//!     (5683, 1, 1)
//! );
//! assert!(rt; read_ip(alloc, "192.0.2.1")? == Ip::V4([192, 0, 2, 1]));
//! ```
#![tactic(auto)]

mod address;
mod error;
pub mod laws;
mod parts;
mod plain;
mod uri;

pub use address::{address_text, read_address, read_host, read_ip, read_ipv4};
pub use error::UriError;
pub use parts::{LONGEST, first_part};
pub use uri::{DEFAULT_PORT, HostPart, UriParts, path_parts, split_uri};
