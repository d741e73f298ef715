//! Where requests go: routes, and the targets of requests (RFC 7252, 5.7).
//!
//! Endpoints and targets themselves are in `coap_endpoint`, and reading URIs is in `coap_uri`; both
//! are re-exported here.
//!
//! # First use
//!
//! ```rust
//! let prefix = String::from_str(alloc, "/t")?;
//! let origin = String::from_str(alloc, "coap://192.0.2.1/temp")?;
//! // no own names, no hosts, one map, and no next proxy
//! let routes = Routes::new(alloc, &[], &[], &[(prefix, origin)], None)?;
//! let request = decode(alloc, b"\x40\x01\x12\x34\xB1t")?; // a GET of /t
//! screen_request(&request)?;
//! let target = routes.target_of(alloc, &request)?;
//! assert!(rt; target.at.port == 5683 && target.path.len() == 1);
//! ```
#![tactic(auto)]

mod error;
pub mod laws;
mod map;
mod mapped;
mod options;
mod request;
mod route_texts;
mod routes;
mod segment;

pub use coap_endpoint::{Endpoint, Ip, Target};
pub use coap_uri::{HostPart, UriError, UriParts, read_ip, read_ipv4, split_uri};
pub use error::{RouteError, TargetError};
pub use map::{KnownHost, Map};
pub use mapped::MappedTarget;
pub use options::Values;
pub use request::says_uri;
pub use route_texts::is_name;
pub use routes::Routes;
pub use segment::Segments;
