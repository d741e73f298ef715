//! How many items of a table each endpoint has: exchanges with an origin, exchanges that a client
//! opened, or waiters of a client.
//!
//! # First use
//!
//! ```rust
//! let mut clients = EndpointMap::new(alloc, 256, 0)?;
//! enter(&mut clients, DigestedEndpoint::new(client)); // a request of this client waits
//! assert!(rt; count_of(&clients, DigestedEndpoint::new(client)) == 1);
//! ```
#![tactic(auto)]

pub mod by_client;
mod digest;
mod digested_endpoint;
mod endpoint_map;
mod endpoints;
mod slots;

pub use digested_endpoint::DigestedEndpoint;
pub use endpoint_map::EndpointMap;
pub use endpoints::{
    EndpointCounts, SentCounts, Stage, close_one, counts_at, counts_of, lowered, move_one, open_one,
};
pub use slots::Entry;
