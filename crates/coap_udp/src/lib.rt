//! A port over a UDP socket.
//!
//! # First use
//!
//! ```rust
//! let ip = Ip::V4([127, 0, 0, 1]);
//! let local = Endpoint { ip, port: 0 }; // a free port; CoAP's is 5683
//! let mut port = UdpPort::bind(&rt, alloc, local)?;
//! let stats = drive(alloc, &mut core, &mut port, 1)?; // one turn; a server takes 1 << 63
//! assert_eq!(rt; stats.turns, 1);
//! ```
#![tactic(auto)]

mod address;
mod buffer;
mod failing;
mod host;
mod port;
mod system;
#[cfg(test)]
mod tests;
mod values;
mod waiting;

pub use host::Host;
pub use port::UdpPort;
pub use system::System;
