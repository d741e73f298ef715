//! Tests of ports: a core over one in memory, which ends and refuses, and whose turns are recorded;
//! and a port over a socket and over a system in memory. Neither takes a datagram that is too long
//! for a shorter one. Also how long a port is asked to wait and what is counted, computed on the
//! definitions, and laws of runs and recordings.
#![tactic(auto)]

#[cfg(test)]
mod asked;
pub mod computed;
#[cfg(test)]
mod failing;
#[cfg(test)]
mod lengths;
#[cfg(test)]
mod loopback;
#[cfg(test)]
mod ports;
#[cfg(test)]
mod recordings;
pub mod runs;
#[cfg(test)]
mod sockets;
pub mod systems;
