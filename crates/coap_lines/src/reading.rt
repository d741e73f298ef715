//! Reading lines from a reader, and parsing them.
pub(crate) mod cutting;
mod datagram;
mod endpoint;
pub(crate) mod input;
mod number;
pub(crate) mod turn;
