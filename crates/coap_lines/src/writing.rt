//! Writing lines: their text into a buffer that was allocated before, and bytes to a writer.
mod datagram;
mod endpoint;
pub(crate) mod line;
mod number;
pub(crate) mod output;
pub(crate) mod turn;
