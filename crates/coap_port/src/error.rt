//! What can go wrong at a port.
use crate::stats::Stats;
use thiserror::Error;

/// The port can't be used any more.
#[derive(Clone, Copy, Debug, PartialEq, Eq, Error)]
#[error("the port failed")]
pub struct PortFault;

/// Why a core was driven for fewer turns than requested.
#[derive(Clone, Copy, Debug, PartialEq, Eq, Error)]
pub enum DriveError {
    /// The port failed at the turn after those counted here.
    #[error("the port failed")]
    Port { stats: Stats },
    /// Out of memory before the first turn.
    #[error("out of memory")]
    OutOfMemory,
}
