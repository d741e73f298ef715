//! What can go wrong in a replay.
use thiserror::Error;

/// Why a replay ended before the end of its input. Lines are numbered from 1.
#[derive(Clone, Copy, Debug, PartialEq, Eq, Error)]
pub enum ReplayError {
    /// This line isn't an event that may come next, or it is too long.
    #[error("line {line}: bad event")]
    BadEvent { line: u64 },
    /// Out of memory for what this line asks for, or before the first line.
    #[error("line {line}: out of memory")]
    OutOfMemory { line: u64 },
    /// The input can't be read.
    #[error("the input can't be read")]
    Read,
    /// The output can't be written.
    #[error("the output can't be written")]
    Write,
}
