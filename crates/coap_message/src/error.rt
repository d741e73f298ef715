//! What can go wrong.
ghost use Rattle.std.specs.Prelude.{◌≡◌};
ghost use Rattle.coap_message.specs.declared.error.DecodeError.TheVariants as errors;

use std::alloc::{AllocError, AllocFailed};
use thiserror::Error;

/// Allocation failed. Each call says what it leaves then.
#[derive(Clone, Copy, Debug, PartialEq, Eq, Error)]
#[error("out of memory")]
pub struct OutOfMemory;

impl From<AllocError> for OutOfMemory {
    fn from(_refused: AllocError) -> OutOfMemory {
        OutOfMemory
    }
}

impl<T: Drop> From<AllocFailed<T>> for OutOfMemory {
    fn from(_refused: AllocFailed<T>) -> OutOfMemory {
        OutOfMemory
    }
}

/// Why bytes couldn't be read as a message: the first reason that applies, in this order.
#[derive(Clone, Copy, Debug, PartialEq, Eq, Error)]
pub enum DecodeError {
    /// Fewer than four bytes.
    #[error("fewer than four bytes")]
    Short,
    /// The version is not 1 (RFC 7252, 3).
    #[error("a version other than 1")]
    Version,
    /// The bytes aren't a well-formed message.
    #[error("a message format error")]
    Format,
    /// The bytes are a message, but there was no memory for a copy of it.
    #[error("out of memory")]
    OutOfMemory,
}

impl From<OutOfMemory> for DecodeError {
    ghost from_gives = { λ _ e. e ≡ errors.OutOfMemory };

    fn from(_refused: OutOfMemory) -> DecodeError {
        DecodeError::OutOfMemory
    }
}

/// There isn't enough room for what was to be written.
#[derive(Clone, Copy, Debug, PartialEq, Eq, Error)]
#[error("no room")]
pub struct Full;
