//! What can go wrong at the header of a recording.
ghost use Rattle.std.specs.Prelude.{◌≡◌};
ghost use Rattle.coap_recording.specs.declared.error.HeaderError.TheVariants as errors;

use std::alloc::AllocError;
use thiserror::Error;

/// Why there is no header.
#[derive(Clone, Copy, Debug, PartialEq, Eq, Error)]
pub enum HeaderError {
    /// A line of it is longer than a replay reads.
    #[error("a line is too long")]
    TooLong,
    /// Out of memory.
    #[error("out of memory")]
    OutOfMemory,
}

impl From<AllocError> for HeaderError {
    ghost from_gives = { λ _ e. e ≡ errors.OutOfMemory };

    fn from(_refused: AllocError) -> HeaderError {
        HeaderError::OutOfMemory
    }
}
