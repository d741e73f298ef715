//! Errors.
ghost use Rattle.std.specs.Prelude.{◌≡◌};
ghost use Rattle.coap_uri.specs.declared.error.UriError.TheVariants as errors;

use coap_message::OutOfMemory;
use std::alloc::AllocError;
use thiserror::Error;

/// Why a text couldn't be read as a URI or an address.
#[derive(Clone, Copy, Debug, PartialEq, Eq, Error)]
pub enum UriError {
    /// It isn't one, or it has a part that a request can't carry (RFC 7252, 6.4).
    #[error("no URI that can be carried")]
    Bad,
    /// Its scheme isn't `coap`.
    #[error("a scheme other than coap")]
    Scheme,
    /// There was no memory for it.
    #[error("out of memory")]
    OutOfMemory,
}

impl From<OutOfMemory> for UriError {
    ghost from_gives = { λ _ e. e ≡ errors.OutOfMemory };

    fn from(_refused: OutOfMemory) -> UriError {
        UriError::OutOfMemory
    }
}

impl From<AllocError> for UriError {
    ghost from_gives = { λ _ e. e ≡ errors.OutOfMemory };

    fn from(_refused: AllocError) -> UriError {
        UriError::OutOfMemory
    }
}
