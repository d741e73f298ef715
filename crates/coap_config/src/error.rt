//! What can be refused.
ghost use Rattle.std.specs.Prelude.{◌≡◌};
ghost use Rattle.coap_config.specs.declared.error.MapOptionError.TheVariants as map_errors;
ghost use Rattle.coap_config.specs.declared.error.ProxyOptionError.TheVariants as proxy_errors;

use coap_message::OutOfMemory;
use std::alloc::{AllocError, AllocFailed};
use thiserror::Error;

/// Why the value of `-P` was refused: the first that applies, in this order. `OutOfMemory` may be
/// returned in place of `BadName`.
#[derive(Clone, Copy, Debug, PartialEq, Eq, Error)]
pub enum ProxyOptionError {
    /// There is no comma.
    #[error("no comma")]
    NoComma,
    /// The text before the first comma isn't a next proxy.
    #[error("no next proxy")]
    NextProxy,
    /// One of the texts between the commas isn't a name, or there are more than 64.
    #[error("no names")]
    BadName,
    /// Out of memory for the names.
    #[error("out of memory")]
    OutOfMemory,
}

impl From<AllocError> for ProxyOptionError {
    ghost from_gives = { λ _ e. e ≡ proxy_errors.OutOfMemory };

    fn from(_refused: AllocError) -> ProxyOptionError {
        ProxyOptionError::OutOfMemory
    }
}

impl<T: Drop> From<AllocFailed<T>> for ProxyOptionError {
    ghost from_gives = { λ _ e. e ≡ proxy_errors.OutOfMemory };

    fn from(_refused: AllocFailed<T>) -> ProxyOptionError {
        ProxyOptionError::OutOfMemory
    }
}

/// Why the value of `--map` was refused: the first that applies, in this order.
#[derive(Clone, Copy, Debug, PartialEq, Eq, Error)]
pub enum MapOptionError {
    /// There is no `=`.
    #[error("no equals sign")]
    NoEquals,
    /// Out of memory for its parts.
    #[error("out of memory")]
    OutOfMemory,
}

impl From<AllocError> for MapOptionError {
    ghost from_gives = { λ _ e. e ≡ map_errors.OutOfMemory };

    fn from(_refused: AllocError) -> MapOptionError {
        MapOptionError::OutOfMemory
    }
}
