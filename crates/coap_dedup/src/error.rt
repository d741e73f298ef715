//! What can go wrong.
ghost use Rattle.std.specs.Prelude.{◌≡◌};
ghost use Rattle.coap_dedup.specs.declared.error.Refused.TheVariants as errors;

use coap_message::OutOfMemory;
use thiserror::Error;

/// Why a message wasn't kept.
#[derive(Clone, Copy, Debug, PartialEq, Eq, Error)]
pub enum Refused {
    /// The number of live records has reached the limit.
    #[error("no room")]
    Full,
    /// Allocation failed.
    #[error("out of memory")]
    OutOfMemory,
    /// The number of live records of this endpoint has reached the limit for one endpoint.
    #[error("no room for this client")]
    ClientFull,
}

impl From<OutOfMemory> for Refused {
    ghost from_gives = { λ _ e. e ≡ errors.OutOfMemory };

    fn from(_refused: OutOfMemory) -> Refused {
        Refused::OutOfMemory
    }
}
