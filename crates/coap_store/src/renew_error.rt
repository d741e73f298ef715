//! Why a stored response isn't renewed.
use coap_message::OutOfMemory;
use thiserror::Error;

/// Why a stored response isn't renewed: the first reason that applies, in this order.
#[derive(Clone, Copy, Debug, PartialEq, Eq, Error)]
pub enum RenewError {
    /// It isn't a 2.05 with an ETag, or the other response isn't a 2.03 with the same ETag.
    #[error("not a 2.03 with the tag of a stored 2.05")]
    WrongTag,
    /// There was no memory for the renewed response.
    #[error("out of memory")]
    OutOfMemory,
}

impl From<OutOfMemory> for RenewError {
    ghost use Rattle.std.specs.Prelude.{◌≡◌};
    ghost use Rattle.coap_store.specs.declared.renew_error.RenewError.TheVariants as errors;

    ghost from_gives = { λ _ e. e ≡ errors.OutOfMemory };

    fn from(_refused: OutOfMemory) -> RenewError {
        RenewError::OutOfMemory
    }
}
