//! Errors.
ghost use Rattle.std.specs.Prelude.{◌≡◌};
ghost use Rattle.coap_target.specs.declared.error.TargetError.TheVariants as target_errors;
ghost use Rattle.coap_target.specs.declared.error.RouteError.TheVariants as route_errors;

use coap_message::OutOfMemory;
use thiserror::Error;

/// Why a request has no target.
#[derive(Clone, Copy, Debug, PartialEq, Eq, Error)]
pub enum TargetError {
    /// Its Proxy-Uri isn't a URI that can be carried, or it has a Proxy-Scheme and its Uri-Port is
    /// 0 (4.00, RFC 7252, 5.9.2.1).
    #[error("a bad URI")]
    BadUri,
    /// The proxy doesn't serve that host or scheme, or it has no own names and so serves none
    /// (5.05, RFC 7252, 5.10.2).
    #[error("not proxied")]
    NotProxied,
    /// It is for the proxy itself, and no map matches its path (4.04, RFC 7252, 5.9.2.5).
    #[error("not found")]
    NotFound,
    /// There was no memory for the target.
    #[error("out of memory")]
    OutOfMemory,
}

impl From<OutOfMemory> for TargetError {
    ghost from_gives = { λ _ e. e ≡ target_errors.OutOfMemory };

    fn from(_refused: OutOfMemory) -> TargetError {
        TargetError::OutOfMemory
    }
}

/// Why texts aren't routes: the first of `Unreadable` and `TooMany` that applies. Running out of
/// memory may be reported instead of either.
#[derive(Clone, Copy, Debug, PartialEq, Eq, Error)]
pub enum RouteError {
    /// A name, host, address, prefix or origin can't be read, or a host occurs twice.
    #[error("an unreadable route")]
    Unreadable,
    /// A list is too long: the limit is 64 for names and for maps, and 256 for hosts.
    #[error("too many routes")]
    TooMany,
    /// There was no memory for them.
    #[error("out of memory")]
    OutOfMemory,
}

impl From<OutOfMemory> for RouteError {
    ghost from_gives = { λ _ e. e ≡ route_errors.OutOfMemory };

    fn from(_refused: OutOfMemory) -> RouteError {
        RouteError::OutOfMemory
    }
}
