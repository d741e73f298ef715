//! The classes of options (RFC 7252, 5.4.6).
ghost use Rattle.std.specs.Prelude.{◌≡◌};
ghost use Rattle.coap_option.specs.Classes.{is_critical, is_no_cache_key, is_unsafe};

/// Whether an option with this number is critical rather than elective (RFC 7252, 5.4.1).
pub fn is_critical(number: u16) -> bool
    ensures { result ≡ is_critical number }
{
    number & 1 == 1
}

/// Whether an option with this number is unsafe to forward by a proxy that doesn't recognise it
/// (RFC 7252, 5.4.2).
pub fn is_unsafe(number: u16) -> bool
    ensures { result ≡ is_unsafe number }
{
    number & 2 == 2
}

/// Whether an option with this number is not part of the cache key (RFC 7252, 5.4.2).
pub fn is_no_cache_key(number: u16) -> bool
    ensures { result ≡ is_no_cache_key number }
{
    number & 0x1e == 0x1c
}
