//! The value of `-A`: a local address.
ghost use Rattle.std.specs.Prelude.{ok_or};
ghost use Rattle.coap_uri.specs.Answer.{Answers};
ghost use Rattle.coap_uri.specs.declared.error.UriError.TheVariants as errors;
ghost use Rattle.coap_config.specs.LocalAddress.{local_address_of};

use coap_endpoint::Ip;
use coap_target::{UriError, read_ip};
use std::alloc::Global;

/// The address that a text is: IPv4 in dotted-decimal form, with each number in its unique form, or
/// IPv6, in brackets (RFC 3986, 3.2.2) or without.
///
/// # Errors
/// `Bad` for any other text, or out of memory; never `Scheme`.
pub fn read_local_address(alloc: Global, text: &str) -> Result<Ip, UriError>
    ensures { Answers errors.OutOfMemory result (ok_or (local_address_of text.now) errors.Bad) }
{
    match read_ip(alloc, text) {
        Err(UriError::Bad) => {
            let bracketed = format!(in alloc; "[{text}]")?;
            read_ip(alloc, bracketed.as_str())
        }
        answer => answer,
    }
}
