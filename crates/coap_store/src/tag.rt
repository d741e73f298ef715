//! ETags of responses (RFC 7252, 5.10.6).
ghost use Rattle.std.specs.Prelude.{◌≡◌, ◌≤◌, IfSome, length, option_map};
ghost use Rattle.std.specs.List.{list_any};
ghost use Rattle.coap_endpoint.specs.Equality.{same_bytes};
ghost use Rattle.coap_store.specs.Renewing.{tag_of};
ghost use Rattle.coap_store.specs.Showing.{held_tag};

use coap_message::{Code, Message, Options, Pieces};
use coap_option::{Side, numbers, recognised};

/// The value of a response's first ETag, if it is recognised.
pub fn tag_of<'a>(options: &Options<'a>) -> Option<&'a [u8]>
    ensures value { option_map (λ tag. tag.now) result ≡ tag_of options.now }
    ensures short { IfSome result (λ tag. length tag.now ≤ 8) }
{
    for option in options.iter() {
        if option.number == numbers::ETAG {
            if recognised(Side::Response, numbers::ETAG, option.value.len(), 0) {
                return Some(option.value);
            }
            return None;
        }
    }
    None
}

/// Whether a tag is one of the client's.
fn is_among(tag: &[u8], tags: &Pieces) -> bool
    ensures { result ≡ list_any (same_bytes tag.now) tags.now }
{
    for other in tags.iter() {
        if tag == other {
            return true;
        }
    }
    false
}

/// The tag of a 2.05 that a client with these tags already holds (RFC 7252, 5.10.6.2).
pub(crate) fn held_tag<'a>(message: &'a Message, tags: &Pieces) -> Option<&'a [u8]>
    ensures value { option_map (λ tag. tag.now) result ≡ held_tag message.now tags.now }
    ensures short { IfSome result (λ tag. length tag.now ≤ 8) }
{
    if message.code != Code::CONTENT {
        return None;
    }
    match tag_of(&message.options.lent()) {
        Some(tag) => { if is_among(tag, tags) { Some(tag) } else { None } }
        None => None,
    }
}
