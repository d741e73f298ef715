//! Which options of a message are forwarded, are part of the cache key, or determine how it is
//! cached (RFC 7252, 5.4.2, 5.6, 5.7 and 5.10). The core has the key of a request, and what goes on,
//! from its `Survey`.
ghost use Rattle.std.specs.Prelude.{◌≡◌, ◌≢◌, [], IfOk, OnOk, OnErr, not};
ghost use Rattle.coap_message.specs.OptRef.{seen};
ghost use Rattle.coap_option.specs.Selection.{is_forwarded, is_for_proxy, is_key, is_of, is_tag_of_get, is_used_up, key_of, max_age_of, sent_on, is_withheld, tags_of};

use crate::classes::is_no_cache_key;
use crate::numbers;
use crate::places::{Test, first, select, select_into, values_into};
use crate::recognition::{option_recognised, recognised};
use crate::side::Side;
use crate::table::Row;
use coap_message::{Code, Message, MessageRef, OptRef, OptionList, OutOfMemory, Pieces, uint};
use std::alloc::Global;

/// The Max-Age of a response that has none, in seconds (RFC 7252, 5.10.5).
const DEFAULT_MAX_AGE: u32 = 60;

/// Whether the proxy consumes options with this number (RFC 7252, 5.7, 5.10.1 and 5.10.2; RFC 7641,
/// 2): the target's, Observe, and Max-Age, which means nothing in a request.
fn is_used_up(number: u16) -> bool
    ensures { result ≡ is_used_up number }
{
    matches!(
        number,
        numbers::URI_HOST
            | numbers::OBSERVE
            | numbers::URI_PORT
            | numbers::URI_PATH
            | numbers::MAX_AGE
            | numbers::URI_QUERY
            | numbers::PROXY_URI
            | numbers::PROXY_SCHEME
    )
}

/// Whether an option with this number is an ETag of a GET, if its request has this code: the proxy
/// handles it itself (RFC 7252, 5.10.6.2).
fn is_tag_of_get(code: Code, number: u16) -> bool
    ensures { result ≡ is_tag_of_get code number }
{
    code == Code::GET && number == numbers::ETAG
}

/// Whether options with this number aren't forwarded if they are recognised, in a request with this
/// code.
pub(crate) fn is_for_proxy(code: Code, number: u16) -> bool
    ensures { result ≡ is_for_proxy code number }
{
    is_used_up(number) || is_tag_of_get(code, number)
}

/// Whether an option of a request with this code is forwarded, given that no option of the request
/// is refused. Then it doesn't matter how many with its number stand before it: the options that
/// are consumed are all unsafe, so recognised where none is refused, and an ETag may stand any
/// number of times.
pub fn is_forwarded(code: Code, option: OptRef<'_>) -> bool
    ensures { result ≡ is_forwarded code (seen option.entry) }
{
    if is_used_up(option.number) {
        return false;
    }
    !is_tag_of_get(code, option.number)
        || !recognised(Side::Request, option.number, option.value.len(), 0)
}

/// In a request with this code: forwarded, because it isn't recognised or isn't consumed by the
/// proxy.
#[derive(Clone, Copy)]
struct Forwarded(Code);

impl Test for Forwarded {
    ghost holds = { λ t p. not (is_withheld t.0 p) };

    fn holds_of(&self, option: OptRef<'_>, before: usize, row: Option<Row>) -> bool {
        !(is_for_proxy(self.0, option.number)
            && option_recognised(Side::Request, option, before, row))
    }

    fn numbers(&self) -> (u16, u16) {
        (0, u16::MAX)
    }
}

/// In a request with this code: forwarded, and part of the cache key.
#[derive(Clone, Copy)]
struct InKey(Code);

impl Test for InKey {
    ghost holds = { λ t p. is_key t.0 p };

    fn holds_of(&self, option: OptRef<'_>, before: usize, row: Option<Row>) -> bool {
        !is_no_cache_key(option.number) && Forwarded(self.0).holds_of(option, before, row)
    }

    fn numbers(&self) -> (u16, u16) {
        (0, u16::MAX)
    }
}

/// Recognised on this side, and with this number.
#[derive(Clone, Copy)]
struct OfNumber {
    side: Side,
    number: u16,
}

impl Test for OfNumber {
    ghost holds = { λ t p. is_of t.side t.number p };

    fn holds_of(&self, option: OptRef<'_>, before: usize, row: Option<Row>) -> bool {
        option.number == self.number && option_recognised(self.side, option, before, row)
    }

    fn numbers(&self) -> (u16, u16) {
        (self.number, self.number)
    }
}

/// The options of a request that are forwarded, in order: all except the recognised ones among
/// Uri-Host, Observe, Uri-Port, Uri-Path, Max-Age, Uri-Query, Proxy-Uri and Proxy-Scheme, and in a
/// GET also except the recognised ETags.
///
/// # Errors
/// Out of memory. Nothing is allocated if no option is forwarded.
pub fn forward_options(alloc: Global, message: &Message) -> Result<OptionList, OutOfMemory>
    ensures ok { IfOk result (λ list. list ≡ sent_on message.now) }
    ensures err { OnErr result (sent_on message.now ≢ []) }
{
    select(alloc, &message.options.lent(), &Forwarded(message.code))
}

/// The options of a request that are part of its cache key, in order: those that are forwarded,
/// without the NoCacheKey ones (RFC 7252, 5.4.2 and 5.6).
///
/// # Errors
/// Out of memory. Nothing is allocated for an empty key.
pub fn key_options(alloc: Global, message: &Message) -> Result<OptionList, OutOfMemory>
    ensures ok { IfOk result (λ list. list ≡ key_of message.now) }
    ensures err { OnErr result (key_of message.now ≢ []) }
{
    select(alloc, &message.options.lent(), &InKey(message.code))
}

/// Replaces the options of a list by those of a request that are part of its cache key, and reuses
/// the room of the list.
///
/// # Errors
/// Out of memory. The list is then empty.
pub fn key_options_into(list: &mut OptionList, message: &MessageRef<'_>) -> Result<(), OutOfMemory>
    ensures ok { OnOk result (list.new ≡ key_of message.now) }
    ensures err { OnErr result (key_of message.now ≢ []) }
    ensures emptied { OnErr result (list.new ≡ []) }
{
    let selected = select_into(list, &message.option_list(), &InKey(message.code()));
    if selected.is_err() {
        list.clear();
    }
    selected
}

/// The values of the ETags, in order, whose lengths are in range: of a request any number, of a
/// response only the first (RFC 7252, 5.10.6).
///
/// # Errors
/// Out of memory. Nothing is allocated if there is no recognised ETag.
pub fn tags(alloc: Global, message: &Message) -> Result<Pieces, OutOfMemory>
    ensures ok { IfOk result (λ tags. tags ≡ tags_of message.now) }
    ensures err { OnErr result (tags_of message.now ≢ []) }
{
    let mut list = Pieces::new(alloc);
    tags_into(&mut list, &message.lent())?;
    list.shrink_to_fit();
    Ok(list)
}

/// Replaces the values of a list by those of the recognised ETags, and reuses the room of the list.
///
/// # Errors
/// Out of memory. The list is then empty.
pub fn tags_into(list: &mut Pieces, message: &MessageRef<'_>) -> Result<(), OutOfMemory>
    ensures ok { OnOk result (list.new ≡ tags_of message.now) }
    ensures err { OnErr result (tags_of message.now ≢ []) }
    ensures emptied { OnErr result (list.new ≡ []) }
{
    let tag = OfNumber {
        side: Side::of(message.code()),
        number: numbers::ETAG,
    };
    let copied = values_into(list, &message.option_list(), &tag);
    if copied.is_err() {
        list.clear();
    }
    copied
}

/// The recognised Max-Age of a response, in seconds, or 60 if it has none (RFC 7252, 5.10.5).
pub fn max_age(message: &Message) -> u32
    ensures { result ≡ max_age_of message.now }
{
    let max_age = OfNumber {
        side: Side::Response,
        number: numbers::MAX_AGE,
    };
    match first(&message.options.lent(), &max_age) {
        Some(option) => uint(option.value) as u32,
        None => DEFAULT_MAX_AGE,
    }
}
