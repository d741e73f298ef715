//! The value of `-P`: the next proxy, if it begins with one, and the own names of this one.
ghost use Rattle.std.specs.Prelude.{◌≡◌, ◌<◌, ◌∷◌, IfOk, IfSome, length, ok_or, string_bytes};
ghost use Rattle.std.specs.Char.{is_ascii_digit};
ghost use Rattle.std.specs.List.{list_all};
ghost use Rattle.std.specs.Option.{option_copied};
ghost use Rattle.coap_uri.specs.Address.{ip_of};
ghost use Rattle.coap_uri.specs.Answer.{Says};
ghost use Rattle.coap_uri.specs.Uri.{parts_left};
ghost use Rattle.coap_config.specs.ProxyOption.{bytes_of, comma, endpoint_of, endpoint_with, is_numeral, name_of, names_of, next_said, parts, port_after, port_of, proxy_option_of, seen};
ghost use Rattle.coap_config.specs.declared.error.ProxyOptionError.TheVariants as errors;

use crate::error::ProxyOptionError;
use crate::texts::cut;
use coap_endpoint::Endpoint;
use coap_message::OutOfMemory;
use coap_target::is_name;
use coap_uri::{DEFAULT_PORT, read_address};
use std::alloc::Global;

/// The most own names.
const MOST_NAMES: usize = 64;

/// The contents of `-P`.
#[derive(Drop)]
pub struct ProxyOption {
    /// The proxy that requests for hosts other than its own names are sent to, if there is one.
    pub next: Option<Endpoint>,
    /// The own names of the proxy, in lower case.
    pub names: Vec<String>,
}

/// The next proxy and the own names in the value of `-P`. A next proxy comes before the first
/// comma: `coap://`, an address (IPv4, or IPv6 in brackets), and perhaps a colon and a port from 1
/// to 65,535 without leading zeros; without a port it is 5683. The names, in lower case, are the
/// texts after the first comma, between commas. Each is a name of 1 to 255 visible ASCII characters
/// other than a comma, and there are at most 64.
///
/// # Errors
/// The first variant of `ProxyOptionError` that applies, in their order; `OutOfMemory` may be
/// returned in place of `BadName`.
#[tactic(auto, unfolding(crate::specs::ProxyOption::proxy_option_of))]
pub fn parse_proxy_option(alloc: Global, text: &str) -> Result<ProxyOption, ProxyOptionError>
    ensures { Says seen errors.OutOfMemory result (proxy_option_of text.now) }
{
    let Some((next, names)) = cut(text, ',') else {
        return Err(ProxyOptionError::NoComma);
    };
    let next = read_next(alloc, next)?;
    let names = read_names(alloc, names)?;
    if names.len() > MOST_NAMES {
        return Err(ProxyOptionError::BadName);
    }
    Ok(ProxyOption { next, names })
}

/// The next proxy before the comma, if there is one.
fn read_next(alloc: Global, text: &str) -> Result<Option<Endpoint>, ProxyOptionError>
    ensures { Says (λ next. next) errors.OutOfMemory result (next_said text.now) }
{
    if text.is_empty() {
        return Ok(None);
    }
    let Some(rest) = text.strip_prefix("coap://") else {
        return Err(ProxyOptionError::NextProxy);
    };
    match read_endpoint(alloc, rest) {
        Ok(Some(next)) => Ok(Some(next)),
        Ok(None) => Err(ProxyOptionError::NextProxy),
        Err(_out) => Err(ProxyOptionError::OutOfMemory),
    }
}

/// The endpoint that a text is: an address, and perhaps a colon and a port.
fn read_endpoint(alloc: Global, text: &str) -> Result<Option<Endpoint>, OutOfMemory>
    ensures { IfOk result (λ endpoint. endpoint ≡ endpoint_of text.now) }
{
    if let Some((inside, after)) = cut(text, ']') {
        let address = format!(in alloc; "{inside}]")?;
        return endpoint_with(alloc, address.as_str(), port_after(after));
    }
    match cut(text, ':') {
        Some((address, port)) => endpoint_with(alloc, address, read_port(port)),
        None => endpoint_with(alloc, text, Some(DEFAULT_PORT)),
    }
}

/// The endpoint at an address, if the text is one, and a port.
fn endpoint_with(
    alloc: Global,
    address: &str,
    port: Option<u16>,
) -> Result<Option<Endpoint>, OutOfMemory>
    ensures { IfOk result (λ endpoint. endpoint ≡ endpoint_with (ip_of address.now) port) }
{
    match read_address(alloc, address.as_bytes())? {
        Some(ip) => Ok(port.map(|port| Endpoint { ip, port })),
        None => Ok(None),
    }
}

/// The port after an address in brackets.
fn port_after(text: &str) -> Option<u16>
    ensures { result ≡ port_after text.now }
{
    if text.is_empty() {
        return Some(DEFAULT_PORT);
    }
    read_port(text.strip_prefix(":")?)
}

/// The port that a text is.
#[tactic(auto, using(crate::proofs::Ports::unparsed))]
fn read_port(text: &str) -> Option<u16>
    ensures { result ≡ port_of text.now }
{
    if !is_numeral(text) {
        return None;
    }
    match text.parse::<u16>() {
        Ok(port) if port > 0 => Some(port),
        _ => None,
    }
}

/// Whether a text has no bytes but decimal digits, and no leading zero.
fn is_numeral(text: &str) -> bool
    ensures { result ≡ is_numeral text.now }
{
    !text.starts_with("0") && are_digits(text.as_bytes())
}

/// Whether all bytes are decimal digits.
fn are_digits(text: &[u8]) -> bool
    ensures { result ≡ list_all is_ascii_digit text.now }
{
    text.iter().all(|byte| byte.is_ascii_digit())
}

/// The names between commas.
fn read_names(alloc: Global, text: &str) -> Result<Vec<String>, ProxyOptionError>
    ensures { Says bytes_of errors.OutOfMemory result
        (ok_or (names_of (parts text.now)) errors.BadName) }
{
    let mut names = Vec::new(alloc);
    let mut rest = Some(text);
    while let Some(text) = rest {
        let (name, after) = first_part(text);
        names.push(read_name(alloc, name)?)?;
        rest = after;
    }
    Ok(names)
}

/// What comes before the first comma, and what comes after it, if there is one.
fn first_part(text: &str) -> (&str, Option<&str>)
    ensures parts { parts text.now
        ≡ result.0.now ∷ parts_left comma (option_copied result.1) }
    ensures shorter { IfSome result.1 (λ after. length after.now < length text.now) }
{
    match cut(text, ',') {
        Some((name, after)) => (name, Some(after)),
        None => (text, None),
    }
}

/// A name, in lower case.
fn read_name(alloc: Global, text: &str) -> Result<String, ProxyOptionError>
    ensures { Says string_bytes errors.OutOfMemory result
        (ok_or (name_of text.now) errors.BadName) }
{
    if !is_name(text.as_bytes()) {
        return Err(ProxyOptionError::BadName);
    }
    Ok(text.to_ascii_lowercase(alloc)?)
}
