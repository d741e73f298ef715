//! Addresses written as text (RFC 3986, 3.2.2).
ghost use Rattle.std.specs.Prelude.{◌≡◌, None, IfOk, ok_or, string_bytes};
ghost use Rattle.std.specs.Net.Addr.{ipv4_octets, ipv6_octets};
ghost use Rattle.std.specs.Net.Text.{ipv4_text};
ghost use Rattle.std.specs.List.{list_all};
ghost use Rattle.std.specs.Option.{option_map, option_copied};
ghost use Rattle.url.specs.Host.{borrowed_host};
ghost use Rattle.url.specs.Parser.{parse_url};
ghost use Rattle.coap_uri.specs.Address.{address_text, bytes, eight_groups, four_groups, ipv4_of, is_address_byte, inner_of, ipv6_host, ipv6_read, ipv6_between, bracketed_uri, ip_of};
ghost use Rattle.coap_uri.specs.Answer.{Answers};
ghost use Rattle.coap_endpoint.specs.declared.endpoint.Ip.TheVariants.{V4, V6};
ghost use Rattle.coap_uri.specs.Uri.{host_of, url_or_bad};
ghost use Rattle.coap_uri.specs.declared.error.UriError.TheVariants as errors;

use crate::error::UriError;
use crate::uri::HostPart;
use coap_endpoint::Ip;
use coap_message::{OutOfMemory, Seq};
use std::alloc::Global;
use std::net::{Ipv4Addr, Ipv6Addr};
use url::{Host, ParseError, Url};

/// Parses a text as a URL.
pub(crate) fn read_url(alloc: Global, text: &str) -> Result<Url, UriError>
    ensures { Answers errors.OutOfMemory result (url_or_bad (parse_url None text.now)) }
{
    match Url::parse(alloc, text) {
        Ok(url) => Ok(url),
        Err(ParseError::OutOfMemory | ParseError::Overflow) => Err(UriError::OutOfMemory),
        Err(_) => Err(UriError::Bad),
    }
}

/// The bytes of the IPv4 address that a text is in dotted-decimal form, without leading zeros (RFC
/// 3986, 3.2.2).
pub fn read_ipv4(text: &[u8]) -> Option<[u8; 4]>
    ensures { result ≡ ipv4_of text.now }
{
    match Ipv4Addr::parse_ascii(text) {
        Ok(address) => Some(address.octets()),
        Err(_) => None,
    }
}

/// Whether a byte may occur in an IPv6 address.
fn is_address_byte(byte: u8) -> bool
    ensures { result ≡ is_address_byte byte }
{
    byte.is_ascii_hexdigit() || byte == b':' || byte == b'.'
}

/// Whether all bytes may occur in an IPv6 address.
fn are_address_bytes(bytes: &[u8]) -> bool
    ensures { result ≡ list_all is_address_byte bytes.now }
{
    bytes.iter().all(|byte| is_address_byte(*byte))
}

/// What is between the brackets of a text in brackets.
fn inner(text: &[u8]) -> Option<&[u8]>
    ensures { option_copied result ≡ inner_of text.now }
{
    match text {
        [b'[', inner @ .., b']'] => Some(inner),
        _ => None,
    }
}

/// The bytes of an IPv4 address.
pub(crate) fn bytes_of_ipv4(address: Ipv4Addr) -> Ip
    ensures { result ≡ V4 (bytes 4 (ipv4_octets address)) }
{
    Ip::V4(address.octets())
}

/// The bytes of an IPv6 address.
pub(crate) fn bytes_of_ipv6(address: Ipv6Addr) -> Ip
    ensures { result ≡ V6 (bytes 16 (ipv6_octets address)) }
{
    Ip::V6(address.octets())
}

/// The IPv6 address of a host that is one.
fn ipv6_host(host: Option<Host<&str>>) -> Option<Ip>
    ensures { result ≡ option_map V6 (ipv6_host (option_map borrowed_host host.entry)) }
{
    match host {
        Some(Host::Ipv6(address)) => Some(bytes_of_ipv6(address)),
        _ => None,
    }
}

/// The IPv6 address that `url` reads as the host of a URI.
fn read_ipv6_host(alloc: Global, uri: &str) -> Result<Option<Ip>, OutOfMemory>
    ensures { IfOk result (λ ip.
        ip ≡ option_map V6 (ipv6_read (url_or_bad (parse_url None uri.now)))) }
{
    match read_url(alloc, uri) {
        Ok(url) => Ok(ipv6_host(url.host())),
        Err(UriError::OutOfMemory) => Err(OutOfMemory),
        Err(_) => Ok(None),
    }
}

/// The IPv6 address that `url` reads between brackets.
fn read_between(alloc: Global, inner: &str) -> Result<Option<Ip>, OutOfMemory>
    ensures { IfOk result (λ ip.
        ip ≡ option_map V6 (ipv6_read (url_or_bad (parse_url None (bracketed_uri inner.now))))) }
{
    let uri = format!(in alloc; "coap://[{inner}]")?;
    read_ipv6_host(alloc, uri.as_str())
}

/// The IPv6 address between brackets, if it is one.
fn read_ipv6(alloc: Global, inner: &[u8]) -> Result<Option<Ip>, OutOfMemory>
    ensures { IfOk result (λ ip. ip ≡ option_map V6 (ipv6_between inner.now)) }
{
    if !are_address_bytes(inner) {
        return Ok(None);
    }
    match str::from_utf8(inner) {
        Ok(inner) => read_between(alloc, inner),
        Err(_) => Ok(None),
    }
}

/// The address that a text is, if it is one.
///
/// # Errors
/// Out of memory.
pub fn read_address(alloc: Global, text: &[u8]) -> Result<Option<Ip>, OutOfMemory>
    ensures { IfOk result (λ ip. ip ≡ ip_of text.now) }
{
    if let Some(octets) = read_ipv4(text) {
        return Ok(Some(Ip::V4(octets)));
    }
    match inner(text) {
        Some(inner) => read_ipv6(alloc, inner),
        None => Ok(None),
    }
}

/// The address that a text is: IPv4 in dotted-decimal form without leading zeros, or IPv6 in
/// brackets (RFC 3986, 3.2.2).
///
/// # Errors
/// `Bad` for any other text, or `OutOfMemory`. `Scheme` is never returned.
pub fn read_ip(alloc: Global, text: &str) -> Result<Ip, UriError>
    ensures { Answers errors.OutOfMemory result (ok_or (ip_of text.now) errors.Bad) }
{
    match read_address(alloc, text.as_bytes())? {
        Some(ip) => Ok(ip),
        None => Err(UriError::Bad),
    }
}

/// The host that a text is, in ASCII lower case: an address, or otherwise a name, which isn't
/// decoded.
///
/// # Errors
/// Out of memory.
pub fn read_host(alloc: Global, text: &[u8]) -> Result<HostPart, OutOfMemory>
    ensures { IfOk result (λ host. host ≡ host_of text.now) }
{
    let lower = text.to_ascii_lowercase(alloc)?;
    match read_address(alloc, lower.as_slice())? {
        Some(ip) => Ok(HostPart::Addr(ip)),
        None => Ok(HostPart::Name(Seq::from_vec(lower))),
    }
}

/// Four numbers with dots between them.
fn ipv4_text(alloc: Global, octets: [u8; 4]) -> Result<String, OutOfMemory>
    ensures { IfOk result (λ text. string_bytes text ≡ ipv4_text octets) }
{
    let [a, b, c, d] = octets;
    Ok(format!(in alloc; "{a}.{b}.{c}.{d}")?)
}

/// Four groups with colons between them, in lower case without leading zeros.
fn four_groups(alloc: Global, a: u16, b: u16, c: u16, d: u16) -> Result<String, OutOfMemory>
    ensures { IfOk result (λ text. string_bytes text ≡ four_groups a b c d) }
{
    Ok(format!(in alloc; "{a:x}:{b:x}:{c:x}:{d:x}")?)
}

/// Eight groups in brackets, with colons between them.
fn groups_text(alloc: Global, segments: [u16; 8]) -> Result<String, OutOfMemory>
    ensures { IfOk result (λ text. string_bytes text ≡ eight_groups segments) }
{
    let [a, b, c, d, e, f, g, h] = segments;
    let front = four_groups(alloc, a, b, c, d)?;
    let back = four_groups(alloc, e, f, g, h)?;
    Ok(format!(in alloc; "[{front}:{back}]")?)
}

/// The text of an IPv6 address: eight groups in brackets, in lower case without leading zeros.
fn ipv6_text(alloc: Global, octets: [u8; 16]) -> Result<String, OutOfMemory>
    ensures { IfOk result (λ text. string_bytes text ≡ address_text (V6 octets)) }
{
    groups_text(alloc, Ipv6Addr::from_octets(octets).segments())
}

/// The text of an address: four numbers with dots between them, or eight groups in brackets, in
/// lower case without leading zeros.
///
/// # Errors
/// Out of memory.
pub fn address_text(alloc: Global, ip: Ip) -> Result<Seq<u8>, OutOfMemory>
    ensures { IfOk result (λ text. text ≡ address_text ip) }
{
    let text = match ip {
        Ip::V4(octets) => ipv4_text(alloc, octets)?,
        Ip::V6(octets) => ipv6_text(alloc, octets)?,
    };
    Ok(Seq::from_vec(text.into_bytes()))
}
