//! Endpoints as texts: `a.b.c.d:port`, and `[g:g:g:g:g:g:g:g]:port`.
ghost use Rattle.std.specs.Prelude.{◌≡◌, ◌≤◌, IfSome, false, length, option_map};
ghost use Rattle.std.specs.Char.{is_ascii_digit};
ghost use Rattle.std.specs.Net.Reader.{read_byte};
ghost use Rattle.coap_lines.specs.Endpoints.{segments_read, source_of, source_seen, v4_source, v6_endpoint, v6_source};
ghost use Rattle.coap_lines.specs.Numbers.{number_before, number_of, number_seen};

use crate::reading::cutting::cut;
use crate::reading::number::{read_group, read_number, read_short_before};
use coap_endpoint::{Endpoint, Ip};
use coap_uri::first_part;
use std::net::Ipv6Addr;

/// Parses a port, 0 to 65,535.
fn read_port(text: &[u8]) -> Option<u16>
    ensures { result ≡ number_of 65535 text.now }
{
    match read_number(text, 65_535) {
        Some(port) => Some(port as u16),
        None => None,
    }
}

/// The numbers of eight groups.
fn read_segments(text: &[u8]) -> Option<[u16; 8]>
    ensures { result ≡ segments_read text.now }
{
    let mut segments = [0u16; 8];
    let mut rest = Some(text);
    for segment in segments.iter_mut() {
        let Some(text) = rest else {
            return None;
        };
        let (group, after) = first_part(text, b':');
        match read_group(group) {
            Some(number) => *segment = number,
            None => return None,
        }
        rest = after;
    }
    match rest {
        Some(_) => None,
        None => Some(segments),
    }
}

/// The number of an octet before the first such byte, which isn't a digit, and what follows it.
fn read_octet_before(text: &[u8], byte: u8) -> Option<(u8, &[u8])>
    requires { is_ascii_digit byte ≡ false }
    ensures read { number_seen result ≡ number_before byte 255 text.now }
    ensures shorter { IfSome result (λ found. length found.1.now ≤ length text.now) }
{
    let (octet, rest) = read_short_before(text, byte, 255)?;
    Some((octet as u8, rest))
}

/// The endpoint of an IPv4 address and a port before a space, and what follows that space. It goes
/// over the text once. It is kept apart, and so is `read_digits`, so that each has all registers.
#[inline(never)]
#[tactic(auto, unfolding(crate::specs::Endpoints::v4_source))]
fn read_v4_source(text: &[u8]) -> Option<(Endpoint, &[u8])>
    ensures read { source_seen result ≡ v4_source text.now }
    ensures shorter { IfSome result (λ found. length found.1.now ≤ length text.now) }
{
    let (a, rest) = read_octet_before(text, b'.')?;
    let (b, rest) = read_octet_before(rest, b'.')?;
    let (c, rest) = read_octet_before(rest, b'.')?;
    let (d, rest) = read_octet_before(rest, b':')?;
    let (port, rest) = read_short_before(rest, b' ', 65_535)?;
    let endpoint = Endpoint {
        ip: Ip::V4([a, b, c, d]),
        port,
    };
    Some((endpoint, rest))
}

/// What follows a leading colon.
fn after_colon(text: &[u8]) -> Option<&[u8]>
    ensures { option_map (λ rest. rest.now) result ≡ read_byte 58 text.now }
{
    match text {
        [b':', rest @ ..] => Some(rest),
        _ => None,
    }
}

/// The endpoint of an IPv6 address and a port, after the opening bracket.
#[tactic(auto, unfolding(crate::specs::Endpoints::v6_endpoint))]
fn read_v6(text: &[u8]) -> Option<Endpoint>
    ensures { result ≡ v6_endpoint text.now }
{
    let (groups, rest) = cut(text, b']')?;
    let segments = read_segments(groups)?;
    let port = read_port(after_colon(rest)?)?;
    let octets = Ipv6Addr::from_segments(segments).octets();
    Some(Endpoint {
        ip: Ip::V6(octets),
        port,
    })
}

/// The same before a space, and what follows that space.
#[tactic(auto, unfolding(crate::specs::Endpoints::v6_source))]
fn read_v6_source(text: &[u8]) -> Option<(Endpoint, &[u8])>
    ensures read { source_seen result ≡ v6_source text.now }
    ensures shorter { IfSome result (λ found. length found.1.now ≤ length text.now) }
{
    let (source, rest) = cut(text, b' ')?;
    let endpoint = read_v6(source)?;
    Some((endpoint, rest))
}

/// The endpoint before a space, and what follows that space.
pub(crate) fn read_source(text: &[u8]) -> Option<(Endpoint, &[u8])>
    ensures read { source_seen result ≡ source_of text.now }
    ensures shorter { IfSome result (λ found. length found.1.now ≤ length text.now) }
{
    match text {
        [] => None,
        [b'[', inner @ ..] => read_v6_source(inner),
        _ => read_v4_source(text),
    }
}
