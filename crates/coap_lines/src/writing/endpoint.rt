//! Endpoints as they are written.
ghost use Rattle.std.specs.Prelude.{◌≡◌, ◌≤◌, ◌+◌, ◌++◌, ◌∷◌, [], codes, length, take};
ghost use Rattle.std.specs.Fmt.{decimal};
ghost use Rattle.std.specs.Net.Text.{ipv4_text};
ghost use Rattle.coap_uri.specs.Address.{address_text, four_groups, groups_text};
ghost use Rattle.coap_lines.specs.Endpoints.{endpoint_text};
ghost use Rattle.coap_lines.specs.Room.{Adds, HasRoom};

use crate::room::put;
use crate::writing::number::{put_group, put_number};
use coap_endpoint::{Endpoint, Ip};
use std::net::Ipv6Addr;

/// Writes an octet in decimal digits, and a byte after it, from a place on. Returns where they end.
fn write_octet(text: &mut [u8; 16], start: usize, octet: u8, after: u8) -> usize
    requires { start ≤ 12 }
    ensures text { take result text.new ≡ take start text.old ++ decimal octet ++ after ∷ [] }
    ensures within { result ≤ start + 4 }
{
    match octet {
        0..=9 => {
            text[start] = b'0' + octet;
            text[start + 1] = after;
            start + 2
        }
        10..=99 => {
            text[start] = b'0' + octet / 10;
            text[start + 1] = b'0' + octet % 10;
            text[start + 2] = after;
            start + 3
        }
        _ => {
            text[start] = b'0' + octet / 100;
            text[start + 1] = b'0' + octet / 10 % 10;
            text[start + 2] = b'0' + octet % 10;
            text[start + 3] = after;
            start + 4
        }
    }
}

/// Adds four numbers, with dots between them, and a colon.
fn put_octets(out: &mut Vec<u8>, octets: [u8; 4])
    requires { HasRoom out.old 16 }
    ensures { Adds out.old out.new (ipv4_text octets ++ codes ":") 16 }
{
    let [a, b, c, d] = octets;
    // Aside first, so that the buffer is asked for room and added to once.
    let mut text = [0; 16];
    let end = write_octet(&mut text, 0, a, b'.');
    let end = write_octet(&mut text, end, b, b'.');
    let end = write_octet(&mut text, end, c, b'.');
    let end = write_octet(&mut text, end, d, b':');
    put(out, &text[..end]);
}

/// Adds four groups, with colons between them.
fn put_four(out: &mut Vec<u8>, a: u16, b: u16, c: u16, d: u16)
    requires { HasRoom out.old 19 }
    ensures { Adds out.old out.new (four_groups a b c d) 19 }
{
    put_group(out, a);
    put(out, b":");
    put_group(out, b);
    put(out, b":");
    put_group(out, c);
    put(out, b":");
    put_group(out, d);
}

/// Adds eight groups in brackets, with colons between them.
fn put_groups(out: &mut Vec<u8>, segments: [u16; 8])
    requires all { length segments ≡ 8 }
    requires room { HasRoom out.old 41 }
    ensures { Adds out.old out.new (groups_text segments) 41 }
{
    let [a, b, c, d, e, f, g, h] = segments;
    put(out, b"[");
    put_four(out, a, b, c, d);
    put(out, b":");
    put_four(out, e, f, g, h);
    put(out, b"]");
}

/// Adds an address, four numbers or groups in lower case without leading zeros, and a colon.
fn put_address(out: &mut Vec<u8>, ip: Ip)
    requires { HasRoom out.old 42 }
    ensures { Adds out.old out.new (address_text ip ++ codes ":") 42 }
{
    match ip {
        Ip::V4(octets) => put_octets(out, octets),
        Ip::V6(octets) => {
            put_groups(out, Ipv6Addr::from_octets(octets).segments());
            put(out, b":");
        }
    }
}

/// Adds an endpoint: its address, a colon, and its port.
pub(crate) fn put_endpoint(out: &mut Vec<u8>, endpoint: Endpoint)
    requires { HasRoom out.old 47 }
    ensures { Adds out.old out.new (endpoint_text endpoint) 47 }
{
    put_address(out, endpoint.ip);
    put_number(out, endpoint.port);
}
