//! Messages in words.
ghost use Rattle.std.specs.Prelude.{◌≡◌, ◌<◌, OnOk};
ghost use Rattle.std.specs.Io.KnownBytes.{Appends};
ghost use Rattle.coap_message.specs.OptRef.{seen};
ghost use Rattle.coap_message.specs.Reading.{read_message};
ghost use Rattle.coap_explain.specs.Targets as targets;
ghost use Rattle.coap_explain.specs.Words as spec;

use coap_endpoint::{Endpoint, Ip, Target};
use coap_message::{Code, Kind, MessageRef, OptRef, Pieces, uint};
use coap_option::numbers;
use std::io;
use std::io::Write;
use std::net::Ipv6Addr;

/// The port of `coap` (RFC 7252, 6.1).
const DEFAULT_PORT: u16 = 5683;

/// Adds four numbers, with dots between them.
fn put_octets<W: Write>(line: &mut W, octets: [u8; 4]) -> io::Result<()>
    ensures { OnOk result (Appends (W.contents line.old) (W.contents line.new)
        (targets.octets_text octets)) }
{
    let [a, b, c, d] = octets;
    write!(line, "{a}.{b}.{c}.{d}")
}

/// Adds the first four of eight groups in brackets.
fn put_first_groups<W: Write>(line: &mut W, a: u16, b: u16, c: u16, d: u16) -> io::Result<()>
    ensures { OnOk result (Appends (W.contents line.old) (W.contents line.new)
        (targets.first_groups a b c d)) }
{
    write!(line, "[{a:x}:{b:x}:{c:x}:{d:x}:")
}

/// Adds the last four.
fn put_last_groups<W: Write>(line: &mut W, e: u16, f: u16, g: u16, h: u16) -> io::Result<()>
    ensures { OnOk result (Appends (W.contents line.old) (W.contents line.new)
        (targets.last_groups e f g h)) }
{
    write!(line, "{e:x}:{f:x}:{g:x}:{h:x}]")
}

/// Adds eight groups in brackets, with colons between them.
fn put_groups<W: Write>(line: &mut W, octets: [u8; 16]) -> io::Result<()>
    ensures { OnOk result (Appends (W.contents line.old) (W.contents line.new)
        (targets.groups_text octets)) }
{
    let [a, b, c, d, e, f, g, h] = Ipv6Addr::from_octets(octets).segments();
    put_first_groups(line, a, b, c, d)?;
    put_last_groups(line, e, f, g, h)
}

/// Adds an address: four numbers, or eight groups in brackets.
pub(crate) fn put_ip<W: Write>(line: &mut W, ip: Ip) -> io::Result<()>
    ensures { OnOk result (Appends (W.contents line.old) (W.contents line.new)
        (targets.ip_text ip)) }
{
    match ip {
        Ip::V4(octets) => put_octets(line, octets),
        Ip::V6(octets) => put_groups(line, octets),
    }
}

/// Adds an endpoint as a replay's lines have it: its address, a colon, and its port.
pub(crate) fn put_endpoint<W: Write>(line: &mut W, endpoint: Endpoint) -> io::Result<()>
    ensures { OnOk result (Appends (W.contents line.old) (W.contents line.new)
        (targets.endpoint_text endpoint)) }
{
    put_ip(line, endpoint.ip)?;
    let port = endpoint.port;
    write!(line, ":{port}")
}

/// The word for a type (RFC 7252, 4.2 and 4.3).
fn kind_word(kind: Kind) -> &'static str
    ensures { result.now ≡ spec.kind_word kind }
{
    match kind {
        Kind::Con => "CON",
        Kind::Non => "NON",
        Kind::Ack => "ACK",
        Kind::Rst => "RST",
    }
}

/// Adds a code: the name of a method (RFC 7252, 5.8), or the class, a dot and the detail in two
/// digits.
pub(crate) fn put_code<W: Write>(line: &mut W, code: Code) -> io::Result<()>
    ensures { OnOk result (Appends (W.contents line.old) (W.contents line.new)
        (spec.code_text code)) }
{
    match code.0 {
        1 => line.write_all(b"GET"),
        2 => line.write_all(b"POST"),
        3 => line.write_all(b"PUT"),
        4 => line.write_all(b"DELETE"),
        _ => {
            let (class, detail) = (code.class(), code.detail());
            let (tens, ones) = (detail / 10, detail % 10);
            write!(line, "{class}.{tens}{ones}")
        }
    }
}

/// Adds the type of a message, and its method or its code.
pub(crate) fn put_kind<W: Write>(line: &mut W, message: &MessageRef<'_>) -> io::Result<()>
    ensures { OnOk result (Appends (W.contents line.old) (W.contents line.new)
        (spec.kind_text message.now)) }
{
    let kind = kind_word(message.kind());
    write!(line, " {kind} ")?;
    put_code(line, message.code())
}

/// What stands for itself in a name, beside letters and digits (RFC 3986, 3.2.2).
const PLAIN_IN_NAMES: &[u8] = b"-._~!$&'()*+,;=";

/// What stands for itself in an IPv6 address, beside letters and digits.
const PLAIN_IN_ADDRESSES: &[u8] = b":.";

/// What stands for itself in a part of a path or of a query, beside letters and digits (RFC 3986,
/// 3.3 and 3.4). A slash and an ampersand, which separate parts, don't.
const PLAIN_IN_PARTS: &[u8] = b"-._~!$'()*+,;=:@";

/// A hexadecimal digit, in upper case.
fn upper_hex_digit(number: u8) -> u8
    requires { number < 16 }
    ensures { result ≡ targets.upper_hex_digit number }
{
    if number < 10 {
        b'0' + number
    } else {
        b'A' - 10 + number
    }
}

/// Adds a byte that a peer chose, as `%XX` if it is no letter, no digit, and none of these.
fn put_byte<W: Write>(line: &mut W, byte: u8, plain: &[u8]) -> io::Result<()>
    ensures { OnOk result (Appends (W.contents line.old) (W.contents line.new)
        (targets.escape plain.now byte)) }
{
    if byte.is_ascii_alphanumeric() || plain.contains(&byte) {
        return line.write_all(&[byte]);
    }
    line.write_all(&[b'%', upper_hex_digit(byte / 16), upper_hex_digit(byte % 16)])
}

/// Adds bytes that a peer chose, with `%XX` for each that is no letter, no digit, and none of
/// these.
fn put_escaped<W: Write>(line: &mut W, bytes: &[u8], plain: &[u8]) -> io::Result<()>
    ensures { OnOk result (Appends (W.contents line.old) (W.contents line.new)
        (targets.escaped plain.now bytes.now)) }
{
    for byte in bytes {
        put_byte(line, *byte, plain)?;
    }
    Ok(())
}

/// Whether a host that a client named begins and ends with brackets, as an IPv6 address does.
fn is_bracketed(host: &[u8]) -> bool
    ensures { result ≡ targets.is_bracketed host.now }
{
    host.len() >= 2 && host[0] == b'[' && host[host.len() - 1] == b']'
}

/// Adds a host that a client named: a name, or an IPv6 address in brackets.
fn put_host<W: Write>(line: &mut W, host: &[u8]) -> io::Result<()>
    ensures { OnOk result (Appends (W.contents line.old) (W.contents line.new)
        (targets.host_text host.now)) }
{
    if !is_bracketed(host) {
        return put_escaped(line, host, PLAIN_IN_NAMES);
    }
    line.write_all(b"[")?;
    put_escaped(line, &host[1..host.len() - 1], PLAIN_IN_ADDRESSES)?;
    line.write_all(b"]")
}

/// Adds the host that a target is requested by, or its address.
fn put_host_or_ip<W: Write>(line: &mut W, target: &Target) -> io::Result<()>
    ensures { OnOk result (Appends (W.contents line.old) (W.contents line.new)
        (targets.host_or_ip target.now.host target.now.at.ip)) }
{
    match &target.host {
        Some(host) => put_host(line, host.as_slice()),
        None => put_ip(line, target.at.ip),
    }
}

/// Adds a port of a URI behind a colon, unless it is the default one.
fn put_port<W: Write>(line: &mut W, port: u16) -> io::Result<()>
    ensures { OnOk result (Appends (W.contents line.old) (W.contents line.new)
        (targets.port_text port)) }
{
    if port == DEFAULT_PORT {
        return Ok(());
    }
    write!(line, ":{port}")
}

/// Adds the scheme, the host and the port of a target.
fn put_authority<W: Write>(line: &mut W, target: &Target) -> io::Result<()>
    ensures { OnOk result (Appends (W.contents line.old) (W.contents line.new)
        (targets.authority_text target.now)) }
{
    line.write_all(b"coap://")?;
    put_host_or_ip(line, target)?;
    put_port(line, target.port.unwrap_or(target.at.port))
}

/// Adds parts of a path or of a query, the first one behind a mark, and each other one behind
/// another.
fn put_parts<W: Write>(line: &mut W, parts: &Pieces, first: u8, next: u8) -> io::Result<()>
    ensures { OnOk result (Appends (W.contents line.old) (W.contents line.new)
        (targets.parts_text first next parts.now)) }
{
    let mut mark = first;
    for part in parts.iter() {
        line.write_all(&[mark])?;
        put_escaped(line, part, PLAIN_IN_PARTS)?;
        mark = next;
    }
    Ok(())
}

/// Adds the path of a target.
fn put_path<W: Write>(line: &mut W, path: &Pieces) -> io::Result<()>
    ensures { OnOk result (Appends (W.contents line.old) (W.contents line.new)
        (targets.path_text path.now)) }
{
    if path.is_empty() {
        return line.write_all(b"/");
    }
    put_parts(line, path, b'/', b'/')
}

/// Adds the URI of a target.
pub(crate) fn put_target<W: Write>(line: &mut W, target: &Target) -> io::Result<()>
    ensures { OnOk result (Appends (W.contents line.old) (W.contents line.new)
        (targets.target_text target.now)) }
{
    put_authority(line, target)?;
    put_path(line, &target.path)?;
    put_parts(line, &target.query, b'?', b'&')
}

/// A hexadecimal digit, in lower case.
fn hex_digit(number: u8) -> u8
    requires { number < 16 }
    ensures { result ≡ spec.hex_digit number }
{
    if number < 10 {
        b'0' + number
    } else {
        b'a' - 10 + number
    }
}

/// Adds bytes in hexadecimal digits.
fn put_hex<W: Write>(line: &mut W, bytes: &[u8]) -> io::Result<()>
    ensures { OnOk result (Appends (W.contents line.old) (W.contents line.new)
        (spec.hex_of bytes.now)) }
{
    for byte in bytes {
        line.write_all(&[hex_digit(byte / 16), hex_digit(byte % 16)])?;
    }
    Ok(())
}

/// Adds an option of a sent message, if it is an ETag or a Max-Age.
fn put_option<W: Write>(line: &mut W, option: OptRef<'_>) -> io::Result<()>
    ensures { OnOk result (Appends (W.contents line.old) (W.contents line.new)
        (spec.option_text (seen option.entry))) }
{
    if option.number == numbers::ETAG {
        line.write_all(b" ETag ")?;
        return put_hex(line, option.value);
    }
    if option.number == numbers::MAX_AGE && option.value.len() <= 4 {
        let seconds = uint(option.value);
        return write!(line, " Max-Age {seconds}");
    }
    Ok(())
}

/// Adds what a sent message is: its method or its code, its ETags and its Max-Age.
pub(crate) fn put_message<W: Write>(line: &mut W, message: &MessageRef<'_>) -> io::Result<()>
    ensures { OnOk result (Appends (W.contents line.old) (W.contents line.new)
        (spec.sent_text message.now)) }
{
    line.write_all(b" ")?;
    put_code(line, message.code())?;
    for option in message.options() {
        put_option(line, option)?;
    }
    Ok(())
}

/// Adds what sent bytes are, if they are a message.
pub(crate) fn put_sent<W: Write>(line: &mut W, sent: &[u8]) -> io::Result<()>
    ensures { OnOk result (Appends (W.contents line.old) (W.contents line.new)
        (spec.sent_bytes_text (read_message sent.now))) }
{
    match MessageRef::read(sent) {
        Ok(message) => put_message(line, &message),
        Err(_) => Ok(()),
    }
}
