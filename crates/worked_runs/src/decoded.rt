//! The datagram of a line in words, so that a run that doesn't agree with its file shows where.
ghost use Rattle.std.specs.Prelude.{◌<◌, IfSome};

use crate::expected::is_line_feed;
use coap_message::{Kind, MessageRef, OptRef, uint};
use coap_option::numbers;
use std::alloc::{AllocError, Global};
use std::io::{self, Write};

/// The number of a hexadecimal digit.
fn digit_of(byte: u8) -> Option<u8>
    ensures { IfSome result (λ digit. digit < 16) }
{
    match byte {
        b'0'..=b'9' => Some(byte - b'0'),
        b'A'..=b'F' => Some(byte - b'A' + 10),
        _ => None,
    }
}

/// The bytes that a text of hexadecimal digits stands for, if it is one.
fn bytes_in(alloc: Global, text: &[u8]) -> Result<Option<Vec<u8>>, AllocError> {
    let mut bytes = Vec::new(alloc);
    for pair in text.chunks(2) {
        let [high, low] = pair else {
            return Ok(None);
        };
        let (Some(high), Some(low)) = (digit_of(*high), digit_of(*low)) else {
            return Ok(None);
        };
        bytes.push(high * 16 + low)?;
    }
    Ok(Some(bytes))
}

/// The datagram at the end of a line `MOMENT TO HEX`, in hexadecimal digits.
fn datagram_in(line: &[u8]) -> Option<&[u8]> {
    let mut words = line.split(|byte| *byte == b' ' || is_line_feed(byte));
    let (_moment, _to) = (words.next()?, words.next()?);
    words.next()
}

/// The name of an option.
fn option_name(number: u16) -> &'static str {
    match number {
        numbers::URI_HOST => "Uri-Host",
        numbers::ETAG => "ETag",
        numbers::URI_PORT => "Uri-Port",
        numbers::LOCATION_PATH => "Location-Path",
        numbers::URI_PATH => "Uri-Path",
        numbers::MAX_AGE => "Max-Age",
        numbers::URI_QUERY => "Uri-Query",
        numbers::LOCATION_QUERY => "Location-Query",
        numbers::PROXY_URI => "Proxy-Uri",
        numbers::PROXY_SCHEME => "Proxy-Scheme",
        _ => "option",
    }
}

/// The name of a type.
fn kind_name(kind: Kind) -> &'static str {
    match kind {
        Kind::Con => "CON",
        Kind::Non => "NON",
        Kind::Ack => "ACK",
        Kind::Rst => "RST",
    }
}

/// Writes bytes: in quotes if all can be printed, and otherwise in hexadecimal digits.
fn put_bytes<W: Write>(output: &mut W, bytes: &[u8]) -> io::Result<()> {
    if !bytes.is_empty() && bytes.iter().all(|byte| byte.is_ascii_graphic()) {
        output.write_all(b"\"")?;
        output.write_all(bytes)?;
        return output.write_all(b"\"");
    }
    output.write_all(b"0x")?;
    for byte in bytes {
        write!(output, "{byte:02X}")?;
    }
    Ok(())
}

/// Writes an option.
fn put_option<W: Write>(output: &mut W, option: OptRef<'_>) -> io::Result<()> {
    let (number, name) = (option.number, option_name(option.number));
    write!(output, ", {name} ({number}) ")?;
    if number == numbers::MAX_AGE && option.value.len() <= 4 {
        let seconds = uint(option.value);
        return write!(output, "{seconds}");
    }
    put_bytes(output, option.value)
}

/// Writes a message in words.
fn put_message<W: Write>(output: &mut W, message: &MessageRef<'_>) -> io::Result<()> {
    let (kind, code, id) = (kind_name(message.kind()), message.code(), message.id());
    let (class, tens, ones) = (code.class(), code.detail() / 10, code.detail() % 10);
    write!(
        output,
        "{kind} {class}.{tens}{ones}, Message ID 0x{id:04X}, token "
    )?;
    put_bytes(output, message.token())?;
    for option in message.options() {
        put_option(output, option)?;
    }
    output.write_all(b", payload ")?;
    put_bytes(output, message.payload())
}

/// Writes a second line under a line of a run, if it has a datagram: what that is in words.
pub(crate) fn put_decoded<W: Write>(alloc: Global, output: &mut W, line: &[u8]) -> io::Result<()> {
    let Some(digits) = datagram_in(line) else {
        return Ok(());
    };
    let Some(bytes) = bytes_in(alloc, digits)? else {
        return Ok(());
    };
    output.write_all(b"         ")?;
    match MessageRef::read(bytes.as_slice()) {
        Ok(message) => put_message(output, &message)?,
        Err(_) => output.write_all(b"no message")?,
    }
    output.write_all(b"\n")
}
