//! Functions that allocate and aren't called in the worked runs, with ample memory: owned messages,
//! the options copied from a request, the bytes of a number, a renewed response, and what a client
//! is sent for it.
use coap_cache::{RenewError, SharedMessage, Stored, renewed, shown};
use coap_message::{
    Code, Datagram, DecodeError, Kind, Message, MessageRef, OutOfMemory, Pieces, decode,
    encode_into, uint_bytes,
};
use coap_option::{
    forward_options, key_options, max_age as max_age_of, screen_request, screen_response, tags,
};
use std::alloc::Global;
use std::process::Abort;
use std::test::*;

/// A GET with an ETag, an Accept and a Size1.
const REQUEST: &[u8] = b"\x40\x01\x00\x01\x41\x07\xD1\x00\x3C\xD1\x1E\x05";

/// The bytes of a message.
fn written(alloc: Global, message: &Message) -> Result<Datagram, Fail> {
    let mut out = Datagram::new(alloc, 64)?;
    let room = out.room();
    encode_into(message, &mut out, room)?;
    Ok(out)
}

/// Whether a number is encoded as these bytes.
fn is_written(alloc: Global, number: u64, bytes: &[u8]) -> Result<bool, OutOfMemory> {
    Ok(uint_bytes(alloc, number)?.as_slice() == bytes)
}

/// Checks that bytes are these.
fn check_is(rt: &impl Abort, bytes: &[u8], expected: &[u8]) {
    assert_eq!(rt; bytes, expected);
}

/// Checks the one tag of the request.
fn check_tag(rt: &impl Abort, tags: &Pieces) {
    let mut values = tags.iter();
    assert_eq!(rt;
        (values.next(), values.next()),
        (Some(b"\x07".as_slice()), None)
    );
}

/// Checks what is copied of the request.
fn check_copies(rt: &impl Abort, alloc: Global, request: &Message) -> Result<(), Fail> {
    check_is(rt, written(alloc, request)?.bytes(), REQUEST);
    // the Accept and the Size1, and the Accept alone
    let sent = b"\xD1\x04\x3C\xD1\x1E\x05";
    check_is(rt, forward_options(alloc, request)?.lent().bytes(), sent);
    let key = b"\xD1\x04\x3C";
    check_is(rt, key_options(alloc, request)?.lent().bytes(), key);
    check_tag(rt, &tags(alloc, request)?);
    Ok(())
}

#[test]
fn messages_options_and_numbers_are_copied(rt: HostRuntime) -> Result<(), Fail> {
    let alloc = rt.alloc();
    let request = decode(alloc, REQUEST)?;
    assert!(rt; screen_request(&request).is_ok());
    check_copies(&rt, alloc, &request)?;
    assert!(rt; is_written(alloc, 65536, b"\x01\x00\x00")?);
    Ok(())
}

/// A 2.05 in a Non-confirmable message: its token is AB, its Max-Age 10 s, its payload 21.
const RESPONSE: &[u8] = b"\x51\x45\x01\x02\xAB\xD1\x01\x0A\xFF21";

#[test]
fn a_message_is_read_where_it_lies(rt: HostRuntime) -> Result<(), Fail> {
    let response = MessageRef::read(RESPONSE)?;
    assert!(rt; response.kind() == Kind::Non && response.code() == Code::CONTENT);
    assert_eq!(rt; response.id(), 0x0102);
    assert_eq!(rt; response.token(), b"\xAB".as_slice());
    assert_eq!(rt; response.payload(), b"21".as_slice());
    let mut options = response.options();
    let max_age = options.next();
    assert!(rt;
        max_age.is_some_and(|option| option.number == 14 && option.value == b"\x0A".as_slice())
    );
    assert!(rt; options.next().is_none());
    let copy = response.to_message(rt.alloc())?;
    assert_eq!(rt; max_age_of(&copy), 10);
    assert!(rt; screen_response(&copy).is_ok());
    Ok(())
}

/// Checks why bytes aren't a message.
fn check_refused(rt: &impl Abort, alloc: Global, bytes: &[u8], expected: DecodeError) {
    match decode(alloc, bytes) {
        Ok(_) => assert!(rt; false),
        Err(error) => assert_eq!(rt; error, expected),
    }
}

#[test]
fn malformed_bytes_are_no_message(rt: HostRuntime) -> Result<(), Fail> {
    let alloc = rt.alloc();
    check_refused(&rt, alloc, b"\x50\x01\x00", DecodeError::Short);
    check_refused(&rt, alloc, b"\x10\x01\x00\x07", DecodeError::Version);
    // a token of nine bytes
    let nine = b"\x59\x01\x00\x07\0\0\0\0\0\0\0\0\0";
    check_refused(&rt, alloc, nine, DecodeError::Format);
    check_refused(&rt, alloc, b"\x50\x01\x00\x07\xF0", DecodeError::Format);
    // a value that is cut short, and a marker without a payload
    check_refused(&rt, alloc, b"\x50\x01\x00\x07\xB5t", DecodeError::Format);
    check_refused(&rt, alloc, b"\x50\x01\x00\x07\xFF", DecodeError::Format);
    // there are no option numbers above 65,535
    check_refused(
        &rt,
        alloc,
        b"\x50\x01\x00\x07\xE0\xFF\xFF",
        DecodeError::Format,
    );
    let greatest = decode(alloc, b"\x50\x01\x00\x07\xE0\xFE\xF2")?;
    let mut options = greatest.options.iter();
    assert!(rt; options.next().is_some_and(|option| option.number == 65_535));
    assert!(rt; options.next().is_none());
    Ok(())
}

/// A 2.05 with the payload 21 and an ETag, fresh for ten seconds.
const STORED: &[u8] = b"\x68\x45\x00\x01\x00\x00\x00\x00\x00\x00\x00\x01\x41\xAB\xA1\x0A\xFF21";

/// A 2.03 with that ETag and a Content-Format, without a Max-Age.
const VALID: &[u8] = b"\x68\x43\x00\x03\x00\x00\x00\x00\x00\x00\x00\x02\x41\xAB\x81\x32";

/// A 2.03 with another ETag and a Content-Format, without a Max-Age.
const OTHER: &[u8] = b"\x68\x43\x00\x03\x00\x00\x00\x00\x00\x00\x00\x02\x41\xAC\x81\x32";

/// The stored response, as it came.
fn stored(alloc: Global) -> Result<Stored, Fail> {
    Ok(Stored {
        response: SharedMessage::new(decode(alloc, STORED)?),
        asked: 1,
        got_no: 2,
        got: 0,
        marked: false,
    })
}

/// The stored response, renewed by this one.
fn renewed_by(alloc: Global, response: &[u8]) -> Result<Result<Message, RenewError>, Fail> {
    let stored = stored(alloc)?;
    Ok(renewed(alloc, &stored, &decode(alloc, response)?))
}

#[test]
fn a_stored_response_is_renewed_by_its_tag_alone(rt: HostRuntime) -> Result<(), Fail> {
    let alloc = rt.alloc();
    match renewed_by(alloc, OTHER)? {
        Ok(_) => assert!(rt; false),
        Err(error) => assert_eq!(rt; error, RenewError::WrongTag),
    }
    let message = renewed_by(alloc, VALID)??;
    // fresh for a minute, as the 2.03 has no Max-Age
    let bytes = b"\x68\x45\x00\x01\x00\x00\x00\x00\x00\x00\x00\x01\x41\xAB\x81\x32\x21\x3C\xFF21";
    check_is(&rt, written(alloc, &message)?.bytes(), bytes);
    Ok(())
}

/// Checks what a client that holds these tags is sent for the stored response.
fn check_shown(
    rt: &impl Abort,
    alloc: Global,
    left: Option<u32>,
    tags: &Pieces,
    expected: &[u8],
) -> Result<(), Fail> {
    let message = shown(alloc, &stored(alloc)?.response, left, tags)?;
    check_is(rt, written(alloc, &message)?.bytes(), expected);
    Ok(())
}

/// Checks what clients are sent for the stored response before and after they hold its tag.
fn check_clients(rt: &impl Abort, alloc: Global, tags: &mut Pieces) -> Result<(), Fail> {
    check_shown(rt, alloc, None, tags, STORED)?;
    let aged = b"\x68\x45\x00\x01\x00\x00\x00\x00\x00\x00\x00\x01\x41\xAB\xA1\x09\xFF21";
    check_shown(rt, alloc, Some(9), tags, aged)?;
    tags.push(b"\xAB")?;
    let valid = b"\x68\x43\x00\x01\x00\x00\x00\x00\x00\x00\x00\x01\x41\xAB\xA1\x09";
    check_shown(rt, alloc, Some(9), tags, valid)?;
    check_shown(rt, alloc, None, tags, STORED)
}

#[test]
fn clients_are_shown_what_is_left_or_that_they_hold_it(rt: HostRuntime) -> Result<(), Fail> {
    let alloc = rt.alloc();
    check_clients(&rt, alloc, &mut Pieces::new(alloc))
}
