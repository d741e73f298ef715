//! `coap_message`, `coap_option`.
use coap_message::{Code, Datagram, Kind, decode, encode_into};
use coap_option::{is_critical, is_unsafe, key_options, screen_request};
use std::test::*;

#[test]
fn coap_message(rt: HostRuntime) -> Result<(), Fail> {
    let alloc = rt.alloc();
    let request = decode(alloc, b"\x40\x01\x12\x34\xB1t")?; // a Confirmable GET of /t
    assert!(rt; request.kind == Kind::Con && request.code == Code::GET && request.id == 0x1234);
    let mut out = Datagram::new(alloc, 64)?;
    encode_into(&request, &mut out, 64)?;
    assert_eq!(rt; out.bytes(), b"\x40\x01\x12\x34\xB1t".as_slice());
    Ok(())
}

#[test]
fn coap_option(rt: HostRuntime) -> Result<(), Fail> {
    let alloc = rt.alloc();
    assert!(rt; is_critical(35) && is_unsafe(35)); // Proxy-Uri
    let request = decode(alloc, b"\x40\x01\x00\x01\xB1t\x60\xD1\x1E\x05")?; // with Accept and Size1
    screen_request(&request)?; // nothing for which a proxy would have to refuse it
    let key = key_options(alloc, &request)?;
    assert_eq!(rt; key.lent().bytes(), b"\xD0\x04".as_slice()); // Accept: Size1 isn't part of it
    Ok(())
}
