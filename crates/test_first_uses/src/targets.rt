//! `coap_endpoint`, `coap_uri`, `coap_target`, `coap_limits`.
use coap_endpoint::{Endpoint, Ip, Target};
use coap_limits::{LimitValues, Limits};
use coap_message::{Pieces, decode};
use coap_option::screen_request;
use coap_target::Routes;
use coap_uri::{read_ip, split_uri};
use std::test::*;

#[test]
fn coap_endpoint(rt: HostRuntime) -> Result<(), Fail> {
    let alloc = rt.alloc();
    let mut path = Pieces::new(alloc);
    path.push(b"temp")?;
    let at = Endpoint {
        ip: Ip::V4([192, 0, 2, 1]),
        port: 5683,
    };
    let temp = Target {
        host: None,
        at,
        port: None,
        path,
        query: Pieces::new(alloc),
    };
    assert!(rt; temp == temp.copied()?);
    Ok(())
}

#[test]
fn coap_uri(rt: HostRuntime) -> Result<(), Fail> {
    let alloc = rt.alloc();
    let parts = split_uri(alloc, "coap://192.0.2.1/temp?unit=C")?;
    assert_eq!(rt;
        (parts.port, parts.path.len(), parts.query.len()),
        (5683, 1, 1)
    );
    assert!(rt; read_ip(alloc, "192.0.2.1")? == Ip::V4([192, 0, 2, 1]));
    Ok(())
}

#[test]
fn coap_target(rt: HostRuntime) -> Result<(), Fail> {
    let alloc = rt.alloc();
    let prefix = String::from_str(alloc, "/t")?;
    let origin = String::from_str(alloc, "coap://192.0.2.1/temp")?;
    // no own names, no hosts, one map, and no next proxy
    let routes = Routes::new(alloc, &[], &[], &[(prefix, origin)], None)?;
    let request = decode(alloc, b"\x40\x01\x12\x34\xB1t")?; // a GET of /t
    screen_request(&request)?;
    let target = routes.target_of(alloc, &request)?;
    assert!(rt; target.at.port == 5683 && target.path.len() == 1);
    Ok(())
}

#[test]
fn coap_limits(rt: HostRuntime) -> Result<(), Fail> {
    let limits = Limits::new(LimitValues {
        exchanges: 64,
        ..LimitValues::default()
    })?;
    assert_eq!(rt; limits.values().waiters, 1024);
    Ok(())
}
