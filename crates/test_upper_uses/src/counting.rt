//! `coap_counts`.
use crate::fixtures;
use coap_core::Outcome;
use coap_counts::{MapTable, OriginEvent, OriginTable, way_of};
use coap_message::MessageRef;
use std::test::*;

#[test]
fn coap_counts(rt: HostRuntime) -> Result<(), Fail> {
    let alloc = rt.alloc();
    let (routes, at) = (fixtures::routes(alloc)?, fixtures::ORIGIN);
    let request = MessageRef::read(b"\x50\x01\x00\x07\xB1t")?;
    let mut maps = MapTable::new(alloc, &routes)?;
    maps.count(way_of(&routes, &request), Outcome::Hit);
    let hits = maps.maps().first().map(|map| map.requests.hit);
    assert_eq!(rt; hits, Some(1));
    let mut origins = OriginTable::new(alloc, 256)?; // this many one by one, all others together
    origins.count(at, OriginEvent::Sent);
    let sent = origins.places().first().map(|place| place.counts.sent);
    assert_eq!(rt; sent, Some(1));
    Ok(())
}
