//! `coap_store`, `coap_store_list`, `coap_store_lru`, `coap_cache`.
use crate::fixtures;
use coap_cache::{ListStore, LruStore, Put, SharedMessage, Store, Stored, renewed, shown};
use coap_message::{Pieces, decode};
use coap_option::max_age;
use std::hash::RandomState;
use std::test::*;

#[test]
fn coap_store(rt: HostRuntime) -> Result<(), Fail> {
    let alloc = rt.alloc();
    // a 2.05 with an ETag and Max-Age 10
    let response = decode(alloc, b"\x60\x45\x00\x01\x41\xAB\xA1\x0A\xFF21")?;
    // it came at moment 0, in event 2; the request was sent in event 1
    let stored = Stored {
        response: SharedMessage::new(response),
        asked: 1,
        got_no: 2,
        got: 0,
        marked: false,
    };
    assert!(rt; stored.is_fresh(10_000) && !stored.is_fresh(10_001));
    let left = stored.left(4_000);
    let message = shown(alloc, &stored.response, Some(left), &Pieces::new(alloc))?;
    assert_eq!(rt; max_age(&message), 6);
    // a 2.03 with this ETag, and no Max-Age
    let valid = decode(alloc, b"\x60\x43\x00\x02\x41\xAB")?;
    assert_eq!(rt; max_age(&renewed(alloc, &stored, &valid)?), 60);
    Ok(())
}

#[test]
fn coap_store_list(rt: HostRuntime) -> Result<(), Fail> {
    let alloc = rt.alloc();
    let (key, same_key) = (fixtures::key(alloc)?, fixtures::key(alloc)?);
    let stored = fixtures::stored(alloc)?;
    let mut store = ListStore::with_limits(alloc, (), 262_144, 1024)?; // bytes, entries
    assert!(rt; store.put(key, stored) == Put::Kept);
    assert!(rt; store.hit(&same_key, 5_000)); // usable, and the most recently used from now on
    Ok(())
}

#[test]
fn coap_store_lru(rt: HostRuntime) -> Result<(), Fail> {
    let alloc = rt.alloc();
    let (key, same_key) = (fixtures::key(alloc)?, fixtures::key(alloc)?);
    let stored = fixtures::stored(alloc)?;
    let seed = RandomState::new(&rt)?; // hashes that outsiders can't predict
    let mut store = LruStore::with_limits(alloc, seed, 262_144, 1024)?; // bytes, entries
    assert!(rt; store.put(key, stored) == Put::Kept);
    assert!(rt; store.hit(&same_key, 5_000)); // usable, and the most recently used from now on
    Ok(())
}

#[test]
fn coap_cache(rt: HostRuntime) -> Result<(), Fail> {
    let alloc = rt.alloc();
    let (key, same_key) = (fixtures::key(alloc)?, fixtures::key(alloc)?);
    let stored = fixtures::stored(alloc)?;
    let mut store = LruStore::with_limits(alloc, RandomState::new(&rt)?, 262_144, 1024)?;
    store.put(key, stored);
    let stored = store.peek(&same_key).ok_or("it isn't stored")?;
    let left = stored.left(4_000); // in whole seconds
    let message = shown(alloc, &stored.response, Some(left), &Pieces::new(alloc))?;
    assert_eq!(rt; max_age(&message), 6);
    Ok(())
}
