//! Both stores, called directly: what they keep within their limits, and what they return.
use coap_cache::{
    CacheKey, ListStore, LruStore, Put, SharedKey, SharedMessage, Store, Stored, bytes_of,
};
use coap_message::{Code, Kind, Message, OptionList, OutOfMemory, Pieces, Seq, Token};
use coap_option::numbers;
use coap_target::{Endpoint, Ip, Target};
use std::alloc::Global;
use std::hash::RandomState;
use std::process::Abort;
use std::test::*;

/// A resource on one origin server, with a path of one segment.
fn target(alloc: Global, segment: &[u8]) -> Result<Target, OutOfMemory> {
    let at = Endpoint {
        ip: Ip::V4([127, 0, 0, 1]),
        port: 5690,
    };
    let mut path = Pieces::new(alloc);
    path.push(segment)?;
    Ok(Target {
        host: None,
        at,
        port: None,
        path,
        query: Pieces::new(alloc),
    })
}

/// A cache key for that resource, with or without an Accept. It isn't hashed with the secret of a
/// store, which finds it all the same.
fn key(alloc: Global, segment: &[u8], accept: &[u8]) -> Result<SharedKey, OutOfMemory> {
    let mut options = OptionList::new(alloc);
    if let [format] = accept {
        options.push(numbers::ACCEPT, &[*format])?;
    }
    let target = target(alloc, segment)?;
    SharedKey::new(alloc, CacheKey { target, options }, 0)
}

/// A 2.05 without options that came at moment 0, with a payload of this many bytes.
fn stored(alloc: Global, bytes: usize) -> Result<Stored, OutOfMemory> {
    let mut payload = Seq::new(alloc);
    for _ in 0..bytes {
        payload.push(b'.')?;
    }
    let response = Message {
        kind: Kind::Ack,
        code: Code::CONTENT,
        id: 0,
        token: Token::empty(),
        options: OptionList::new(alloc),
        payload,
    };
    Ok(Stored {
        response: SharedMessage::new(response),
        asked: 0,
        got_no: 0,
        got: 0,
        marked: false,
    })
}

/// Puts an entry for a path of one segment, which counts as `bytes` bytes, and checks the result.
fn put<S: Store>(
    rt: &impl Abort,
    alloc: Global,
    store: &mut S,
    (segment, bytes): (&[u8], usize),
    expected: Put,
) -> Result<(), OutOfMemory> {
    let key = key(alloc, segment, &[])?;
    let stored = stored(alloc, bytes.saturating_sub(66))?;
    assert_eq!(rt; bytes_of(&key, &stored), bytes as u64);
    assert_eq!(rt; store.put(key, stored), expected);
    Ok(())
}

/// Checks which of the entries for X, Y and Z are present, and how many bytes they count as.
fn check_entries<S: Store>(
    rt: &impl Abort,
    alloc: Global,
    store: &S,
    expected: (&[u8], u64),
) -> Result<(), OutOfMemory> {
    for segment in [b"X", b"Y", b"Z"] {
        let is_there = store.peek(&key(alloc, segment, &[])?).is_some();
        assert_eq!(rt; is_there, expected.0.contains(&segment[0]));
    }
    assert_eq!(rt;
        (store.len(), store.total()),
        (expected.0.len(), expected.1)
    );
    Ok(())
}

/// Puts entries of 100, 90 and 80 bytes, in this order, into an empty store with room for 300
/// bytes, and then another for the first key.
fn check_budget<S: Store>(
    rt: &impl Abort,
    alloc: Global,
    store: &mut S,
    newest: usize,
    expected: (Put, &[u8], u64),
) -> Result<(), OutOfMemory> {
    put(rt, alloc, store, (b"Z", 100), Put::Kept)?;
    put(rt, alloc, store, (b"Y", 90), Put::Kept)?;
    put(rt, alloc, store, (b"X", 80), Put::Kept)?;
    check_entries(rt, alloc, store, (b"XYZ", 270))?;
    put(rt, alloc, store, (b"Z", newest), expected.0)?;
    check_entries(rt, alloc, store, (expected.1, expected.2))
}

/// Checks so a new store with room for three entries of 300 bytes in all.
fn check_budget_of_new<S: Store + Drop>(
    rt: &impl Abort,
    alloc: Global,
    seed: S::Seed,
    newest: usize,
    expected: (Put, &[u8], u64),
) -> Result<(), OutOfMemory> {
    let mut store = S::with_limits(alloc, seed, 300, 3)?;
    check_budget(rt, alloc, &mut store, newest, expected)
}

/// Checks a new store with each of three sizes of the last entry.
fn check_budgets<S: Store + Drop>(
    rt: &impl Abort,
    alloc: Global,
    seed: S::Seed,
) -> Result<(), OutOfMemory>
where
    S::Seed: Copy,
{
    check_budget_of_new::<S>(rt, alloc, seed, 230, (Put::Kept, b"Z", 230))?;
    check_budget_of_new::<S>(rt, alloc, seed, 200, (Put::Kept, b"XZ", 280))?;
    // an entry that is too large by itself removes what was stored for its key
    check_budget_of_new::<S>(rt, alloc, seed, 301, (Put::TooLarge, b"XY", 170))
}

#[test]
fn a_new_response_takes_the_room_of_those_used_least(rt: HostRuntime) -> Result<(), Fail> {
    let alloc = rt.alloc();
    check_budgets::<ListStore>(&rt, alloc, ())?;
    check_budgets::<LruStore<RandomState>>(&rt, alloc, RandomState::new(&rt)?)?;
    Ok(())
}

/// Checks whether a response is found that is fresh at this moment.
fn check_hit<S: Store>(rt: &impl Abort, store: &mut S, key: &SharedKey, now: u64, expected: bool) {
    assert_eq!(rt; store.hit(key, now), expected);
}

/// Checks how many responses a change of a resource marks.
fn check_mark<S: Store>(
    rt: &impl Abort,
    alloc: Global,
    store: &mut S,
    segment: &[u8],
    expected: usize,
) -> Result<(), OutOfMemory> {
    let marked = store.mark(&target(alloc, segment)?);
    assert_eq!(rt; marked, expected);
    Ok(())
}

/// Checks what is found and marked of the first and the last of three responses for one resource,
/// of which the first had to go, and what is left after both are forgotten.
fn check_marked<S: Store>(
    rt: &impl Abort,
    alloc: Global,
    store: &mut S,
    (first, last): (&SharedKey, &SharedKey),
) -> Result<(), OutOfMemory> {
    // without a Max-Age a response is fresh for a minute
    check_hit(rt, store, first, 0, false);
    check_hit(rt, store, last, 60_000, true);
    check_hit(rt, store, last, 60_001, false);
    check_mark(rt, alloc, store, b"Y", 0)?;
    check_mark(rt, alloc, store, b"X", 2)?;
    check_hit(rt, store, last, 0, false);
    assert_eq!(rt; (store.forget(first), store.forget(last)), (false, true));
    assert_eq!(rt; (store.len(), store.is_empty()), (1, false));
    Ok(())
}

/// Three responses for one resource, where there is room for two.
fn check_marks<S: Store>(rt: &impl Abort, alloc: Global, store: &mut S) -> Result<(), OutOfMemory> {
    for format in [0x28, 0x29, 0x2A] {
        let kept = store.put(key(alloc, b"X", &[format])?, stored(alloc, 1)?);
        assert_eq!(rt; kept, Put::Kept);
    }
    assert_eq!(rt; store.len(), 2);
    let first = key(alloc, b"X", &[0x28])?;
    let last = key(alloc, b"X", &[0x2A])?;
    check_marked(rt, alloc, store, (&first, &last))
}

/// Checks the marks of a new store with room for two entries.
fn check_marks_of_new<S: Store + Drop>(
    rt: &impl Abort,
    alloc: Global,
    seed: S::Seed,
) -> Result<(), OutOfMemory> {
    let mut store = S::with_limits(alloc, seed, 1_000, 2)?;
    check_marks(rt, alloc, &mut store)
}

#[test]
fn a_change_marks_all_that_is_stored_of_its_resource(rt: HostRuntime) -> Result<(), Fail> {
    let alloc = rt.alloc();
    check_marks_of_new::<ListStore>(&rt, alloc, ())?;
    check_marks_of_new::<LruStore<RandomState>>(&rt, alloc, RandomState::new(&rt)?)?;
    Ok(())
}

#[test]
fn digests_are_made_with_their_secret(rt: HostRuntime) -> Result<(), Fail> {
    // what Rust's `DefaultHasher` gives for the same bytes
    let key = key(rt.alloc(), b"temp", b"\x28")?;
    let digests = key.digests(1);
    assert_eq!(rt; digests.target, 259_818_306_230_810_964);
    assert_eq!(rt; digests.key, 4_776_173_504_558_366_331);
    let others = key.digests(0);
    assert_eq!(rt; others.target, 4_738_415_108_282_001_183);
    assert_eq!(rt; others.key, 6_571_169_565_487_700_985);
    Ok(())
}
