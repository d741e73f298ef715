//! Tables with a limit for one client, called directly: why they don't take an item, and when they
//! take one again.
ghost use Rattle.coap_dedup.specs.Lists.{AreUpTo};

use coap_cache::{CacheKey, SharedKey};
use coap_dedup::{NON_LIFETIME, Records, Refused, Seen, laws};
use coap_exchange::{AdmitError, Exchanges, Joining, Opening, Waiters};
use coap_message::{Kind, OptionList, OutOfMemory, Pieces, Seq, Token};
use coap_target::{Endpoint, Ip, Target};
use endpoint_counts::DigestedEndpoint;
use std::alloc::Global;
use std::process::Abort;
use std::test::*;

/// A client on the loopback network: with another port it is another client.
fn client(port: u16) -> Endpoint {
    Endpoint {
        ip: Ip::V4([127, 0, 0, 1]),
        port,
    }
}

/// A cache key for `/temp` on one origin server.
fn key(alloc: Global) -> Result<SharedKey, OutOfMemory> {
    let mut path = Pieces::new(alloc);
    path.push(b"temp")?;
    let key = CacheKey {
        target: Target {
            host: None,
            at: client(5690),
            port: None,
            path,
            query: Pieces::new(alloc),
        },
        options: OptionList::new(alloc),
    };
    SharedKey::new(alloc, key, 0)
}

/// Opens an exchange for a client, and checks the result.
fn open(
    rt: &impl Abort,
    alloc: Global,
    exchanges: &mut Exchanges,
    port: u16,
    expected: Result<u64, AdmitError>,
) -> Result<(), OutOfMemory> {
    assert!(rt; exchanges.admitted() < u64::MAX);
    let key = key(alloc)?;
    let opening = Opening {
        client: DigestedEndpoint::new(client(port)),
        key: &key,
        is_get: true,
        form: Seq::new(alloc),
        copy: None,
        now: 0,
    };
    let admitted = exchanges.admit(opening);
    assert_eq!(rt; admitted, expected);
    Ok(())
}

/// Opens exchanges for clients at these ports in turn, and checks the results.
fn open_each(
    rt: &impl Abort,
    alloc: Global,
    exchanges: &mut Exchanges,
    turns: &[(u16, Result<u64, AdmitError>)],
) -> Result<(), OutOfMemory> {
    for (port, expected) in turns {
        open(rt, alloc, exchanges, *port, *expected)?;
    }
    Ok(())
}

/// Checks a table with room for two exchanges, and for one of each client.
fn check_exchanges(
    rt: &impl Abort,
    alloc: Global,
    exchanges: &mut Exchanges,
) -> Result<(), OutOfMemory> {
    let turns = [
        (1, Ok(1)),
        (1, Err(AdmitError::ClientFull)),
        (2, Ok(2)),
        // both limits are reached
        (1, Err(AdmitError::Full)),
        (3, Err(AdmitError::Full)),
    ];
    open_each(rt, alloc, exchanges, &turns)?;
    // what the other client gives back is no room of its own
    exchanges.close(2);
    open(rt, alloc, exchanges, 1, Err(AdmitError::ClientFull))?;
    exchanges.close(1);
    open(rt, alloc, exchanges, 1, Ok(3))?;
    exchanges.withdraw();
    open(rt, alloc, exchanges, 1, Ok(3))?;
    assert_eq!(rt;
        (exchanges.count_of(client(1)), exchanges.count_of(client(2))),
        (1, 0)
    );
    Ok(())
}

#[test]
fn exchanges_are_refused_for_all_before_one_client(rt: HostRuntime) -> Result<(), Fail> {
    let mut exchanges = Exchanges::new(rt.alloc(), 2, 1)?;
    Ok(check_exchanges(&rt, rt.alloc(), &mut exchanges)?)
}

/// Has a client wait for an exchange, and checks the result.
fn wait(
    rt: &impl Abort,
    alloc: Global,
    waiters: &mut Waiters,
    port: u16,
    expected: Result<u64, AdmitError>,
) {
    assert!(rt; waiters.admitted() < u64::MAX);
    let joining = Joining {
        client: client(port),
        kind: Kind::Non,
        token: Token::empty(),
        tags: Pieces::new(alloc),
        exchange: 1,
    };
    let admitted = waiters.admit(joining);
    assert_eq!(rt; admitted, expected);
}

#[test]
fn waiters_are_refused_for_all_before_one_client(rt: HostRuntime) -> Result<(), Fail> {
    let alloc = rt.alloc();
    let mut waiters = Waiters::new(alloc, 2, 1)?;
    wait(&rt, alloc, &mut waiters, 1, Ok(1));
    wait(&rt, alloc, &mut waiters, 1, Err(AdmitError::ClientFull));
    wait(&rt, alloc, &mut waiters, 2, Ok(2));
    // both limits are reached
    wait(&rt, alloc, &mut waiters, 1, Err(AdmitError::Full));
    wait(&rt, alloc, &mut waiters, 3, Err(AdmitError::Full));
    // what the other client gives back is no room of its own
    waiters.close(2);
    wait(&rt, alloc, &mut waiters, 1, Err(AdmitError::ClientFull));
    waiters.close(1);
    wait(&rt, alloc, &mut waiters, 1, Ok(3));
    waiters.withdraw();
    wait(&rt, alloc, &mut waiters, 1, Ok(3));
    assert_eq!(rt;
        (waiters.count_of(client(1)), waiters.count_of(client(2))),
        (1, 0)
    );
    Ok(())
}

/// Keeps a record of a new message that comes at moment 0, and checks the result.
fn keep(
    rt: &impl Abort,
    records: &mut Records,
    from: Endpoint,
    id: u16,
    expected: Result<(), Refused>,
)
    requires { AreUpTo 0 records.old.items }
    ensures { AreUpTo 0 records.new.items }
{
    laws::records_stay_so();
    let Seen::New = records.seen(from, id, 0) else {
        panic!(rt; "the message was seen before");
    };
    assert_eq!(rt; records.keep(from, id, 0, None), expected);
}

#[test]
fn records_are_refused_for_all_before_one_client(rt: HostRuntime) -> Result<(), Fail> {
    let mut records = Records::new(rt.alloc(), 2, 1, NON_LIFETIME)?;
    keep(&rt, &mut records, client(1), 1, Ok(()));
    keep(&rt, &mut records, client(1), 2, Err(Refused::ClientFull));
    keep(&rt, &mut records, client(2), 1, Ok(()));
    // both limits are reached
    keep(&rt, &mut records, client(1), 2, Err(Refused::Full));
    keep(&rt, &mut records, client(3), 1, Err(Refused::Full));
    Ok(())
}

#[test]
fn a_client_has_room_again_when_its_record_expires(rt: HostRuntime) -> Result<(), Fail> {
    let mut records = Records::new(rt.alloc(), 2, 1, NON_LIFETIME)?;
    let from = client(1);
    records.keep(from, 1, 0, None)?;
    assert_eq!(rt; records.living_of(from, 144_999), 1);
    let Seen::New = records.seen(from, 2, 144_999) else {
        panic!(rt; "the message was seen before");
    };
    assert_eq!(rt;
        records.keep(from, 2, 144_999, None),
        Err(Refused::ClientFull)
    );
    assert_eq!(rt; records.living_of(from, 145_000), 0);
    let Seen::New = records.seen(from, 2, 145_000) else {
        panic!(rt; "the message was seen before");
    };
    assert_eq!(rt; records.keep(from, 2, 145_000, None), Ok(()));
    Ok(())
}

/// Checks that a message from one client wasn't seen before, or was seen and got no reply.
fn check_seen(rt: &impl Abort, records: &Records, id: u16, now: u64, is_new: bool) {
    match records.seen(client(1), id, now) {
        Seen::New => assert!(rt; is_new),
        Seen::Again(reply) => assert!(rt; !is_new && reply.is_none()),
    }
}

#[test]
fn a_record_makes_room_when_it_expires(rt: HostRuntime) -> Result<(), Fail> {
    let mut records = Records::new(rt.alloc(), 2, 2, 10)?;
    let from = client(1);
    records.keep(from, 1, 0, None)?;
    let Seen::New = records.seen(from, 2, 5) else {
        panic!(rt; "the message was seen before");
    };
    records.keep(from, 2, 5, None)?;
    let Seen::New = records.seen(from, 3, 9) else {
        panic!(rt; "the message was seen before");
    };
    assert_eq!(rt; records.keep(from, 3, 9, None), Err(Refused::Full));
    let Seen::New = records.seen(from, 3, 10) else {
        panic!(rt; "the message was seen before");
    };
    assert_eq!(rt; records.keep(from, 3, 10, None), Ok(()));
    check_seen(&rt, &records, 1, 10, true);
    check_seen(&rt, &records, 2, 10, false);
    Ok(())
}
