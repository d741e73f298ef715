//! Datagrams that are cut or changed, and floods of requests.
use crate::steps::{Run, arrival};
use coap_core::{Counts, Event, LimitValues, Limits, Outcome};
use coap_message::{Datagram, OutOfMemory, decode, encode_into};
use std::alloc::Global;
use std::process::Abort;
use std::test::*;

/// A datagram of a worked run: the port of the host that it comes from, and its bytes.
type Said = (u16, &'static [u8]);

/// A first answer.
const FIRST_ANSWER: [Said; 2] = [
    (40001, b"\x50\x01\x00\x07\xB1t"),
    (
        5690,
        b"\x68\x45\x00\x01\x00\x00\x00\x00\x00\x00\x00\x01\xD1\x01\x0A\xFF21",
    ),
];

/// A Confirmable client, which acknowledges its answer.
const CONFIRMABLE_CLIENT: [Said; 3] = [
    (40001, b"\x41\x01\x00\x0A\xAA\xB1t"),
    (
        5690,
        b"\x68\x45\x00\x01\x00\x00\x00\x00\x00\x00\x00\x01\xD1\x01\x0A\xFF21",
    ),
    (40001, b"\x60\x00\x00\x02"),
];

/// A Proxy-Uri with empty segments and escapes.
const ODD_PROXY_URI: [Said; 1] = [(
    40001,
    b"\x50\x01\x00\x07\xDD\x16\x1Fcoap://198.51.100.1:61616//%2F//?%2F%26&?%26",
)];

/// A response with a tag, and another request, which names the tag.
const VALIDATION: [Said; 4] = [
    (40001, b"\x50\x01\x00\x07\xB1t"),
    (
        5690,
        b"\x68\x45\x00\x01\x00\x00\x00\x00\x00\x00\x00\x01\x41\xAB\xA1\x00\xFF21",
    ),
    (40002, b"\x50\x01\x00\x01\x41\xAB\x71t"),
    (
        5690,
        b"\x68\x43\x00\x03\x00\x00\x00\x00\x00\x00\x00\x02\x41\xAB\x81\x32",
    ),
];

/// The most that there may be of each, with the default limits.
fn within(counts: Counts) -> bool {
    counts.cached_bytes <= 262_144
        && counts.entries <= 1_024
        && counts.con_records <= 4_096
        && counts.non_records <= 4_096
        && counts.exchanges <= 256
        && counts.waiters <= 1_024
}

/// A core with the default limits.
fn usual_run(alloc: Global) -> Result<Run, Fail> {
    let limits = Limits::new(LimitValues::default())?;
    Ok(Run::new(alloc, limits)?)
}

/// Takes a step at the moment `now`, in milliseconds, after which the limits hold, and returns its
/// outcome.
fn step_within(
    rt: &impl Abort,
    run: &mut Run,
    now: u64,
    event: Event<'_>,
) -> Result<Outcome, OutOfMemory> {
    let report = run.step(rt, now, event)?;
    assert!(rt; within(run.counts()));
    Ok(report.outcome)
}

/// Checks that the message that a datagram encodes is encoded by the same bytes. Returns whether it
/// encodes one.
fn is_written_back(rt: &impl Abort, alloc: Global, bytes: &[u8]) -> Result<bool, Fail> {
    let Ok(message) = decode(alloc, bytes) else {
        return Ok(false);
    };
    let mut out = Datagram::new(alloc, bytes.len())?;
    let room = out.room();
    encode_into(&message, &mut out, room)?;
    assert_eq!(rt; out.bytes(), bytes);
    Ok(true)
}

/// Checks a step of any bytes: what isn't a message is ignored or rejected, and what is sent is a
/// message.
fn check_bytes(
    rt: &impl Abort,
    alloc: Global,
    run: &mut Run,
    port: u16,
    bytes: &[u8],
) -> Result<(), Fail> {
    let is_message = is_written_back(rt, alloc, bytes)?;
    let outcome = step_within(rt, run, 0, arrival(port, bytes))?;
    let unread = outcome == Outcome::Ignored || outcome == Outcome::Rejected;
    assert!(rt; is_message || unread);
    assert!(rt; run.sent().is_empty() || decode(alloc, run.sent()).is_ok());
    Ok(())
}

/// A core after these datagrams, each followed by a tick.
fn after(rt: &impl Abort, alloc: Global, before: &[Said]) -> Result<Run, Fail> {
    let mut run = usual_run(alloc)?;
    for said in before {
        step_within(rt, &mut run, 0, arrival(said.0, said.1))?;
        step_within(rt, &mut run, 0, Event::Tick)?;
    }
    Ok(run)
}

/// Checks each value of one byte of a datagram.
fn check_values(
    rt: &impl Abort,
    alloc: Global,
    run: &mut Run,
    said: Said,
    place: usize,
) -> Result<(), Fail> {
    let mut bytes = Vec::new(alloc);
    bytes.extend_from_slice(said.1)?;
    for value in 0..=255u8 {
        if let Some(byte) = bytes.get_mut(place) {
            *byte = value;
        }
        check_bytes(rt, alloc, run, said.0, bytes.as_slice())?;
    }
    Ok(())
}

/// Checks each beginning of a datagram.
fn check_beginnings(rt: &impl Abort, alloc: Global, run: &mut Run, said: Said) -> Result<(), Fail> {
    for length in 0..said.1.len() {
        let part = said.1.get(..length).ok_or("too long")?;
        check_bytes(rt, alloc, run, said.0, part)?;
    }
    Ok(())
}

/// Checks each beginning of a datagram, after these datagrams, and each value of each of its bytes.
fn check_datagram(rt: &impl Abort, alloc: Global, before: &[Said], said: Said) -> Result<(), Fail> {
    check_beginnings(rt, alloc, &mut after(rt, alloc, before)?, said)?;
    for place in 0..said.1.len() {
        check_values(rt, alloc, &mut after(rt, alloc, before)?, said, place)?;
    }
    Ok(())
}

/// Checks the datagrams of a run, each where it comes.
fn check_run(rt: &impl Abort, alloc: Global, run: &[Said]) -> Result<(), Fail> {
    for (place, said) in run.iter().enumerate() {
        let before = run.get(..place).ok_or("too many")?;
        check_datagram(rt, alloc, before, *said)?;
    }
    Ok(())
}

#[test]
fn cut_and_changed_datagrams_break_nothing(rt: HostRuntime) -> Result<(), Fail> {
    let alloc = rt.alloc();
    check_run(&rt, alloc, &FIRST_ANSWER)?;
    check_run(&rt, alloc, &CONFIRMABLE_CLIENT)?;
    check_run(&rt, alloc, &ODD_PROXY_URI)?;
    check_run(&rt, alloc, &VALIDATION)
}

// ---- floods

/// Each new message is remembered, until there is no room for another.
fn fill_records(rt: &impl Abort, run: &mut Run) -> Result<(), OutOfMemory> {
    for id in 0u16..0x1000 {
        let [high, low] = id.to_be_bytes();
        let request = [0x50, 1, high, low, 0xB1, 0x75];
        step_within(rt, run, 0, arrival(40001, &request))?;
        let [high, low] = (id + 1).to_be_bytes();
        assert_eq!(rt; run.sent(), [0x50, 0x84, high, low].as_slice());
    }
    let one_more = b"\x50\x01\x10\x00\xB1u";
    let outcome = step_within(rt, run, 0, arrival(40001, one_more))?;
    assert_eq!(rt; (outcome, run.sent().len()), (Outcome::NoRecordRoom, 0));
    step_within(rt, run, 145_000, arrival(40001, one_more))?;
    assert_eq!(rt; run.sent(), b"\x50\x84\x10\x01".as_slice());
    Ok(())
}

#[test]
fn a_flood_of_messages_leaves_the_records_full(rt: HostRuntime) -> Result<(), Fail> {
    let mut run = usual_run(rt.alloc())?;
    Ok(fill_records(&rt, &mut run)?)
}

/// What an overloaded proxy answers: 5.03, to be asked again after five seconds.
const LATER: &[u8] = b"\x50\xA3\x00\x01\xD1\x01\x05";

/// Each request for another target opens an exchange, until there is no room for another.
fn fill_exchanges(rt: &impl Abort, run: &mut Run) -> Result<(), OutOfMemory> {
    for id in 0u16..0x100 {
        let [high, low] = id.to_be_bytes();
        let request = [0x50, 1, high, low, 0xB1, 0x74, 0x42, high, low];
        let outcome = step_within(rt, run, 0, arrival(40001, &request))?;
        assert_eq!(rt; outcome, Outcome::Opened);
    }
    let one_more = b"\x50\x01\x01\x00\xB1t\x42\x01\x00";
    let outcome = step_within(rt, run, 0, arrival(40001, one_more))?;
    assert_eq!(rt; (outcome, run.sent()), (Outcome::Overloaded, LATER));
    Ok(())
}

#[test]
fn a_flood_of_targets_leaves_the_exchanges_full(rt: HostRuntime) -> Result<(), Fail> {
    let mut run = usual_run(rt.alloc())?;
    Ok(fill_exchanges(&rt, &mut run)?)
}

/// Each request for one target waits for its answer, until there is no room for another.
fn fill_waiters(rt: &impl Abort, run: &mut Run) -> Result<(), OutOfMemory> {
    for id in 0u16..0x400 {
        let [high, low] = id.to_be_bytes();
        let request = [0x50, 1, high, low, 0xB1, 0x74];
        let outcome = step_within(rt, run, 0, arrival(40001, &request))?;
        let expected = if id == 0 {
            Outcome::Opened
        } else {
            Outcome::Joined
        };
        assert_eq!(rt; outcome, expected);
    }
    let one_more = b"\x50\x01\x04\x00\xB1t";
    let outcome = step_within(rt, run, 0, arrival(40001, one_more))?;
    assert_eq!(rt; (outcome, run.sent()), (Outcome::Overloaded, LATER));
    Ok(())
}

#[test]
fn a_flood_of_one_target_leaves_the_waiters_full(rt: HostRuntime) -> Result<(), Fail> {
    let mut run = usual_run(rt.alloc())?;
    Ok(fill_waiters(&rt, &mut run)?)
}
