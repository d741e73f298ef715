//! A core over a port in memory.
ghost use Rattle.std.specs.Prelude.{◌≡◌, IfOk};

use coap_cache::ListStore;
use coap_core::{Core, LimitValues, Limits};
use coap_message::{OutOfMemory, Seq};
use coap_proxyd::{DriveError, Handed, MemoryPort, Port, Scripted, Stats, drive};
use coap_target::{Endpoint, Ip, RouteError, Routes};
use std::alloc::{AllocError, Global};
use std::process::Abort;
use std::test::*;

/// A GET of `t` by a client, and the origin's answer.
pub(crate) const GET: [u8; 6] = [0x50, 0x01, 0x00, 0x07, 0xB1, 0x74];

pub(crate) const ANSWER: [u8; 18] = [
    0x68, 0x45, 0x00, 0x01, 0, 0, 0, 0, 0, 0, 0, 0x01, 0xD1, 0x01, 0x0A, 0xFF, 0x32, 0x31,
];

/// What the origin server is sent for the request, what the client is sent for the answer, and
/// both.
const SENT_ON: &str = "5690 480100010000000000000001B474656D70\n";

const DELIVERED: &str = "40001 50450002D1010AFF3231\n";

pub(crate) const BOTH: &str = "\
5690 480100010000000000000001B474656D70
40001 50450002D1010AFF3231
";

/// A datagram from this host, at the moment `now`, in milliseconds.
fn arrival(alloc: Global, now: u64, port: u16, bytes: &[u8]) -> Result<Scripted, OutOfMemory> {
    let ip = Ip::V4([127, 0, 0, 1]);
    Ok(Scripted {
        now,
        draw: 0,
        datagram: Some((Endpoint { ip, port }, Seq::from_slice(alloc, bytes)?)),
    })
}

/// A port that gives the first `given` of a request and its answer, and nothing more; with
/// `Some(n)` it refuses the datagram that comes after `n` others.
fn port(alloc: Global, given: usize, refused: Option<usize>) -> Result<MemoryPort, OutOfMemory>
    ensures { IfOk result (λ port. port.failures ≡ 0) }
{
    let mut port = MemoryPort::new(alloc, refused);
    if given > 0 {
        port.add(arrival(alloc, 5, 40001, &GET)?)?;
    }
    if given > 1 {
        port.add(arrival(alloc, 7, 5690, &ANSWER)?)?;
    }
    Ok(port)
}

/// The counts after `turns` turns in which the port took `sent` datagrams and didn't take
/// `send_faults`.
pub(crate) fn stats(turns: u64, sent: u64, send_faults: u64) -> Stats {
    Stats {
        turns,
        sent,
        send_faults,
        lost: 0,
    }
}

/// The port failed after this was done.
fn failed(stats: Stats) -> Result<Stats, DriveError> {
    Err(DriveError::Port { stats })
}

fn text(alloc: Global, text: &str) -> Result<String, OutOfMemory> {
    Ok(String::from_str(alloc, text)?)
}

/// A core that maps `t` to the origin.
pub(crate) fn core_of(alloc: Global, limits: Limits) -> Result<Core<ListStore>, RouteError> {
    let prefix = text(alloc, "/t")?;
    let origin = text(alloc, "coap://127.0.0.1:5690/temp")?;
    let routes = Routes::new(alloc, &[], &[], &[(prefix, origin)], None)?;
    Ok(Core::new(alloc, (), limits, routes, 1, 0)?)
}

/// Drives a core for `turns` turns.
pub(crate) fn drive_on(
    rt: &impl Abort,
    alloc: Global,
    core: &mut Core<ListStore>,
    port: &mut MemoryPort,
    turns: u64,
) -> Result<Stats, DriveError> {
    assert!(rt; turns < 1_000 && core.events() < 1_000);
    assert!(rt; core.last() <= port.last() && port.failures() < 1_000);
    drive(alloc, core, port, turns)
}

/// Drives a new core with the default limits for `turns` turns.
fn drive_anew(
    rt: &impl Abort,
    alloc: Global,
    port: &mut MemoryPort,
    turns: u64,
) -> Result<Result<Stats, DriveError>, Fail> {
    let mut core = core_of(alloc, Limits::new(LimitValues::default())?)?;
    Ok(drive_on(rt, alloc, &mut core, port, turns))
}

/// What was handed over, one line for each datagram.
pub(crate) fn shown(alloc: Global, handed: &[Handed]) -> Result<String, AllocError> {
    let mut out = String::new(alloc);
    for datagram in handed {
        write!(out, "{} ", datagram.to.port)?;
        for byte in datagram.bytes.as_slice() {
            write!(out, "{byte:02X}")?;
        }
        out.push_str("\n")?;
    }
    Ok(out)
}

/// Checks the result of a drive.
pub(crate) fn check_done(
    rt: &impl Abort,
    done: Result<Stats, DriveError>,
    expected: Result<Stats, DriveError>,
) {
    assert!(rt; done == expected);
}

/// Checks that a text is this one.
pub(crate) fn check_text(rt: &impl Abort, text: &str, expected: &str) {
    assert_eq!(rt; text, expected);
}

/// Checks what was handed over.
pub(crate) fn check_handed(
    rt: &impl Abort,
    alloc: Global,
    handed: &[Handed],
    expected: &str,
) -> Result<(), Fail> {
    check_text(rt, shown(alloc, handed)?.as_str(), expected);
    Ok(())
}

/// Drives a core for `turns` turns over a port that gives `given` datagrams and refuses one or
/// none, and checks the result and what was handed over.
fn check_driven(
    rt: &impl Abort,
    alloc: Global,
    (turns, given, refused): (u64, usize, Option<usize>),
    expected: (Result<Stats, DriveError>, &str),
) -> Result<(), Fail> {
    let mut port = port(alloc, given, refused)?;
    check_done(rt, drive_anew(rt, alloc, &mut port, turns)?, expected.0);
    check_handed(rt, alloc, port.handed(), expected.1)
}

#[test]
fn a_core_is_driven_over_a_port(rt: HostRuntime) -> Result<(), Fail> {
    let alloc = rt.alloc();
    for (turns, given, refused, expected) in [
        (4, 2, None, (Ok(stats(4, 2, 0)), BOTH)),
        // the port fails at the first turn, the third or the fifth, as it has nothing more to give
        (5, 0, None, (failed(stats(0, 0, 0)), "")),
        (5, 1, None, (failed(stats(2, 1, 0)), SENT_ON)),
        (5, 2, None, (failed(stats(4, 2, 0)), BOTH)),
        // a datagram that isn't taken is counted
        (4, 2, Some(0), (Ok(stats(4, 1, 1)), DELIVERED)),
        (4, 2, Some(1), (Ok(stats(4, 1, 1)), SENT_ON)),
    ] {
        check_driven(&rt, alloc, (turns, given, refused), expected)?;
    }
    Ok(())
}

// ---- out of memory

/// A port that gives a request twice, and its answer twice.
fn port_that_repeats(alloc: Global) -> Result<MemoryPort, OutOfMemory> {
    let mut port = MemoryPort::new(alloc, None);
    port.add(arrival(alloc, 5, 40001, &GET)?)?;
    port.add(arrival(alloc, 6, 40001, &GET)?)?;
    port.add(arrival(alloc, 7, 5690, &ANSWER)?)?;
    port.add(arrival(alloc, 8, 5690, &ANSWER)?)?;
    Ok(port)
}

/// Such a port, made again if memory ran out.
fn insist_on_port(alloc: Global) -> Result<MemoryPort, OutOfMemory> {
    match port_that_repeats(alloc) {
        Ok(port) => Ok(port),
        Err(OutOfMemory) => port_that_repeats(alloc),
    }
}

/// A core with the default limits, made again if memory ran out.
fn insist_on_core(alloc: Global) -> Result<Core<ListStore>, Fail> {
    let limits = Limits::new(LimitValues::default())?;
    match core_of(alloc, limits) {
        Ok(core) => Ok(core),
        Err(_) => Ok(core_of(alloc, limits)?),
    }
}

/// Drives a core for six turns, and again if memory ran out before the first, when nothing was
/// done.
fn insist_on_driving(
    rt: &impl Abort,
    alloc: Global,
    core: &mut Core<ListStore>,
    port: &mut MemoryPort,
) -> Result<Stats, DriveError> {
    match drive_on(rt, alloc, core, port, 6) {
        Err(DriveError::OutOfMemory) => drive_on(rt, alloc, core, port, 6),
        done => done,
    }
}

/// What was handed over, written again if memory ran out for the text.
fn insist_on_shown(alloc: Global, handed: &[Handed]) -> Result<String, AllocError> {
    match shown(alloc, handed) {
        Ok(text) => Ok(text),
        Err(AllocError) => shown(alloc, handed),
    }
}

/// Checks the counts of that drive, and what was handed over unless a datagram wasn't taken.
fn check_made_up(
    rt: &impl Abort,
    alloc: Global,
    stats: Stats,
    handed: &[Handed],
) -> Result<(), AllocError> {
    assert_eq!(rt; stats.turns, 6);
    assert!(rt; stats.lost <= 1 && stats.send_faults <= 1 - stats.lost);
    if stats.send_faults == 0 {
        check_text(rt, insist_on_shown(alloc, handed)?.as_str(), BOTH);
    }
    Ok(())
}

// A turn whose step runs out of memory is lost and counted, and the loop goes on: the request comes
// again, and so does its answer. The test passes with ample memory, when no turn is lost, and also
// if any one allocation fails.
#[test]
fn what_comes_again_makes_up_for_a_lost_turn(rt: HostRuntime) -> Result<(), Fail> {
    let alloc = rt.alloc();
    let mut port = insist_on_port(alloc)?;
    let mut core = insist_on_core(alloc)?;
    let stats = insist_on_driving(&rt, alloc, &mut core, &mut port)?;
    Ok(check_made_up(&rt, alloc, stats, port.handed())?)
}
