//! What a port asks of its system, over one in memory.
use crate::systems::{Call, MemorySystem, Read, Script};
use coap_message::{Datagram, OutOfMemory, Seq};
use coap_proxyd::{Port, PortFault, Turn};
use coap_target::{Endpoint, Ip};
use coap_udp::UdpPort;
use std::alloc::{AllocError, Global};
use std::collections::VecDeque;
use std::io::ErrorKind;
use std::net::{IpAddr, Ipv4Addr, SocketAddr};
use std::test::*;

/// The room of the buffer for what is read, in bytes.
const ROOM: usize = 5;

/// The port of a peer.
const PEER: u16 = 40001;

/// What a system answers to the first read: nothing is there, or these bytes, or they come once it
/// waits, or it fails.
#[derive(Clone, Copy)]
enum First {
    Nothing,
    Found(&'static [u8]),
    Late(&'static [u8]),
    Fails(ErrorKind),
}

/// A read that gives these bytes.
fn found(alloc: Global, bytes: &[u8]) -> Result<Read, OutOfMemory> {
    let from = SocketAddr::new(IpAddr::V4(Ipv4Addr::from_octets([127, 0, 0, 1])), PEER);
    Ok(Ok((Seq::from_slice(alloc, bytes)?, from)))
}

/// The reads that a system answers so.
fn reads(alloc: Global, first: First) -> Result<VecDeque<Read>, OutOfMemory> {
    let mut reads = VecDeque::new(alloc);
    match first {
        First::Nothing => {}
        First::Found(bytes) => reads.push_back(found(alloc, bytes)?)?,
        First::Late(bytes) => {
            reads.push_back(Err(ErrorKind::WouldBlock))?;
            reads.push_back(found(alloc, bytes)?)?;
        }
        First::Fails(kind) => reads.push_back(Err(kind))?,
    }
    Ok(reads)
}

/// A system that answers the first read so, whose clock shows 9 ms and which draws 1,500, a draw of
/// 499.
fn system(alloc: Global, first: First) -> Result<Script, OutOfMemory> {
    let mut script = Script::new(alloc);
    script.reads = reads(alloc, first)?;
    script.arrivals.push_back(matches!(first, First::Late(_)))?;
    script.moments.push_back(9)?;
    script.draws.push_back(1500)?;
    Ok(script)
}

/// The calls of a system, in words.
fn shown(alloc: Global, calls: &[Call]) -> Result<String, AllocError> {
    let mut out = String::new(alloc);
    for call in calls {
        match call {
            Call::Sets(true) => out.push_str("waiting, ")?,
            Call::Sets(false) => out.push_str("not waiting, ")?,
            Call::Receives(room) => write!(out, "read {room}, ")?,
            Call::Awaits(millis) => write!(out, "wait {millis}, ")?,
            Call::Sends(bytes, to) => write!(out, "send {} to {}, ", bytes.len(), to.port())?,
            Call::Shows => out.push_str("clock, ")?,
            Call::Draws => out.push_str("draw; ")?,
        }
    }
    Ok(out)
}

/// The first turn of a port over a system, with this wait: the turn, what was read, and what the
/// port asked of the system, in words.
fn first_turn(alloc: Global, script: Script, wait: u64) -> Result<(Turn, Datagram, String), Fail> {
    let mut into = Datagram::new(alloc, ROOM)?;
    let mut port = UdpPort::over(MemorySystem::new(alloc, script), false);
    let turn = port.next(wait, &mut into)?;
    let asked = shown(alloc, port.system().calls())?;
    Ok((turn, into, asked))
}

/// First turns: what the first read is answered, the wait, what is read, and what the port asks
/// for.
const TURNS: [(First, u64, &str, &str); 9] = [
    // without a wait nothing is read, and the clock isn't either
    (First::Nothing, 0, "", "draw; "),
    // nothing comes
    (First::Nothing, 1000, "", "read 5, wait 996, clock, draw; "),
    (
        First::Nothing,
        2,
        "",
        "not waiting, read 5, wait 2, clock, draw; ",
    ),
    // from eight milliseconds on the read itself waits, for the first four of them
    (
        First::Nothing,
        7,
        "",
        "not waiting, read 5, wait 7, clock, draw; ",
    ),
    (First::Nothing, 8, "", "read 5, wait 4, clock, draw; "),
    (
        First::Late(b"abc"),
        1000,
        "abc",
        "read 5, wait 996, read 5, clock, draw; ",
    ),
    (
        First::Fails(ErrorKind::Interrupted),
        1000,
        "",
        "read 5, clock, draw; ",
    ),
    // as many bytes as there is room for, and one more
    (
        First::Found(b"defgh"),
        1000,
        "defgh",
        "read 5, clock, draw; ",
    ),
    (
        First::Found(b"defghi"),
        1000,
        "defgh",
        "read 5, clock, draw; ",
    ),
];

#[test]
fn a_turn_asks_for_what_it_needs(rt: HostRuntime) -> Result<(), Fail> {
    let alloc = rt.alloc();
    for (first, wait, read, calls) in TURNS {
        let (turn, into, asked) = first_turn(alloc, system(alloc, first)?, wait)?;
        let now = if wait == 0 { 0 } else { 9 };
        assert_eq!(rt;
            (turn.now, turn.draw, into.bytes()),
            (now, 499, read.as_bytes())
        );
        assert_eq!(rt; turn.from.is_none(), read.is_empty());
        assert_eq!(rt; asked.as_str(), calls);
    }
    Ok(())
}

#[test]
fn a_clock_that_cannot_be_read_shows_nothing(rt: HostRuntime) -> Result<(), Fail> {
    let alloc = rt.alloc();
    let (turn, into, asked) = first_turn(alloc, Script::new(alloc), 1)?;
    assert_eq!(rt; (turn.now, turn.draw, into.bytes()), (0, 0, b"".as_slice()));
    assert!(rt; turn.from.is_none());
    assert_eq!(rt;
        asked.as_str(),
        "not waiting, read 5, wait 1, clock, draw; "
    );
    Ok(())
}

/// Sends three bytes over a port that doesn't wait, whose system answers sends like this. Returns
/// whether they went, and what the port asked for.
fn sends(alloc: Global, answers: &[Result<(), ErrorKind>]) -> Result<(bool, String), Fail> {
    let mut script = Script::new(alloc);
    for answer in answers {
        script.sends.push_back(*answer)?;
    }
    let mut into = Datagram::new(alloc, ROOM)?;
    let mut port = UdpPort::over(MemorySystem::new(alloc, script), false);
    port.next(1, &mut into)?;
    let ip = Ip::V4([127, 0, 0, 1]);
    let went = port.send(Endpoint { ip, port: PEER }, b"abc");
    Ok((went, shown(alloc, port.system().calls())?))
}

/// A send that finds no room.
const FULL: Result<(), ErrorKind> = Err(ErrorKind::WouldBlock);

/// What a port asks for that sends once, and one that sends twice.
const ONCE: &str = "not waiting, read 5, wait 1, clock, draw; send 3 to 40001, ";

const TWICE: &str =
    "not waiting, read 5, wait 1, clock, draw; send 3 to 40001, waiting, send 3 to 40001, ";

#[test]
fn a_send_without_room_is_tried_once_more(rt: HostRuntime) -> Result<(), Fail> {
    let alloc = rt.alloc();
    let unreachable = [Err(ErrorKind::HostUnreachable)];
    for (answers, expected, calls) in [
        ([].as_slice(), true, ONCE),
        (unreachable.as_slice(), false, ONCE),
        ([FULL].as_slice(), true, TWICE),
        ([FULL, FULL].as_slice(), false, TWICE),
    ] {
        let (went, asked) = sends(alloc, answers)?;
        assert_eq!(rt; (went, asked.as_str()), (expected, calls));
    }
    Ok(())
}

#[test]
fn a_turn_after_a_send_only_looks(rt: HostRuntime) -> Result<(), Fail> {
    let alloc = rt.alloc();
    let mut into = Datagram::new(alloc, ROOM)?;
    let mut port = UdpPort::over(MemorySystem::new(alloc, Script::new(alloc)), false);
    let ip = Ip::V4([127, 0, 0, 1]);
    port.send(Endpoint { ip, port: PEER }, b"abc");
    port.next(1, &mut into)?;
    port.next(1, &mut into)?;
    let asked = shown(alloc, port.system().calls())?;
    assert_eq!(rt; asked.as_str(), LOOKS);
    Ok(())
}

/// What a port asks for that sends, and then takes two turns with a wait of one millisecond.
const LOOKS: &str =
    "send 3 to 40001, not waiting, read 5, clock, draw; read 5, wait 1, clock, draw; ";

/// The errors of a read that a port passes over.
const PASSING: [ErrorKind; 10] = [
    ErrorKind::WouldBlock,
    ErrorKind::TimedOut,
    ErrorKind::Interrupted,
    ErrorKind::ConnectionRefused,
    ErrorKind::ConnectionReset,
    ErrorKind::ConnectionAborted,
    ErrorKind::HostUnreachable,
    ErrorKind::NetworkUnreachable,
    ErrorKind::NetworkDown,
    ErrorKind::OutOfMemory,
];

/// The errors of a read that end a port: all others.
const ENDING: [ErrorKind; 32] = [
    ErrorKind::NotFound,
    ErrorKind::PermissionDenied,
    ErrorKind::NotConnected,
    ErrorKind::AddrInUse,
    ErrorKind::AddrNotAvailable,
    ErrorKind::BrokenPipe,
    ErrorKind::AlreadyExists,
    ErrorKind::NotADirectory,
    ErrorKind::IsADirectory,
    ErrorKind::DirectoryNotEmpty,
    ErrorKind::ReadOnlyFilesystem,
    ErrorKind::FilesystemLoop,
    ErrorKind::StaleNetworkFileHandle,
    ErrorKind::InvalidInput,
    ErrorKind::InvalidData,
    ErrorKind::WriteZero,
    ErrorKind::StorageFull,
    ErrorKind::NotSeekable,
    ErrorKind::QuotaExceeded,
    ErrorKind::FileTooLarge,
    ErrorKind::ResourceBusy,
    ErrorKind::ExecutableFileBusy,
    ErrorKind::Deadlock,
    ErrorKind::CrossesDevices,
    ErrorKind::TooManyLinks,
    ErrorKind::InvalidFilename,
    ErrorKind::ArgumentListTooLong,
    ErrorKind::Unsupported,
    ErrorKind::UnexpectedEof,
    ErrorKind::InProgress,
    ErrorKind::Other,
    ErrorKind::Uncategorized,
];

/// Whether a port whose first read fails gives a tick, and doesn't end.
fn goes_on(alloc: Global, kind: ErrorKind) -> Result<bool, Fail> {
    let script = system(alloc, First::Fails(kind))?;
    let mut into = Datagram::new(alloc, ROOM)?;
    let mut port = UdpPort::over(MemorySystem::new(alloc, script), false);
    match port.next(1000, &mut into) {
        Ok(turn) => Ok(turn.from.is_none()),
        Err(PortFault) => Ok(false),
    }
}

#[test]
fn a_read_that_fails_is_a_tick_or_ends_the_port(rt: HostRuntime) -> Result<(), Fail> {
    let alloc = rt.alloc();
    for kind in PASSING {
        assert!(rt; goes_on(alloc, kind)?, "{kind:?}");
    }
    for kind in ENDING {
        assert!(rt; !goes_on(alloc, kind)?, "{kind:?}");
    }
    Ok(())
}
