//! Recordings of a core over a port in memory: what is recorded, and replays of that.
use crate::ports::{ANSWER, BOTH, GET, check_done, check_handed, core_of, stats};
use coap_cache::ListStore;
use coap_core::{Core, LimitValues, Limits};
use coap_message::{OutOfMemory, Seq};
use coap_proxyd::{DriveError, Input, MemoryPort, Output, Port, Scripted, Stats, drive, replay};
use coap_recording::Recording;
use coap_target::{Endpoint, Ip};
use std::alloc::Global;
use std::io;
use std::io::{ErrorKind, Write};
use std::process::Abort;
use std::test::*;

/// What is recorded of a request and the origin's answer.
const RECORDED: &str = "\
5 250 127.0.0.1:40001 50010007B174
5 0 tick
7 17 127.0.0.1:5690 684500010000000000000001D1010AFF3231
7 0 tick
";

/// What a replay of it writes.
const REPLAYED: &str = "\
5 127.0.0.1:5690 480100010000000000000001B474656D70
7 127.0.0.1:40001 50450002D1010AFF3231
";

/// A datagram from this host, at the moment `now` and with this draw, both in milliseconds.
fn arrival(
    alloc: Global,
    (now, draw): (u64, u16),
    port: u16,
    bytes: &[u8],
) -> Result<Scripted, OutOfMemory> {
    let ip = Ip::V4([127, 0, 0, 1]);
    Ok(Scripted {
        now,
        draw,
        datagram: Some((Endpoint { ip, port }, Seq::from_slice(alloc, bytes)?)),
    })
}

/// A port that gives a request and its answer.
fn port(alloc: Global) -> Result<MemoryPort, OutOfMemory> {
    let mut port = MemoryPort::new(alloc, None);
    port.add(arrival(alloc, (5, 250), 40001, &GET)?)?;
    port.add(arrival(alloc, (7, 17), 5690, &ANSWER)?)?;
    Ok(port)
}

/// A core that maps `t` to the origin, with the default limits.
fn core(alloc: Global) -> Result<Core<ListStore>, Fail> {
    Ok(core_of(alloc, Limits::new(LimitValues::default())?)?)
}

/// Drives a core for four turns over a port whose turns are recorded.
fn drive_on<W: Write>(
    rt: &impl Abort,
    alloc: Global,
    core: &mut Core<ListStore>,
    port: &mut Recording<MemoryPort, W>,
) -> Result<Stats, DriveError> {
    assert!(rt; core.events() < 1_000);
    assert!(rt; core.last() <= port.last() && port.port().failures() < 1_000);
    drive(alloc, core, port, 4)
}

/// Checks that bytes are these.
fn check_bytes(rt: &impl Abort, bytes: &[u8], expected: &[u8]) {
    assert_eq!(rt; bytes, expected);
}

/// What a new core writes in a replay of these lines.
fn replayed(alloc: Global, lines: &[u8]) -> Result<Vec<u8>, Fail> {
    let mut core = core(alloc)?;
    let mut out = Vec::new(alloc);
    let (mut input, mut output) = (Input::new(lines), Output::new(&mut out));
    replay(alloc, &mut input, &mut output, &mut core)?;
    Ok(out)
}

/// Checks what is sent over a port whose turns are recorded, and what is recorded.
fn check_recorded(
    rt: &impl Abort,
    alloc: Global,
    core: &mut Core<ListStore>,
    port: &mut Recording<MemoryPort, Vec<u8>>,
) -> Result<(), Fail> {
    check_done(rt, drive_on(rt, alloc, core, port), Ok(stats(4, 2, 0)));
    check_handed(rt, alloc, port.port().handed(), BOTH)?;
    // nothing is written as long as something comes
    assert_eq!(rt; port.writer().len(), 0);
    port.finish();
    assert!(rt; !port.has_ended());
    check_bytes(rt, port.writer().as_slice(), RECORDED.as_bytes());
    Ok(())
}

#[test]
fn a_recording_is_replayed(rt: HostRuntime) -> Result<(), Fail> {
    let alloc = rt.alloc();
    let mut core = core(alloc)?;
    let mut port = Recording::new(alloc, port(alloc)?, Vec::new(alloc))?;
    check_recorded(&rt, alloc, &mut core, &mut port)?;
    let again = replayed(alloc, port.writer().as_slice())?;
    check_bytes(&rt, again.as_slice(), REPLAYED.as_bytes());
    Ok(())
}

// ---- a writer that fails

/// A writer that takes `room` bytes, and fails then.
#[derive(Drop)]
struct Disk {
    held: Vec<u8>,
    room: usize,
}

impl Write for Disk {
    fn write(&mut self, buf: &[u8]) -> io::Result<usize> {
        let left = self.room.saturating_sub(self.held.len());
        if left == 0 {
            return Err(io::Error::from(ErrorKind::StorageFull));
        }
        let taken = left.min(buf.len());
        self.held.extend_from_slice(&buf[..taken])?;
        Ok(taken)
    }

    fn flush(&mut self) -> io::Result<()> {
        Ok(())
    }
}

/// Records the turns on a disk with room for `room` bytes: the datagrams that are sent are the
/// same, and the disk holds what fits.
fn check_disk(
    rt: &impl Abort,
    alloc: Global,
    core: &mut Core<ListStore>,
    port: &mut Recording<MemoryPort, Disk>,
    room: usize,
) -> Result<(), Fail> {
    check_done(rt, drive_on(rt, alloc, core, port), Ok(stats(4, 2, 0)));
    port.finish();
    check_handed(rt, alloc, port.port().handed(), BOTH)?;
    let all = RECORDED.as_bytes();
    assert_eq!(rt; port.has_ended(), room < all.len());
    check_bytes(
        rt,
        port.writer().held.as_slice(),
        &all[..room.min(all.len())],
    );
    Ok(())
}

/// Records the turns of a new core on a new disk with room for `room` bytes.
fn check_full(rt: &impl Abort, alloc: Global, room: usize) -> Result<(), Fail> {
    let mut core = core(alloc)?;
    let disk = Disk {
        held: Vec::new(alloc),
        room,
    };
    let mut port = Recording::new(alloc, port(alloc)?, disk)?;
    check_disk(rt, alloc, &mut core, &mut port, room)
}

#[test]
fn a_full_disk_costs_no_answer(rt: HostRuntime) -> Result<(), Fail> {
    let alloc = rt.alloc();
    for room in 0..RECORDED.len() + 2 {
        check_full(&rt, alloc, room)?;
    }
    Ok(())
}
