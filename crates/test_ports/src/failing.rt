//! A port that fails once, in a run for each of its turns, or takes one datagram less, while a core
//! answers for the first time, answers a Confirmable client, and waits for an origin server that is
//! silent.
ghost use Rattle.std.specs.Prelude.{◌≡◌, ◌+◌, ◌<◌, ◌^◌, IfOk};

use crate::ports::{check_handed, core_of};
use coap_cache::ListStore;
use coap_core::{Core, Counts, LimitValues, Limits};
use coap_message::{Datagram, Moment, OutOfMemory, Seq};
use coap_proxyd::{DriveError, Handed, MemoryPort, Port, PortFault, Scripted, Stats, Turn, drive};
use coap_target::{Endpoint, Ip};
use std::alloc::Global;
use std::process::Abort;
use std::test::*;

/// What comes: a moment, in milliseconds, and the port of this host and the bytes of a datagram, or
/// none for a tick.
type Comes = (u64, Option<(u16, &'static [u8])>);

/// A run.
#[derive(Clone, Copy)]
struct Run {
    /// What comes where the port is asked to wait.
    comes: &'static [Comes],
    /// The draw of the ticks without a wait.
    draw: u16,
    /// How many turns there are, those without a wait included.
    turns: u64,
    /// What is sent, a line each.
    sent: &'static [&'static str],
}

/// The answer of an origin server.
const ANSWER: &[u8] = b"\x68\x45\x00\x01\x00\x00\x00\x00\x00\x00\x00\x01\xD1\x01\x0A\xFF21";

/// The request that it is sent.
const SENT_ON: &str = "5690 480100010000000000000001B474656D70\n";

/// A request of a client, and that of a Confirmable one.
const GET: &[u8] = b"\x50\x01\x00\x07\xB1t";

const CONFIRMABLE_GET: &[u8] = b"\x41\x01\x00\x0A\xAA\xB1t";

/// A first answer.
const FIRST_ANSWER: Run = Run {
    comes: &[(0, Some((40001, GET))), (0, Some((5690, ANSWER)))],
    draw: 0,
    turns: 4,
    sent: &[SENT_ON, "40001 50450002D1010AFF3231\n"],
};

/// A Confirmable client, which acknowledges its answer, and repeats its request until its lifetime
/// has passed.
const CONFIRMABLE_CLIENT: Run = Run {
    comes: &[
        (0, Some((40001, CONFIRMABLE_GET))),
        (20, Some((5690, ANSWER))),
        (30, Some((40001, b"\x60\x00\x00\x02"))),
        (246_999, Some((40001, CONFIRMABLE_GET))),
        (247_000, Some((40001, CONFIRMABLE_GET))),
    ],
    draw: 0,
    turns: 8,
    sent: &[
        "40001 6000000A\n",
        SENT_ON,
        "40001 41450002AAD1010AFF3231\n",
        "40001 6000000A\n",
        "40001 6000000A\n",
        "5690 480100030000000000000002B474656D70\n",
    ],
};

/// An origin server that never answers: its request is sent five times, and then the client is told
/// so.
const SILENT_ORIGIN: Run = Run {
    comes: &[
        (0, Some((40001, GET))),
        (2_000, None),
        (6_000, None),
        (14_000, None),
        (30_000, None),
        (62_000, None),
        (62_000, None),
    ],
    draw: 0,
    turns: 8,
    sent: &[
        SENT_ON,
        SENT_ON,
        SENT_ON,
        SENT_ON,
        SENT_ON,
        "40001 50A40002\n",
    ],
};

/// A silent origin, with the longest timeouts.
const SILENT_ORIGIN_LONGEST: Run = Run {
    comes: &[
        (0, Some((40001, GET))),
        (3_000, None),
        (9_000, None),
        (21_000, None),
        (45_000, None),
        (93_000, None),
        (93_000, None),
    ],
    draw: 1_000,
    ..SILENT_ORIGIN
};

/// A port in memory that can fail once, whatever its wait is, and then goes on. Without a wait it
/// gives a tick with its own draw.
struct FailingPort {
    port: MemoryPort,
    draw: u16,
    /// How many turns it gives before it fails.
    fails_after: Option<u64>,
    /// How often it failed so.
    failed: u64,
    /// Whether it failed in place of a tick without a wait, which it then owes.
    owes_tick: bool,
}

impl Drop for FailingPort {
    fn drop(self) {
        let FailingPort {
            port: _,
            draw: _,
            fails_after: _,
            failed: _,
            owes_tick: _,
        } = self;
    }
}

impl FailingPort {
    /// A port for a run. With `Some(n)` it doesn't take the datagram that comes after `n` others.
    fn new(
        alloc: Global,
        run: Run,
        fails_after: Option<u64>,
        refused: Option<usize>,
    ) -> Result<FailingPort, OutOfMemory>
        ensures { IfOk result (λ port. port.failed + port.port.failures ≡ 0) }
    {
        let mut port = MemoryPort::new(alloc, refused);
        for turn in run.comes {
            port.add(scripted(alloc, *turn)?)?;
        }
        Ok(FailingPort {
            port,
            draw: run.draw,
            fails_after,
            failed: 0,
            owes_tick: false,
        })
    }

    /// How often it failed.
    fn failures(&self) -> u64
        requires { self.now.failed + self.now.port.failures < 2 ^ 64 }
        ensures { result ≡ self.now.failed + self.now.port.failures }
    {
        self.failed + self.port.failures()
    }

    /// Whether it fails now.
    fn fails(&mut self) -> bool
        ensures port { self.new.port ≡ self.old.port }
        ensures failed { self.new.failed ≡ self.old.failed }
    {
        let fails = self.fails_after == Some(0);
        self.fails_after = match self.fails_after {
            Some(turns) => turns.checked_sub(1),
            None => None,
        };
        fails
    }
}

impl Port for FailingPort {
    ghost use Rattle.std.specs.Prelude.{◌+◌};

    ghost clock = { λ p. p.port.last };

    ghost failures = { λ p. p.failed + p.port.failures };

    ghost gives = { λ room p wait turn q. Unit {0} }; // nothing is said of what it gives

    ghost takes = { λ p to bytes taken q. Unit {0} };

    fn last(&self) -> Moment {
        self.port.last()
    }

    fn next(&mut self, wait: u64, into: &mut Datagram) -> Result<Turn, PortFault> {
        if self.fails() {
            self.failed += 1;
            self.owes_tick = wait == 0;
            return Err(PortFault);
        }
        if wait > 0 && !self.owes_tick {
            return self.port.next(wait, into);
        }
        self.owes_tick = false;
        let turn = self.port.next(0, into)?;
        let draw = self.draw.min(1_000);
        Ok(Turn { draw, ..turn })
    }

    fn send(&mut self, to: Endpoint, bytes: &[u8]) -> bool {
        self.port.send(to, bytes)
    }
}

/// A turn of a script.
fn scripted(alloc: Global, (now, datagram): Comes) -> Result<Scripted, OutOfMemory> {
    let datagram = match datagram {
        Some((port, bytes)) => {
            let ip = Ip::V4([127, 0, 0, 1]);
            Some((Endpoint { ip, port }, Seq::from_slice(alloc, bytes)?))
        }
        None => None,
    };
    Ok(Scripted {
        now,
        draw: 0,
        datagram,
    })
}

/// A core that maps `t` to the origin server, with the default limits.
fn usual_core(alloc: Global) -> Result<Core<ListStore>, Fail> {
    Ok(core_of(alloc, Limits::new(LimitValues::default())?)?)
}

/// The lines of all datagrams of a run except for one, if one is given.
fn lines(alloc: Global, sent: &[&str], without: Option<usize>) -> Result<String, Fail> {
    let mut out = String::new(alloc);
    for (place, line) in sent.iter().enumerate() {
        if without != Some(place) {
            out.push_str(line)?;
        }
    }
    Ok(out)
}

/// Checks that what was handed over are all datagrams of a run except for one, if one is given.
fn check_lines(
    rt: &impl Abort,
    alloc: Global,
    handed: &[Handed],
    sent: &[&str],
    without: Option<usize>,
) -> Result<(), Fail> {
    check_handed(rt, alloc, handed, lines(alloc, sent, without)?.as_str())
}

/// Drives a core for `turns` turns.
fn drive_on(
    rt: &impl Abort,
    alloc: Global,
    core: &mut Core<ListStore>,
    port: &mut FailingPort,
    turns: u64,
) -> Result<Stats, DriveError>
    requires { port.old.failed + port.old.port.failures < 2 ^ 63 }
{
    assert!(rt; turns < 1_000 && core.events() < 1_000);
    assert!(rt; core.last() <= port.last());
    drive(alloc, core, port, turns)
}

/// Plays a run over a port that fails after the first `given` turns and then goes on, and checks
/// that it was asked for so many, and that all is sent that would have been.
fn check_next(
    rt: &impl Abort,
    alloc: Global,
    core: &mut Core<ListStore>,
    port: &mut FailingPort,
    run: Run,
    given: u64,
) -> Result<(), Fail>
    requires { port.old.failed + port.old.port.failures ≡ 0 }
{
    let Err(DriveError::Port { stats }) = drive_on(rt, alloc, core, port, run.turns) else {
        return Err("it didn't fail")?;
    };
    assert_eq!(rt;
        (stats.turns, core.events(), port.failed),
        (given, given, 1)
    );
    assert_eq!(rt; stats.sent, port.port.handed().len() as u64);
    assert!(rt; given <= run.turns && port.port.failures() == 0);
    let more = drive_on(rt, alloc, core, port, run.turns - given)?;
    assert_eq!(rt; (more.send_faults, more.lost), (0, 0));
    check_lines(rt, alloc, port.port.handed(), run.sent, None)
}

/// Plays a run with a new core over a new port that fails after the first `given` turns and then
/// goes on.
fn check_next_anew(rt: &impl Abort, alloc: Global, run: Run, given: u64) -> Result<(), Fail> {
    let mut core = usual_core(alloc)?;
    let mut port = FailingPort::new(alloc, run, Some(given), None)?;
    check_next(rt, alloc, &mut core, &mut port, run, given)
}

/// Plays a run over a port that doesn't take the datagram that comes after `refused` others, or
/// takes all, and checks the counts and what it took.
fn check_send(
    rt: &impl Abort,
    alloc: Global,
    core: &mut Core<ListStore>,
    port: &mut FailingPort,
    run: Run,
    refused: Option<usize>,
) -> Result<(), Fail>
    requires { port.old.failed + port.old.port.failures ≡ 0 }
{
    let faults = u64::from(refused.is_some());
    let stats = drive_on(rt, alloc, core, port, run.turns)?;
    let expected = Stats {
        turns: run.turns,
        sent: (run.sent.len() as u64).saturating_sub(faults),
        send_faults: faults,
        lost: 0,
    };
    assert_eq!(rt; stats, expected);
    check_lines(rt, alloc, port.port.handed(), run.sent, refused)
}

/// Plays a run with a new core over a new port that doesn't take one datagram, or takes all. Returns
/// what the core holds at the end.
fn check_send_anew(
    rt: &impl Abort,
    alloc: Global,
    run: Run,
    refused: Option<usize>,
) -> Result<(Counts, Option<u64>), Fail> {
    let mut core = usual_core(alloc)?;
    let mut port = FailingPort::new(alloc, run, None, refused)?;
    check_send(rt, alloc, &mut core, &mut port, run, refused)?;
    Ok((core.counts(), core.next_due()))
}

/// Checks a run with a port that fails at one turn, for each of them, and with one that doesn't take
/// one of its datagrams.
fn check_run(rt: &impl Abort, alloc: Global, run: Run) -> Result<(), Fail> {
    for given in 0..run.turns {
        check_next_anew(rt, alloc, run, given)?;
    }
    let all = check_send_anew(rt, alloc, run, None)?;
    for refused in 0..run.sent.len() {
        // what isn't taken changes nothing of what the core holds
        assert_eq!(rt; check_send_anew(rt, alloc, run, Some(refused))?, all);
    }
    Ok(())
}

#[test]
fn a_port_that_fails_loses_what_it_was_handed_alone(rt: HostRuntime) -> Result<(), Fail> {
    let alloc = rt.alloc();
    check_run(&rt, alloc, FIRST_ANSWER)?;
    check_run(&rt, alloc, CONFIRMABLE_CLIENT)?;
    check_run(&rt, alloc, SILENT_ORIGIN)?;
    check_run(&rt, alloc, SILENT_ORIGIN_LONGEST)
}

/// A request to an origin server that is sent again after its timeout.
const SENT_AGAIN: Run = Run {
    comes: &[(0, Some((40001, GET))), (2_000, None)],
    draw: 0,
    turns: 3,
    sent: &[SENT_ON, SENT_ON],
};

#[test]
fn what_a_port_did_not_take_is_sent_again(rt: HostRuntime) -> Result<(), Fail> {
    let alloc = rt.alloc();
    check_send_anew(&rt, alloc, SENT_AGAIN, Some(0))?;
    Ok(())
}
