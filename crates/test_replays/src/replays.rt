//! Replays of an input that comes in pieces, with readers and writers that fail or are interrupted,
//! and on a core that was used before.
use crate::steps::routes;
use coap_cache::ListStore;
use coap_core::{Core, LimitValues, Limits};
use coap_message::OutOfMemory;
use coap_proxyd::{Input, Output, ReplayError, replay};
use std::alloc::{AllocError, Global};
use std::io;
use std::io::{BufRead, ErrorKind, Read, Write};
use std::process::Abort;
use std::test::*;

/// A run: its events, a line each, and what is written: a line each, with the number of its event.
#[derive(Clone, Copy)]
struct Run {
    events: &'static str,
    lines: &'static [(u64, &'static str)],
}

/// What is forwarded at the moment 0, and what is delivered then.
const SENT_ON: &str = "0 127.0.0.1:5690 480100010000000000000001B474656D70\n";

const DELIVERED: &str = "0 127.0.0.1:40001 50450002D1010AFF3231\n";

/// A request, a tick that forwards it, the response, and a tick that delivers it.
const FIRST_ANSWER: Run = Run {
    events: "\
0 0 127.0.0.1:40001 50010007B174
0 0 tick
0 0 127.0.0.1:5690 684500010000000000000001D1010AFF3231
0 0 tick
",
    lines: &[(2, SENT_ON), (4, DELIVERED)],
};

/// A Confirmable client, which acknowledges its answer, and repeats its request until its lifetime
/// has passed.
const CONFIRMABLE_CLIENT: Run = Run {
    events: "\
0 0 127.0.0.1:40001 4101000AAAB174
0 0 tick
20 0 127.0.0.1:5690 684500010000000000000001D1010AFF3231
20 0 tick
30 0 127.0.0.1:40001 60000002
246999 0 127.0.0.1:40001 4101000AAAB174
247000 0 127.0.0.1:40001 4101000AAAB174
247000 0 tick
",
    lines: &[
        (1, "0 127.0.0.1:40001 6000000A\n"),
        (2, SENT_ON),
        (4, "20 127.0.0.1:40001 41450002AAD1010AFF3231\n"),
        (6, "246999 127.0.0.1:40001 6000000A\n"),
        (7, "247000 127.0.0.1:40001 6000000A\n"),
        (
            8,
            "247000 127.0.0.1:5690 480100030000000000000002B474656D70\n",
        ),
    ],
};

/// An origin server that never answers: its request is sent five times, and then the client is told
/// so.
const SILENT_ORIGIN: Run = Run {
    events: "\
0 0 127.0.0.1:40001 50010007B174
0 0 tick
2000 0 tick
6000 0 tick
14000 0 tick
30000 0 tick
62000 0 tick
62000 0 tick
",
    lines: &[
        (2, SENT_ON),
        (
            3,
            "2000 127.0.0.1:5690 480100010000000000000001B474656D70\n",
        ),
        (
            4,
            "6000 127.0.0.1:5690 480100010000000000000001B474656D70\n",
        ),
        (
            5,
            "14000 127.0.0.1:5690 480100010000000000000001B474656D70\n",
        ),
        (
            6,
            "30000 127.0.0.1:5690 480100010000000000000001B474656D70\n",
        ),
        (8, "62000 127.0.0.1:40001 50A40002\n"),
    ],
};

/// A silent origin, with the longest timeouts.
const SILENT_ORIGIN_LONGEST: Run = Run {
    events: "\
0 0 127.0.0.1:40001 50010007B174
0 1000 tick
3000 0 tick
9000 0 tick
21000 0 tick
45000 0 tick
93000 0 tick
93000 0 tick
",
    lines: &[
        (2, SENT_ON),
        (
            3,
            "3000 127.0.0.1:5690 480100010000000000000001B474656D70\n",
        ),
        (
            4,
            "9000 127.0.0.1:5690 480100010000000000000001B474656D70\n",
        ),
        (
            5,
            "21000 127.0.0.1:5690 480100010000000000000001B474656D70\n",
        ),
        (
            6,
            "45000 127.0.0.1:5690 480100010000000000000001B474656D70\n",
        ),
        (8, "93000 127.0.0.1:40001 50A40002\n"),
    ],
};

/// The runs that readers and writers break off.
const RUNS: [Run; 4] = [
    FIRST_ANSWER,
    CONFIRMABLE_CLIENT,
    SILENT_ORIGIN,
    SILENT_ORIGIN_LONGEST,
];

impl Run {
    /// How many events it has.
    fn len(self) -> u64 {
        self.done(self.events.len())
    }

    /// How many of them end within its first `given` bytes.
    fn done(self, given: usize) -> u64 {
        let bytes = self.events.bytes().take(given);
        bytes.filter(|byte| *byte == b'\n').count() as u64
    }

    /// What its first `done` events write.
    fn written(self, alloc: Global, done: u64) -> Result<String, AllocError> {
        let mut out = String::new(alloc);
        for (event, line) in self.lines {
            if *event <= done {
                out.push_str(line)?;
            }
        }
        Ok(out)
    }

    /// The event whose line doesn't fit into so many bytes, if there is one.
    fn cut_off(self, room: usize) -> Option<u64> {
        let mut left = room;
        for (event, line) in self.lines {
            if line.len() > left {
                return Some(*event);
            }
            left -= line.len();
        }
        None
    }
}

/// A core with the default limits and the usual routes.
fn usual_core(alloc: Global) -> Result<Core<ListStore>, Fail> {
    let limits = Limits::new(LimitValues::default())?;
    let routes = routes(alloc)?;
    Ok(Core::new(alloc, (), limits, routes, 1, 0)?)
}

// ---- a core that was used before

/// Replays a text on a core, and checks the result and what was written.
fn check_on(
    rt: &impl Abort,
    alloc: Global,
    core: &mut Core<ListStore>,
    text: &[u8],
    expected: (Result<u64, ReplayError>, &str),
) {
    let mut output = Output::new(Vec::new(alloc));
    let result = replay(alloc, &mut Input::new(text), &mut output, core);
    assert_eq!(rt;
        (result, output.writer().as_slice()),
        (expected.0, expected.1.as_bytes())
    );
}

#[test]
fn a_replay_goes_on_where_the_last_one_ended(rt: HostRuntime) -> Result<(), Fail> {
    let alloc = rt.alloc();
    let mut core = usual_core(alloc)?;
    let request = b"0 0 127.0.0.1:40001 50010007B174\n0 0 tick\n";
    check_on(&rt, alloc, &mut core, request, (Ok(2), SENT_ON));
    let answer = b"0 0 127.0.0.1:5690 684500010000000000000001D1010AFF3231\n0 0 tick\n";
    check_on(&rt, alloc, &mut core, answer, (Ok(2), DELIVERED));
    // an input without a line has no events
    check_on(&rt, alloc, &mut core, b"", (Ok(0), ""));
    // moments don't go back from one replay to the next
    let refused = Err(ReplayError::BadEvent { line: 1 });
    check_on(&rt, alloc, &mut core, b"5 0 tick", (Ok(1), ""));
    check_on(&rt, alloc, &mut core, b"4 0 tick", (refused, ""));
    check_on(&rt, alloc, &mut core, b"5 0 tick", (Ok(1), ""));
    assert_eq!(rt; (core.events(), core.last()), (6, 5));
    Ok(())
}

// ---- readers

/// A reader of a text in pieces of `piece` bytes. After the text comes the end, or an error of the
/// kind `fails`.
#[derive(Drop)]
struct Pieces<'a> {
    rest: &'a [u8],
    piece: usize,
    fails: Option<ErrorKind>,
}

impl<'a> Read for Pieces<'a> {
    fn read(&mut self, buf: &mut [u8]) -> io::Result<usize> {
        match (self.rest, buf) {
            ([byte, rest @ ..], [place, ..]) => {
                *place = *byte;
                self.rest = rest;
                Ok(1)
            }
            _ => Ok(0),
        }
    }
}

impl<'a> BufRead for Pieces<'a> {
    fn fill_buf(&mut self) -> io::Result<&[u8]> {
        if let (Some(kind), []) = (self.fails, self.rest) {
            return Err(io::Error::from(kind));
        }
        let lent = self.piece.min(self.rest.len());
        Ok(&self.rest[..lent])
    }

    fn consume(&mut self, amount: usize) {
        let taken = amount.min(self.rest.len());
        self.rest = &self.rest[taken..];
    }
}

/// Replays an input on a new core, checks that a fault of the reader or the writer comes where that
/// failed and nowhere else, and returns the result and the number of events that the core handled.
fn replay_anew(
    rt: &impl Abort,
    alloc: Global,
    input: &mut Input<impl BufRead>,
    output: &mut Output<impl Write>,
) -> Result<(Result<u64, ReplayError>, u64), Fail> {
    let mut core = usual_core(alloc)?;
    let result = replay(alloc, input, output, &mut core);
    let failed = (input.has_failed(), output.has_failed());
    let faults = (
        result == Err(ReplayError::Read),
        result == Err(ReplayError::Write),
    );
    assert_eq!(rt; failed, faults);
    Ok((result, core.events()))
}

/// What a reader gives: so many bytes of a run, in pieces of so many bytes, after which it ends or
/// fails.
type Given = (Run, usize, usize, Option<ErrorKind>);

/// Replays what a reader gives, and checks the result, the number of events that the core handled,
/// and what was written.
fn check_reader(
    rt: &impl Abort,
    alloc: Global,
    (run, given, piece, fails): Given,
    expected: (Result<u64, ReplayError>, u64, &str),
) -> Result<(), Fail> {
    let rest = run.events.as_bytes().get(..given).ok_or("too many bytes")?;
    let mut input = Input::new(Pieces { rest, piece, fails });
    let mut output = Output::new(Vec::new(alloc));
    let (result, events) = replay_anew(rt, alloc, &mut input, &mut output)?;
    assert_eq!(rt;
        (result, events, output.writer().as_slice()),
        (expected.0, expected.1, expected.2.as_bytes())
    );
    Ok(())
}

/// More bytes than a run has.
const WHOLE: usize = 16_384;

/// Checks a run whose reader fails after each of its bytes.
fn check_broken_off(rt: &impl Abort, alloc: Global, run: Run) -> Result<(), Fail> {
    for given in 0..=run.events.len() {
        let done = run.done(given);
        let written = run.written(alloc, done)?;
        for piece in [1, 7, WHOLE] {
            // an interrupted read isn't retried
            for kind in [ErrorKind::BrokenPipe, ErrorKind::Interrupted] {
                let expected = (Err(ReplayError::Read), done, written.as_str());
                check_reader(rt, alloc, (run, given, piece, Some(kind)), expected)?;
            }
        }
    }
    Ok(())
}

/// Checks a run that comes whole, in pieces.
fn check_in_pieces(rt: &impl Abort, alloc: Global, run: Run) -> Result<(), Fail> {
    let all = run.len();
    let written = run.written(alloc, all)?;
    for piece in [1, 2, 7, 33, WHOLE] {
        let given = (run, run.events.len(), piece, None);
        check_reader(rt, alloc, given, (Ok(all), all, written.as_str()))?;
    }
    Ok(())
}

#[test]
fn an_input_may_come_in_pieces_and_break_off(rt: HostRuntime) -> Result<(), Fail> {
    let alloc = rt.alloc();
    for run in RUNS {
        check_broken_off(&rt, alloc, run)?;
        check_in_pieces(&rt, alloc, run)?;
    }
    Ok(())
}

// ---- writers

/// What a writer does when it is full.
#[derive(Clone, Copy, Drop)]
enum WhenFull {
    Fails,
    TakesNothing,
}

/// A writer that takes `room` bytes in total, one at a time, and is interrupted before each.
#[derive(Drop)]
struct Small {
    held: Vec<u8>,
    room: usize,
    when_full: WhenFull,
    interrupted: bool,
}

impl Write for Small {
    fn write(&mut self, buf: &[u8]) -> io::Result<usize> {
        self.interrupted = !self.interrupted;
        if self.interrupted {
            return Err(io::Error::from(ErrorKind::Interrupted));
        }
        let Some(byte) = buf.first() else {
            return Ok(0);
        };
        if self.held.len() < self.room {
            self.held.push(*byte)?;
            return Ok(1);
        }
        match self.when_full {
            WhenFull::Fails => Err(io::Error::from(ErrorKind::StorageFull)),
            WhenFull::TakesNothing => Ok(0),
        }
    }

    fn flush(&mut self) -> io::Result<()> {
        Ok(())
    }
}

/// Replays a run into a writer with room for `room` bytes, and checks the result, the number of
/// events that the core handled, and the bytes that the writer holds.
fn check_writer(
    rt: &impl Abort,
    alloc: Global,
    (run, room, when_full): (Run, usize, WhenFull),
    expected: (Result<u64, ReplayError>, u64, &[u8]),
) -> Result<(), Fail> {
    let mut output = Output::new(Small {
        held: Vec::new(alloc),
        room,
        when_full,
        interrupted: false,
    });
    let mut input = Input::new(run.events.as_bytes());
    let (result, events) = replay_anew(rt, alloc, &mut input, &mut output)?;
    assert_eq!(rt; (result, events, output.writer().held.as_slice()), expected);
    Ok(())
}

/// Checks a run whose writer fails after each of the bytes that are written.
fn check_full(rt: &impl Abort, alloc: Global, run: Run) -> Result<(), Fail> {
    let all = run.len();
    let written = run.written(alloc, all)?;
    for room in 0..=written.len() {
        let before = written.as_bytes().get(..room).ok_or("too much room")?;
        let expected = match run.cut_off(room) {
            Some(event) => (Err(ReplayError::Write), event, before),
            None => (Ok(all), all, before),
        };
        check_writer(rt, alloc, (run, room, WhenFull::Fails), expected)?;
        check_writer(rt, alloc, (run, room, WhenFull::TakesNothing), expected)?;
    }
    Ok(())
}

#[test]
fn a_writer_that_fails_has_the_bytes_before_and_interruptions_pass(
    rt: HostRuntime,
) -> Result<(), Fail> {
    let alloc = rt.alloc();
    for run in RUNS {
        check_full(&rt, alloc, run)?;
    }
    Ok(())
}
