//! A watcher that writes what it is told.
ghost use Rattle.std.specs.Prelude.{◌≡◌, ◌++◌, codes, None, OnOk};
ghost use Rattle.std.specs.Fmt.{decimal};
ghost use Rattle.coap_core.specs.Events.{seen};
ghost use Rattle.coap_core.specs.Told.{told};
ghost use Rattle.coap_message.specs.Reading.{read_message};
ghost use Rattle.coap_explain.specs.Account as spec;
ghost use Rattle.coap_explain.specs.Says.{IsSaid, Says};

use crate::answering::Answering;
use crate::causes::joins;
use crate::due::TickSubject;
use crate::messages::{put_endpoint, put_kind, put_target};
use crate::outcomes::{Noted, put_outcome};
use crate::routed::Routed;
use coap_core::{Core, Event, Watch, WatchedTurn};
use coap_message::{MessageRef, Moment, OutOfMemory};
use coap_store::Store;
use jiff::Timestamp;
use std::alloc::Global;
use std::io;
use std::io::Write;

/// The room for a line, in bytes: what it takes to escape a target of the greatest datagram, with
/// the path of an origin.
const ROOM: usize = 65_536;

/// Writes a line for each turn that it is told, as a comment of a replay: `# NUMBER MOMENT SOURCE
/// TYPE CODE TARGET OUTCOME ..`. NUMBER is that of the event, SOURCE is `tick` for a tick, TARGET
/// is there for a request that the routes take somewhere, and behind the outcome stand the cause of
/// a refusal and what was sent; of an exchange that was given up and of an answer that was delivered
/// also its target and its origin, how often the request was sent, and how long it took; of an
/// answer that was given up its client.
pub struct Explainer<W: Write> {
    alloc: Global,
    output: W,
    line: Vec<u8>,
    /// The time of day of the line, with a blank behind it.
    time: Vec<u8>,
    due: TickSubject,
    /// The URI of the target that the exchange that is due has.
    target: Vec<u8>,
    answering: Answering,
    /// The time of day of the moment 0, if it is known.
    since: Option<Timestamp>,
    failed: bool,
}

impl<W: Write + Drop> Drop for Explainer<W> {
    fn drop(self) {
        let Explainer {
            alloc: _,
            output: _,
            line: _,
            time: _,
            due: _,
            target: _,
            answering: _,
            since: _,
            failed: _,
        } = self;
    }
}

/// The room for a time of day, in bytes.
const TIME_ROOM: usize = 64;

/// The time of day at a moment, in milliseconds, if it has one.
fn time_at(since: Timestamp, now: Moment) -> Option<Timestamp> {
    let millis = since
        .as_millisecond()
        .checked_add(i64::try_from(now).ok()?)?;
    let (seconds, rest) = (millis.div_euclid(1000), millis.rem_euclid(1000));
    Timestamp::new(seconds, rest as i32 * 1_000_000).ok()
}

/// Adds the time of day at a moment and a blank, if the time of day of the moment 0 is known.
fn put_time(time: &mut Vec<u8>, since: Option<Timestamp>, now: Moment) -> io::Result<()>
    ensures { since ≡ None → OnOk result (time.new.items ≡ time.old.items) }
{
    let Some(since) = since else {
        return Ok(());
    };
    match time_at(since, now) {
        Some(at) => write!(time, "{at:.3} "),
        None => Ok(()),
    }
}

/// Adds where an event came from.
fn put_source(line: &mut Vec<u8>, event: Event<'_>) -> io::Result<()>
    ensures { OnOk result
        (line.new.items ≡ line.old.items ++ spec.source_text (seen event.entry)) }
{
    match event {
        Event::Datagram { from, .. } => put_endpoint(line, from),
        Event::Tick => line.write_all(b"tick"),
    }
}

/// Adds the type of a message and its code, if these bytes are one.
fn put_read(line: &mut Vec<u8>, bytes: &[u8]) -> io::Result<()>
    ensures { OnOk result
        (line.new.items ≡ line.old.items ++ spec.message_read (read_message bytes.now)) }
{
    match MessageRef::read(bytes) {
        Ok(message) => put_kind(line, &message),
        Err(_) => Ok(()),
    }
}

/// Adds the type of the message that came and its code, if one did.
fn put_message(line: &mut Vec<u8>, event: Event<'_>) -> io::Result<()>
    ensures { OnOk result
        (line.new.items ≡ line.old.items ++ spec.message_text (seen event.entry)) }
{
    match event {
        Event::Datagram { bytes, .. } => put_read(line, bytes),
        Event::Tick => Ok(()),
    }
}

/// Adds how a line begins: the number of an event, its moment, and its time of day.
fn put_head(line: &mut Vec<u8>, number: u64, now: Moment, time: &[u8]) -> io::Result<()>
    ensures { OnOk result (line.new.items
        ≡ line.old.items ++ codes "# " ++ decimal number ++ codes " " ++ decimal now
        ++ codes " " ++ time.now) }
{
    write!(line, "# {number} {now} ")?;
    line.write_all(time)
}

/// Adds what came, and where its request is routed.
fn put_event(line: &mut Vec<u8>, event: Event<'_>, routed: &Routed) -> io::Result<()>
    ensures { OnOk result (line.new.items
        ≡ line.old.items ++ spec.source_text (seen event.entry)
        ++ spec.message_text (seen event.entry) ++ spec.routed_text routed.now) }
{
    put_source(line, event)?;
    put_message(line, event)?;
    routed.put(line)
}

/// What a line says beside its turn.
#[derive(Clone, Copy)]
struct Beside<'a> {
    /// The time of day, with a blank behind it.
    time: &'a [u8],
    /// Where the routes take the request.
    routed: &'a Routed,
    noted: Noted<'a>,
}

/// Adds the line of a turn.
fn put_line<S: Store + Drop>(
    line: &mut Vec<u8>,
    core: &Core<S>,
    turn: WatchedTurn<'_>,
    beside: Beside<'_>,
) -> io::Result<()>
    ensures { OnOk result (line.new.items
        ≡ line.old.items
        ++ spec.line_text (spec.line_of (told turn.entry core.now) beside.entry.time.now
        beside.entry.routed.now (spec.noted_seen beside.entry.noted))) }
{
    put_head(line, core.events(), turn.now, beside.time)?;
    put_event(line, turn.event, beside.routed)?;
    put_outcome(line, core, turn, beside.noted)?;
    line.write_all(b"\n")
}

impl<W: Write> Explainer<W> {
    /// One that writes to this output. Room for its lines is allocated here.
    ///
    /// # Errors
    /// Out of memory.
    pub fn new(alloc: Global, output: W) -> Result<Explainer<W>, OutOfMemory>
    where
        W: Drop,
    {
        Ok(Explainer {
            alloc,
            output,
            line: Vec::with_capacity(alloc, ROOM)?,
            time: Vec::with_capacity(alloc, TIME_ROOM)?,
            due: TickSubject::Nothing,
            target: Vec::with_capacity(alloc, ROOM)?,
            answering: Answering::Passed,
            since: None,
            failed: false,
        })
    }

    /// Says at which time of day the moment 0 was, if that is known. The lines then have the time of
    /// day of their events behind the moments, such as 2026-11-27T14:03:05.123Z.
    pub fn set_since(&mut self, since: Option<Timestamp>) {
        self.since = since;
    }

    /// Whether a line couldn't be written. The lines after it weren't written either.
    pub fn failed(&self) -> bool
        ensures { result ≡ self.now.failed }
    {
        self.failed
    }

    /// Writes the line of a turn.
    fn write<S: Store + Drop>(&mut self, turn: WatchedTurn<'_>, core: &Core<S>) -> io::Result<()>
        ensures { OnOk result (IsSaid (W.contents self.old.output) (told turn.entry core.now)
            (W.contents self.new.output)) }
    {
        self.time.clear();
        put_time(&mut self.time, self.since, turn.now)?;
        let routed = Routed::of(self.alloc, turn.event, core.routes());
        let beside = Beside {
            time: self.time.as_slice(),
            routed: &routed,
            noted: Noted {
                due: self.due,
                target: self.target.as_slice(),
                answering: self.answering,
                joins: joins(core),
            },
        };
        self.line.clear();
        put_line(&mut self.line, core, turn, beside)?;
        self.output.write_all(&self.line)
    }
}

/// Adds the URI of the target of the exchange that the next tick is about, in place of what there
/// was.
fn note_target<S: Store + Drop>(target: &mut Vec<u8>, core: &Core<S>) {
    target.clear();
    if let Some(exchange) = core.due_exchange() {
        // there is room for it
        let _ = put_target(target, &exchange.key.target);
    }
}

impl<W: Write> Watch for Explainer<W> {
    ghost sees = { λ before told after.
        Says (W.contents before.output) before.failed told (W.contents after.output)
        after.failed };

    fn foresee<S: Store + Drop>(&mut self, turn: WatchedTurn<'_>, core: &Core<S>) {
        match turn.event {
            Event::Tick => {
                self.due = TickSubject::of(core);
                note_target(&mut self.target, core);
            }
            Event::Datagram { .. } => {
                self.answering = Answering::of(self.alloc, turn.event, turn.now, core);
            }
        }
    }

    fn see<S: Store + Drop>(&mut self, turn: WatchedTurn<'_>, core: &Core<S>) {
        if !self.failed {
            self.failed = self.write(turn, core).is_err();
        }
    }
}
