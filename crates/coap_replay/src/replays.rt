//! Replays: a core handles the events of an input one after the other, and what it sends is
//! written.
ghost use Rattle.std.specs.Prelude.{◌≡◌, ◌≤◌, ◌^◌, ℕ, true, false, Some, IfSome, length, vec_capacity};
ghost use Rattle.coap_replay.specs.Buffers.{HaveRoom};
ghost use Rattle.coap_replay.specs.Watched.{EndsTold, TellsTurn};
ghost use Rattle.coap_replay.specs.Replays.{AsksNext, DoesTurn, FailsBy, HasCause, IfDo, IfMore, IsReplayed, MayBeDone, is_read_fault, is_write_fault, line_for};
ghost use Rattle.coap_lines.specs.Room.{longest_line};
ghost use Rattle.coap_lines.specs.Turns.{turn_seen};

use crate::buffers::Buffers;
use crate::error::ReplayError;
use coap_core::{Core, Endpoint, MOST_EVENTS, Unwatched, Watch, WatchedTurn};
use coap_lines::{Input, Next, Output, Turn, is_skipped, put_line, read_turn};
use coap_message::{Datagram, Moment};
use coap_store::Store;
use std::alloc::Global;
use std::io::{BufRead, Write};

/// The greatest line number: 2^62.
const LAST_LINE: u64 = 1 << 62;

/// What a replay may use.
#[derive(Clone, Copy)]
pub struct Budget {
    /// Where the memory of its buffers comes from.
    pub alloc: Global,
    /// The most events that are done.
    pub turns: u64,
}

/// What comes next in an input.
#[derive(Clone, Copy)]
pub(crate) enum Asked {
    /// No line is left.
    End,
    /// A line that is skipped.
    Skip,
    /// A line with this turn, whose bytes are in the buffer for the datagram that it gives.
    Do(Turn),
}

/// Reads the line numbered `number`, and its turn, which follows the moment `last`, in
/// milliseconds, and `events` events. It takes no memory.
fn next_asked<R: BufRead>(
    input: &mut Input<R>,
    buffers: &mut Buffers,
    number: u64,
    last: Moment,
    events: u64,
) -> Result<Asked, ReplayError>
    requires line { 16385 ≤ vec_capacity buffers.old.line }
    requires input { 8192 ≤ buffers.old.input.room }
    ensures asked { IfSome (R.remaining input.old.reader) (λ text. AsksNext number last events text
        (R.remaining input.new.reader) buffers.new.input.bytes result) }
    ensures cause { HasCause input.new.failed false result }
    ensures reader { input.new.failed ≡ is_read_fault result }
    ensures few { IfMore result (number ≤ 2 ^ 62) }
    ensures may { IfDo (MayBeDone last events) buffers.new.input.bytes result }
    ensures room { (most : ℕ) → HaveRoom most buffers.old → HaveRoom most buffers.new }
{
    match input.next_line(&mut buffers.line) {
        Ok(Next::End) => return Ok(Asked::End),
        Ok(Next::TooLong) => return Err(ReplayError::BadEvent { line: number }),
        Ok(Next::Line) => {}
        Err(_) => return Err(ReplayError::Read),
    }
    if number > LAST_LINE {
        return Err(ReplayError::BadEvent { line: number });
    }
    if is_skipped(&buffers.line) {
        return Ok(Asked::Skip);
    }
    if events >= MOST_EVENTS {
        return Err(ReplayError::BadEvent { line: number });
    }
    match read_turn(&buffers.line, last, &mut buffers.input) {
        Some(turn) => Ok(Asked::Do(turn)),
        None => Err(ReplayError::BadEvent { line: number }),
    }
}

/// Overwrites a buffer with the line of the datagram that was sent, or empties it if none was sent.
/// There is enough room.
fn line_for(text: &mut Vec<u8>, now: Moment, send: Option<Endpoint>, out: &Datagram)
    requires { longest_line (length out.now.bytes) ≤ vec_capacity text.old }
    ensures line { text.new.items ≡ line_for now send out.now.bytes }
    ensures room { vec_capacity text.old ≤ vec_capacity text.new }
{
    text.clear();
    if let Some(to) = send {
        put_line(text, now, to, out.bytes());
    }
}

/// A turn, and the number of the line that it was read from.
#[derive(Clone, Copy)]
struct NumberedTurn {
    turn: Turn,
    number: u64,
}

/// Does the turn of a line, tells the watcher before and after, and writes the line of what it
/// sends. If it runs out of memory, nothing was done, and the watcher is told that.
fn do_turn<W: Write, S: Store + Drop, V: Watch>(
    output: &mut Output<W>,
    core: &mut Core<S>,
    watcher: &mut V,
    line: NumberedTurn,
    buffers: &mut Buffers,
) -> Result<(), ReplayError>
    requires may { MayBeDone core.old.last core.old.events
        (turn_seen line.turn buffers.old.input.bytes) }
    requires room { HaveRoom core.old.setting.limits.datagram buffers.old }
    ensures does { DoesTurn core.old core.new (turn_seen line.turn buffers.old.input.bytes)
        (W.contents output.old.writer) (W.contents output.new.writer) line.number result }
    ensures cause { HasCause false output.new.failed result }
    ensures writer { FailsBy (is_write_fault result) output.old.failed output.new.failed }
    ensures told { TellsTurn V.sees core.old watcher.old core.new watcher.new
        (turn_seen line.turn buffers.old.input.bytes) result }
    ensures room { HaveRoom core.new.setting.limits.datagram buffers.new }
{
    let NumberedTurn { turn, number } = line;
    let seen = WatchedTurn::begun(turn.now, turn.draw, turn.from, buffers.input.bytes());
    watcher.foresee(seen, core);
    let Ok(did) = core.step_told(turn.now, turn.draw, seen.event, &mut buffers.output) else {
        watcher.see(seen, core);
        return Err(ReplayError::OutOfMemory { line: number });
    };
    line_for(&mut buffers.text, turn.now, did.send, &buffers.output);
    watcher.see(seen.done(did, buffers.output.bytes(), true), core);
    if output.write_all(&buffers.text).is_err() {
        return Err(ReplayError::Write);
    }
    Ok(())
}

/// Does the same as `replay`, but for at most `turns` events, and returns how many were done. Once
/// that many are done it ends, and reads nothing after the line of the last one: a bad line after
/// it goes unnoticed.
///
/// All buffers are allocated before the first line. So a line runs out of memory only where the
/// step of its event may (`Core::step`).
///
/// # Errors
/// `BadEvent` with the number of the first bad line; `OutOfMemory` with the number of the line
/// whose event ran out of memory, or 1 if memory ran out before the first line; `Read` or `Write`
/// if the reader or the writer failed, which its `has_failed` then says. The events of the lines
/// before were done, and what they sent was written; the event of the line itself wasn't done,
/// except for `Write`.
pub fn replay_turns<R: BufRead, W: Write, S: Store + Drop>(
    alloc: Global,
    input: &mut Input<R>,
    output: &mut Output<W>,
    core: &mut Core<S>,
    turns: u64,
) -> Result<u64, ReplayError>
    ensures replayed { IsReplayed core.old core.new turns (R.remaining input.old.reader)
        (R.remaining input.new.reader) (W.contents output.old.writer)
        (W.contents output.new.writer) result }
    ensures cause { HasCause input.new.failed output.new.failed result }
    ensures reader { FailsBy (is_read_fault result) input.old.failed input.new.failed }
    ensures writer { FailsBy (is_write_fault result) output.old.failed output.new.failed }
{
    let budget = Budget { alloc, turns };
    replay_watched(budget, input, output, core, &mut Unwatched)
}

/// Does the same as `replay_turns`, within this budget, and tells a watcher each turn: before its
/// step, and after it, before the line of what it sends is written.
///
/// # Errors
/// Those of `replay_turns`. The watcher was told the turns that were done, also the one whose line
/// couldn't be written, and the one that ran out of memory.
pub fn replay_watched<R: BufRead, W: Write, S: Store + Drop, V: Watch>(
    budget: Budget,
    input: &mut Input<R>,
    output: &mut Output<W>,
    core: &mut Core<S>,
    watcher: &mut V,
) -> Result<u64, ReplayError>
    ensures replayed { IsReplayed core.old core.new budget.turns (R.remaining input.old.reader)
        (R.remaining input.new.reader) (W.contents output.old.writer)
        (W.contents output.new.writer) result }
    ensures cause { HasCause input.new.failed output.new.failed result }
    ensures reader { FailsBy (is_read_fault result) input.old.failed input.new.failed }
    ensures writer { FailsBy (is_write_fault result) output.old.failed output.new.failed }
    ensures told { EndsTold V.sees core.old watcher.old core.new watcher.new result }
{
    let Budget { alloc, turns } = budget;
    if turns == 0 {
        return Ok(0);
    }
    let Ok(mut buffers) = Buffers::new(alloc, core.datagram()) else {
        return Err(ReplayError::OutOfMemory { line: 1 });
    };
    let mut count = 0;
    for read in 0..u64::MAX {
        let number = read + 1;
        match next_asked(input, &mut buffers, number, core.last(), core.events())? {
            Asked::End => return Ok(count),
            Asked::Skip => {}
            Asked::Do(turn) => {
                let line = NumberedTurn { turn, number };
                do_turn(output, core, watcher, line, &mut buffers)?;
                count += 1;
                if count == turns {
                    return Ok(count);
                }
            }
        }
    }
    // the line after 2^62 is a bad event
    unreachable!()
}
