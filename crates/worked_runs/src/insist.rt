//! Runs in which memory is refused: an event that there was no memory for is given again.

use crate::expected::expected_of;
use crate::run::planned;
use coap_cache::Store;
use coap_core::{Core, Counts, Datagram, OutOfMemory, Outcome, Report, Storing};
use coap_lines::{LONGEST, Turn, is_skipped, line_buffer, put_line, read_turn};
use coap_proxyd::{Plan, WatchedTurn};
use std::alloc::Global;
use std::io;
use std::io::ErrorKind;

/// How a run ends in which memory may be refused.
#[derive(Clone, Copy)]
pub(crate) enum Ending {
    /// It agrees with its file. If there was no memory for an event, the number of its line.
    Agrees { again: Option<usize> },
    /// It agrees with its file up to this line, whose answer there was no memory to store.
    NotStored { line: usize },
    /// It doesn't agree with its file at this line.
    Differs { line: usize, why: &'static str },
}

/// How an event went.
#[derive(Clone, Copy)]
enum Played {
    Once,
    /// There was no memory for it at first.
    Again,
    /// There was no memory to store its answer.
    NotStored,
}

/// What a core reports about itself.
#[derive(Clone, Copy, PartialEq, Eq)]
struct Standing {
    next_due: Option<u64>,
    last: u64,
    events: u64,
    counts: Counts,
}

/// A core that plays a run, with all the memory that playing takes beside its own.
struct Player<S: Store> {
    core: Core<S>,
    input: Datagram,
    output: Datagram,
    line: Vec<u8>,
}

impl<S: Store + Drop> Drop for Player<S> {
    fn drop(self) {
        let Player {
            core: _,
            input: _,
            output: _,
            line: _,
        } = self;
    }
}

impl<S: Store + Drop> Player<S> {
    /// A player of this plan, over a store that is made from this seed.
    fn new(alloc: Global, seed: S::Seed, plan: Plan) -> Result<Player<S>, OutOfMemory> {
        let (first_id, salt) = (plan.first_id.unwrap_or(1), plan.salt.unwrap_or(0));
        let core = Core::new(alloc, seed, plan.limits, plan.routes, first_id, salt)?;
        let longest = core.datagram();
        Ok(Player {
            core,
            input: Datagram::new(alloc, LONGEST / 2)?,
            output: Datagram::new(alloc, longest)?,
            line: line_buffer(alloc, longest)?,
        })
    }

    /// What the core reports about itself.
    fn standing(&self) -> Standing {
        Standing {
            next_due: self.core.next_due(),
            last: self.core.last(),
            events: self.core.events(),
            counts: self.core.counts(),
        }
    }

    /// The turn in a line, whose datagram is put into the input buffer.
    fn read(&mut self, line: &[u8]) -> Result<Turn, &'static str> {
        if line.len() > LONGEST || self.input.room() < LONGEST / 2 {
            return Err("the line is too long");
        }
        read_turn(line, self.core.last(), &mut self.input).ok_or("it isn't an event")
    }

    /// Has the core handle the event of a turn.
    fn step(&mut self, turn: Turn) -> Result<Result<Report, OutOfMemory>, &'static str> {
        if !self.core.can_step(turn.now, turn.draw, &self.output) {
            return Err("its moment or its draw is out of range, or there are too many events");
        }
        let seen = WatchedTurn::begun(turn.now, turn.draw, turn.from, self.input.bytes());
        Ok(
            self.core
                .step(turn.now, turn.draw, seen.event, &mut self.output),
        )
    }

    /// Whether a step with this report takes no memory, as `Core::step` promises.
    fn takes_none(&self, report: Report) -> bool {
        match report.outcome {
            Outcome::Ignored
            | Outcome::Rejected
            | Outcome::Again
            | Outcome::NoRecordRoom
            | Outcome::Acked
            | Outcome::SentRequest
            | Outcome::Resent
            | Outcome::GaveUp
            | Outcome::Idle => true,
            // to a client in a Non-confirmable message
            Outcome::Delivered => matches!(self.output.bytes(), [head, ..] if *head & 0x30 == 0x10),
            Outcome::Refused(_)
            | Outcome::Hit
            | Outcome::Joined
            | Outcome::Opened
            | Outcome::Overloaded
            | Outcome::NoId
            | Outcome::Answered { .. } => false,
        }
    }

    /// Has the core handle the event of a turn, and once more if there was no memory for it, which
    /// must have changed nothing. Returns its report, and whether that was so.
    fn insist(&mut self, turn: Turn) -> Result<(Report, bool), &'static str> {
        let before = self.standing();
        if let Ok(report) = self.step(turn)? {
            return Ok((report, false));
        }
        if self.standing() != before || !self.output.bytes().is_empty() {
            return Err("it changed something, though there was no memory for it");
        }
        let Ok(report) = self.step(turn)? else {
            return Err("there is no memory for it a second time");
        };
        if self.takes_none(report) {
            return Err("there was no memory for it, and it takes none");
        }
        Ok((report, true))
    }

    /// Takes the line of what is sent off the front of what must be written. Returns whether it
    /// stands there.
    fn check(&mut self, now: u64, report: Report, wanted: &mut &[u8]) -> bool {
        let Some(to) = report.send else {
            return true;
        };
        let bytes = self.output.bytes();
        self.line.clear();
        if bytes.len() > self.line.capacity()
            || self.line.capacity() - bytes.len() < 71 + bytes.len()
        {
            return false;
        }
        put_line(&mut self.line, now, to, bytes);
        match wanted.strip_prefix(self.line.as_slice()) {
            Some(rest) => {
                *wanted = rest;
                true
            }
            None => false,
        }
    }

    /// Plays the event of a line, which must write what stands at the front of `wanted`.
    fn play(&mut self, line: &[u8], wanted: &mut &[u8]) -> Result<Played, &'static str> {
        let turn = self.read(line)?;
        let before = self.core.counts();
        let (report, again) = self.insist(turn)?;
        if !self.check(turn.now, report, wanted) {
            return Err("something else is sent");
        }
        let storing = Storing::NoMemory;
        if report.outcome == (Outcome::Answered { storing }) {
            let after = self.core.counts();
            if (before.entries, before.cached_bytes) != (after.entries, after.cached_bytes) {
                return Err("the cache changed, though there was no memory for it");
            }
            return Ok(Played::NotStored);
        }
        Ok(if again { Played::Again } else { Played::Once })
    }
}

/// Plays a run over a store that is made from this seed.
///
/// # Errors
/// `OutOfMemory` if memory was refused before the first event. `InvalidData` if the file isn't a
/// run.
pub(crate) fn insist<S: Store + Drop>(
    alloc: Global,
    seed: S::Seed,
    events: &[u8],
) -> io::Result<Ending>
where
    S::Seed: Drop,
{
    let expected = expected_of(alloc, events)?;
    let Ok(plan) = planned(alloc, events)? else {
        return Err(io::Error::from(ErrorKind::OutOfMemory));
    };
    let Ok(mut player) = Player::<S>::new(alloc, seed, plan) else {
        return Err(io::Error::from(ErrorKind::OutOfMemory));
    };
    Ok(play_lines(&mut player, events, &expected))
}

/// Plays the events of a run, which must write what is expected.
fn play_lines<S: Store + Drop>(player: &mut Player<S>, events: &[u8], expected: &[u8]) -> Ending {
    let mut wanted = expected;
    let mut again = None;
    let mut line: usize = 0;
    for text in events.split(|byte| *byte == b'\n') {
        line = line.saturating_add(1);
        if is_skipped(text) {
            continue;
        }
        match player.play(text, &mut wanted) {
            Ok(Played::Once) => {}
            Ok(Played::Again) => again = Some(line),
            Ok(Played::NotStored) => return Ending::NotStored { line },
            Err(why) => return Ending::Differs { line, why },
        }
    }
    if wanted.is_empty() {
        Ending::Agrees { again }
    } else {
        let why = "less is written than expected";
        Ending::Differs { line, why }
    }
}
