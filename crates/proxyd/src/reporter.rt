//! What the program writes of its counts while it serves a socket.
ghost use Rattle.std.specs.Prelude.{◌≡◌, ◌<◌, ◌≤◌, IfOk, IfSome};
ghost use Rattle.coap_stats.specs.Clock.{period_of};

use crate::logging::Listening;
use coap_core::{Core, Counts, LimitValues};
use coap_message::{LAST_MOMENT, Moment, OutOfMemory};
use coap_proxyd::{Fault, Journal, Plan, Watch, WatchedTurn};
use coap_stats::{
    StandingClock, Statistics, metrics_room, period_end, period_of, put_line, put_metrics,
    put_receive_buffer,
};
use coap_store::Store;
use std::io::Write;
use std::{fs, io};

/// What is said once of a file of counts that can't be written, and of a clock that stands still.
const UNWRITTEN: &[u8] = b"coap-proxyd: the counts can't be written to their file\n";

const STANDING: &[u8] = b"coap-proxyd: the clock stands still\n";

/// A file that is written beside its name, and then takes it, so that it is never read in part.
#[derive(Drop)]
struct StatsFile {
    path: String,
    beside: String,
    listening: Listening,
}

/// Writes counts once in a period: a line to standard error, and a file. What can't be written
/// doesn't stop the program; it is said once. A line that would keep the program waiting, because
/// nobody reads, is left out.
#[derive(Drop)]
pub(crate) struct Reporter<'a> {
    rt: &'a HostRuntime,
    journal: Journal<'a>,
    limits: LimitValues,
    statistics: Statistics,
    clock: StandingClock,
    /// The length of a period, in milliseconds.
    period: u64,
    /// The moment from which on the next report is due.
    due: Moment,
    /// Whether lines are asked for.
    lines: bool,
    file: Option<StatsFile>,
    /// Whether it was said that the file can't be written.
    said: bool,
    text: Vec<u8>,
    ghost some: { 0 < period },
    ghost short: { period ≤ 86400000 },
}

/// The file of a plan, if there is one, of a proxy that listens so.
fn stats_file(
    rt: &HostRuntime,
    plan: &Plan,
    listening: Listening,
) -> Result<Option<StatsFile>, OutOfMemory> {
    let Some(path) = &plan.stats_file else {
        return Ok(None);
    };
    Ok(Some(StatsFile {
        path: String::from_str(rt.alloc(), path.as_str())?,
        beside: format!(in rt.alloc(); "{path}.tmp")?,
        listening,
    }))
}

/// Counts that are all zero, and room for their text.
fn counters(rt: &HostRuntime, plan: &Plan) -> Result<(Statistics, Vec<u8>), OutOfMemory> {
    let statistics = Statistics::new(rt.alloc(), &plan.routes, plan.limits.values())?;
    let text = Vec::with_capacity(rt.alloc(), metrics_room(&statistics))?;
    Ok((statistics, text))
}

/// Adds what the file says: the counts, and the receive buffer, if the system says how large it is.
fn put_file(
    text: &mut Vec<u8>,
    listening: &Listening,
    statistics: &Statistics,
    counts: &Counts,
    limits: &LimitValues,
) -> Result<(), OutOfMemory> {
    let listen = listening.place.as_str();
    put_metrics(text, listen, statistics, counts, limits)?;
    match listening.receive_buffer {
        Some(bytes) => put_receive_buffer(text, listen, bytes),
        None => Ok(()),
    }
}

impl<'a> Reporter<'a> {
    /// The reporter of a plan, if it asks for counts, of a proxy that listens so.
    pub(crate) fn of(
        rt: &'a HostRuntime,
        plan: &Plan,
        listening: Listening,
    ) -> Result<Option<Reporter<'a>>, Fault>
        ensures period { IfOk result (λ asked.
            IfSome asked (λ reporter. reporter.period ≡ period_of plan.now.stats)) }
        ensures due { IfOk result (λ asked.
            IfSome asked (λ reporter. reporter.due ≡ reporter.period)) }
    {
        if plan.stats.is_none() && plan.stats_file.is_none() {
            return Ok(None);
        }
        let Ok(file) = stats_file(rt, plan, listening) else {
            return Err(Fault::OutOfMemory);
        };
        let Ok((statistics, text)) = counters(rt, plan) else {
            return Err(Fault::OutOfMemory);
        };
        let Ok(journal) = Journal::new(rt) else {
            return Err(Fault::Socket);
        };
        let period = period_of(plan.stats);
        Ok(Some(Reporter {
            rt,
            journal,
            limits: *plan.limits.values(),
            statistics,
            clock: StandingClock::new(),
            period,
            due: period,
            lines: plan.stats.is_some(),
            file,
            said: false,
            text,
        }))
    }

    /// Writes the line of counts.
    fn write_line(&mut self, counts: &Counts) -> io::Result<()>
        ensures { self.new.statistics ≡ self.old.statistics }
    {
        self.text.clear();
        if put_line(&mut self.text, &self.statistics, counts, &self.limits).is_err() {
            return Err(io::Error::from(io::ErrorKind::OutOfMemory));
        }
        self.journal.write_all(&self.text)
    }

    /// Writes the file of counts, if there is one.
    fn write_file(&mut self, counts: &Counts) -> io::Result<()>
        ensures { self.new.statistics ≡ self.old.statistics }
    {
        let Some(file) = &self.file else {
            return Ok(());
        };
        self.text.clear();
        let (text, statistics, limits) = (&mut self.text, &self.statistics, &self.limits);
        if put_file(text, &file.listening, statistics, counts, limits).is_err() {
            return Err(io::Error::from(io::ErrorKind::OutOfMemory));
        }
        fs::write(self.rt, file.beside.as_str(), self.text.as_slice())?;
        fs::rename(self.rt, file.beside.as_str(), file.path.as_str())
    }

    /// Writes the counts, with how much the proxy holds.
    pub(crate) fn report(&mut self, counts: &Counts)
        ensures { self.new.statistics ≡ self.old.statistics }
    {
        if self.lines {
            // Where standard error can't be written, nothing can be said either.
            let _ = self.write_line(counts);
        }
        if self.write_file(counts).is_err() && !self.said {
            self.said = true;
            let _ = self.journal.write_all(UNWRITTEN);
        }
    }

    /// Says once that the clock stands still.
    fn note_clock(&mut self, now: Moment)
        ensures { self.new.statistics ≡ self.old.statistics }
    {
        if self.clock.stops(now) {
            let _ = self.journal.write_all(STANDING);
        }
    }
}

impl Watch for Reporter<'_> {
    ghost use Rattle.coap_stats.specs.Statistics.{Sees};

    ghost sees = { λ before told after. Sees before.statistics told after.statistics };

    #[inline(always)]
    fn foresee<S: Store + Drop>(&mut self, _turn: WatchedTurn<'_>, _core: &Core<S>) {}

    #[inline(always)]
    fn see<S: Store + Drop>(&mut self, turn: WatchedTurn<'_>, core: &Core<S>) {
        self.statistics.see(turn, core);
        self.note_clock(turn.now);
        if turn.now >= self.due {
            self.due = period_end(turn.now.min(LAST_MOMENT), self.period);
            self.report(&core.counts());
        }
    }
}
