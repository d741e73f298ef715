//! What a drive over a port holds, and one turn of it.
ghost use Rattle.std.specs.Prelude.{◌≡◌, ◌≤◌, ◌<◌, ◌+◌, ◌^◌, None, Some, false, IfOk, OnErr, is_some, option_map};
ghost use Rattle.coap_port.specs.Driven as spec;
ghost use Rattle.coap_port.specs.Stats.{AreWithin, no_stats, with_turn};

use crate::error::PortFault;
use crate::port::Port;
use crate::stats::Stats;
use coap_core::{Core, Watch, WatchedTurn};
use coap_endpoint::Endpoint;
use coap_message::{Datagram, Moment, OutOfMemory};
use coap_store::Store;
use std::alloc::Global;

/// The longest wait, in milliseconds.
const LONGEST_WAIT: u64 = 1000;

/// How many milliseconds a port is asked to wait after the moment `last`, if the next item is due
/// at the moment `due`.
fn wait_for(came: bool, last: Moment, due: Option<Moment>) -> u64
    ensures { result ≡ spec.wait_for came last due }
{
    match due {
        Some(due) => {
            if came && due <= last {
                0
            } else {
                due.saturating_sub(last).min(LONGEST_WAIT).max(1)
            }
        }
        None => LONGEST_WAIT,
    }
}

/// Hands over a datagram, if there is one. Returns whether it was taken.
fn hand_over<P: Port>(port: &mut P, to: Option<Endpoint>, bytes: &[u8]) -> bool
    ensures takes { spec.HandsOver P.takes port.old (option_map (λ e. (e, bytes.now)) to) result
        port.new }
    ensures clock { P.clock port.new ≡ P.clock port.old }
    ensures failures { P.failures port.new ≡ P.failures port.old }
{
    match to {
        Some(to) => port.send(to, bytes),
        None => true,
    }
}

/// Counts a turn: whether it was lost, whether a datagram was handed over, and whether that was
/// taken.
fn count(stats: &mut Stats, lost: bool, sent: bool, went: bool)
    requires within { AreWithin stats.old }
    requires few { stats.old.turns < 2 ^ 63 }
    ensures exact { stats.new ≡ with_turn lost sent went stats.old }
    ensures within { AreWithin stats.new }
{
    stats.turns += 1;
    if sent && went {
        stats.sent += 1;
    }
    if sent && !went {
        stats.send_faults += 1;
    }
    if lost {
        stats.lost += 1;
    }
}

/// What a drive holds between its turns: the buffers for what comes and for what is sent, the
/// counts of the turns that were done, and whether a datagram came in the last one.
#[derive(Drop)]
pub(crate) struct Drive {
    input: Datagram,
    output: Datagram,
    pub(crate) stats: Stats,
    came: bool,
}

impl Drive {
    /// A drive that has done nothing yet, of a core that sends at most `longest` bytes. There is
    /// room for one byte more than that in the input buffer.
    ///
    /// # Errors
    /// Out of memory.
    pub(crate) fn new(alloc: Global, longest: usize) -> Result<Drive, OutOfMemory>
        ensures input { IfOk result (λ drive. drive.input.room ≡ longest + 1) }
        ensures output { IfOk result (λ drive. drive.output.room ≡ longest) }
        ensures stats { IfOk result (λ drive. drive.stats ≡ no_stats) }
        ensures came { IfOk result (λ drive. drive.came ≡ false) }
    {
        let room = longest.checked_add(1).ok_or(OutOfMemory)?;
        Ok(Drive {
            input: Datagram::new(alloc, room)?,
            output: Datagram::new(alloc, longest)?,
            stats: Stats::default(),
            came: false,
        })
    }

    /// Does one turn: the core handles what the port gives, and what it sends is handed over; the
    /// watcher is told before and after.
    ///
    /// # Errors
    /// The port failed. The core, the watcher and the counts don't change then.
    pub(crate) fn do_turn<P: Port, S: Store + Drop, W: Watch>(
        &mut self,
        core: &mut Core<S>,
        port: &mut P,
        watcher: &mut W,
    ) -> Result<(), PortFault>
        requires failures { P.failures port.old < 2 ^ 63 }
        requires onward { core.old.last ≤ P.clock port.old }
        requires events { core.old.events < 2 ^ 63 }
        requires room { core.old.setting.limits.datagram ≤ self.old.output.room }
        requires within { AreWithin self.old.stats }
        requires few { self.old.stats.turns < 2 ^ 63 }
        ensures done { IfOk result (λ _. spec.DidWatched (P.gives self.old.input.room) P.takes
            W.sees P.clock P.failures self.old.came core.old port.old watcher.old self.old.stats
            core.new port.new watcher.new self.new.stats self.new.came) }
        ensures within { AreWithin self.new.stats }
        ensures input { self.new.input.room ≡ self.old.input.room }
        ensures room { self.new.output.room ≡ self.old.output.room }
        ensures setting { core.new.setting ≡ core.old.setting }
        ensures nothing { OnErr result (core.new ≡ core.old) }
        ensures untold { OnErr result (watcher.new ≡ watcher.old) }
        ensures uncounted { OnErr result (self.new.stats ≡ self.old.stats) }
        ensures fails { OnErr result (P.failures port.new ≡ P.failures port.old + 1) }
    {
        let wait = wait_for(self.came, port.last(), core.next_due());
        let turn = port.next(wait, &mut self.input)?;
        let seen = WatchedTurn::begun(turn.now, turn.draw, turn.from, self.input.bytes());
        watcher.foresee(seen, core);
        match core.step_told(turn.now, turn.draw, seen.event, &mut self.output) {
            Ok(did) => {
                let sent = self.output.bytes();
                let went = hand_over(port, did.send, sent);
                count(&mut self.stats, false, did.send.is_some(), went);
                watcher.see(seen.done(did, sent, went), core);
            }
            Err(OutOfMemory) => {
                count(&mut self.stats, true, false, false);
                watcher.see(seen, core);
            }
        }
        self.came = turn.from.is_some();
        Ok(())
    }
}
