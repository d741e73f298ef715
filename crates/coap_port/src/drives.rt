//! The loop that drives a core over a port.
ghost use Rattle.std.specs.Prelude.{◌≤◌, ◌<◌, ◌+◌, ◌^◌, IfOk};
ghost use Rattle.coap_port.specs.Driven.{Ends, EndsWatched};

use crate::error::{DriveError, PortFault};
use crate::port::Port;
use crate::stats::Stats;
use crate::turns::Drive;
use coap_core::{Core, Unwatched, Watch};
use coap_store::Store;
use std::alloc::Global;

/// Drives a core over a port for `turns` turns: the core handles each turn that the port gives, and
/// what it sends is handed to the port once. The port is asked to wait until the next item is due,
/// for at most a second. The input buffer has room for one byte more than the longest datagram, so
/// that a longer one is noticed.
///
/// A turn that runs out of memory is counted as lost, and a datagram that the port doesn't take as
/// a fault; neither ends the loop. What a lost tick should have done is still due, so a later tick
/// does it. The port's last moment must not be before that of the core.
///
/// # Errors
/// `Port` if the port failed, with the counts of the turns before; `OutOfMemory` if there was no
/// memory for the two buffers, in which case nothing was done.
///
/// # How many turns
/// Every call ends, since every function is proved to return. So a program gets control back after
/// `turns` turns, and may call again for more. A server that is to run for ever takes `1 << 63`,
/// the most that a new core can handle: at a million turns a second they take 292,000 years.
pub fn drive<P: Port, S: Store + Drop>(
    alloc: Global,
    core: &mut Core<S>,
    port: &mut P,
    turns: u64,
) -> Result<Stats, DriveError>
    requires events { core.old.events + turns ≤ 2 ^ 63 }
    requires onward { core.old.last ≤ P.clock port.old }
    requires failures { P.failures port.old < 2 ^ 63 }
    ensures ends { Ends (P.gives (core.old.setting.limits.datagram + 1)) P.takes P.clock P.failures
        turns core.old port.old core.new port.new result }
    ensures events { core.new.events ≤ core.old.events + turns }
    ensures onward { IfOk result (λ _. core.new.last ≤ P.clock port.new) }
{
    drive_watched(alloc, core, port, &mut Unwatched, turns)
}

/// Does the same as `drive`, and tells a watcher each turn twice: before its step, what the port
/// gave; after it also what the step did, what was sent and whether it was taken, or that the turn
/// was lost.
///
/// # Errors
/// Those of `drive`. The watcher was told the turns that are counted.
pub fn drive_watched<P: Port, S: Store + Drop, W: Watch>(
    alloc: Global,
    core: &mut Core<S>,
    port: &mut P,
    watcher: &mut W,
    turns: u64,
) -> Result<Stats, DriveError>
    requires events { core.old.events + turns ≤ 2 ^ 63 }
    requires onward { core.old.last ≤ P.clock port.old }
    requires failures { P.failures port.old < 2 ^ 63 }
    ensures ends { EndsWatched (P.gives (core.old.setting.limits.datagram + 1)) P.takes W.sees
        P.clock P.failures turns core.old port.old watcher.old core.new port.new watcher.new
        result }
    ensures events { core.new.events ≤ core.old.events + turns }
    ensures onward { IfOk result (λ _. core.new.last ≤ P.clock port.new) }
{
    let Ok(mut drive) = Drive::new(alloc, core.datagram()) else {
        return Err(DriveError::OutOfMemory);
    };
    for done in 0..turns {
        match drive.do_turn(core, port, watcher) {
            Ok(()) => {}
            Err(PortFault) => return Err(DriveError::Port { stats: drive.stats }),
        }
    }
    Ok(drive.stats)
}
