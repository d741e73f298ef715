//! What the program does for its plan: over an input, or over a port.
ghost use Rattle.std.specs.Prelude.{◌≡◌, ◌<◌, ◌+◌, ◌^◌, IfOk};
ghost use Rattle.coap_model.specs.State.{new_state};
ghost use Rattle.coap_proxyd.specs.Planning.{setting_of};
ghost use Rattle.coap_proxyd.specs.Serving as spec;

use crate::fault::Fault;
use crate::planning::Plan;
use coap_core::{Core, Counts};
use coap_message::OutOfMemory;
use coap_port::{DriveError, Port, Stats, Unwatched, Watch, drive, drive_watched};
use coap_recording::Start;
use coap_replay::{Budget, Input, Output, ReplayError, replay_watched};
use coap_store::Store;
use std::alloc::Global;
use std::io::{BufReader, Read, Write};

/// The greatest number of turns that are done: 2^63 - 1.
const MOST_TURNS: u64 = i64::MAX as u64;

/// The number of turns in a plan, at most the greatest, which is also the default.
fn turns_of(plan: &Plan) -> u64
    ensures { result ≡ spec.turns_of plan.now }
{
    plan.turns.unwrap_or(MOST_TURNS).min(MOST_TURNS)
}

/// What the program serves with. It serves once: each way to serve takes the server.
pub struct Server<S: Store> {
    /// Where the memory of the core and of its buffers comes from.
    alloc: Global,
    /// What the store is made from.
    seed: S::Seed,
    /// What is asked for.
    plan: Plan,
}

impl<S: Store + Drop> Server<S> {
    /// A server that carries out this plan, with a store that is made from this seed.
    pub fn new(alloc: Global, seed: S::Seed, plan: Plan) -> Server<S>
        ensures { result.plan ≡ plan }
    {
        Server { alloc, seed, plan }
    }

    /// Its core, which starts like this where the plan doesn't say how.
    fn core(self, start: Start) -> Result<Core<S>, OutOfMemory>
        ensures { IfOk result (λ core.
            core ≡ new_state (setting_of self.plan start.first_id start.salt)) }
    {
        let Server { alloc, seed, plan } = self;
        let first_id = plan.first_id.unwrap_or(start.first_id);
        let salt = plan.salt.unwrap_or(start.salt);
        Core::new(alloc, seed, plan.limits, plan.routes, first_id, salt)
    }

    /// Replays the events of an input with a new core, for the number of turns in the plan, or else
    /// for the greatest number, and writes the datagrams that are sent. Message IDs begin with 1
    /// and the salt is 0, unless the plan has others.
    ///
    /// # Errors
    /// `OutOfMemory` if there was no memory for the core or for the buffer of the input, and
    /// nothing was written; otherwise the fault of the replay.
    pub fn serve_events<R: Read + Drop, W: Write>(
        self,
        input: R,
        output: &mut Output<W>,
    ) -> Result<(), Fault>
        ensures { spec.IsServed (spec.turns_of self.plan) (new_state (setting_of self.plan 1 0))
            (R.remaining input) (W.contents output.old.writer) (W.contents output.new.writer)
            result }
    {
        self.serve_events_watched(input, output, &mut Unwatched)
    }

    /// Does the same as `serve_events`, and tells a watcher each turn before its line is written
    /// (`replay_watched`).
    ///
    /// # Errors
    /// Those of `serve_events`. The watcher was told the turns that were done.
    pub fn serve_events_watched<R: Read + Drop, W: Write, V: Watch>(
        self,
        input: R,
        output: &mut Output<W>,
        watcher: &mut V,
    ) -> Result<(), Fault>
        ensures served { spec.IsServed (spec.turns_of self.plan)
            (new_state (setting_of self.plan 1 0))
            (R.remaining input) (W.contents output.old.writer) (W.contents output.new.writer)
            result }
        ensures told { spec.IsTold V.sees (new_state (setting_of self.plan 1 0)) watcher.old
            watcher.new }
    {
        let (alloc, turns) = (self.alloc, turns_of(&self.plan));
        let start = Start {
            first_id: 1,
            salt: 0,
        };
        let Ok(mut core) = self.core(start) else {
            return Err(Fault::OutOfMemory);
        };
        serve_on(Budget { alloc, turns }, input, output, &mut core, watcher)
    }

    /// Drives a new core over a port for the number of turns in the plan, or else for the greatest
    /// number. The core starts like `start` where the plan doesn't say how.
    ///
    /// # Errors
    /// `Socket` if the port failed; `OutOfMemory` if there was no memory for the core, or for the
    /// buffers of the loop, in which case nothing was done.
    pub fn serve_port<P: Port>(self, start: Start, port: &mut P) -> Result<(), Fault>
        requires failures { P.failures port.old < 2 ^ 63 }
        ensures { spec.IsServedOver (P.gives (self.plan.limits.datagram + 1)) P.takes P.clock
            P.failures (spec.turns_of self.plan)
            (new_state (setting_of self.plan start.first_id start.salt)) port.old port.new result }
    {
        let (alloc, turns) = (self.alloc, turns_of(&self.plan));
        let Ok(mut core) = self.core(start) else {
            return Err(Fault::OutOfMemory);
        };
        driven(drive(alloc, &mut core, port, turns))
    }

    /// Does the same as `serve_port`, and tells a watcher each turn (`drive_watched`). Returns how
    /// much the proxy holds at the end.
    ///
    /// # Errors
    /// Those of `serve_port`. The watcher was told of the turns that were done.
    pub fn serve_watched<P: Port, W: Watch>(
        self,
        start: Start,
        port: &mut P,
        watcher: &mut W,
    ) -> Result<Counts, Fault>
        requires failures { P.failures port.old < 2 ^ 63 }
        ensures { spec.IsWatchedOver (P.gives (self.plan.limits.datagram + 1)) P.takes W.sees
            P.clock P.failures (spec.turns_of self.plan)
            (new_state (setting_of self.plan start.first_id start.salt))
            port.old watcher.old port.new watcher.new result }
    {
        let (alloc, turns) = (self.alloc, turns_of(&self.plan));
        let Ok(mut core) = self.core(start) else {
            return Err(Fault::OutOfMemory);
        };
        let driven = drive_watched(alloc, &mut core, port, watcher, turns);
        counted(driven, &core)
    }
}

/// Replays the events of an input with this core, within this budget, writes the datagrams that are
/// sent, and tells a watcher.
fn serve_on<R: Read + Drop, W: Write, S: Store + Drop, V: Watch>(
    budget: Budget,
    input: R,
    output: &mut Output<W>,
    core: &mut Core<S>,
    watcher: &mut V,
) -> Result<(), Fault>
    ensures served { spec.IsServed budget.turns core.old (R.remaining input)
        (W.contents output.old.writer) (W.contents output.new.writer) result }
    ensures told { spec.IsTold V.sees core.old watcher.old watcher.new }
{
    let Ok(reader) = BufReader::new(budget.alloc, input) else {
        return Err(Fault::OutOfMemory);
    };
    let mut input = Input::new(reader);
    ended(replay_watched(budget, &mut input, output, core, watcher))
}

/// How the program ends after a replay.
fn ended(replayed: Result<u64, ReplayError>) -> Result<(), Fault>
    ensures { result ≡ spec.ended_as replayed }
{
    replayed?;
    Ok(())
}

/// How much a core holds at the end of a loop over a port, unless that failed.
fn counted<S: Store + Drop>(
    driven: Result<Stats, DriveError>,
    core: &Core<S>,
) -> Result<Counts, Fault>
    ensures { result ≡ spec.counted_as core.now driven }
{
    driven?;
    Ok(core.counts())
}

/// How the program ends after a loop over a port.
fn driven(driven: Result<Stats, DriveError>) -> Result<(), Fault>
    ensures { result ≡ spec.driven_as driven }
{
    driven?;
    Ok(())
}
