//! Laws of recordings: public functions that do nothing, whose contracts are the laws.
ghost use Rattle.std.specs.Prelude.{◌≡◌, ◌≤◌, ◌+◌, ◌^◌, ℕ, List, Some, false, length, IfSome};
ghost use Rattle.coap_model.specs.State.{State};
ghost use Rattle.coap_port.specs.Driven.{IsDriven};
ghost use Rattle.coap_port.specs.declared.stats.Stats.{Stats};
ghost use Rattle.coap_recording.specs.Recorder.{Gives, Recorder, Takes, recorded};
ghost use Rattle.coap_recording.specs.Replayable.{AreDone, AreSkipped, IsReplayable};

use coap_port::Port;
use std::io::Write;

/// A recorded run can be replayed, whatever the port gave.
///
/// A proxy was driven over a port whose turns were recorded, after lines that a replay skips. No
/// turn was lost for want of memory, and the recording didn't end before. What was recorded is then
/// replayed to the same tables and the same datagrams, by a proxy that starts as this one did. The
/// numbers of lines and of events are within what a replay reads: 2^62 and 2^63.
pub fn recorded_runs_are_replayable<P: Port, W: Write>()
    ensures { (room first : ℕ) (w v : State) (p q : Recorder P W) (s : Stats)
        (head : List (List ℕ)) (text : List ℕ)
        → (run : IsDriven (Gives P.gives P.clock W.contents room) (Takes P.takes P.clock) first w p
        v q s) → AreDone run.givens → q.ended ≡ false → w.last ≤ P.clock p.port
        → length head + length run.givens ≤ 2 ^ 62 → w.events + length run.givens ≤ 2 ^ 63
        → AreSkipped head text → recorded W.contents p ≡ Some text
        → IfSome (recorded W.contents q) (IsReplayable w run.givens) }
{}
