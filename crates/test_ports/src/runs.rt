//! What is said of a run over a port, and of a recording of one: laws that fail without a clause of
//! the definitions of `coap_port` and `coap_recording`.
ghost use Rattle.std.specs.Prelude.{◌≡◌, ◌≤◌, ◌+◌, [], ℕ, List, None, Ok, Option, Some, count_by, length};
ghost use Rattle.std.specs.Io.KnownBytes.{Appends};
ghost use Rattle.coap_model.specs.Carries.{Carries};
ghost use Rattle.coap_model.specs.History.{Observation};
ghost use Rattle.coap_model.specs.Runs.{run_of, turns_of};
ghost use Rattle.coap_model.specs.State.{State};
ghost use Rattle.coap_model.specs.Word.{KeepsItsWord};
ghost use Rattle.coap_port.specs.Driven.{AreAsked, AreLostForMemory, Given, IsDriven, run_at, run_by, state_by};
ghost use Rattle.coap_port.specs.declared.stats.Stats.{Stats};
ghost use Rattle.coap_recording.specs.Replayable.{IsReplayable, in_order, lines_handed, memory_of};
ghost use Rattle.coap_replay.specs.Replays.{IsReplayed, script_for};
ghost use Rattle.test_ports.specs.Computed.{was_lost};

use coap_port::Port;

/// The counts of a run are numbers of its turns: of all that the port gave, and of those that were
/// lost. A turn counts at most once as lost, for a datagram that was taken, or for one that wasn't.
pub fn runs_are_counted<P: Port>()
    ensures turns { (room first : ℕ) (w v : State) (p q : P) (s : Stats)
        (run : IsDriven (P.gives room) P.takes first w p v q s)
        → s.turns ≡ length run.givens }
    ensures lost { (room first : ℕ) (w v : State) (p q : P) (s : Stats)
        (run : IsDriven (P.gives room) P.takes first w p v q s)
        → s.lost ≡ count_by was_lost run.givens }
    ensures once { (room first : ℕ) (w v : State) (p q : P) (s : Stats)
        → IsDriven (P.gives room) P.takes first w p v q s
        → s.lost + s.sent + s.send_faults ≤ s.turns }
{}

/// A run leads to the tables that its turns lead to, which carry their history, and the promise in
/// short is kept. Its port was asked for each turn with the wait that is due, and only a turn that
/// may allocate was lost.
pub fn runs_are_promised<P: Port>()
    ensures tables { (room first : ℕ) (w v : State) (p q : P) (s : Stats)
        (run : IsDriven (P.gives room) P.takes first w p v q s)
        → v ≡ state_by w run.givens }
    ensures carries { (room first : ℕ) (w v : State) (p q : P) (s : Stats)
        (history : List Observation)
        (run : IsDriven (P.gives room) P.takes first w p v q s)
        → Carries history w
        → Carries (run_by (run_at w history) run.givens).history v }
    ensures word { (room first : ℕ) (w v : State) (p q : P) (s : Stats) (history : List Observation)
        (run : IsDriven (P.gives room) P.takes first w p v q s)
        → Carries history w
        → KeepsItsWord (run_by (run_at w history) run.givens).history v }
    ensures waits { (room first : ℕ) (w v : State) (p q : P) (s : Stats)
        (run : IsDriven (P.gives room) P.takes first w p v q s)
        → AreAsked w first run.givens }
    ensures lost { (room first : ℕ) (w v : State) (p q : P) (s : Stats)
        (run : IsDriven (P.gives room) P.takes first w p v q s)
        → AreLostForMemory w run.givens }
{}

/// A recording asks for the turns of its run, which lead to the same again. So a replay of it that
/// ends well and finds as much memory ends with the tables of the run, and has written the lines of
/// what the run sent.
pub fn recordings_are_replayed()
    ensures asks { (w : State) (givens : List Given) (input : List ℕ)
        → IsReplayable w givens input
        → script_for w input ≡ record { turns = turns_of (in_order givens); bad = None } }
    ensures same { (w : State) (givens : List Given) (input : List ℕ)
        → IsReplayable w givens input
        → run_of (run_at w []) (in_order givens) ≡ run_by (run_at w []) givens }
    ensures tables { (w v : State) (givens : List Given) (input : List ℕ) (most count : ℕ)
        (left old new : Option (List ℕ))
        (replay : IsReplayed w v most (Some input) left old new (Ok count))
        → IsReplayable w givens input
        → length givens ≤ most
        → memory_of replay.turns ≡ memory_of (in_order givens)
        → v ≡ state_by w givens }
    ensures lines { (w v : State) (givens : List Given) (input : List ℕ) (most count : ℕ)
        (left old new : Option (List ℕ))
        (replay : IsReplayed w v most (Some input) left old new (Ok count))
        → IsReplayable w givens input
        → length givens ≤ most
        → memory_of replay.turns ≡ memory_of (in_order givens)
        → Appends old new (lines_handed w givens) }
{}
