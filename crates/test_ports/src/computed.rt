//! How long a port is asked to wait, and what is counted of its turns, computed on the definitions
//! of `coap_port`.
ghost use Rattle.std.specs.Prelude.{◌≡◌, ◌∷◌, [], None, Some, false, true};
ghost use Rattle.coap_model.specs.Setting.{Setting};
ghost use Rattle.coap_model.specs.State.{State, new_state};
ghost use Rattle.coap_port.specs.Driven.{stats_of, wait_for};
ghost use Rattle.coap_port.specs.Stats.{no_stats, with_turn};
ghost use Rattle.test_ports.specs.Computed.{counts, tick_given};

/// The wait after a datagram (`true`) or after none: at most a second, and at least a millisecond,
/// except that there is none if a datagram came and something is already due.
pub fn waits()
    ensures nothing_due { wait_for false 5 None ≡ 1000 }
    ensures nothing_due_after_a_datagram { wait_for true 5 None ≡ 1000 }
    ensures due_now { wait_for false 10 (Some 10) ≡ 1 }
    ensures due_before { wait_for false 10 (Some 7) ≡ 1 }
    ensures due_now_after_a_datagram { wait_for true 10 (Some 10) ≡ 0 }
    ensures due_before_after_a_datagram { wait_for true 10 (Some 7) ≡ 0 }
    ensures due_next { wait_for true 10 (Some 11) ≡ 1 }
    ensures due_later { wait_for false 10 (Some 1009) ≡ 999 }
    ensures due_in_a_second { wait_for false 10 (Some 1010) ≡ 1000 }
    ensures due_in_a_minute { wait_for false 10 (Some 60010) ≡ 1000 }
{}

/// What is counted for one turn, and for several.
pub fn counted()
    ensures lost { with_turn true false false no_stats ≡ counts 1 0 0 1 }
    ensures taken { with_turn false true true no_stats ≡ counts 1 1 0 0 }
    ensures not_taken { with_turn false true false no_stats ≡ counts 1 0 1 0 }
    ensures nothing_sent { with_turn false false true no_stats ≡ counts 1 0 0 0 }
    ensures one_more { with_turn true false false (counts 7 3 2 1) ≡ counts 8 3 2 2 }
    ensures no_turns { (w : State) → stats_of w [] ≡ counts 0 0 0 0 }
    ensures two_lost { (w : State)
        → stats_of w (tick_given true ∷ tick_given true ∷ []) ≡ counts 2 0 0 2 }
    ensures one_lost { (s : Setting)
        → stats_of (new_state s) (tick_given true ∷ tick_given false ∷ []) ≡ counts 2 0 0 1 }
{}
