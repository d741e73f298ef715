//! Examples, computed on the definitions.
ghost use Rattle.std.specs.Prelude.{◌≡◌, ◌∷◌, [], false, true, None, Some, codes};
ghost use Rattle.coap_model.specs.Events.Event.{arrival, tick};
ghost use Rattle.coap_lines.specs.Endpoints.{endpoint_of};
ghost use Rattle.coap_lines.specs.Examples.{eight, get, home, sixth};
ghost use Rattle.coap_lines.specs.Lines.{is_skipped, line_of, lines_of};
ghost use Rattle.coap_lines.specs.Scripts.{script_of};
ghost use Rattle.coap_lines.specs.Turns.{turn_at, turn_line, turn_of};

/// Lines that are events.
pub fn events()
    ensures datagram { turn_of 0 (codes "0 0 127.0.0.1:40001 50010007B174")
        ≡ Some (turn_at 0 0 (arrival home get)) }
    ensures lower_case { turn_of 0 (codes "0 0 127.0.0.1:40001 50010007b174")
        ≡ Some (turn_at 0 0 (arrival home get)) }
    ensures nothing { turn_of 7 (codes "12 1000 127.0.0.1:40001 -")
        ≡ Some (turn_at 12 1000 (arrival home [])) }
    ensures ticks { turn_of 0 (codes "0 0 tick") ≡ Some (turn_at 0 0 tick) }
    ensures latest { turn_of 0 (codes "4611686018427387904 0 tick")
        ≡ Some (turn_at 4611686018427387904 0 tick) }
{}

/// Lines that aren't events.
pub fn bad_events()
    ensures too_late { turn_of 0 (codes "4611686018427387905 0 tick") ≡ None }
    ensures too_early { turn_of 8 (codes "7 0 tick") ≡ None }
    ensures leading_zero { turn_of 0 (codes "00 0 tick") ≡ None }
    ensures draw { turn_of 0 (codes "0 1001 tick") ≡ None }
    ensures two_spaces { turn_of 0 (codes "0 0  tick") ≡ None }
    ensures another_word { turn_of 0 (codes "0 0 bogus") ≡ None }
    ensures odd { turn_of 0 (codes "0 0 127.0.0.1:40001 50010007B17") ≡ None }
    ensures no_digits { turn_of 0 (codes "0 0 127.0.0.1:40001 ") ≡ None }
    ensures more { turn_of 0 (codes "0 0 127.0.0.1:40001 50 ") ≡ None }
    ensures draw_zeros { turn_of 1 (codes "1 00 tick") ≡ None }
    ensures plus { turn_of 1 (codes "+1 0 tick") ≡ None }
    ensures minus { turn_of 1 (codes "-1 0 tick") ≡ None }
    ensures fraction { turn_of 1 (codes "1.0 0 tick") ≡ None }
    ensures huge { turn_of 1 (codes "99999999999999999999 0 tick") ≡ None }
    ensures capitals { turn_of 1 (codes "1 0 TICK") ≡ None }
    ensures space_before { turn_of 1 (codes " 1 0 tick") ≡ None }
    ensures space_after { turn_of 1 (codes "1 0 tick ") ≡ None }
    ensures tabs { turn_of 1 (codes "1\t0\ttick") ≡ None }
    ensures carriage_return { turn_of 1 (codes "1 0 tick\r") ≡ None }
    ensures more_than_a_tick { turn_of 1 (codes "1 0 tick -") ≡ None }
    ensures no_event { turn_of 1 (codes "1 0") ≡ None }
    ensures no_draw { turn_of 1 (codes "1 tick") ≡ None }
    ensures no_bytes { turn_of 1 (codes "1 0 127.0.0.1:1") ≡ None }
    ensures another_digit { turn_of 1 (codes "1 0 127.0.0.1:1 5001000G") ≡ None }
    ensures two_hyphens { turn_of 1 (codes "1 0 127.0.0.1:1 --") ≡ None }
    ensures empty { turn_of 0 [] ≡ None }
{}

/// Texts of endpoints.
pub fn endpoints()
    ensures four { endpoint_of (codes "127.0.0.1:40001") ≡ Some home }
    ensures groups { endpoint_of (codes "[1:2:3:4:5:6:7:8]:5683") ≡ Some eight }
    ensures leading_zeros { endpoint_of (codes "[0001:02:003:4:5:6:7:8]:5683") ≡ Some eight }
    ensures either_case { endpoint_of (codes "[2001:db8:0:0:0:0:ABCD:ef]:0") ≡ Some sixth }
    ensures long_group { endpoint_of (codes "[00001:2:3:4:5:6:7:8]:5683") ≡ None }
    ensures seven { endpoint_of (codes "[1:2:3:4:5:6:7]:5683") ≡ None }
    ensures nine { endpoint_of (codes "[1:2:3:4:5:6:7:8:9]:5683") ≡ None }
    ensures elided { endpoint_of (codes "[1::8]:5683") ≡ None }
    ensures port { endpoint_of (codes "127.0.0.1:65536") ≡ None }
    ensures port_zeros { endpoint_of (codes "127.0.0.1:05683") ≡ None }
    ensures no_port { endpoint_of (codes "127.0.0.1") ≡ None }
    ensures great_number { endpoint_of (codes "127.0.0.256:1") ≡ None }
    ensures number_zeros { endpoint_of (codes "127.0.0.01:1") ≡ None }
    ensures host_name { endpoint_of (codes "localhost:1") ≡ None }
    ensures no_brackets { endpoint_of (codes "1:2:3:4:5:6:7:8:5683") ≡ None }
{}

/// Lines of an output.
pub fn lines()
    ensures four { line_of 2000 home get ≡ codes "2000 127.0.0.1:40001 50010007B174\n" }
    ensures groups { line_of 0 sixth (0xAB ∷ []) ≡ codes "0 [2001:db8:0:0:0:0:abcd:ef]:0 AB\n" }
    ensures empty { line_of 1 eight [] ≡ codes "1 [1:2:3:4:5:6:7:8]:5683 -\n" }
{}

/// Lines of turns, as they are recorded.
pub fn turns()
    ensures datagram { turn_line (turn_at 2000 17 (arrival home get))
        ≡ codes "2000 17 127.0.0.1:40001 50010007B174\n" }
    ensures nothing { turn_line (turn_at 0 1000 (arrival eight []))
        ≡ codes "0 1000 [1:2:3:4:5:6:7:8]:5683 -\n" }
    ensures ticks { turn_line (turn_at 7 0 tick) ≡ codes "7 0 tick\n" }
{}

/// Which lines are skipped: the empty one, and those that begin with `#`.
pub fn skipped()
    ensures empty { is_skipped [] ≡ true }
    ensures comment { is_skipped (codes "# a tick") ≡ true }
    ensures sign { is_skipped (codes "#") ≡ true }
    ensures semicolon { is_skipped (codes "; a tick") ≡ false }
    ensures space { is_skipped (codes " # a tick") ≡ false }
    ensures event { is_skipped (codes "0 0 tick") ≡ false }
{}

/// Lines of an input, and what they ask for.
pub fn inputs()
    ensures no_lines { lines_of [] ≡ [] }
    ensures last { lines_of (codes "a\n\nb") ≡ codes "a" ∷ [] ∷ codes "b" ∷ [] }
    ensures feed { lines_of (codes "a\n\n") ≡ codes "a" ∷ [] ∷ [] }
    ensures nothing { script_of [] ≡ record { turns = []; bad = None } }
    ensures skipped { script_of (codes "# two ticks\n\n0 0 tick\n5 9 tick\n")
        ≡ record { turns = turn_at 0 0 tick ∷ turn_at 5 9 tick ∷ []; bad = None } }
    ensures bad { script_of (codes "0 0 tick\n\nbogus\n1 0 tick")
        ≡ record { turns = turn_at 0 0 tick ∷ []; bad = Some 3 } }
    ensures back { script_of (codes "3 0 tick\n2 0 tick\n")
        ≡ record { turns = turn_at 3 0 tick ∷ []; bad = Some 2 } }
{}
