//! Laws of the definitions: public functions that do nothing, whose contracts are the laws.
ghost use Rattle.std.specs.Prelude.{ℕ, ◌+◌, ◌*◌, ◌≤◌, List};
ghost use Rattle.std.specs.List.{All};
ghost use Rattle.coap_log.specs.Values.{EndsNothing, escaped};
ghost use Rattle.coap_log.specs.Limiter.{AreWithin, written};

/// A value forges no line, no word of a line and no key, whoever chose it: it has no blank and no
/// byte below it, as a line feed, no quotation mark and no equals sign.
pub fn values_forge_nothing()
    ensures { (bytes : List ℕ) → All EndsNothing (escaped bytes) }
{}

/// In any stretch of time at most 20 lines are written, and 5 more for each second: whatever was
/// written before it, and whenever lines were to be written.
pub fn lines_are_limited()
    ensures { (full_at first last : ℕ) (moments : List ℕ)
        → AreWithin first moments last
        → 200 * written full_at moments + first ≤ 20 * 200 + last }
{}
