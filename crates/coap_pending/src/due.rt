//! What is due: the moment from which on an item is due, in milliseconds, and the item's number in
//! its table.
ghost use Rattle.std.specs.Prelude.{◌≡◌, ◌≤◌, ◌^◌, IfSome};
ghost use Rattle.coap_pending.specs.Due.{as_due, is_sooner, later, sooner};

/// Pairs a number with the moment when its item is due, if it is due at all.
pub fn due_under(number: u64, at: Option<u64>) -> Option<(u64, u64)>
    ensures exact { result ≡ as_due number at }
{
    let at = at?;
    Some((at, number))
}

/// The sooner of two, if either is due.
pub fn sooner(a: Option<(u64, u64)>, b: Option<(u64, u64)>) -> Option<(u64, u64)>
    ensures exact { result ≡ sooner a b }
{
    match (a, b) {
        (Some(x), Some(y)) => Some(if is_sooner(y, x) { y } else { x }),
        (Some(_), None) => a,
        (None, _) => b,
    }
}

/// An item that is due, `ms` milliseconds later.
pub fn later(due: Option<(u64, u64)>, ms: u64) -> Option<(u64, u64)>
    requires early { IfSome due (λ d. d.0 ≤ 2 ^ 62) }
    requires short { ms ≤ 600000 }
    ensures exact { result ≡ later ms due }
{
    let due = due?;
    Some((due.0 + ms, due.1))
}

/// Whether `a` is due before `b`: earlier, or at the same moment with a lower number.
fn is_sooner(a: (u64, u64), b: (u64, u64)) -> bool
    ensures exact { result ≡ is_sooner a b }
{
    a.0 < b.0 || (a.0 == b.0 && a.1 < b.1)
}
