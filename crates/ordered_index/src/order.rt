//! The order of pairs.
ghost use Rattle.std.specs.Prelude.{◌≡◌};
ghost use Rattle.ordered_index.specs.Ordered.{is_before};

/// Whether `a` comes before `b`: its first number is less, or they are equal and its second is
/// less.
pub fn is_before(a: (u64, u64), b: (u64, u64)) -> bool
    ensures exact { result ≡ is_before a b }
{
    a.0 < b.0 || (a.0 == b.0 && a.1 < b.1)
}
