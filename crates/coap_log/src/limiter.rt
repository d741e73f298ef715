//! How many lines are written.
ghost use Rattle.std.specs.Prelude.{◌≡◌, ◌≤◌, ◌^◌};
ghost use Rattle.coap_log.specs.Limiter as spec;

use coap_message::Moment;

/// How far apart lines may be, in milliseconds, if they are written for ever: 5 in a second.
const INTERVAL: u64 = 200;

/// How many lines may be written at once.
const BURST: u64 = 20;

/// A limit on the lines that are written: 20 at once, and then 5 in a second.
#[derive(Clone, Copy, Debug, PartialEq, Eq)]
pub struct Limiter {
    /// The moment from which on 20 lines may be written at once, in milliseconds.
    full_at: Moment,
    ghost bounded: { full_at ≤ 2 ^ 63 },
}

impl Limiter {
    /// One that has let no line through.
    pub fn new() -> Limiter
        ensures { result.full_at ≡ 0 }
    {
        Limiter { full_at: 0 }
    }

    /// Whether a line may be written at this moment, in milliseconds, at most 2^62. If so, it is
    /// counted.
    pub fn allows(&mut self, now: Moment) -> bool
        requires moment { now ≤ 2 ^ 62 }
        ensures allowed { result ≡ spec.allows self.old.full_at now }
        ensures counted { self.new.full_at ≡ spec.counted self.old.full_at now }
    {
        if self.full_at > now + (BURST - 1) * INTERVAL {
            return false;
        }
        self.full_at = self.full_at.max(now) + INTERVAL;
        true
    }
}
