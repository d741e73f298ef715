//! When counts are written, by the moments of turns; a clock that stands still.
ghost use Rattle.std.specs.Prelude.{◌≡◌, ◌+◌, ◌*◌, ◌/◌, ◌<◌, ◌≤◌, ◌^◌};
ghost use Rattle.coap_stats.specs.Clock as spec;

use coap_message::Moment;

/// The end of the period in which a moment is: the first multiple of the length after it, in
/// milliseconds.
pub fn period_end(now: Moment, length: u64) -> Moment
    requires length { 0 < length }
    requires fits { now + length < 2 ^ 64 }
    ensures multiple { result ≡ (now / length + 1) * length }
{
    (now / length + 1) * length
}

/// The period of counts if no other is given, in seconds.
const PERIOD: u64 = 60;

/// The longest period, in seconds.
const LONGEST: u64 = 86_400;

/// How long a period is, in milliseconds, if it is given in seconds: a minute if it isn't, and
/// always between a second and a day.
pub fn period_of(seconds: Option<u64>) -> u64
    ensures exact { result ≡ spec.period_of seconds }
    ensures some { 0 < result }
    ensures short { result ≤ 86400000 }
{
    seconds.unwrap_or(PERIOD).min(LONGEST).max(1) * 1000
}

/// How many turns in a row at one moment show that a clock stands still: no machine does as many
/// in a millisecond.
const MANY_TURNS: u64 = 10_000;

/// Notices that a clock stands still.
#[derive(Clone, Copy, Debug, PartialEq, Eq)]
pub struct StandingClock {
    /// The moment of the last turn, in milliseconds.
    pub last: Moment,
    /// How many turns there were at that moment, up to 10,000.
    pub turns: u64,
}

impl StandingClock {
    /// A clock before its first turn.
    pub fn new() -> StandingClock
        ensures { result ≡ spec.no_turn }
    {
        StandingClock { last: 0, turns: 0 }
    }

    /// Notes the moment of a turn. Returns whether that is the 10,000th in a row at one moment,
    /// which is so once while the clock stands still.
    pub fn stops(&mut self, now: Moment) -> bool
        ensures stopped { result ≡ spec.stops now self.old }
        ensures noted { self.new ≡ spec.with_turn now self.old }
    {
        if now != self.last {
            self.last = now;
            self.turns = 1;
            return false;
        }
        let many = self.turns == MANY_TURNS - 1;
        self.turns = self.turns.min(MANY_TURNS - 1) + 1;
        many
    }
}
