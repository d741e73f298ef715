//! Laws of the definitions: public functions that do nothing, whose contracts are the laws.
ghost use Rattle.std.specs.Prelude.{◌≡◌, ◌<◌, ◌≤◌, ◌^◌, ◌-◌, ℕ, List};
ghost use Rattle.std.specs.List.{AllByRecursion};
ghost use Rattle.coap_pending.specs.declared.timer.Timer.{Timer};
ghost use Rattle.coap_pending.specs.Ids.{after_calls, given_by, left_of, window, count_in, AreInOrder, AreApart, AreCounted};
ghost use Rattle.coap_pending.specs.Timers.{IsTimerOf, IsSchedule};

/// Two ids that are given less than 247,000 milliseconds apart differ (RFC 7252, 4.4), over every
/// list of calls whose moments never go back. Ids count up from the first, and the number left in a
/// window is 32,768 less those given in it.
pub fn ids_differ()
    ensures differ { (first : ℕ) (moments : List ℕ)
        → first < 2 ^ 16
        → AreInOrder moments
        → AreApart (given_by first moments) }
    ensures counted { (first : ℕ) (moments : List ℕ)
        → first < 2 ^ 16
        → AreCounted first (given_by first moments) }
    ensures left { (first now : ℕ) (moments : List ℕ)
        → AreInOrder moments
        → AllByRecursion (λ m. m ≤ now) moments
        → left_of now (after_calls first moments)
        ≡ 32768 - count_in (window now) (given_by first moments) }
{}

/// The transmissions of a message whose timer is started and fired follow the schedule (RFC 7252,
/// 4.2 and 4.8): there are at most five, and the gaps double.
pub fn timers_meet_the_schedule()
    ensures { (draw : ℕ) (moments : List ℕ) (t : Timer)
        → IsTimerOf draw moments t
        → IsSchedule draw moments }
{}
