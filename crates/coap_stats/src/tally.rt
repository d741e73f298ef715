//! Counts of what turns did.
ghost use Rattle.std.specs.Prelude.{◌≡◌};
ghost use Rattle.coap_model.specs.State.{State};
ghost use Rattle.coap_stats.specs.Tally as spec;
ghost use Rattle.coap_core.specs.Told.{told};

use coap_core::{Core, Event, Outcome, Storing, Watch, WatchedTurn};
use coap_counts::{RequestCounts, one_more};
use coap_message::Moment;
use coap_store::Store;

/// How many answers came, by what the cache did with them.
#[derive(Clone, Copy, Debug, PartialEq, Eq)]
pub struct AnswerCounts {
    /// Stored.
    pub kept: u64,
    /// Longer than the whole cache.
    pub too_large: u64,
    /// Not stored, since memory ran out.
    pub no_memory: u64,
    /// Not to be stored.
    pub not_stored: u64,
}

/// Counts of what turns did. A count that reaches 2^64 - 1 stays there.
#[derive(Clone, Copy, Debug, PartialEq, Eq)]
pub struct Tally {
    /// The moment of the last turn, in milliseconds, or 0 before the first.
    pub last: Moment,
    /// Datagrams that came.
    pub received: u64,
    /// Datagrams that were sent, and that the port took.
    pub sent: u64,
    /// Datagrams that were sent, but that the port didn't take.
    pub send_faults: u64,
    /// Turns that ran out of memory, so that nothing was done.
    pub lost: u64,
    pub requests: RequestCounts,
    pub answers: AnswerCounts,
    /// Retransmissions.
    pub resent: u64,
    /// Requests and answers that were given up.
    pub gave_up: u64,
}

impl AnswerCounts {
    /// Counts an answer.
    fn count(&mut self, storing: Storing)
        ensures { self.new ≡ spec.with_answer storing self.old }
    {
        match storing {
            Storing::Kept => one_more(&mut self.kept),
            Storing::TooLarge => one_more(&mut self.too_large),
            Storing::NoMemory => one_more(&mut self.no_memory),
            Storing::NotStored => one_more(&mut self.not_stored),
        }
    }
}

impl Tally {
    /// The counts before the first turn: all zero.
    pub fn new() -> Tally
        ensures { result ≡ spec.no_tally }
    {
        Tally {
            last: 0,
            received: 0,
            sent: 0,
            send_faults: 0,
            lost: 0,
            requests: RequestCounts::new(),
            answers: AnswerCounts {
                kept: 0,
                too_large: 0,
                no_memory: 0,
                not_stored: 0,
            },
            resent: 0,
            gave_up: 0,
        }
    }

    /// Counts what a step did.
    fn count_outcome(&mut self, outcome: Outcome)
        ensures { self.new ≡ spec.with_outcome outcome self.old }
    {
        match outcome {
            Outcome::Answered { storing } => self.answers.count(storing),
            Outcome::Resent => one_more(&mut self.resent),
            Outcome::GaveUp => one_more(&mut self.gave_up),
            outcome => self.requests.count(outcome),
        }
    }

    /// Counts a datagram that was sent, by whether it was taken.
    fn count_sent(&mut self, went: bool)
        ensures { self.new ≡ spec.with_sent went self.old }
    {
        if went {
            one_more(&mut self.sent);
        } else {
            one_more(&mut self.send_faults);
        }
    }

    /// Counts a turn.
    #[inline(always)]
    pub fn count(&mut self, turn: WatchedTurn<'_>)
        ensures { (w : State) → self.new ≡ spec.with_told (told turn.entry w) self.old }
    {
        self.last = turn.now;
        if let Event::Datagram { .. } = turn.event {
            one_more(&mut self.received);
        }
        let Some(report) = turn.report() else {
            one_more(&mut self.lost);
            return;
        };
        if report.send.is_some() {
            self.count_sent(turn.went);
        }
        self.count_outcome(report.outcome);
    }
}

impl Watch for Tally {
    ghost use Rattle.std.specs.Prelude.{◌≡◌};
    ghost use Rattle.coap_stats.specs.Tally.{with_told};

    ghost sees = { λ before told after. after ≡ with_told told before };

    fn foresee<S: Store + Drop>(&mut self, _turn: WatchedTurn<'_>, _core: &Core<S>) {}

    fn see<S: Store + Drop>(&mut self, turn: WatchedTurn<'_>, _core: &Core<S>) {
        self.count(turn);
    }
}
