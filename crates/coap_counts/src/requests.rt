//! Counts of requests, by what became of them.
ghost use Rattle.std.specs.Prelude.{◌≡◌, true};
ghost use Rattle.coap_counts.specs.Requests as spec;

use coap_message::Code;
use coap_model::Outcome;

/// How many requests were refused with each code.
#[derive(Clone, Copy, Debug, PartialEq, Eq)]
pub struct RefusalCounts {
    /// 4.00
    pub bad_request: u64,
    /// 4.02
    pub bad_option: u64,
    /// 4.04
    pub not_found: u64,
    /// 4.05
    pub method_not_allowed: u64,
    /// 4.13
    pub entity_too_large: u64,
    /// 5.05
    pub not_proxied: u64,
}

/// How many requests ended in each way.
#[derive(Clone, Copy, Debug, PartialEq, Eq)]
pub struct RequestCounts {
    /// Answered from the cache.
    pub hit: u64,
    /// Joined an exchange in progress.
    pub joined: u64,
    /// Opened an exchange.
    pub opened: u64,
    /// Refused, by code.
    pub refused: RefusalCounts,
    /// Turned away with 5.03.
    pub overloaded: u64,
    /// Dropped, as there was no room for a duplicate record. Confirmable responses count as well.
    pub no_record_room: u64,
    /// Dropped, as no Message ID was free for the reply.
    pub no_id: u64,
    /// Came before. Duplicates of Confirmable responses count as well.
    pub again: u64,
}

/// One more, up to 2^64 - 1.
pub fn one_more(count: &mut u64)
    ensures { count.new ≡ spec.more true count.old }
{
    *count = count.saturating_add(1);
}

impl RefusalCounts {
    /// Counts a refusal. Other codes aren't counted.
    fn count(&mut self, code: Code)
        ensures { self.new ≡ spec.with_refusal code self.old }
    {
        match code.0 {
            0x80 => one_more(&mut self.bad_request),
            0x82 => one_more(&mut self.bad_option),
            0x84 => one_more(&mut self.not_found),
            0x85 => one_more(&mut self.method_not_allowed),
            0x8D => one_more(&mut self.entity_too_large),
            0xA5 => one_more(&mut self.not_proxied),
            _ => {}
        }
    }
}

impl RequestCounts {
    /// No requests yet.
    pub fn new() -> RequestCounts
        ensures { result ≡ spec.no_requests }
    {
        RequestCounts {
            hit: 0,
            joined: 0,
            opened: 0,
            refused: RefusalCounts {
                bad_request: 0,
                bad_option: 0,
                not_found: 0,
                method_not_allowed: 0,
                entity_too_large: 0,
                not_proxied: 0,
            },
            overloaded: 0,
            no_record_room: 0,
            no_id: 0,
            again: 0,
        }
    }

    /// Counts an outcome, if it is of a request. A hit, which most of them are, takes no call.
    #[inline(always)]
    pub fn count(&mut self, outcome: Outcome)
        ensures { self.new ≡ spec.with_request outcome self.old }
    {
        if let Outcome::Hit = outcome {
            one_more(&mut self.hit);
        } else {
            self.count_any(outcome);
        }
    }

    /// Counts an outcome, if it is of a request.
    #[inline(never)]
    fn count_any(&mut self, outcome: Outcome)
        ensures { self.new ≡ spec.with_request outcome self.old }
    {
        match outcome {
            Outcome::Hit => one_more(&mut self.hit),
            Outcome::Joined => one_more(&mut self.joined),
            Outcome::Opened => one_more(&mut self.opened),
            Outcome::Refused(code) => self.refused.count(code),
            Outcome::Overloaded => one_more(&mut self.overloaded),
            Outcome::NoRecordRoom => one_more(&mut self.no_record_room),
            Outcome::NoId => one_more(&mut self.no_id),
            Outcome::Again => one_more(&mut self.again),
            Outcome::Ignored
            | Outcome::Rejected
            | Outcome::Answered { .. }
            | Outcome::Acked
            | Outcome::SentRequest
            | Outcome::Resent
            | Outcome::Delivered
            | Outcome::GaveUp
            | Outcome::Idle => {}
        }
    }
}
