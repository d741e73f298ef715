//! Counts of why exchanges were opened.
ghost use Rattle.std.specs.Prelude.{◌≡◌};
ghost use Rattle.coap_counts.specs.Openings as spec;

use crate::requests::one_more;
use coap_model::Held;

/// How many exchanges were opened, by what the cache had for the request.
#[derive(Clone, Copy, Debug, PartialEq, Eq)]
pub struct OpeningCounts {
    /// Nothing was stored.
    pub absent: u64,
    /// What was stored was no longer fresh (RFC 7252, 5.6.1).
    pub stale: u64,
    /// What was stored was marked, as its resource was changed (RFC 7252, 5.9.1).
    pub marked: u64,
    /// The request wasn't a GET, so that the cache doesn't answer it.
    pub not_get: u64,
}

impl OpeningCounts {
    /// None yet.
    pub fn new() -> OpeningCounts
        ensures { result ≡ spec.no_openings }
    {
        OpeningCounts {
            absent: 0,
            stale: 0,
            marked: 0,
            not_get: 0,
        }
    }

    /// Counts an exchange that was opened while the cache had this for its request.
    pub fn count(&mut self, held: Held)
        ensures { self.new ≡ spec.with_opening held self.old }
    {
        match held {
            Held::NotGet => one_more(&mut self.not_get),
            Held::Absent => one_more(&mut self.absent),
            Held::Marked => one_more(&mut self.marked),
            Held::Stale => one_more(&mut self.stale),
        }
    }
}
