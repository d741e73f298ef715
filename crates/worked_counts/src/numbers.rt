//! The numbers of the whole proxy.
use coap_counts::{OpeningCounts, RefusalCounts, RequestCounts};
use coap_stats::{AnswerCounts, Tally};
use coap_store::Evictions;

/// Why exchanges were opened.
pub(crate) const OPENINGS: OpeningCounts = OpeningCounts {
    absent: 541,
    stale: 542,
    marked: 543,
    not_get: 544,
};

/// What was evicted.
pub(crate) const EVICTIONS: Evictions = Evictions {
    entries: 551,
    fresh: 552,
};

/// What became of requests.
const REQUESTS: RequestCounts = RequestCounts {
    hit: 511,
    joined: 512,
    opened: 513,
    refused: RefusalCounts {
        bad_request: 521,
        bad_option: 522,
        not_found: 523,
        method_not_allowed: 524,
        entity_too_large: 525,
        not_proxied: 526,
    },
    overloaded: 514,
    no_record_room: 515,
    no_id: 516,
    again: 517,
};

/// The counts of all turns, of which the last was in the 700th second.
pub(crate) const TALLY: Tally = Tally {
    last: 700_999,
    received: 501,
    sent: 502,
    send_faults: 503,
    lost: 504,
    requests: REQUESTS,
    answers: AnswerCounts {
        kept: 531,
        too_large: 532,
        no_memory: 533,
        not_stored: 534,
    },
    resent: 505,
    gave_up: 506,
};
