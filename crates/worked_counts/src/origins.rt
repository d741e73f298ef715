//! Origins: one that has a place of its own, and another that has none.
use coap_counts::{OriginAnswer, OriginEvent, OriginTable};
use coap_endpoint::{Endpoint, Ip};
use coap_message::{Code, Moment};
use std::alloc::Global;

/// What an origin was sent, and what it answered.
#[derive(Clone, Copy)]
struct Origin {
    at: Endpoint,
    sent: usize,
    resent: usize,
    gave_up: usize,
    /// Its answers: one within each of the times but the first, the others within that.
    answers: usize,
    /// How many of them are 2.05; and how many others are 4.04. What is left is 5.03.
    success: usize,
    client_errors: usize,
    /// When each of them came.
    last: Moment,
}

const FIRST: Origin = Origin {
    at: Endpoint {
        ip: Ip::V4([198, 51, 100, 1]),
        port: 5683,
    },
    sent: 66,
    resent: 67,
    gave_up: 68,
    answers: 313,
    success: 141,
    client_errors: 101,
    last: 99_000,
};

const SECOND: Origin = Origin {
    at: Endpoint {
        ip: Ip::V4([198, 51, 100, 1]),
        port: 5684,
    },
    sent: 76,
    resent: 77,
    gave_up: 78,
    answers: 343,
    success: 151,
    client_errors: 111,
    last: 98_000,
};

/// How long answers take, in milliseconds: the ends of all buckets, and one more than the last.
const TIMES: [u64; 14] = [
    60_001, 60_000, 30_000, 10_000, 5_000, 2_500, 1_000, 500, 250, 100, 50, 25, 10, 5,
];

impl Origin {
    /// The code of one of its answers.
    fn code(&self, number: usize) -> Code {
        if number < self.success {
            Code::CONTENT
        } else if number - self.success < self.client_errors {
            Code::NOT_FOUND
        } else {
            Code::SERVICE_UNAVAILABLE
        }
    }

    /// One of its answers.
    fn answer(&self, number: usize) -> OriginAnswer {
        OriginAnswer {
            code: self.code(number),
            now: self.last,
            took: Some(TIMES[number.min(13)]),
        }
    }

    /// Counts an event of it so many times.
    fn count_some(&self, origins: &mut OriginTable, event: OriginEvent, times: usize) {
        for _ in 0..times {
            origins.count(self.at, event);
        }
    }

    /// Counts all that happened with it.
    fn count(&self, origins: &mut OriginTable) {
        self.count_some(origins, OriginEvent::Sent, self.sent);
        self.count_some(origins, OriginEvent::Resent, self.resent);
        self.count_some(origins, OriginEvent::GaveUp, self.gave_up);
        for number in 0..self.answers {
            origins.count(self.at, OriginEvent::Answered(self.answer(number)));
        }
    }
}

/// The counts of both.
pub(crate) fn counted(alloc: Global) -> anyhow::Result<OriginTable> {
    let mut origins = OriginTable::new(alloc, 1)?;
    FIRST.count(&mut origins);
    SECOND.count(&mut origins);
    Ok(origins)
}
