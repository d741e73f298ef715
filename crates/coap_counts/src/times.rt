//! How long origins take to answer.
ghost use Rattle.std.specs.Prelude.{◌≡◌, map};
ghost use Rattle.coap_counts.specs.Times as spec;

use crate::requests::one_more;

/// How many answers came within a time.
#[derive(Clone, Copy, Debug, PartialEq, Eq)]
pub struct Bucket {
    /// That time, in milliseconds.
    pub within: u64,
    /// Those that came within it. A count that reaches 2^64 - 1 stays there.
    pub count: u64,
}

/// How long answers took.
#[derive(Clone, Copy, Debug, PartialEq, Eq)]
pub struct AnswerTimes {
    /// How many came within each of 13 times, the shortest first.
    pub buckets: [Bucket; 13],
    /// All answers.
    pub count: u64,
    /// How long they took together, in milliseconds, up to 2^64 - 1.
    pub sum: u64,
}

impl Bucket {
    /// None yet.
    fn new(within: u64) -> Bucket
        ensures { result ≡ spec.empty_bucket within }
    {
        Bucket { within, count: 0 }
    }

    /// Counts an answer that took so long, if it came in time.
    fn note(&mut self, took: u64)
        ensures { self.new ≡ spec.with_time took self.old }
    {
        if took <= self.within {
            one_more(&mut self.count);
        }
    }
}

/// Counts an answer in each bucket in whose time it came.
fn note_all(buckets: &mut [Bucket], took: u64)
    ensures { buckets.new ≡ map (spec.with_time took) buckets.old }
{
    for bucket in buckets.iter_mut() {
        bucket.note(took);
    }
}

impl AnswerTimes {
    /// None yet.
    pub fn new() -> AnswerTimes
        ensures { result ≡ spec.no_times }
    {
        AnswerTimes {
            buckets: [
                Bucket::new(5),
                Bucket::new(10),
                Bucket::new(25),
                Bucket::new(50),
                Bucket::new(100),
                Bucket::new(250),
                Bucket::new(500),
                Bucket::new(1_000),
                Bucket::new(2_500),
                Bucket::new(5_000),
                Bucket::new(10_000),
                Bucket::new(30_000),
                Bucket::new(60_000),
            ],
            count: 0,
            sum: 0,
        }
    }

    /// Counts an answer that took so many milliseconds.
    pub fn note(&mut self, took: u64)
        ensures { self.new ≡ spec.with_answer_time took self.old }
    {
        note_all(&mut self.buckets, took);
        one_more(&mut self.count);
        self.sum = self.sum.saturating_add(took);
    }
}
