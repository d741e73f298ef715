//! Counts of what origins were sent and what they answered.
ghost use Rattle.std.specs.Prelude.{◌≡◌, IfOk, length, position};
ghost use Rattle.coap_counts.specs.Origins as spec;

use crate::requests::one_more;
use crate::times::AnswerTimes;
use coap_endpoint::Endpoint;
use coap_message::{Code, Moment, OutOfMemory, Seq};
use std::alloc::Global;
use std::marker::Model;

/// How many answers there were of each class (RFC 7252, 5.9).
#[derive(Clone, Copy, Debug, PartialEq, Eq)]
pub struct AnswerClasses {
    /// 2.xx
    pub success: u64,
    /// 4.xx
    pub client_error: u64,
    /// 5.xx
    pub server_error: u64,
}

/// What an origin was sent, and what it answered. A count that reaches 2^64 - 1 stays there.
#[derive(Clone, Copy, Debug, PartialEq, Eq)]
pub struct OriginCounts {
    /// Requests that it was sent, without retransmissions.
    pub sent: u64,
    /// Retransmissions of these.
    pub resent: u64,
    /// Its answers.
    pub answers: AnswerClasses,
    /// Requests that were given up, as no answer came.
    pub gave_up: u64,
    /// The moment of its last answer, in milliseconds.
    pub last_answer: Option<Moment>,
    /// How long its answers took, from the first transmission of the request.
    pub times: AnswerTimes,
}

/// What happened between the proxy and an origin.
#[derive(Clone, Copy, Debug, PartialEq, Eq)]
pub enum OriginEvent {
    /// It was sent a request.
    Sent,
    /// It was sent a request again.
    Resent,
    /// It answered a request.
    Answered(OriginAnswer),
    /// A request to it was given up.
    GaveUp,
}

/// An answer of an origin.
#[derive(Clone, Copy, Debug, PartialEq, Eq)]
pub struct OriginAnswer {
    pub code: Code,
    /// When it came, in milliseconds.
    pub now: Moment,
    /// How long after its request was first sent, in milliseconds, if that is known.
    pub took: Option<u64>,
}

impl AnswerClasses {
    /// Counts an answer with a code. Other classes aren't counted.
    fn count(&mut self, code: Code)
        ensures { self.new ≡ spec.with_class code self.old }
    {
        match code.class() {
            2 => one_more(&mut self.success),
            4 => one_more(&mut self.client_error),
            5 => one_more(&mut self.server_error),
            _ => {}
        }
    }
}

impl OriginCounts {
    /// The counts of an origin to which nothing was sent yet.
    pub fn new() -> OriginCounts
        ensures { result ≡ spec.no_counts }
    {
        OriginCounts {
            sent: 0,
            resent: 0,
            answers: AnswerClasses {
                success: 0,
                client_error: 0,
                server_error: 0,
            },
            gave_up: 0,
            last_answer: None,
            times: AnswerTimes::new(),
        }
    }

    /// Counts an answer.
    fn count_answer(&mut self, answer: OriginAnswer)
        ensures { self.new ≡ spec.with_answer answer self.old }
    {
        self.answers.count(answer.code);
        self.last_answer = Some(answer.now);
        if let Some(took) = answer.took {
            self.times.note(took);
        }
    }

    /// Counts what happened.
    pub fn count(&mut self, event: OriginEvent)
        ensures { self.new ≡ spec.with_event event self.old }
    {
        match event {
            OriginEvent::Sent => one_more(&mut self.sent),
            OriginEvent::Resent => one_more(&mut self.resent),
            OriginEvent::Answered(answer) => self.count_answer(answer),
            OriginEvent::GaveUp => one_more(&mut self.gave_up),
        }
    }
}

/// A place for the counts of an origin.
#[derive(Clone, Copy, Debug, PartialEq, Eq)]
pub struct OriginPlace {
    /// The origin; none if the place is free.
    pub at: Option<Endpoint>,
    pub counts: OriginCounts,
}

impl OriginPlace {
    /// A free place.
    fn free() -> OriginPlace
        ensures { result ≡ spec.free_place }
    {
        OriginPlace {
            at: None,
            counts: OriginCounts::new(),
        }
    }

    /// Whether this origin is counted here, or may be.
    fn takes(&self, at: Endpoint) -> bool
        ensures { result ≡ spec.takes at self.now }
    {
        match self.at {
            Some(held) => held == at,
            None => true,
        }
    }

    /// The same place, after this happened with an origin that it takes.
    fn counted(mut self, at: Endpoint, event: OriginEvent) -> OriginPlace
        ensures { result ≡ spec.counted at event self }
    {
        self.at = Some(at);
        self.counts.count(event);
        self
    }
}

/// Counts for each of a number of origins, in the order in which they came, and for all others
/// together. A contract sees the places, those of origins first, and the counts of the others.
#[derive(Drop)]
pub struct OriginTable {
    places: Seq<OriginPlace>,
    others: OriginCounts,
}

impl Model for OriginTable {
    ghost use Rattle.coap_counts.specs.Origins.{Origins};

    ghost Value = { Origins };

    ghost view = { λ t. record { places = t.places; others = t.others } };
}

impl OriginTable {
    /// A table with so many free places. Allocates all that it ever needs.
    ///
    /// # Errors
    /// Out of memory.
    pub fn new(alloc: Global, places: usize) -> Result<OriginTable, OutOfMemory>
        ensures { IfOk result (λ table. table ≡ spec.no_origins places) }
    {
        Ok(OriginTable {
            places: free_places(alloc, places)?,
            others: OriginCounts::new(),
        })
    }

    /// The places: those of origins first, in the order in which they came.
    pub fn places(&self) -> &[OriginPlace]
        ensures { result.now ≡ self.now.places }
    {
        self.places.as_slice()
    }

    /// The counts of the origins that found no place.
    pub fn others(&self) -> &OriginCounts
        ensures { result.now ≡ self.now.others }
    {
        &self.others
    }

    /// Counts what happened with an origin: at its place, or at the first free one if it is new, or
    /// among the others if there is none.
    pub fn count(&mut self, at: Endpoint, event: OriginEvent)
        ensures { self.new ≡ spec.with_origin at event self.old }
    {
        match place_of(self.places.as_slice(), at) {
            Some(place) => {
                let counted = self.places.as_slice()[place].counted(at, event);
                self.places.set(place, counted);
            }
            None => self.others.count(event),
        }
    }
}

/// So many free places.
fn free_places(alloc: Global, count: usize) -> Result<Seq<OriginPlace>, OutOfMemory>
    ensures { IfOk result (λ places. places ≡ spec.free_places count) }
{
    let mut places = Seq::with_capacity(alloc, count)?;
    for index in 0..count {
        let _laws = index;
        places.push(OriginPlace::free())?;
    }
    Ok(places)
}

/// The first place that takes an origin.
fn place_of(places: &[OriginPlace], at: Endpoint) -> Option<usize>
    ensures { result ≡ position (spec.takes at) places.now }
{
    places.iter().position(|place| place.takes(at))
}
