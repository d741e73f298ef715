//! Stored responses (RFC 7252, 5.6).
ghost use Rattle.std.specs.Prelude.{◌≡◌};
ghost use Rattle.coap_store.specs.Freshness.{left_at};

use crate::shared_message::SharedMessage;
use coap_message::{Message, Moment};
use coap_option::max_age;

/// The number of an event of a run, counted from 0.
pub type EventNumber = u64;

/// A response in the store.
pub struct Stored {
    /// The response. Its type, Message ID and token are ignored.
    pub response: SharedMessage,
    /// The number of the event in which its request was first sent.
    pub asked: EventNumber,
    /// The number of the event in which it came.
    pub got_no: EventNumber,
    /// When it came, in milliseconds.
    pub got: Moment,
    /// Whether a change of its target has passed through the proxy since its request was sent (RFC
    /// 7252, 5.9.1.1, 5.9.1.2 and 5.9.1.4). It answers no request then, but may be validated.
    pub marked: bool,
}

impl Drop for Stored {
    fn drop(self) {
        let Stored {
            response: _,
            asked: _,
            got_no: _,
            got: _,
            marked: _,
        } = self;
    }
}

impl Stored {
    ghost use Rattle.coap_store.specs.Freshness.{age_of, is_fresh, is_usable, left_of};

    /// How long ago it came, in milliseconds: 0 if `now` is before that.
    fn age(&self, now: Moment) -> u64
        ensures { result ≡ age_of now self.now }
    {
        now.saturating_sub(self.got)
    }

    /// Whether it is fresh at this moment, in milliseconds: at most its Max-Age has passed since it
    /// came (RFC 7252, 5.6.1).
    pub fn is_fresh(&self, now: Moment) -> bool
        ensures { result ≡ is_fresh now self.now }
    {
        self.age(now) <= 1000 * u64::from(max_age(self.response.message()))
    }

    /// For how many whole seconds it stays fresh: its Max-Age less its age, where a second that has
    /// begun counts as gone; 0 in the last second, and once it is stale (RFC 7252, 5.7.1). `now` is
    /// in milliseconds.
    pub fn left(&self, now: Moment) -> u32
        ensures { result ≡ left_of now self.now }
    {
        left_at(self.response.message(), self.age(now))
    }

    /// Whether it may answer a request at this moment, in milliseconds: it is fresh and not marked.
    pub fn is_usable(&self, now: Moment) -> bool
        ensures { result ≡ is_usable now self.now }
    {
        self.is_fresh(now) && !self.marked
    }
}

/// For how many whole seconds a response of this age, in milliseconds, stays fresh: its Max-Age
/// less its age, where a second that has begun counts as gone; 0 in the last second, and once it is
/// stale (RFC 7252, 5.7.1).
pub fn left_at(response: &Message, age: u64) -> u32
    ensures { result ≡ left_at age response.now }
{
    let left = u64::from(max_age(response)).saturating_sub(age.div_ceil(1000));
    left as u32
}
