//! Message IDs (RFC 7252, 4.4).
ghost use Rattle.std.specs.Prelude.{◌≡◌};
ghost use Rattle.coap_pending.specs.Ids.{called, left_of, new_ids, next_of};

use coap_message::{EXCHANGE_LIFETIME, Moment};

/// The Message IDs that a proxy gives out: they count up from the first, and wrap from 65,535 to 0.
///
/// Time is divided into windows of 247,000 milliseconds (EXCHANGE_LIFETIME; RFC 7252, 4.8.2), and
/// at most 32,768 ids are given in each. So an id is only reused after at least that time has
/// passed, as long as moments never go back. Moments are in milliseconds.
#[derive(Clone, Copy)]
pub struct Ids {
    /// The next id to give.
    pub following: u16,
    /// The window in which the last id was given, counted from 0.
    pub window: u64,
    /// The number of ids given in that window.
    pub given: u32,
}

impl Ids {
    /// The most ids that are given in a window.
    pub const MOST: u32 = 32_768;

    /// Ids that start at `first`, with none given yet.
    pub fn new(first: u16) -> Ids
        ensures exact { result ≡ new_ids first }
    {
        Ids {
            following: first,
            window: 0,
            given: 0,
        }
    }

    /// The number of ids that can still be given in the window of `now`.
    pub fn left(&self, now: Moment) -> u32
        ensures exact { result ≡ left_of now self.now }
    {
        if self.window == now / EXCHANGE_LIFETIME {
            Ids::MOST.saturating_sub(self.given)
        } else {
            Ids::MOST
        }
    }

    /// Gives the next id, unless none is left in the window of `now`.
    pub fn next(&mut self, now: Moment) -> Option<u16>
        ensures id { result ≡ next_of now self.old }
        ensures given { self.new ≡ called now self.old }
    {
        let left = self.left(now);
        if left == 0 {
            return None;
        }
        let id = self.following;
        self.following = id.wrapping_add(1);
        self.window = now / EXCHANGE_LIFETIME;
        self.given = Ids::MOST - left + 1;
        Some(id)
    }
}
