//! Timers of messages that are retransmitted until they are acknowledged (RFC 7252, 4.2).
ghost use Rattle.std.specs.Prelude.{◌≡◌, ◌<◌, ◌≤◌, ◌^◌, true};
ghost use Rattle.coap_pending.specs.Timers.{fire_of, fired, goes_on, started};

use coap_message::{ACK_TIMEOUT, MAX_RETRANSMIT, MAX_TRANSMIT_WAIT, Moment};

/// What is to be done when a timer is due.
#[derive(Clone, Copy)]
pub enum Fire {
    /// The message is to be sent again.
    Again,
    /// The message was sent as many times as allowed, or for as long, and the sender gives up.
    GiveUp,
}

/// When a Confirmable message was sent, and when it is to be sent again (RFC 7252, 4.2 and 4.8).
/// The first timeout is two to three seconds, and each further one twice the one before it. Moments
/// and timeouts are in milliseconds.
#[derive(Clone, Copy)]
pub struct Timer {
    /// The moment when the message was first sent.
    pub started: Moment,
    /// The length of the current timeout.
    pub timeout: u64,
    /// When the current timeout ends.
    pub due: Moment,
    /// How many times the message was sent.
    pub transmissions: u8,
}

impl Timer {
    /// The timer of a message that is first sent now. The first timeout is 2,000 milliseconds
    /// (ACK_TIMEOUT; RFC 7252, 4.8) plus `draw`, which is at most 1,000. `now` is at most 2^62.
    pub fn start(now: Moment, draw: u16) -> Timer
        requires now { now ≤ 2 ^ 62 }
        requires draw { draw ≤ 1000 }
        ensures exact { result ≡ started now draw }
    {
        let timeout = ACK_TIMEOUT + u64::from(draw);
        Timer {
            started: now,
            timeout,
            due: now + timeout,
            transmissions: 1,
        }
    }

    /// Whether the message is to be sent again now: it was sent fewer than five times, and first
    /// less than 93,000 milliseconds ago.
    fn goes_on(&self, now: Moment) -> bool
        ensures exact { result ≡ goes_on now self.now }
        ensures few { result ≡ true → self.now.transmissions < 5 }
    {
        self.transmissions <= MAX_RETRANSMIT && now.saturating_sub(self.started) < MAX_TRANSMIT_WAIT
    }

    /// What is to be done if it is due now.
    pub(crate) fn fire_of(&self, now: Moment) -> Fire
        ensures exact { result ≡ fire_of now self.now }
    {
        if self.goes_on(now) {
            Fire::Again
        } else {
            Fire::GiveUp
        }
    }

    /// Fires the timer, which is due: `now` isn't before the end of the current timeout. Returns
    /// what is to be done. If the message is to be sent again, that is counted, and the next
    /// timeout starts, which is twice as long. `now` is at most 2^62, and the timeout at most 2^32.
    pub fn fire(&mut self, now: Moment) -> Fire
        requires due { self.old.due ≤ now }
        requires now { now ≤ 2 ^ 62 }
        requires short { self.old.timeout ≤ 2 ^ 32 }
        ensures exact { result ≡ fire_of now self.old }
        ensures fired { self.new ≡ fired now self.old }
    {
        if !self.goes_on(now) {
            return Fire::GiveUp;
        }
        self.timeout *= 2;
        self.due = now + self.timeout;
        self.transmissions += 1;
        Fire::Again
    }
}
