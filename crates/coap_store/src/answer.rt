//! Answers (RFC 7252, 5.7.1).
use crate::shared_message::SharedMessage;
use coap_message::Moment;

/// What those who wait for an exchange get: a message, and when it came.
pub struct Answer {
    pub message: SharedMessage,
    /// When it came, or was made if it is the proxy's own, in milliseconds.
    pub got: Moment,
    /// Whether it is the proxy's own (5.02 or 5.04), in place of what the origin sent or
    /// didn't.
    pub own: bool,
}

impl Drop for Answer {
    fn drop(self) {
        let Answer {
            message: _,
            got: _,
            own: _,
        } = self;
    }
}
