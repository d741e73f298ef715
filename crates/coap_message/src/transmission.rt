//! The transmission parameters, and the times that follow from them (RFC 7252, 4.8). All times are
//! in milliseconds.

/// A moment, in milliseconds since one that is the same for a whole run.
pub type Moment = u64;

/// A Confirmable message that isn't acknowledged is sent again no earlier than after this time, and
/// no later than after half as much more (RFC 7252, 4.8).
pub const ACK_TIMEOUT: u64 = 2_000;

/// How much longer than `ACK_TIMEOUT` the first timeout may be, so that peers don't all send again
/// at once: `ACK_TIMEOUT` times what ACK_RANDOM_FACTOR, which is 1.5, is above 1 (RFC 7252, 4.8).
pub const MOST_JITTER: u16 = 1_000;

/// The most times that a Confirmable message is sent again (RFC 7252, 4.8).
pub const MAX_RETRANSMIT: u8 = 4;

/// How long after it first sent a Confirmable message a sender waits for an acknowledgement (RFC
/// 7252, 4.8.2).
pub const MAX_TRANSMIT_WAIT: u64 = 93_000;

/// How long after a Confirmable message was first sent its Message ID isn't used again (RFC 7252,
/// 4.8.2).
pub const EXCHANGE_LIFETIME: u64 = 247_000;

/// How long after a Non-confirmable message was sent its Message ID isn't used again (RFC 7252,
/// 4.8.2).
pub const NON_LIFETIME: u64 = 145_000;

/// The last moment that is ever handed in: 2^62 milliseconds.
pub const LAST_MOMENT: Moment = 1 << 62;
