//! What a step returns, and how much a proxy holds.
use coap_endpoint::Endpoint;
use coap_message::Code;

/// What became of an answer in the cache: what the store did with it, as `Store::put` says, or that
/// it wasn't given to it.
#[derive(Clone, Copy, Debug, PartialEq, Eq)]
pub enum Storing {
    /// It was put in front of the cache.
    Kept,
    /// It alone exceeds the byte limit of the cache.
    TooLarge,
    /// Memory ran out for it.
    NoMemory,
    /// It must not be stored.
    NotStored,
}

/// What a step did.
#[derive(Clone, Copy, Debug, PartialEq, Eq)]
pub enum Outcome {
    /// Nothing: the datagram was ignored.
    Ignored,
    /// A Confirmable message that can't be processed got a Reset (RFC 7252, 4.2).
    Rejected,
    /// A duplicate: a Confirmable one got the kept reply again, a Non-confirmable one nothing.
    Again,
    /// There was no room for a duplicate record.
    NoRecordRoom,
    /// A request was refused with this code.
    Refused(Code),
    /// A request was answered from the cache.
    Hit,
    /// A client joined an exchange in progress, and waits for it.
    Joined,
    /// An exchange was opened, and the client waits for it.
    Opened,
    /// There was no room for an exchange or a waiter, or too few Message IDs were free: 5.03.
    Overloaded,
    /// No Message ID was free for the reply.
    NoId,
    /// An exchange got its answer.
    Answered { storing: Storing },
    /// A message from the proxy was acknowledged, or an answer was rejected with a Reset.
    Acked,
    /// A request was sent to its origin server.
    SentRequest,
    /// A message was retransmitted.
    Resent,
    /// A client was sent its answer.
    Delivered,
    /// No answer came in time, or no acknowledgement after the last retransmission.
    GaveUp,
    /// Nothing was due.
    Idle,
}

/// What a step did, and the destination of its datagram, if it sends one.
#[derive(Clone, Copy, Debug, PartialEq, Eq)]
pub struct Report {
    pub send: Option<Endpoint>,
    pub outcome: Outcome,
}

/// How much a proxy holds: bytes and entries of its cache, duplicate records, exchanges, and
/// waiters. Expired records don't count.
#[derive(Clone, Copy, Debug, PartialEq, Eq)]
pub struct Counts {
    pub cached_bytes: u64,
    pub entries: u64,
    pub con_records: u64,
    pub non_records: u64,
    pub exchanges: u64,
    pub waiters: u64,
}

/// How much of what a proxy holds is an endpoint's: duplicate records of its messages, exchanges
/// that it opened, and its waiters. Expired records don't count.
#[derive(Clone, Copy, Debug, PartialEq, Eq)]
pub struct ClientCounts {
    pub con_records: u64,
    pub non_records: u64,
    pub exchanges: u64,
    pub waiters: u64,
}
