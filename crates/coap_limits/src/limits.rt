//! Limits: their ranges, their defaults, and values within the ranges.
ghost use Rattle.std.specs.Prelude.{◌≡◌, None, Some, not, IfOk, IfErr};
ghost use Rattle.coap_limits.specs.Limits.{AreLimits, default_limits, limits_per_client, without_client_limits, range_of, value_of, is_out, first_fault};

use coap_message::MAX_TRANSMIT_WAIT;
use std::marker::Model;
use thiserror::Error;

/// The names of the limits.
#[derive(Clone, Copy, Debug, PartialEq, Eq)]
pub enum Limit {
    CacheBytes,
    CacheEntries,
    ConRecords,
    NonRecords,
    Exchanges,
    Waiters,
    Nstart,
    Datagram,
    ExchangeMs,
    RetryS,
    ClientConRecords,
    ClientNonRecords,
    ClientExchanges,
    ClientWaiters,
}

/// A limit is out of its range.
#[derive(Clone, Copy, Debug, PartialEq, Eq, Error)]
#[error("limit out of range")]
pub struct LimitError {
    /// The first such limit, in the order of `Limit`.
    pub name: Limit,
}

impl Limit {
    /// All limits, in the order in which they are checked.
    pub const ALL: [Limit; 14] = [
        Limit::CacheBytes,
        Limit::CacheEntries,
        Limit::ConRecords,
        Limit::NonRecords,
        Limit::Exchanges,
        Limit::Waiters,
        Limit::Nstart,
        Limit::Datagram,
        Limit::ExchangeMs,
        Limit::RetryS,
        Limit::ClientConRecords,
        Limit::ClientNonRecords,
        Limit::ClientExchanges,
        Limit::ClientWaiters,
    ];

    /// The least and the greatest value.
    pub fn range(self) -> (u64, u64)
        ensures exact { result ≡ range_of self }
    {
        match self {
            Limit::CacheBytes => (0, 268_435_456),
            Limit::CacheEntries => (1, 65_536),
            Limit::ConRecords => (1, 65_536),
            Limit::NonRecords => (1, 65_536),
            Limit::Exchanges => (1, 4_096),
            Limit::Waiters => (1, 16_384),
            Limit::Nstart => (1, 16),
            Limit::Datagram => (128, 4_096),
            Limit::ExchangeMs => (1_000, 600_000),
            Limit::RetryS => (0, 3_600),
            Limit::ClientConRecords => (1, 65_536),
            Limit::ClientNonRecords => (1, 65_536),
            Limit::ClientExchanges => (1, 4_096),
            Limit::ClientWaiters => (1, 16_384),
        }
    }

    /// Whether its value is within its range.
    fn allows(self, values: &LimitValues) -> bool
        ensures { result ≡ not (is_out values.now self) }
    {
        let (least, most) = self.range();
        let value = values.get(self);
        least <= value && value <= most
    }
}

/// Values for the limits, within their ranges or not.
#[derive(Clone, Copy, Debug, PartialEq, Eq)]
pub struct LimitValues {
    /// The maximum size of the cache, in bytes.
    pub cache_bytes: u64,
    /// The maximum number of entries in the cache.
    pub cache_entries: u64,
    /// The maximum number of deduplication records of Confirmable messages.
    pub con_records: u64,
    /// The maximum number of deduplication records of Non-confirmable messages.
    pub non_records: u64,
    /// The maximum number of exchanges in progress.
    pub exchanges: u64,
    /// The maximum number of requests that wait for an answer, or whose answer isn't acknowledged.
    pub waiters: u64,
    /// The maximum number of outstanding requests to one endpoint: those that are neither
    /// acknowledged nor answered (RFC 7252, 4.7).
    pub nstart: u64,
    /// The maximum length of a datagram, in bytes.
    pub datagram: u64,
    /// How long an exchange may take, in milliseconds.
    pub exchange_ms: u64,
    /// After how long a client that got 5.03 may retry, in seconds.
    pub retry_s: u64,
    /// The maximum number of deduplication records of Confirmable messages from one endpoint.
    pub client_con_records: u64,
    /// The maximum number of deduplication records of Non-confirmable messages from one endpoint.
    pub client_non_records: u64,
    /// The maximum number of exchanges in progress that one client opened.
    pub client_exchanges: u64,
    /// The maximum number of requests of one client that wait for an answer, or whose answer it
    /// hasn't acknowledged.
    pub client_waiters: u64,
}

impl LimitValues {
    /// The value of a limit.
    pub fn get(&self, limit: Limit) -> u64
        ensures exact { result ≡ value_of self.now limit }
    {
        match limit {
            Limit::CacheBytes => self.cache_bytes,
            Limit::CacheEntries => self.cache_entries,
            Limit::ConRecords => self.con_records,
            Limit::NonRecords => self.non_records,
            Limit::Exchanges => self.exchanges,
            Limit::Waiters => self.waiters,
            Limit::Nstart => self.nstart,
            Limit::Datagram => self.datagram,
            Limit::ExchangeMs => self.exchange_ms,
            Limit::RetryS => self.retry_s,
            Limit::ClientConRecords => self.client_con_records,
            Limit::ClientNonRecords => self.client_non_records,
            Limit::ClientExchanges => self.client_exchanges,
            Limit::ClientWaiters => self.client_waiters,
        }
    }

    /// The first limit that is out of its range.
    fn first_fault(&self) -> Option<Limit>
        ensures { result ≡ first_fault self.now }
    {
        Limit::ALL.iter().copied().find(|limit| !limit.allows(self))
    }
}

impl Default for LimitValues {
    /// The limits of a proxy that isn't configured otherwise.
    fn default() -> LimitValues
        ensures exact { result ≡ default_limits }
    {
        LimitValues {
            cache_bytes: 262_144,
            cache_entries: 1_024,
            con_records: 4_096,
            non_records: 4_096,
            exchanges: 256,
            waiters: 1_024,
            nstart: 1,
            datagram: 1_500,
            exchange_ms: MAX_TRANSMIT_WAIT,
            retry_s: 5,
            client_con_records: 4_096,
            client_non_records: 4_096,
            client_exchanges: 256,
            client_waiters: 1_024,
        }
    }
}

impl LimitValues {
    /// The limits of a configuration of version 2 that has no others: one client may use a part of
    /// what clients share.
    pub fn version_2() -> LimitValues
        ensures exact { result ≡ limits_per_client }
    {
        LimitValues {
            client_con_records: 256,
            client_non_records: 256,
            client_exchanges: 16,
            client_waiters: 64,
            ..LimitValues::default()
        }
    }

    /// The same, but one client may use up all that clients share.
    pub fn without_client_limits(self) -> LimitValues
        ensures exact { result ≡ without_client_limits self }
    {
        LimitValues {
            client_con_records: self.con_records,
            client_non_records: self.non_records,
            client_exchanges: self.exchanges,
            client_waiters: self.waiters,
            ..self
        }
    }
}

/// The limits of a proxy, each within its range.
#[derive(Clone, Copy, Debug, PartialEq, Eq)]
pub struct Limits {
    values: LimitValues,
}

impl Model for Limits {
    ghost use Rattle.coap_limits.specs.Limits.{Limits, AreLimits};

    ghost Value = { Limits };

    ghost view = { λ limits. limits.values };

    ghost invariant = { λ limits. AreLimits limits.values };

    ghost inverse = { λ values. record { values = values } };
}

impl Limits {
    /// Limits with these values, if each is within its range.
    ///
    /// # Errors
    /// The first limit that is out of its range, in the order of `Limit`.
    pub fn new(values: LimitValues) -> Result<Limits, LimitError>
        ensures exact { IfOk result (λ limits. limits ≡ values) }
        ensures in_range { IfOk result (λ limits. first_fault values ≡ None) }
        ensures err { IfErr result (λ error. first_fault values ≡ Some error.name) }
    {
        match values.first_fault() {
            Some(name) => Err(LimitError { name }),
            None => Ok(Limits { values }),
        }
    }

    /// The values, each within its range.
    pub fn values(&self) -> &LimitValues
        ensures exact { result.now ≡ self.now }
        ensures in_range { AreLimits self.now }
    {
        &self.values
    }
}
