//! The keys of the limits.
ghost use Rattle.std.specs.Prelude.{◌≡◌, map};
ghost use Rattle.coap_config.specs.Config.{for_a_client, holding, is_among, is_limit, limit_key, sending};

use crate::tables::Version;
use crate::texts::is_among;
use coap_limits::Limit;

/// The key of a limit.
pub fn limit_key(limit: Limit) -> &'static str
    ensures { result.now ≡ limit_key limit }
{
    match limit {
        Limit::CacheBytes => "cache_bytes",
        Limit::CacheEntries => "cache_entries",
        Limit::ConRecords => "con_records",
        Limit::NonRecords => "non_records",
        Limit::Exchanges => "exchanges",
        Limit::Waiters => "waiters",
        Limit::Nstart => "nstart",
        Limit::Datagram => "datagram",
        Limit::ExchangeMs => "exchange_ms",
        Limit::RetryS => "retry_s",
        Limit::ClientConRecords => "client_con_records",
        Limit::ClientNonRecords => "client_non_records",
        Limit::ClientExchanges => "client_exchanges",
        Limit::ClientWaiters => "client_waiters",
    }
}

/// Whether a key is that of a limit on what is held.
fn is_holding(key: &str) -> bool
    ensures { result ≡ is_among (map limit_key holding) key.now }
{
    is_among(
        &[
            "cache_bytes",
            "cache_entries",
            "con_records",
            "non_records",
            "exchanges",
            "waiters",
        ],
        key,
    )
}

/// Whether a key is that of a limit on what is sent.
fn is_sending(key: &str) -> bool
    ensures { result ≡ is_among (map limit_key sending) key.now }
{
    is_among(&["nstart", "datagram", "exchange_ms", "retry_s"], key)
}

/// Whether a key is that of a limit on what is held for one client.
fn is_for_a_client(key: &str) -> bool
    ensures { result ≡ is_among (map limit_key for_a_client) key.now }
{
    is_among(
        &[
            "client_con_records",
            "client_non_records",
            "client_exchanges",
            "client_waiters",
        ],
        key,
    )
}

/// Whether a key is that of a limit in a configuration of this version.
pub(crate) fn is_limit(version: Version, key: &str) -> bool
    ensures { result ≡ is_limit version key.now }
{
    let shared = is_holding(key) || is_sending(key);
    match version {
        Version::One => shared,
        Version::Two => shared || is_for_a_client(key),
    }
}
