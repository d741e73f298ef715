//! The limits in a configuration.
ghost use Rattle.std.specs.Prelude.{◌≡◌, option_map};
ghost use Rattle.toml.specs.View.{table_view, view};
ghost use Rattle.coap_uri.specs.Answer.{Answers};
ghost use Rattle.coap_config.specs.Config as spec;
ghost use Rattle.coap_config.specs.declared.config_error.ConfigError.TheVariants as errors;

use crate::config_error::ConfigError;
use crate::limit_keys::limit_key;
use crate::tables::{Place, Version, bad_value, bad_value_in, check_keys, member};
use coap_limits::{Limit, LimitValues, Limits};
use std::alloc::Global;
use toml::{Table, Value};

/// The number that a value gives for a limit, or one that no limit may be if the value isn't an
/// integer from 0 up.
fn number(value: &Value) -> u64
    ensures { result ≡ spec.number_said (view value.now) }
{
    match value.as_integer() {
        Some(number) if number >= 0 => number as u64,
        _ => u64::MAX,
    }
}

/// The value of a limit, or the default if it is left out.
fn value(defaults: &LimitValues, table: &Table, limit: Limit) -> u64
    ensures { result ≡ spec.limit_in defaults.now (table_view table.now) limit }
{
    match member(table, limit_key(limit)) {
        Some(value) => number(value),
        None => defaults.get(limit),
    }
}

/// The value of each limit, whether within its range or not.
fn values(defaults: &LimitValues, table: &Table) -> LimitValues
    ensures { result ≡ spec.values_in defaults.now (table_view table.now) }
{
    LimitValues {
        cache_bytes: value(defaults, table, Limit::CacheBytes),
        cache_entries: value(defaults, table, Limit::CacheEntries),
        con_records: value(defaults, table, Limit::ConRecords),
        non_records: value(defaults, table, Limit::NonRecords),
        exchanges: value(defaults, table, Limit::Exchanges),
        waiters: value(defaults, table, Limit::Waiters),
        nstart: value(defaults, table, Limit::Nstart),
        datagram: value(defaults, table, Limit::Datagram),
        exchange_ms: value(defaults, table, Limit::ExchangeMs),
        retry_s: value(defaults, table, Limit::RetryS),
        client_con_records: value(defaults, table, Limit::ClientConRecords),
        client_non_records: value(defaults, table, Limit::ClientNonRecords),
        client_exchanges: value(defaults, table, Limit::ClientExchanges),
        client_waiters: value(defaults, table, Limit::ClientWaiters),
    }
}

/// The value of each limit in a configuration of this version.
fn values_of(version: Version, table: &Table) -> LimitValues
    ensures { result ≡ spec.limits_in version (table_view table.now) }
{
    match version {
        Version::One => values(&LimitValues::default(), table).without_client_limits(),
        Version::Two => values(&LimitValues::version_2(), table),
    }
}

/// The limits in a configuration of this version without the table `limits`.
fn limits_of(version: Version) -> LimitValues
    ensures { result ≡ spec.limits_of version }
{
    match version {
        Version::One => LimitValues::default(),
        Version::Two => LimitValues::version_2(),
    }
}

/// Checks the values of limits.
fn check_limits(alloc: Global, values: LimitValues) -> Result<Limits, ConfigError>
    ensures { Answers errors.OutOfMemory result (spec.limits_checked values) }
{
    match Limits::new(values) {
        Ok(limits) => Ok(limits),
        Err(error) => Err(bad_value_in(alloc, "limits", limit_key(error.name))),
    }
}

/// The limits in the table `limits`.
pub(crate) fn read_limits(
    alloc: Global,
    version: Version,
    said: Option<&Value>,
) -> Result<Limits, ConfigError>
    ensures { Answers errors.OutOfMemory result
        (spec.limits_said version (option_map (λ value. view value.now) said.entry)) }
{
    let Some(said) = said else {
        return check_limits(alloc, limits_of(version));
    };
    let Some(table) = said.as_table() else {
        return Err(bad_value(alloc, "limits"));
    };
    check_keys(alloc, Place::Limits(version), table)?;
    check_limits(alloc, values_of(version, table))
}
