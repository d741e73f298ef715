//! Tables of a configuration: their members, and which keys they may have.
ghost use Rattle.std.specs.Prelude.{◌≡◌, ◌⊎◌, IfOk, not, option_map};
ghost use Rattle.std.specs.Option.{option_copied};
ghost use Rattle.toml.specs.Data.{get_member};
ghost use Rattle.toml.specs.View.{table_view, view};
ghost use Rattle.coap_uri.specs.Answer.{Answers};
ghost use Rattle.coap_config.specs.Config as spec;
ghost use Rattle.coap_config.specs.Tree.{first_key};
ghost use Rattle.coap_config.specs.declared.config_error.ConfigError.TheVariants as errors;

use crate::config_error::{ConfigError, KeyName};
use crate::limit_keys::is_limit;
use crate::texts::is_among;
use coap_message::OutOfMemory;
use std::alloc::Global;
use toml::{Table, Value};

/// The version of a configuration.
#[derive(Clone, Copy, Debug, PartialEq, Eq)]
pub enum Version {
    /// Version 1, which has no limits for one client.
    One,
    /// Version 2, which has.
    Two,
}

/// A table of a configuration.
#[derive(Clone, Copy, Debug, PartialEq, Eq)]
pub enum Place {
    /// The whole file.
    Top,
    /// `limits`, in a configuration of this version.
    Limits(Version),
    /// One of `map`.
    Map,
}

/// The value at a key.
pub(crate) fn member<'a>(table: &'a Table, key: &str) -> Option<&'a Value>
    ensures { option_map (λ value. view value.now) result
        ≡ get_member key.now (table_view table.now) }
{
    table.get(key)
}

/// Whether a table may have a key.
fn is_known(place: Place, key: &str) -> bool
    ensures { result ≡ spec.is_known place key.now }
{
    match place {
        Place::Top => is_top(key),
        Place::Limits(version) => is_limit(version, key),
        Place::Map => is_among(&["prefix", "origin"], key),
    }
}

/// Whether the whole file may have a key.
fn is_top(key: &str) -> bool
    ensures { result ≡ spec.is_known Place.Top key.now }
{
    is_among(&["version", "names", "limits", "hosts", "map"], key)
}

/// The first key that a table may not have.
fn first_unknown(place: Place, table: &Table) -> Option<&str>
    ensures { option_copied result
        ≡ first_key (λ key. not (spec.is_known place key)) (table_view table.now) }
{
    for (key, _value) in table.iter() {
        if !is_known(place, key.as_str()) {
            return Some(key.as_str());
        }
    }
    None
}

/// The name of a key of a table.
fn name_in(alloc: Global, place: Place, key: &str) -> Result<KeyName, OutOfMemory>
    ensures { IfOk result (λ name. name ≡ spec.name_in place key.now) }
{
    match place {
        Place::Top => KeyName::new(alloc, key),
        Place::Limits(_) => KeyName::within(alloc, "limits", key),
        Place::Map => KeyName::within(alloc, "map", key),
    }
}

/// Looks for a key that a table may not have.
pub(crate) fn check_keys(alloc: Global, place: Place, table: &Table) -> Result<(), ConfigError>
    ensures { Answers errors.OutOfMemory result (spec.keys_checked place (table_view table.now)) }
{
    match first_unknown(place, table) {
        Some(key) => Err(ConfigError::Key {
            name: name_in(alloc, place, key)?,
        }),
        None => Ok(()),
    }
}

/// The fault of a value under a key of the whole file.
pub(crate) fn bad_value(alloc: Global, key: &str) -> ConfigError
    ensures { (result ≡ errors.OutOfMemory) ⊎ (result ≡ errors.Value key.now) }
{
    match KeyName::new(alloc, key) {
        Ok(name) => ConfigError::Value { name },
        Err(OutOfMemory) => ConfigError::OutOfMemory,
    }
}

/// The fault of a value under a key of a table.
pub(crate) fn bad_value_in(alloc: Global, table: &str, key: &str) -> ConfigError
    ensures { (result ≡ errors.OutOfMemory)
        ⊎ (result ≡ errors.Value (spec.within table.now key.now)) }
{
    match KeyName::within(alloc, table, key) {
        Ok(name) => ConfigError::Value { name },
        Err(OutOfMemory) => ConfigError::OutOfMemory,
    }
}
