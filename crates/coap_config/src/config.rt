//! The configuration of the proxy, a TOML file.
ghost use Rattle.std.specs.Prelude.{◌≡◌, Some, None, option_map};
ghost use Rattle.toml.specs.View.{table_view, view};
ghost use Rattle.coap_uri.specs.Answer.{Answers, Says};
ghost use Rattle.coap_config.specs.Config as spec;
ghost use Rattle.coap_config.specs.ConfigView.{seen};
ghost use Rattle.coap_config.specs.declared.config_error.ConfigError.TheVariants as errors;

use crate::config_error::{ConfigError, KeyName};
use crate::limit_table::read_limits;
use crate::lists::{read_hosts, read_maps, read_names};
use crate::tables::{Place, Version, bad_value, check_keys, member};
use coap_limits::Limits;
use coap_target::{RouteError, Routes};
use std::alloc::Global;
use toml::{Table, Value};

/// The contents of a configuration. Names, hosts and maps are the texts that `Routes::new` makes
/// routes of.
#[derive(Drop)]
pub struct Config {
    /// The limits, each with its default if it is left out.
    pub limits: Limits,
    /// The own names, in lower case, in order.
    pub names: Vec<String>,
    /// Hosts by name: the name in lower case, and its address. In byte order of their keys.
    pub hosts: Vec<(String, String)>,
    /// Maps: a prefix and an origin each, in order.
    pub maps: Vec<(String, String)>,
}

/// Reads a configuration, whose bytes are TOML:
///
/// - `version`, which must be present and be 1 or 2;
/// - `names`, a list of texts;
/// - `limits`, a table with a number for each limit that differs from its default; in version 2
///   with limits for one client, which in version 1 are the shared ones;
/// - `hosts`, a table with an address for each name;
/// - `map`, a list of tables with a `prefix` and an `origin`.
///
/// # Errors
/// The first fault, in this order: not UTF-8 or not TOML; the version; unknown keys, in byte order;
/// `names`; in `limits` unknown keys, then the limits in the order of `Limit`; `hosts`; `map`, in
/// each table an unknown key, then the prefix, then the origin; no routes. Running out of memory is
/// reported where it happens.
pub fn read_config(alloc: Global, text: &[u8]) -> Result<Config, ConfigError>
    ensures { Says seen errors.OutOfMemory result (spec.config_of text.now) }
{
    let config = read_unchecked(alloc, text)?;
    check_routes(alloc, &config)?;
    Ok(config)
}

/// Reads a configuration whose texts may make up no routes: for what says which of them don't.
///
/// # Errors
/// Those of `read_config`, but for the routes.
pub fn read_unchecked(alloc: Global, text: &[u8]) -> Result<Config, ConfigError>
    ensures { Says seen errors.OutOfMemory result (spec.unchecked_of text.now) }
{
    let table = read_document(alloc, text)?;
    read_table(alloc, &table)
}

/// What is wrong with a text that isn't TOML: the line, from 1, and what its reader says. None if
/// it is TOML, or if memory ran out.
pub fn syntax_flaw(alloc: Global, text: &[u8]) -> Option<String> {
    let Ok(text) = str::from_utf8(text) else {
        return format!(in alloc; "not UTF-8").ok();
    };
    let Err(error) = toml::table_from_str(alloc, text) else {
        return None;
    };
    let start = error.span()?.start;
    let before = text.as_bytes().get(..start)?;
    let line = before.iter().filter(|byte| **byte == b'\n').count() as u64 + 1;
    let message = error.message();
    format!(in alloc; "line {line}: {message}").ok()
}

/// Parses a TOML text.
fn read_document(alloc: Global, text: &[u8]) -> Result<Table, ConfigError>
    ensures { Says table_view errors.OutOfMemory result (spec.document_of text.now) }
{
    let Ok(text) = str::from_utf8(text) else {
        return Err(ConfigError::Syntax);
    };
    match toml::table_from_str(alloc, text) {
        Ok(table) => Ok(table),
        Err(error) => Err(if error.is_memory() {
            ConfigError::OutOfMemory
        } else {
            ConfigError::Syntax
        }),
    }
}

/// Reads a tree.
#[tactic(auto, unfolding(crate::specs::Config::table_said))]
fn read_table(alloc: Global, table: &Table) -> Result<Config, ConfigError>
    ensures { Says seen errors.OutOfMemory result (spec.table_said (table_view table.now)) }
{
    let version = read_version(alloc, member(table, "version"))?;
    check_keys(alloc, Place::Top, table)?;
    let names = read_names(alloc, member(table, "names"))?;
    let limits = read_limits(alloc, version, member(table, "limits"))?;
    let hosts = read_hosts(alloc, member(table, "hosts"))?;
    let maps = read_maps(alloc, member(table, "map"))?;
    Ok(Config {
        limits,
        names,
        hosts,
        maps,
    })
}

/// The version, which must be present, and be 1 or 2.
fn read_version(alloc: Global, said: Option<&Value>) -> Result<Version, ConfigError>
    ensures { Answers errors.OutOfMemory result
        (spec.version_said (option_map (λ value. view value.now) said.entry)) }
{
    let Some(said) = said else {
        return Err(ConfigError::Key {
            name: KeyName::new(alloc, "version")?,
        });
    };
    match version_of(said) {
        Some(version) => Ok(version),
        None => Err(bad_value(alloc, "version")),
    }
}

/// The version that a value is, if it is one.
fn version_of(value: &Value) -> Option<Version>
    ensures { result ≡ spec.version_of (view value.now) }
{
    match value.as_integer() {
        Some(1) => Some(Version::One),
        Some(2) => Some(Version::Two),
        _ => None,
    }
}

/// Checks that the texts make up routes.
fn check_routes(alloc: Global, config: &Config) -> Result<(), ConfigError>
    ensures { Says (λ _. seen config.now) errors.OutOfMemory result
        (spec.routes_checked (seen config.now)) }
{
    match Routes::new(
        alloc,
        config.names.as_slice(),
        config.hosts.as_slice(),
        config.maps.as_slice(),
        None,
    ) {
        Ok(_routes) => Ok(()),
        Err(RouteError::OutOfMemory) => Err(ConfigError::OutOfMemory),
        Err(error) => Err(ConfigError::Routes(error)),
    }
}
