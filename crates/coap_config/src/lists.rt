//! The names, hosts and maps in a configuration.
ghost use Rattle.std.specs.Prelude.{option_map, string_bytes};
ghost use Rattle.toml.specs.Data.{get_member};
ghost use Rattle.toml.specs.View.{array_view, table_view, view};
ghost use Rattle.coap_target.specs.RouteTexts.{pair_of};
ghost use Rattle.coap_uri.specs.Answer.{Says};
ghost use Rattle.coap_config.specs.Config as spec;
ghost use Rattle.coap_config.specs.ConfigView.{pairs_of};
ghost use Rattle.coap_config.specs.ProxyOption.{bytes_of};
ghost use Rattle.coap_config.specs.Tree.{each_item, each_member};
ghost use Rattle.coap_config.specs.declared.config_error.ConfigError.TheVariants as errors;

use crate::config_error::ConfigError;
use crate::tables::{Place, bad_value, bad_value_in, check_keys, member};
use std::alloc::Global;
use toml::value::Array;
use toml::{Table, Value};

/// An own name, in lower case.
fn read_name(alloc: Global, value: &Value) -> Result<String, ConfigError>
    ensures { Says string_bytes errors.OutOfMemory result (spec.name_said (view value.now)) }
{
    match value.as_str() {
        Some(name) => Ok(name.to_ascii_lowercase(alloc)?),
        None => Err(bad_value(alloc, "names")),
    }
}

/// Own names, in order.
fn names_in(alloc: Global, values: &Array) -> Result<Vec<String>, ConfigError>
    ensures { Says bytes_of errors.OutOfMemory result
        (each_item spec.name_said (array_view values.now)) }
{
    let mut names = Vec::new(alloc);
    for value in values {
        names.push(read_name(alloc, value)?)?;
    }
    Ok(names)
}

/// The own names in `names`.
pub(crate) fn read_names(alloc: Global, said: Option<&Value>) -> Result<Vec<String>, ConfigError>
    ensures { Says bytes_of errors.OutOfMemory result
        (spec.names_said (option_map (λ value. view value.now) said.entry)) }
{
    let Some(said) = said else {
        return Ok(Vec::new(alloc));
    };
    match said.as_array() {
        Some(values) => names_in(alloc, values),
        None => Err(bad_value(alloc, "names")),
    }
}

/// A host: its name in lower case, and its address.
fn read_host(alloc: Global, name: &str, value: &Value) -> Result<(String, String), ConfigError>
    ensures { Says pair_of errors.OutOfMemory result
        (spec.host_said name.now (view value.now)) }
{
    let Some(address) = value.as_str() else {
        return Err(bad_value_in(alloc, "hosts", name));
    };
    let name = name.to_ascii_lowercase(alloc)?;
    let address = String::from_str(alloc, address)?;
    Ok((name, address))
}

/// Hosts, in order of their keys.
fn hosts_in(alloc: Global, table: &Table) -> Result<Vec<(String, String)>, ConfigError>
    ensures { Says pairs_of errors.OutOfMemory result
        (each_member spec.host_said (table_view table.now)) }
{
    let mut hosts = Vec::new(alloc);
    for (name, value) in table.iter() {
        hosts.push(read_host(alloc, name.as_str(), value)?)?;
    }
    Ok(hosts)
}

/// The hosts in the table `hosts`.
pub(crate) fn read_hosts(
    alloc: Global,
    said: Option<&Value>,
) -> Result<Vec<(String, String)>, ConfigError>
    ensures { Says pairs_of errors.OutOfMemory result
        (spec.hosts_said (option_map (λ value. view value.now) said.entry)) }
{
    let Some(said) = said else {
        return Ok(Vec::new(alloc));
    };
    match said.as_table() {
        Some(table) => hosts_in(alloc, table),
        None => Err(bad_value(alloc, "hosts")),
    }
}

/// The text under a key of a map.
fn read_text(alloc: Global, table: &Table, key: &str) -> Result<String, ConfigError>
    ensures { Says string_bytes errors.OutOfMemory result
        (spec.text_said key.now (get_member key.now (table_view table.now))) }
{
    let Some(said) = member(table, key) else {
        return Err(bad_value_in(alloc, "map", key));
    };
    match said.as_str() {
        Some(text) => Ok(String::from_str(alloc, text)?),
        None => Err(bad_value_in(alloc, "map", key)),
    }
}

/// A map: a prefix and an origin.
fn read_map(alloc: Global, value: &Value) -> Result<(String, String), ConfigError>
    ensures { Says pair_of errors.OutOfMemory result (spec.map_said (view value.now)) }
{
    let Some(table) = value.as_table() else {
        return Err(bad_value(alloc, "map"));
    };
    check_keys(alloc, Place::Map, table)?;
    let prefix = read_text(alloc, table, "prefix")?;
    let origin = read_text(alloc, table, "origin")?;
    Ok((prefix, origin))
}

/// Maps, in order.
fn maps_in(alloc: Global, values: &Array) -> Result<Vec<(String, String)>, ConfigError>
    ensures { Says pairs_of errors.OutOfMemory result
        (each_item spec.map_said (array_view values.now)) }
{
    let mut maps = Vec::new(alloc);
    for value in values {
        maps.push(read_map(alloc, value)?)?;
    }
    Ok(maps)
}

/// The maps in the tables `map`.
pub(crate) fn read_maps(
    alloc: Global,
    said: Option<&Value>,
) -> Result<Vec<(String, String)>, ConfigError>
    ensures { Says pairs_of errors.OutOfMemory result
        (spec.maps_said (option_map (λ value. view value.now) said.entry)) }
{
    let Some(said) = said else {
        return Ok(Vec::new(alloc));
    };
    match said.as_array() {
        Some(values) => maps_in(alloc, values),
        None => Err(bad_value(alloc, "map")),
    }
}
