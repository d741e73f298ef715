//! What a fault of the words or of the configuration comes from, in a text beside the fault's own.

use crate::fault::Fault;
use crate::planning::default_config;
use crate::route_causes::route_cause;
use coap_config::{
    Config, ConfigError, Settings, parse_map_option, parse_proxy_option, read_unchecked,
    syntax_flaw,
};
use std::alloc::Global;

/// Which options don't go together: one is for a socket, the other for a replay; or which is
/// lacking, where one is given that another needs.
fn arguments_cause(settings: &Settings) -> &'static str {
    if settings.replay {
        socket_cause(settings)
    } else if settings.explain {
        "--explain is for a replay, and --replay isn't given"
    } else {
        "--record-bytes is for a recording, and --record isn't given"
    }
}

/// Which option that is for a socket is given beside `--replay`.
fn socket_cause(settings: &Settings) -> &'static str {
    if settings.recording.is_some() {
        "--record is for a socket, and --replay has none"
    } else if settings.record_bytes.is_some() {
        "--record-bytes is for a socket, and --replay has none"
    } else if settings.log {
        "--log is for a socket, and --replay has none"
    } else if settings.stats.is_some() {
        "--stats is for a socket, and --replay has none"
    } else if settings.stats_file.is_some() {
        "--stats-file is for a socket, and --replay has none"
    } else {
        "--receive-buffer is for a socket, and --replay has none"
    }
}

/// What is wrong with the value of `-P`.
fn names_cause(alloc: Global, settings: &Settings) -> Option<String> {
    let text = settings.names.as_deref()?;
    let Err(error) = parse_proxy_option(alloc, text) else {
        return None;
    };
    format!(in alloc; "-P {text:?}: {error}").ok()
}

/// What is wrong with the routes of a configuration.
fn routes_cause(alloc: Global, config: &Config) -> Option<String> {
    let cause = route_cause(alloc, config)?;
    format!(in alloc; "{cause}").ok()
}

/// What is wrong with the configuration.
fn config_cause(alloc: Global, error: &ConfigError, file: &[u8]) -> Option<String> {
    match error {
        ConfigError::Syntax => syntax_flaw(alloc, file),
        ConfigError::Routes(_) => {
            let config = read_unchecked(alloc, file).ok()?;
            routes_cause(alloc, &config)
        }
        ConfigError::Key { .. } | ConfigError::Value { .. } | ConfigError::OutOfMemory => None,
    }
}

/// What is wrong with the value of `--map`, after the maps of the configuration.
fn map_cause(alloc: Global, settings: &Settings, file: Option<&[u8]>) -> Option<String> {
    let text = settings.map.as_deref()?;
    let map = match parse_map_option(alloc, text) {
        Ok(map) => map,
        Err(error) => return format!(in alloc; "--map {text:?}: {error}").ok(),
    };
    let mut config = match file {
        Some(text) => read_unchecked(alloc, text).ok()?,
        None => default_config(alloc),
    };
    config.maps.push(map).ok()?;
    routes_cause(alloc, &config)
}

/// What a fault of the words or of the configuration comes from, found again from these. None for
/// other faults, for those whose own text says it, and if memory runs out.
pub fn cause_of(
    alloc: Global,
    fault: &Fault,
    settings: &Settings,
    file: Option<&[u8]>,
) -> Option<String> {
    match fault {
        Fault::Arguments => String::from_str(alloc, arguments_cause(settings)).ok(),
        Fault::Address => {
            let text = settings.address.as_deref()?;
            format!(in alloc; "-A {text:?}: no address").ok()
        }
        Fault::ProxyOption => names_cause(alloc, settings),
        Fault::Config(fault) => config_cause(alloc, fault.error(), file?),
        Fault::MapOption => map_cause(alloc, settings, file),
        Fault::Usage { .. }
        | Fault::File
        | Fault::Socket
        | Fault::OutOfMemory
        | Fault::BadEvent { .. }
        | Fault::OutOfMemoryAt { .. } => None,
    }
}
