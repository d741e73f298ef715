//! What the program is to do, by its words and its configuration.
ghost use Rattle.std.specs.Prelude.{◌≡◌, Ok, option_map, string_bytes};
ghost use Rattle.coap_target.specs.RouteTexts.{pair_of};
ghost use Rattle.coap_uri.specs.Answer.{Says};
ghost use Rattle.coap_config.specs.ConfigView as view;
ghost use Rattle.coap_config.specs.ProxyOption.{bytes_of};
ghost use Rattle.coap_proxyd.specs.Words as words;
ghost use Rattle.coap_proxyd.specs.Planning as spec;
ghost use Rattle.coap_proxyd.specs.declared.fault.Fault.TheVariants as faults;

use crate::fault::Fault;
use crate::words::Wanted;
use coap_config::{Config, parse_map_option, read_config};
use coap_core::{LimitValues, Limits};
use coap_endpoint::Endpoint;
use coap_target::{RouteError, Routes};
use std::alloc::Global;

/// What the program is to do.
#[derive(Drop)]
pub struct Plan {
    /// Where to listen.
    pub local: Endpoint,
    pub limits: Limits,
    pub routes: Routes,
    /// Whether events come from standard input.
    pub replay: bool,
    /// The first Message ID, if it is given.
    pub first_id: Option<u16>,
    /// The salt of tokens, if it is given.
    pub salt: Option<u64>,
    /// The number of turns to do, if it is given.
    pub turns: Option<u64>,
    /// The path of the file to which events are recorded, or that of a folder, which ends with a
    /// slash, if one is given.
    pub recording: Option<String>,
    /// Whether a replay says what each event did.
    pub explain: bool,
    /// How many seconds apart the lines of counts are, if they are asked for.
    pub stats: Option<u64>,
    /// The path of the file that holds the counts, if one is given.
    pub stats_file: Option<String>,
    /// Whether a line is written for each fault of the traffic.
    pub log: bool,
    /// How many bytes the file of events has at most, if that is said.
    pub record_bytes: Option<u64>,
    /// How many bytes of a receive buffer the socket asks for, if that is said.
    pub receive_buffer: Option<u64>,
    /// How many own names there are.
    pub names: usize,
    /// How many hosts are known.
    pub hosts: usize,
}

/// What the program is to do, by what its words ask for and the bytes of the configuration, if
/// there is one.
///
/// # Errors
/// `Config` for the first fault in the configuration, then `MapOption`.
pub fn read_plan(alloc: Global, wanted: Wanted, file: Option<&[u8]>) -> Result<Plan, Fault>
    ensures { Says (λ plan. plan) faults.OutOfMemory result
        (spec.plan_of (words.seen wanted) (option_map (λ bytes. bytes.now) file.entry)) }
{
    let Wanted {
        local,
        next,
        names,
        mut settings,
    } = wanted;
    let config = config_of(alloc, file)?;
    let config = with_names(config, names);
    let config = with_map(alloc, config, &settings.map)?;
    let routes = routes_of(alloc, &config, next)?;
    Ok(Plan {
        local,
        limits: config.limits,
        routes,
        replay: settings.replay,
        first_id: settings.first_id,
        salt: settings.salt,
        turns: settings.turns,
        recording: settings.recording.take(),
        explain: settings.explain,
        stats: settings.stats,
        stats_file: settings.stats_file.take(),
        log: settings.log,
        record_bytes: settings.record_bytes,
        receive_buffer: settings.receive_buffer,
        names: config.names.len(),
        hosts: config.hosts.len(),
    })
}

/// The configuration in a file, or the default one if there is no file.
fn config_of(alloc: Global, file: Option<&[u8]>) -> Result<Config, Fault>
    ensures { Says view.seen faults.OutOfMemory result
        (spec.config_said (option_map (λ bytes. bytes.now) file.entry)) }
{
    match file {
        Some(text) => Ok(read_config(alloc, text)?),
        None => Ok(default_config(alloc)),
    }
}

/// The configuration without a file: the default limits, and no routes.
pub(crate) fn default_config(alloc: Global) -> Config
    ensures { view.seen result ≡ spec.no_config }
{
    Config {
        limits: Limits::new(LimitValues::default()).unwrap(),
        names: Vec::new(alloc),
        hosts: Vec::new(alloc),
        maps: Vec::new(alloc),
    }
}

/// A configuration with its own names replaced by these, if they are given.
fn with_names(config: Config, names: Option<Vec<String>>) -> Config
    ensures { view.seen result ≡ spec.with_names (view.seen config) (option_map bytes_of names) }
{
    match names {
        Some(names) => Config { names, ..config },
        None => config,
    }
}

/// A configuration with one more map after its own, if one is given.
fn with_map(alloc: Global, config: Config, map: &Option<String>) -> Result<Config, Fault>
    ensures { Says view.seen faults.OutOfMemory result
        (spec.with_map (view.seen config) (option_map string_bytes map.now)) }
{
    let Some(text) = map else {
        return Ok(config);
    };
    let map = parse_map_option(alloc, text.as_str())?;
    add_map(config, map)
}

/// A configuration with this map after its own.
fn add_map(config: Config, map: (String, String)) -> Result<Config, Fault>
    ensures { Says view.seen faults.OutOfMemory result
        (Ok (spec.add_map (view.seen config) (pair_of map))) }
{
    let mut config = config;
    match config.maps.push(map) {
        Ok(()) => Ok(config),
        Err(_) => Err(Fault::OutOfMemory),
    }
}

/// The routes of a configuration. Those of its file were checked before, and the names in `-P` are
/// valid; so if the texts don't make up routes, the map option is at fault.
fn routes_of(alloc: Global, config: &Config, next: Option<Endpoint>) -> Result<Routes, Fault>
    ensures { Says (λ routes. routes) faults.OutOfMemory result
        (spec.routes_said next (view.seen config.now)) }
{
    match Routes::new(
        alloc,
        config.names.as_slice(),
        config.hosts.as_slice(),
        config.maps.as_slice(),
        next,
    ) {
        Ok(routes) => Ok(routes),
        Err(RouteError::OutOfMemory) => Err(Fault::OutOfMemory),
        Err(_) => Err(Fault::MapOption),
    }
}
