//! The program: a proxy over a socket, or a replay of recorded events.
#![tactic(auto)]

ghost use Rattle.std.specs.Prelude.{◌<◌, ◌^◌};

mod logging;
mod recorded;
mod reporter;
mod stop;

use crate::logging::{Listening, logger_of, tell_listening};
use crate::recorded::{file_of, head_of, since_of};
use crate::reporter::Reporter;
use crate::stop::{Stop, ended, fault_of, words};
use coap_cache::LruStore;
use coap_endpoint::Endpoint;
use coap_explain::Explainer;
use coap_proxyd::{
    Both, Fault, Output, Plan, Port, Recording, Server, Start, read_plan, read_wanted,
};
use coap_stats::socket_of;
use coap_udp::UdpPort;
use std::hash::RandomState;
use std::io::{BufReader, Read};
use std::process::ExitCode;
use std::random::RandomSource;
use std::{fs, io};

/// The bytes of a file, if one is named.
fn file(rt: &HostRuntime, path: &Option<String>) -> Result<Option<Vec<u8>>, Stop> {
    let Some(path) = path else {
        return Ok(None);
    };
    match fs::read(rt, path.as_str()) {
        Ok(bytes) => Ok(Some(bytes)),
        Err(error) => Err(Stop::by_system(rt, path.as_str(), &error, Fault::File)),
    }
}

/// The bytes of the configuration, if the words name one. It is read once: it may be a pipe, and it
/// may be replaced while the program starts.
fn config(rt: &HostRuntime) -> Result<Option<Vec<u8>>, Stop> {
    match read_wanted(rt.alloc(), &words(rt)?) {
        Ok(wanted) => file(rt, &wanted.settings.config),
        Err(fault) => Err(Stop::by_words(rt, fault, None)),
    }
}

/// What the program is to do by its words and this configuration.
fn plan(rt: &HostRuntime, config: Option<&[u8]>) -> Result<Plan, Stop> {
    let planned = match read_wanted(rt.alloc(), &words(rt)?) {
        Ok(wanted) => read_plan(rt.alloc(), wanted, config),
        Err(fault) => Err(fault),
    };
    planned.map_err(|fault| Stop::by_words(rt, fault, config))
}

/// A random first Message ID and a random salt: one that `--salt` can give, too, so below 2^63.
fn random_start(rt: &HostRuntime) -> Result<Start, Fault> {
    let (mut id, mut salt) = ([0; 2], [0; 8]);
    match rt
        .fill_bytes(&mut id)
        .and_then(|()| rt.fill_bytes(&mut salt))
    {
        Ok(()) => Ok(Start {
            first_id: u16::from_le_bytes(id),
            salt: u64::from_le_bytes(salt) >> 1,
        }),
        Err(_) => Err(Fault::Socket),
    }
}

/// The program's cache: a recency map, whose hashes outsiders can't predict.
type Cache = LruStore<RandomState>;

/// The seed of the cache: random bytes from the system, which are read like a file.
fn seed(rt: &HostRuntime) -> Result<RandomState, Fault> {
    RandomState::new(rt).map_err(|error| fault_of(&error, Fault::File))
}

/// What is served: what is asked for, how the core starts, and where the program listens.
#[derive(Drop)]
struct Service {
    plan: Plan,
    start: Start,
    listening: Listening,
}

/// An endpoint as a text, with an IPv6 address in brackets.
fn text_of(rt: &HostRuntime, local: Endpoint) -> Result<String, Fault> {
    let socket = socket_of(local);
    format!(in rt.alloc(); "{socket}").map_err(|_| Fault::OutOfMemory)
}

/// Serves a socket, for which it asks for a receive buffer first.
fn serve_socket(rt: &HostRuntime, plan: Plan, config: Option<&[u8]>) -> Result<(), Stop> {
    let start = random_start(rt)?;
    let place = text_of(rt, plan.local)?;
    let mut port = match UdpPort::bind(rt, rt.alloc(), plan.local) {
        Ok(port) => port,
        Err(error) => return Err(Stop::by_system(rt, place.as_str(), &error, Fault::Socket)),
    };
    let receive_buffer = port.ask_for_buffer(plan.receive_buffer);
    let listening = Listening {
        place,
        receive_buffer,
    };
    tell_listening(rt, &plan, &listening)?;
    let is_recorded = plan.recording.is_some();
    let service = Service {
        plan,
        start,
        listening,
    };
    if is_recorded {
        record(rt, service, config, port)
    } else {
        serve(rt, service, &mut port)
    }
}

/// Serves a port, and records its turns.
fn record<P: Port + Drop>(
    rt: &HostRuntime,
    service: Service,
    config: Option<&[u8]>,
    port: P,
) -> Result<(), Stop>
    requires failures { P.failures port < 2 ^ 63 }
{
    let plan = &service.plan;
    let start = Start {
        first_id: plan.first_id.unwrap_or(service.start.first_id),
        salt: plan.salt.unwrap_or(service.start.salt),
    };
    let file = file_of(rt, plan, config, start)?;
    let Ok(mut recording) = Recording::new(rt.alloc(), port, file) else {
        return Err(Stop::from(Fault::OutOfMemory));
    };
    let served = serve(rt, Service { start, ..service }, &mut recording);
    recording.finish();
    served
}

/// Serves a port. If counts or a log are asked for, writes them meanwhile, and counts at the end.
fn serve<P: Port>(rt: &HostRuntime, service: Service, port: &mut P) -> Result<(), Stop>
    requires failures { P.failures port.old < 2 ^ 63 }
{
    let Service {
        plan,
        start,
        listening,
    } = service;
    let seed = seed(rt)?;
    let reporter = Reporter::of(rt, &plan, listening)?;
    let logger = logger_of(rt, &plan)?;
    let server = Server::<Cache>::new(rt.alloc(), seed, plan);
    if reporter.is_none() && logger.is_none() {
        return Ok(server.serve_port(start, port)?);
    }
    let mut watchers = Both {
        first: reporter,
        second: logger,
    };
    let stats = server.serve_watched(start, port, &mut watchers)?;
    if let Some(reporter) = &mut watchers.first {
        reporter.report(&stats);
    }
    Ok(())
}

/// Replays standard input.
fn replay(rt: &HostRuntime, plan: Plan) -> Result<(), Stop> {
    let server = Server::<Cache>::new(rt.alloc(), seed(rt)?, plan);
    let mut output = Output::new(io::writer(rt));
    Ok(server.serve_events(rt.reader(), &mut output)?)
}

/// Replays standard input, and says after each event what it did, with the time of day if a
/// recording says that.
fn explain(rt: &HostRuntime, plan: Plan) -> Result<(), Stop> {
    let (alloc, seed) = (rt.alloc(), seed(rt)?);
    let Ok(mut explainer) = Explainer::new(alloc, io::writer(rt)) else {
        return Err(Stop::from(Fault::OutOfMemory));
    };
    let Ok(mut input) = BufReader::new(alloc, rt.reader()) else {
        return Err(Stop::from(Fault::OutOfMemory));
    };
    let head = head_of(alloc, &mut input).map_err(|error| fault_of(&error, Fault::File))?;
    explainer.set_since(since_of(&head));
    let mut output = Output::new(io::writer(rt));
    let server = Server::<Cache>::new(alloc, seed, plan);
    let input = head.as_slice().chain(input);
    server.serve_events_watched(input, &mut output, &mut explainer)?;
    if explainer.failed() {
        return Err(Stop::from(Fault::File));
    }
    Ok(())
}

/// Does what the words and the configuration ask for.
fn run(rt: &HostRuntime) -> Result<(), Stop> {
    let config = config(rt)?;
    let config = config.as_deref();
    let plan = plan(rt, config)?;
    if plan.explain {
        explain(rt, plan)
    } else if plan.replay {
        replay(rt, plan)
    } else {
        serve_socket(rt, plan, config)
    }
}

fn main(rt: HostRuntime) -> ExitCode {
    match run(&rt) {
        Ok(()) => ExitCode::SUCCESS,
        Err(stop) => ExitCode::from(ended(&rt, &stop)),
    }
}
