//! One run: what the program does with it.

use crate::lines::{config_of, words_in, words_of};
use coap_cache::Store;
use coap_proxyd::{Fault, Output, Plan, Server, read_plan, read_wanted};
use std::alloc::Global;
use std::io;
use std::io::{ErrorKind, Write};

/// What the program is to do by these words, and a configuration, if there is one.
fn plan_of(alloc: Global, words: &[String], config: Option<&[u8]>) -> Result<Plan, Fault> {
    let wanted = read_wanted(alloc, words)?;
    read_plan(alloc, wanted, config)
}

/// What the program is to do by the words and the configuration of a run.
///
/// # Errors
/// `InvalidData` if no line of the run begins with `# words:`.
pub(crate) fn planned(alloc: Global, events: &[u8]) -> io::Result<Result<Plan, Fault>> {
    let Some(words) = events.split(|byte| *byte == b'\n').find_map(words_of) else {
        return Err(io::Error::from(ErrorKind::InvalidData));
    };
    let words = words_in(alloc, words)?;
    let config = config_of(alloc, events)?;
    Ok(plan_of(alloc, &words, config.as_deref()))
}

/// Runs the program with the words, the configuration and the events of a run, over a store that is
/// made from this seed.
fn serve_run<W: Write, S: Store + Drop>(
    alloc: Global,
    seed: S::Seed,
    events: &[u8],
    output: &mut W,
) -> io::Result<Result<(), Fault>>
where
    S::Seed: Drop,
{
    match planned(alloc, events)? {
        Ok(plan) => {
            let server = Server::<S>::new(alloc, seed, plan);
            Ok(server.serve_events(events, &mut Output::new(output)))
        }
        Err(fault) => Ok(Err(fault)),
    }
}

/// Writes the status and the text with which the program would stop.
fn write_fault<W: Write>(output: &mut W, fault: Fault) -> io::Result<()> {
    let status = fault.status();
    writeln!(output, "status {status}: {fault}")
}

/// Writes what the program writes for the words and the events of a run over a store that is made
/// from this seed, and the fault with which it stops, if there is one.
///
/// # Errors
/// `InvalidData` if no line of the run begins with `# words:`.
pub(crate) fn play<W: Write, S: Store + Drop>(
    alloc: Global,
    seed: S::Seed,
    events: &[u8],
    output: &mut W,
) -> io::Result<()>
where
    S::Seed: Drop,
{
    match serve_run::<_, S>(alloc, seed, events, output)? {
        Ok(()) => Ok(()),
        Err(fault) => write_fault(output, fault),
    }
}
