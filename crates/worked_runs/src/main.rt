//! The worked runs. Each file `NAME.events` in the current folder is one, as `docs/REPLAY.md`
//! describes: the program's words, a configuration or none, events, and what must be written for
//! them. Each is played over both stores, and what is written is compared with that.
//!
//! For a run that doesn't agree with its file, the first line of the file that isn't met and what
//! is written in its place are printed, each with its datagram in words, for each store in which it
//! doesn't. A file that has no line of what must be written agrees with nothing. The last line says
//! how many runs agree in both stores. The status is 1 if not all do, or there are none. `cd data
//! && ../out/worked_runs` plays the runs in `data`.
//!
//! `worked_runs STORE NAME` is for a program to which memory is refused (`tools/refuse-memory`): it
//! plays the run `NAME.events` over the store `list` or `map`, gives an event that there was no
//! memory for again, and prints how the run ended. The status is 1 if it doesn't agree with its
//! file, and 3 if memory was refused before its first event.
#![tactic(auto)]

mod decoded;
mod expected;
mod files;
mod insist;
mod lines;
mod run;

use crate::insist::{Ending, insist};
use coap_cache::{ListStore, LruStore, Store};
use std::hash::RandomState;
use std::io::{ErrorKind, Write};
use std::process::ExitCode;
use std::{env, fs, io};

/// Plays the run of this file over a store that is made from this seed, and returns whether it
/// agrees with the file. If not, prints where, with the name of the store.
fn agrees<S: Store + Drop>(
    rt: &HostRuntime,
    seed: S::Seed,
    file: &str,
    store: &str,
    events: &[u8],
) -> io::Result<bool>
where
    S::Seed: Drop,
{
    let expected = expected::expected_of(rt.alloc(), events)?;
    let mut written = Vec::new(rt.alloc());
    run::play::<_, S>(rt.alloc(), seed, events, &mut written)?;
    let Some(first) = expected::first_difference(&expected, &written) else {
        return Ok(true);
    };
    let number = expected::number_of(events, first.before);
    let mut output = io::writer(rt);
    write!(output, "{file}:{number}, over {store}:\nexpected ")?;
    output.write_all(first.wanted)?;
    decoded::put_decoded(rt.alloc(), &mut output, first.wanted)?;
    output.write_all(b"written  ")?;
    output.write_all(first.came)?;
    decoded::put_decoded(rt.alloc(), &mut output, first.came)?;
    Ok(false)
}

/// Plays the run with this name, whose file is in the current folder, over a list and over a
/// recency map. Returns whether both write what is expected. Says so if the file says nothing of
/// it.
fn play(rt: &HostRuntime, name: &str) -> io::Result<bool> {
    let file = files::file_of(rt.alloc(), name)?;
    let file = file.as_str();
    let events = fs::read(rt, file)?;
    if !expected::is_said(&events) {
        println!(rt; "{file}: no line says what must be written")?;
        return Ok(false);
    }
    let seed = RandomState::new(rt)?;
    let listed = agrees::<ListStore>(rt, (), file, "a list", &events)?;
    let mapped = agrees::<LruStore<RandomState>>(rt, seed, file, "a recency map", &events)?;
    Ok(listed && mapped)
}

/// Plays all runs in the current folder.
fn play_all(rt: &HostRuntime) -> io::Result<ExitCode> {
    let names = files::run_names(rt, ".")?;
    let mut agreeing = 0;
    for name in names.iter() {
        if play(rt, name.as_str())? {
            agreeing += 1;
        }
    }
    println!(rt; "{agreeing} runs agree in both stores")?;
    Ok(if agreeing > 0 && agreeing == names.len() {
        ExitCode::SUCCESS
    } else {
        ExitCode::FAILURE
    })
}

/// Plays the run with this name over this store, with each event given again that there was no
/// memory for.
fn insisted(rt: &HostRuntime, store: &str, name: &str) -> io::Result<Ending> {
    let file = files::file_of(rt.alloc(), name)?;
    let events = fs::read(rt, file.as_str())?;
    if store == "list" {
        return insist::<ListStore>(rt.alloc(), (), &events);
    }
    insist::<LruStore<RandomState>>(rt.alloc(), RandomState::new(rt)?, &events)
}

/// Prints how such a run ended, and returns the status that goes with it.
fn said(rt: &HostRuntime, ended: io::Result<Ending>) -> io::Result<ExitCode> {
    match ended {
        Ok(Ending::Agrees { again: None }) => println!(rt; "agrees")?,
        Ok(Ending::Agrees { again: Some(line) }) => println!(rt; "line {line}: given again")?,
        Ok(Ending::NotStored { line }) => println!(rt; "line {line}: not stored")?,
        Ok(Ending::Differs { line, why }) => {
            println!(rt; "line {line}: {why}")?;
            return Ok(ExitCode::FAILURE);
        }
        Err(error) if error.kind() == ErrorKind::OutOfMemory => return Ok(ExitCode::from(3)),
        Err(error) => return Err(error),
    }
    Ok(ExitCode::SUCCESS)
}

fn main(rt: HostRuntime) -> io::Result<ExitCode> {
    let words: Vec<String> = env::args(&rt)?.skip(1).collect(rt.alloc())?;
    match words.as_slice() {
        [store, name] => said(&rt, insisted(&rt, store.as_str(), name.as_str())),
        _ => play_all(&rt),
    }
}
