//! Why the program stops: a fault, and what it comes from.

use coap_proxyd::{Fault, Settings, cause_of, read_words};
use std::io::{ErrorKind, IsTerminal};
use std::{env, io};

/// A fault, with what it comes from, if the system, the words or the configuration say that.
#[derive(Drop)]
pub(crate) struct Stop {
    pub(crate) fault: Fault,
    pub(crate) cause: Option<String>,
}

impl From<Fault> for Stop {
    fn from(fault: Fault) -> Stop {
        Stop { fault, cause: None }
    }
}

/// The words after the program's name.
pub(crate) fn words(rt: &HostRuntime) -> Result<Vec<String>, Fault> {
    let all = match env::args(rt) {
        Ok(all) => all,
        Err(error) => return Err(fault_of(&error, Fault::Arguments)),
    };
    all.skip(1)
        .collect(rt.alloc())
        .map_err(|_| Fault::OutOfMemory)
}

/// The fault for a system error: `OutOfMemory` if memory ran out, otherwise `other`.
pub(crate) fn fault_of(error: &io::Error, other: Fault) -> Fault {
    if error.kind() == ErrorKind::OutOfMemory {
        Fault::OutOfMemory
    } else {
        other
    }
}

impl Stop {
    /// A fault that the system is the cause of: what it was about, and what the system said.
    pub(crate) fn by_system(rt: &HostRuntime, what: &str, error: &io::Error, other: Fault) -> Stop {
        Stop {
            fault: fault_of(error, other),
            cause: format!(in rt.alloc(); "{what}: {error}").ok(),
        }
    }

    /// A fault of the words, or of this configuration.
    pub(crate) fn by_words(rt: &HostRuntime, fault: Fault, file: Option<&[u8]>) -> Stop {
        let cause = match settings(rt) {
            Some(settings) => cause_of(rt.alloc(), &fault, &settings, file),
            None => None,
        };
        Stop { fault, cause }
    }
}

/// The settings in the words, if these are accepted.
fn settings(rt: &HostRuntime) -> Option<Settings> {
    let words = words(rt).ok()?;
    read_words(rt.alloc(), &words).ok()
}

/// Whether the words ask for a log.
fn asks_for_log(rt: &HostRuntime) -> bool {
    match settings(rt) {
        Some(settings) => settings.log,
        None => false,
    }
}

/// Whether more than the fault is said: to somebody at a terminal, and in a log.
fn is_told_more(rt: &HostRuntime) -> bool {
    rt.stderr().is_terminal() || asks_for_log(rt)
}

/// Prints a fault on standard error, and the help and the version on standard output.
fn tell(rt: &HostRuntime, fault: &Fault) -> io::Result<()> {
    match fault {
        Fault::Usage { status: 0, text } => print!(rt; "{text}"),
        Fault::Usage { text, .. } => eprint!(rt; "{text}"),
        fault => eprintln!(rt; "{fault}"),
    }
}

/// Prints why the program stops, and returns the exit status. Help or a version that can't be
/// written is a fault too.
pub(crate) fn ended(rt: &HostRuntime, stop: &Stop) -> u8 {
    let told = tell(rt, &stop.fault);
    if told.is_err() && stop.fault.status() == 0 {
        let _ = tell(rt, &Fault::File);
        return Fault::File.status();
    }
    if let Some(cause) = &stop.cause {
        if is_told_more(rt) {
            let _ = eprintln!(rt; "cause: {cause}");
        }
    }
    stop.fault.status()
}
