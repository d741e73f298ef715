//! What the program logs while it serves a socket: that it listens, and what goes wrong.

use coap_core::LimitValues;
use coap_explain::Logger;
use coap_log::Line;
use coap_proxyd::{Fault, Journal, Plan, VERSION};
use std::io;
use std::io::{IsTerminal, Write};

/// Where the program listens, and what the system gave it for that.
#[derive(Drop)]
pub(crate) struct Listening {
    /// An address with a port.
    pub(crate) place: String,
    /// How many bytes the receive buffer has, if the system says that.
    pub(crate) receive_buffer: Option<u64>,
}

/// The room for the line that says that it listens, in bytes.
const ROOM: usize = 512;

/// Whether a client may take as much as all clients share, as in version 1 of a configuration.
fn shares_all(limits: &LimitValues) -> bool {
    limits.client_con_records == limits.con_records
        && limits.client_non_records == limits.non_records
        && limits.client_exchanges == limits.exchanges
        && limits.client_waiters == limits.waiters
}

/// Adds a key, and a number.
fn put_number(line: &mut Line, key: &str, number: u64) -> io::Result<()> {
    line.key(key);
    write!(line, "{number}")
}

/// Adds where the program listens, and what it was started with.
fn put_listening(line: &mut Line, plan: &Plan, listening: &Listening) -> io::Result<()> {
    line.begin("listening");
    line.key("version");
    line.write_all(VERSION.as_bytes())?;
    line.key("listen");
    line.write_all(listening.place.as_bytes())?;
    put_number(line, "maps", plan.routes.maps().len() as u64)?;
    put_number(line, "names", plan.names as u64)?;
    put_number(line, "hosts", plan.hosts as u64)?;
    let version = if shares_all(plan.limits.values()) {
        1
    } else {
        2
    };
    put_number(line, "limits", version)?;
    if let Some(bytes) = listening.receive_buffer {
        put_number(line, "receive_buffer", bytes)?;
    }
    line.end();
    Ok(())
}

/// Says that the program listens, if a log is asked for, and to somebody at a terminal.
pub(crate) fn tell_listening(
    rt: &HostRuntime,
    plan: &Plan,
    listening: &Listening,
) -> Result<(), Fault> {
    if !plan.log && !rt.stderr().is_terminal() {
        return Ok(());
    }
    let Ok(mut line) = Line::new(rt.alloc(), ROOM) else {
        return Err(Fault::OutOfMemory);
    };
    if put_listening(&mut line, plan, listening).is_ok() {
        // Where standard error can't be written, nothing can be said either.
        let _ = rt.stderr().write_all(line.bytes());
    }
    Ok(())
}

/// The log of a plan, if it asks for one.
pub(crate) fn logger_of<'a>(
    rt: &'a HostRuntime,
    plan: &Plan,
) -> Result<Option<Logger<Journal<'a>>>, Fault> {
    if !plan.log {
        return Ok(None);
    }
    let Ok(journal) = Journal::new(rt) else {
        return Err(Fault::Socket);
    };
    match Logger::new(rt.alloc(), journal, plan.limits.values()) {
        Ok(logger) => Ok(Some(logger)),
        Err(_) => Err(Fault::OutOfMemory),
    }
}
