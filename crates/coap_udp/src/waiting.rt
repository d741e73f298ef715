//! Reads and sends that wait.
ghost use Rattle.std.specs.Prelude.{◌≡◌, IfOk, length};
ghost use Rattle.std.specs.Counts.{IsPrefixLen};
ghost use Rattle.coap_udp.specs.Systems as spec;

use crate::system::System;
use std::io;
use std::io::ErrorKind;
use std::net::SocketAddr;

/// Whether nothing was there, or there was no room.
fn would_block<T>(answer: &io::Result<T>) -> bool
    ensures { result ≡ spec.would_block answer.now }
{
    match answer {
        Ok(_) => false,
        Err(error) => matches!(error.kind(), ErrorKind::WouldBlock),
    }
}

/// Reads a datagram. If nothing was there, waits for one for at most `rest` milliseconds, and reads
/// once more if one came.
fn read<S: System>(system: &mut S, into: &mut [u8], rest: u64) -> io::Result<(usize, SocketAddr)>
    ensures reads { spec.Reads S.receives S.awaits system.old (length into.old) rest
        (spec.read_of result into.new) system.new }
    ensures prefix { IfOk result (λ r. IsPrefixLen r.0 into.new) }
{
    let first = system.receive(into);
    if rest == 0 || !would_block(&first) {
        return first;
    }
    if !system.await_arrival(rest)? {
        return first;
    }
    system.receive(into)
}

/// Makes the calls of a socket wait, or not, if they don't do so already.
fn set<S: System>(system: &mut S, waiting: &mut bool, waits: bool) -> io::Result<()>
    ensures { spec.Sets S.sets system.old waiting.old waits (spec.kind_of result) system.new
        waiting.new }
{
    if *waiting != waits {
        system.set_waits(waits)?;
        *waiting = waits;
    }
    Ok(())
}

/// Reads a datagram from a socket that is made to wait before, or not to. If nothing was there,
/// waits for one for at most `rest` milliseconds, and reads once more if one came.
pub(crate) fn read_by<S: System>(
    system: &mut S,
    waiting: &mut bool,
    waits: bool,
    into: &mut [u8],
    rest: u64,
) -> io::Result<(usize, SocketAddr)>
    ensures reads { spec.ReadsBy S.sets S.receives S.awaits system.old waiting.old waits
        (length into.old) rest (spec.read_of result into.new) system.new waiting.new }
    ensures prefix { IfOk result (λ r. IsPrefixLen r.0 into.new) }
{
    set(system, waiting, waits)?;
    read(system, into, rest)
}

/// Sends a datagram. If there was no room for it, and the socket didn't wait for any, makes it wait
/// and sends it once more.
fn send<S: System>(
    system: &mut S,
    waiting: &mut bool,
    bytes: &[u8],
    to: SocketAddr,
) -> io::Result<usize>
    ensures { spec.Sends S.sets S.sends system.old waiting.old bytes.now to (spec.kind_of result)
        system.new waiting.new }
{
    let first = system.send(bytes, to);
    if *waiting || !would_block(&first) {
        return first;
    }
    set(system, waiting, true)?;
    system.send(bytes, to)
}

/// Sends a datagram; see `send`. Returns whether all of it went.
pub(crate) fn send_whole<S: System>(
    system: &mut S,
    waiting: &mut bool,
    bytes: &[u8],
    to: SocketAddr,
) -> bool
    ensures { spec.SendsWhole S.sets S.sends system.old waiting.old bytes.now to result system.new
        waiting.new }
{
    match send(system, waiting, bytes, to) {
        Ok(count) => count == bytes.len(),
        Err(_) => false,
    }
}
