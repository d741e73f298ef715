//! What the values mean that the system gives, and how long a port waits.
ghost use Rattle.std.specs.Prelude.{◌≡◌, ◌≤◌, ◌^◌};
ghost use Rattle.coap_udp.specs.Values as spec;

use crate::failing::is_transient;
use coap_endpoint::Endpoint;
use coap_message::{LAST_MOMENT, MOST_JITTER, Moment};
use coap_port::PortFault;
use std::io;
use std::time::Instant;

/// The shortest wait for which the read itself waits, in milliseconds.
const SHORTEST_BLOCKING_WAIT: u64 = 8;

/// How long a read that waits takes at least, if nothing comes, in milliseconds: what the socket is
/// told. Systems count such a wait in steps of their own, often of four milliseconds, and round it
/// up.
pub(crate) const READ_WAIT: u64 = 4;

/// The draw that a random number gives, in milliseconds.
pub(crate) fn draw_of(number: u32) -> u16
    ensures exact { result ≡ spec.draw_of number }
    ensures draw { result ≤ 1000 }
{
    (number % (u32::from(MOST_JITTER) + 1)) as u16
}

/// The milliseconds from an instant to a later one, at most 2^62.
pub(crate) fn millis_between(start: Instant, now: Instant) -> u64
    ensures exact { result ≡ spec.millis_between start now }
    ensures moment { result ≤ 2 ^ 62 }
{
    let millis = now.duration_since(start).as_millis();
    u64::try_from(millis)
        .unwrap_or(LAST_MOMENT)
        .min(LAST_MOMENT)
}

/// The moment after `last`, given what the clock shows, if it can be read.
pub(crate) fn moment_after(last: Moment, shown: Option<Moment>) -> Moment
    requires { last ≤ 2 ^ 62 }
    ensures exact { result ≡ spec.moment_after last shown }
    ensures onward { last ≤ result }
{
    match shown {
        Some(now) => now.max(last),
        None => last,
    }
}

/// What a read means: the source of a datagram, no datagram if the error is transient, or the end
/// of the port.
pub(crate) fn turn_of_read(read: io::Result<Endpoint>) -> Result<Option<Endpoint>, PortFault>
    ensures { result ≡ spec.turn_of_read read }
{
    match read {
        Ok(from) => Ok(Some(from)),
        Err(error) if is_transient(error.kind()) => Ok(None),
        Err(_) => Err(PortFault),
    }
}

/// Whether the read itself waits.
pub(crate) fn read_waits(wait: u64) -> bool
    ensures { result ≡ spec.read_waits wait }
{
    wait >= SHORTEST_BLOCKING_WAIT
}

/// For how long a port waits after a read that gave nothing; `handed` says whether anything was
/// handed over since the last read.
pub(crate) fn rest_of(wait: u64, handed: bool) -> u64
    ensures { result ≡ spec.rest_of wait handed }
{
    if read_waits(wait) {
        wait - READ_WAIT
    } else if wait > 1 || !handed {
        wait
    } else {
        0
    }
}
