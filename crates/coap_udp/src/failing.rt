//! Which errors of a socket are transient.
ghost use Rattle.std.specs.Prelude.{◌≡◌};
ghost use Rattle.coap_udp.specs.Failing as spec;

use std::io::ErrorKind;

/// Whether a read that failed with this error says nothing about the next one: nothing came in
/// time, it was interrupted, an earlier datagram found no listener or no route, or the system ran
/// out of memory.
pub(crate) fn is_transient(kind: ErrorKind) -> bool
    ensures { result ≡ spec.is_transient kind }
{
    matches!(
        kind,
        ErrorKind::WouldBlock
            | ErrorKind::TimedOut
            | ErrorKind::Interrupted
            | ErrorKind::ConnectionRefused
            | ErrorKind::ConnectionReset
            | ErrorKind::ConnectionAborted
            | ErrorKind::HostUnreachable
            | ErrorKind::NetworkUnreachable
            | ErrorKind::NetworkDown
            | ErrorKind::OutOfMemory
    )
}
