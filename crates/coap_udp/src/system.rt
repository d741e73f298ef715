//! What a port asks of the system: a socket, a wait for its arrivals, a clock and a generator.
use std::io;
use std::net::SocketAddr;

/// A socket, a wait for its arrivals, a clock and a generator.
///
/// An implementation states in its relations what its calls do, as far as that is known: one in
/// memory states it exactly, the operating system can't. Each call leads from one state to the
/// next, so that what a port does is said by which calls it makes, and in which order.
pub trait System {
    ghost use Rattle.std.specs.Prelude.{◌≤◌, ◌^◌, ⊤, ℕ, Bool, List, Option, Result, length, IfOk, IfSome};
    ghost use Rattle.std.specs.Counts.{IsPrefixLen};
    ghost use Rattle.std.specs.declared.io.ErrorKind.{ErrorKind};
    ghost use Rattle.std.specs.declared.net.socket_addr.SocketAddr.{SocketAddr};
    ghost use Rattle.coap_udp.specs.Systems.{kind_of, read_of};

    // its calls were made to wait, or not to
    ghost sets: { Self → Bool → Result ⊤ ErrorKind → Self → Type 0 };

    // it read this into this much room
    ghost receives: { Self → ℕ → Result (List ℕ × SocketAddr) ErrorKind → Self → Type 0 };

    // it waited for an arrival, at most this many milliseconds, and saw one, or none
    ghost awaits: { Self → ℕ → Result Bool ErrorKind → Self → Type 0 };

    // it was handed these bytes for this address
    ghost sends: { Self → List ℕ → SocketAddr → Result ℕ ErrorKind → Self → Type 0 };

    // its clock showed this many milliseconds, or nothing
    ghost shows: { Self → Option ℕ → Self → Type 0 };

    // it drew this number
    ghost draws: { Self → ℕ → Self → Type 0 };

    /// Makes the calls of the socket wait, or not. If they do, `receive` waits for a few
    /// milliseconds, and `send` at most 50 ms until there is room to send. A new socket waits.
    fn set_waits(&mut self, waits: bool) -> io::Result<()>
        ensures { sets self.old waits (kind_of result) self.new };

    /// Reads a datagram.
    fn receive(&mut self, into: &mut [u8]) -> io::Result<(usize, SocketAddr)>
        ensures receives { receives self.old (length into.old) (read_of result into.new) self.new }
        ensures prefix { IfOk result (λ r. IsPrefixLen r.0 into.new) };

    /// Waits until a datagram is there, or for this many milliseconds, or less. Returns whether one
    /// is there.
    fn await_arrival(&mut self, millis: u64) -> io::Result<bool>
        ensures { awaits self.old millis (kind_of result) self.new };

    /// Sends a datagram.
    fn send(&mut self, bytes: &[u8], to: SocketAddr) -> io::Result<usize>
        ensures { sends self.old bytes.now to (kind_of result) self.new };

    /// The milliseconds since it was made, if the clock can be read.
    fn millis(&mut self) -> Option<u64>
        ensures shows { shows self.old result self.new }
        ensures moment { IfSome result (λ now. now ≤ 2 ^ 62) };

    /// A random number.
    fn random(&mut self) -> u32
        ensures { draws self.old result self.new };
}
