//! Ports.
use crate::error::PortFault;
use coap_endpoint::Endpoint;
use coap_message::{Datagram, Moment};

/// What a port gives: a moment, a draw, and the source of the datagram that it put into the buffer;
/// no source for a tick.
#[derive(Clone, Copy, Debug, PartialEq, Eq)]
pub struct Turn {
    /// In milliseconds.
    pub now: Moment,
    /// A random number of milliseconds.
    pub draw: u16,
    pub from: Option<Endpoint>,
}

/// Where datagrams come from and go to, and a clock.
///
/// An implementation states in `gives` and `takes` what its calls do, as far as that is known: a
/// port in memory states it exactly, a socket can't. It holds its last moment (`clock`, in
/// milliseconds, 0 at first) and how often `next` failed (`failures`).
pub trait Port {
    ghost use Rattle.std.specs.Prelude.{◌≡◌, ◌<◌, ◌+◌, ◌^◌, ℕ, List, Bool, None, IfOk, OnOk, OnErr};
    ghost use Rattle.coap_model.specs.Runs.{Turn};
    ghost use Rattle.coap_endpoint.specs.declared.endpoint.Endpoint.{Endpoint};
    ghost use Rattle.coap_port.specs.Given.{IsOnward, given_by};

    ghost clock: { Self → ℕ };

    ghost failures: { Self → ℕ };

    // a port that was asked to wait this many milliseconds gave this turn into a buffer with this
    // much room, and was left in this state
    ghost gives: { ℕ → Self → ℕ → Turn → Self → Type 0 };

    // the port was handed bytes for an endpoint, returned this, and was left in this state
    ghost takes: { Self → Endpoint → List ℕ → Bool → Self → Type 0 };

    /// The last moment that it gave, in milliseconds, or 0 before the first.
    fn last(&self) -> Moment
        ensures { result ≡ clock self.now };

    /// The next turn: a datagram if one comes within `wait` milliseconds, or else a tick. Without a
    /// wait it is a tick, and nothing is read. The datagram replaces what the buffer holds, cut to
    /// the buffer's room. So a buffer for a core has room for one byte more than the core's
    /// `datagram()`, as that of `drive` has: the core then sees that a datagram is too long.
    ///
    /// # Errors
    /// The port can't be used any more.
    fn next(&mut self, wait: u64, into: &mut Datagram) -> Result<Turn, PortFault>
        requires { failures self.old < 2 ^ 63 }
        ensures gives { IfOk result (λ turn.
            gives into.old.room self.old wait (given_by turn into.new.bytes) self.new) }
        ensures onward { IfOk result (IsOnward (clock self.old) (clock self.new)) }
        ensures ticks { wait ≡ 0 → IfOk result (λ turn. turn.from ≡ None) }
        ensures room { into.new.room ≡ into.old.room }
        ensures works { OnOk result (failures self.new ≡ failures self.old) }
        ensures fails { OnErr result (failures self.new ≡ failures self.old + 1) };

    /// Hands over bytes for an endpoint. Returns whether they were taken.
    fn send(&mut self, to: Endpoint, bytes: &[u8]) -> bool
        ensures takes { takes self.old to bytes.now result self.new }
        ensures clock { clock self.new ≡ clock self.old }
        ensures failures { failures self.new ≡ failures self.old };
}
