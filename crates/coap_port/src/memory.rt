//! A port in memory.
ghost use Rattle.std.specs.Prelude.{◌≡◌, ◌<◌, ◌+◌, ◌^◌, ◌∷◌, ◌++◌, [], None, IfOk, IsOk, OnErr, OnOk};
ghost use Rattle.coap_port.specs.Given.{IsOnward, given_by};
ghost use Rattle.coap_port.specs.Memory as spec;

use crate::error::PortFault;
use crate::port::{Port, Turn};
use coap_endpoint::Endpoint;
use coap_message::{Datagram, LAST_MOMENT, MOST_JITTER, Moment, OutOfMemory, Seq};
use std::alloc::Global;
use std::collections::VecDeque;
use std::marker::Model;

/// A turn of a script: a moment, a draw, and a datagram with its source, or none for a tick.
#[derive(Drop)]
pub struct Scripted {
    /// In milliseconds.
    pub now: Moment,
    /// A random number of milliseconds.
    pub draw: u16,
    pub datagram: Option<(Endpoint, Seq<u8>)>,
}

/// Bytes that were handed to a port for an endpoint.
#[derive(Drop)]
pub struct Handed {
    pub to: Endpoint,
    pub bytes: Seq<u8>,
}

/// A port in memory, for tests. It gives the turns of its script, one for each call with a wait,
/// and fails after the last; a call without a wait gets a tick at the last moment. A moment before
/// the last one is raised to it, one beyond 2^62 is lowered to 2^62, and a draw above 1,000 to
/// 1,000. The port keeps what it is handed, and can refuse one datagram.
pub struct MemoryPort {
    alloc: Global,
    script: VecDeque<Scripted>,
    handed: Seq<Handed>,
    refused: Option<usize>,
    last: Moment,
    failures: u64,
}

impl Drop for MemoryPort {
    fn drop(self) {
        let MemoryPort {
            alloc: _,
            script: _,
            handed: _,
            refused: _,
            last: _,
            failures: _,
        } = self;
    }
}

impl Model for MemoryPort {
    ghost use Rattle.std.specs.Prelude.{◌≤◌, ◌^◌};
    ghost use Rattle.coap_port.specs.Memory.{Memory};

    ghost Value = { Memory };

    ghost view = { λ p.
        record {
          script = p.script.items;
          handed = p.handed;
          refused = p.refused;
          last = p.last;
          failures = p.failures;
        } };

    ghost invariant = { λ p. p.last ≤ 2 ^ 62 };
}

impl MemoryPort {
    ghost use Rattle.coap_port.specs.Memory.{new_port};

    /// A port with an empty script. With `Some(n)` it refuses the datagram that comes after `n`
    /// others.
    pub fn new(alloc: Global, refused: Option<usize>) -> MemoryPort
        ensures { result ≡ new_port refused }
    {
        MemoryPort {
            alloc,
            script: VecDeque::new(alloc),
            handed: Seq::new(alloc),
            refused,
            last: 0,
            failures: 0,
        }
    }

    /// Adds a turn at the end of its script.
    ///
    /// # Errors
    /// Out of memory, in which case nothing changes.
    pub fn add(&mut self, turn: Scripted) -> Result<(), OutOfMemory>
        ensures ok { OnOk result (self.new
            ≡ record self.old { script = self.old.script ++ turn ∷ [] }) }
        ensures err { OnErr result (self.new ≡ self.old) }
    {
        self.script.push_back(turn)?;
        Ok(())
    }

    /// What it was handed, in order.
    pub fn handed(&self) -> &[Handed]
        ensures { result.now ≡ self.now.handed }
    {
        self.handed.as_slice()
    }

    /// How often `next` failed.
    pub fn failures(&self) -> u64
        ensures { result ≡ self.now.failures }
    {
        self.failures
    }
}

/// The turn for an entry of a script, if `last` is the last moment. Its datagram is put into the
/// buffer, which is empty.
fn turn_of(scripted: Scripted, last: Moment, into: &mut Datagram) -> Turn
    requires { into.old.bytes ≡ [] }
    ensures turn { given_by result into.new.bytes ≡ spec.turn_of into.old.room last scripted }
    ensures room { into.new.room ≡ into.old.room }
{
    let now = scripted.now.min(LAST_MOMENT).max(last);
    let draw = scripted.draw.min(MOST_JITTER);
    let from = match scripted.datagram {
        Some((from, bytes)) => {
            into.put(bytes.as_slice());
            Some(from)
        }
        None => None,
    };
    Turn { now, draw, from }
}

impl Port for MemoryPort {
    ghost use Rattle.coap_port.specs.Memory.{Gives, Takes};

    ghost clock = { λ p. p.last };

    ghost failures = { λ p. p.failures };

    ghost gives = { Gives };

    ghost takes = { Takes };

    fn last(&self) -> Moment {
        self.last
    }

    /// The next turn of the script, or a tick without a wait; see the trait.
    ///
    /// # Errors
    /// No turn of the script is left, which a call without a wait doesn't ask for. The failure is
    /// counted, and nothing else changes.
    fn next(&mut self, wait: u64, into: &mut Datagram) -> Result<Turn, PortFault>
        requires { self.old.failures < 2 ^ 63 }
        ensures gives { IfOk result (λ turn.
            Gives into.old.room self.old wait (given_by turn into.new.bytes) self.new) }
        ensures onward { IfOk result (IsOnward self.old.last self.new.last) }
        ensures ticks { wait ≡ 0 → IfOk result (λ turn. turn.from ≡ None) }
        ensures lasts { wait ≡ 0 → IsOk result }
        ensures room { into.new.room ≡ into.old.room }
        ensures works { OnOk result (self.new.failures ≡ self.old.failures) }
        ensures fails { OnErr result
            (self.new ≡ record self.old { failures = self.old.failures + 1 }) }
        ensures ended { OnErr result (self.old.script ≡ []) }
    {
        into.clear();
        if wait == 0 {
            return Ok(Turn {
                now: self.last,
                draw: 0,
                from: None,
            });
        }
        let Some(scripted) = self.script.pop_front() else {
            self.failures += 1;
            return Err(PortFault);
        };
        let turn = turn_of(scripted, self.last, into);
        self.last = turn.now;
        Ok(turn)
    }

    fn send(&mut self, to: Endpoint, bytes: &[u8]) -> bool {
        if self.refused == Some(self.handed.len()) {
            self.refused = None;
            return false;
        }
        match Seq::from_slice(self.alloc, bytes) {
            Ok(bytes) => self.handed.push(Handed { to, bytes }).is_ok(),
            Err(_) => false,
        }
    }
}
