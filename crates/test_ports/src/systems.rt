//! A system in memory.
ghost use Rattle.std.specs.Prelude.{◌≡◌, [], IfErr, OnErr, OnOk, length, min, take};
ghost use Rattle.std.specs.Counts.{IsPrefixLen};
ghost use Rattle.std.specs.IoError.{error_kind};
ghost use Rattle.test_ports.specs.Systems.{noted};

use coap_message::{LAST_MOMENT, Seq};
use coap_udp::System;
use std::alloc::Global;
use std::collections::VecDeque;
use std::io;
use std::io::ErrorKind;
use std::marker::Model;
use std::net::SocketAddr;

/// A call of a system, with what it was asked.
#[derive(Drop)]
pub enum Call {
    Sets(bool),
    Receives(usize),
    Awaits(u64),
    Sends(Seq<u8>, SocketAddr),
    Shows,
    Draws,
}

/// What a read gives: a datagram with its source, or an error.
pub type Read = Result<(Seq<u8>, SocketAddr), ErrorKind>;

/// What a system in memory answers to its calls, those of each kind in order. After the last of
/// them nothing is there and nothing comes, all that is sent goes, the clock can't be read, and
/// draws are 0.
pub struct Script {
    pub reads: VecDeque<Read>,
    /// Whether a datagram is there after a wait.
    pub arrivals: VecDeque<bool>,
    pub sends: VecDeque<Result<(), ErrorKind>>,
    /// In milliseconds.
    pub moments: VecDeque<u64>,
    pub draws: VecDeque<u32>,
}

impl Drop for Script {
    fn drop(self) {
        let Script {
            reads: _,
            arrivals: _,
            sends: _,
            moments: _,
            draws: _,
        } = self;
    }
}

impl Script {
    /// A script without answers.
    pub fn new(alloc: Global) -> Script
        ensures reads { result.reads.items ≡ [] }
        ensures arrivals { result.arrivals.items ≡ [] }
        ensures sends { result.sends.items ≡ [] }
        ensures moments { result.moments.items ≡ [] }
        ensures draws { result.draws.items ≡ [] }
    {
        Script {
            reads: VecDeque::new(alloc),
            arrivals: VecDeque::new(alloc),
            sends: VecDeque::new(alloc),
            moments: VecDeque::new(alloc),
            draws: VecDeque::new(alloc),
        }
    }
}

/// A system that answers as its script says, and notes its calls.
pub struct MemorySystem {
    alloc: Global,
    script: Script,
    calls: Seq<Call>,
}

impl Drop for MemorySystem {
    fn drop(self) {
        let MemorySystem {
            alloc: _,
            script: _,
            calls: _,
        } = self;
    }
}

impl Model for MemorySystem {
    ghost use Rattle.test_ports.specs.Systems as spec;

    ghost Value = { spec.System };

    ghost view = { λ s.
        record {
          reads = s.script.reads.items;
          arrivals = s.script.arrivals.items;
          sends = s.script.sends.items;
          moments = s.script.moments.items;
          draws = s.script.draws.items;
          calls = s.calls;
        } };
}

impl MemorySystem {
    /// A system with a script.
    pub fn new(alloc: Global, script: Script) -> MemorySystem
        ensures { result
            ≡ record {
              reads = script.reads.items;
              arrivals = script.arrivals.items;
              sends = script.sends.items;
              moments = script.moments.items;
              draws = script.draws.items;
              calls = [];
            } }
    {
        MemorySystem {
            alloc,
            script,
            calls: Seq::new(alloc),
        }
    }

    /// Its calls, in order.
    pub fn calls(&self) -> &[Call]
        ensures { result.now ≡ self.now.calls }
    {
        self.calls.as_slice()
    }

    /// Notes a call.
    fn note(&mut self, call: Call) -> io::Result<()>
        ensures ok { OnOk result (self.new ≡ noted self.old call) }
        ensures err { OnErr result (self.new ≡ self.old) }
        ensures kind { IfErr result (λ e. error_kind e ≡ ErrorKind.OutOfMemory) }
    {
        match self.calls.push(call) {
            Ok(()) => Ok(()),
            Err(_) => Err(io::Error::from(ErrorKind::OutOfMemory)),
        }
    }
}

/// Copies bytes to the front of others, as many as there are places. Returns how many.
fn copy(bytes: &[u8], into: &mut [u8]) -> usize
    ensures count { result ≡ min (length bytes.now) (length into.old) }
    ensures bytes { take result into.new ≡ take (length into.old) bytes.now }
    ensures prefix { IsPrefixLen result into.new }
{
    let count = bytes.len().min(into.len());
    into[..count].copy_from_slice(&bytes[..count]);
    count
}

impl System for MemorySystem {
    ghost use Rattle.test_ports.specs.Systems as spec;

    ghost sets = { spec.Sets };

    ghost receives = { spec.Receives };

    ghost awaits = { spec.Awaits };

    ghost sends = { spec.Sends };

    ghost shows = { spec.Shows };

    ghost draws = { spec.Draws };

    fn set_waits(&mut self, waits: bool) -> io::Result<()> {
        self.note(Call::Sets(waits))
    }

    fn receive(&mut self, into: &mut [u8]) -> io::Result<(usize, SocketAddr)> {
        self.note(Call::Receives(into.len()))?;
        match self.script.reads.pop_front() {
            Some(Ok((bytes, from))) => Ok((copy(bytes.as_slice(), into), from)),
            Some(Err(kind)) => Err(io::Error::from(kind)),
            None => Err(io::Error::from(ErrorKind::WouldBlock)),
        }
    }

    fn await_arrival(&mut self, millis: u64) -> io::Result<bool> {
        self.note(Call::Awaits(millis))?;
        Ok(self.script.arrivals.pop_front().unwrap_or(false))
    }

    fn send(&mut self, bytes: &[u8], to: SocketAddr) -> io::Result<usize> {
        let Ok(copy) = Seq::from_slice(self.alloc, bytes) else {
            return Err(io::Error::from(ErrorKind::OutOfMemory));
        };
        self.note(Call::Sends(copy, to))?;
        match self.script.sends.pop_front() {
            Some(Err(kind)) => Err(io::Error::from(kind)),
            Some(Ok(())) | None => Ok(bytes.len()),
        }
    }

    fn millis(&mut self) -> Option<u64> {
        if self.note(Call::Shows).is_err() {
            return None;
        }
        let now = self.script.moments.pop_front()?;
        Some(now.min(LAST_MOMENT))
    }

    fn random(&mut self) -> u32 {
        if self.note(Call::Draws).is_err() {
            return 0;
        }
        self.script.draws.pop_front().unwrap_or(0)
    }
}
