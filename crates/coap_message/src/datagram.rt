//! Buffers for datagrams.
ghost use Rattle.std.specs.Prelude.{◌≡◌, ◌++◌, ◌≤◌, [], IfOk, length, take};
ghost use Rattle.std.specs.Borrow.{sem, Lends, Array, u8 as byte};
ghost use Rattle.coap_message.specs.contracts.datagram.Datagram.{the_row};

use crate::error::OutOfMemory;
use std::alloc::Global;
use std::marker::Model;

/// A buffer for one datagram, which is allocated once. A contract sees its room and the bytes that
/// it holds.
#[derive(Drop)]
pub struct Datagram {
    places: Vec<u8>,
    held: usize,
}

impl Model for Datagram {
    ghost use Rattle.std.specs.Prelude.{◌≤◌, length, take};
    ghost use Rattle.coap_message.specs.Datagram.{Datagram};

    ghost Value = { Datagram };

    ghost view = { λ d.
        record { room = length d.places.items; bytes = take d.held d.places.items } };

    ghost invariant = { λ d. d.held ≤ length d.places.items };
}

impl Datagram {
    ghost use Rattle.coap_message.specs.Datagram.{holding, written_over};

    /// An empty datagram with room for `room` bytes. No other call allocates.
    ///
    /// # Errors
    /// Out of memory.
    pub fn new(alloc: Global, room: usize) -> Result<Datagram, OutOfMemory>
        ensures { IfOk result (λ d. d ≡ record { room = room; bytes = [] }) }
    {
        Ok(Datagram {
            places: vec![in alloc; 0; room]?,
            held: 0,
        })
    }

    /// The number of bytes that it has room for.
    pub fn room(&self) -> usize
        ensures { result ≡ self.now.room }
    {
        self.places.len()
    }

    /// The bytes that it holds.
    pub fn bytes(&self) -> &[u8]
        ensures bytes { result.now ≡ self.now.bytes }
        ensures within { length self.now.bytes ≤ self.now.room }
    {
        &self.places[..self.held]
    }

    /// Removes the bytes that it holds.
    pub fn clear(&mut self)
        ensures { self.new ≡ holding self.old [] }
    {
        self.held = 0;
    }

    /// Appends bytes to those that it holds, as many as there is room for.
    pub fn put(&mut self, bytes: &[u8])
        ensures { self.new ≡ holding self.old (take self.old.room (self.old.bytes ++ bytes.now)) }
    {
        let count = bytes.len().min(self.places.len() - self.held);
        let end = self.held + count;
        self.places[self.held..end].copy_from_slice(&bytes[..count]);
        self.held = end;
    }

    /// All its places, to be written. It then holds them all: `truncate` keeps those that count.
    pub fn places(&mut self) -> &mut [u8]
        ensures* lends { sem 𝓛 (Lends the_row (Array byte 0) self.entry result
            (λ w. holding self.old (written_over result.now w))) }
        ensures places { length result.now ≡ self.old.room }
    {
        self.held = self.places.len();
        self.places.as_mut_slice()
    }

    /// Keeps the first `count` bytes of those that it holds.
    pub fn truncate(&mut self, count: usize)
        ensures { self.new ≡ holding self.old (take count self.old.bytes) }
    {
        self.held = self.held.min(count);
    }
}
