//! A port whose turns are recorded.
ghost use Rattle.std.specs.Prelude.{◌≡◌, ◌≤◌, ◌+◌, ◌&&◌, ℕ, List, false, nat_lt, not, length, IfOk};
ghost use Rattle.coap_port.specs.Driven.{is_arrival};
ghost use Rattle.coap_model.specs.Events.{event_given};
ghost use Rattle.coap_port.specs.Given.{given_by};
ghost use Rattle.coap_recording.specs.Recorder as spec;

use crate::turns::{put_turn, size_of};
use coap_endpoint::Endpoint;
use coap_lines::Output;
use coap_message::{Datagram, Moment, OutOfMemory};
use coap_port::{Port, PortFault, Turn};
use std::alloc::Global;
use std::io::Write;
use std::marker::Model;

/// How many bytes of lines are kept before they are written.
const ROOM: usize = 65_536;

/// The greatest length of a datagram whose line a replay reads, in bytes.
const LONGEST: usize = 8_154;

/// Whether nothing came in a wait.
fn is_silent(wait: u64, from: Option<Endpoint>) -> bool
    ensures { (bytes : List ℕ) → result
        ≡ (nat_lt 0 wait && not (is_arrival (event_given from bytes))) }
{
    match from {
        Some(_) => false,
        None => wait > 0,
    }
}

/// A port around a port, which records its turns: for each, in order, ticks included, the line that
/// a replay reads (`MOMENT DRAW FROM HEX`, or `MOMENT DRAW tick`).
///
/// The lines are kept in a buffer that was allocated before, and written where it is full, where
/// the port is about to wait after a wait in which nothing came, and at the end, by `finish`. So a
/// turn takes no memory for its line, and while datagrams come the writer is called once for 64 KB
/// of lines.
///
/// No turn fails because its line can't be written. What the writer doesn't take is lost then, and
/// nothing more is recorded (`has_ended`).
pub struct Recording<P, W> {
    port: P,
    output: Output<W>,
    buffer: Vec<u8>,
    ended: bool,
    idle: bool,
}

impl<P: Drop, W: Drop> Drop for Recording<P, W> {
    fn drop(self) {
        let Recording {
            port: _,
            output: _,
            buffer: _,
            ended: _,
            idle: _,
        } = self;
    }
}

impl<P, W> Model for Recording<P, W> {
    ghost use Rattle.std.specs.Prelude.{◌≤◌, vec_capacity};
    ghost use Rattle.coap_recording.specs.Recorder.{Recorder};

    ghost Value = { Recorder P W };

    ghost view = { λ r.
        record {
          port = r.port;
          writer = r.output.writer;
          failed = r.output.failed;
          pending = r.buffer.items;
          ended = r.ended;
          idle = r.idle;
        } };

    ghost invariant = { λ r. 65536 ≤ vec_capacity r.buffer };
}

impl<P: Drop, W: Drop> Recording<P, W> {
    /// Records the turns of a port, by lines that are added to what the writer holds.
    ///
    /// # Errors
    /// Out of memory for the buffer, of 65,536 bytes.
    pub fn new(alloc: Global, port: P, writer: W) -> Result<Recording<P, W>, OutOfMemory>
        ensures { IfOk result (λ recording. recording ≡ spec.new_recorder port writer) }
    {
        Ok(Recording {
            port,
            output: Output::new(writer),
            buffer: Vec::with_capacity(alloc, ROOM)?,
            ended: false,
            idle: false,
        })
    }
}

impl<P: Port, W: Write> Recording<P, W> {
    /// The port whose turns are recorded.
    pub fn port(&self) -> &P
        ensures { result.now ≡ self.now.port }
    {
        &self.port
    }

    /// What the lines are written to.
    pub fn writer(&self) -> &W
        ensures { result.now ≡ self.now.writer }
    {
        self.output.writer()
    }

    /// Whether the recording ended before its port did: the writer failed, or a datagram was too
    /// long for a line.
    pub fn has_ended(&self) -> bool
        ensures { result ≡ self.now.ended }
    {
        self.ended
    }

    /// Writes the lines that are kept. Call it after the last turn.
    pub fn finish(&mut self)
        ensures { spec.Writes W.contents self.old self.new }
    {
        self.write();
    }

    /// Writes the lines that are kept.
    fn write(&mut self)
        ensures { spec.Writes W.contents self.old self.new }
    {
        if self.output.write_all(&self.buffer).is_err() {
            self.ended = true;
        }
        self.buffer.clear();
    }

    /// Writes the lines that are kept, if the port is about to wait after a wait in which nothing
    /// came.
    fn write_before(&mut self, wait: u64)
        ensures { spec.WritesIf W.contents (self.old.idle && nat_lt 0 wait) self.old self.new }
    {
        if self.idle && wait > 0 {
            self.write();
        }
    }

    /// Writes the lines that are kept, if `most` more bytes would be too many.
    fn make_room(&mut self, most: usize)
        requires { most ≤ 65536 }
        ensures writes { spec.WritesIf W.contents (nat_lt 65536 (length self.old.pending + most))
            self.old self.new }
        ensures room { length self.new.pending + most ≤ 65536 }
    {
        if self.buffer.len() + most > ROOM {
            self.write();
        }
    }

    /// Adds the line of a turn, unless the recording has ended.
    fn add(&mut self, turn: Turn, bytes: &[u8])
        ensures adds { spec.AddsTurn W.contents self.old (given_by turn bytes.now) self.new }
        ensures said { self.new.ended ≡ false → spec.IsShort (given_by turn bytes.now) }
    {
        if self.ended {
            return;
        }
        let size = size_of(turn, bytes);
        if size > LONGEST {
            self.ended = true;
            return;
        }
        self.make_room(77 + 2 * size);
        if !self.ended {
            put_turn(&mut self.buffer, turn, bytes);
        }
    }
}

impl<P: Port, W: Write> Port for Recording<P, W> {
    ghost use Rattle.coap_recording.specs.Recorder.{Gives, Takes};

    ghost clock = { λ r. P.clock r.port };

    ghost failures = { λ r. P.failures r.port };

    ghost gives = { Gives P.gives P.clock W.contents };

    ghost takes = { Takes P.takes P.clock };

    fn last(&self) -> Moment {
        self.port.last()
    }

    /// The next turn of its port, whose line is added.
    ///
    /// # Errors
    /// The port can't be used any more. The lines may have been written then.
    fn next(&mut self, wait: u64, into: &mut Datagram) -> Result<Turn, PortFault> {
        self.write_before(wait);
        let turn = self.port.next(wait, into)?;
        self.idle = is_silent(wait, turn.from);
        self.add(turn, into.bytes());
        Ok(turn)
    }

    fn send(&mut self, to: Endpoint, bytes: &[u8]) -> bool {
        self.port.send(to, bytes)
    }
}
