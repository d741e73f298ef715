//! The buffers of a replay.
ghost use Rattle.std.specs.Prelude.{IfOk};
ghost use Rattle.coap_replay.specs.Buffers.{HaveRoom};

use coap_lines::{LONGEST, line_buffer};
use coap_message::{Datagram, OutOfMemory};
use std::alloc::Global;

/// What a replay reads into and writes from. It is allocated before the first line, so that no line
/// is in want of memory.
pub(crate) struct Buffers {
    /// The line that was read.
    pub(crate) line: Vec<u8>,
    /// The datagram that it gives.
    pub(crate) input: Datagram,
    /// The datagram that is sent then.
    pub(crate) output: Datagram,
    /// The line of that datagram.
    pub(crate) text: Vec<u8>,
}

impl Drop for Buffers {
    fn drop(self) {
        let Buffers {
            line: _,
            input: _,
            output: _,
            text: _,
        } = self;
    }
}

impl Buffers {
    /// Buffers for a core that sends datagrams of at most `datagram` bytes.
    ///
    /// # Errors
    /// Out of memory.
    pub(crate) fn new(alloc: Global, datagram: usize) -> Result<Buffers, OutOfMemory>
        ensures { IfOk result (HaveRoom datagram) }
    {
        Ok(Buffers {
            line: Vec::with_capacity(alloc, LONGEST + 1)?,
            input: Datagram::new(alloc, LONGEST / 2)?,
            output: Datagram::new(alloc, datagram)?,
            text: line_buffer(alloc, datagram)?,
        })
    }
}
