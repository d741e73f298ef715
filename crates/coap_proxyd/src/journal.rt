//! Standard error as a journal: what is written there never keeps the program waiting.

use mio::unix::SourceFd;
use mio::{Events, Interest, Poll, Token};
use std::alloc::Global;
use std::io;
use std::io::{ErrorKind, Write};
use std::os::fd::RawFd;
use std::time::Duration;

/// The descriptor of standard error.
const STANDARD_ERROR: RawFd = 2;

/// The token of the one descriptor that is watched.
const ROOM: Token = Token(0);

/// Standard error, which takes bytes only if that keeps nobody waiting: otherwise a write fails
/// with `WouldBlock`. It stays as it is for others who write there. What it does is in no contract.
pub struct Journal<'a> {
    rt: &'a HostRuntime,
    poll: Poll,
    events: Events<Global>,
}

impl Drop for Journal<'_> {
    fn drop(self) {
        let Journal {
            rt: _,
            poll: _,
            events: _,
        } = self;
    }
}

impl<'a> Journal<'a> {
    /// The journal of this program.
    ///
    /// # Errors
    /// The system has no descriptor left, or there is no memory.
    pub fn new(rt: &'a HostRuntime) -> io::Result<Journal<'a>> {
        Ok(Journal {
            rt,
            poll: Poll::new(rt)?,
            events: Events::with_capacity(rt.alloc(), 1)?,
        })
    }

    /// Whether a short write wouldn't wait. What can't be watched, as a file, never waits.
    fn has_room(&mut self) -> bool {
        let mut source = SourceFd(&STANDARD_ERROR);
        let registry = self.poll.registry();
        if registry
            .register(&mut source, ROOM, Interest::WRITABLE)
            .is_err()
        {
            return true;
        }
        let polled = self.poll.poll(&mut self.events, Some(Duration::ZERO));
        let _ = self.poll.registry().deregister(&mut source);
        polled.is_ok() && !self.events.is_empty()
    }
}

impl Write for Journal<'_> {
    fn write(&mut self, buf: &[u8]) -> io::Result<usize> {
        if !self.has_room() {
            return Err(io::Error::from(ErrorKind::WouldBlock));
        }
        self.rt.stderr().write(buf)
    }

    fn flush(&mut self) -> io::Result<()> {
        Ok(())
    }
}
