//! The socket, the clock and the generator, as the operating system gives them.
ghost use Rattle.std.specs.Prelude.{◌≡◌, IfOk};

use crate::buffer;
use crate::system::System;
use crate::values::{READ_WAIT, millis_between};
use mio::net::UdpSocket as Watched;
use mio::{Events, Interest, Poll, Token};
use rand_core::Rng;
use rand_pcg::Pcg32;
use std::alloc::Global;
use std::io;
use std::net::{Net, SocketAddr, UdpSocket};
use std::os::fd::AsRawFd;
use std::random::RandomSource;
use std::time::{Clock, Duration, Instant};

/// The token of the one socket.
const SOCKET: Token = Token(0);

/// How long a send waits for room if sends wait, in milliseconds.
const ROOM_WAIT: u64 = 50;

/// A socket, a wait for its arrivals, a clock and a generator, over the operating system.
///
/// Contracts don't say what the system does with a call, so that these bodies are trusted: each is
/// one call, or one call and what it needs. The clock and the source of the generator's seed are
/// those that it is given, and a test can give its own. The socket is watched only while
/// `await_arrival` waits, so that an arrival costs nothing more at other times; one that is there
/// already is reported at once.
pub struct Host<'a, C> {
    clock: &'a C,
    local: SocketAddr,
    socket: UdpSocket,
    watched: Watched,
    arrivals: Poll,
    events: Events<Global>,
    start: Instant,
    generator: Pcg32,
}

impl<'a, C> Drop for Host<'a, C> {
    fn drop(self) {
        let Host {
            clock: _,
            local: _,
            socket: _,
            watched: _,
            arrivals: _,
            events: _,
            start: _,
            generator: _,
        } = self;
    }
}

/// A generator that is seeded by a random source.
fn generator(source: &impl RandomSource) -> io::Result<Pcg32> {
    let mut seed = [0; 8];
    source.fill_bytes(&mut seed)?;
    Ok(Pcg32::new(u64::from_le_bytes(seed), 0))
}

impl<'a, C: Clock> Host<'a, C> {
    /// A socket at this address.
    ///
    /// # Errors
    /// The address or its port isn't available, there are no random bytes or no descriptor is left,
    /// the clock can't be read, or there is no memory.
    pub(crate) fn bind<N: Net, G: RandomSource>(
        net: &N,
        clock: &'a C,
        source: &G,
        alloc: Global,
        local: SocketAddr,
    ) -> io::Result<Host<'a, C>>
        ensures { IfOk result (λ h. h.local ≡ local) }
    {
        let socket = UdpSocket::bind(net, local)?;
        socket.set_read_timeout(Some(Duration::from_millis(READ_WAIT)))?;
        socket.set_write_timeout(Some(Duration::from_millis(ROOM_WAIT)))?;
        let watched = Watched::from_std(socket.try_clone()?);
        Ok(Host {
            clock,
            local,
            socket,
            watched,
            arrivals: Poll::new(net)?,
            events: Events::with_capacity(alloc, 1)?,
            start: Instant::now(clock)?,
            generator: generator(source)?,
        })
    }

    /// Asks for a receive buffer of this many bytes, or of as many as the socket has. Returns how
    /// many it has then, if the system says that.
    pub(crate) fn ask_for_buffer(&self, bytes: Option<u64>) -> Option<u64> {
        buffer::grow(self.socket.as_raw_fd(), bytes)
    }
}

impl<'a, C: Clock> System for Host<'a, C> {
    ghost use Rattle.std.specs.Prelude.{⊤};

    ghost sets = { λ s waits r t. ⊤ };

    ghost receives = { λ s room r t. ⊤ };

    ghost awaits = { λ s millis r t. ⊤ };

    ghost sends = { λ s bytes to r t. ⊤ };

    ghost shows = { λ s shown t. ⊤ };

    ghost draws = { λ s number t. ⊤ };

    fn set_waits(&mut self, waits: bool) -> io::Result<()> {
        self.socket.set_nonblocking(!waits)
    }

    fn receive(&mut self, into: &mut [u8]) -> io::Result<(usize, SocketAddr)> {
        self.socket.recv_from(into)
    }

    fn await_arrival(&mut self, millis: u64) -> io::Result<bool> {
        let timeout = Some(Duration::from_millis(millis));
        // If it can't be watched, this waits all the same; if it can't be let go, it is still
        // watched the next time.
        let _ = self
            .arrivals
            .registry()
            .register(&mut self.watched, SOCKET, Interest::READABLE);
        let waited = self.arrivals.poll(&mut self.events, timeout);
        let _ = self.arrivals.registry().deregister(&mut self.watched);
        waited?;
        Ok(!self.events.is_empty())
    }

    fn send(&mut self, bytes: &[u8], to: SocketAddr) -> io::Result<usize> {
        self.socket.send_to(bytes, to)
    }

    fn millis(&mut self) -> Option<u64> {
        match Instant::now(self.clock) {
            Ok(now) => Some(millis_between(self.start, now)),
            Err(_) => None,
        }
    }

    fn random(&mut self) -> u32 {
        self.generator.next_u32()
    }
}
