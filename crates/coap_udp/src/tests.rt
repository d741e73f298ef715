//! A port over a socket whose clock and random source a test sets, and a network that has no
//! socket.
ghost use Rattle.std.specs.Prelude.{◌≡◌, ◌<◌, ◌^◌, OnOk};

use crate::port::UdpPort;
use coap_endpoint::{Endpoint, Ip};
use coap_message::{Datagram, LAST_MOMENT};
use coap_port::{Port, PortFault};
use std::cell::Cell;
use std::io;
use std::io::ErrorKind;
use std::net::{Net, SocketAddr, UdpSocket};
use std::random::RandomSource;
use std::test::*;
use std::time::{Clock, Duration};

/// What a clock shows at the start, and sixty days, in milliseconds: 2^32 of these are less than
/// fifty.
const START: u64 = 1_000;

const SIXTY_DAYS: u64 = 60 * 86_400_000;

/// A clock that shows what a test sets, in milliseconds, or can't be read.
#[derive(Drop)]
struct SetClock {
    shown: Cell<Option<u64>>,
}

impl SetClock {
    /// One that shows this.
    fn at(millis: u64) -> SetClock {
        SetClock {
            shown: Cell::new(Some(millis)),
        }
    }
}

impl Clock for SetClock {
    fn monotonic(&self) -> io::Result<Duration> {
        match self.shown.get() {
            Some(millis) => Ok(Duration::from_millis(millis)),
            None => Err(io::Error::from(ErrorKind::Other)),
        }
    }

    fn since_1970(&self) -> io::Result<Duration> {
        self.monotonic()
    }
}

/// A random source that gives one byte again and again, or fails.
#[derive(Clone, Copy)]
struct OneByte(Option<u8>);

impl RandomSource for OneByte {
    fn fill_bytes(&self, buf: &mut [u8]) -> io::Result<()> {
        match self.0 {
            Some(byte) => {
                buf.fill(byte);
                Ok(())
            }
            None => Err(io::Error::from(ErrorKind::Unsupported)),
        }
    }
}

/// A network that has no socket, for this reason.
#[derive(Clone, Copy)]
struct NoSocket(ErrorKind);

impl Net for NoSocket {
    type Stream = <HostRuntime as Net>::Stream;

    type Listener = <HostRuntime as Net>::Listener;

    fn bind(&self, _addr: SocketAddr) -> io::Result<Self::Listener> {
        Err(io::Error::from(self.0))
    }

    fn connect(&self, _addr: SocketAddr) -> io::Result<Self::Stream> {
        Err(io::Error::from(self.0))
    }

    fn bind_udp(&self, _addr: SocketAddr) -> io::Result<UdpSocket> {
        Err(io::Error::from(self.0))
    }
}

/// An address of this host.
const LOCALHOST: Ip = Ip::V4([127, 0, 0, 1]);

/// A free port of the loopback network.
const FREE: Endpoint = Endpoint {
    ip: LOCALHOST,
    port: 0,
};

/// The moment of a turn while the clock shows this.
fn moment<P: Port>(
    port: &mut P,
    clock: &SetClock,
    into: &mut Datagram,
    shown: Option<u64>,
) -> Result<u64, PortFault>
    requires { P.failures port.old < 2 ^ 63 }
    ensures { OnOk result (P.failures port.new ≡ P.failures port.old) }
{
    clock.shown.set(shown);
    Ok(port.next(1, into)?.now)
}

/// The moments while a clock shows sixty days, goes back, can't be read, comes to the last moment,
/// and passes it.
fn moments<P: Port>(
    port: &mut P,
    clock: &SetClock,
    into: &mut Datagram,
) -> Result<[u64; 5], PortFault>
    requires { P.failures port.old < 2 ^ 63 }
{
    let late = moment(port, clock, into, Some(START + SIXTY_DAYS))?;
    let back = moment(port, clock, into, Some(START + 5))?;
    let unread = moment(port, clock, into, None)?;
    let last = moment(port, clock, into, Some(START + LAST_MOMENT))?;
    let beyond = moment(port, clock, into, Some(u64::MAX))?;
    Ok([late, back, unread, last, beyond])
}

#[test]
fn moments_are_those_of_the_clock(rt: HostRuntime) -> Result<(), Fail> {
    let clock = SetClock::at(START);
    let mut into = Datagram::new(rt.alloc(), 5)?;
    let mut port = UdpPort::bind_by(&rt, &clock, &rt, rt.alloc(), FREE)?;
    assert_eq!(rt;
        moments(&mut port, &clock, &mut into)?,
        [SIXTY_DAYS, SIXTY_DAYS, SIXTY_DAYS, LAST_MOMENT, LAST_MOMENT]
    );
    Ok(())
}

#[test]
fn a_tick_without_a_wait_has_the_last_moment(rt: HostRuntime) -> Result<(), Fail> {
    let clock = SetClock::at(START);
    let mut into = Datagram::new(rt.alloc(), 5)?;
    let mut port = UdpPort::bind_by(&rt, &clock, &rt, rt.alloc(), FREE)?;
    assert_eq!(rt; moment(&mut port, &clock, &mut into, Some(START + 7))?, 7);
    clock.shown.set(Some(START + 9));
    assert_eq!(rt; port.next(0, &mut into)?.now, 7);
    assert_eq!(rt; port.next(1, &mut into)?.now, 9);
    Ok(())
}

/// The draws of three turns.
fn draws<P: Port>(port: &mut P, into: &mut Datagram) -> Result<[u16; 3], PortFault>
    requires { P.failures port.old < 2 ^ 63 }
{
    let first = port.next(0, into)?;
    let second = port.next(0, into)?;
    let third = port.next(0, into)?;
    Ok([first.draw, second.draw, third.draw])
}

/// The draws of a port whose random source gives this byte.
fn seeded(rt: &HostRuntime, byte: u8) -> Result<[u16; 3], Fail> {
    let mut into = Datagram::new(rt.alloc(), 5)?;
    let mut port = UdpPort::bind_by(rt, rt, &OneByte(Some(byte)), rt.alloc(), FREE)?;
    Ok(draws(&mut port, &mut into)?)
}

#[test]
fn draws_are_those_of_the_random_source(rt: HostRuntime) -> Result<(), Fail> {
    let ones = seeded(&rt, 1)?;
    assert_eq!(rt; seeded(&rt, 1)?, ones);
    assert_ne!(rt; seeded(&rt, 2)?, ones);
    assert_ne!(rt; seeded(&rt, 0)?, ones);
    Ok(())
}

/// The kind of the error by which a port can't be bound, if it can't.
fn refusal<S>(bound: io::Result<S>) -> Option<ErrorKind>
where
    S: Drop,
{
    match bound {
        Ok(_) => None,
        Err(error) => Some(error.kind()),
    }
}

#[test]
fn what_a_port_is_made_of_may_fail(rt: HostRuntime) -> Result<(), Fail> {
    let (alloc, clock) = (rt.alloc(), SetClock::at(START));
    for kind in [
        ErrorKind::AddrInUse,
        ErrorKind::AddrNotAvailable,
        ErrorKind::PermissionDenied,
        ErrorKind::OutOfMemory,
    ] {
        let bound = UdpPort::bind_by(&NoSocket(kind), &clock, &rt, alloc, FREE);
        assert_eq!(rt; refusal(bound), Some(kind));
    }
    let bound = UdpPort::bind_by(&rt, &clock, &OneByte(None), alloc, FREE);
    assert_eq!(rt; refusal(bound), Some(ErrorKind::Unsupported));
    clock.shown.set(None);
    let bound = UdpPort::bind_by(&rt, &clock, &rt, alloc, FREE);
    assert_eq!(rt; refusal(bound), Some(ErrorKind::Other));
    Ok(())
}

/// More bytes than any datagram has.
const TOO_LONG: usize = 65_508;

#[test]
fn what_the_system_does_not_take_is_told(rt: HostRuntime) -> Result<(), Fail> {
    let mut long = Vec::new(rt.alloc());
    long.resize(TOO_LONG, 0)?;
    let mut port = UdpPort::bind(&rt, rt.alloc(), FREE)?;
    let at = |ip, port| Endpoint { ip, port };
    assert!(rt; port.send(at(LOCALHOST, 9), b"abc"));
    // no socket may send to all that doesn't say so before
    assert!(rt; !port.send(at(Ip::V4([255, 255, 255, 255]), 9), b"abc"));
    assert!(rt; !port.send(at(LOCALHOST, 0), b"abc"));
    assert!(rt; !port.send(at(LOCALHOST, 9), &long));
    Ok(())
}
