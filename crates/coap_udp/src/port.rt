//! The port over a UDP socket.
ghost use Rattle.std.specs.Prelude.{◌≡◌, ◌≤◌, ◌<◌, ◌+◌, ◌^◌, None, IfOk, IsOk, OnErr, OnOk};
ghost use Rattle.coap_model.specs.Events.{event_given};
ghost use Rattle.coap_port.specs.Given.{IsOnward, given_by};
ghost use Rattle.coap_udp.specs.Systems.{IsTo, read_of};
ghost use Rattle.coap_udp.specs.Udp.{Arrives, EndsBy, IsDrawn, IsRead, IsTimed, ReadsInto, is_of_ipv6, new_port, port_over};

use crate::address::{address_of, endpoint_of};
use crate::host::Host;
use crate::system::System;
use crate::values::{draw_of, moment_after, read_waits, rest_of, turn_of_read};
use crate::waiting::{read_by, send_whole};
use coap_endpoint::{Endpoint, Ip};
use coap_message::{Datagram, Moment};
use coap_port::{Port, PortFault, Turn};
use std::alloc::Global;
use std::io;
use std::marker::Model;
use std::net::{Net, SocketAddr};
use std::random::RandomSource;
use std::time::Clock;

/// A port over one UDP socket.
///
/// Its moments are the milliseconds since it was created, or the last moment if the clock can't be
/// read. It reads the clock once after each read: a tick without a wait has the last moment again.
/// Its draws come from a generator that is seeded from the system's random source. The contracts
/// say which calls it makes to the system, and not what the system gives.
///
/// A datagram is read straight into the buffer that the port is handed, and the system cuts it to
/// the room there. A read takes one system call while datagrams come, and so does a send. If
/// nothing is there, the port waits for as long as it was asked to, and up to five milliseconds
/// longer. Asked to wait for one millisecond after something was handed over since its last read,
/// it doesn't wait: something more may be due already. A send that finds no room to send waits for
/// some, at most 50 ms, and is tried once more.
///
/// An IPv6 socket uses IPv4-mapped addresses, `::ffff:a.b.c.d`, for IPv4 endpoints.
pub struct UdpPort<S> {
    system: S,
    waiting: bool,
    is_ipv6: bool,
    /// Whether anything was handed over since the last read.
    handed: bool,
    last: Moment,
    failures: u64,
}

impl<S: Drop> Drop for UdpPort<S> {
    fn drop(self) {
        let UdpPort {
            system: _,
            waiting: _,
            is_ipv6: _,
            handed: _,
            last: _,
            failures: _,
        } = self;
    }
}

impl<S> Model for UdpPort<S> {
    ghost use Rattle.std.specs.Prelude.{◌≤◌, ◌^◌};
    ghost use Rattle.coap_udp.specs.Udp.{Udp};

    ghost Value = { Udp S };

    ghost view = { λ p.
        record {
          system = p.system;
          waiting = p.waiting;
          is_ipv6 = p.is_ipv6;
          handed = p.handed;
          last = p.last;
          failures = p.failures;
        } };

    ghost invariant = { λ p. p.last ≤ 2 ^ 62 };
}

/// Cuts a buffer, into all of whose room a read could write, to what was read, or empties it after
/// an error. Returns the source.
fn source_of(read: io::Result<(usize, SocketAddr)>, into: &mut Datagram) -> io::Result<Endpoint>
    ensures read { IsRead (read_of read into.old.bytes) result into.new.bytes }
    ensures room { into.new.room ≡ into.old.room }
{
    match read {
        Ok((count, from)) => {
            into.truncate(count);
            Ok(endpoint_of(from))
        }
        Err(error) => {
            into.clear();
            Err(error)
        }
    }
}

impl<'a, C: Clock> UdpPort<Host<'a, C>> {
    /// A port at a local address, of a network, whose moments are those of a clock, and whose draws
    /// are seeded by a random source: these need not be the system's.
    ///
    /// # Errors
    /// The address or its port isn't available, there are no random bytes or no descriptor is left,
    /// the clock can't be read, or there is no memory.
    pub fn bind_by<N: Net, G: RandomSource>(
        net: &N,
        clock: &'a C,
        source: &G,
        alloc: Global,
        local: Endpoint,
    ) -> io::Result<UdpPort<Host<'a, C>>>
        ensures new { IfOk result (λ port. port ≡ new_port port.system local) }
        ensures bound { IfOk result (λ port. IsTo (is_of_ipv6 local.ip) local port.system.local) }
    {
        let is_ipv6 = matches!(local.ip, Ip::V6(_));
        let system = Host::bind(net, clock, source, alloc, address_of(local, is_ipv6))?;
        Ok(UdpPort::over(system, is_ipv6))
    }

    /// Asks the system for a receive buffer of this many bytes, at most 2^30 - 1, or of as many as
    /// the socket has. Returns how many it has then, if the system says that. Linux gives twice
    /// what is asked for, for what it notes of each datagram, and takes no more than
    /// `net.core.rmem_max` as asked for. A datagram that finds no room there is lost.
    pub fn ask_for_buffer(&self, bytes: Option<u64>) -> Option<u64> {
        self.system.ask_for_buffer(bytes)
    }
}

impl<'a, R: Net + Clock + RandomSource> UdpPort<Host<'a, R>> {
    /// A port at a local address, over the system.
    ///
    /// # Errors
    /// The address or its port isn't available, the system has no random bytes or no descriptor
    /// left, the clock can't be read, or there is no memory.
    pub fn bind(rt: &'a R, alloc: Global, local: Endpoint) -> io::Result<UdpPort<Host<'a, R>>>
        ensures new { IfOk result (λ port. port ≡ new_port port.system local) }
        ensures bound { IfOk result (λ port. IsTo (is_of_ipv6 local.ip) local port.system.local) }
    {
        UdpPort::bind_by(rt, rt, rt, alloc, local)
    }
}

impl<S: System + Drop> UdpPort<S> {
    /// A port over a system whose socket is new, for addresses of this family.
    pub fn over(system: S, is_ipv6: bool) -> UdpPort<S>
        ensures { result ≡ port_over system is_ipv6 }
    {
        UdpPort {
            system,
            waiting: true,
            is_ipv6,
            handed: false,
            last: 0,
            failures: 0,
        }
    }

    /// The system under it.
    pub fn system(&self) -> &S
        ensures { result.now ≡ self.now.system }
    {
        &self.system
    }

    /// Reads a datagram, if one is there or comes within `wait` milliseconds, into the places of a
    /// buffer, which is empty after an error. Returns its source.
    fn read(&mut self, wait: u64, into: &mut Datagram) -> io::Result<Endpoint>
        ensures reads { ReadsInto S.sets S.receives S.awaits into.old.room self.old wait result
            into.new.bytes self.new }
        ensures same { self.new
            ≡ record self.old { system = self.new.system; waiting = self.new.waiting } }
        ensures room { into.new.room ≡ into.old.room }
    {
        let rest = rest_of(wait, self.handed);
        let waits = read_waits(wait);
        let read = read_by(
            &mut self.system,
            &mut self.waiting,
            waits,
            into.places(),
            rest,
        );
        source_of(read, into)
    }

    /// Reads a datagram. Returns its source, or none for a tick.
    ///
    /// # Errors
    /// The socket can't be read any more. The failure is counted.
    fn arrival(&mut self, wait: u64, into: &mut Datagram) -> Result<Option<Endpoint>, PortFault>
        requires few { self.old.failures < 2 ^ 63 }
        ensures arrives { IfOk result (λ from. Arrives S.sets S.receives S.awaits into.old.room
            self.old wait (event_given from into.new.bytes) self.new) }
        ensures ended { OnErr result
            (EndsBy S.sets S.receives S.awaits into.old.room self.old wait self.new) }
        ensures room { into.new.room ≡ into.old.room }
    {
        let read = self.read(wait, into);
        match turn_of_read(read) {
            Ok(from) => {
                self.handed = false;
                Ok(from)
            }
            Err(fault) => {
                self.failures += 1;
                Err(fault)
            }
        }
    }

    /// A turn with the source of what was read, or a tick. Its moment is the current one.
    fn turn(&mut self, from: Option<Endpoint>) -> Turn
        ensures timed { IsTimed S.shows S.draws self.old result.now result.draw self.new }
        ensures onward { self.old.last ≤ result.now }
        ensures moment { result.now ≤ 2 ^ 62 }
        ensures draw { result.draw ≤ 1000 }
        ensures from { result.from ≡ from }
    {
        let shown = self.system.millis();
        let number = self.system.random();
        self.last = moment_after(self.last, shown);
        Turn {
            now: self.last,
            draw: draw_of(number),
            from,
        }
    }

    /// A tick at the last moment, for what is due already.
    fn tick(&mut self) -> Turn
        ensures drawn { IsDrawn S.draws self.old result.now result.draw self.new }
        ensures moment { result.now ≤ 2 ^ 62 }
        ensures draw { result.draw ≤ 1000 }
        ensures from { result.from ≡ None }
    {
        let drawn = self.system.random();
        Turn {
            now: self.last,
            draw: draw_of(drawn),
            from: None,
        }
    }
}

impl<S: System + Drop> Port for UdpPort<S> {
    ghost use Rattle.coap_udp.specs.Udp.{Gives, Takes};

    ghost clock = { λ p. p.last };

    ghost failures = { λ p. p.failures };

    ghost gives = { Gives S.sets S.receives S.awaits S.shows S.draws };

    ghost takes = { Takes S.sets S.sends };

    fn last(&self) -> Moment {
        self.last
    }

    /// The next turn; see the trait.
    ///
    /// # Errors
    /// The socket can't be read any more. The failure is counted.
    fn next(&mut self, wait: u64, into: &mut Datagram) -> Result<Turn, PortFault>
        requires { self.old.failures < 2 ^ 63 }
        ensures gives { IfOk result (λ turn. Gives S.sets S.receives S.awaits S.shows S.draws
            into.old.room self.old wait (given_by turn into.new.bytes) self.new) }
        ensures onward { IfOk result (IsOnward self.old.last self.new.last) }
        ensures ticks { wait ≡ 0 → IfOk result (λ turn. turn.from ≡ None) }
        ensures lasts { wait ≡ 0 → IsOk result }
        ensures room { into.new.room ≡ into.old.room }
        ensures works { OnOk result (self.new.failures ≡ self.old.failures) }
        ensures fails { OnErr result (self.new.failures ≡ self.old.failures + 1) }
        ensures ended { OnErr result
            (EndsBy S.sets S.receives S.awaits into.old.room self.old wait self.new) }
    {
        if wait == 0 {
            into.clear();
            return Ok(self.tick());
        }
        let from = self.arrival(wait, into)?;
        Ok(self.turn(from))
    }

    fn send(&mut self, to: Endpoint, bytes: &[u8]) -> bool {
        self.handed = true;
        let address = address_of(to, self.is_ipv6);
        send_whole(&mut self.system, &mut self.waiting, bytes, address)
    }
}
