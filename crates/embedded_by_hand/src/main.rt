//! A proxy without a socket: the program hands it each datagram, and prints what it sends.
//!
//! A tick does one thing at most. So after a datagram, and whenever something has become due, ticks
//! follow until nothing more is due.
#![tactic(auto)]

use anyhow::bail;
use coap_cache::ListStore;
use coap_core::{Core, Datagram, Endpoint, Event, Ip, LimitValues, Limits, Routes};
use std::alloc::Global;

/// The ports of a client and of a device.
const CLIENT: u16 = 40001;

const DEVICE: u16 = 5690;

/// The answer of the device: 21, which is fresh for ten seconds.
const ANSWER: &[u8] = b"\x68\x45\x00\x01\0\0\0\0\0\0\0\x01\xD1\x01\x0A\xFF21";

/// What comes: a moment, in milliseconds, and the port and the bytes of a datagram, or none if the
/// program wakes up because something is due.
const COMES: [(u64, Option<(u16, &[u8])>); 4] = [
    // a Confirmable GET of /t, which the device doesn't hear
    (0, Some((CLIENT, b"\x41\x01\x00\x0A\xAA\xB1t"))),
    (2_250, None),
    // its answer, and the acknowledgement of the client
    (2_300, Some((DEVICE, ANSWER))),
    (2_320, Some((CLIENT, b"\x60\x00\x00\x02"))),
];

/// A random number of milliseconds, at most 1,000, which a server would draw anew for each step.
const DRAW: u16 = 250;

/// An endpoint of this host.
fn at(port: u16) -> Endpoint {
    let ip = Ip::V4([127, 0, 0, 1]);
    Endpoint { ip, port }
}

/// A proxy, and the buffer for what it sends.
#[derive(Drop)]
struct Proxy {
    core: Core<ListStore>,
    out: Datagram,
}

impl Proxy {
    /// A proxy with a map and a limit of its own.
    fn new(alloc: Global) -> anyhow::Result<Proxy> {
        let limits = Limits::new(LimitValues {
            exchanges: 32,
            ..LimitValues::version_2()
        })?;
        let prefix = String::from_str(alloc, "/t")?;
        let origin = String::from_str(alloc, "coap://127.0.0.1:5690/temp")?;
        let routes = Routes::new(alloc, &[], &[], &[(prefix, origin)], None)?;
        let core = Core::new(alloc, (), limits, routes, 1, 0)?;
        let out = Datagram::new(alloc, core.datagram())?;
        Ok(Proxy { core, out })
    }

    /// Hands an event to the core, and prints what that sends.
    fn step(&mut self, rt: &HostRuntime, now: u64, event: Event<'_>) -> anyhow::Result<()> {
        if !self.core.can_step(now, DRAW, &self.out) {
            bail!("a moment or an event is out of range, or there is no room for a datagram");
        }
        let report = self.core.step(now, DRAW, event, &mut self.out)?;
        if let Some(to) = report.send {
            print!(rt; "{now} ms, to port {}: ", to.port)?;
            for byte in self.out.bytes() {
                print!(rt; "{byte:02X}")?;
            }
            println!(rt)?;
        }
        Ok(())
    }

    /// Does what is due at this moment, one thing at each tick.
    fn do_what_is_due(&mut self, rt: &HostRuntime, now: u64) -> anyhow::Result<()> {
        for _ in 0..u64::MAX {
            match self.core.next_due() {
                Some(due) if due <= now => self.step(rt, now, Event::Tick)?,
                _ => break,
            }
        }
        Ok(())
    }
}

fn main(rt: HostRuntime) -> anyhow::Result<()> {
    let mut proxy = Proxy::new(rt.alloc())?;
    for (now, came) in COMES {
        if let Some((port, bytes)) = came {
            let from = at(port);
            proxy.step(&rt, now, Event::Datagram { from, bytes })?;
        }
        proxy.do_what_is_due(&rt, now)?;
        match proxy.core.next_due() {
            Some(due) => println!(rt; "{due} ms: the next thing is due")?,
            None => println!(rt; "nothing is due")?,
        }
    }
    Ok(())
}
