//! `coap_core` and its watchers, `coap_port`, `coap_udp`.
use crate::fixtures;
use crate::fixtures::{CLIENT, ORIGIN};
use coap_core::{
    Core, Datagram, Endpoint, Event, Ip, LimitValues, Limits, Routes, Store, Watch, WatchedTurn,
};
use coap_message::Seq;
use coap_port::{MemoryPort, Scripted, drive, drive_watched};
use coap_proxyd::ListStore;
use coap_udp::UdpPort;
use std::test::*;

#[test]
fn coap_core(rt: HostRuntime) -> Result<(), Fail> {
    let alloc = rt.alloc();
    let (client, origin) = (CLIENT, ORIGIN);
    let limits = Limits::new(LimitValues::default())?;
    let routes = fixtures::routes(alloc)?;
    let mut core: Core<ListStore> = Core::new(alloc, (), limits, routes, 1, 0)?;
    let mut out = Datagram::new(alloc, core.datagram())?;
    let request = Event::Datagram {
        from: client,
        bytes: b"\x50\x01\x00\x07\xB1t",
    };
    let report = core.step(0, 250, request, &mut out)?;
    assert!(rt; report.send.is_none()); // nothing is sent yet, but something is due
    assert!(rt; core.next_due() == Some(0));
    let report = core.step(0, 250, Event::Tick, &mut out)?;
    assert!(rt; report.send == Some(origin) && out.bytes().len() == 17); // the request, sent on
    Ok(())
}

/// The moment of the last turn that was lost.
#[derive(Drop)]
struct LastLost(u64);

impl Watch for LastLost {
    ghost sees = { λ before told after. Unit {0} }; // nothing is said of what it does

    fn foresee<S: Store + Drop>(&mut self, _turn: WatchedTurn<'_>, _core: &Core<S>) {}

    fn see<S: Store + Drop>(&mut self, turn: WatchedTurn<'_>, _core: &Core<S>) {
        if turn.did.is_none() {
            self.0 = turn.now;
        }
    }
}

#[test]
fn coap_core_watched(rt: HostRuntime) -> Result<(), Fail> {
    let alloc = rt.alloc();
    let mut core = fixtures::core(alloc)?;
    let mut watcher = LastLost(0);
    let lost = WatchedTurn {
        now: 7,
        draw: 250,
        event: Event::Tick,
        did: None,
        sent: &[],
        went: false,
    };
    watcher.see(lost, &core);
    assert_eq!(rt; watcher.0, 7);
    // this turn isn't lost
    let mut port = fixtures::ticking_at(alloc, 2_000)?;
    drive_watched(alloc, &mut core, &mut port, &mut watcher, 1)?;
    assert_eq!(rt; watcher.0, 7);
    Ok(())
}

#[test]
fn coap_port(rt: HostRuntime) -> Result<(), Fail> {
    let alloc = rt.alloc();
    let client = CLIENT;
    let request = Seq::from_slice(alloc, b"\x50\x01\x00\x07\xB1t")?;
    let mut core = fixtures::core(alloc)?;
    let mut port = MemoryPort::new(alloc, None);
    port.add(Scripted {
        now: 5,
        draw: 250,
        datagram: Some((client, request)),
    })?;
    let stats = drive(alloc, &mut core, &mut port, 2)?;
    assert_eq!(rt; (stats.turns, stats.sent, port.handed().len()), (2, 1, 1));
    Ok(())
}

#[test]
fn coap_udp(rt: HostRuntime) -> Result<(), Fail> {
    let alloc = rt.alloc();
    let mut core = fixtures::core(alloc)?;
    let ip = Ip::V4([127, 0, 0, 1]);
    let local = Endpoint { ip, port: 0 }; // a free port; CoAP's is 5683
    let mut port = UdpPort::bind(&rt, alloc, local)?;
    let stats = drive(alloc, &mut core, &mut port, 1)?; // one turn; a server takes 1 << 63
    assert_eq!(rt; stats.turns, 1);
    Ok(())
}
