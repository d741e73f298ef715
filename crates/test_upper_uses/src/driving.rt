//! `coap_stats`, `coap_recording`, `coap_proxyd`.
use crate::fixtures;
use coap_core::{LimitValues, Limits};
use coap_port::{MemoryPort, Port, Scripted, drive, drive_watched};
use coap_proxyd::{ListStore, Server, Start, read_plan, read_wanted};
use coap_recording::Recording;
use coap_stats::{Statistics, put_line};
use std::test::*;

#[test]
fn coap_stats(rt: HostRuntime) -> Result<(), Fail> {
    let alloc = rt.alloc();
    let limits = Limits::new(LimitValues::default())?;
    let mut core = fixtures::core(alloc)?;
    let mut port = fixtures::ticking_at(alloc, 2_000)?;
    let mut statistics = Statistics::new(alloc, core.routes(), core.limits().values())?;
    drive_watched(alloc, &mut core, &mut port, &mut statistics, 1)?;
    let mut text = Vec::new(alloc);
    put_line(&mut text, &statistics, &core.counts(), limits.values())?;
    assert!(rt; text.starts_with(b"seconds=2 received=0 sent=0 "));
    Ok(())
}

#[test]
fn coap_recording(rt: HostRuntime) -> Result<(), Fail> {
    let alloc = rt.alloc();
    let mut core = fixtures::core(alloc)?;
    let inner = fixtures::ticking_at(alloc, 5)?;
    let mut port = Recording::new(alloc, inner, Vec::new(alloc))?;
    drive(alloc, &mut core, &mut port, 1)?;
    port.finish();
    assert!(rt; !port.has_ended());
    assert_eq!(rt; port.writer().as_slice(), b"5 250 tick\n".as_slice()); // `replay` does it again
    Ok(())
}

#[test]
fn coap_proxyd(rt: HostRuntime) -> Result<(), Fail> {
    let alloc = rt.alloc();
    let words = fixtures::words(alloc, "--turns 1")?;
    let wanted = read_wanted(alloc, &words)?; // `--turns 1`: the port below gives one
    let plan = read_plan(alloc, wanted, None)?; // or the bytes of a configuration
    let mut port = MemoryPort::new(alloc, None); // or a UdpPort at `plan.local`
    port.add(Scripted {
        now: 5,
        draw: 250,
        datagram: None,
    })?;
    let start = Start {
        first_id: 1,
        salt: 0,
    };
    Server::<ListStore>::new(alloc, (), plan).serve_port(start, &mut port)?;
    assert_eq!(rt; (port.last(), port.failures()), (5, 0)); // it gave its turn
    Ok(())
}
