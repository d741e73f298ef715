//! A proxy in a program of its own: its limits, its maps, its store and its socket.
//!
//! A client and a device are part of the program, so that it shows something and ends. A server
//! has one call of `drive` in place of what is below `bind`.
#![tactic(auto)]

mod peers;

use crate::peers::Peers;
use coap_proxyd::{Core, LimitValues, Limits, LruStore, Routes, UdpPort, drive};
use std::hash::RandomState;
use std::random::RandomSource;

fn main(rt: HostRuntime) -> anyhow::Result<()> {
    let alloc = rt.alloc();
    let peers = Peers::new(&rt)?;

    let limits = Limits::new(LimitValues {
        cache_bytes: 65_536,
        exchanges: 32,
        ..LimitValues::version_2()
    })?;
    let prefix = String::from_str(alloc, "/t")?;
    let origin = format!(in alloc; "coap://{}/temp", peers.device()?)?;
    let routes = Routes::new(alloc, &[], &[], &[(prefix, origin)], None)?;

    let (mut id, mut salt) = ([0; 2], [0; 8]);
    rt.fill_bytes(&mut id)?;
    rt.fill_bytes(&mut salt)?;
    let (first_id, salt) = (u16::from_le_bytes(id), u64::from_le_bytes(salt));
    let hashes = RandomState::new(&rt)?;
    let mut core: Core<LruStore<RandomState>> = Core::new(
        alloc, hashes, limits, routes, first_id, salt,
    )?;

    let mut port = UdpPort::bind(&rt, alloc, peers.proxy())?;
    peers.ask()?;
    drive(alloc, &mut core, &mut port, 2)?; // a datagram comes, and is sent on
    peers.answer()?;
    let stats = drive(alloc, &mut core, &mut port, 2)?; // the same for the answer
    peers.show(&rt)?;
    println!(rt; "sent {}, cached {}", stats.sent, core.counts().entries)?;
    Ok(())
}
