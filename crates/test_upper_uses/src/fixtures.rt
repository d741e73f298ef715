//! What several first uses need.
ghost use Rattle.std.specs.Prelude.{◌≡◌, IfOk};

use coap_core::{Core, Endpoint, Ip, LimitValues, Limits, Routes};
use coap_port::{MemoryPort, Scripted};
use coap_proxyd::ListStore;
use std::alloc::{AllocError, Global};
use std::test::*;

/// A client.
pub(crate) const CLIENT: Endpoint = Endpoint {
    ip: Ip::V4([192, 0, 2, 7]),
    port: 40001,
};

/// The origin server of the routes.
pub(crate) const ORIGIN: Endpoint = Endpoint {
    ip: Ip::V4([127, 0, 0, 1]),
    port: 5690,
};

/// Routes that map `/t` to `/temp` of the origin server.
pub(crate) fn routes(alloc: Global) -> Result<Routes, Fail> {
    let prefix = String::from_str(alloc, "/t")?;
    let origin = String::from_str(alloc, "coap://127.0.0.1:5690/temp")?;
    Ok(Routes::new(alloc, &[], &[], &[(prefix, origin)], None)?)
}

/// A proxy that maps `/t` to `/temp` of the origin server, with the default limits.
pub(crate) fn core(alloc: Global) -> Result<Core<ListStore>, Fail>
    ensures events { IfOk result (λ core. core.events ≡ 0) }
    ensures last { IfOk result (λ core. core.last ≡ 0) }
{
    let limits = Limits::new(LimitValues::default())?;
    let routes = routes(alloc)?;
    Ok(Core::new(alloc, (), limits, routes, 1, 0)?)
}

/// A port that gives a tick at this moment, in milliseconds.
pub(crate) fn ticking_at(alloc: Global, now: u64) -> Result<MemoryPort, Fail>
    ensures { IfOk result (λ port. port.failures ≡ 0) }
{
    let mut port = MemoryPort::new(alloc, None);
    port.add(Scripted {
        now,
        draw: 250,
        datagram: None,
    })?;
    Ok(port)
}

/// The words of a command line.
pub(crate) fn words(alloc: Global, line: &str) -> Result<Vec<String>, AllocError> {
    let mut words = Vec::new(alloc);
    for word in line.split(' ') {
        words.push(String::from_str(alloc, word)?)?;
    }
    Ok(words)
}
