//! What several first uses need.
ghost use Rattle.std.specs.Prelude.{IfOk};
ghost use Rattle.coap_endpoint.specs.Target.{IsTarget};

use coap_cache::{CacheKey, SharedKey, SharedMessage, Stored};
use coap_endpoint::{Endpoint, Ip, Target};
use coap_message::{DecodeError, OptionList, OutOfMemory, Pieces, decode};
use std::alloc::Global;

/// A client.
pub(crate) const CLIENT: Endpoint = Endpoint {
    ip: Ip::V4([192, 0, 2, 7]),
    port: 40001,
};

/// An origin server.
pub(crate) const ORIGIN: Endpoint = Endpoint {
    ip: Ip::V4([127, 0, 0, 1]),
    port: 5690,
};

/// The target `/temp` of the origin server.
pub(crate) fn target(alloc: Global) -> Result<Target, OutOfMemory>
    ensures { IfOk result IsTarget }
{
    let mut path = Pieces::new(alloc);
    path.push(b"temp")?;
    Ok(Target {
        host: None,
        at: ORIGIN,
        port: None,
        path,
        query: Pieces::new(alloc),
    })
}

/// The key of a GET of that target.
pub(crate) fn key(alloc: Global) -> Result<SharedKey, OutOfMemory> {
    let target = target(alloc)?;
    let options = OptionList::new(alloc);
    SharedKey::new(alloc, CacheKey { target, options }, 0)
}

/// A 2.05 with Max-Age 10 and an ETag, which came at moment 0.
pub(crate) fn stored(alloc: Global) -> Result<Stored, DecodeError> {
    Ok(Stored {
        response: SharedMessage::new(decode(alloc, b"\x60\x45\x00\x01\x41\xAB\xA1\x0A\xFF21")?),
        asked: 1,
        got_no: 2,
        got: 0,
        marked: false,
    })
}
