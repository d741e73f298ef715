//! Events, which borrow their bytes.
ghost use Rattle.coap_model.specs.Events.{IsEvent};
ghost use Rattle.coap_core.specs.Events.{seen};

use crate::laws;
use coap_endpoint::Endpoint;

/// What happens to a proxy.
#[derive(Clone, Copy)]
pub enum Event<'a> {
    /// A datagram came from an endpoint.
    Datagram { from: Endpoint, bytes: &'a [u8] },
    /// Time has passed.
    Tick,
}

impl Event<'_> {
    /// Does nothing: the bytes of a datagram are below 256.
    pub(crate) fn laws(&self)
        ensures { IsEvent (seen self.now) }
    {
        if let Event::Datagram { bytes, .. } = self {
            laws::bytes_are_small(bytes);
        }
    }
}
