//! Where the routes take a request.
ghost use Rattle.std.specs.Prelude.{◌≡◌, ◌++◌, OnOk, true};
ghost use Rattle.coap_core.specs.Events.{seen};
ghost use Rattle.coap_explain.specs.Account as text;
ghost use Rattle.coap_explain.specs.Known.{is_found};
ghost use Rattle.coap_explain.specs.Ways as spec;

use crate::messages::put_target;
use coap_core::{Event, Routes};
use coap_endpoint::Target;
use coap_message::MessageRef;
use coap_option::screen_request_ref;
use coap_target::TargetError;
use std::alloc::Global;
use std::io;
use std::io::Write;

/// Where the routes take a request.
pub(crate) enum Routed {
    /// Nowhere, or it is no request, or one of its options is refused.
    Nowhere,
    To(Target),
    /// There was no memory to find it.
    Unknown,
}

impl Drop for Routed {
    fn drop(self) {
        match self {
            Routed::Nowhere | Routed::Unknown => {}
            Routed::To(target) => {
                let _ = target;
            }
        }
    }
}

impl Routed {
    /// Where the routes take the request of an event.
    pub(crate) fn of(alloc: Global, event: Event<'_>, routes: &Routes) -> Routed
        ensures { is_found result ≡ true
            → result ≡ spec.routed_of routes.now (seen event.entry) }
    {
        let Event::Datagram { bytes, .. } = event else {
            return Routed::Nowhere;
        };
        match MessageRef::read(bytes) {
            Ok(message) if message.code().is_request() => {
                Routed::of_request(alloc, &message, routes)
            }
            Ok(_) | Err(_) => Routed::Nowhere,
        }
    }

    /// Where the routes take a request.
    fn of_request(alloc: Global, request: &MessageRef<'_>, routes: &Routes) -> Routed
        ensures { is_found result ≡ true
            → result ≡ spec.routed_with routes.now request.now }
    {
        if screen_request_ref(request).is_err() {
            return Routed::Nowhere;
        }
        match routes.target_of_ref(alloc, request) {
            Ok(target) => Routed::To(target),
            Err(TargetError::OutOfMemory) => Routed::Unknown,
            Err(TargetError::BadUri | TargetError::NotProxied | TargetError::NotFound) => {
                Routed::Nowhere
            }
        }
    }

    /// Adds the target, if there is one, or that there was no memory to find it.
    pub(crate) fn put(&self, line: &mut Vec<u8>) -> io::Result<()>
        ensures { OnOk result
            (line.new.items ≡ line.old.items ++ text.routed_text self.now) }
    {
        match self {
            Routed::Nowhere => Ok(()),
            Routed::To(target) => {
                line.write_all(b" ")?;
                put_target(line, target)
            }
            Routed::Unknown => line.write_all(b" target: out of memory"),
        }
    }
}
