//! Incoming messages.
use coap_endpoint::Endpoint;
use coap_message::{MessageRef, Moment};

/// An incoming message.
#[derive(Clone, Copy)]
pub(crate) struct Arrival<'m, 'a> {
    /// When it came, in milliseconds.
    pub(crate) now: Moment,
    /// Who sent it.
    pub(crate) from: Endpoint,
    pub(crate) message: &'m MessageRef<'a>,
}
