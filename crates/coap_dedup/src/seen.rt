//! Whether a message was seen before.

/// Whether a message was seen before (RFC 7252, 4.5).
#[derive(Clone, Copy)]
pub enum Seen<'a> {
    /// It is new.
    New,
    /// It was seen. The reply that was kept for it, if there was one: the datagram to send again.
    Again(Option<&'a [u8]>),
}
