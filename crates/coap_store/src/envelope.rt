//! In what a client is sent a response.
ghost use Rattle.std.specs.Prelude.{◌≡◌};

use coap_message::{Code, Head, Kind, Pieces, Token};

/// What a response is sent to a client in: all that the message has beside its code, options and
/// payload, and the ETags by which it may become a 2.03.
#[derive(Clone, Copy)]
pub struct Envelope<'r> {
    /// The type of the message.
    pub kind: Kind,
    /// Its Message ID.
    pub id: u16,
    /// The token of the client's request.
    pub token: &'r Token,
    /// The ETags of that request, of responses that the client holds (RFC 7252, 5.10.6.2).
    pub tags: &'r Pieces,
}

impl Envelope<'_> {
    /// The head of the message, with this code.
    pub(crate) fn head(self, code: Code) -> Head
        ensures { result ≡ record { kind = self.entry.kind; code = code; id = self.entry.id } }
    {
        Head {
            kind: self.kind,
            code,
            id: self.id,
        }
    }
}
