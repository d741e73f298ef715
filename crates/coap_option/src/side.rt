//! Whether a message is on the side of requests or of responses (RFC 7252, 5.1 and 5.2).
ghost use Rattle.std.specs.Prelude.{◌≡◌};

use coap_message::Code;

/// Requests or responses: an option may be defined for either, or for both.
#[derive(Clone, Copy)]
pub enum Side {
    Request,
    Response,
}

impl Side {
    ghost use Rattle.coap_option.specs.Side.{side_of};

    /// The side of a message with this code: requests for a code of class 0, which Empty is
    /// too, responses for any other.
    pub fn of(code: Code) -> Side
        ensures { result ≡ side_of code }
    {
        if code.class() == 0 {
            Side::Request
        } else {
            Side::Response
        }
    }
}
