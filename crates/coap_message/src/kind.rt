//! The type of a message (RFC 7252, 3).
ghost use Rattle.std.specs.Prelude.{◌≡◌, ◌<◌};
ghost use Rattle.coap_message.specs.Kind.{kind_number, kind_of};

/// The type of a message (RFC 7252, 3).
#[derive(Clone, Copy, Debug, PartialEq, Eq)]
pub enum Kind {
    /// Confirmable.
    Con,
    /// Non-confirmable.
    Non,
    /// Acknowledgement.
    Ack,
    /// Reset.
    Rst,
}

impl Kind {
    /// The two bits of the header that encode the type: 0 to 3.
    pub fn number(self) -> u8
        ensures { result ≡ kind_number self }
    {
        self as u8
    }

    /// The type that two bits of the header encode.
    pub fn of_bits(bits: u8) -> Kind
        requires { bits < 4 }
        ensures { result ≡ kind_of bits }
    {
        match bits {
            0 => Kind::Con,
            1 => Kind::Non,
            2 => Kind::Ack,
            _ => Kind::Rst,
        }
    }
}
