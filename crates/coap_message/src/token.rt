//! Tokens (RFC 7252, 5.3.1).
ghost use Rattle.std.specs.Prelude.{◌≡◌, ◌≤◌, [], length, ◌-◌};

use std::marker::Model;

/// A token: at most eight bytes (RFC 7252, 3). A contract sees the bytes.
#[derive(Clone, Copy, Debug, PartialEq, Eq)]
pub struct Token {
    places: [u8; 8],
    len: usize,
}

impl Model for Token {
    ghost use Rattle.std.specs.Prelude.{ℕ, List};
    ghost use Rattle.std.specs.Coded.{coded_ℕ, coded_list};

    ghost Value = { List ℕ };

    ghost coded = { coded_list coded_ℕ };

    ghost use Rattle.coap_message.specs.Token.{token_bytes, IsToken};
    ghost use Rattle.coap_message.specs.TokenForm.{padded, one_form};

    ghost view = { token_bytes };

    ghost invariant = { IsToken };

    ghost inverse = { padded };

    ghost inverse_ok = { one_form };
}

impl Token {
    /// The greatest number of bytes in a token.
    pub const MOST: usize = 8;

    /// The empty token.
    pub fn empty() -> Token
        ensures { result ≡ [] }
    {
        Token {
            places: [0; 8],
            len: 0,
        }
    }

    /// The token with these bytes.
    pub fn new(bytes: &[u8]) -> Token
        requires { length bytes.now ≤ 8 }
        ensures { result ≡ bytes.now }
    {
        let len = bytes.len();
        let mut places = [0; 8];
        places[..len].copy_from_slice(bytes);
        Token { places, len }
    }

    /// The bytes of the token.
    pub fn as_slice(&self) -> &[u8]
        ensures bytes { result.now ≡ self.now }
        ensures within { length result.now ≤ 8 }
    {
        &self.places[..self.len]
    }
}
