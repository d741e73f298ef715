//! Tokens of forwarded requests (RFC 7252, 5.3.1).
ghost use Rattle.std.specs.Prelude.{◌≡◌, ◌≢◌, ◌<◌, ◌^◌, length, IfSome, IfNone};
ghost use Rattle.coap_forward.specs.Messages.{token_of};

use coap_message::{Token, uint};

/// The token of an exchange's request: the salt and the exchange's number, in eight bytes.
#[tactic(auto, unfolding(crate::specs::Messages::token_of))]
pub fn token_of(salt: u64, number: u64) -> Token
    ensures { result ≡ token_of salt number }
{
    Token::new(&salt.wrapping_add(number).to_be_bytes())
}

/// The number of the exchange whose request would have this token, if the token has eight bytes.
pub fn number_of(salt: u64, token: &[u8]) -> Option<u64>
    ensures found { IfSome result (λ number. token_of salt number ≡ token.now) }
    ensures small { IfSome result (λ number. number < 2 ^ 64) }
    ensures missing { IfNone result (length token.now ≢ 8) }
{
    if token.len() == 8 {
        Some(uint(token).wrapping_sub(salt))
    } else {
        None
    }
}
