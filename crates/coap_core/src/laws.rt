//! Laws of what the crate is given.
ghost use Rattle.std.specs.Prelude.{◌≤◌, length};
ghost use Rattle.coap_message.specs.Uint.{IsBytes};

use coap_message::Token;

/// Does nothing: a token has at most eight bytes.
pub(crate) fn tokens_are_short(token: &Token)
    ensures { length token.now ≤ 8 }
{
    let _laws = token.as_slice();
}

/// Does nothing: each byte is below 256.
pub(crate) fn bytes_are_small(bytes: &[u8])
    ensures { IsBytes bytes.now }
{}
