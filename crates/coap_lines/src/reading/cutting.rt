//! Splitting a text at a byte, and how much of a line is at hand.
ghost use Rattle.std.specs.Prelude.{◌≡◌, ◌≤◌, ◌<◌, ◌+◌, ◌++◌, ◌∷◌, [], false, true, take, length, IfSome};
ghost use Rattle.coap_lines.specs.Texts.{cut, has, parts_seen};

use memchr::memchr;

/// What comes before the first such byte and what comes after it, if there is one.
pub(crate) fn cut(text: &[u8], byte: u8) -> Option<(&[u8], &[u8])>
    ensures parts { parts_seen result ≡ cut byte text.now }
    ensures within { IfSome result (λ parts. length parts.1.now ≤ length text.now) }
{
    let place = memchr(byte, text)?;
    Some((&text[..place], &text[place + 1..]))
}

/// Where taking the bytes of a line stopped.
#[derive(Clone, Copy, Debug, PartialEq, Eq)]
pub(crate) enum Piece {
    /// After its line feed.
    Feed,
    /// Before its line feed: no more bytes were wanted, or at hand.
    Open,
    /// At the end of the input.
    Last,
}

/// How many of these bytes belong to the line, and whether its line feed follows.
pub(crate) fn line_part(bytes: &[u8]) -> (usize, bool)
    ensures within { result.0 ≤ length bytes.now }
    ensures none { has 10 (take result.0 bytes.now) ≡ false }
    ensures ended { result.1 ≡ true → result.0 < length bytes.now }
    ensures feed { result.1 ≡ true
        → take (result.0 + 1) bytes.now ≡ take result.0 bytes.now ++ 10 ∷ [] }
    ensures whole { result.1 ≡ false → result.0 ≡ length bytes.now }
{
    match cut(bytes, b'\n') {
        Some((line, _)) => (line.len(), true),
        None => (bytes.len(), false),
    }
}
