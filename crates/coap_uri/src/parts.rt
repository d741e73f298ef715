//! Parts of the text of a URI between separators, percent-decoded (RFC 3986, 2.1; RFC 7252, 6.4).
ghost use Rattle.std.specs.Prelude.{◌≡◌, ◌==◌, ◌<◌, ◌∷◌, ◌++◌, [], IfOk, IfSome, OnOk, length, position};
ghost use Rattle.std.specs.List.{list_all, slice_split};
ghost use Rattle.std.specs.Cow.{cow_slice_items};
ghost use Rattle.std.specs.Option.{option_copied};
ghost use Rattle.percent_encoding.specs.Cow.{IsBorrowedSlice};
ghost use Rattle.percent_encoding.specs.Percent as spec;
ghost use Rattle.coap_uri.specs.Uri.{decoded_parts, is_short, parts_left};

use coap_message::{OutOfMemory, Pieces};
use percent_encoding::percent_decode;
use std::alloc::Global;
use std::borrow::CowSlice;

/// The maximum length of a host, a path segment or a query part, in bytes (RFC 7252, 5.10).
pub const LONGEST: usize = 255;

/// A text with its escapes decoded, borrowed if it has no `%`. A `%` that doesn't begin an escape
/// is an ordinary byte.
#[tactic(auto, using(crate::proofs::Escapes::percent_decode_plain))]
pub(crate) fn decoded(alloc: Global, text: &[u8]) -> Result<CowSlice<'_, u8>, OutOfMemory>
    ensures value { IfOk result (λ bytes. cow_slice_items bytes ≡ spec.percent_decode text.now) }
    ensures same { IfOk result
        (λ bytes. IsBorrowedSlice bytes → cow_slice_items bytes ≡ text.now) }
{
    if !text.contains(&b'%') {
        return Ok(CowSlice::Borrowed(text));
    }
    let mut bytes = Vec::with_capacity(alloc, text.len())?;
    percent_decode(text).append_to(&mut bytes)?;
    bytes.shrink_to_fit();
    Ok(CowSlice::Owned(bytes))
}

/// Appends a text to a list, decoded.
fn push_decoded(alloc: Global, text: &[u8], list: &mut Pieces) -> Result<(), OutOfMemory>
    ensures { OnOk result (list.new ≡ list.old ++ spec.percent_decode text.now ∷ []) }
{
    list.push(decoded(alloc, text)?.as_slice())
}

/// The parts of a text between separators, each decoded. They are stored in one block, which is
/// allocated up front and shrunk to their length.
pub(crate) fn split_decoded(
    alloc: Global,
    text: &[u8],
    separator: u8,
) -> Result<Pieces, OutOfMemory>
    ensures { IfOk result (λ parts. parts ≡ decoded_parts separator text.now) }
{
    let mut parts = Pieces::with_room(alloc, text.len() + 1)?;
    let mut rest = Some(text);
    while let Some(text) = rest {
        let (part, after) = first_part(text, separator);
        push_decoded(alloc, part, &mut parts)?;
        rest = after;
    }
    parts.shrink_to_fit();
    Ok(parts)
}

/// What comes before the first separator, and what comes after it, if there is one.
pub fn first_part(text: &[u8], separator: u8) -> (&[u8], Option<&[u8]>)
    ensures parts { slice_split (λ b. b == separator) text.now
        ≡ result.0.now ∷ parts_left separator (option_copied result.1) }
    ensures shorter { IfSome result.1 (λ after. length after.now < length text.now) }
{
    match place_of(text, separator) {
        Some(end) => (&text[..end], Some(&text[end + 1..])),
        None => (text, None),
    }
}

/// The position of the first occurrence of a byte.
fn place_of(text: &[u8], byte: u8) -> Option<usize>
    ensures { result ≡ position (λ b. b == byte) text.now }
{
    text.iter().position(|b| *b == byte)
}

/// Whether no part is too long.
pub(crate) fn all_short(parts: &Pieces) -> bool
    ensures { result ≡ list_all is_short parts.now }
{
    for part in parts.iter() {
        if part.len() > LONGEST {
            return false;
        }
    }
    true
}
