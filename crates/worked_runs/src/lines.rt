//! What a run's comment lines with a mark say about it.
ghost use Rattle.std.specs.Prelude.{◌≡◌, IfSome, drop, length};

use std::alloc::{AllocError, Global};

/// The mark of a line with the program's words, separated by spaces: `# words: WORD ..`.
const WORDS: &[u8] = b"# words:";
/// The mark of a line of a configuration: `# config: LINE`.
const CONFIG: &[u8] = b"# config: ";
/// The mark of a line of what must be written: `# > LINE`, or `# >` where that is empty.
const EXPECTED: &[u8] = b"# >";

/// What follows the mark at the front of a line, if the line has the mark.
fn after<'a>(line: &'a [u8], mark: &[u8]) -> Option<&'a [u8]>
    ensures { IfSome result (λ text. text.now ≡ drop (length mark.now) line.now) }
{
    line.strip_prefix(mark)
}

/// The words that a line gives, if it gives some.
pub(crate) fn words_of(line: &[u8]) -> Option<&[u8]> {
    after(line, WORDS)
}

/// The line of what must be written that a line gives, if it gives one.
pub(crate) fn said_by(line: &[u8]) -> Option<&[u8]> {
    let said = after(line, EXPECTED)?;
    Some(said.strip_prefix(b" ").unwrap_or(said))
}

/// The words of a text, which are separated by spaces. A word that isn't UTF-8 is left out.
pub(crate) fn words_in(alloc: Global, text: &[u8]) -> Result<Vec<String>, AllocError> {
    let mut words = Vec::new(alloc);
    for word in text.split(|byte| *byte == b' ') {
        if let Ok(word) = str::from_utf8(word) {
            if !word.is_empty() {
                words.push(String::from_str(alloc, word)?)?;
            }
        }
    }
    Ok(words)
}

/// The configuration of a run, if there is one.
pub(crate) fn config_of(alloc: Global, events: &[u8]) -> Result<Option<Vec<u8>>, AllocError> {
    let mut text = Vec::new(alloc);
    for line in events.split(|byte| *byte == b'\n') {
        if let Some(value) = after(line, CONFIG) {
            text.extend_from_slice(value)?;
            text.push(b'\n')?;
        }
    }
    Ok(if text.is_empty() { None } else { Some(text) })
}
