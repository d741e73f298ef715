//! How a recording begins: comments that say how its run was started.
ghost use Rattle.std.specs.Prelude.{◌≡◌, ◌<◌, ◌^◌, ◌++◌, ◌∷◌, [], ℕ, List, map, string_bytes, true, false, IfOk, OnOk, Err};
ghost use Rattle.std.specs.List.{flat_map, list_any};
ghost use Rattle.std.specs.Option.{option_copied};
ghost use Rattle.coap_lines.specs.Lines.{ended, is_too_long, lines_of};
ghost use Rattle.coap_recording.specs.Header as spec;
ghost use Rattle.coap_recording.specs.Replayable.{AreSkipped};
ghost use Rattle.coap_recording.specs.declared.error.HeaderError.TheVariants as errors;

use crate::error::HeaderError;
use coap_lines::LONGEST;
use coap_uri::first_part;
use itoa::{Buffer, Integer};
use std::alloc::{AllocError, Global};

/// How a run starts: the first Message ID, and the salt of tokens.
#[derive(Clone, Copy, Debug, PartialEq, Eq)]
pub struct Start {
    pub first_id: u16,
    /// Below 2^63.
    pub salt: u64,
}

impl Start {
    /// Does nothing: both numbers are below 2^64.
    fn laws(self)
        ensures id { self.first_id < 2 ^ 64 }
        ensures salt { self.salt < 2 ^ 64 }
    {
        let _laws = (self.first_id, self.salt);
    }
}

/// The comments that a recording begins with, each with a line feed: the program with its version
/// and the words that make a replay the same run (`--replay`, `--id`, `--salt`, and then `words`,
/// as a shell reads them), and the lines of the configuration after `# config: `. A replay skips
/// them.
///
/// # Errors
/// `TooLong` if one of them is longer than the 16,384 bytes that a replay reads; `OutOfMemory`.
pub fn header_of(
    alloc: Global,
    version: &str,
    start: Start,
    words: &[String],
    config: &[u8],
) -> Result<Vec<u8>, HeaderError>
    ensures ok { IfOk result (λ text. text.items
        ≡ spec.header_text version.now start (map string_bytes words.now) config.now) }
    ensures skipped { IfOk result (λ text. AreSkipped
        (spec.header_lines version.now start (map string_bytes words.now) config.now) text.items) }
    ensures long { result ≡ Err errors.TooLong → list_any is_too_long
        (spec.header_lines version.now start (map string_bytes words.now) config.now) ≡ true }
{
    start.laws();
    let mut out = Vec::new(alloc);
    put_first(&mut out, version, start, words)?;
    if out.len() > LONGEST {
        return Err(HeaderError::TooLong);
    }
    out.extend_from_slice(b"\n")?;
    put_config(&mut out, config)?;
    Ok(out)
}

/// Adds the comment that says since when is recorded, with a line feed: `# recorded since DATE`.
/// A replay skips it, too.
///
/// # Errors
/// `TooLong` if it is longer than the 16,384 bytes that a replay reads; `OutOfMemory`. Part of it
/// may have been added then.
pub fn put_since(header: &mut Vec<u8>, date: &str) -> Result<(), HeaderError>
    ensures exact { OnOk result (header.new.items
        ≡ header.old.items ++ ended (spec.since_line date.now ∷ [])) }
    ensures skipped { (lines : List (List ℕ)) → AreSkipped lines header.old.items
        → OnOk result (AreSkipped (lines ++ spec.since_line date.now ∷ []) header.new.items) }
    ensures long { result ≡ Err errors.TooLong → is_too_long (spec.since_line date.now) ≡ true }
{
    let begin = header.len();
    header.extend_from_slice(b"# recorded since ")?;
    put_word(header, date.as_bytes())?;
    if header.len() - begin > LONGEST {
        return Err(HeaderError::TooLong);
    }
    header.extend_from_slice(b"\n")?;
    Ok(())
}

/// Whether a byte stands for itself in a word of a shell.
fn is_plain(byte: u8) -> bool
    ensures { result ≡ spec.is_plain byte }
{
    matches!(byte, b'+'..=b':' | b'@'..=b'Z' | b'a'..=b'z' | 0x80..=0xFF | b'%' | b'=' | b'_')
}

/// Adds a byte as a shell reads it.
fn put_byte(out: &mut Vec<u8>, byte: u8) -> Result<(), AllocError>
    ensures { OnOk result (out.new.items ≡ out.old.items ++ spec.byte_shown byte) }
{
    if is_plain(byte) {
        out.extend_from_slice(&[byte])
    } else if byte == b'\n' {
        out.extend_from_slice(b"\"$(printf '\\n%s' ")
    } else {
        out.extend_from_slice(&[b'\\', byte])
    }
}

/// Adds the bytes of a word as a shell reads them.
fn put_bytes(out: &mut Vec<u8>, word: &[u8]) -> Result<(), AllocError>
    ensures { OnOk result (out.new.items ≡ out.old.items ++ flat_map spec.byte_shown word.now) }
{
    for byte in word {
        put_byte(out, *byte)?;
    }
    Ok(())
}

/// Ends what `put_byte` begins for a line feed.
fn put_end(out: &mut Vec<u8>, byte: u8) -> Result<(), AllocError>
    ensures { OnOk result (out.new.items ≡ out.old.items ++ spec.feed_ended byte) }
{
    if byte == b'\n' {
        out.extend_from_slice(b")\"")
    } else {
        Ok(())
    }
}

/// Ends what `put_bytes` begins for the line feeds of a word.
fn put_ends(out: &mut Vec<u8>, word: &[u8]) -> Result<(), AllocError>
    ensures { OnOk result (out.new.items ≡ out.old.items ++ flat_map spec.feed_ended word.now) }
{
    for byte in word {
        put_end(out, *byte)?;
    }
    Ok(())
}

/// Adds a word as a shell reads it.
fn put_word(out: &mut Vec<u8>, word: &[u8]) -> Result<(), AllocError>
    ensures { OnOk result (out.new.items ≡ out.old.items ++ spec.word_shown word.now) }
{
    if word.is_empty() {
        out.extend_from_slice(b"''")
    } else {
        put_bytes(out, word)?;
        put_ends(out, word)
    }
}

/// Adds words, each after a space.
fn put_words(out: &mut Vec<u8>, words: &[String]) -> Result<(), AllocError>
    ensures { OnOk result (out.new.items
        ≡ out.old.items ++ spec.words_shown (map string_bytes words.now)) }
{
    for word in words {
        out.extend_from_slice(b" ")?;
        put_word(out, word.as_bytes())?;
    }
    Ok(())
}

/// Adds a number in decimal digits.
fn put_number<I: Integer>(out: &mut Vec<u8>, number: I) -> Result<(), AllocError>
    ensures { OnOk result (out.new.items ≡ out.old.items ++ I.text number) }
{
    out.extend_from_slice(Buffer::new().format(number).as_bytes())
}

/// Adds the words that say how a run was started.
#[tactic(auto, unfolding(crate::specs::Header::start_shown))]
fn put_start(out: &mut Vec<u8>, start: Start) -> Result<(), AllocError>
    ensures { OnOk result (out.new.items ≡ out.old.items ++ spec.start_shown start) }
{
    out.extend_from_slice(b" --replay --id ")?;
    put_number(out, start.first_id)?;
    out.extend_from_slice(b" --salt ")?;
    put_number(out, start.salt)?;
    Ok(())
}

/// Adds the first line, without its line feed.
#[tactic(auto, unfolding(crate::specs::Header::first_line))]
fn put_first(
    out: &mut Vec<u8>,
    version: &str,
    start: Start,
    words: &[String],
) -> Result<(), AllocError>
    ensures { OnOk result (out.new.items ≡ out.old.items
        ++ spec.first_line version.now start (map string_bytes words.now)) }
{
    out.extend_from_slice(b"# coap-proxyd ")?;
    put_word(out, version.as_bytes())?;
    put_start(out, start)?;
    put_words(out, words)?;
    Ok(())
}

/// Adds a line of a configuration as a comment, with a line feed.
fn put_config_line(out: &mut Vec<u8>, line: &[u8]) -> Result<(), HeaderError>
    ensures ok { OnOk result (out.new.items ≡ out.old.items ++ spec.config_text (line.now ∷ [])) }
    ensures short { OnOk result (spec.is_one_long (line.now ∷ []) ≡ false) }
    ensures long { result ≡ Err errors.TooLong → spec.is_one_long (line.now ∷ []) ≡ true }
{
    if line.len() > LONGEST - 10 {
        return Err(HeaderError::TooLong);
    }
    out.extend_from_slice(b"# config: ")?;
    out.extend_from_slice(line)?;
    out.extend_from_slice(b"\n")?;
    Ok(())
}

/// Adds what is before a line feed as such a comment, or what follows the last one, if it isn't
/// empty.
fn put_part(out: &mut Vec<u8>, line: &[u8], rest: Option<&[u8]>) -> Result<(), HeaderError>
    ensures ok { OnOk result (out.new.items ≡ out.old.items
        ++ spec.config_text (spec.line_before line.now (option_copied rest.entry))) }
    ensures short { OnOk result
        (spec.is_one_long (spec.line_before line.now (option_copied rest.entry)) ≡ false) }
    ensures long { result ≡ Err errors.TooLong
        → spec.is_one_long (spec.line_before line.now (option_copied rest.entry)) ≡ true }
{
    match (line, rest) {
        ([], None) => Ok(()),
        _ => put_config_line(out, line),
    }
}

/// Adds the lines of a configuration, each as a comment with a line feed.
fn put_config(out: &mut Vec<u8>, config: &[u8]) -> Result<(), HeaderError>
    ensures ok { OnOk result (out.new.items
        ≡ out.old.items ++ spec.config_text (lines_of config.now)) }
    ensures short { OnOk result (spec.is_one_long (lines_of config.now) ≡ false) }
    ensures long { result ≡ Err errors.TooLong → spec.is_one_long (lines_of config.now) ≡ true }
{
    let mut rest = Some(config);
    while let Some(text) = rest {
        let (line, after) = first_part(text, b'\n');
        put_part(out, line, after)?;
        rest = after;
    }
    Ok(())
}
