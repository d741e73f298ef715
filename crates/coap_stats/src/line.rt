//! The line of counts.
ghost use Rattle.std.specs.Prelude.{◌≡◌, ◌++◌, OnOk, map};
ghost use Rattle.std.specs.Fmt.{decimal};
ghost use Rattle.std.specs.List.{flat_map};
ghost use Rattle.coap_stats.specs.Line as spec;

use crate::statistics::Statistics;
use crate::words::{
    Fill, Word, answer_words, eviction_words, fills, opening_words, refusal_words, request_words,
    traffic_words,
};
use coap_core::{Counts, LimitValues};
use coap_message::OutOfMemory;
use itoa::Buffer;

/// Adds bytes.
pub(crate) fn put(out: &mut Vec<u8>, bytes: &[u8]) -> Result<(), OutOfMemory>
    ensures { OnOk result (out.new.items ≡ out.old.items ++ bytes.now) }
{
    out.extend_from_slice(bytes)?;
    Ok(())
}

/// Adds a number in decimal digits.
pub(crate) fn put_number(out: &mut Vec<u8>, number: u64) -> Result<(), OutOfMemory>
    ensures { OnOk result (out.new.items ≡ out.old.items ++ decimal number) }
{
    put(out, Buffer::new().format(number).as_bytes())
}

/// Adds a key and its number, behind a space.
fn put_word(out: &mut Vec<u8>, word: Word) -> Result<(), OutOfMemory>
    ensures { OnOk result
        (out.new.items ≡ out.old.items ++ spec.word_text (spec.word_seen word)) }
{
    put(out, b" ")?;
    put(out, word.key.as_bytes())?;
    put(out, b"=")?;
    put_number(out, word.number)
}

/// Adds keys and their numbers.
fn put_words(out: &mut Vec<u8>, words: &[Word]) -> Result<(), OutOfMemory>
    ensures { OnOk result (out.new.items
        ≡ out.old.items ++ spec.words_text (map spec.word_seen words.now)) }
{
    for word in words {
        put_word(out, *word)?;
    }
    Ok(())
}

/// Adds a key and its number, with the limit of that, behind a space.
fn put_fill(out: &mut Vec<u8>, fill: Fill) -> Result<(), OutOfMemory>
    ensures { OnOk result
        (out.new.items ≡ out.old.items ++ spec.fill_text (spec.fill_seen fill)) }
{
    put(out, b" ")?;
    put(out, fill.key.as_bytes())?;
    put(out, b"=")?;
    put_number(out, fill.count)?;
    put(out, b"/")?;
    put_number(out, fill.limit)
}

/// Adds keys and their numbers, with the limits of these.
fn put_fills(out: &mut Vec<u8>, fills: &[Fill]) -> Result<(), OutOfMemory>
    ensures { OnOk result (out.new.items
        ≡ out.old.items ++ flat_map spec.fill_text (map spec.fill_seen fills.now)) }
{
    for fill in fills {
        put_fill(out, *fill)?;
    }
    Ok(())
}

/// Adds the line of counts, with its line feed: words `KEY=NUMBER`, and at the end
/// `KEY=NUMBER/LIMIT`, in a fixed order. First the full seconds since the start; then what the
/// turns did; then what the proxy holds.
///
/// # Errors
/// Out of memory. Part of the line was added then.
pub fn put_line(
    out: &mut Vec<u8>,
    statistics: &Statistics,
    counts: &Counts,
    limits: &LimitValues,
) -> Result<(), OutOfMemory>
    ensures { OnOk result (out.new.items
        ≡ out.old.items
        ++ spec.line_of statistics.now.tally statistics.now.openings statistics.now.evictions
        counts.now limits.now) }
{
    let tally = &statistics.tally;
    put(out, b"seconds=")?;
    put_number(out, tally.last / 1000)?;
    put_words(out, &traffic_words(tally))?;
    put_words(out, &request_words(&tally.requests))?;
    put_words(out, &refusal_words(&tally.requests.refused))?;
    put_words(out, &answer_words(&tally.answers))?;
    put_words(out, &opening_words(&statistics.openings))?;
    put_words(out, &eviction_words(&statistics.evictions))?;
    put_fills(out, &fills(counts, limits))?;
    put(out, b"\n")
}
