//! What a run's comments say that the program must write, and where it writes something else.

use crate::lines::said_by;
use std::alloc::{AllocError, Global};

/// The front of the line that gives the status with which the program stops.
const STATUS: &[u8] = b"status ";
/// What the line of a run says for which nothing must be written.
const NOTHING: &[u8] = b"nothing";
/// What is shown for a line where a text has ended.
const END: &[u8] = b"(the end)\n";

/// A line that must be written, and the other line that is written in its place.
#[derive(Drop)]
pub(crate) struct Difference<'a> {
    /// How many lines of the run's file say what must be written before it.
    pub(crate) before: usize,
    /// The line that must be written, with its line feed.
    pub(crate) wanted: &'a [u8],
    /// The line that is written, with its line feed.
    pub(crate) came: &'a [u8],
}

/// Whether a byte ends a line.
pub(crate) fn is_line_feed(byte: &u8) -> bool {
    *byte == b'\n'
}

/// The moment of the event in a line, which ends at the first space. A comment, or an empty line,
/// has no event.
fn moment_of(line: &[u8]) -> Option<&[u8]> {
    match line {
        [] | [b'#', ..] => None,
        _ => line.split(|byte| *byte == b' ').next(),
    }
}

/// Whether a run says what must be written for it, be it nothing.
pub(crate) fn is_said(events: &[u8]) -> bool {
    events
        .split(|byte| *byte == b'\n')
        .find_map(said_by)
        .is_some()
}

/// What the program must write for a run: a line for each datagram, which has the moment of the
/// event above its comment; then the status and the text with which it stops, if they are given.
pub(crate) fn expected_of(alloc: Global, events: &[u8]) -> Result<Vec<u8>, AllocError> {
    let mut text = Vec::new(alloc);
    let mut moment: &[u8] = b"";
    let mut stops = false;
    for line in events.split(|byte| *byte == b'\n') {
        moment = moment_of(line).unwrap_or(moment);
        let Some(said) = said_by(line) else {
            continue;
        };
        stops = stops || said.starts_with(STATUS);
        if !stops && said == NOTHING {
            continue;
        }
        if !stops {
            text.extend_from_slice(moment)?;
            text.push(b' ')?;
        }
        text.extend_from_slice(said)?;
        text.push(b'\n')?;
    }
    Ok(text)
}

/// The first line in which two texts differ. There is none if they are the same.
pub(crate) fn first_difference<'a>(
    expected: &'a [u8],
    written: &'a [u8],
) -> Option<Difference<'a>> {
    let mut lines = written.split_inclusive(is_line_feed);
    let mut before: usize = 0;
    for wanted in expected.split_inclusive(is_line_feed) {
        let came = lines.next().unwrap_or(END);
        if came != wanted {
            return Some(Difference {
                before,
                wanted,
                came,
            });
        }
        before = before.saturating_add(1);
    }
    let came = lines.next()?;
    Some(Difference {
        before,
        wanted: END,
        came,
    })
}

/// The number of the line of a run's file that says what must be written, after so many others that
/// do. Where there is none, it is that of the file's last line.
pub(crate) fn number_of(events: &[u8], before: usize) -> usize {
    let mut left = before;
    let mut number: usize = 0;
    for line in events.split(|byte| *byte == b'\n') {
        number = number.saturating_add(1);
        if said_by(line).is_some() {
            if left == 0 {
                break;
            }
            left -= 1;
        }
    }
    number
}
