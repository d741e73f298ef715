//! The file of a recording, and the time of day in one.

use crate::stop::{Stop, fault_of, words};
use coap_proxyd::{
    Fault, HeaderError, Plan, RecordFile, Start, VERSION, header_of, put_since, read_wanted,
    words_again,
};
use jiff::Timestamp;
use std::alloc::{AllocError, Global};
use std::io;
use std::io::{BufRead, Read, Write};

/// What stands before the time of day at which a recording begins.
const SINCE: &[u8] = b"# recorded since ";

/// The most that is kept of the head of a recording, in bytes.
const MOST_HEAD: u64 = 16_777_216;

/// A moment, with milliseconds, such as 2026-11-27T14:03:05.123Z.
fn text_of(alloc: Global, moment: Timestamp) -> Result<String, AllocError> {
    format!(in alloc; "{moment:.3}")
}

/// The fault for a header that can't be written.
fn header_fault(error: &HeaderError) -> Fault {
    match error {
        HeaderError::TooLong => Fault::File,
        HeaderError::OutOfMemory => Fault::OutOfMemory,
    }
}

/// How a recording begins: with the words and the configuration of this run, and the time of day if
/// the system knows it.
fn header(
    rt: &HostRuntime,
    config: Option<&[u8]>,
    start: Start,
    since: &Option<String>,
) -> Result<Vec<u8>, Fault> {
    let wanted = read_wanted(rt.alloc(), &words(rt)?)?;
    let Ok(words) = words_again(rt.alloc(), &wanted.settings) else {
        return Err(Fault::OutOfMemory);
    };
    let config = config.unwrap_or(&[]);
    let mut header = header_of(rt.alloc(), VERSION, start, &words, config).map_err(
        |error| header_fault(&error),
    )?;
    if let Some(since) = since {
        put_since(&mut header, since.as_str()).map_err(|error| header_fault(&error))?;
    }
    Ok(header)
}

/// A name in a folder for a recording that begins at this time of day, with dots in place of its
/// colons: 2026-11-27T14.03.05.123Z.events.
fn name_in(alloc: Global, folder: &str, since: &str) -> Result<String, AllocError> {
    let mut name = String::from_str(alloc, folder)?;
    for sign in since.chars() {
        name.push(if sign == ':' { '.' } else { sign })?;
    }
    name.push_str(".events")?;
    Ok(name)
}

/// The path of a recording: the given one, or a name in the given folder, which ends with a slash.
fn path_of(alloc: Global, given: &str, since: &Option<String>) -> Result<String, Fault> {
    let path = match since {
        Some(since) if given.ends_with('/') => name_in(alloc, given, since.as_str()),
        _ => String::from_str(alloc, given),
    };
    path.map_err(|_| Fault::OutOfMemory)
}

/// Creates the file of a plan's recording, with its header.
pub(crate) fn file_of<'a>(
    rt: &'a HostRuntime,
    plan: &Plan,
    config: Option<&[u8]>,
    start: Start,
) -> Result<RecordFile<'a>, Stop> {
    let since = match Timestamp::now(rt) {
        Ok(now) => text_of(rt.alloc(), now).ok(),
        Err(_) => None,
    };
    let header = header(rt, config, start, &since)?;
    let path = path_of(rt.alloc(), plan.recording.as_deref().unwrap_or(""), &since)?;
    let most = plan.record_bytes.unwrap_or(u64::MAX);
    let written = RecordFile::create(rt, path.as_str(), most).and_then(|file| {
        let mut file = file.logged(plan.log);
        file.write_all(&header)?;
        Ok(file)
    });
    written.map_err(|error| Stop::by_system(rt, path.as_str(), &error, Fault::File))
}

/// The head of a recording, which is taken from an input: the comments that come before anything
/// else, but at most `MOST_HEAD` bytes.
///
/// # Errors
/// Those of the input, and want of memory.
pub(crate) fn head_of<R: BufRead>(alloc: Global, input: &mut R) -> io::Result<Vec<u8>> {
    let mut head = Vec::new(alloc);
    let mut input = input.take(MOST_HEAD);
    for _ in 0..MOST_HEAD {
        if !input.fill_buf()?.starts_with(b"#") {
            break;
        }
        input.read_until(b'\n', &mut head)?;
    }
    Ok(head)
}

/// The time of day at which a recording began, if its head says it.
pub(crate) fn since_of(head: &[u8]) -> Option<Timestamp> {
    for line in head.split(|byte| *byte == b'\n') {
        if let Some(text) = line.strip_prefix(SINCE) {
            return str::from_utf8(text).ok()?.parse::<Timestamp>().ok();
        }
        if !line.starts_with(b"#") {
            return None;
        }
    }
    None
}
