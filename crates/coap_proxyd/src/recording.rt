//! Recordings of the program: the words of a replay that does the same, and the file.
ghost use Rattle.std.specs.Prelude.{◌≡◌, ◌≤◌, ◌++◌, IfOk, OnOk, length, map, option_map, string_bytes};
ghost use Rattle.coap_proxyd.specs.Recordings as spec;

use coap_config::Settings;
use std::alloc::{AllocError, Global};
use std::fs::File;
use std::io;
use std::io::{ErrorKind, Write};

/// Adds the word of an option, if it is given: its name, and its value right after it.
fn add_word(
    alloc: Global,
    words: &mut Vec<String>,
    name: &str,
    value: &Option<String>,
) -> Result<(), AllocError>
    ensures { OnOk result (map string_bytes words.new.items ≡ map string_bytes words.old.items
        ++ spec.word_of name.now (option_map string_bytes value.now)) }
{
    let Some(value) = value else {
        return Ok(());
    };
    let mut word = String::from_str(alloc, name)?;
    word.push_str(value.as_str())?;
    words.push(word)?;
    Ok(())
}

/// The words that a replay needs to be the run of these settings, apart from `--replay`, `--id` and
/// `--salt`: the configuration, the map, and the next proxy with the own names, as they are given.
///
/// # Errors
/// Out of memory.
pub fn words_again(alloc: Global, settings: &Settings) -> Result<Vec<String>, AllocError>
    ensures { IfOk result (λ words.
        map string_bytes words.items ≡ spec.words_again settings.now) }
{
    let mut words = Vec::new(alloc);
    add_word(alloc, &mut words, "--config=", &settings.config)?;
    add_word(alloc, &mut words, "--map=", &settings.map)?;
    add_word(alloc, &mut words, "-P", &settings.names)?;
    Ok(words)
}

/// How many of these bytes are whole lines: those up to the last line feed.
fn whole_lines(bytes: &[u8]) -> usize
    ensures { result ≤ length bytes.now }
{
    match bytes.iter().rposition(|byte| *byte == b'\n') {
        Some(last) => last + 1,
        None => 0,
    }
}

/// How many of these bytes are written if there is room for so many: all of them if they fit, and
/// otherwise the whole lines that do.
fn fitting(bytes: &[u8], room: u64) -> usize
    ensures within { result ≤ length bytes.now }
    ensures fits { result ≤ room }
    ensures all { length bytes.now ≤ room → result ≡ length bytes.now }
{
    let room = usize::try_from(room).unwrap_or(usize::MAX);
    if bytes.len() <= room {
        bytes.len()
    } else {
        whole_lines(&bytes[..room])
    }
}

/// The file of a recording, of a limited size. When it can't be written any more, or is full, it is
/// cut after its last whole line, and a line on standard error says so. What a file does is in no
/// contract.
#[derive(Drop)]
pub struct RecordFile<'a> {
    rt: &'a HostRuntime,
    file: File,
    /// How many bytes it may have.
    most: u64,
    /// How many bytes were written.
    size: u64,
    /// How many of them are whole lines.
    whole: u64,
    /// Whether a line of a log says that it has ended.
    logged: bool,
}

impl<'a> RecordFile<'a> {
    /// Creates a file of at most so many bytes.
    ///
    /// # Errors
    /// There is a file of this name, which stays as it is, or the system makes none.
    pub fn create(rt: &'a HostRuntime, path: &str, most: u64) -> io::Result<RecordFile<'a>> {
        let file = File::create_new(rt, path)?;
        Ok(RecordFile {
            rt,
            file,
            most,
            size: 0,
            whole: 0,
            logged: false,
        })
    }

    /// This file, with whether a line of a log says that it has ended.
    pub fn logged(self, logged: bool) -> RecordFile<'a> {
        RecordFile { logged, ..self }
    }

    /// Notes that these bytes were written.
    fn note(&mut self, bytes: &[u8]) {
        let whole = whole_lines(bytes);
        if whole > 0 {
            self.whole = self.size.saturating_add(whole as u64);
        }
        self.size = self.size.saturating_add(bytes.len() as u64);
    }

    /// Cuts the file after its last whole line, and says that the recording has ended.
    fn end(&mut self) {
        if self.whole < self.size {
            let _ = self.file.set_len(self.whole);
        }
        let size = self.whole;
        let _ = if self.logged {
            eprintln!(self.rt; "recording_ended bytes={size}")
        } else {
            eprintln!(self.rt; "coap-proxyd: the recording has ended")
        };
    }
}

impl<'a> Write for RecordFile<'a> {
    fn write(&mut self, buf: &[u8]) -> io::Result<usize> {
        let count = fitting(buf, self.most.saturating_sub(self.size));
        if count == 0 && !buf.is_empty() {
            self.end();
            return Err(io::Error::from(ErrorKind::FileTooLarge));
        }
        match self.file.write(&buf[..count]) {
            Ok(count) => {
                self.note(&buf[..count]);
                Ok(count)
            }
            Err(error) => {
                if error.kind() != ErrorKind::Interrupted {
                    self.end();
                }
                Err(error)
            }
        }
    }

    fn flush(&mut self) -> io::Result<()> {
        self.file.flush()
    }
}
