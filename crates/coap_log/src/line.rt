//! The text of a line: a word, and keys with values.
ghost use Rattle.std.specs.Prelude.{◌≡◌, ◌++◌, ◌∷◌, ◌+◌, ◌*◌, ◌<◌, ◌≤◌, [], IfOk, OnOk, OnErr, length, take};
ghost use Rattle.std.specs.Io.{WritesAtMost};
ghost use Rattle.std.specs.Io.KnownBytes.{Appends, Keeps, WriteAppends};
ghost use Rattle.coap_log.specs.Line.{field_text, key_text};
ghost use Rattle.coap_log.specs.Values as spec;

use coap_message::{Datagram, OutOfMemory};
use std::alloc::Global;
use std::io;
use std::io::{ErrorKind, Write};
use std::marker::Model;

/// The text of a line, in memory that is allocated once. A contract sees its room and its bytes.
///
/// What is written to it by `Write` is of a value, whoever chose it: it begins no word, no key and
/// no line.
#[derive(Drop)]
pub struct Line {
    text: Datagram,
}

impl Model for Line {
    ghost use Rattle.coap_message.specs.Datagram.{Datagram};

    ghost Value = { Datagram };

    ghost view = { λ line. line.text };
}

/// Whether a byte stands for itself in a value.
fn is_plain(byte: u8) -> bool
    ensures { result ≡ spec.is_plain byte }
{
    byte > b' ' && byte < 0x7F && byte != b'"' && byte != b'='
}

/// A hexadecimal digit, in upper case.
fn hex_digit(number: u8) -> u8
    requires { number < 16 }
    ensures { result ≡ spec.hex_digit number }
{
    if number < 10 {
        b'0' + number
    } else {
        b'A' - 10 + number
    }
}

/// The places that one byte of a value takes at most.
const ESCAPED: usize = 3;

/// The places that the blank and the equals sign around a key take.
const AROUND_KEY: usize = 2;

impl Line {
    ghost use Rattle.coap_message.specs.Datagram.{holding};

    /// An empty line with room for `room` bytes. No other call allocates.
    ///
    /// # Errors
    /// Out of memory.
    pub fn new(alloc: Global, room: usize) -> Result<Line, OutOfMemory>
        ensures { IfOk result (λ line. line ≡ record { room = room; bytes = [] }) }
    {
        Ok(Line {
            text: Datagram::new(alloc, room)?,
        })
    }

    /// Its text.
    pub fn bytes(&self) -> &[u8]
        ensures { result.now ≡ self.now.bytes }
    {
        self.text.bytes()
    }

    /// Begins a line with a word of the program's, in place of what it holds. What there is no room
    /// for is left out, here and below.
    pub fn begin(&mut self, word: &str)
        ensures { self.new ≡ holding self.old (take self.old.room word.now) }
    {
        self.text.clear();
        self.text.put(word.as_bytes());
    }

    /// Adds a text of the program's.
    fn put(&mut self, text: &str)
        ensures { self.new ≡ holding self.old (take self.old.room (self.old.bytes ++ text.now)) }
    {
        self.text.put(text.as_bytes());
    }

    /// Adds a key of the program's, whose value is what is written next.
    pub fn key(&mut self, key: &str)
        ensures { self.new
            ≡ holding self.old (take self.old.room (self.old.bytes ++ key_text key.now)) }
    {
        self.put(" ");
        self.put(key);
        self.put("=");
    }

    /// Adds a key of the program's, and a value, whoever chose that.
    ///
    /// # Errors
    /// `WriteZero` if there is too little room, with three places for each byte of the value. Then
    /// nothing is added.
    pub fn field(&mut self, key: &str, value: &[u8]) -> io::Result<()>
        ensures exact { OnOk result (self.new
            ≡ holding self.old (self.old.bytes ++ field_text (key.now, value.now))) }
        ensures err { OnErr result (self.new ≡ self.old) }
    {
        let left = self.text.room() - self.text.bytes().len();
        if value.len() > left / ESCAPED {
            return Err(io::Error::from(ErrorKind::WriteZero));
        }
        let left = left - value.len() * ESCAPED;
        if left < AROUND_KEY || key.len() > left - AROUND_KEY {
            return Err(io::Error::from(ErrorKind::WriteZero));
        }
        self.key(key);
        self.put_value(value);
        Ok(())
    }

    /// Ends the line.
    pub fn end(&mut self)
        ensures { self.new ≡ holding self.old (take self.old.room (self.old.bytes ++ 0x0A ∷ [])) }
    {
        self.put("\n");
    }

    /// Adds a byte of a value.
    fn put_byte(&mut self, byte: u8)
        requires room { length self.old.bytes + 3 ≤ self.old.room }
        ensures exact { self.new ≡ holding self.old (self.old.bytes ++ spec.escape byte) }
    {
        if is_plain(byte) {
            self.text.put(&[byte]);
        } else {
            self.text
                .put(&[b'%', hex_digit(byte / 16), hex_digit(byte % 16)]);
        }
    }

    /// Adds bytes of a value.
    fn put_value(&mut self, bytes: &[u8])
        requires room { length self.old.bytes + 3 * length bytes.now ≤ self.old.room }
        ensures exact { self.new ≡ holding self.old (self.old.bytes ++ spec.escaped bytes.now) }
    {
        for byte in bytes {
            self.put_byte(*byte);
        }
    }
}

/// Adds bytes of a value: each that doesn't stand for itself as `%XX`. With too little room for all
/// of them as three bytes each it adds none, with the error `WriteZero`.
impl Write for Line {
    ghost use Rattle.std.specs.Prelude.{None};
    ghost use Rattle.coap_message.specs.Datagram.{holding};

    ghost contents = { λ _. None };

    fn write(&mut self, buf: &[u8]) -> io::Result<usize>
        ensures bound { WritesAtMost result buf.now }
        ensures bytes { WriteAppends None None result buf.now }
        ensures exact { OnOk result (self.new
            ≡ holding self.old (self.old.bytes ++ spec.escaped buf.now)) }
        ensures err { OnErr result (self.new ≡ self.old) }
    {
        let left = self.text.room() - self.text.bytes().len();
        if buf.len() > left / ESCAPED {
            return Err(io::Error::from(ErrorKind::WriteZero));
        }
        self.put_value(buf);
        Ok(buf.len())
    }

    fn write_all(&mut self, buf: &[u8]) -> io::Result<()>
        ensures bytes { OnOk result (Appends None None buf.now) }
        ensures exact { OnOk result (self.new
            ≡ holding self.old (self.old.bytes ++ spec.escaped buf.now)) }
        ensures err { OnErr result (self.new ≡ self.old) }
    {
        self.write(buf)?;
        Ok(())
    }

    fn flush(&mut self) -> io::Result<()>
        ensures bytes { Keeps None None }
        ensures same { self.new ≡ self.old }
    {
        Ok(())
    }
}
