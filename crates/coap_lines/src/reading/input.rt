//! Lines of an input.
ghost use Rattle.std.specs.Prelude.{◌≡◌, ◌≤◌, false, IfOk, IfSome, OnErr, OnOk, vec_capacity, vec_len};
ghost use Rattle.std.specs.Io.KnownBytes.{Consumes, IsAtEnd};
ghost use Rattle.coap_lines.specs.Failing.{is_failure};
ghost use Rattle.coap_lines.specs.Lines.{IsBegun, IsNext, is_skipped};
ghost use Rattle.coap_lines.specs.Pieces.{taken};
ghost use Rattle.coap_lines.specs.Texts.{has};
ghost use Rattle.coap_lines.specs.declared.reading.cutting.Piece.TheVariants.{Feed, Last, Open};

use crate::failing::Noted;
use crate::reading::cutting::Piece;
use std::io;
use std::io::BufRead;
use std::marker::Model;

/// The greatest length of a line in bytes, without its line feed.
pub const LONGEST: usize = 16_384;

/// What comes next in an input.
#[derive(Clone, Copy, PartialEq, Eq)]
pub enum Next {
    /// A line.
    Line,
    /// A line of more than 16,384 bytes.
    TooLong,
    /// No line is left.
    End,
}

/// What lines are read from: any reader. It notes whether the reader failed when it was last asked,
/// so that whoever gives out an error of the reader has had one.
#[derive(Drop)]
pub struct Input<R> {
    reader: Noted<R>,
}

impl<R> Model for Input<R> {
    ghost use Rattle.coap_lines.specs.Ends.{Input};

    ghost Value = { Input R };

    ghost view = { λ i.
        record {
          reader = i.reader.inner;
          failed = i.reader.failing.last;
        } };
}

impl<R> Input<R> {
    /// Lines are read from this reader, which hasn't failed yet.
    pub fn new(reader: R) -> Input<R>
        ensures reader { result.reader ≡ reader }
        ensures failed { result.failed ≡ false }
    {
        Input {
            reader: Noted::new(reader),
        }
    }

    /// Whether the reader failed when it was last asked.
    pub fn has_failed(&self) -> bool
        ensures { result ≡ self.now.failed }
    {
        self.reader.has_failed()
    }
}

impl<R: BufRead> Input<R> {
    /// Reads the next line, without its line feed, which the last line may lack. The buffer has
    /// room for 16,385 bytes, and never holds more, so that this doesn't allocate.
    ///
    /// # Errors
    /// Those of the reader, an interrupted read included. Part of the line may have been taken
    /// then, but never its line feed; that part is lost.
    pub fn next_line(&mut self, line: &mut Vec<u8>) -> io::Result<Next>
        requires { 16385 ≤ vec_capacity line.old }
        ensures within { vec_len line.new ≤ 16385 }
        ensures room { vec_capacity line.old ≤ vec_capacity line.new }
        ensures read { IfSome (R.remaining self.old.reader)
            (λ input. IfOk result
            (IsNext input (R.remaining self.new.reader) line.new.items)) }
        ensures begun { OnErr result
            (IsBegun (R.remaining self.old.reader) (R.remaining self.new.reader)) }
        ensures failed { self.new.failed ≡ is_failure result }
    {
        next_of(&mut self.reader, line)
    }
}

/// Reads the next line of a reader.
fn next_of<R: BufRead>(reader: &mut Noted<R>, line: &mut Vec<u8>) -> io::Result<Next>
    requires { 16385 ≤ vec_capacity line.old }
    ensures within { vec_len line.new ≤ 16385 }
    ensures room { vec_capacity line.old ≤ vec_capacity line.new }
    ensures read { IfSome (R.remaining reader.old.inner)
        (λ input. IfOk result (IsNext input (R.remaining reader.new.inner) line.new.items)) }
    ensures begun { OnErr result
        (IsBegun (R.remaining reader.old.inner) (R.remaining reader.new.inner)) }
    ensures failed { reader.new.failing.last ≡ is_failure result }
{
    match read_piece(reader, line)? {
        Piece::Feed => Ok(Next::Line),
        Piece::Open => Ok(Next::TooLong),
        Piece::Last if line.is_empty() => Ok(Next::End),
        Piece::Last => Ok(Next::Line),
    }
}

/// Reads up to the line feed, which is consumed but not kept, up to one byte more than a line may
/// have, or to the end.
fn read_piece<R: BufRead>(reader: &mut Noted<R>, line: &mut Vec<u8>) -> io::Result<Piece>
    requires { 16385 ≤ vec_capacity line.old }
    ensures within { vec_len line.new ≤ 16385 }
    ensures room { vec_capacity line.old ≤ vec_capacity line.new }
    ensures none { OnOk result (has 10 line.new.items ≡ false) }
    ensures bytes { IfOk result (λ piece. Consumes
        (R.remaining reader.old.inner) (R.remaining reader.new.inner)
        (taken piece line.new.items)) }
    ensures feed { IfOk result (λ piece. piece ≡ Feed → vec_len line.new ≤ 16384) }
    ensures full { IfOk result (λ piece. piece ≡ Open → vec_len line.new ≡ 16385) }
    ensures last { IfOk result (λ piece. piece ≡ Last → vec_len line.new ≤ 16384) }
    ensures end { IfOk result (λ piece. piece ≡ Last
        → IfSome (R.remaining reader.old.inner) (λ _. IsAtEnd (R.remaining reader.new.inner))) }
    ensures begun { OnErr result
        (IsBegun (R.remaining reader.old.inner) (R.remaining reader.new.inner)) }
    ensures failed { reader.new.failing.last ≡ is_failure result }
{
    line.clear();
    for pieces in 0..u64::MAX {
        let room = LONGEST + 1 - line.len();
        if room == 0 {
            return Ok(Piece::Open);
        }
        match reader.take_piece(room, line)? {
            Piece::Feed => return Ok(Piece::Feed),
            Piece::Open => {}
            Piece::Last => return Ok(Piece::Last),
        }
    }
    // each piece has a byte, and 16,385 bytes end the loop
    unreachable!()
}

/// Whether a line is skipped: it is empty, or a comment, which begins with `#`.
pub fn is_skipped(line: &[u8]) -> bool
    ensures { result ≡ is_skipped line.now }
{
    match line {
        [] | [b'#', ..] => true,
        _ => false,
    }
}
