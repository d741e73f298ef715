//! A reader or a writer, and the note whether it failed when it was last asked.
//!
//! Outside this file the reader and the writer are only looked at (`inner`), and asked by
//! `take_piece` and `put`, which make the note. Nobody else can write or undo a note: the fields
//! are private, so that the compiler refuses such a body. So an error that others give out as the
//! reader's or the writer's is one.
ghost use Rattle.std.specs.Prelude.{◌≡◌, ◌≢◌, ◌≤◌, false, true, [], IfSome, IfErr, IfOk, OnErr, OnOk, length, vec_capacity};
ghost use Rattle.std.specs.Borrow.{sem};
ghost use Rattle.std.specs.Io.{WritesAtMost, StartsWith};
ghost use Rattle.std.specs.Io.BufRead.{Rests, FillKeeps};
ghost use Rattle.std.specs.Io.KnownBytes.{Keeps, WriteAppends};
ghost use Rattle.std.specs.IoError.{error_kind};
ghost use Rattle.coap_lines.specs.Failing.{IsInterrupted, is_failure};
ghost use Rattle.coap_lines.specs.Pieces.{IsPiece};
ghost use Rattle.coap_lines.specs.Room.{HasRoom};

use crate::reading::cutting::{Piece, line_part};
use crate::room;
use std::io;
use std::io::{BufRead, ErrorKind, Write};

/// Whether what was last asked failed. A write that was interrupted didn't, unless it is the last
/// of 2^64 - 1 in a row.
#[derive(Drop)]
struct Failing {
    last: bool,
    interrupted: u64,
}

impl Failing {
    /// Notes how a write went.
    fn note(&mut self, written: &io::Result<usize>)
        ensures went { OnOk written.now (self.new.last ≡ false) }
        ensures failed { IfErr written.now
            (λ e. error_kind e ≢ ErrorKind.Interrupted → self.new.last ≡ true) }
        ensures interrupted { IfErr written.now
            (λ e. error_kind e ≡ ErrorKind.Interrupted → IsInterrupted self.old self.new) }
    {
        let interrupted = match written {
            Ok(_) => false,
            Err(error) => error.kind() == ErrorKind::Interrupted,
        };
        self.interrupted = if interrupted {
            self.interrupted.saturating_add(1)
        } else {
            0
        };
        self.last = written.is_err() && (!interrupted || self.interrupted == u64::MAX);
    }
}

/// A reader or a writer, which is asked here alone, and the note whether it failed when it last
/// was.
#[derive(Drop)]
pub(crate) struct Noted<T> {
    inner: T,
    failing: Failing,
}

impl<T> Noted<T> {
    /// A reader or a writer that hasn't failed yet.
    pub(crate) fn new(inner: T) -> Noted<T>
        ensures inner { result.inner ≡ inner }
        ensures failed { result.failing.last ≡ false }
    {
        Noted {
            inner,
            failing: Failing {
                last: false,
                interrupted: 0,
            },
        }
    }

    /// The reader or the writer, to be looked at.
    pub(crate) fn inner(&self) -> &T
        ensures { result.now ≡ self.now.inner }
    {
        &self.inner
    }

    /// Whether it failed when it was last asked.
    pub(crate) fn has_failed(&self) -> bool
        ensures { result ≡ self.now.failing.last }
    {
        self.failing.last
    }
}

/// The bytes that a reader has at hand, of which it reads some if it has none. Notes whether it
/// failed.
///
/// # Errors
/// Those of the reader.
fn fill<'a, R: BufRead>(reader: &'a mut R, failing: &mut Failing) -> io::Result<&'a [u8]>
    ensures front { IfSome (R.remaining reader.old) (λ xs. IfOk result (λ s. StartsWith xs s.now)) }
    ensures end { IfSome (R.remaining reader.old)
        (λ xs. IfOk result (λ s. length s.now ≡ 0 → xs ≡ [])) }
    ensures* after_borrow { sem 𝓛 (Rests R.row reader.entry (λ new.
        FillKeeps (R.remaining reader.old) (R.remaining new) (R.consumable_len new) result)) }
    ensures noted { failing.new.last ≡ is_failure result }
{
    match reader.fill_buf() {
        Ok(bytes) => {
            failing.last = false;
            Ok(bytes)
        }
        Err(error) => {
            failing.last = true;
            Err(error)
        }
    }
}

impl<R: BufRead> Noted<R> {
    /// Adds bytes of a line to those that are held, for which there is room: what the reader has at
    /// hand of it, but at most `most` bytes. A line feed is taken but not added. Notes whether the
    /// reader failed.
    ///
    /// # Errors
    /// Those of the reader. Nothing was taken then.
    pub(crate) fn take_piece(&mut self, most: usize, line: &mut Vec<u8>) -> io::Result<Piece>
        requires { HasRoom line.old most }
        ensures room { vec_capacity line.old ≤ vec_capacity line.new }
        ensures taken { IfOk result (IsPiece most (R.remaining self.old.inner)
            (R.remaining self.new.inner) line.old line.new) }
        ensures same { OnErr result (line.new ≡ line.old) }
        ensures kept { OnErr result
            (Keeps (R.remaining self.old.inner) (R.remaining self.new.inner)) }
        ensures noted { self.new.failing.last ≡ is_failure result }
    {
        let chunk = fill(&mut self.inner, &mut self.failing)?;
        if chunk.is_empty() {
            return Ok(Piece::Last);
        }
        let part = &chunk[..chunk.len().min(most)];
        let (used, ended) = line_part(part);
        room::put(line, &part[..used]);
        if ended {
            self.inner.consume(used + 1);
            return Ok(Piece::Feed);
        }
        self.inner.consume(used);
        Ok(Piece::Open)
    }
}

impl<W: Write> Noted<W> {
    /// Writes some of the bytes, at least one if there is one, and notes whether that failed.
    ///
    /// # Errors
    /// That of the writer, or `WriteZero` if it takes nothing.
    pub(crate) fn put(&mut self, bytes: &[u8]) -> io::Result<usize>
        ensures bound { WritesAtMost result bytes.now }
        ensures bytes { WriteAppends
            (W.contents self.old.inner) (W.contents self.new.inner) result bytes.now }
        ensures some { IfOk result (λ n. n ≡ 0 → bytes.now ≡ []) }
        ensures went { OnOk result (self.new.failing.last ≡ false) }
        ensures failed { IfErr result
            (λ e. error_kind e ≢ ErrorKind.Interrupted → self.new.failing.last ≡ true) }
        ensures interrupted { IfErr result (λ e. error_kind e ≡ ErrorKind.Interrupted
            → IsInterrupted self.old.failing self.new.failing) }
    {
        let written = match self.inner.write(bytes) {
            Ok(0) if !bytes.is_empty() => Err(io::Error::from(ErrorKind::WriteZero)),
            written => written,
        };
        self.failing.note(&written);
        written
    }
}
