//! Writing lines to a writer.
ghost use Rattle.std.specs.Prelude.{◌≡◌, ◌≢◌, ◌++◌, ℕ, List, [], false, IfErr, IfOk, OnErr, OnOk};
ghost use Rattle.std.specs.Io.{WritesAtMost};
ghost use Rattle.std.specs.Io.KnownBytes.{Appends, WriteAppends};
ghost use Rattle.std.specs.IoError.{error_kind};
ghost use Rattle.coap_lines.specs.Ends.{failed_by};
ghost use Rattle.coap_lines.specs.Failing.{is_failure};

use crate::failing::Noted;
use std::io;
use std::io::{ErrorKind, Write};
use std::marker::Model;

/// What lines are written to: any writer. It notes whether the writer failed when it was last
/// asked, so that whoever gives out an error of the writer has had one.
#[derive(Drop)]
pub struct Output<W> {
    writer: Noted<W>,
}

impl<W> Model for Output<W> {
    ghost use Rattle.coap_lines.specs.Ends.{Output};

    ghost Value = { Output W };

    ghost view = { λ o. record { writer = o.writer.inner; failed = o.writer.failing.last } };
}

impl<W> Output<W> {
    /// Lines are written to this writer, which hasn't failed yet.
    pub fn new(writer: W) -> Output<W>
        ensures writer { result.writer ≡ writer }
        ensures failed { result.failed ≡ false }
    {
        Output {
            writer: Noted::new(writer),
        }
    }

    /// The writer.
    pub fn writer(&self) -> &W
        ensures { result.now ≡ self.now.writer }
    {
        self.writer.inner()
    }

    /// Whether the writer failed when it was last asked.
    pub fn has_failed(&self) -> bool
        ensures { result ≡ self.now.failed }
    {
        self.writer.has_failed()
    }
}

impl<W: Write> Output<W> {
    /// Writes all bytes.
    ///
    /// # Errors
    /// That of the writer, or `WriteZero` if it takes nothing. A proper prefix of the bytes was
    /// written then. An interrupted write is retried, and never returned as an error.
    pub fn write_all(&mut self, bytes: &[u8]) -> io::Result<()>
        ensures all { OnOk result
            (Appends (W.contents self.old.writer) (W.contents self.new.writer) bytes.now) }
        ensures retried { IfErr result (λ e. error_kind e ≢ ErrorKind.Interrupted) }
        ensures front { OnErr result ((done rest : List ℕ)
            × (bytes.now ≡ done ++ rest) × (rest ≢ [])
            × Appends (W.contents self.old.writer) (W.contents self.new.writer) done) }
        ensures failed { self.new.failed ≡ failed_by bytes.now self.old.failed result }
    {
        write_pieces(&mut self.writer, bytes)
    }
}

/// Writes all bytes, piece by piece.
fn write_pieces<W: Write>(writer: &mut Noted<W>, bytes: &[u8]) -> io::Result<()>
    ensures all { OnOk result
        (Appends (W.contents writer.old.inner) (W.contents writer.new.inner) bytes.now) }
    ensures retried { IfErr result (λ e. error_kind e ≢ ErrorKind.Interrupted) }
    ensures front { OnErr result ((done rest : List ℕ) × (bytes.now ≡ done ++ rest) × (rest ≢ [])
        × Appends (W.contents writer.old.inner) (W.contents writer.new.inner) done) }
    ensures failed { writer.new.failing.last ≡ failed_by bytes.now writer.old.failing.last result }
{
    let mut rest = bytes;
    for pieces in 0..u64::MAX {
        if rest.is_empty() {
            return Ok(());
        }
        let count = put_some(writer, rest)?;
        rest = &rest[count..];
    }
    // Each piece has a byte, so none is left.
    Ok(())
}

/// Writes some of the bytes, at least one if there is one. An interrupted write is retried.
fn put_some<W: Write>(writer: &mut Noted<W>, bytes: &[u8]) -> io::Result<usize>
    ensures bound { WritesAtMost result bytes.now }
    ensures bytes { WriteAppends
        (W.contents writer.old.inner) (W.contents writer.new.inner) result bytes.now }
    ensures some { IfOk result (λ n. n ≡ 0 → bytes.now ≡ []) }
    ensures retried { IfErr result (λ e. error_kind e ≢ ErrorKind.Interrupted) }
    ensures failed { writer.new.failing.last ≡ is_failure result }
{
    for tries in 0..u64::MAX {
        match writer.put(bytes) {
            Ok(count) => return Ok(count),
            Err(error) if error.kind() == ErrorKind::Interrupted => continue,
            Err(error) => return Err(error),
        }
    }
    // Each of 2^64 - 1 tries was interrupted.
    Err(io::Error::from(ErrorKind::Other))
}
