//! Path segments and query parts, wherever they are stored.
ghost use Rattle.std.specs.Prelude.{◌≡◌, ◌++◌, ◌∷◌, [], IfOk, MatchOption, OnOk, drop as drop_list};
ghost use Rattle.coap_target.specs.Routes as spec;

use crate::options::Values;
use coap_message::{OutOfMemory, PieceRefs, Pieces};
use std::alloc::Global;

/// The remaining segments of a path or parts of a query. A contract sees the list.
pub trait Segments<'a>: Drop {
    ghost use Rattle.std.specs.Prelude.{ℕ, List};

    ghost left: { Self → List (List ℕ) };

    /// The next one.
    fn next_segment(&mut self) -> Option<&'a [u8]>
        ensures { MatchOption result ((left self.old ≡ []) × (left self.new ≡ [])) (λ s.
            left self.old ≡ s.now ∷ left self.new) };

    /// A copy, which continues from the same position.
    fn clone(&self) -> Self
        ensures { left result ≡ left self.now };

    /// Appends copies of them to a list.
    ///
    /// # Errors
    /// Out of memory. Some of them may then have been appended.
    fn append_to(self, list: &mut Pieces) -> Result<(), OutOfMemory>
        ensures { OnOk result (list.new ≡ list.old ++ left self) };
}

impl<'a> Segments<'a> for PieceRefs<'a> {
    ghost left = { λ pieces. pieces };

    fn next_segment(&mut self) -> Option<&'a [u8]> {
        self.next()
    }

    fn clone(&self) -> PieceRefs<'a> {
        self.clone()
    }

    fn append_to(self, list: &mut Pieces) -> Result<(), OutOfMemory> {
        list.append(&self)
    }
}

/// The values of options (RFC 7252, 5.10.1).
impl<'a> Segments<'a> for Values<'a> {
    ghost left = { λ values. values };

    #[inline(always)]
    fn next_segment(&mut self) -> Option<&'a [u8]> {
        self.next()
    }

    fn clone(&self) -> Values<'a> {
        self.clone()
    }

    fn append_to(self, list: &mut Pieces) -> Result<(), OutOfMemory> {
        self.append_to(list)
    }
}

/// Whether a path begins with the segments of a prefix. Some of its segments are then passed.
pub(crate) fn begins<'a, P: Segments<'a>>(prefix: &Pieces, path: &mut P) -> bool
    ensures { result ≡ spec.begins prefix.now (P.left path.old) }
{
    for segment in prefix.iter() {
        match path.next_segment() {
            Some(other) if segment == other => {}
            _ => return false,
        }
    }
    true
}

/// Skips `count` segments.
pub(crate) fn skip<'a, P: Segments<'a>>(path: &mut P, count: usize)
    ensures { P.left path.new ≡ drop_list count (P.left path.old) }
{
    for index in 0..count {
        let _laws = index;
        let _passed = path.next_segment();
    }
}

/// The number of bytes that copies of segments take in `Pieces`.
fn size_of<'a, P: Segments<'a>>(segments: P) -> usize {
    let mut segments = segments;
    let mut size = 0usize;
    'segments: while let Some(segment) = segments.next_segment() {
        size = size.saturating_add(Pieces::size_of(segment));
    }
    size
}

/// Copies of segments, in no more room than they need.
pub(crate) fn copies<'a, P: Segments<'a>>(alloc: Global, segments: P) -> Result<Pieces, OutOfMemory>
    ensures { IfOk result (λ copies. copies ≡ P.left segments) }
{
    let mut copies = Pieces::with_room(alloc, size_of(segments.clone()))?;
    segments.append_to(&mut copies)?;
    Ok(copies)
}

/// Pieces followed by copies of segments, in no more room than they need.
pub(crate) fn joined<'a, P: Segments<'a>>(
    alloc: Global,
    front: &Pieces,
    behind: P,
) -> Result<Pieces, OutOfMemory>
    ensures { IfOk result (λ list. list ≡ front.now ++ P.left behind) }
{
    let size = front.size().saturating_add(size_of(behind.clone()));
    let mut list = Pieces::with_room(alloc, size)?;
    front.iter().append_to(&mut list)?;
    behind.append_to(&mut list)?;
    Ok(list)
}
