//! Lists of byte strings, such as the segments of a path, in one block of memory.
ghost use Rattle.std.specs.Prelude.{◌≡◌, ◌<◌, ◌++◌, ◌∷◌, ◌≤◌, ◌^◌, [], ◌↔◌, IsTrue, OnOk, OnErr, IfOk, IfSome, option_map, length, take};
ghost use Rattle.std.proofs.Common.{rules};
ghost use Rattle.std.specs.Cmp.Rules.{comparing};
ghost use Rattle.coap_message.specs.Pieces.{length_at, length_spelling, pieces_of, pieces_spelling, same_pieces, SpellPieces, fed_pieces, same_pieces-Alike};

use crate::error::OutOfMemory;
use crate::seq::Seq;
use std::alloc::Global;
use std::hash::{Hash, Hasher};
use std::marker::Model;

/// An iterator over the remaining pieces. A contract sees the list.
#[derive(Drop)]
pub struct PieceRefs<'a> {
    rest: &'a [u8],
}

impl<'a> Model for PieceRefs<'a> {
    ghost use Rattle.std.specs.Prelude.{ℕ, List};

    ghost Value = { List (List ℕ) };

    ghost use Rattle.coap_message.specs.Pieces.{pieces_of, SpellPieces};

    ghost view = { λ s. pieces_of s.rest.now };

    ghost invariant = { λ s. SpellPieces s.rest.now };
}

impl<'a> PieceRefs<'a> {
    /// A copy, which continues from the same place.
    pub fn clone(&self) -> PieceRefs<'a>
        ensures { result ≡ self.now }
    {
        PieceRefs { rest: self.rest }
    }
}

impl<'a> Iterator for PieceRefs<'a> {
    ghost use Rattle.std.specs.Iterator.{YieldsFirstRef, item_count};

    type Item = &'a [u8];

    ghost next_gives = { YieldsFirstRef (λ left. left) };

    ghost remaining = { item_count (λ left. left) };

    fn next(&mut self) -> Option<&'a [u8]> {
        let (len, behind) = read_length(self.rest)?;
        let (piece, rest) = behind.split_at(len);
        self.rest = rest;
        Some(piece)
    }
}

/// A list of byte strings. A contract sees the list.
#[derive(Drop)]
pub struct Pieces {
    bytes: Seq<u8>,
}

impl Model for Pieces {
    ghost use Rattle.std.specs.Prelude.{ℕ, List};

    ghost Value = { List (List ℕ) };

    ghost use Rattle.coap_message.specs.Pieces.{pieces_of, SpellPieces};

    ghost view = { λ a. pieces_of a.bytes };

    ghost invariant = { λ a. SpellPieces a.bytes };
}

impl Pieces {
    /// No pieces. Doesn't allocate.
    pub fn new(alloc: Global) -> Pieces
        ensures { result ≡ [] }
    {
        Pieces {
            bytes: Seq::new(alloc),
        }
    }

    /// No pieces, with room for `bytes` bytes of them, as `size_of` counts them.
    ///
    /// # Errors
    /// Out of memory.
    pub fn with_room(alloc: Global, bytes: usize) -> Result<Pieces, OutOfMemory>
        ensures { IfOk result (λ pieces. pieces ≡ []) }
    {
        Ok(Pieces {
            bytes: Seq::with_capacity(alloc, bytes)?,
        })
    }

    /// The pieces one by one.
    pub fn iter(&self) -> PieceRefs<'_>
        ensures list { result ≡ self.now }
        ensures few { length self.now < 2 ^ 64 }
    {
        self.bytes.laws();
        PieceRefs {
            rest: self.bytes.as_slice(),
        }
    }

    /// Whether there are no pieces.
    pub fn is_empty(&self) -> bool
        ensures { IsTrue result ↔ (self.now ≡ []) }
    {
        self.iter().next().is_none()
    }

    /// The number of pieces.
    pub fn len(&self) -> usize
        ensures { result ≡ length self.now }
    {
        self.iter().count()
    }

    /// The number of bytes that a piece takes: its own, and those of its length, which takes one
    /// byte for each 255 in it and one more.
    pub fn size_of(piece: &[u8]) -> usize
        ensures { length piece.now < 2 ^ 62 → result ≡ length (pieces_spelling (piece.now ∷ [])) }
    {
        let length = piece.len();
        length.saturating_add(length / 255).saturating_add(1)
    }

    /// The number of bytes held: the sum of `size_of` over the pieces.
    pub fn size(&self) -> usize
        ensures { result ≡ length (pieces_spelling self.now) }
    {
        self.bytes.len()
    }

    /// Removes all pieces, and keeps their room.
    pub fn clear(&mut self)
        ensures { self.new ≡ [] }
    {
        self.bytes.clear();
    }

    /// Gives spare room back, if the allocator takes it.
    pub fn shrink_to_fit(&mut self)
        ensures { self.new ≡ self.old }
    {
        self.bytes.shrink_to_fit();
    }

    /// Appends a piece to the others.
    ///
    /// # Errors
    /// Out of memory.
    pub fn push(&mut self, piece: &[u8]) -> Result<(), OutOfMemory>
        ensures ok { OnOk result (self.new ≡ self.old ++ piece.now ∷ []) }
        ensures err { OnErr result (self.new ≡ self.old) }
    {
        let held = self.bytes.len();
        if let Err(refused) = add_piece(&mut self.bytes, piece) {
            self.bytes.truncate(held);
            return Err(refused);
        }
        Ok(())
    }

    /// Appends other pieces.
    ///
    /// # Errors
    /// Out of memory.
    pub fn append(&mut self, pieces: &PieceRefs<'_>) -> Result<(), OutOfMemory>
        ensures ok { OnOk result (self.new ≡ self.old ++ pieces.now) }
        ensures err { OnErr result (self.new ≡ self.old) }
    {
        self.append_spelled(pieces.rest)
    }

    /// Appends the pieces that bytes encode.
    pub(crate) fn append_spelled(&mut self, bytes: &[u8]) -> Result<(), OutOfMemory>
        requires { SpellPieces bytes.now }
        ensures ok { OnOk result (self.new ≡ self.old ++ pieces_of bytes.now) }
        ensures err { OnErr result (self.new ≡ self.old) }
    {
        self.bytes.append(bytes)?;
        Ok(())
    }
}

/// The length at the front, and the bytes after it, of which there are at least as many.
fn read_length(bytes: &[u8]) -> Option<(usize, &[u8])>
    requires stands { length_at bytes.now ≡ None → bytes.now ≡ [] }
    requires fits { IfSome (length_at bytes.now) (λ found. found.0 ≤ length found.1) }
    ensures { option_map (λ found. (found.0, found.1.now)) result ≡ length_at bytes.now }
{
    let _laws = bytes.len();
    let mut len = 0;
    let mut rest = bytes;
    'lengths: while let Some((byte, behind)) = rest.split_first() {
        if *byte != 255 {
            return Some((len + usize::from(*byte), behind));
        }
        len += 255;
        rest = behind;
    }
    None
}

/// Appends a length. If allocation fails, part of it may have been appended.
fn add_length(bytes: &mut Seq<u8>, len: usize) -> Result<(), OutOfMemory>
    ensures ok { OnOk result (bytes.new ≡ bytes.old ++ length_spelling len) }
    ensures err { OnErr result (take (length bytes.old) bytes.new ≡ bytes.old) }
{
    'bytes: for many in 0..len / 255 {
        let _laws = many;
        bytes.push(255)?;
    }
    bytes.push((len % 255) as u8)
}

/// Appends a piece after its length. If allocation fails, part of it may have been appended.
fn add_piece(bytes: &mut Seq<u8>, piece: &[u8]) -> Result<(), OutOfMemory>
    ensures ok { OnOk result
        (bytes.new ≡ bytes.old ++ (length_spelling (length piece.now) ++ piece.now)) }
    ensures err { OnErr result (take (length bytes.old) bytes.new ≡ bytes.old) }
{
    add_length(bytes, piece.len())?;
    bytes.append(piece)
}

impl Clone for Pieces {
    ghost is_clone = { λ x y. x ≡ y };

    fn clone(&self) -> Result<Self, std::alloc::AllocError> {
        Ok(Pieces {
            bytes: self.bytes.clone()?,
        })
    }
}

impl PartialEq for Pieces {
    ghost eq = { same_pieces };

    ghost laws = { Prim.search (comparing, rules) };

    fn eq(&self, other: &Pieces) -> bool {
        self.bytes == other.bytes
    }
}

impl Eq for Pieces {
    ghost laws = { Prim.search (comparing, rules) };
}

impl Hash for Pieces {
    ghost hash_input = { fed_pieces };

    ghost respects_eq = { same_pieces-Alike.fed };

    fn hash<H: Hasher>(&self, state: &mut H) {
        state.write(self.bytes.as_slice());
    }
}
