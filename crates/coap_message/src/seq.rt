//! A list that contracts see as the list.
ghost use Rattle.std.specs.Prelude.{◌≡◌, ◌↔◌, ◌++◌, ◌∷◌, [], IsTrue, ◌<◌, ◌^◌, OnOk, OnErr, IfOk, length, slice_set, take};
ghost use Rattle.std.specs.Cmp.Lexicographic.{pointwise, lists_per, lists_equiv};
ghost use Rattle.std.specs.List.{AllZip};
ghost use Rattle.std.specs.Hash as fed;

use crate::error::OutOfMemory;
use std::alloc::Global;
use std::hash::{Hash, Hasher};
use std::marker::Model;

/// A list of `T`, kept in a `Vec`. A contract sees the list, and neither pointer nor capacity.
#[derive(Drop)]
pub struct Seq<T> {
    items: Vec<T>,
}

impl<T> Model for Seq<T> {
    ghost use Rattle.std.specs.Prelude.{List};

    ghost Value = { List T };

    ghost view = { λ a. a.items.items };
}

impl<T> Seq<T> {
    /// An empty list. Doesn't allocate.
    pub fn new(alloc: Global) -> Seq<T>
        ensures { result ≡ [] }
    {
        Seq {
            items: Vec::new(alloc),
        }
    }

    /// An empty list with room for `items` items.
    ///
    /// # Errors
    /// Out of memory.
    pub fn with_capacity(alloc: Global, items: usize) -> Result<Seq<T>, OutOfMemory>
        ensures { IfOk result (λ seq. seq ≡ []) }
    {
        Ok(Seq {
            items: Vec::with_capacity(alloc, items)?,
        })
    }

    /// Wraps a `Vec`, without copying.
    pub fn from_vec(items: Vec<T>) -> Seq<T>
        ensures { result ≡ items.items }
    {
        Seq { items }
    }

    /// The list as a slice.
    pub fn as_slice(&self) -> &[T]
        ensures { result.now ≡ self.now }
    {
        self.items.as_slice()
    }

    /// The number of items.
    pub fn len(&self) -> usize
        ensures { result ≡ length self.now }
    {
        self.items.len()
    }

    /// Does nothing: the number of items fits a `usize`.
    pub(crate) fn laws(&self)
        ensures { length self.now < 2 ^ 64 }
    {
        let _laws = self.items.len();
    }

    /// Whether there are no items.
    pub fn is_empty(&self) -> bool
        ensures { IsTrue result ↔ (self.now ≡ []) }
    {
        self.items.is_empty()
    }
}

impl<T: Drop> Seq<T> {
    /// Drops the items after the first `count`.
    pub fn truncate(&mut self, count: usize)
        ensures { self.new ≡ take count self.old }
    {
        self.items.truncate(count);
    }

    /// Drops all items, and keeps their room.
    pub fn clear(&mut self)
        ensures { self.new ≡ [] }
    {
        self.items.clear();
    }

    /// Gives spare room back, if the allocator takes it.
    pub fn shrink_to_fit(&mut self)
        ensures { self.new ≡ self.old }
    {
        self.items.shrink_to_fit();
    }

    /// Appends an item.
    ///
    /// # Errors
    /// Out of memory.
    pub fn push(&mut self, item: T) -> Result<(), OutOfMemory>
        ensures ok { OnOk result (self.new ≡ self.old ++ item ∷ []) }
        ensures err { OnErr result (self.new ≡ self.old) }
    {
        self.items.push(item)?;
        Ok(())
    }
}

impl<T: Copy> Seq<T> {
    /// Replaces the item at `place`, counted from 0. Doesn't allocate.
    pub fn set(&mut self, place: usize, item: T)
        requires { place < length self.old }
        ensures { self.new ≡ slice_set self.old place item }
    {
        self.items[place] = item;
    }

    /// Appends the items of a slice.
    ///
    /// # Errors
    /// Out of memory.
    pub fn append(&mut self, items: &[T]) -> Result<(), OutOfMemory>
        ensures ok { OnOk result (self.new ≡ self.old ++ items.now) }
        ensures err { OnErr result (self.new ≡ self.old) }
    {
        self.items.extend_from_slice(items)?;
        Ok(())
    }

    /// A copy of a slice, in a block of exactly its length.
    ///
    /// # Errors
    /// Out of memory.
    pub fn from_slice(alloc: Global, items: &[T]) -> Result<Seq<T>, OutOfMemory>
        ensures { IfOk result (λ seq. seq ≡ items.now) }
    {
        Ok(Seq {
            items: Vec::from_slice(alloc, items)?,
        })
    }
}

impl<T: Clone> Clone for Seq<T> {
    ghost is_clone = { λ x y. AllZip T.is_clone x y × (length y ≡ length x) };

    fn clone(&self) -> Result<Seq<T>, std::alloc::AllocError> {
        Ok(Seq {
            items: self.items.clone()?,
        })
    }
}

impl<T: PartialEq> PartialEq for Seq<T> {
    ghost eq = { pointwise T.eq };

    ghost laws = { lists_per T.laws };

    fn eq(&self, other: &Seq<T>) -> bool {
        self.items == other.items
    }
}

impl<T: Eq> Eq for Seq<T> {
    ghost laws = { lists_equiv T.Eq.laws };
}

impl<T: Hash> Hash for Seq<T> {
    ghost use Rattle.std.specs.Hash.{items_Alike};

    ghost hash_input = { fed.slice T.hash_input };

    ghost respects_eq = { (items_Alike (record { fed = T.respects_eq })).fed };

    fn hash<H: Hasher>(&self, state: &mut H) {
        self.items.hash(state);
    }
}
