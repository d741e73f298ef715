//! Buffers of pairs, which are inserted and removed by position.
ghost use Rattle.std.specs.Prelude.{◌≡◌, ◌+◌, ◌-◌, ◌<◌, ◌≤◌, drop, length, nat_le, vec_capacity, vec_len, IfOk};
ghost use Rattle.std.specs.List.{insert, remove};
ghost use Rattle.ordered_index.specs.Ordered.{empty_index, OrderedIndex};

use std::alloc::{AllocError, Global};
use std::marker::Model;

/// Pairs, contiguous up to the end of a `Vec`. An insertion or a removal shifts the pairs before
/// the place or those after it, whichever are fewer; but it shifts those after it if there is no
/// room before the first. If there is none after the last either, all move to the front: more room
/// than for the most pairs makes that rare. Only `new` allocates.
#[derive(Drop)]
pub(crate) struct PairBuffer {
    items: Vec<(u64, u64)>,
    start: usize,
    limit: usize,
}

impl Model for PairBuffer {
    ghost use Rattle.std.specs.Prelude.{◌≡◌, ◌≤◌, drop, length, vec_capacity, vec_len};
    ghost use Rattle.ordered_index.specs.Ordered.{OrderedIndex};

    ghost Value = { OrderedIndex };

    ghost view = { λ r. record { pairs = drop r.start r.items.items; limit = r.limit; seed = 0 } };

    ghost invariant = { λ r.
        (r.start ≤ vec_len r.items)
        × (vec_len r.items ≡ length r.items.items)
        × (r.limit ≤ vec_capacity r.items) };
}

impl PairBuffer {
    /// An empty buffer with room for `limit` pairs, and for `spare` more.
    ///
    /// # Errors
    /// If allocation fails.
    pub(crate) fn new(alloc: Global, limit: usize, spare: usize) -> Result<PairBuffer, AllocError>
        ensures { IfOk result (λ buffer. buffer ≡ empty_index limit) }
    {
        Ok(PairBuffer {
            items: Vec::with_capacity(alloc, limit.saturating_add(spare))?,
            start: 0,
            limit,
        })
    }

    /// The pairs.
    pub(crate) fn pairs(&self) -> &[(u64, u64)]
        ensures { result.now ≡ self.now.pairs }
    {
        &self.items[self.start..]
    }

    /// The most pairs that it can hold.
    pub(crate) fn limit(&self) -> usize
        ensures { result ≡ self.now.limit }
    {
        self.limit
    }

    /// Inserts a pair at a place.
    pub(crate) fn insert(&mut self, place: usize, pair: (u64, u64))
        requires place { place ≤ length self.old.pairs }
        requires room { length self.old.pairs < self.old.limit }
        ensures { self.new ≡ record self.old { pairs = insert self.old.pairs place pair } }
    {
        let behind = self.items.len() - self.start - place;
        if self.start > 0 && place < behind {
            self.start -= 1;
            insert_downward(&mut self.items, self.start, place, pair);
        } else {
            self.start = make_way(&mut self.items, self.start);
            insert_upward(&mut self.items, self.start + place, pair);
        }
    }

    /// Removes the pair at a place.
    pub(crate) fn remove(&mut self, place: usize)
        requires { place < length self.old.pairs }
        ensures { self.new ≡ record self.old { pairs = remove self.old.pairs place } }
    {
        let behind = self.items.len() - self.start - place;
        if place < behind {
            remove_upward(&mut self.items, self.start, place);
            self.start += 1;
        } else {
            self.items.remove(self.start + place);
        }
    }
}

/// Inserts a pair at a place, counted from `start`: the pairs before it move down by one.
fn insert_downward(items: &mut Vec<(u64, u64)>, start: usize, place: usize, pair: (u64, u64))
    requires { start + place < length items.old.items }
    ensures items { drop start items.new.items
        ≡ insert (drop (start + 1) items.old.items) place pair }
    ensures len { vec_len items.new ≡ vec_len items.old }
    ensures capacity { vec_capacity items.new ≡ vec_capacity items.old }
{
    items[start] = pair;
    if place > 0 {
        items[start..start + place + 1].rotate_left(1);
    }
}

/// Inserts a pair at a place: the pairs from there on, if there are any, move up by one. There is
/// room for that. It pushes and then rotates, because a rotation moves memory in one go and
/// `Vec::insert` doesn't.
fn insert_upward(items: &mut Vec<(u64, u64)>, place: usize, pair: (u64, u64))
    requires place { place ≤ length items.old.items }
    requires room { vec_len items.old < vec_capacity items.old }
    ensures items { items.new.items ≡ insert items.old.items place pair }
    ensures len { vec_len items.new ≡ vec_len items.old + 1 }
    ensures capacity { vec_capacity items.new ≡ vec_capacity items.old }
{
    let len = items.len();
    items.push_reserved(pair);
    if place < len {
        items[place..].rotate_right(1);
    }
}

/// Removes the pair at a place, counted from `start`: the pairs before it move up by one.
fn remove_upward(items: &mut Vec<(u64, u64)>, start: usize, place: usize)
    requires { start + place < length items.old.items }
    ensures items { drop (start + 1) items.new.items ≡ remove (drop start items.old.items) place }
    ensures len { vec_len items.new ≡ vec_len items.old }
    ensures capacity { vec_capacity items.new ≡ vec_capacity items.old }
{
    if place > 0 {
        items[start..start + place + 1].rotate_right(1);
    }
}

/// Makes room for a pair after those from `start` on, unless there already is, by moving them to
/// the front. Returns where they start then.
fn make_way(items: &mut Vec<(u64, u64)>, start: usize) -> usize
    requires start { start ≤ length items.old.items }
    requires room { length items.old.items - start < vec_capacity items.old }
    requires len { vec_len items.old ≡ length items.old.items }
    ensures items { drop result items.new.items ≡ drop start items.old.items }
    ensures start { result ≤ length items.new.items }
    ensures len { vec_len items.new ≡ length items.new.items }
    ensures capacity { vec_capacity items.new ≡ vec_capacity items.old }
    ensures room { vec_len items.new < vec_capacity items.new }
{
    if items.len() < items.capacity() {
        return start;
    }
    to_front(items, start);
    0
}

/// Moves the pairs from `start` on to the front, and drops what was before them.
fn to_front(items: &mut Vec<(u64, u64)>, start: usize)
    requires { start ≤ vec_len items.old }
    ensures items { items.new.items ≡ drop start items.old.items }
    ensures len { vec_len items.new ≡ vec_len items.old - start }
    ensures capacity { vec_capacity items.new ≡ vec_capacity items.old }
{
    if start > 0 {
        let len = items.len();
        items.copy_within(start..len, 0);
        items.truncate(len - start);
    }
}
