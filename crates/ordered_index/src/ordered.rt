//! Indexes: which key has which numbers. The first pair, and the numbers of one key, are found
//! without a scan.
ghost use Rattle.std.specs.Prelude.{◌≡◌, ◌+◌, ◌==◌, ◌<◌, ◌≤◌, ◌||◌, ◌&&◌, ℕ, Bool, count_by, length, nat_le, if◌then◌else◌, take, drop, true, false, not, None, Some, [], ◌↔◌, IsTrue, IfOk, IfNone, IfSome};
ghost use Rattle.std.specs.List.{slice_get, AllByRecursion};
ghost use Rattle.ordered_index.specs.Ordered.{empty_index, is_before, is_in, is_key, is_left, is_pair, many_of, one_if, one_of, AreRising, IsFirstAfter, IsLeast, IsNextOf, IsKeyIn, IsRekeyed, IsReplaced, Pair};

use crate::order::is_before;
use crate::pair_buffer::PairBuffer;
use std::alloc::{AllocError, Global};
use std::marker::Model;

/// An index has room for a thirty-second more pairs than its limit.
const SPARE: usize = 32;

/// Pairs of a key and a number, each at most once, in increasing order. Only `new` allocates.
pub struct OrderedIndex {
    buffer: PairBuffer,
}

impl Drop for OrderedIndex {
    fn drop(self) {
        let OrderedIndex { buffer: _ } = self;
    }
}

impl Model for OrderedIndex {
    ghost use Rattle.ordered_index.specs.Ordered.{AreRising, OrderedIndex};

    ghost Value = { OrderedIndex };

    ghost view = { λ r. r.buffer };

    ghost invariant = { λ r. AreRising r.buffer.pairs };
}

impl OrderedIndex {
    /// An empty index with room for `limit` pairs.
    ///
    /// # Errors
    /// If allocation fails.
    pub fn new(alloc: Global, limit: usize) -> Result<OrderedIndex, AllocError>
        ensures empty { IfOk result (λ index. index ≡ empty_index limit) }
    {
        Ok(OrderedIndex {
            buffer: PairBuffer::new(alloc, limit, limit / SPARE)?,
        })
    }

    /// The most pairs that it can hold.
    pub(crate) fn limit(&self) -> usize
        ensures exact { result ≡ self.now.limit }
    {
        self.buffer.limit()
    }

    /// Whether it has no pairs.
    pub(crate) fn is_empty(&self) -> bool
        ensures exact { IsTrue result ↔ self.now.pairs ≡ [] }
    {
        self.buffer.pairs().is_empty()
    }

    /// The first pair: the least key, and the least of its numbers.
    pub fn first(&self) -> Option<(u64, u64)>
        ensures exact { IsLeast self.now.pairs result }
    {
        match self.buffer.pairs().first() {
            Some(pair) => Some(*pair),
            None => None,
        }
    }

    /// Does nothing: each pair is before all that follow, so that none is there twice.
    pub fn laws(&self)
        ensures { AreRising self.now.pairs }
    {
        let _laws = &self.buffer;
    }

    /// The least number of this key that is greater than `after`.
    pub fn next_of(&self, key: u64, after: u64) -> Option<u64>
        ensures exact { IsNextOf key after self.now.pairs result }
    {
        let pair = self.after((key, after))?;
        if pair.0 == key { Some(pair.1) } else { None }
    }

    /// The number of pairs with this key.
    pub fn count_of(&self, key: u64) -> usize
        ensures exact { result ≡ many_of key self.now.pairs }
    {
        let pairs = self.buffer.pairs();
        let first = place_of_key(pairs, key, false);
        let past = place_of_key(pairs, key, true);
        past - first
    }

    /// The first pair after this one.
    pub fn after(&self, pair: (u64, u64)) -> Option<(u64, u64)>
        ensures exact { IsFirstAfter pair self.now.pairs result }
    {
        let pairs = self.buffer.pairs();
        let place = place_after(pairs, pair);
        if place == pairs.len() {
            return None;
        }
        Some(pairs[place])
    }

    /// Replaces the pair `was` by the pair `is`: either may be absent. There is room for that.
    #[inline(always)] // mostly both are equal, and nothing is to be done
    pub fn replace(&mut self, was: Option<(u64, u64)>, is: Option<(u64, u64)>)
        requires there { IfSome was (λ p. is_in p self.old.pairs ≡ true) }
        requires free { IfSome is (λ p. is_in p self.old.pairs ≡ true → was ≡ Some p) }
        requires room { length self.old.pairs + one_of is ≤ self.old.limit + one_of was }
        ensures limit { self.new.limit ≡ self.old.limit }
        ensures seed { self.new.seed ≡ self.old.seed }
        ensures length { length self.new.pairs + one_of was ≡ length self.old.pairs + one_of is }
        ensures replaced { IsReplaced self.old.pairs self.new.pairs was is }
    {
        if was == is {
            return;
        }
        if let Some((key, number)) = was {
            self.take(key, number);
        }
        if let Some((key, number)) = is {
            self.put(key, number);
        }
    }

    /// Moves the number from the key `was` to the key `is`: either may be absent. There is room for
    /// that.
    #[inline(always)] // mostly both are equal, and nothing is to be done
    pub fn rekey(&mut self, number: u64, was: Option<u64>, is: Option<u64>)
        requires was { IsKeyIn self.old.pairs number was }
        requires room { length self.old.pairs + one_of is ≤ self.old.limit + one_of was }
        ensures limit { self.new.limit ≡ self.old.limit }
        ensures seed { self.new.seed ≡ self.old.seed }
        ensures length { length self.new.pairs + one_of was ≡ length self.old.pairs + one_of is }
        ensures rekeyed { IsRekeyed self.old.pairs self.new.pairs number is }
        ensures counts { (k : ℕ)
            → many_of k self.new.pairs + one_if (is_key k was)
            ≡ many_of k self.old.pairs + one_if (is_key k is) }
    {
        if was != is {
            self.leave(number, was);
            self.enter(number, is);
        }
    }

    #[inline(always)]
    fn leave(&mut self, number: u64, was: Option<u64>)
        requires was { IsKeyIn self.old.pairs number was }
        ensures limit { self.new.limit ≡ self.old.limit }
        ensures seed { self.new.seed ≡ self.old.seed }
        ensures length { length self.new.pairs + one_of was ≡ length self.old.pairs }
        ensures rekeyed { IsRekeyed self.old.pairs self.new.pairs number None }
        ensures counts { (k : ℕ)
            → many_of k self.new.pairs + one_if (is_key k was) ≡ many_of k self.old.pairs }
    {
        if let Some(key) = was {
            self.take(key, number);
        }
    }

    #[inline(always)]
    fn enter(&mut self, number: u64, is: Option<u64>)
        requires free { IsKeyIn self.old.pairs number None }
        requires room { length self.old.pairs + one_of is ≤ self.old.limit }
        ensures limit { self.new.limit ≡ self.old.limit }
        ensures seed { self.new.seed ≡ self.old.seed }
        ensures length { length self.new.pairs ≡ length self.old.pairs + one_of is }
        ensures rekeyed { IsRekeyed self.old.pairs self.new.pairs number is }
        ensures counts { (k : ℕ)
            → many_of k self.new.pairs ≡ many_of k self.old.pairs + one_if (is_key k is) }
    {
        if let Some(key) = is {
            self.put(key, number);
        }
    }

    /// Adds the pair of this key and number, which isn't there. There is room for it.
    #[inline(never)]
    pub fn put(&mut self, key: u64, number: u64)
        requires room { length self.old.pairs < self.old.limit }
        requires absent { is_in (key, number) self.old.pairs ≡ false }
        ensures limit { self.new.limit ≡ self.old.limit }
        ensures seed { self.new.seed ≡ self.old.seed }
        ensures length { length self.new.pairs ≡ length self.old.pairs + 1 }
        ensures more { (p : Pair)
            → is_in p self.new.pairs ≡ (is_pair p (key, number) || is_in p self.old.pairs) }
        ensures counts { (k : ℕ)
            → many_of k self.new.pairs ≡ many_of k self.old.pairs + one_if (key == k) }
        ensures kinds { (f : Pair → Bool)
            → count_by f self.new.pairs ≡ count_by f self.old.pairs + one_if (f (key, number)) }
    {
        let place = place_for(self.buffer.pairs(), (key, number));
        self.buffer.insert(place, (key, number));
    }

    /// Removes the pair of this key and number, which is there.
    #[inline(never)]
    pub fn take(&mut self, key: u64, number: u64)
        requires there { is_in (key, number) self.old.pairs ≡ true }
        ensures limit { self.new.limit ≡ self.old.limit }
        ensures seed { self.new.seed ≡ self.old.seed }
        ensures length { length self.new.pairs + 1 ≡ length self.old.pairs }
        ensures less { (p : Pair)
            → is_in p self.new.pairs
            ≡ (not (is_pair p (key, number)) && is_in p self.old.pairs) }
        ensures counts { (k : ℕ)
            → many_of k self.new.pairs + one_if (key == k) ≡ many_of k self.old.pairs }
        ensures kinds { (f : Pair → Bool)
            → count_by f self.new.pairs + one_if (f (key, number)) ≡ count_by f self.old.pairs }
    {
        let place = place_for(self.buffer.pairs(), (key, number));
        self.buffer.remove(place - 1);
    }
}

/// The place of the first pair with this key or a greater one, or, if `past`, of the first with a
/// greater one.
fn place_of_key(pairs: &[(u64, u64)], key: u64, past: bool) -> usize
    requires { AreRising pairs.now }
    ensures within { result ≤ length pairs.now }
    ensures below { AllByRecursion (λ p. is_left past key p ≡ true) (take result pairs.now) }
    ensures above { AllByRecursion (λ p. is_left past key p ≡ false) (drop result pairs.now) }
{
    let mut low = 0;
    let mut high = pairs.len();
    while low < high {
        let middle = low + (high - low) / 2;
        if is_left(past, key, pairs[middle]) {
            low = middle + 1;
        } else {
            high = middle;
        }
    }
    low
}

/// Whether a pair comes before those of a key, or, if `past`, no later than they do.
fn is_left(past: bool, key: u64, pair: (u64, u64)) -> bool
    ensures exact { result ≡ is_left past key pair }
{
    pair.0 < key || (past && pair.0 == key)
}

/// The place of the first pair after this one, which is found at once if there is none: moments and
/// numbers go up, so that most pairs are added at the end.
fn place_for(pairs: &[(u64, u64)], pair: (u64, u64)) -> usize
    requires { AreRising pairs.now }
    ensures within { result ≤ length pairs.now }
    ensures below { AllByRecursion (λ p. is_before pair p ≡ false) (take result pairs.now) }
    ensures above { AllByRecursion (λ p. is_before pair p ≡ true) (drop result pairs.now) }
{
    let len = pairs.len();
    if len == 0 || is_before(pair, pairs[len - 1]) {
        return place_after(pairs, pair);
    }
    len
}

/// The place of the first pair after this one. Most that are looked for are the first ones, or
/// among the last: these are found at once, however many there are.
fn place_after(pairs: &[(u64, u64)], pair: (u64, u64)) -> usize
    requires { AreRising pairs.now }
    ensures within { result ≤ length pairs.now }
    ensures below { AllByRecursion (λ p. is_before pair p ≡ false) (take result pairs.now) }
    ensures above { AllByRecursion (λ p. is_before pair p ≡ true) (drop result pairs.now) }
{
    if are_after(pairs, pair, 0) {
        return 0;
    }
    if are_after(pairs, pair, 1) {
        return 1;
    }
    place_between(pairs, pair, places_from_end(pairs, pair))
}

/// Whether the pairs from this place on, if there are any, are after this one.
#[inline(always)]
fn are_after(pairs: &[(u64, u64)], pair: (u64, u64), place: usize) -> bool
    requires rising { AreRising pairs.now }
    requires place { place ≤ length pairs.now }
    ensures above { result ≡ true
        → AllByRecursion (λ p. is_before pair p ≡ true) (drop place pairs.now) }
    ensures below { result ≡ false
        → AllByRecursion (λ p. is_before pair p ≡ false) (take (place + 1) pairs.now) }
    ensures more { result ≡ false → place < length pairs.now }
{
    place == pairs.len() || is_before(pair, pairs[place])
}

/// Two places between which that of the first pair after this one is: the nearer to the end, the
/// closer they are.
fn places_from_end(pairs: &[(u64, u64)], pair: (u64, u64)) -> (usize, usize)
    requires { AreRising pairs.now }
    ensures order { result.0 ≤ result.1 }
    ensures within { result.1 ≤ length pairs.now }
    ensures below { AllByRecursion (λ p. is_before pair p ≡ false) (take result.0 pairs.now) }
    ensures above { AllByRecursion (λ p. is_before pair p ≡ true) (drop result.1 pairs.now) }
{
    let mut high = pairs.len();
    let mut step = 1;
    while step < high {
        let place = high - step;
        if !is_before(pair, pairs[place]) {
            return (place + 1, high);
        }
        high = place;
        step = step.saturating_mul(2);
    }
    (0, high)
}

/// The place of the first pair after this one, which is between these two.
fn place_between(pairs: &[(u64, u64)], pair: (u64, u64), places: (usize, usize)) -> usize
    requires rising { AreRising pairs.now }
    requires order { places.0 ≤ places.1 }
    requires room { places.1 ≤ length pairs.now }
    requires left { AllByRecursion (λ p. is_before pair p ≡ false) (take places.0 pairs.now) }
    requires right { AllByRecursion (λ p. is_before pair p ≡ true) (drop places.1 pairs.now) }
    ensures within { result ≤ length pairs.now }
    ensures below { AllByRecursion (λ p. is_before pair p ≡ false) (take result pairs.now) }
    ensures above { AllByRecursion (λ p. is_before pair p ≡ true) (drop result pairs.now) }
{
    let (mut low, mut high) = places;
    while low < high {
        let middle = low + (high - low) / 2;
        if is_before(pair, pairs[middle]) {
            high = middle;
        } else {
            low = middle + 1;
        }
    }
    low
}
