//! Tables of pairs, which a key leads to: one of each key.
ghost use Rattle.std.specs.Prelude.{◌≡◌, ◌+◌, ◌<◌, ◌≤◌, ◌&&◌, ◌||◌, ℕ, [], length, slice_index_or, if◌then◌else◌, true, false, not, None, Some, IfOk, IfNone, IfSome};
ghost use Rattle.ordered_index.specs.Chains.{chain_room, is_among, pairs_in, slots_from, AreLinkedBack, IsChain, IsFirstOf};
ghost use Rattle.ordered_index.specs.Hashed.{lower};
ghost use Rattle.ordered_index.specs.Ordered.{is_in, is_pair, IsNextOf, Pair};

use crate::place::place_of;
use std::alloc::{AllocError, Global};
use std::marker::Model;

/// The most pairs in a chain.
const CHAIN_ROOM: usize = 16;

/// The average number of pairs in a chain when there are as many as there may be.
const PAIRS_A_CHAIN: usize = 4;

/// The most slots that links lead to.
const MOST_SLOTS: usize = u32::MAX as usize;

/// Pairs of a key and a number, each at most once. A pair is in a slot, and the slots of the keys of
/// one place are a chain: each has a link to the next. The link 0 leads nowhere, and the link i + 1
/// to the slot i. A pair comes to the front of its chain, and if one leaves, the first of its chain
/// takes its place: so no link of another slot changes, and neither costs more where more pairs are.
/// Only `new` allocates. A contract sees the pairs of all chains, one chain after the other, and the
/// factor.
#[derive(Drop)]
pub(crate) struct Table {
    /// What spreads the keys over the places.
    factor: u64,
    /// For each place, a link to its first slot.
    heads: Vec<u32>,
    /// For each slot, a link to the one after it.
    nexts: Vec<u32>,
    /// For each slot, the pair in it.
    pairs: Vec<(u64, u64)>,
    /// A link to the first slot without a pair.
    free: u32,
}

impl Model for Table {
    ghost use Rattle.std.specs.Prelude.{◌≡◌, ◌<◌, length};
    ghost use Rattle.ordered_index.specs.Chains.{buckets_from, IsTable};
    ghost use Rattle.ordered_index.specs.Hashed.{place_of, pairs_of, Spread};

    ghost Value = { Spread };

    ghost view = { λ t.
        record {
          pairs = pairs_of (buckets_from t.pairs.items t.nexts.items t.heads.items);
          factor = t.factor;
        } };

    ghost invariant = { λ t.
        (0 < length t.heads.items)
        × IsTable
        (place_of t.factor (length t.heads.items))
        t.pairs.items
        t.nexts.items
        t.heads.items
        t.free };
}

impl Table {
    /// An empty table with room for `limit` pairs, or for as many as links can lead to.
    ///
    /// # Errors
    /// If allocation fails.
    pub(crate) fn new(alloc: Global, limit: usize, factor: u64) -> Result<Table, AllocError>
        ensures empty { IfOk result (λ table. table ≡ record { pairs = []; factor = factor }) }
    {
        let room = limit.min(MOST_SLOTS);
        let heads = vec![in alloc; 0; limit / PAIRS_A_CHAIN + 1]?;
        let nexts = free_slots(alloc, room as u32)?;
        let pairs = vec![in alloc; (0, 0); room]?;
        Ok(Table {
            factor,
            heads,
            nexts,
            pairs,
            free: room as u32,
        })
    }

    /// The least number of this key that is greater than `after`.
    pub(crate) fn next_of(&self, key: u64, after: u64) -> Option<u64>
        ensures exact { IsNextOf key after self.now.pairs result }
    {
        let place = place_of(self.factor, self.heads.len(), key);
        next_in(&self.pairs, &self.nexts, self.heads[place], key, after)
    }

    /// Adds the pair of this key and number, which isn't there, unless its chain is full or has a
    /// pair of the key, or no slot is free. Returns whether it did.
    pub(crate) fn put_if_room(&mut self, key: u64, number: u64) -> bool
        requires absent { is_in (key, number) self.old.pairs ≡ false }
        ensures factor { self.new.factor ≡ self.old.factor }
        ensures length { length self.new.pairs
            ≡ length self.old.pairs + (if result then 1 else 0) }
        ensures more { (p : Pair)
            → is_in p self.new.pairs
            ≡ ((result && is_pair p (key, number)) || is_in p self.old.pairs) }
    {
        let place = place_of(self.factor, self.heads.len(), key);
        let head = self.heads[place];
        let free = self.free;
        if free == 0 || !is_open_to(&self.pairs, &self.nexts, head, key) {
            return false;
        }
        let slot = free as usize - 1;
        self.free = self.nexts[slot];
        self.pairs[slot] = (key, number);
        self.nexts[slot] = head;
        self.heads[place] = free;
        true
    }

    /// Removes the pair of this key and number, if it is there, and returns whether it was. The
    /// first pair of the chain takes its place.
    pub(crate) fn take_if_there(&mut self, key: u64, number: u64) -> bool
        ensures exact { result ≡ is_in (key, number) self.old.pairs }
        ensures factor { self.new.factor ≡ self.old.factor }
        ensures length { length self.new.pairs + (if result then 1 else 0)
            ≡ length self.old.pairs }
        ensures less { (p : Pair)
            → is_in p self.new.pairs
            ≡ (not (is_pair p (key, number)) && is_in p self.old.pairs) }
    {
        let place = place_of(self.factor, self.heads.len(), key);
        let head = self.heads[place];
        let Some(slot) = slot_of(&self.pairs, &self.nexts, head, (key, number)) else {
            return false;
        };
        let first = head as usize - 1;
        self.pairs[slot] = self.pairs[first];
        self.heads[place] = self.nexts[first];
        self.nexts[first] = self.free;
        self.free = head;
        true
    }
}

/// The least number of a key, greater than `after`, in the chain from a link on. `put_if_room` puts
/// no second one there, but no contract says that.
fn next_in(pairs: &[(u64, u64)], nexts: &[u32], start: u32, key: u64, after: u64) -> Option<u64>
    requires chain { IsChain chain_room nexts.now start }
    requires both { length pairs.now ≡ length nexts.now }
    ensures exact { IsNextOf
        key
        after
        (pairs_in pairs.now (slots_from chain_room nexts.now start))
        result }
{
    let Some(first) = slot_of_key(pairs, nexts, start, key) else {
        return None;
    };
    if let Some(_) = slot_of_key(pairs, nexts, nexts[first], key) {
        return least_in(pairs, nexts, start, key, after);
    }
    let number = pairs[first].1;
    if after < number { Some(number) } else { None }
}

/// The least number of a key, greater than `after`, in the chain from a link on.
#[inline(never)] // no key has two numbers there
fn least_in(pairs: &[(u64, u64)], nexts: &[u32], start: u32, key: u64, after: u64) -> Option<u64>
    requires chain { IsChain chain_room nexts.now start }
    requires both { length pairs.now ≡ length nexts.now }
    ensures exact { IsNextOf
        key
        after
        (pairs_in pairs.now (slots_from chain_room nexts.now start))
        result }
{
    let mut next = None;
    let mut link = start;
    for _ in 0..CHAIN_ROOM {
        if link == 0 {
            return next;
        }
        let slot = link as usize - 1;
        let pair = pairs[slot];
        if pair.0 == key && after < pair.1 {
            next = lower(next, Some(pair.1));
        }
        link = nexts[slot];
    }
    next
}

/// The first slot with a pair of this key in the chain from a link on, if there is one.
fn slot_of_key(pairs: &[(u64, u64)], nexts: &[u32], start: u32, key: u64) -> Option<usize>
    requires chain { IsChain chain_room nexts.now start }
    requires both { length pairs.now ≡ length nexts.now }
    ensures some { IfSome result (λ slot. IsFirstOf key pairs.now nexts.now start slot) }
    ensures none { IfNone result
        ((n : ℕ) → is_in (key, n) (pairs_in pairs.now (slots_from chain_room nexts.now start))
        ≡ false) }
{
    let mut link = start;
    while link != 0 {
        let slot = link as usize - 1;
        if pairs[slot].0 == key {
            return Some(slot);
        }
        link = nexts[slot];
    }
    None
}

/// The slot of a pair in the chain from a link on, if it is there.
fn slot_of(pairs: &[(u64, u64)], nexts: &[u32], start: u32, pair: (u64, u64)) -> Option<usize>
    requires chain { IsChain chain_room nexts.now start }
    requires both { length pairs.now ≡ length nexts.now }
    ensures some { IfSome result
        (λ slot. (is_among slot (slots_from chain_room nexts.now start) ≡ true)
        × (slice_index_or pairs.now slot (0, 0) ≡ pair)) }
    ensures none { IfNone result
        (is_in pair (pairs_in pairs.now (slots_from chain_room nexts.now start)) ≡ false) }
{
    let mut link = start;
    while link != 0 {
        let slot = link as usize - 1;
        if pair == pairs[slot] {
            return Some(slot);
        }
        link = nexts[slot];
    }
    None
}

/// Whether the chain from a link on takes another slot for this key: it has room, and no pair of
/// the key, so that many pairs of one key don't make it long.
fn is_open_to(pairs: &[(u64, u64)], nexts: &[u32], start: u32, key: u64) -> bool
    requires chain { IsChain chain_room nexts.now start }
    requires both { length pairs.now ≡ length nexts.now }
    ensures { result ≡ true → IsChain 15 nexts.now start }
{
    let mut link = start;
    for _ in 1..CHAIN_ROOM {
        if link == 0 {
            return true;
        }
        let slot = link as usize - 1;
        if pairs[slot].0 == key {
            return false;
        }
        link = nexts[slot];
    }
    link == 0
}

/// The links of slots without a pair: from each to the one before it.
fn free_slots(alloc: Global, many: u32) -> Result<Vec<u32>, AllocError>
    ensures { IfOk result (λ nexts. (length nexts.items ≡ many) × AreLinkedBack nexts.items) }
{
    let mut nexts = Vec::with_capacity(alloc, many as usize)?;
    for link in 0..many {
        nexts.push(link)?;
    }
    Ok(nexts)
}

/// The lower of two numbers, if there is one.
pub(crate) fn lower(a: Option<u64>, b: Option<u64>) -> Option<u64>
    ensures exact { result ≡ lower a b }
{
    match (a, b) {
        (Some(first), Some(second)) => Some(first.min(second)),
        (Some(_), None) => a,
        (None, _) => b,
    }
}
