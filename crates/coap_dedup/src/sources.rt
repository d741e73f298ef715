//! Which records are of messages from which endpoint.
ghost use Rattle.std.specs.Prelude.{◌≡◌, ◌+◌, ◌<◌, ◌^◌, ◌++◌, ◌∷◌, [], Some, None, false, length, drop, slice_get, slice_set, IfOk, IfSome, OnErr, OnOk, IsTrue, IsFalse, if◌then◌else◌};
ghost use Rattle.std.specs.Option.{option_map, option_map_or};
ghost use Rattle.circular_buffer.specs.Buffer.{buffer};
ghost use Rattle.coap_endpoint.specs.declared.endpoint.Endpoint.{Endpoint};
ghost use Rattle.coap_dedup.specs.Sources.{AreSourced, grown, is_same, place_of, share_in, shrunk};

use circular_buffer::HeapCircularBuffer;
use coap_endpoint::Endpoint;
use coap_message::OutOfMemory;
use std::alloc::Global;
use std::collections::BTreeMap;
use std::collections::btree_map::Entry;

/// What an endpoint has of the records.
#[derive(Clone, Copy)]
pub(crate) struct Share {
    /// How many they are.
    pub(crate) count: usize,
    /// The number of the first of them.
    pub(crate) first: u64,
    /// The number of the last of them.
    pub(crate) last: u64,
}

/// The share of each endpoint that has records.
pub(crate) type Shares = BTreeMap<Endpoint, Share>;

/// Which records are of messages from which endpoint.
pub(crate) struct Sources {
    pub(crate) shares: Shares,
    /// For each record in turn, the number of the next one of the same endpoint, if there is one.
    pub(crate) nexts: HeapCircularBuffer<u64>,
}

impl Drop for Sources {
    fn drop(self) {
        let Sources {
            shares: _,
            nexts: _,
        } = self;
    }
}

impl Sources {
    /// Those of no records, with room for `limit` and one more.
    ///
    /// # Errors
    /// Out of memory.
    pub(crate) fn new(alloc: Global, limit: usize) -> Result<Sources, OutOfMemory>
        requires few { limit < 2 ^ 63 }
        ensures none { IfOk result (λ sources. AreSourced 0 sources []) }
        ensures capacity { IfOk result (λ sources. sources.nexts.capacity ≡ limit + 1) }
    {
        Ok(Sources {
            shares: BTreeMap::new(alloc),
            nexts: HeapCircularBuffer::with_capacity(alloc, limit + 1)?,
        })
    }

    /// The share of an endpoint, if it has one.
    pub(crate) fn share_of(&self, from: Endpoint) -> Option<Share>
        ensures { result ≡ share_in self.now.shares from }
    {
        match self.shares.get(&from) {
            Some(share) => Some(*share),
            None => None,
        }
    }

    /// The number of the record that is the next one of the same endpoint after the one at this
    /// place.
    pub(crate) fn next(&self, place: usize) -> u64
        ensures { IfSome (slice_get self.now.nexts.items place) (λ next. result ≡ next) }
    {
        match self.nexts.get(place) {
            Some(next) => *next,
            None => 0,
        }
    }

    /// Adds a record with this number after the others, the first of which has the number `first`.
    ///
    /// # Errors
    /// Out of memory, which only an endpoint without a share needs. Nothing is changed then.
    pub(crate) fn add(&mut self, from: Endpoint, number: u64, first: u64) -> Result<(), OutOfMemory>
        requires within { length self.old.nexts.items < self.old.nexts.capacity }
        requires few { IfSome (share_in self.old.shares from) (λ share. share.count < 2 ^ 63) }
        ensures shares { OnOk result ((e : Endpoint)
            → share_in self.new.shares e
            ≡ (if is_same from e then
            Some (grown (share_in self.old.shares from) number)
            else
            share_in self.old.shares e)) }
        ensures nexts { OnOk result (self.new.nexts
            ≡ buffer
            (option_map_or
            (λ share. slice_set self.old.nexts.items (place_of first share.last) number)
            (share_in self.old.shares from)
            self.old.nexts.items
            ++ number ∷ [])
            self.old.nexts.capacity) }
        ensures new { OnErr result (share_in self.old.shares from ≡ None) }
        ensures same_shares { OnErr result ((e : Endpoint)
            → share_in self.new.shares e ≡ share_in self.old.shares e) }
        ensures same_nexts { OnErr result (self.new.nexts ≡ self.old.nexts) }
    {
        if let Some(last) = grow(&mut self.shares, from, number)? {
            link(&mut self.nexts, last.wrapping_sub(first) as usize, number);
        }
        let _ = self.nexts.try_push_back(number);
        Ok(())
    }

    /// Removes the first record, which is of this endpoint, and with its last one its share.
    /// Doesn't allocate.
    pub(crate) fn release_first(&mut self, from: Endpoint)
        ensures shares { IfSome (slice_get self.old.nexts.items 0) (λ next.
            (e : Endpoint)
            → share_in self.new.shares e
            ≡ (if is_same from e then
            shrunk (share_in self.old.shares from) next
            else
            share_in self.old.shares e)) }
        ensures nexts { self.new.nexts
            ≡ buffer (drop 1 self.old.nexts.items) self.old.nexts.capacity }
    {
        if let Some(next) = self.nexts.pop_front() {
            if shrink(&mut self.shares, from, next) {
                self.shares.remove(&from);
            }
        }
    }
}

/// Adds a record with this number to the share of an endpoint, and returns the number of the one
/// that was its last.
///
/// # Errors
/// Out of memory, which only an endpoint without a share needs. Nothing is changed then.
fn grow(shares: &mut Shares, from: Endpoint, number: u64) -> Result<Option<u64>, OutOfMemory>
    requires few { IfSome (share_in shares.old from) (λ share. share.count < 2 ^ 63) }
    ensures last { IfOk result (λ last. last
        ≡ option_map (λ share. share.last) (share_in shares.old from)) }
    ensures grown { OnOk result ((e : Endpoint)
        → share_in shares.new e
        ≡ (if is_same from e then
        Some (grown (share_in shares.old from) number)
        else
        share_in shares.old e)) }
    ensures new { OnErr result (share_in shares.old from ≡ None) }
    ensures same { OnErr result ((e : Endpoint) → share_in shares.new e ≡ share_in shares.old e) }
{
    match shares.entry(from)? {
        Entry::Vacant(entry) => {
            entry.insert(Share {
                count: 1,
                first: number,
                last: number,
            });
            Ok(None)
        }
        Entry::Occupied(entry) => {
            let share = entry.into_mut();
            let last = share.last;
            share.count += 1;
            share.last = number;
            Ok(Some(last))
        }
    }
}

/// Notes the number of the next record of the same endpoint after the one at this place.
fn link(nexts: &mut HeapCircularBuffer<u64>, place: usize, number: u64)
    ensures { nexts.new
        ≡ buffer (slice_set nexts.old.items place number) nexts.old.capacity }
{
    if let Some(next) = nexts.get_mut(place) {
        *next = number;
    }
}

/// Takes the first record off the share of an endpoint, whose next one has this number. Returns
/// whether there is no next one; if so, the share is to be removed.
fn shrink(shares: &mut Shares, from: Endpoint, next: u64) -> bool
    ensures left { IsFalse result
        → (e : Endpoint)
        → share_in shares.new e
        ≡ (if is_same from e then
        shrunk (share_in shares.old from) next
        else
        share_in shares.old e) }
    ensures last { IsTrue result → shrunk (share_in shares.old from) next ≡ None }
    ensures others { (e : Endpoint)
        → is_same from e ≡ false
        → share_in shares.new e ≡ share_in shares.old e }
{
    match shares.get_mut(&from) {
        Some(share) => {
            if share.count <= 1 {
                return true;
            }
            share.count -= 1;
            share.first = next;
            false
        }
        None => true,
    }
}
