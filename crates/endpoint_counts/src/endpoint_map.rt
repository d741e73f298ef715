//! Counts by endpoint.
ghost use Rattle.std.specs.Prelude.{◌≡◌, ◌<◌, length, if◌then◌else◌, Some, None, IfOk, IsTrue};
ghost use Rattle.coap_endpoint.specs.declared.endpoint.Endpoint.{Endpoint};
ghost use Rattle.endpoint_counts.specs.Endpoints.{is_one};
ghost use Rattle.endpoint_counts.specs.Slots.{found, is_entry_of, AreDistinct, AreGapless, AreSome};
ghost use Rattle.coap_pending.specs.Table.{seeded_table, first_that, item_at, passes, IsTable};

use crate::digested_endpoint::DigestedEndpoint;
use crate::endpoints::EndpointCounts;
use crate::slots::{Entry, Slots};
use coap_message::OutOfMemory;
use ordered_index::HashedIndex;
use std::alloc::Global;
use std::marker::Model;

/// Counts by endpoint, for at most as many endpoints as its limit. Only `new` allocates. A contract
/// sees the entries.
pub struct EndpointMap {
    slots: Slots,
    /// The numbers of the places, by the digest of the endpoint.
    places: HashedIndex,
    /// The number of the place that was set or sought last. An endpoint is looked for there first:
    /// two changes in a row are often of the same endpoint.
    last: u64,
    /// An endpoint without a place, if one was looked for: it is often looked for again before it
    /// gets one.
    absent: Option<DigestedEndpoint>,
}

impl Drop for EndpointMap {
    fn drop(self) {
        let EndpointMap {
            slots: _,
            places: _,
            last: _,
            absent: _,
        } = self;
    }
}

impl Model for EndpointMap {
    ghost use Rattle.endpoint_counts.specs.declared.slots.Entry.{Entry};
    ghost use Rattle.endpoint_counts.specs.IndexOf.{IsIndexOf};
    ghost use Rattle.endpoint_counts.specs.Slots.{entry_key, is_entry_of, AreDistinct, AreSome};
    ghost use Rattle.coap_pending.specs.Table.{Table, first_that, IsTable};
    ghost use Rattle.std.specs.Prelude.{◌≡◌, None, IfSome};

    ghost Value = { Table Entry };

    ghost view = { λ m. record m.slots { seed = m.places.seed } };

    ghost invariant = { λ m.
        IsIndexOf entry_key m.slots.items m.slots.limit m.places
        × AreDistinct m.slots.items
        × IsTable m.slots
        × AreSome m.slots.items
        × IfSome m.absent (λ at. first_that (is_entry_of at) m.slots.items ≡ None) };
}

impl EndpointMap {
    /// No counts, and room for those of `limit` endpoints. Which of them meet depends on `seed`.
    ///
    /// # Errors
    /// Out of memory.
    pub fn new(alloc: Global, limit: usize, seed: u64) -> Result<EndpointMap, OutOfMemory>
        ensures empty { IfOk result (λ map. map ≡ seeded_table seed limit 0) }
    {
        let slots = Slots::new(alloc, limit)?;
        let places = HashedIndex::new(alloc, limit, seed)?;
        Ok(EndpointMap {
            slots,
            places,
            last: 0,
            absent: None,
        })
    }

    /// The endpoint at the place of this number, with what is counted for it. The places are
    /// numbered from 1 on, without a gap, in no order.
    pub fn entry(&self, number: u64) -> Option<Entry>
        ensures exact { result ≡ item_at number self.now.items }
    {
        self.slots.get(number)
    }

    /// What is counted for an endpoint, whose place is this, if anything is.
    pub fn get(&self, at: DigestedEndpoint, place: Option<u64>) -> Option<EndpointCounts>
        requires place { place ≡ first_that (is_entry_of at) self.now.items }
        ensures exact { result ≡ found at self.now.items }
    {
        let slots = &self.slots;
        let Some(number) = place else {
            return None;
        };
        match slots.get(number) {
            Some(entry) => Some(entry.counts),
            None => None,
        }
    }

    // Does nothing: it lets a proof conclude that there are no more entries than items that they
    // count, and that `entry` gives all of them, one after another.
    pub fn laws(&self)
        ensures distinct { AreDistinct self.now.items }
        ensures some { AreSome self.now.items }
        ensures sound { IsTable self.now }
        ensures gapless { AreGapless self.now.items }
    {
        let _ = self.slots.len();
    }

    /// Sets what is counted for an endpoint, whose place is this: of something there is at least
    /// one. If nothing was counted for it, there is room for another.
    pub fn set(&mut self, at: DigestedEndpoint, place: Option<u64>, counts: EndpointCounts)
        requires place { place ≡ first_that (is_entry_of at) self.old.items }
        requires some { 0 < counts.all }
        requires room { found at self.old.items ≡ None
            → length self.old.items < self.old.limit }
        ensures limit { self.new.limit ≡ self.old.limit }
        ensures seed { self.new.seed ≡ self.old.seed }
        ensures exact { (e : Endpoint)
            → found e self.new.items
            ≡ (if is_one at e then Some counts else found e self.old.items) }
    {
        let entry = Entry { peer: at, counts };
        self.absent = None;
        if let Some(number) = place {
            self.last = number;
            self.slots.set(number, entry);
            return;
        }
        let number = self.slots.len() + 1;
        self.last = number;
        self.places.rekey(number, None, Some(at.digest()));
        self.slots.push(entry);
    }

    /// Forgets what is counted for an endpoint, whose place is this. The last entry moves there.
    pub fn remove(&mut self, at: DigestedEndpoint, place: Option<u64>)
        requires place { place ≡ first_that (is_entry_of at) self.old.items }
        ensures limit { self.new.limit ≡ self.old.limit }
        ensures seed { self.new.seed ≡ self.old.seed }
        ensures exact { (e : Endpoint)
            → found e self.new.items ≡ (if is_one at e then None else found e self.old.items) }
    {
        let last = self.slots.len();
        let Some(number) = place else {
            return;
        };
        let Some(moved) = self.slots.last() else {
            unreachable!()
        };
        self.absent = None;
        self.places
            .rekey(number, Some(at.digest()), Some(moved.peer.digest()));
        self.slots.set(number, moved);
        self.places.rekey(last, Some(moved.peer.digest()), None);
        self.slots.pop();
    }

    /// The number of the place of an endpoint, if it has one.
    #[inline(always)] // mostly it is the last one
    pub fn place_of(&self, at: DigestedEndpoint) -> Option<u64>
        ensures exact { result ≡ first_that (is_entry_of at) self.now.items }
    {
        if self.is_at(self.last, at) {
            return Some(self.last);
        }
        if self.is_absent(at) {
            return None;
        }
        self.place_by_digest(at)
    }

    /// Looks for the place of an endpoint, so that the calls about it that follow find it, or that
    /// it has none, at once.
    pub fn seek(&mut self, at: DigestedEndpoint)
        ensures { self.new ≡ self.old }
    {
        match self.place_of(at) {
            Some(number) => self.last = number,
            None => self.absent = Some(at),
        }
    }

    /// The number of the place of an endpoint, found by its digest.
    #[inline(never)]
    fn place_by_digest(&self, at: DigestedEndpoint) -> Option<u64>
        ensures exact { result ≡ first_that (is_entry_of at) self.now.items }
    {
        let mut after = 0;
        while let Some(number) = self.places.next_of(at.digest(), after) {
            if self.is_at(number, at) {
                return Some(number);
            }
            after = number;
        }
        None
    }

    /// Whether an endpoint is the one that is known to have no place.
    #[inline(always)]
    fn is_absent(&self, at: DigestedEndpoint) -> bool
        ensures exact { IsTrue result → first_that (is_entry_of at) self.now.items ≡ None }
    {
        match self.absent {
            Some(absent) => absent.endpoint() == at.endpoint(),
            None => false,
        }
    }

    /// Whether an endpoint has the place of this number.
    #[inline(always)]
    fn is_at(&self, number: u64, at: DigestedEndpoint) -> bool
        ensures exact { result ≡ passes (is_entry_of at) (item_at number self.now.items) }
    {
        match self.slots.get(number) {
            Some(entry) => entry.peer.endpoint() == at.endpoint(),
            None => false,
        }
    }
}
