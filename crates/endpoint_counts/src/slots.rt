//! Counts with their endpoints, in numbered places.
ghost use Rattle.std.specs.Prelude.{◌≡◌, ◌<◌, ◌≤◌, ◌^◌, [], length, IfNone, IfOk};
ghost use Rattle.endpoint_counts.specs.Slots.{AreGapless};
ghost use Rattle.coap_pending.specs.Table.{admitted_to, changed_at, empty_table, item_at, withdrawn, IsTable};

use crate::digested_endpoint::DigestedEndpoint;
use crate::endpoints::EndpointCounts;
use coap_message::OutOfMemory;
use std::alloc::Global;
use std::marker::Model;

/// What is counted for one endpoint.
#[derive(Clone, Copy)]
pub struct Entry {
    pub peer: DigestedEndpoint,
    pub counts: EndpointCounts,
}

/// Entries in places that are numbered from 1 on, without a gap. Only `new` allocates. A contract
/// sees them as a table, to which an entry is admitted at the end, and withdrawn from there.
#[derive(Drop)]
pub struct Slots {
    entries: Vec<Entry>,
    limit: usize,
}

impl Model for Slots {
    ghost use Rattle.std.specs.Prelude.{◌≡◌, ◌≤◌, length, vec_capacity, vec_len};
    ghost use Rattle.endpoint_counts.specs.declared.slots.Entry.{Entry};
    ghost use Rattle.endpoint_counts.specs.Slots.{slots_of};
    ghost use Rattle.coap_pending.specs.Table.{Table};

    ghost Value = { Table Entry };

    ghost view = { λ s. slots_of s.entries.items s.limit };

    ghost invariant = { λ s.
        (vec_len s.entries ≡ length s.entries.items)
        × (length s.entries.items ≤ s.limit)
        × (s.limit ≤ vec_capacity s.entries) };
}

impl Slots {
    /// No entries, and room for `limit`.
    ///
    /// # Errors
    /// Out of memory.
    pub fn new(alloc: Global, limit: usize) -> Result<Slots, OutOfMemory>
        ensures empty { IfOk result (λ slots. slots ≡ empty_table limit 0) }
    {
        Ok(Slots {
            entries: Vec::with_capacity(alloc, limit)?,
            limit,
        })
    }

    /// The number of entries, which is that of the last place.
    pub fn len(&self) -> u64
        ensures exact { result ≡ self.now.admitted }
        ensures all { length self.now.items ≡ self.now.admitted }
        ensures fits { self.now.limit < 2 ^ 64 }
        ensures sound { IsTable self.now }
        ensures gapless { AreGapless self.now.items }
    {
        self.entries.len() as u64
    }

    /// The entry at the place of this number.
    pub fn get(&self, number: u64) -> Option<Entry>
        ensures exact { result ≡ item_at number self.now.items }
    {
        let len = self.entries.len();
        if number == 0 {
            return None;
        }
        let place = number as usize - 1;
        if place >= len {
            return None;
        }
        Some(self.entries[place])
    }

    /// The last entry, if there is one.
    pub fn last(&self) -> Option<Entry>
        ensures exact { result ≡ item_at self.now.admitted self.now.items }
        ensures none { IfNone result (self.now.items ≡ []) }
    {
        let len = self.entries.len();
        if len == 0 {
            return None;
        }
        Some(self.entries[len - 1])
    }

    /// Adds an entry at the end. There is room for it.
    pub fn push(&mut self, entry: Entry)
        requires { length self.old.items < self.old.limit }
        ensures { self.new ≡ admitted_to entry self.old }
    {
        self.entries.push_reserved(entry);
    }

    /// Replaces the entry at the place of this number, which is at most that of the last.
    pub fn set(&mut self, number: u64, entry: Entry)
        requires first { 0 < number }
        requires last { number ≤ self.old.admitted }
        ensures { self.new
            ≡ record self.old { items = changed_at number (λ e. entry) self.old.items } }
    {
        self.entries[number as usize - 1] = entry;
    }

    /// Removes the last entry, if there is one.
    pub fn pop(&mut self)
        ensures { self.new ≡ withdrawn self.old }
    {
        let len = self.entries.len();
        self.entries.truncate(len.saturating_sub(1));
    }
}
