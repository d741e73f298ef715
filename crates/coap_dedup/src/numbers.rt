//! The numbers of records, by message and by source.
ghost use Rattle.std.specs.Prelude.{◌≡◌, ◌+◌, ◌<◌, ◌^◌, ◌++◌, ◌∷◌, [], List, length, IfOk, OnErr, OnOk};
ghost use Rattle.coap_dedup.specs.declared.record.Record.{Record};
ghost use Rattle.coap_dedup.specs.Indexing.{AreNumbersOf};
ghost use Rattle.coap_dedup.specs.Lists.{AreApart};

use crate::key::Key;
use crate::record::Record;
use crate::sources::Sources;
use circular_buffer::HeapCircularBuffer;
use coap_message::OutOfMemory;
use std::alloc::Global;
use std::collections::BTreeMap;

/// The numbers of records: each has one more than the record before it, wrapping around to 0 after
/// the greatest.
pub(crate) struct Numbers {
    pub(crate) by_message: BTreeMap<Key, u64>,
    pub(crate) by_source: Sources,
    /// The number of the first record, or of the next one if there is none.
    pub(crate) first: u64,
}

impl Drop for Numbers {
    fn drop(self) {
        let Numbers {
            by_message: _,
            by_source: _,
            first: _,
        } = self;
    }
}

impl Numbers {
    /// No numbers, with room for `limit` and one more.
    ///
    /// # Errors
    /// Out of memory.
    pub(crate) fn new(alloc: Global, limit: usize) -> Result<Numbers, OutOfMemory>
        requires few { limit < 2 ^ 63 }
        ensures none { IfOk result (λ numbers. AreNumbersOf numbers []) }
        ensures capacity { IfOk result (λ numbers. numbers.by_source.nexts.capacity ≡ limit + 1) }
    {
        Ok(Numbers {
            by_message: BTreeMap::new(alloc),
            by_source: Sources::new(alloc, limit)?,
            first: 0,
        })
    }

    /// Gives a number to a record that is to come after those of the ring. If one of these is of
    /// the same message, its number is forgotten.
    ///
    /// # Errors
    /// Out of memory. The numbers are then those of the ring, as before.
    pub(crate) fn add(
        &mut self,
        ring: &HeapCircularBuffer<Record>,
        new: &Record,
    ) -> Result<(), OutOfMemory>
        requires room { length ring.now.items < self.old.by_source.nexts.capacity }
        requires numbered { AreNumbersOf self.old ring.now.items }
        ensures numbered { OnOk result (AreNumbersOf self.new (ring.now.items ++ new.now ∷ [])) }
        ensures err { OnErr result (AreNumbersOf self.new ring.now.items) }
        ensures capacity { self.new.by_source.nexts.capacity
            ≡ self.old.by_source.nexts.capacity }
    {
        let number = self.first.wrapping_add(ring.len() as u64);
        self.by_message.insert(new.key(), number)?;
        match self.by_source.add(new.from, number, self.first) {
            Ok(()) => Ok(()),
            Err(refused) => {
                // the endpoint has no records, so there was no number of this message
                self.by_message.remove(&new.key());
                Err(refused)
            }
        }
    }

    /// Takes back the number of the first record. That of its message stays if the last record is
    /// of the same one. Doesn't allocate.
    pub(crate) fn release_first(&mut self, first: &Record, last: &Record)
        ensures numbered { (records : List Record)
            → AreApart (first.now ∷ records)
            → AreNumbersOf self.old (first.now ∷ (records ++ last.now ∷ []))
            → AreNumbersOf self.new (records ++ last.now ∷ []) }
        ensures capacity { self.new.by_source.nexts.capacity
            ≡ self.old.by_source.nexts.capacity }
    {
        self.first = self.first.wrapping_add(1);
        self.by_source.release_first(first.from);
        let key = first.key();
        if key != last.key() {
            self.by_message.remove(&key);
        }
    }
}
