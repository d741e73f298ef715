//! Records of messages of one type.
ghost use Rattle.std.specs.Prelude.{◌≡◌, ◌↔◌, ◌==◌, ◌+◌, ◌-◌, ◌^◌, ◌<◌, ◌++◌, ◌∷◌, [], None, length, drop, slice_get, not, option_map, false, IfOk, IfErr, OnOk, OnErr};
ghost use Rattle.std.specs.Option.{option_copied, option_map_or};
ghost use Rattle.circular_buffer.specs.Buffer.{buffer};
ghost use Rattle.coap_dedup.specs.declared.error.Refused.TheVariants.{ClientFull, Full};
ghost use Rattle.coap_dedup.specs.Indexing.{AreNumbersOf};
ghost use Rattle.coap_endpoint.specs.declared.endpoint.Endpoint.{Endpoint};
ghost use Rattle.coap_dedup.specs.Lists.{AreApart, AreInOrder, AreUpTo, count_from, is_living, living, record_of};
ghost use Rattle.coap_dedup.specs.Records.{AreRecords, living_at, living_of, no_records, with_kept};
ghost use Rattle.coap_dedup.specs.Seen.{found};
ghost use Rattle.coap_dedup.specs.Sources.{numbers_from, place_of, share_of, AreLinked};

use crate::error::Refused;
use crate::key::Key;
use crate::numbers::Numbers;
use crate::record::Record;
use crate::seen::Seen;
use crate::sources::Share;
use circular_buffer::HeapCircularBuffer;
use coap_endpoint::Endpoint;
use coap_message::{Moment, OutOfMemory, Seq};
use std::alloc::Global;
use std::marker::Model;

/// Records of messages of one type, in the order in which they were kept. A contract sees them as a
/// list, with its limits and their lifetime. Times are in milliseconds and never decrease.
///
/// A lookup and a `keep` cost as much as lookups by message and by source in ordered maps, whatever
/// messages and ports peers choose; in addition, each record is released once.
pub struct Records {
    /// The records, in a buffer whose capacity is the limit.
    ring: HeapCircularBuffer<Record>,
    /// Where they are in it.
    numbers: Numbers,
    /// The most live records of messages from one endpoint.
    per_client: usize,
    /// How long each record lives, in milliseconds.
    lifetime: u64,
}

impl Drop for Records {
    fn drop(self) {
        let Records {
            ring: _,
            numbers: _,
            per_client: _,
            lifetime: _,
        } = self;
    }
}

impl Model for Records {
    ghost use Rattle.coap_dedup.specs.Indexing.{AreIndexed};
    ghost use Rattle.coap_dedup.specs.Records.{Records};

    ghost Value = { Records };

    ghost view = { λ r.
        record {
          items = r.ring.items;
          limit = r.ring.capacity;
          per_client = r.per_client;
          lifetime = r.lifetime;
        } };

    ghost invariant = { λ r.
        AreIndexed
        (record {
          items = r.ring.items;
          limit = r.ring.capacity;
          per_client = r.per_client;
          lifetime = r.lifetime;
        })
        r.numbers };
}

impl Records {
    /// No records, with room for `limit` of them, and for `per_client` of messages from one
    /// endpoint, each of which will live for `lifetime` milliseconds.
    ///
    /// # Errors
    /// Out of memory.
    pub fn new(
        alloc: Global,
        limit: usize,
        per_client: usize,
        lifetime: u64,
    ) -> Result<Records, OutOfMemory>
        ensures empty { IfOk result (λ records. records ≡ no_records limit per_client lifetime) }
    {
        let ring = HeapCircularBuffer::with_capacity(alloc, limit)?;
        let _laws = ring.len();
        let numbers = Numbers::new(alloc, limit)?;
        Ok(Records {
            ring,
            numbers,
            per_client,
            lifetime,
        })
    }

    /// Whether there is a live record of a message from this endpoint with this Message ID, and
    /// what its duplicate gets (RFC 7252, 4.5). Doesn't allocate.
    pub fn seen(&self, from: Endpoint, id: u16, now: Moment) -> Seen<'_>
        ensures exact { found result
            ≡ option_map (λ r. r.reply) (record_of from id (living_at now self.now)) }
        ensures sound { AreRecords self.now }
    {
        match self.record(Key { from, id }) {
            Some(record) if record.is_living(self.lifetime, now) => Seen::Again(record.reply()),
            _ => Seen::New,
        }
    }

    /// The number of live records. Doesn't allocate.
    pub fn living(&self, now: Moment) -> usize
        ensures exact { result ≡ length (living_at now self.now) }
    {
        self.ring.len() - count_dead(&self.ring, self.lifetime, now)
    }

    /// Whether the number of live records has reached the limit. Doesn't allocate.
    pub fn is_full(&self, now: Moment) -> bool
        ensures exact { result ≡ (length (living_at now self.now) == self.now.limit) }
    {
        self.ring.len() == self.ring.capacity() && !is_first_dead(&self.ring, self.lifetime, now)
    }

    /// The number of live records of messages from this endpoint. Doesn't allocate.
    pub fn living_of(&self, from: Endpoint, now: Moment) -> usize
        ensures exact { result ≡ living_of from now self.now }
    {
        let _laws = self.ring.len();
        match self.numbers.by_source.share_of(from) {
            Some(share) => {
                share.count - count_dead_of(&self.ring, &self.numbers, share, self.lifetime, now)
            }
            None => 0,
        }
    }

    /// Whether the number of live records of messages from this endpoint has reached the limit for
    /// one endpoint. Doesn't allocate.
    pub fn is_client_full(&self, from: Endpoint, now: Moment) -> bool
        ensures exact { result ≡ (living_of from now self.now == self.now.per_client) }
    {
        if self.ring.len() < self.per_client {
            return false;
        }
        match self.numbers.by_source.share_of(from) {
            Some(share) => {
                let first = self.numbers.first;
                share.count == self.per_client
                    && lives_numbered(&self.ring, share.first, first, self.lifetime, now)
            }
            None => self.per_client == 0,
        }
    }

    /// The endpoint whose message the record at this place is of, counted from 0 for the oldest. Of
    /// the oldest some may have expired, but none if `is_full`. Doesn't allocate.
    pub fn source(&self, place: usize) -> Option<Endpoint>
        ensures exact { result ≡ option_map (λ r. r.from) (slice_get self.now.items place) }
    {
        match self.ring.get(place) {
            Some(record) => Some(record.from),
            None => None,
        }
    }

    /// Keeps a record of a message that has just arrived and wasn't seen before, with the datagram
    /// that is sent in reply to it, if there is one (RFC 7252, 4.5). Expired records are released.
    ///
    /// # Errors
    /// `Full` if the number of live records has reached the limit; otherwise `ClientFull` if that
    /// of the live records of this endpoint has reached the limit for one endpoint; otherwise
    /// `OutOfMemory`. Nothing is changed then.
    pub fn keep(
        &mut self,
        from: Endpoint,
        id: u16,
        now: Moment,
        reply: Option<Seq<u8>>,
    ) -> Result<(), Refused>
        requires new { record_of from id (living_at now self.old) ≡ None }
        requires in_order { AreUpTo now self.old.items }
        ensures ok { OnOk result
            (self.new
            ≡ with_kept (record { from = from; id = id; at = now; reply = reply }) self.old) }
        ensures full { IfErr result (λ error.
            (error ≡ Full) ↔ (length (living_at now self.old) ≡ self.old.limit)) }
        ensures client_full { IfErr result (λ error.
            (error ≡ ClientFull)
            ↔ ((length (living_at now self.old) < self.old.limit)
            × (living_of from now self.old ≡ self.old.per_client))) }
        ensures room { OnOk result (length (living_at now self.old) < self.old.limit) }
        ensures client_room { OnOk result (living_of from now self.old < self.old.per_client) }
        ensures err { OnErr result (self.new ≡ self.old) }
        ensures sound { AreRecords self.new }
    {
        let _laws = self.ring.len();
        if self.is_full(now) {
            return Err(Refused::Full);
        }
        if self.is_client_full(from, now) {
            return Err(Refused::ClientFull);
        }
        self.keep_in_room(from, id, now, reply)?;
        Ok(())
    }

    /// Does the same as `keep` where there is room, which isn't looked for again.
    ///
    /// # Errors
    /// Out of memory. Nothing is changed then.
    pub fn keep_in_room(
        &mut self,
        from: Endpoint,
        id: u16,
        now: Moment,
        reply: Option<Seq<u8>>,
    ) -> Result<(), OutOfMemory>
        requires new { record_of from id (living_at now self.old) ≡ None }
        requires in_order { AreUpTo now self.old.items }
        requires room { length (living_at now self.old) < self.old.limit }
        requires client_room { living_of from now self.old < self.old.per_client }
        ensures ok { OnOk result
            (self.new
            ≡ with_kept (record { from = from; id = id; at = now; reply = reply }) self.old) }
        ensures err { OnErr result (self.new ≡ self.old) }
        ensures sound { AreRecords self.new }
    {
        let record = Record::new(from, id, now, reply);
        self.numbers.add(&self.ring, &record)?;
        release_dead(&mut self.ring, &mut self.numbers, self.lifetime, &record);
        let _ = self.ring.try_push_back(record);
        Ok(())
    }

    /// The record with a key, whether it is live or has expired.
    fn record(&self, key: Key) -> Option<&Record>
        ensures found { option_copied result ≡ record_of key.from key.id self.now.items }
        ensures sound { AreRecords self.now }
    {
        let _laws = self.ring.len();
        let number = self.numbers.by_message.get(&key)?;
        self.ring
            .get(number.wrapping_sub(self.numbers.first) as usize)
    }
}

/// The number of expired records, which are the first ones.
fn count_dead(ring: &HeapCircularBuffer<Record>, lifetime: u64, now: Moment) -> usize
    requires { AreInOrder ring.now.items }
    ensures { result + length (living lifetime now ring.now.items) ≡ length ring.now.items }
{
    let mut dead = 0;
    let mut end = ring.len();
    'search: while dead < end {
        let middle = dead + (end - dead) / 2;
        if lives_at(ring, middle, lifetime, now) {
            end = middle;
        } else {
            dead = middle + 1;
        }
    }
    dead
}

/// Whether the record at a position is live.
fn lives_at(ring: &HeapCircularBuffer<Record>, place: usize, lifetime: u64, now: Moment) -> bool
    ensures { result
        ≡ option_map_or (is_living lifetime now) (slice_get ring.now.items place) false }
{
    match ring.get(place) {
        Some(record) => record.is_living(lifetime, now),
        None => false,
    }
}

/// Whether the record with a number is live.
fn lives_numbered(
    ring: &HeapCircularBuffer<Record>,
    number: u64,
    first: u64,
    lifetime: u64,
    now: Moment,
) -> bool
    requires { first < 2 ^ 64 }
    ensures { result
        ≡ option_map_or
        (is_living lifetime now)
        (slice_get ring.now.items (place_of first number))
        false }
{
    lives_at(ring, number.wrapping_sub(first) as usize, lifetime, now)
}

/// The number of expired ones among the records of an endpoint, whose share is this.
fn count_dead_of(
    ring: &HeapCircularBuffer<Record>,
    numbers: &Numbers,
    share: Share,
    lifetime: u64,
    now: Moment,
) -> usize
    requires few { length ring.now.items < 2 ^ 63 }
    requires in_order { AreInOrder ring.now.items }
    requires linked { AreLinked numbers.now.first numbers.now.by_source.nexts.items ring.now.items }
    ensures { (from : Endpoint)
        → Some share ≡ share_of (numbers_from numbers.now.first from ring.now.items)
        → result + count_from from (living lifetime now ring.now.items) ≡ share.count }
{
    let mut dead = 0;
    let mut number = share.first;
    'dead: while dead < share.count {
        if lives_numbered(ring, number, numbers.first, lifetime, now) {
            break;
        }
        number = numbers
            .by_source
            .next(number.wrapping_sub(numbers.first) as usize);
        dead += 1;
    }
    dead
}

/// Whether the first record has expired.
fn is_first_dead(ring: &HeapCircularBuffer<Record>, lifetime: u64, now: Moment) -> bool
    ensures { result
        ≡ option_map_or (λ r. not (is_living lifetime now r)) (slice_get ring.now.items 0) false }
{
    match ring.front() {
        Some(first) => !first.is_living(lifetime, now),
        None => false,
    }
}

/// Releases the records that have expired when the new one is kept, which has its number already.
fn release_dead(
    ring: &mut HeapCircularBuffer<Record>,
    numbers: &mut Numbers,
    lifetime: u64,
    new: &Record,
)
    requires in_order { AreInOrder ring.old.items }
    requires apart { AreApart ring.old.items }
    requires numbered { AreNumbersOf numbers.old (ring.old.items ++ new.now ∷ []) }
    ensures left { ring.new
        ≡ buffer (living lifetime new.now.at ring.old.items) ring.old.capacity }
    ensures numbered { AreNumbersOf numbers.new (ring.new.items ++ new.now ∷ []) }
    ensures capacity { numbers.new.by_source.nexts.capacity
        ≡ numbers.old.by_source.nexts.capacity }
{
    'dead: while is_first_dead(ring, lifetime, new.at) {
        if let Some(record) = ring.pop_front() {
            numbers.release_first(&record, new);
        }
    }
}
