//! A store as a plain list.
ghost use Rattle.std.specs.Prelude.{◌≡◌, ◌<◌, ◌≤◌, ◌^◌, ◌∷◌, None, true, is_some, IsSome, IsTrue, OnOk, OnErr, length, map, count_by, position, take, vec_len, vec_capacity};
ghost use Rattle.coap_store.specs.Entries.{entry_key, entry_size, is_for, marked};
ghost use Rattle.coap_store.specs.Evicting.{beyond, evictions_of};
ghost use Rattle.coap_store.specs.Lists.{are_distinct, cut, has_key, of_key, others, total, used};

use coap_endpoint::Target;
use coap_message::{Moment, OutOfMemory};
use coap_store::{Evictions, Put, SharedKey, Store, Stored, bytes_of};
use std::alloc::Global;

/// A store that keeps its entries in a list, the most recently used first, and searches it in each
/// call.
pub struct ListStore {
    entries: Vec<(SharedKey, Stored)>,
    /// The maximum number of bytes that the entries may count for.
    most_bytes: u64,
    /// The maximum number of entries.
    most_entries: usize,
    evicted: Evictions,
    ghost distinct: { are_distinct entry_key entries.items ≡ true },
    ghost within_bytes: { total entry_size entries.items ≤ most_bytes },
    ghost within_entries: { length entries.items ≤ most_entries },
    ghost small: { most_bytes < 2 ^ 63 },
}

impl Drop for ListStore {
    fn drop(self) {
        let ListStore {
            entries: _,
            most_bytes: _,
            most_entries: _,
            evicted: _,
        } = self;
    }
}

impl Store for ListStore {
    type Seed = ();

    ghost limits = { λ s. record { bytes = s.most_bytes; entries = s.most_entries } };

    ghost entries = { λ s. s.entries.items };

    ghost evicted = { λ s. s.evicted };

    ghost secret = { λ _. 0 };

    ghost secret_of = { λ _. 0 };

    fn with_limits(
        alloc: Global,
        _seed: (),
        most_bytes: u64,
        most_entries: usize,
    ) -> Result<ListStore, OutOfMemory> {
        Ok(ListStore {
            entries: Vec::new(alloc),
            most_bytes: most_bytes.min(i64::MAX as u64),
            most_entries,
            evicted: Evictions::new(),
        })
    }

    fn secret(&self) -> u64 {
        0
    }

    fn touch(&mut self, key: &SharedKey) {
        use_entry(&mut self.entries, key);
    }

    fn peek(&self, key: &SharedKey) -> Option<&Stored> {
        match place_of(&self.entries, key) {
            Some(place) => Some(&self.entries[place].1),
            None => None,
        }
    }

    fn put(&mut self, key: SharedKey, stored: Stored) -> Put {
        if bytes_of(&key, &stored) > self.most_bytes {
            forget_entry(&mut self.entries, &key);
            return Put::TooLarge;
        }
        let now = stored.got;
        match put_entry(&mut self.entries, key, stored) {
            Ok(()) => {
                let (bytes, most) = (self.most_bytes, self.most_entries);
                let more = cut_to(&mut self.entries, bytes, most, now);
                self.evicted.add(more);
                Put::Kept
            }
            Err(_) => Put::NoMemory,
        }
    }

    fn mark(&mut self, target: &Target) -> usize {
        mark_all(&mut self.entries, target)
    }

    fn forget(&mut self, key: &SharedKey) -> bool {
        forget_entry(&mut self.entries, key)
    }

    fn total(&self) -> u64 {
        total_of(&self.entries)
    }

    fn len(&self) -> usize {
        self.entries.len()
    }

    fn evictions(&self) -> Evictions {
        self.evicted
    }
}

/// The position of the entry with a key.
fn place_of(entries: &[(SharedKey, Stored)], key: &SharedKey) -> Option<usize>
    ensures { result ≡ position (has_key entry_key key.now) entries.now }
{
    entries.iter().position(|entry| entry.0 == *key)
}

/// Removes the entry with a key. There is then room for another.
fn take_out(entries: &mut Vec<(SharedKey, Stored)>, key: &SharedKey) -> Option<(SharedKey, Stored)>
    requires { are_distinct entry_key entries.old.items ≡ true }
    ensures entry { result ≡ of_key entry_key key.now entries.old.items }
    ensures others { entries.new.items ≡ others entry_key key.now entries.old.items }
    ensures room { IsSome result → vec_len entries.new < vec_capacity entries.new }
{
    match place_of(entries, key) {
        Some(place) => Some(entries.remove(place)),
        None => None,
    }
}

/// Puts an entry first. There must be room for it.
fn put_back(entries: &mut Vec<(SharedKey, Stored)>, entry: (SharedKey, Stored))
    requires { vec_len entries.old < vec_capacity entries.old }
    ensures { entries.new.items ≡ entry ∷ entries.old.items }
{
    if entries.insert(0, entry).is_err() {
        unreachable!();
    }
}

/// Removes the entry with a key and drops it. Returns whether there was one; there is then room for
/// another.
fn forget_entry(entries: &mut Vec<(SharedKey, Stored)>, key: &SharedKey) -> bool
    requires { are_distinct entry_key entries.old.items ≡ true }
    ensures found { result ≡ is_some (of_key entry_key key.now entries.old.items) }
    ensures others { entries.new.items ≡ others entry_key key.now entries.old.items }
    ensures room { IsTrue result → vec_len entries.new < vec_capacity entries.new }
{
    take_out(entries, key).is_some()
}

/// Puts an entry first, replacing the one with its key.
fn put_entry(
    entries: &mut Vec<(SharedKey, Stored)>,
    key: SharedKey,
    stored: Stored,
) -> Result<(), OutOfMemory>
    requires { are_distinct entry_key entries.old.items ≡ true }
    ensures ok { OnOk result
        (entries.new.items ≡ (key, stored) ∷ others entry_key key entries.old.items) }
    ensures err { OnErr result (entries.new.items ≡ entries.old.items) }
    ensures err_new { OnErr result (of_key entry_key key entries.old.items ≡ None) }
{
    if forget_entry(entries, &key) {
        put_back(entries, (key, stored));
        return Ok(());
    }
    entries.insert(0, (key, stored))?;
    Ok(())
}

/// The number of entries from the front that are within the limits.
fn count_fitting(entries: &[(SharedKey, Stored)], bytes: u64, most: usize) -> usize
    requires { bytes < 2 ^ 63 }
    ensures cut { take result entries.now ≡ cut entry_size bytes most entries.now }
    ensures within { result ≤ length entries.now }
{
    let mut left = bytes;
    let mut count = 0;
    for (key, stored) in entries {
        let size = bytes_of(key, stored);
        if size > left || count == most {
            break;
        }
        left -= size;
        count += 1;
    }
    count
}

/// How many entries these are, and how many of them are fresh at this moment.
fn count_evicted(entries: &[(SharedKey, Stored)], now: Moment) -> Evictions
    ensures { result ≡ evictions_of now entries.now }
{
    let mut fresh = 0;
    for (_, stored) in entries {
        if stored.is_fresh(now) {
            fresh += 1;
        }
    }
    Evictions {
        entries: entries.len() as u64,
        fresh,
    }
}

/// Evicts the entries after those that are within the limits, and returns how many these were, and
/// how many of them were fresh at this moment.
fn cut_to(entries: &mut Vec<(SharedKey, Stored)>, bytes: u64, most: usize, now: Moment) -> Evictions
    requires { bytes < 2 ^ 63 }
    ensures kept { entries.new.items ≡ cut entry_size bytes most entries.old.items }
    ensures counted { result ≡ evictions_of now (beyond entry_size bytes most entries.old.items) }
{
    let count = count_fitting(entries, bytes, most);
    let evicted = count_evicted(&entries[count..], now);
    entries.truncate(count);
    evicted
}

/// Moves the entry with a key to the front.
fn use_entry(entries: &mut Vec<(SharedKey, Stored)>, key: &SharedKey)
    requires { are_distinct entry_key entries.old.items ≡ true }
    ensures { entries.new.items ≡ used entry_key key.now entries.old.items }
{
    match take_out(entries, key) {
        Some(entry) => put_back(entries, entry),
        None => {}
    }
}

/// Marks the entry if it is for this target, and returns whether it is.
fn mark_entry(entry: &mut (SharedKey, Stored), target: &Target) -> bool
    ensures answer { result ≡ is_for target.now entry.old }
    ensures marked { entry.new ≡ marked target.now entry.old }
{
    let is_for = entry.0.target == *target;
    if is_for {
        entry.1.marked = true;
    }
    is_for
}

/// Marks the entries for a target, and counts them.
fn mark_all(entries: &mut Vec<(SharedKey, Stored)>, target: &Target) -> usize
    ensures counted { result ≡ count_by (is_for target.now) entries.old.items }
    ensures marked { entries.new.items ≡ map (marked target.now) entries.old.items }
{
    mark_entries(entries, target)
}

/// Marks those among some entries that are for a target, and counts them.
fn mark_entries(entries: &mut [(SharedKey, Stored)], target: &Target) -> usize
    ensures counted { result ≡ count_by (is_for target.now) entries.old }
    ensures marked { entries.new ≡ map (marked target.now) entries.old }
{
    let mut count = 0;
    for entry in entries.iter_mut() {
        if mark_entry(entry, target) {
            count += 1;
        }
    }
    count
}

/// The number of bytes that entries count for.
fn total_of(entries: &[(SharedKey, Stored)]) -> u64
    requires { total entry_size entries.now < 2 ^ 63 }
    ensures { result ≡ total entry_size entries.now }
{
    let mut total = 0;
    for (key, stored) in entries {
        total += bytes_of(key, stored);
    }
    total
}
