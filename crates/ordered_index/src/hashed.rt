//! Indexes by key, which nobody asks for their first pair.
ghost use Rattle.std.specs.Prelude.{◌≡◌, ◌+◌, ◌<◌, ◌≤◌, ◌||◌, ◌&&◌, ◌++◌, List, [], length, if◌then◌else◌, true, false, not, None, IfOk};
ghost use Rattle.ordered_index.specs.Ordered.{seeded_index, is_in, is_pair, one_of, IsNextOf, IsKeyIn, IsRekeyed, Pair};

use crate::ordered::OrderedIndex;
use crate::place::{factor_of, place_of};
use crate::table::{Table, lower};
use std::alloc::{AllocError, Global};
use std::marker::Model;

/// For so many pairs of the limit there is one count of pairs among the rest.
const PAIRS_A_COUNT: usize = 64;

/// An index by key, in which a pair costs the same however many others there are. A key mostly has
/// one pair, which is in the table. Its others are among the rest, where they cost what they cost in
/// an `OrderedIndex`, as are those whose chain is full. The rest is searched only for keys that
/// share a count with such a key. Only `new` allocates. A contract sees all pairs: those of the
/// table, and then the rest.
pub struct HashedIndex {
    /// What the factor was made of.
    seed: u64,
    /// What spreads the keys.
    factor: u64,
    /// The number of pairs.
    len: usize,
    table: Table,
    rest: OrderedIndex,
    /// For each of a few places, the number of pairs among the rest whose keys have it.
    outside: Vec<usize>,
}

impl Drop for HashedIndex {
    fn drop(self) {
        let HashedIndex {
            seed: _,
            factor: _,
            len: _,
            table: _,
            rest: _,
            outside: _,
        } = self;
    }
}

impl Model for HashedIndex {
    ghost use Rattle.std.specs.Prelude.{◌≡◌, ◌<◌, ◌++◌, length};
    ghost use Rattle.ordered_index.specs.Hashed.{factor_of, place_of, AreApart, AreCounts};
    ghost use Rattle.ordered_index.specs.Ordered.{OrderedIndex};

    ghost Value = { OrderedIndex };

    ghost view = { λ h.
        record { pairs = h.table.pairs ++ h.rest.pairs; limit = h.rest.limit; seed = h.seed } };

    ghost invariant = { λ h.
        (h.len ≡ length (h.table.pairs ++ h.rest.pairs))
        × AreApart h.table.pairs h.rest.pairs
        × (0 < length h.outside.items)
        × AreCounts (place_of h.factor (length h.outside.items)) h.outside.items h.rest.pairs
        × (h.factor ≡ factor_of h.seed)
        × (h.table.factor ≡ factor_of h.seed) };
}

impl HashedIndex {
    /// An empty index with room for `limit` pairs. To which chain a key belongs depends on `seed`,
    /// so that whoever doesn't know it can't choose keys that meet in one.
    ///
    /// # Errors
    /// If allocation fails.
    pub fn new(alloc: Global, limit: usize, seed: u64) -> Result<HashedIndex, AllocError>
        ensures empty { IfOk result (λ index. index ≡ seeded_index seed limit) }
    {
        let factor = factor_of(seed);
        let table = Table::new(alloc, limit, factor)?;
        let rest = OrderedIndex::new(alloc, limit)?;
        let outside = vec![in alloc; 0; limit / PAIRS_A_COUNT + 1]?;
        Ok(HashedIndex {
            seed,
            factor,
            len: 0,
            table,
            rest,
            outside,
        })
    }

    /// The least number greater than `after` that has this key.
    pub fn next_of(&self, key: u64, after: u64) -> Option<u64>
        ensures exact { IsNextOf key after self.now.pairs result }
    {
        if self.len == 0 {
            return None;
        }
        if self.rest.is_empty() {
            return self.table.next_of(key, after);
        }
        let place = place_of(self.factor, self.outside.len(), key);
        if self.outside[place] == 0 {
            return self.table.next_of(key, after);
        }
        next_of_both(&self.table, &self.rest, key, after)
    }

    /// Moves the number from the key `was` to the key `is`: either may be absent. There is room for
    /// that.
    #[inline(always)] // mostly both are equal, and nothing is to be done
    pub fn rekey(&mut self, number: u64, was: Option<u64>, is: Option<u64>)
        requires was { IsKeyIn self.old.pairs number was }
        requires room { length self.old.pairs + one_of is ≤ self.old.limit + one_of was }
        ensures limit { self.new.limit ≡ self.old.limit }
        ensures seed { self.new.seed ≡ self.old.seed }
        ensures length { length self.new.pairs + one_of was ≡ length self.old.pairs + one_of is }
        ensures rekeyed { IsRekeyed self.old.pairs self.new.pairs number is }
    {
        if was != is {
            self.leave(number, was);
            self.enter(number, is);
        }
    }

    #[inline(always)]
    fn leave(&mut self, number: u64, was: Option<u64>)
        requires was { IsKeyIn self.old.pairs number was }
        ensures limit { self.new.limit ≡ self.old.limit }
        ensures seed { self.new.seed ≡ self.old.seed }
        ensures length { length self.new.pairs + one_of was ≡ length self.old.pairs }
        ensures rekeyed { IsRekeyed self.old.pairs self.new.pairs number None }
    {
        if let Some(key) = was {
            self.take(key, number);
        }
    }

    #[inline(always)]
    fn enter(&mut self, number: u64, is: Option<u64>)
        requires free { IsKeyIn self.old.pairs number None }
        requires room { length self.old.pairs + one_of is ≤ self.old.limit }
        ensures limit { self.new.limit ≡ self.old.limit }
        ensures seed { self.new.seed ≡ self.old.seed }
        ensures length { length self.new.pairs ≡ length self.old.pairs + one_of is }
        ensures rekeyed { IsRekeyed self.old.pairs self.new.pairs number is }
    {
        if let Some(key) = is {
            self.put(key, number);
        }
    }

    /// Adds the pair of this key and number, which isn't there. There is room for it.
    #[inline(never)]
    pub fn put(&mut self, key: u64, number: u64)
        requires room { length self.old.pairs < self.old.limit }
        requires absent { is_in (key, number) self.old.pairs ≡ false }
        ensures limit { self.new.limit ≡ self.old.limit }
        ensures seed { self.new.seed ≡ self.old.seed }
        ensures length { length self.new.pairs ≡ length self.old.pairs + 1 }
        ensures more { (p : Pair)
            → is_in p self.new.pairs ≡ (is_pair p (key, number) || is_in p self.old.pairs) }
    {
        let _laws = self.rest.limit();
        self.len += 1;
        if !self.table.put_if_room(key, number) {
            let place = place_of(self.factor, self.outside.len(), key);
            self.outside[place] += 1;
            self.rest.put(key, number);
        }
    }

    /// Removes the pair of this key and number, which is there.
    #[inline(never)]
    pub fn take(&mut self, key: u64, number: u64)
        requires there { is_in (key, number) self.old.pairs ≡ true }
        ensures limit { self.new.limit ≡ self.old.limit }
        ensures seed { self.new.seed ≡ self.old.seed }
        ensures length { length self.new.pairs + 1 ≡ length self.old.pairs }
        ensures less { (p : Pair)
            → is_in p self.new.pairs
            ≡ (not (is_pair p (key, number)) && is_in p self.old.pairs) }
    {
        self.len -= 1;
        if !self.table.take_if_there(key, number) {
            let place = place_of(self.factor, self.outside.len(), key);
            self.outside[place] -= 1;
            self.rest.take(key, number);
        }
    }
}

/// The least number of this key that is greater than `after`, in the table or among the rest.
#[inline(never)] // mostly there is no rest
fn next_of_both(table: &Table, rest: &OrderedIndex, key: u64, after: u64) -> Option<u64>
    ensures exact { IsNextOf key after (table.now.pairs ++ rest.now.pairs) result }
{
    let own = table.next_of(key, after);
    lower(own, rest.next_of(key, after))
}
