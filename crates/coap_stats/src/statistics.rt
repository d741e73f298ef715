//! All statistics of a proxy.
ghost use Rattle.std.specs.Prelude.{◌≡◌, IfOk};
ghost use Rattle.coap_stats.specs.Statistics as spec;

use crate::tally::Tally;
use crate::turns::{count_opening, count_origin, count_way};
use coap_core::{Core, Holders, LimitValues, Watch, WatchedTurn};
use coap_counts::{MapTable, OpeningCounts, OriginTable};
use coap_message::OutOfMemory;
use coap_store::{Evictions, Store};
use coap_target::Routes;
use std::alloc::Global;

/// How many origins have counts of their own, besides those of maps.
const OTHER_ORIGINS: usize = 256;

/// All that is counted of a proxy.
#[derive(Drop)]
pub struct Statistics {
    pub tally: Tally,
    /// Requests by where they go.
    pub maps: MapTable,
    pub origins: OriginTable,
    pub openings: OpeningCounts,
    /// What the cache evicted to make room.
    pub evictions: Evictions,
    /// Who had most of each table that was full.
    pub holders: Holders,
}

/// Takes over how many entries a store evicted so far.
fn note_evictions<S: Store>(evictions: &mut Evictions, store: &S)
    ensures { evictions.new ≡ S.evicted store.now }
{
    *evictions = store.evictions();
}

impl Statistics {
    /// Nothing yet, of a proxy with these routes and limits. Allocates all that is ever needed.
    ///
    /// # Errors
    /// Out of memory.
    pub fn new(
        alloc: Global,
        routes: &Routes,
        limits: &LimitValues,
    ) -> Result<Statistics, OutOfMemory>
        ensures tally { IfOk result (λ s. s.tally ≡ spec.no_tally) }
        ensures maps { IfOk result (λ s. s.maps ≡ spec.no_ways routes.now) }
        ensures origins { IfOk result
            (λ s. s.origins ≡ spec.no_origins (spec.origins_counted routes.now)) }
        ensures openings { IfOk result (λ s. s.openings ≡ spec.no_openings) }
        ensures evictions { IfOk result (λ s. s.evictions ≡ spec.no_evictions) }
        ensures holders { IfOk result (λ s. s.holders ≡ spec.nobody limits.now) }
    {
        let maps = routes.maps();
        let places = maps.len().saturating_add(OTHER_ORIGINS);
        Ok(Statistics {
            tally: Tally::new(),
            maps: MapTable::new(alloc, routes)?,
            origins: OriginTable::new(alloc, places)?,
            openings: OpeningCounts::new(),
            evictions: Evictions::new(),
            holders: Holders::new(alloc, limits)?,
        })
    }
}

impl Watch for Statistics {
    ghost use Rattle.coap_stats.specs.Statistics.{Sees};

    ghost sees = { Sees };

    #[inline(always)]
    fn foresee<S: Store + Drop>(&mut self, _turn: WatchedTurn<'_>, _core: &Core<S>) {}

    #[inline(always)]
    fn see<S: Store + Drop>(&mut self, turn: WatchedTurn<'_>, core: &Core<S>) {
        self.tally.count(turn);
        count_way(&mut self.maps, turn, core.routes());
        count_origin(&mut self.origins, turn, core);
        count_opening(&mut self.openings, turn);
        note_evictions(&mut self.evictions, core.store());
        self.holders.look(turn, core);
    }
}
