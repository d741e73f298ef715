//! Counts of requests by where they go.
ghost use Rattle.std.specs.Prelude.{◌≡◌, IfOk, map};
ghost use Rattle.std.specs.List.{list_any};
ghost use Rattle.coap_counts.specs.Maps as spec;

use crate::requests::RequestCounts;
use crate::search::map_for;
use coap_message::{MessageRef, OutOfMemory, Pieces};
use coap_model::Outcome;
use coap_target::{Map, Routes, says_uri};
use std::alloc::Global;
use std::marker::Model;

/// What a request counts for.
pub enum Way<'r> {
    /// Its path is mapped, by the map with this prefix.
    Mapped(&'r Pieces),
    /// It names its target by a Proxy-Uri or a Proxy-Scheme (RFC 7252, 5.10.2), and there is no
    /// next proxy.
    Forward,
    /// The same, where there is a next proxy.
    Next,
    /// Nowhere: no map is for its path.
    Unmapped,
}

/// What became of the requests that were mapped by a prefix.
pub struct MapCounts {
    /// The segments of the prefix.
    pub prefix: Pieces,
    pub requests: RequestCounts,
}

impl Drop for MapCounts {
    fn drop(self) {
        let MapCounts {
            prefix: _,
            requests: _,
        } = self;
    }
}

impl MapCounts {
    /// Counts a request with this outcome, if it was mapped by this prefix.
    fn count(&mut self, prefix: &Pieces, outcome: Outcome)
        ensures { self.new ≡ spec.counted prefix.now outcome self.old }
    {
        if self.prefix == *prefix {
            self.requests.count(outcome);
        }
    }
}

/// What became of requests, by where they go. A contract sees the counts of each prefix, in the
/// order of the maps, and the others.
pub struct MapTable {
    maps: Vec<MapCounts>,
    forward: RequestCounts,
    next: RequestCounts,
    unmapped: RequestCounts,
}

impl Drop for MapTable {
    fn drop(self) {
        let MapTable {
            maps: _,
            forward: _,
            next: _,
            unmapped: _,
        } = self;
    }
}

impl Model for MapTable {
    ghost use Rattle.coap_counts.specs.Maps.{Ways};

    ghost Value = { Ways };

    ghost view = { λ t. record {
      maps = t.maps.items;
      forward = t.forward;
      next = t.next;
      unmapped = t.unmapped;
    } };
}

/// What a request counts for.
pub fn way_of<'r>(routes: &'r Routes, request: &MessageRef<'_>) -> Way<'r>
    ensures { spec.way_seen result ≡ spec.way_of routes.entry.now request.now }
{
    if says_uri(request) {
        return if routes.has_next() {
            Way::Next
        } else {
            Way::Forward
        };
    }
    match map_for(routes.maps(), request) {
        Some(map) => Way::Mapped(&map.prefix),
        None => Way::Unmapped,
    }
}

/// Counts a request among those with the prefix that it was mapped by.
fn count_mapped(maps: &mut [MapCounts], prefix: &Pieces, outcome: Outcome)
    ensures { maps.new ≡ map (spec.counted prefix.now outcome) maps.old }
{
    for map in maps.iter_mut() {
        map.count(prefix, outcome);
    }
}

/// Whether there are counts for a prefix.
fn has_prefix(maps: &[MapCounts], prefix: &Pieces) -> bool
    ensures { result ≡ list_any (spec.has_prefix prefix.now) maps.now }
{
    maps.iter().any(|map| map.prefix == *prefix)
}

/// Counts for the prefix of each map, once for each prefix.
fn counts_of(alloc: Global, maps: &[Map]) -> Result<Vec<MapCounts>, OutOfMemory>
    ensures { IfOk result (λ counts. counts.items ≡ spec.by_prefix maps.now) }
{
    let mut counts: Vec<MapCounts> = Vec::with_capacity(alloc, maps.len())?;
    for map in maps {
        if !has_prefix(counts.as_slice(), &map.prefix) {
            counts.push(MapCounts {
                prefix: map.prefix.clone()?,
                requests: RequestCounts::new(),
            })?;
        }
    }
    Ok(counts)
}

impl MapTable {
    /// No requests yet, through these routes. Allocates all that it ever needs.
    ///
    /// # Errors
    /// Out of memory.
    pub fn new(alloc: Global, routes: &Routes) -> Result<MapTable, OutOfMemory>
        ensures { IfOk result (λ table. table ≡ spec.no_ways routes.now) }
    {
        Ok(MapTable {
            maps: counts_of(alloc, routes.maps())?,
            forward: RequestCounts::new(),
            next: RequestCounts::new(),
            unmapped: RequestCounts::new(),
        })
    }

    /// The counts of each prefix, in the order of the maps.
    pub fn maps(&self) -> &[MapCounts]
        ensures { result.now ≡ self.now.maps }
    {
        self.maps.as_slice()
    }

    /// What became of requests that name their target by a URI, where there is no next proxy.
    pub fn forward(&self) -> &RequestCounts
        ensures { result.now ≡ self.now.forward }
    {
        &self.forward
    }

    /// What became of requests that name their target by a URI, where there is a next proxy.
    pub fn next(&self) -> &RequestCounts
        ensures { result.now ≡ self.now.next }
    {
        &self.next
    }

    /// What became of requests for whose path there is no map.
    pub fn unmapped(&self) -> &RequestCounts
        ensures { result.now ≡ self.now.unmapped }
    {
        &self.unmapped
    }

    /// Counts a request that went this way, by its outcome.
    pub fn count(&mut self, way: Way<'_>, outcome: Outcome)
        ensures { self.new ≡ spec.with_request (spec.way_seen way.entry) outcome self.old }
    {
        match way {
            Way::Mapped(prefix) => count_mapped(&mut self.maps, prefix, outcome),
            Way::Forward => self.forward.count(outcome),
            Way::Next => self.next.count(outcome),
            Way::Unmapped => self.unmapped.count(outcome),
        }
    }
}
