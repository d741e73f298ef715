//! What a change of an exchange, or its removal, does to all that is kept of it.
ghost use Rattle.std.specs.Prelude.{◌≡◌, ℕ, ◌+◌, ◌-◌, ◌<◌, if◌then◌else◌, false, None, nat_eq, IfSome, IfNone};
ghost use Rattle.std.specs.Map.{set_value};
ghost use Rattle.std.specs.Option.{option_copied, option_map};
ghost use Rattle.indexmap.specs.IndexMap.{get, hasher_of};
ghost use Rattle.coap_pending.specs.Exchanges.{after_transition, is_queued, is_sent_to, sent, tainted_by, CanChange, CanUpdate, is_queued_to, is_with};
ghost use Rattle.coap_exchange.specs.Index.{keys_at, AreIndexed, IsSpread};
ghost use Rattle.endpoint_counts.specs.Endpoints.{open_in, queued_in, sent_in};
ghost use Rattle.coap_exchange.specs.Counted.{AreCounted, IsRecounted};
ghost use Rattle.coap_pending.specs.Table.{item_at, changed_at, all_changed, count, passes, IsTable};
ghost use Rattle.coap_exchange.specs.Updates.{client_of_removed, updated, updated_at, Allows};

use crate::exchanges::Exchanges;
use crate::index::{ExchangeKeys, Index, keys_at, keys_in, keys_of};
use crate::indexed_exchange::{IndexedExchange, client_of};
use crate::send_queue::{head_may_change_at, head_of};
use crate::table::{Items, Table, place_in};
use coap_endpoint::Target;
use coap_pending::{ExchangeNumber, Transition};
use coap_store::digest_of_target;
use endpoint_counts::by_client::depart;
use endpoint_counts::{
    DigestedEndpoint, EndpointMap, SentCounts, Stage, close_one, lowered, move_one,
};

impl Exchanges {
    /// Changes the exchange numbered `number`, or removes it if there is no change. Nothing happens
    /// if there is no such exchange. What is counted of it, what it is looked up by, and whose turn
    /// it is follow.
    #[inline(always)] // which change it is, each caller knows
    pub(crate) fn update(&mut self, number: ExchangeNumber, change: Option<Transition>)
        requires { CanUpdate change (item_at number self.old.items) }
        ensures { self.new
            ≡ record self.old { items = updated_at after_transition change number self.old.items } }
    {
        let found = self.table.get(number);
        let at = head_may_change_at(found, &change);
        let sent = recount(&mut self.endpoints, &self.table, number, found, &change);
        let head = head_of(&self.table, &self.index, self.queued, &at, sent.was);
        let queued = queued_without(self.queued, &self.table, number, found);
        depart(&mut self.clients, client_of_removed(found, &change));
        let secret = self.index.secret;
        let was = keys_in(found, secret);
        self.queued = queued;
        let is = self.table.update(number, change, secret);
        self.index.rekey(number, was, is);
        let next = head_of(&self.table, &self.index, queued, &at, sent.is);
        self.send_queue.heads.replace(head, next);
    }
}

impl Table<IndexedExchange> {
    /// Changes the exchange numbered `number`, or removes it if there is no change, and returns
    /// what it is looked up by then. Digests are made with this secret.
    #[inline(always)]
    fn update(
        &mut self,
        number: ExchangeNumber,
        change: Option<Transition>,
        secret: u64,
    ) -> ExchangeKeys
        requires { Allows CanChange change (item_at number self.old.items) }
        ensures updated { self.new
            ≡ record self.old { items = updated_at after_transition change number self.old.items } }
        ensures keys { result
            ≡ keys_at secret (updated after_transition change (item_at number self.old.items)) }
    {
        match change {
            Some(change) => self.change(number, change, secret),
            None => {
                self.close(number);
                keys_in(None, secret)
            }
        }
    }

    /// Changes the exchange numbered `number`, if there is one, and returns what it is looked up by
    /// then.
    #[inline(always)]
    fn change(&mut self, number: ExchangeNumber, change: Transition, secret: u64) -> ExchangeKeys
        requires { IfSome (item_at number self.old.items) (CanChange change) }
        ensures changed { self.new
            ≡ record self.old { items = changed_at number (after_transition change) self.old.items } }
        ensures keys { result
            ≡ keys_at secret (option_map (after_transition change) (item_at number self.old.items)) }
    {
        change_under(&mut self.items, self.place, number, change, secret)
    }

    fn taint(&mut self, number: ExchangeNumber, target: &Target)
        ensures { self.new
            ≡ record self.old {
              items = changed_at number (tainted_by target.now) self.old.items;
            } }
    {
        taint_under(&mut self.items, self.place, number, target);
    }
}

#[inline(always)]
fn change_under(
    exchanges: &mut Items<IndexedExchange>,
    place: usize,
    number: ExchangeNumber,
    change: Transition,
    secret: u64,
) -> ExchangeKeys
    requires { IfSome (get nat_eq exchanges.old number) (CanChange change) }
    ensures found { IfSome (get nat_eq exchanges.old number) (λ x.
        exchanges.new.entries
        ≡ set_value (nat_eq number) exchanges.old.entries (after_transition change x)) }
    ensures missing { IfNone (get nat_eq exchanges.old number)
        (exchanges.new.entries ≡ exchanges.old.entries) }
    ensures hasher { hasher_of exchanges.new ≡ hasher_of exchanges.old }
    ensures keys { result
        ≡ keys_at secret (option_map (after_transition change) (get nat_eq exchanges.old number)) }
{
    let Some(place) = place_in(exchanges, place, number) else {
        return keys_in(None, secret);
    };
    match exchanges.get_index_mut(place) {
        Some(exchange) => {
            exchange.change(change);
            keys_of(exchange, secret)
        }
        None => unreachable!(),
    }
}

fn taint_under(
    exchanges: &mut Items<IndexedExchange>,
    place: usize,
    number: ExchangeNumber,
    target: &Target,
)
    ensures found { IfSome (get nat_eq exchanges.old number) (λ x.
        exchanges.new.entries
        ≡ set_value (nat_eq number) exchanges.old.entries (tainted_by target.now x)) }
    ensures missing { IfNone (get nat_eq exchanges.old number)
        (exchanges.new.entries ≡ exchanges.old.entries) }
    ensures hasher { hasher_of exchanges.new ≡ hasher_of exchanges.old }
{
    let Some(place) = place_in(exchanges, place, number) else {
        return;
    };
    match exchanges.get_index_mut(place) {
        Some(exchange) => exchange.taint(target),
        None => unreachable!(),
    }
}

/// Taints those that a change of this target affects. They are found by the target's digest.
pub(crate) fn taint_all(exchanges: &mut Table<IndexedExchange>, index: &mut Index, target: &Target)
    requires { AreIndexed exchanges.old.items exchanges.old.limit index.old }
    ensures tainted { exchanges.new
        ≡ record exchanges.old {
          items = all_changed (tainted_by target.now) exchanges.old.items;
        } }
    ensures indexed { AreIndexed exchanges.new.items exchanges.new.limit index.new }
    ensures spread { (seed : ℕ) → IsSpread seed index.old → IsSpread seed index.new }
{
    let digest = digest_of_target(index.secret, target);
    let mut after = 0;
    while let Some(number) = index.targets.next_of(digest, after) {
        taint_one(exchanges, index, number, target);
        after = number;
    }
}

/// Taints the exchange numbered `number` if a change of this target affects it.
fn taint_one(
    exchanges: &mut Table<IndexedExchange>,
    index: &mut Index,
    number: ExchangeNumber,
    target: &Target,
)
    requires { AreIndexed exchanges.old.items exchanges.old.limit index.old }
    ensures tainted { exchanges.new
        ≡ record exchanges.old {
          items = changed_at number (tainted_by target.now) exchanges.old.items;
        } }
    ensures secret { index.new.secret ≡ index.old.secret }
    ensures indexed { AreIndexed exchanges.new.items exchanges.new.limit index.new }
    ensures spread { (seed : ℕ) → IsSpread seed index.old → IsSpread seed index.new }
{
    let secret = index.secret;
    let was = keys_at(exchanges, number, secret);
    exchanges.taint(number, target);
    index.rekey(number, was, keys_at(exchanges, number, secret));
}

/// The number of exchanges that are still to be sent, once the one numbered `number` no longer is.
fn queued_without(
    queued: usize,
    exchanges: &Table<IndexedExchange>,
    number: ExchangeNumber,
    found: Option<&IndexedExchange>,
) -> usize
    requires queued { queued ≡ count is_queued exchanges.now.items }
    requires found { option_copied found ≡ item_at number exchanges.now.items }
    ensures fewer { result
        + (if passes is_queued (item_at number exchanges.now.items) then 1 else 0)
        ≡ queued }
    ensures sound { IsTable exchanges.now }
{
    exchanges.laws();
    match found {
        Some(listed) => lowered(queued, listed.stage().queued),
        None => queued,
    }
}

/// Counts the exchange numbered `number` for its endpoint as it is after a change, in which it no
/// longer waits for its turn, or no longer counts it if it is removed. Returns how many were and
/// are sent to that endpoint.
#[inline(always)]
fn recount(
    endpoints: &mut EndpointMap,
    exchanges: &Table<IndexedExchange>,
    number: ExchangeNumber,
    found: Option<&IndexedExchange>,
    change: &Option<Transition>,
) -> SentCounts
    requires counted { AreCounted exchanges.now.items endpoints.old }
    requires found { option_copied found ≡ item_at number exchanges.now.items }
    requires queued { Allows (λ c x. is_queued (after_transition c x) ≡ false) change.now
        (item_at number exchanges.now.items) }
    ensures was { IfSome (item_at number exchanges.now.items)
        (λ x. result.was ≡ sent_in endpoints.old x.key.target.at) }
    ensures is { IfSome (item_at number exchanges.now.items)
        (λ x. result.is ≡ sent_in endpoints.new x.key.target.at) }
    ensures limit { endpoints.new.limit ≡ endpoints.old.limit }
    ensures seed { endpoints.new.seed ≡ endpoints.old.seed }
    ensures all { IsRecounted is_with (open_in endpoints.old) (open_in endpoints.new)
        (item_at number exchanges.now.items)
        (updated after_transition change.now (item_at number exchanges.now.items)) }
    ensures sent { IsRecounted is_sent_to (sent_in endpoints.old) (sent_in endpoints.new)
        (item_at number exchanges.now.items)
        (updated after_transition change.now (item_at number exchanges.now.items)) }
    ensures queued { IsRecounted is_queued_to (queued_in endpoints.old) (queued_in endpoints.new)
        (item_at number exchanges.now.items)
        (updated after_transition change.now (item_at number exchanges.now.items)) }
{
    exchanges.laws();
    let Some(listed) = found else {
        return SentCounts { was: 0, is: 0 };
    };
    let was = listed.stage();
    match change {
        Some(change) => {
            let is = Stage {
                sent: change.is_sent_after(was.sent),
                queued: false,
            };
            move_one(endpoints, listed.origin(), was, is)
        }
        None => close_one(endpoints, listed.origin(), was),
    }
}

/// The client that opened an exchange which is removed, if it is and there is one.
fn client_of_removed(
    found: Option<&IndexedExchange>,
    change: &Option<Transition>,
) -> Option<DigestedEndpoint>
    ensures exact { result ≡ client_of_removed (λ x. x.client) change.now (option_copied found.entry) }
{
    match change {
        Some(_) => None,
        None => client_of(found),
    }
}
