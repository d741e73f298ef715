//! What a change of a waiter, or its removal, does to all that is kept of it.
ghost use Rattle.std.specs.Prelude.{◌≡◌, ◌+◌, ◌-◌, ◌<◌, if◌then◌else◌, nat_eq, IfSome, IfNone};
ghost use Rattle.std.specs.Map.{set_value};
ghost use Rattle.std.specs.Option.{option_copied, option_map};
ghost use Rattle.indexmap.specs.IndexMap.{get, hasher_of};
ghost use Rattle.coap_exchange.specs.WaiterIndex.{waiter_keys_at};
ghost use Rattle.coap_pending.specs.Table.{item_at, changed_at, count, passes, IsTable};
ghost use Rattle.coap_pending.specs.Waiters.{after_transition, is_waiting, CanChange, CanUpdate};
ghost use Rattle.coap_exchange.specs.Updates.{client_of_removed, updated, updated_at, Allows};

use crate::table::{Items, Table, place_in};
use crate::waiter_index::{WaiterKeys, waiter_keys_in, waiter_keys_of};
use crate::waiters::Waiters;
use coap_pending::{Waiter, WaiterNumber, WaiterTransition};
use endpoint_counts::DigestedEndpoint;
use endpoint_counts::by_client::depart;
use std::alloc::Global;

impl Waiters {
    /// Changes the waiter numbered `number`, or removes it if there is no change. Nothing happens
    /// if there is no such waiter. What is counted of it and what it is looked up by follow.
    #[inline(always)] // which change it is, each caller knows
    pub(crate) fn update(&mut self, number: WaiterNumber, change: Option<WaiterTransition>)
        requires { CanUpdate change (item_at number self.old.items) }
        ensures { self.new
            ≡ record self.old { items = updated_at after_transition change number self.old.items } }
    {
        let found = self.table.get(number);
        let waiting = waiting_without(self.waiting, &self.table, number, found);
        depart(&mut self.clients, client_of_removed(found, &change));
        let was = waiter_keys_in(found);
        self.waiting = waiting;
        let is = self.table.update(number, change, self.alloc);
        self.index.rekey(number, was, is);
    }
}

impl Table<Waiter> {
    /// Changes the waiter numbered `number`, or removes it if there is no change, and returns what
    /// it is looked up by then.
    #[inline(always)]
    fn update(
        &mut self,
        number: WaiterNumber,
        change: Option<WaiterTransition>,
        alloc: Global,
    ) -> WaiterKeys
        requires { Allows CanChange change (item_at number self.old.items) }
        ensures updated { self.new
            ≡ record self.old { items = updated_at after_transition change number self.old.items } }
        ensures keys { result
            ≡ waiter_keys_at (updated after_transition change (item_at number self.old.items)) }
    {
        match change {
            Some(change) => self.change(number, change, alloc),
            None => {
                self.close(number);
                waiter_keys_in(None)
            }
        }
    }

    /// Changes the waiter numbered `number`, if there is one, and returns what it is looked up by
    /// then.
    #[inline(always)]
    fn change(
        &mut self,
        number: WaiterNumber,
        change: WaiterTransition,
        alloc: Global,
    ) -> WaiterKeys
        requires { IfSome (item_at number self.old.items) (CanChange change) }
        ensures changed { self.new
            ≡ record self.old { items = changed_at number (after_transition change) self.old.items } }
        ensures keys { result
            ≡ waiter_keys_at (option_map (after_transition change) (item_at number self.old.items)) }
    {
        change_under(&mut self.items, self.place, number, change, alloc)
    }
}

#[inline(always)]
fn change_under(
    waiters: &mut Items<Waiter>,
    place: usize,
    number: WaiterNumber,
    change: WaiterTransition,
    alloc: Global,
) -> WaiterKeys
    requires { IfSome (get nat_eq waiters.old number) (CanChange change) }
    ensures found { IfSome (get nat_eq waiters.old number) (λ w.
        waiters.new.entries
        ≡ set_value (nat_eq number) waiters.old.entries (after_transition change w)) }
    ensures missing { IfNone (get nat_eq waiters.old number)
        (waiters.new.entries ≡ waiters.old.entries) }
    ensures hasher { hasher_of waiters.new ≡ hasher_of waiters.old }
    ensures keys { result
        ≡ waiter_keys_at (option_map (after_transition change) (get nat_eq waiters.old number)) }
{
    let Some(place) = place_in(waiters, place, number) else {
        return waiter_keys_in(None);
    };
    match waiters.get_index_mut(place) {
        Some(waiter) => {
            waiter.change(change, alloc);
            waiter_keys_of(waiter)
        }
        None => unreachable!(),
    }
}

/// The number of waiters that wait for an exchange, once `found`, which is the waiter numbered
/// `number`, no longer does.
fn waiting_without(
    waiting: usize,
    waiters: &Table<Waiter>,
    number: WaiterNumber,
    found: Option<&Waiter>,
) -> usize
    requires waiting { waiting ≡ count is_waiting waiters.now.items }
    requires found { option_copied found ≡ item_at number waiters.now.items }
    ensures fewer { result + (if passes is_waiting (item_at number waiters.now.items) then 1 else 0)
        ≡ waiting }
    ensures sound { IsTable waiters.now }
{
    waiters.laws();
    match found {
        Some(waiter) if waiter.is_waiting() => waiting - 1,
        _ => waiting,
    }
}

/// The client of a waiter that is removed, if it is and there is one.
fn client_of_removed(
    found: Option<&Waiter>,
    change: &Option<WaiterTransition>,
) -> Option<DigestedEndpoint>
    ensures exact { result ≡ client_of_removed (λ w. w.client) change.now (option_copied found.entry) }
{
    match (found, change) {
        (Some(waiter), None) => Some(DigestedEndpoint::new(waiter.client)),
        (None, _) | (_, Some(_)) => None,
    }
}
