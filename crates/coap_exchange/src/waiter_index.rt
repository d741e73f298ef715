//! What waiters are looked up by.
ghost use Rattle.std.specs.Prelude.{◌≡◌, IfOk};
ghost use Rattle.std.specs.Option.{option_copied};
ghost use Rattle.coap_exchange.specs.WaiterIndex.{empty_waiter_index, waiter_keys_at, CanRekeyWaiter, HaveRekeyedWaiter};

use coap_message::{Moment, OutOfMemory};
use coap_pending::{ExchangeNumber, Waiter, WaiterNumber, WaiterState};
use ordered_index::OrderedIndex;
use std::alloc::Global;

/// Numbers of waiters, by what they are looked up by. Room for all of them is allocated up front.
pub(crate) struct WaiterIndex {
    /// Those that wait, by the exchange that they wait for.
    pub(crate) awaited: OrderedIndex,
    /// Those that were sent their answer, by its Message ID.
    pub(crate) ids: OrderedIndex,
    /// Those that were sent their answer, by the end of the current timeout.
    pub(crate) ends: OrderedIndex,
}

impl Drop for WaiterIndex {
    fn drop(self) {
        let WaiterIndex {
            awaited: _,
            ids: _,
            ends: _,
        } = self;
    }
}

/// What one waiter is looked up by.
#[derive(Clone, Copy)]
pub(crate) struct WaiterKeys {
    /// The exchange that it waits for.
    pub(crate) awaited: Option<ExchangeNumber>,
    /// The Message ID of the answer that was sent for it.
    pub(crate) id: Option<u64>,
    /// When the current timeout ends, in milliseconds.
    pub(crate) end: Option<Moment>,
}

impl WaiterIndex {
    /// An empty index with room for `limit` waiters.
    ///
    /// # Errors
    /// Out of memory.
    pub(crate) fn new(alloc: Global, limit: usize) -> Result<WaiterIndex, OutOfMemory>
        ensures empty { IfOk result (λ index. index ≡ empty_waiter_index limit) }
    {
        Ok(WaiterIndex {
            awaited: OrderedIndex::new(alloc, limit)?,
            ids: OrderedIndex::new(alloc, limit)?,
            ends: OrderedIndex::new(alloc, limit)?,
        })
    }

    /// Updates what the waiter numbered `number` is looked up by, from `was` to `is`.
    #[inline(always)]
    pub(crate) fn rekey(&mut self, number: WaiterNumber, was: WaiterKeys, is: WaiterKeys)
        requires { CanRekeyWaiter self.old number was is }
        ensures exact { HaveRekeyedWaiter self.old self.new number was is }
    {
        self.awaited.rekey(number, was.awaited, is.awaited);
        self.ids.rekey(number, was.id, is.id);
        self.ends.rekey(number, was.end, is.end);
    }
}

/// What a waiter is looked up by, if there is one.
pub(crate) fn waiter_keys_in(found: Option<&Waiter>) -> WaiterKeys
    ensures exact { result ≡ waiter_keys_at (option_copied found.entry) }
{
    match found {
        Some(waiter) => waiter_keys_of(waiter),
        None => WaiterKeys {
            awaited: None,
            id: None,
            end: None,
        },
    }
}

/// What a waiter is looked up by.
pub(crate) fn waiter_keys_of(waiter: &Waiter) -> WaiterKeys
    ensures exact { result ≡ waiter_keys_at (Some waiter.now) }
{
    match &waiter.state {
        WaiterState::Waiting(exchange) => WaiterKeys {
            awaited: Some(*exchange),
            id: None,
            end: None,
        },
        WaiterState::Delivering { id, timer, .. } => WaiterKeys {
            awaited: None,
            id: Some(u64::from(*id)),
            end: Some(timer.due),
        },
    }
}
