//! Several watchers as one.

use crate::proxy::Core;
use crate::watch::{Watch, WatchedTurn};
use coap_store::Store;

/// Two watchers as one: each is told all turns, the first one first.
#[derive(Drop)]
pub struct Both<A, B> {
    pub first: A,
    pub second: B,
}

impl<A: Watch, B: Watch> Watch for Both<A, B> {
    ghost sees = { λ before told after.
        A.sees before.first told after.first × B.sees before.second told after.second };

    #[inline(always)]
    fn foresee<S: Store + Drop>(&mut self, turn: WatchedTurn<'_>, core: &Core<S>) {
        self.first.foresee(turn, core);
        self.second.foresee(turn, core);
    }

    #[inline(always)]
    fn see<S: Store + Drop>(&mut self, turn: WatchedTurn<'_>, core: &Core<S>) {
        self.first.see(turn, core);
        self.second.see(turn, core);
    }
}

/// A watcher that there may be.
impl<W: Watch> Watch for Option<W> {
    ghost use Rattle.coap_core.specs.Watched.{SeesIfAny};

    ghost sees = { SeesIfAny W.sees };

    #[inline(always)]
    fn foresee<S: Store + Drop>(&mut self, turn: WatchedTurn<'_>, core: &Core<S>) {
        match self {
            Some(watcher) => watcher.foresee(turn, core),
            None => {}
        }
    }

    #[inline(always)]
    fn see<S: Store + Drop>(&mut self, turn: WatchedTurn<'_>, core: &Core<S>) {
        match self {
            Some(watcher) => watcher.see(turn, core),
            None => {}
        }
    }
}
