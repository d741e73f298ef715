//! What is told of a turn, and to whom.
ghost use Rattle.std.specs.Prelude.{◌≡◌, [], None, Some, false, option_map};
ghost use Rattle.coap_model.specs.Deeds.{report_of};
ghost use Rattle.coap_model.specs.Events.{event_given, IsEvent};
ghost use Rattle.coap_model.specs.State.{State};
ghost use Rattle.coap_core.specs.Events.{seen};
ghost use Rattle.coap_core.specs.Told.{told};

use crate::event::Event;
use crate::laws;
use crate::proxy::Core;
use coap_endpoint::Endpoint;
use coap_message::Moment;
use coap_model::{Deed, Did, Report};
use coap_store::Store;

/// A turn that has begun, was done, or was lost: what it was, and what was done in it, if anything.
#[derive(Clone, Copy)]
pub struct WatchedTurn<'a> {
    /// Its moment, in milliseconds.
    pub now: Moment,
    /// Its random number of milliseconds.
    pub draw: u16,
    /// What happened: a datagram with its source, or a tick.
    pub event: Event<'a>,
    /// What the step did, in full; none if memory ran out, so that nothing was done.
    pub did: Option<Did>,
    /// The bytes that the report sends to an endpoint; none if it sends nothing.
    pub sent: &'a [u8],
    /// Whether the port took what was sent; true as well if nothing was sent, and false for a lost
    /// turn.
    pub went: bool,
}

/// The event of a turn: these bytes from their source, or a tick if there is none.
fn event_of(from: Option<Endpoint>, bytes: &[u8]) -> Event<'_>
    ensures { seen result ≡ event_given from bytes.now }
{
    match from {
        Some(from) => Event::Datagram { from, bytes },
        None => Event::Tick,
    }
}

impl<'a> WatchedTurn<'a> {
    /// A turn that has begun: its moment and its draw, in milliseconds, and the bytes that came
    /// from a source, or a tick if there is none. Its step isn't done yet: told like this, it is a
    /// lost one.
    pub fn begun(now: Moment, draw: u16, from: Option<Endpoint>, bytes: &'a [u8]) -> WatchedTurn<'a>
        ensures now { result.now ≡ now }
        ensures draw { result.draw ≡ draw }
        ensures event { seen result.event ≡ event_given from bytes.entry.now }
        ensures bytes { IsEvent (event_given from bytes.entry.now) }
        ensures lost { (w : State) → told result w ≡ record {
          turn = record { now = now; draw = draw; event = event_given from bytes.entry.now };
          did = None;
          bytes = [];
          went = false;
          state = w;
        } }
    {
        laws::bytes_are_small(bytes);
        WatchedTurn {
            now,
            draw,
            event: event_of(from, bytes),
            did: None,
            sent: &[],
            went: false,
        }
    }

    /// What the step did, in short.
    #[inline(always)]
    pub fn report(self) -> Option<Report>
        ensures exact { result ≡ option_map report_of self.entry.did }
    {
        match self.did {
            Some(did) => Some(did.report()),
            None => None,
        }
    }

    /// What the step did, without the destination of its datagram.
    #[inline(always)]
    pub fn deed(self) -> Option<Deed>
        ensures exact { result ≡ option_map (λ did. did.deed) self.entry.did }
    {
        match self.did {
            Some(did) => Some(did.deed),
            None => None,
        }
    }

    /// The same turn, whose step was done: with what it did, the bytes that it sends, and whether
    /// they were taken.
    pub fn done(self, did: Did, sent: &'a [u8], went: bool) -> WatchedTurn<'a>
        ensures { (w : State) → told result w ≡ record {
          turn = (told self.entry w).turn;
          did = Some did;
          bytes = sent.entry.now;
          went = went;
          state = w;
        } }
    {
        WatchedTurn {
            did: Some(did),
            sent,
            went,
            ..self
        }
    }
}

/// Is told each turn of a loop: before its step, and after it was done.
///
/// An implementation states in `sees` what being told of a turn that was done does to it.
///
/// ```rust
/// /// The moment of the last turn that was lost.
/// #[derive(Drop)]
/// struct LastLost(u64);
///
/// impl Watch for LastLost {
///     ghost sees = { λ before told after. Unit {0} }; // nothing is said of what it does
///
///     fn foresee<S: Store + Drop>(&mut self, _turn: WatchedTurn<'_>, _core: &Core<S>) {}
///
///     fn see<S: Store + Drop>(&mut self, turn: WatchedTurn<'_>, _core: &Core<S>) {
///         if turn.did.is_none() {
///             self.0 = turn.now;
///         }
///     }
/// }
/// ```
pub trait Watch {
    ghost use Rattle.coap_core.specs.Told.{Told, told};

    // it was told of this turn, and was left in this state
    ghost sees: { Self → Told → Self → Type 0 };

    /// Is told of a turn that begins, with the core as it is before its step. So what the turn is
    /// about can be noted that the core doesn't hold any more after it. What can be seen of the
    /// turn afterwards stays what it was.
    fn foresee<S: Store + Drop>(&mut self, turn: WatchedTurn<'_>, core: &Core<S>)
        ensures foreseen { (t : Told) (after : Self)
            → sees self.new t after
            → sees self.old t after };

    /// Is told of a turn, with the core as it is after it.
    fn see<S: Store + Drop>(&mut self, turn: WatchedTurn<'_>, core: &Core<S>)
        ensures { sees self.old (told turn.entry core.now) self.new };
}

/// A watcher that doesn't look.
#[derive(Clone, Copy, Debug, PartialEq, Eq)]
pub struct Unwatched;

impl Watch for Unwatched {
    ghost use Rattle.std.specs.Prelude.{◌≡◌};

    ghost sees = { λ before told after. after ≡ before };

    fn foresee<S: Store + Drop>(&mut self, _turn: WatchedTurn<'_>, _core: &Core<S>) {}

    fn see<S: Store + Drop>(&mut self, _turn: WatchedTurn<'_>, _core: &Core<S>) {}
}
