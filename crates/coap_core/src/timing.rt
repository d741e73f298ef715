//! When a step is taken, and what is drawn for it.
ghost use Rattle.std.specs.Prelude.{◌≤◌, ◌^◌};

use coap_message::Moment;

/// The moment of a step, and its draw.
#[derive(Clone, Copy)]
pub(crate) struct Timing {
    /// The moment, in milliseconds.
    pub(crate) now: Moment,
    /// A random number of milliseconds, added to the first timeout of what is sent.
    pub(crate) draw: u16,
    ghost moment: { now ≤ 2 ^ 62 },
    ghost jitter: { draw ≤ 1000 },
}
