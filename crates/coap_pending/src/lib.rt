//! What is pending: Message IDs, timers, exchanges with origins, and the waiters that wait for them
//! (RFC 7252, 4 and 5.2), each as one value. The tables that hold them are above this crate.
//!
//! # First use
//!
//! ```rust
//! let mut ids = Ids::new(7);
//! assert!(rt; ids.next(0) == Some(7) && ids.left(0) == 32_767);
//! let timer = Timer::start(0, 250);
//! assert!(rt; timer.due == 2_250); // when the message is sent again
//! ```
#![tactic(auto)]

pub mod due;
pub mod examples;
mod exchange;
mod ids;
pub mod laws;
mod timer;
mod waiter;

pub use coap_store::Answer;
pub use exchange::{Exchange, ExchangeNumber, ExchangeState, Sending, Transition};
pub use ids::Ids;
pub use timer::{Fire, Timer};
pub use waiter::{Joining, Waiter, WaiterNumber, WaiterState, WaiterTransition};
