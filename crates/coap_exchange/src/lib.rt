//! What is in progress: the tables of exchanges with origins, and of the waiters that wait for them
//! (RFC 7252, 4 and 5.2).
//!
//! # First use
//!
//! ```rust
//! let mut exchanges = Exchanges::new(alloc, 256, 16)?;
//! let opening = Opening {
//!     client: DigestedEndpoint::new(client),
//!     key: &key,
//!     is_get: true,
//!     form,
//!     copy: None,
//!     now: 0,
//! };
//! let number = exchanges.admit(opening)?;
//! assert!(rt; exchanges.due(1, 93_000) == Some((0, number))); // it is its turn
//! let sending = Sending {
//!     asked: 0,
//!     id: 7,
//!     timer: Timer::start(0, 250),
//! };
//! exchanges.send(number, sending);
//! assert!(rt; exchanges.due(1, 93_000) == Some((2_250, number))); // when it is sent again
//! assert!(rt; exchanges.sent_as(origin, 7, 100) == Some(number)); // an acknowledgement came
//! exchanges.acked(number);
//! ```
#![tactic(auto)]

mod exchange_changes;
mod exchanges;
mod index;
mod indexed_exchange;
mod opening;
mod ready;
mod send_queue;
mod table;
mod turns;
mod under_way;
mod waiter_changes;
mod waiter_index;
mod waiters;

pub use coap_pending::{
    Exchange, ExchangeNumber, ExchangeState, Fire, Ids, Joining, Sending, Timer, Waiter,
    WaiterNumber, WaiterState,
};
pub use coap_store::Answer;
pub use endpoint_counts::EndpointMap;
pub use exchanges::Exchanges;
pub use opening::Opening;
pub use table::AdmitError;
pub use under_way::UnderWay;
pub use waiters::Waiters;
