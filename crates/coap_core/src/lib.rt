//! The step of a proxy in code: exactly the model's step, for one event at a time; and watchers,
//! which are told what each turn was and what it did.
//!
//! # First use
//!
//! ```rust
//! let mut core: Core<ListStore> = Core::new(alloc, (), limits, routes, 1, 0)?;
//! let mut out = Datagram::new(alloc, core.datagram())?;
//! let request = Event::Datagram {
//!     from: client,
//!     bytes: b"\x50\x01\x00\x07\xB1t",
//! };
//! let report = core.step(0, 250, request, &mut out)?;
//! assert!(rt; report.send.is_none()); // nothing is sent yet, but something is due
//! assert!(rt; core.next_due() == Some(0));
//! let report = core.step(0, 250, Event::Tick, &mut out)?;
//! assert!(rt; report.send == Some(origin) && out.bytes().len() == 17); // the request, sent on
//! ```
#![tactic(auto)]

mod arrival;
mod both;
mod copies;
mod empties;
mod event;
pub mod examples;
mod holders;
mod known;
mod laws;
mod misses;
mod most;
mod proxy;
mod request_target;
mod requests;
mod responses;
mod setting;
mod state;
mod step;
mod ticks;
mod timing;
mod watch;
mod watching;

pub use both::Both;
pub use coap_endpoint::{Endpoint, Ip};
pub use coap_exchange::{EndpointMap, Exchange, Waiter};
pub use coap_message::{Code, Datagram, LAST_MOMENT, MOST_JITTER, Moment, OutOfMemory};
pub use coap_model::{
    ClientCounts, Counts, Deed, Did, Held, Lacks, Limit, LimitError, LimitValues, Limits, Outcome,
    Refusal, Report, Silence, Storing, Unprocessed,
};
pub use coap_store::Store;
pub use coap_target::{RouteError, Routes};
pub use event::Event;
pub use holders::{Holder, Holders, SharedTable};
pub use proxy::{Core, MOST_EVENTS};
pub use watch::{Unwatched, Watch, WatchedTurn};
