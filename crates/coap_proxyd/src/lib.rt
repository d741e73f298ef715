//! The parts of the program: what its words and its configuration make it do, over an input or over
//! a port, and how it ends.
//!
//! # First use
//!
//! ```rust
//! let wanted = read_wanted(alloc, &words)?; // `--turns 1`: the port below gives one
//! let plan = read_plan(alloc, wanted, None)?; // or the bytes of a configuration
//! let mut port = MemoryPort::new(alloc, None); // or a UdpPort at `plan.local`
//! port.add(Scripted {
//!     now: 5,
//!     draw: 250,
//!     datagram: None,
//! })?;
//! let start = Start {
//!     first_id: 1,
//!     salt: 0,
//! };
//! Server::<ListStore>::new(alloc, (), plan).serve_port(start, &mut port)?;
//! ```
#![tactic(auto)]

mod cause;
mod examples;
mod fault;
mod journal;
mod planning;
mod recording;
mod route_causes;
mod serving;
mod words;

pub use cause::cause_of;
pub use coap_config::{
    Config, ConfigError, KeyName, MapOptionError, ProxyOption, ProxyOptionError, Settings, VERSION,
    WordsError, parse_map_option, parse_proxy_option, read_config, read_words,
};
pub use coap_core::{
    Both, Code, Core, Counts, Datagram, Endpoint, Event, Ip, LimitError, LimitValues, Limits,
    OutOfMemory, Outcome, Report, RouteError, Routes, Store, Storing,
};
pub use coap_port::{
    DriveError, Handed, MemoryPort, Port, PortFault, Scripted, Stats, Turn, Unwatched, Watch,
    WatchedTurn, drive, drive_watched,
};
pub use coap_recording::{HeaderError, Recording, Start, header_of, put_since};
pub use coap_replay::{Input, Output, ReplayError, replay};
pub use coap_store_list::ListStore;
pub use coap_store_lru::LruStore;
pub use coap_udp::UdpPort;
pub use fault::{ConfigFault, Fault};
pub use journal::Journal;
pub use planning::{Plan, read_plan};
pub use recording::{RecordFile, words_again};
pub use route_causes::{HostFlaw, MapFlaw, RouteCause, RouteList, route_cause};
pub use serving::Server;
pub use words::{Wanted, read_wanted};
