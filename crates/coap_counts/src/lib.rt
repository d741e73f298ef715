//! What is counted of a proxy: requests by what became of them and by where they went, what origins
//! were sent and answered, and why exchanges were opened.
//!
//! # First use
//!
//! ```rust
//! let mut maps = MapTable::new(alloc, &routes)?;
//! maps.count(way_of(&routes, &request), Outcome::Hit);
//! let hits = maps.maps().first().map(|map| map.requests.hit);
//! assert_eq!(rt; hits, Some(1));
//! let mut origins = OriginTable::new(alloc, 256)?; // this many one by one, all others together
//! origins.count(at, OriginEvent::Sent);
//! let sent = origins.places().first().map(|place| place.counts.sent);
//! assert_eq!(rt; sent, Some(1));
//! ```
#![tactic(auto)]

mod maps;
mod openings;
mod origins;
mod requests;
mod search;
mod times;

pub use maps::{MapCounts, MapTable, Way, way_of};
pub use openings::OpeningCounts;
pub use origins::{
    AnswerClasses, OriginAnswer, OriginCounts, OriginEvent, OriginPlace, OriginTable,
};
pub use requests::{RefusalCounts, RequestCounts, one_more};
pub use times::{AnswerTimes, Bucket};
