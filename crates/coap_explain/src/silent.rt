//! The origins that were given up and weren't heard since.

use crate::ring::Ring;
use coap_endpoint::Endpoint;
use coap_message::{Moment, OutOfMemory};
use std::alloc::Global;

/// How many silent origins are known at a time.
const MOST: usize = 256;

/// An origin that was given up.
#[derive(Clone, Copy, Debug, PartialEq, Eq)]
struct SilentOrigin {
    origin: Endpoint,
    /// When the first request was opened that it didn't answer, in milliseconds.
    since: Moment,
}

/// The origins that were given up last and weren't heard since, up to 256.
#[derive(Drop)]
pub(crate) struct SilentOrigins {
    all: Ring<SilentOrigin>,
    /// How many were noted and not heard since, with those that the ring has lost: while it is 0,
    /// `hear` needn't look.
    noted: u64,
}

impl SilentOrigins {
    /// None yet. No other call allocates.
    ///
    /// # Errors
    /// Out of memory.
    pub(crate) fn new(alloc: Global) -> Result<SilentOrigins, OutOfMemory> {
        Ok(SilentOrigins {
            all: Ring::new(alloc, MOST)?,
            noted: 0,
        })
    }

    /// Whether an origin is among them.
    fn has(&mut self, origin: Endpoint) -> bool {
        for place in self.all.places() {
            if matches!(place, Some(it) if it.origin == origin) {
                return true;
            }
        }
        false
    }

    /// Notes that an origin didn't answer a request that was opened at this moment.
    pub(crate) fn note(&mut self, origin: Endpoint, since: Moment) {
        if !self.has(origin) {
            self.all.note(SilentOrigin { origin, since });
            self.noted = self.noted.saturating_add(1);
        }
    }

    /// Notes that an endpoint was heard. Returns since when it was silent, if it was one of them.
    pub(crate) fn hear(&mut self, from: Endpoint) -> Option<Moment> {
        if self.noted == 0 {
            return None;
        }
        for place in self.all.places() {
            match place {
                Some(it) if it.origin == from => {
                    let since = it.since;
                    *place = None;
                    self.noted = self.noted.saturating_sub(1);
                    return Some(since);
                }
                Some(_) | None => {}
            }
        }
        None
    }
}
