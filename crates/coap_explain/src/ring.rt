//! The newest of what was noted, in memory that is allocated once.

use coap_message::OutOfMemory;
use std::alloc::Global;

/// The newest of what was noted: what is noted when there is no room takes the place of the oldest.
pub(crate) struct Ring<T> {
    places: Vec<Option<T>>,
    next: usize,
}

impl<T: Drop> Drop for Ring<T> {
    fn drop(self) {
        let Ring { places: _, next: _ } = self;
    }
}

impl<T: Copy> Ring<T> {
    /// One with room for so many. No other call allocates.
    ///
    /// # Errors
    /// Out of memory.
    pub(crate) fn new(alloc: Global, room: usize) -> Result<Ring<T>, OutOfMemory> {
        let mut places = Vec::with_capacity(alloc, room)?;
        for _ in 0..room {
            places.push(None)?;
        }
        Ok(Ring { places, next: 0 })
    }

    /// Notes something.
    pub(crate) fn note(&mut self, it: T) {
        if self.next >= self.places.len() {
            self.next = 0;
        }
        if let Some(place) = self.places.get_mut(self.next) {
            *place = Some(it);
            self.next = self.next.saturating_add(1);
        }
    }

    /// The places, of which some may hold nothing.
    pub(crate) fn places(&mut self) -> &mut [Option<T>] {
        self.places.as_mut_slice()
    }
}
