// The places of the last stays of threads.
ghost use Rattle.std.specs.Prelude.{◌≡◌, length, slice_get, unwrap_or};

use hls_tree::NodeId;
use std::alloc::{AllocError, Global};

/// How many keys there may be beyond the number of stays: schedulers have keys too.
const SPARE: usize = 66;

/// How many keys have a place at most: keys are used again, so that there are some hundreds, and a place is a guess.
const MOST: usize = 1024;

/// The place of the last stay of each thread, by the thread's key. It is a guess, and the stay there tells
/// whether it is right.
#[derive(Drop)]
pub(crate) struct Places {
    pub(crate) places: Vec<usize>,
}

impl Places {
    /// No places.
    pub(crate) fn new(alloc: Global) -> Places
        ensures { length result.places.items ≡ 0 }
    {
        Places {
            places: Vec::new(alloc),
        }
    }

    /// Makes room for the threads that there may be where there are so many stays.
    pub(crate) fn reserve(&mut self, stays: usize) -> Result<(), AllocError> {
        for _key in self.places.len()..stays.saturating_add(SPARE).min(MOST) {
            self.places.push(0)?;
        }
        Ok(())
    }

    /// The place of the last stay of a thread, if there is one.
    pub(crate) fn guess(&self, id: NodeId) -> usize
        ensures { result ≡ unwrap_or (slice_get self.now.places.items id) 0 }
    {
        match self.places.get(id.key()) {
            Some(place) => *place,
            None => 0,
        }
    }

    /// Notes the place of a stay that begins.
    pub(crate) fn put(&mut self, id: NodeId, place: usize)
        ensures { length self.new.places.items ≡ length self.old.places.items }
    {
        let key = id.key();
        if key < self.places.len() {
            self.places[key] = place;
        }
    }
}
