// Places by sums.
ghost use Rattle.std.specs.Prelude.{◌≡◌, ◌-◌, ◌++◌, [], OnOk, OnErr, get_or, length, replicate, slice_set};

use std::alloc::{AllocError, Global};

/// The places of things in a list, by their sums: what was noted last has the place of its sum. A place is a guess,
/// and who asks for one tests it.
#[derive(Debug, Drop)]
pub struct Guesses {
    places: Vec<usize>,
}

impl Guesses {
    /// No places. Takes no memory.
    pub fn new(alloc: Global) -> Guesses
        ensures { result.places.items ≡ [] }
    {
        Guesses {
            places: Vec::new(alloc),
        }
    }

    /// Makes room for the places of so many sums. Each that had none is guessed to stand first.
    ///
    /// # Errors
    /// Returns `AllocError` for want of memory, and the places are as before.
    pub fn reserve(&mut self, count: usize) -> Result<(), AllocError>
        ensures ok { OnOk result (self.new.places.items
            ≡ self.old.places.items ++ replicate (count - length self.old.places.items) 0) }
        ensures err { OnErr result (self.new.places.items ≡ self.old.places.items) }
    {
        let len = self.places.len();
        self.places.reserve(count.saturating_sub(len))?;
        for _sum in len..count {
            self.places.push_reserved(0);
        }
        Ok(())
    }

    /// A place where what has this sum is likely to stand.
    pub fn at(&self, sum: usize) -> usize
        ensures { result ≡ get_or self.now.places.items sum 0 }
    {
        match self.places.get(sum) {
            Some(place) => *place,
            None => 0,
        }
    }

    /// Notes the place of what has this sum, where there is room for it.
    pub fn note(&mut self, sum: usize, place: usize)
        ensures { self.new.places.items ≡ slice_set self.old.places.items sum place }
    {
        if let Some(kept) = self.places.get_mut(sum) {
            *kept = place;
        }
    }
}
