// The seats by slot.
ghost use Rattle.hls_chron.specs.Ranges.{most_slots};
ghost use Rattle.std.specs.Prelude.{◌≡◌, [], None, IfOk, length, replicate, slice_index_or, slice_set};

use crate::shares::FairSeat;
use hls_chron::SLOTS;
use std::alloc::{AllocError, Global};
use std::marker::Model;

/// The seat of each slot that is taken. It has no places at first, so that a box that is not set up takes no room
/// for them.
#[derive(Drop)]
pub struct Seats {
    places: Vec<Option<FairSeat>>,
}

impl Model for Seats {
    ghost use Rattle.std.specs.Prelude.{List, Option};
    ghost use Rattle.hls_sfq.specs.declared.shares.FairSeat.{FairSeat};

    ghost Value = { List (Option FairSeat) };

    ghost view = { λ s. s.places.items };
}

impl Seats {
    /// No places.
    pub fn new(alloc: Global) -> Seats
        ensures { result ≡ [] }
    {
        Seats {
            places: Vec::new(alloc),
        }
    }

    /// Where its places come from.
    pub fn allocator(&self) -> Global {
        *self.places.allocator()
    }

    /// Others, with a place for each slot, where no slot is taken.
    ///
    /// # Errors
    /// Returns `AllocError` for want of memory.
    pub fn vacant(&self) -> Result<Seats, AllocError>
        ensures { IfOk result (λ seats. seats ≡ replicate most_slots None) }
    {
        let places = vec![in self.allocator(); None; SLOTS as usize]?;
        Ok(Seats { places })
    }

    /// All places, by slot.
    pub fn places(&self) -> &[Option<FairSeat>]
        ensures { result.now ≡ self.now }
    {
        &self.places
    }

    /// The seat of a slot.
    pub fn get(&self, slot: u32) -> Option<FairSeat>
        ensures { result ≡ slice_index_or self.now slot None }
    {
        match self.places.get(slot as usize) {
            Some(seat) => *seat,
            None => None,
        }
    }

    /// Puts a seat at the place of a slot, or takes it away.
    pub fn set(&mut self, slot: u32, seat: Option<FairSeat>)
        ensures { self.new ≡ slice_set self.old slot seat }
    {
        if let Some(place) = self.places.get_mut(slot as usize) {
            *place = seat;
        }
    }
}
