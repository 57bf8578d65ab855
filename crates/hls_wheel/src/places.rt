// The places of a frame, and from where on they are nobody's.
ghost use Rattle.std.specs.Prelude.{◌≡◌, ℕ, List, Option, ◌<◌, ◌≤◌, ◌+◌, [], None, IfOk, is_some, length, replicate};
ghost use Rattle.hls_chron.specs.declared.plain.Terms.{Terms};
ghost use Rattle.hls_chron.specs.Ticks.{count};
ghost use Rattle.hls_kinds.specs.Frames.{owner_in, owner_after};
ghost use Rattle.hls_wheel.specs.Owners.{IsFreeFrom};

use hls_chron::{Event, Terms};
use hls_wheel_owners::{PLACES, apply, owned_below};
use std::alloc::{AllocError, Global};
use std::marker::Model;

/// The owner of each place, a slot. From `top` on they are nobody's, so that nobody's places at the end of a frame
/// need not be looked at. There are no places at first, so that a box that is not set up takes no room for them.
#[derive(Drop)]
pub struct Places {
    owners: Vec<Option<u8>>,
    top: u32,
}

impl Model for Places {
    ghost use Rattle.std.specs.Prelude.{ℕ, List, Option};
    ghost use Rattle.hls_wheel.specs.Owners.{IsFreeFrom};

    ghost Value = { List (Option ℕ) };

    ghost view = { λ p. p.owners.items };

    ghost invariant = { λ p. IsFreeFrom p.owners.items p.top };
}

/// How many places a seat takes.
fn places_of(terms: Terms) -> u32
    ensures slots { (places : ℕ) → terms ≡ Terms.Slots places → result ≡ places }
{
    match terms {
        Terms::Slots(places) => places,
        _ => 0,
    }
}

/// A place from which on all are nobody's after an event, where they were from `top` on before it.
fn bound(top: u32, event: Event) -> u32
    ensures bound { (owners after : List (Option ℕ)) → IsFreeFrom owners top →
        ((place : ℕ) → place < 1000 → owner_in after place ≡ owner_after (owner_in owners) event place) →
        IsFreeFrom after result }
{
    match event {
        Event::Seat { terms, .. } => top.saturating_add(places_of(terms)),
        _ => top,
    }
}

/// The least place from which on all are nobody's, where they are from `top` on.
fn lowered(owners: &[Option<u8>], top: u32) -> u32
    requires size { length owners.now ≡ 1000 }
    requires free { IsFreeFrom owners.now top }
    ensures { IsFreeFrom owners.now result }
{
    let mut top = top.min(PLACES as u32);
    while 0 < top && owners[(top - 1) as usize].is_none() {
        top -= 1;
    }
    top
}

/// Places that nobody owns.
fn vacant(alloc: Global) -> Result<Vec<Option<u8>>, AllocError>
    ensures { IfOk result (λ owners. owners.items ≡ replicate 1000 None) }
{
    let mut owners = Vec::with_capacity(alloc, PLACES)?;
    for _place in 0..PLACES {
        owners.push_reserved(None);
    }
    Ok(owners)
}

impl Places {
    /// No places.
    pub fn new(alloc: Global) -> Places
        ensures { result ≡ [] }
    {
        Places {
            owners: Vec::new(alloc),
            top: 0,
        }
    }

    /// Others, those of a frame where nobody owns a place.
    ///
    /// # Errors
    /// Returns `AllocError` for want of memory.
    pub fn unowned(&self) -> Result<Places, AllocError>
        ensures { IfOk result (λ places. places ≡ replicate 1000 None) }
    {
        let owners = vacant(*self.owners.allocator())?;
        Ok(Places { owners, top: 0 })
    }

    /// The owner of a place.
    pub fn owner(&self, place: u32) -> Option<u8>
        ensures { result ≡ owner_in self.now place }
    {
        match self.owners.get(place as usize) {
            Some(owner) => *owner,
            None => None,
        }
    }

    /// Lets a seat be taken or left.
    pub fn apply(&mut self, event: Event)
        requires { length self.old ≡ 1000 }
        ensures size { length self.new ≡ 1000 }
        ensures applied { (place : ℕ) → place < 1000
            → owner_in self.new place ≡ owner_after (owner_in self.old) event place }
    {
        let owners: &mut [Option<u8>] = &mut self.owners;
        apply(owners, event);
        self.top = lowered(owners, bound(self.top, event));
    }

    /// How many of the places below one are owned.
    pub fn owned_below(&self, frame: u32) -> u32
        requires size { length self.now ≡ 1000 }
        requires most { frame ≤ 1000 }
        ensures { result ≡ count (λ place. is_some (owner_in self.now place)) 0 frame }
    {
        owned_below(&self.owners, frame)
    }

    /// How many places from one on, within a frame, are seen to be nobody's in one step.
    pub fn free_from(&self, frame: u32, place: u32) -> u32
        requires place { place < frame }
        requires most { frame ≤ 1000 }
        ensures free { (k : ℕ) → k < result → owner_in self.now (place + k) ≡ None }
        ensures within { place + result ≤ frame }
    {
        if self.top <= place { frame - place } else { 0 }
    }
}
