// The queue of the slots that ask, by their start tags.
ghost use Rattle.hls_chron.specs.Ranges.{most_slots};
ghost use Rattle.std.specs.Prelude.{◌≡◌, ◌<◌, ℕ, [], None, Some, IfOk, IfSome, MatchOption, length, replicate};
ghost use Rattle.std.specs.Prelude.{slice_set};
ghost use Rattle.hls_order.specs.Order.{IsEmpty, IsLeast};
ghost use Rattle.hls_sfq.specs.Queue.{IsNext, IsQueue};
ghost use Rattle.hls_sfq.specs.Changes.{placed};

use crate::seats::Seats;
use crate::shares::tag_where;
use hls_box::{Turn, turn_goes_on};
use hls_chron::SLOTS;
use hls_order::Order;
use std::alloc::{AllocError, Global};
use std::marker::Model;

/// The slots that ask, by their start tags. It has no places at first, so that a box that is not set up takes no room
/// for them.
#[derive(Drop)]
pub struct Queue {
    order: Option<Box<Order>>,
}

impl Model for Queue {
    ghost use Rattle.std.specs.Prelude.{[], List, ℕ, Option, option_map, unwrap_or};

    ghost Value = { List (Option ℕ) };

    ghost view = { λ q. unwrap_or (option_map (λ order. order.value) q.order) [] };
}

impl Queue {
    /// No places. Takes no memory.
    pub fn none() -> Queue
        ensures { result ≡ [] }
    {
        Queue { order: None }
    }

    /// A place for each slot, where no slot is present.
    ///
    /// # Errors
    /// Returns `AllocError` for want of memory.
    pub fn made(alloc: Global) -> Result<Queue, AllocError>
        ensures { IfOk result (λ queue. queue ≡ replicate most_slots None) }
    {
        let order = Box::new(alloc, Order::new())?;
        Ok(Queue { order: Some(order) })
    }

    /// Gives a slot a start tag, whether it is present or not.
    pub fn put(&mut self, slot: u32, tag: u128)
        requires { slot < most_slots }
        ensures { self.new ≡ slice_set self.old slot (Some tag) }
    {
        if let Some(order) = &mut self.order {
            order.put(slot, tag);
        }
    }

    /// Takes a slot out, whether it is present or not.
    pub fn take(&mut self, slot: u32)
        requires { slot < most_slots }
        ensures { self.new ≡ slice_set self.old slot None }
    {
        if let Some(order) = &mut self.order {
            order.take(slot);
        }
    }

    /// The present slot of least start tag, and of these the least.
    pub fn least(&self) -> Option<u32>
        ensures { MatchOption result (IsEmpty self.now) (IsLeast self.now) }
    {
        match &self.order {
            Some(order) => order.least(),
            None => None,
        }
    }

    /// The slots in their order, where there are places.
    pub fn order(&self) -> &Order
        requires { length self.now ≡ most_slots }
        ensures { result.now ≡ self.now }
    {
        match &self.order {
            Some(order) => order,
            None => unreachable!(),
        }
    }
}

/// Gives a slot its place in the queue, or takes it out where it does not ask.
pub fn place(queue: &mut Queue, slot: u32, tag: Option<u128>)
    requires { slot < most_slots }
    ensures { queue.new ≡ slice_set queue.old slot tag }
{
    match tag {
        Some(tag) => queue.put(slot, tag),
        None => queue.take(slot),
    }
}

/// Gives the slot that was served its new place.
pub fn place_served(queue: &mut Queue, slot: Option<u32>, time: u128, seats: &Seats, mask: u32)
    requires seats { length seats.now ≡ most_slots }
    requires within { IfSome slot (λ slot. slot < most_slots) }
    ensures { queue.new ≡ placed queue.old slot time seats.now mask }
{
    if let Some(slot) = slot {
        place(queue, slot, tag_where(time, seats, mask, slot));
    }
}

/// Gives each slot its place anew.
pub fn place_all(queue: &mut Queue, time: u128, seats: &Seats, mask: u32)
    requires size { length queue.old ≡ most_slots }
    requires seats { length seats.now ≡ most_slots }
    ensures { IsQueue queue.new time seats.now mask }
{
    for slot in 0..SLOTS {
        place(queue, slot, tag_where(time, seats, mask, slot));
    }
}

/// The slot of the turn where it goes on, else the first of the queue: the asking slot of least start tag.
pub fn next_of(queue: &Queue, turn: Turn, mask: u32) -> Option<u32>
    ensures value { IsNext queue.now turn mask result }
    ensures within { length queue.now ≡ most_slots → (slot : ℕ) → result ≡ Some slot → slot < most_slots }
{
    if turn_goes_on(mask, turn) {
        Some(turn.slot)
    } else {
        queue.least()
    }
}
