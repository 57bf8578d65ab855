// How much more service a hard seat could have had.
ghost use Rattle.std.specs.Prelude.{◌≤◌, ℕ, Bool};
ghost use Rattle.hls_audit_spans.specs.Spans.{Tell};
ghost use Rattle.hls_guarantee.specs.Limits.{IsReservation, IsValid};
ghost use Rattle.hls_view_margins.specs.Rooms.{IsRoomOf};
ghost use Rattle.hls_view_margins.specs.Inside.Roomy.{IsRoomBy};

use crate::cuts::Window;
use crate::margin::{Part, Room};
use crate::measures::{block_scale, whole_distance, window_scale};
use crate::parts::{least_of_all, least_of_length};
use crate::scale::Scale;
use hls_audit_spans::Spans;
use hls_guarantee::Guarantee;

/// The least room, rounded down, of the part that has it.
fn room_by(scale: &Scale, least: Option<Part>) -> Option<Room>
    ensures { IsRoomBy scale.now least result }
{
    match least {
        None => None,
        Some(part) => Some(Room {
            part,
            left: whole_distance(scale, &part),
        }),
    }
}

/// The room of a reservation by windows.
fn window_room(hard: bool, x: u32, y: u32, served: &Spans, stay: &Window) -> Option<Room>
    requires { IsReservation x y }
    ensures { (f : ℕ → Bool) (end : ℕ) → Tell f served.now.spans.items end → stay.now.hi ≤ end →
        IsRoomOf (Guarantee.Resc hard x y) f stay.now.lo stay.now.hi result }
{
    if !hard {
        return None;
    }
    let scale = window_scale(x);
    let ticks = y.min(stay.hi - stay.lo);
    room_by(
        &scale,
        least_of_length(&scale, served, stay.lo, stay.hi, ticks),
    )
}

/// The room of a reservation by blocks.
fn block_room(hard: bool, x: u32, y: u32, served: &Spans, stay: &Window) -> Option<Room>
    requires { IsReservation x y }
    ensures { (f : ℕ → Bool) (end : ℕ) → Tell f served.now.spans.items end → stay.now.hi ≤ end →
        IsRoomOf (Guarantee.Resb hard x y) f stay.now.lo stay.now.hi result }
{
    if !hard {
        return None;
    }
    let scale = block_scale(x, y);
    room_by(&scale, least_of_all(&scale, served, stay.lo, stay.hi))
}

/// How many more ticks a hard seat could have had in its fullest part; `None` where the guarantee is not hard.
pub(crate) fn room_of(kept: &Guarantee, served: &Spans, stay: &Window) -> Option<Room>
    requires { IsValid kept.now }
    ensures { (f : ℕ → Bool) (end : ℕ) → Tell f served.now.spans.items end → stay.now.hi ≤ end →
        IsRoomOf kept.now f stay.now.lo stay.now.hi result }
{
    match *kept {
        Guarantee::Resc { hard, x, y } => window_room(hard, x, y, served, stay),
        Guarantee::Resb { hard, x, y } => block_room(hard, x, y, served, stay),
        Guarantee::All | Guarantee::Null | Guarantee::Psbe { .. } => None,
    }
}
