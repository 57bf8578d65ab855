// Turns of a quantum.
ghost use Rattle.hls_chron.specs.Ranges.{most_slots};
ghost use Rattle.std.specs.Prelude.{◌≡◌, ◌<◌, ◌≤◌, ◌+◌, ◌%◌, true};
ghost use Rattle.hls_box.specs.Turns.{had_by, goes_on_by, left_by, turn_after as after, turn_left as left_turn};
ghost use Rattle.hls_box.specs.Turns.{turn_leapt as leapt_turn};

use crate::slots::has_slot;

/// A turn: its slot, and how many ticks of the quantum it has had.
#[derive(Clone, Copy, Debug, PartialEq, Eq)]
pub struct Turn {
    pub slot: u32,
    pub ticks: u32,
}

/// The turn before anybody was served.
pub const NO_TURN: Turn = Turn { slot: 31, ticks: 0 };

/// How many ticks of its present turn a slot has had.
pub fn ticks_had(turn: Turn, slot: u32) -> u32
    ensures { result ≡ had_by turn slot }
{
    if slot == turn.slot { turn.ticks } else { 0 }
}

/// Whether the turn goes on, where these slots ask: its slot asks, and it has had a part of a quantum.
pub fn turn_goes_on(mask: u32, turn: Turn) -> bool
    ensures value { result ≡ goes_on_by mask turn }
    ensures within { result ≡ true → turn.slot < most_slots }
{
    has_slot(mask, turn.slot) && turn.ticks != 0
}

/// One tick more of a quantum, of which so many were had.
fn one_more(quantum: u32, had: u32) -> u32
    requires { had < quantum }
    ensures { result ≡ (had + 1) % quantum }
{
    if had + 1 == quantum { 0 } else { had + 1 }
}

/// The turn after a tick that served a slot or nobody, where these slots asked.
pub fn turn_after(quantum: u32, mask: u32, turn: Turn, served: Option<u32>) -> Turn
    requires { turn.ticks < quantum }
    ensures { result ≡ after quantum mask turn served }
{
    match served {
        Some(slot) if slot == turn.slot => Turn {
            slot,
            ticks: one_more(quantum, turn.ticks),
        },
        Some(slot) => Turn {
            slot,
            ticks: one_more(quantum, 0),
        },
        None if has_slot(mask, turn.slot) => turn,
        None => Turn {
            slot: turn.slot,
            ticks: 0,
        },
    }
}

/// The turn after so many ticks, each of which served this slot or nobody, where these slots asked.
pub fn turn_leapt(quantum: u32, mask: u32, turn: Turn, served: Option<u32>, ticks: u32) -> Turn
    requires { 0 < quantum }
    ensures { result ≡ leapt_turn quantum mask turn served ticks }
{
    match served {
        Some(slot) => {
            let all = (u64::from(ticks_had(turn, slot)) + u64::from(ticks)) % u64::from(quantum);
            Turn {
                slot,
                ticks: all as u32,
            }
        }
        None if has_slot(mask, turn.slot) => turn,
        None => Turn {
            slot: turn.slot,
            ticks: 0,
        },
    }
}

/// How many ticks are left of the turn of a slot that is served now.
pub fn ticks_left(quantum: u32, turn: Turn, slot: u32) -> u32
    requires { turn.ticks < quantum }
    ensures value { result ≡ left_by quantum turn slot }
    ensures within { result ≤ quantum }
{
    quantum - ticks_had(turn, slot)
}

/// The turn after a slot was left.
pub fn turn_left(turn: Turn, slot: u32) -> Turn
    ensures { result ≡ left_turn turn slot }
{
    if slot == turn.slot {
        Turn { slot, ticks: 0 }
    } else {
        turn
    }
}
