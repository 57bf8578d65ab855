// Worked schedules of reservations.
use crate::harness::{Step, check_served, rows_of, take_all};
use hls_chron::{Config, Terms};
use hls_edf::{Edf, parts};
use hls_sched::{Scheduler, SeatFault};
use std::alloc::{AllocError, Global};
use std::process::Abort;
use std::test::Fail;

/// What is done to a box of reservations, or the ticks that pass: each serves the slot of its digit, is not
/// granted at `-`, and serves nobody at `.`.
#[derive(Clone, Copy, Debug)]
enum Act {
    /// A hard seat of so many ticks in every so many, at this slot.
    Hard(u32, u32, u32),
    /// A soft one.
    Soft(u32, u32, u32),
    /// A hard seat is refused, since so many parts are free and so many asked.
    Refuse(u32, u32, u128, u128),
    Leave(u32),
    Request(u32),
    Release(u32),
    Settle,
    Pass(&'static [u8]),
}

/// Worked schedules, each a box from its setting up on.
const SCHEDULES: &[&[Act]] = &[
    // two reservations
    &[
        Act::Hard(3, 10, 0),
        Act::Hard(5, 10, 1),
        Act::Request(0),
        Act::Request(1),
        Act::Pass(b"00011111..00011111.."),
    ],
    // periods begin at the wake
    &[
        Act::Hard(5, 10, 0),
        Act::Hard(8, 16, 1),
        Act::Pass(b"....."),
        Act::Request(0),
        Act::Request(1),
        Act::Pass(b"000001111111100000"),
    ],
    // a budget is filled at its deadline
    &[Act::Hard(2, 4, 0), Act::Request(0), Act::Pass(b"00..0")],
    // blocked and woken in one tick
    &[
        Act::Hard(2, 4, 0),
        Act::Request(0),
        Act::Pass(b"0"),
        Act::Release(0),
        Act::Request(0),
        Act::Pass(b"0..0"),
    ],
    // a wake that keeps the budget, and one that does not
    &[
        Act::Hard(2, 4, 0),
        Act::Request(0),
        Act::Pass(b"0"),
        Act::Release(0),
        Act::Pass(b"."),
        Act::Request(0),
        Act::Pass(b"0.0"),
    ],
    &[
        Act::Hard(2, 4, 0),
        Act::Request(0),
        Act::Pass(b"0"),
        Act::Release(0),
        Act::Pass(b".."),
        Act::Request(0),
        Act::Pass(b"00"),
    ],
    // parts are held up to the deadline
    &[
        Act::Hard(5, 10, 0),
        Act::Hard(10, 20, 1),
        Act::Request(0),
        Act::Request(1),
        Act::Pass(b"00000"),
        Act::Leave(0),
        Act::Refuse(5, 10, 0, 66786643213290000),
        Act::Pass(b"11111"),
        Act::Hard(5, 10, 0),
        Act::Pass(b"1"),
    ],
    // parts that are used up, and parts that round up
    &[
        Act::Hard(1, 3, 0),
        Act::Hard(1, 3, 1),
        Act::Hard(1, 3, 2),
        Act::Refuse(1, 10000, 0, 13357328642658),
    ],
    &[
        Act::Hard(20, 41, 0),
        Act::Refuse(21, 41, 68415585730687317, 68415585730687318),
    ],
    // ticks that are not given, and a settling
    &[
        Act::Hard(2, 4, 0),
        Act::Request(0),
        Act::Pass(b"---"),
        Act::Settle,
        Act::Pass(b"00..00.."),
    ],
    // a soft seat has the ticks that hard seats leave, and those that nobody has budget for
    &[
        Act::Soft(1, 4, 0),
        Act::Hard(2, 8, 1),
        Act::Soft(1, 8, 2),
        Act::Request(0),
        Act::Request(1),
        Act::Request(2),
        Act::Pass(b"01120000"),
        Act::Release(0),
        Act::Pass(b"1122222"),
    ],
    // of equal deadlines the lesser slot is first
    &[
        Act::Hard(1, 4, 0),
        Act::Hard(1, 4, 1),
        Act::Request(1),
        Act::Request(0),
        Act::Pass(b"01..01"),
    ],
];

fn terms(hard: bool, x: u32, y: u32) -> Terms {
    Terms::Res { hard, x, y }
}

/// The ticks that pass, and whom they serve.
fn push_ticks(
    ticks: &[u8],
    steps: &mut Vec<Step>,
    served: &mut Vec<Option<u8>>,
) -> Result<(), AllocError> {
    for tick in ticks {
        let port = if *tick == b'-' { None } else { Some(0) };
        steps.push(Step::Tick(port))?;
        served.push(match *tick {
            b'-' | b'.' => None,
            digit => Some(digit.wrapping_sub(b'0')),
        })?;
    }
    Ok(())
}

/// The step of an act that is one.
fn step_of(act: Act) -> Step {
    match act {
        Act::Hard(x, y, slot) => Step::Seat(terms(true, x, y), slot),
        Act::Soft(x, y, slot) => Step::Seat(terms(false, x, y), slot),
        Act::Refuse(x, y, free, asked) => {
            let fault = SeatFault::NoRoom { free, asked };
            Step::Refuse(terms(true, x, y), fault)
        }
        Act::Leave(slot) => Step::Leave(slot),
        Act::Request(slot) => Step::Request(slot),
        Act::Release(slot) => Step::Release(slot),
        Act::Settle | Act::Pass(_) => Step::Settle,
    }
}

/// The steps of an act, and whom its ticks serve.
fn push_act(
    act: Act,
    steps: &mut Vec<Step>,
    served: &mut Vec<Option<u8>>,
) -> Result<(), AllocError> {
    if let Act::Pass(ticks) = act {
        return push_ticks(ticks, steps, served);
    }
    steps.push(step_of(act))?;
    Ok(())
}

/// Takes a new box through these acts, and compares whom its ticks serve.
fn keeps(rt: &impl Abort, alloc: Global, acts: &[Act]) -> Result<(), Fail> {
    let mut steps: Vec<Step> = Vec::new(alloc);
    let mut served: Vec<Option<u8>> = Vec::new(alloc);
    for act in acts {
        push_act(*act, &mut steps, &mut served)?;
    }
    let mut edf = Edf::blank(alloc);
    take_all(&mut edf, &Config::Edf, &steps, rt)?;
    check_served(&rows_of(edf.book(), alloc)?, &served, rt);
    Ok(())
}

/// Takes a new box through each of these schedules.
fn all_are_kept(rt: &impl Abort, alloc: Global, schedules: &[&[Act]]) -> Result<(), Fail> {
    for at in 0..schedules.len() {
        keeps(rt, alloc, schedules[at])?;
    }
    Ok(())
}

#[test]
fn keeps_the_worked_schedules(rt: HostRuntime) -> Result<(), Fail> {
    all_are_kept(&rt, rt.alloc(), SCHEDULES)
}

#[test]
fn tells_the_price_of_a_reservation(rt: HostRuntime) -> Result<(), Fail> {
    assert_eq!(rt; parts(1, 3), 44524428808860000);
    assert_eq!(rt; parts(20, 41), 65157700695892683);
    Ok(())
}
