// Worked schedules.
use crate::harness::{Step, check_served, fair_turns, rows_of, take_all};
use hls_chron::{Config, Event, Mark, Terms, TickRow};
use hls_fp::Fp;
use hls_join::Join;
use hls_rr::Rr;
use hls_sched::{Scheduler, SeatFault};
use hls_sfq::Sfq;
use hls_wheel::Wheel;
use std::process::Abort;
use std::test::Fail;

const TICK: Step = Step::Tick(Some(0));

const TICK_AT_ONE: Step = Step::Tick(Some(1));

const PASSED: Step = Step::Tick(None);

const TURNS_STEPS: &[Step] = &[
    Step::Seat(Terms::Turn, 0),
    Step::Seat(Terms::Turn, 1),
    Step::Seat(Terms::Turn, 2),
    Step::Request(0),
    Step::Request(1),
    Step::Request(2),
    TICK,
    TICK,
    TICK,
    Step::Release(1),
    TICK,
    TICK,
    TICK,
    TICK,
    TICK,
];

const TURNS_SERVED: &[Option<u8>] = &[
    Some(0),
    Some(0),
    Some(1),
    Some(2),
    Some(2),
    Some(0),
    Some(0),
    Some(2),
];

#[test]
fn takes_turns_of_a_quantum(rt: HostRuntime) -> Result<(), Fail> {
    let mut rr = Rr::blank(rt.alloc());
    take_all(&mut rr, &Config::Rr { quantum: 2 }, TURNS_STEPS, &rt)?;
    check_served(&rows_of(rr.book(), rt.alloc())?, TURNS_SERVED, &rt);
    Ok(())
}

const OWNERS_STEPS: &[Step] = &[
    Step::Seat(Terms::Slots(2), 0),
    Step::Seat(Terms::Slots(3), 1),
    Step::Refuse(Terms::Slots(1), SeatFault::NoRoom { free: 0, asked: 1 }),
    Step::Refuse(Terms::Slots(6), SeatFault::Unfit),
    Step::Request(0),
    TICK,
    TICK,
    TICK,
    TICK,
    TICK,
    TICK,
    TICK,
];

const OWNERS_SERVED: &[Option<u8>] = &[Some(0), Some(0), None, None, None, Some(0), Some(0)];

#[test]
fn serves_owners_of_places_alone(rt: HostRuntime) -> Result<(), Fail> {
    let mut wheel = Wheel::blank(rt.alloc());
    take_all(&mut wheel, &Config::Wheel { frame: 5 }, OWNERS_STEPS, &rt)?;
    check_served(&rows_of(wheel.book(), rt.alloc())?, OWNERS_SERVED, &rt);
    Ok(())
}

/// Checks through which port each tick served.
fn check_ports(rows: &[TickRow], ports: &[Option<u8>], rt: &impl Abort) {
    assert_eq!(rt; rows.len(), ports.len());
    for (row, port) in rows.iter().zip(ports) {
        assert_eq!(rt; row.to.map(|_| row.port), *port);
    }
}

const JOINED_STEPS: &[Step] = &[
    Step::Seat(Terms::Sole, 0),
    Step::Request(0),
    TICK,
    TICK,
    TICK_AT_ONE,
    PASSED,
    TICK_AT_ONE,
    PASSED,
    TICK_AT_ONE,
    PASSED,
    TICK_AT_ONE,
    PASSED,
    TICK,
    TICK,
];

const JOINED_PORTS: &[Option<u8>] = &[
    Some(0),
    Some(0),
    Some(1),
    None,
    Some(1),
    None,
    Some(1),
    None,
    Some(1),
    None,
    Some(0),
    Some(0),
];

/// A join asks at a reservation of two ticks in ten, its port 0, and at turns of a tick, its port 1, where a
/// thread has the other turns.
#[test]
fn serves_its_seat_by_reservation_and_by_turns(rt: HostRuntime) -> Result<(), Fail> {
    let mut join = Join::blank(rt.alloc());
    take_all(&mut join, &Config::Join { ports: 2 }, JOINED_STEPS, &rt)?;
    check_ports(&rows_of(join.book(), rt.alloc())?, JOINED_PORTS, &rt);
    Ok(())
}

const WAITING_STEPS: &[Step] = &[
    Step::Seat(Terms::Turn, 0),
    Step::Seat(Terms::Turn, 1),
    Step::Request(0),
    Step::Request(1),
    PASSED,
    PASSED,
    TICK,
    TICK,
    TICK,
    TICK,
    TICK,
    TICK,
    TICK,
    TICK,
    PASSED,
    PASSED,
];

const WAITING_SERVED: &[Option<u8>] = &[
    None,
    None,
    Some(0),
    Some(1),
    Some(0),
    Some(1),
    Some(0),
    Some(1),
    Some(0),
    Some(1),
    None,
    None,
];

/// The turns of that join, at slot 0, and of the thread.
#[test]
fn waits_with_its_turns_while_it_is_not_granted(rt: HostRuntime) -> Result<(), Fail> {
    let mut rr = Rr::blank(rt.alloc());
    take_all(&mut rr, &Config::Rr { quantum: 1 }, WAITING_STEPS, &rt)?;
    check_served(&rows_of(rr.book(), rt.alloc())?, WAITING_SERVED, &rt);
    Ok(())
}

const PORTS_STEPS: &[Step] = &[
    Step::Seat(Terms::Sole, 0),
    Step::Refuse(Terms::Sole, SeatFault::Full { seats: 1 }),
    Step::Tick(Some(0)),
    Step::Request(0),
    Step::Tick(Some(0)),
    Step::Tick(Some(1)),
    Step::Tick(None),
    Step::Leave(0),
    Step::Tick(Some(1)),
];

const PORTS_SERVED: &[Option<u8>] = &[None, Some(0), Some(0), None, None];

#[test]
fn serves_its_seat_through_any_port(rt: HostRuntime) -> Result<(), Fail> {
    let mut join = Join::blank(rt.alloc());
    take_all(&mut join, &Config::Join { ports: 2 }, PORTS_STEPS, &rt)?;
    check_served(&rows_of(join.book(), rt.alloc())?, PORTS_SERVED, &rt);
    Ok(())
}

fn row(mask: u32, to: Option<u8>, port: u8) -> TickRow {
    TickRow { mask, to, port }
}

fn seat_mark(tick: u32, slot: u8, priority: u32) -> Mark {
    let terms = Terms::Prio(priority);
    Mark {
        tick,
        event: Event::Seat { slot, terms },
    }
}

const LEAST_STEPS: &[Step] = &[
    Step::Seat(Terms::Prio(7), 0),
    Step::Seat(Terms::Prio(2), 1),
    Step::Seat(Terms::Prio(9), 2),
    Step::Refuse(Terms::Prio(2), SeatFault::PriorityTaken { priority: 2 }),
    Step::Tick(Some(0)),
    Step::Request(0),
    Step::Request(2),
    Step::Tick(Some(1)),
    Step::Request(1),
    Step::Tick(Some(2)),
    Step::Tick(None),
    Step::Release(0),
    Step::Tick(Some(0)),
    Step::Leave(1),
    Step::Tick(Some(3)),
    Step::Settle,
    Step::Seat(Terms::Prio(0), 1),
    Step::Tick(Some(0)),
];

#[test]
fn serves_the_least_priority_number(rt: HostRuntime) -> Result<(), Fail> {
    let rows = [
        row(0, None, 0),
        row(5, Some(0), 1),
        row(7, Some(1), 2),
        row(7, None, 0),
        row(6, Some(1), 0),
        row(4, Some(2), 3),
        row(4, Some(2), 0),
    ];
    let marks = [
        seat_mark(0, 0, 7),
        seat_mark(0, 1, 2),
        seat_mark(0, 2, 9),
        Mark {
            tick: 5,
            event: Event::Leave { slot: 1 },
        },
        Mark {
            tick: 6,
            event: Event::Settle,
        },
        seat_mark(6, 1, 0),
    ];
    let mut fp = Fp::blank(rt.alloc());
    take_all(&mut fp, &Config::Fp, LEAST_STEPS, &rt)?;
    assert_eq!(rt; rows_of(fp.book(), rt.alloc())?.as_slice(), rows.as_slice());
    assert_eq!(rt; fp.book().marks(), marks.as_slice());
    Ok(())
}

const WEIGHTS_STEPS: &[Step] = &[
    Step::Seat(Terms::Weight(1), 0),
    Step::Seat(Terms::Weight(3), 1),
    Step::Request(0),
    Step::Request(1),
    Step::Refuse(Terms::Weight(1), SeatFault::Full { seats: 2 }),
    TICK,
    TICK,
    TICK,
    TICK,
    TICK,
    TICK,
    TICK,
    TICK,
    TICK,
    TICK,
    TICK,
];

const WEIGHTS_SERVED: &[Option<u8>] = &[
    Some(1),
    Some(1),
    Some(0),
    Some(1),
    Some(1),
    Some(1),
    Some(0),
    Some(1),
    Some(1),
    Some(1),
    Some(0),
];

#[test]
fn serves_by_weight(rt: HostRuntime) -> Result<(), Fail> {
    let config = Config::fair(4, 2);
    let mut sfq = Sfq::blank(rt.alloc());
    take_all(&mut sfq, &config, WEIGHTS_STEPS, &rt)?;
    check_served(&rows_of(sfq.book(), rt.alloc())?, WEIGHTS_SERVED, &rt);
    Ok(())
}

const QUANTA_STEPS: &[Step] = &[
    Step::Seat(Terms::Weight(1), 0),
    Step::Seat(Terms::Weight(3), 1),
    Step::Request(0),
    Step::Request(1),
    TICK,
    TICK,
    TICK,
    TICK,
    TICK,
    TICK,
    TICK,
    TICK,
    TICK,
    TICK,
    TICK,
];

const QUANTA_SERVED: &[Option<u8>] = &[
    Some(1),
    Some(1),
    Some(1),
    Some(1),
    Some(0),
    Some(0),
    Some(1),
    Some(1),
    Some(1),
    Some(1),
    Some(1),
];

/// With a quantum of two ticks. A tick adds 3 at weight 1 and 1 at weight 3: the first tags are 6 and 2, and after
/// two turns of slot 1 both are 6.
#[test]
fn serves_by_weight_and_turns_of_a_quantum(rt: HostRuntime) -> Result<(), Fail> {
    let config = fair_turns(4, 2, 2);
    let mut sfq = Sfq::blank(rt.alloc());
    take_all(&mut sfq, &config, QUANTA_STEPS, &rt)?;
    check_served(&rows_of(sfq.book(), rt.alloc())?, QUANTA_SERVED, &rt);
    Ok(())
}

#[test]
fn weights_fill_up(rt: HostRuntime) -> Result<(), Fail> {
    let room = SeatFault::NoRoom { free: 1, asked: 2 };
    let steps = [
        Step::Seat(Terms::Weight(3), 0),
        Step::Refuse(Terms::Weight(2), room),
        Step::Refuse(Terms::Weight(5), SeatFault::Unfit),
        Step::Tick(Some(0)),
        Step::Seat(Terms::Weight(1), 1),
        Step::Request(0),
        Step::Leave(0),
        Step::Seat(Terms::Weight(2), 0),
        Step::Refuse(Terms::Weight(2), room),
    ];
    let mut sfq = Sfq::blank(rt.alloc());
    let config = Config::fair(4, 3);
    take_all(&mut sfq, &config, &steps, &rt)?;
    check_served(&rows_of(sfq.book(), rt.alloc())?, &[None], &rt);
    Ok(())
}
