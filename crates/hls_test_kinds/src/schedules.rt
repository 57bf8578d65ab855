// The worked schedules, tick by tick, against what the definitions say.
use crate::books::{HALF, LATE, LONG, SHORT, TWOS, digit, pass, push_marks, seat};
use hls_chron::{Book, Config, Event, Terms};
use std::alloc::AllocError;
use std::process::Abort;
use std::test::Fail;

/// The schedule of one scheduler. By ticks: the mask of the slots that ask, a digit each, and the
/// slot to serve, or `.` for none; in a tick marked `-` under `given` the scheduler is not granted.
#[derive(Drop)]
struct Schedule {
    name: &'static str,
    config: Config,
    marks: &'static [(u32, Event)],
    masks: &'static [u8],
    slots: &'static [u8],
    given: &'static [u8],
}

/// Holds a schedule against the discipline, tick by tick.
fn holds(rt: &impl Abort, book: &mut Book, schedule: &Schedule) -> Result<(), AllocError> {
    for (t, asking) in schedule.masks.iter().enumerate() {
        push_marks(book, schedule.marks)?;
        let granted = schedule.given.get(t) != Some(&b'-');
        let choice = pass(rt, book, &schedule.config, *asking, granted)?;
        let expected = match schedule.slots.get(t) {
            Some(slot) => digit(*slot),
            None => None,
        };
        assert_eq!(rt; choice, expected, "{} at {t}", schedule.name);
    }
    Ok(())
}

const A: Terms = Terms::Res {
    hard: true,
    x: 3,
    y: 10,
};

const FIFTH: Terms = Terms::Res {
    hard: true,
    x: 2,
    y: 10,
};

#[test]
fn keeps_the_worked_schedules(rt: HostRuntime) -> Result<(), Fail> {
    let schedules = [
        Schedule {
            name: "two reservations",
            config: Config::Edf,
            marks: &[
                (0, Event::Seat { slot: 0, terms: A }),
                (
                    0,
                    Event::Seat {
                        slot: 1,
                        terms: HALF,
                    },
                ),
            ],
            masks: b"33333333333333333333",
            slots: b"00011111..00011111..",
            given: b"",
        },
        Schedule {
            name: "a late wake",
            config: Config::Edf,
            marks: &[
                (
                    0,
                    Event::Seat {
                        slot: 0,
                        terms: HALF,
                    },
                ),
                (
                    0,
                    Event::Seat {
                        slot: 1,
                        terms: LATE,
                    },
                ),
            ],
            masks: b"00000333333333333333333",
            slots: b".....000001111111100000",
            given: b"",
        },
        Schedule {
            name: "held parts",
            config: Config::Edf,
            marks: &[
                (
                    0,
                    Event::Seat {
                        slot: 0,
                        terms: HALF,
                    },
                ),
                (
                    0,
                    Event::Seat {
                        slot: 1,
                        terms: LONG,
                    },
                ),
                (5, Event::Leave { slot: 0 }),
                (
                    10,
                    Event::Seat {
                        slot: 0,
                        terms: HALF,
                    },
                ),
            ],
            masks: b"33333222222",
            slots: b"00000111111",
            given: b"",
        },
        Schedule {
            name: "no wake",
            config: Config::Edf,
            marks: &[(
                0,
                Event::Seat {
                    slot: 0,
                    terms: SHORT,
                },
            )],
            masks: b"11111",
            slots: b"00..0",
            given: b"",
        },
        Schedule {
            name: "a wake with its share left",
            config: Config::Edf,
            marks: &[(
                0,
                Event::Seat {
                    slot: 0,
                    terms: SHORT,
                },
            )],
            masks: b"10111",
            slots: b"0.0.0",
            given: b"",
        },
        Schedule {
            name: "a wake with more than its share left",
            config: Config::Edf,
            marks: &[(
                0,
                Event::Seat {
                    slot: 0,
                    terms: SHORT,
                },
            )],
            masks: b"10011",
            slots: b"0..00",
            given: b"",
        },
        Schedule {
            name: "settled reservations",
            config: Config::Edf,
            marks: &[
                (
                    0,
                    Event::Seat {
                        slot: 0,
                        terms: SHORT,
                    },
                ),
                (3, Event::Settle),
            ],
            masks: b"11111111111",
            slots: b"00000..00..",
            given: b"---",
        },
        Schedule {
            name: "the root of settled reservations",
            config: Config::Fp,
            marks: &[
                (
                    0,
                    Event::Seat {
                        slot: 0,
                        terms: Terms::Prio(1),
                    },
                ),
                (
                    0,
                    Event::Seat {
                        slot: 1,
                        terms: Terms::Prio(0),
                    },
                ),
                (3, Event::Leave { slot: 1 }),
                (3, Event::Leave { slot: 0 }),
                (
                    3,
                    Event::Seat {
                        slot: 0,
                        terms: Terms::Prio(0),
                    },
                ),
            ],
            masks: b"33311001100",
            slots: b"11100..00..",
            given: b"",
        },
        Schedule {
            name: "fair shares",
            config: Config::fair(4, 2),
            marks: &[
                (
                    0,
                    Event::Seat {
                        slot: 0,
                        terms: Terms::Weight(1),
                    },
                ),
                (
                    0,
                    Event::Seat {
                        slot: 1,
                        terms: Terms::Weight(3),
                    },
                ),
            ],
            masks: b"33333333333",
            slots: b"11011101110",
            given: b"",
        },
        Schedule {
            name: "fair shares in turns of two",
            config: TWOS.config(),
            marks: &[
                (
                    0,
                    Event::Seat {
                        slot: 0,
                        terms: Terms::Weight(1),
                    },
                ),
                (
                    0,
                    Event::Seat {
                        slot: 1,
                        terms: Terms::Weight(3),
                    },
                ),
            ],
            masks: b"33333333333",
            slots: b"11110011111",
            given: b"",
        },
        Schedule {
            name: "a turn of a share waits for a grant, and ends where its slot is silent",
            config: TWOS.config(),
            marks: &[
                (
                    0,
                    Event::Seat {
                        slot: 0,
                        terms: Terms::Weight(1),
                    },
                ),
                (
                    0,
                    Event::Seat {
                        slot: 1,
                        terms: Terms::Weight(3),
                    },
                ),
            ],
            masks: b"333313333",
            slots: b"111100111",
            given: b" -",
        },
        Schedule {
            name: "a late share begins at the virtual time",
            config: Config::fair(4, 3),
            marks: &[
                (
                    0,
                    Event::Seat {
                        slot: 0,
                        terms: Terms::Weight(1),
                    },
                ),
                (
                    4,
                    Event::Seat {
                        slot: 1,
                        terms: Terms::Weight(2),
                    },
                ),
            ],
            masks: b"1111333333",
            slots: b"0000101101",
            given: b"",
        },
        Schedule {
            name: "turns of two",
            config: Config::Rr { quantum: 2 },
            marks: &[
                (
                    0,
                    Event::Seat {
                        slot: 0,
                        terms: Terms::Turn,
                    },
                ),
                (
                    0,
                    Event::Seat {
                        slot: 1,
                        terms: Terms::Turn,
                    },
                ),
                (
                    0,
                    Event::Seat {
                        slot: 2,
                        terms: Terms::Turn,
                    },
                ),
            ],
            masks: b"77755555",
            slots: b"00122002",
            given: b"",
        },
        Schedule {
            name: "a turn waits for a grant, and ends where its slot is silent",
            config: Config::Rr { quantum: 2 },
            marks: &[
                (
                    0,
                    Event::Seat {
                        slot: 0,
                        terms: Terms::Turn,
                    },
                ),
                (
                    0,
                    Event::Seat {
                        slot: 1,
                        terms: Terms::Turn,
                    },
                ),
            ],
            masks: b"33330333",
            slots: b"0001.001",
            given: b" -",
        },
        Schedule {
            name: "a settling begins the turns anew",
            config: Config::Rr { quantum: 2 },
            marks: &[
                (
                    0,
                    Event::Seat {
                        slot: 0,
                        terms: Terms::Turn,
                    },
                ),
                (
                    0,
                    Event::Seat {
                        slot: 1,
                        terms: Terms::Turn,
                    },
                ),
                (1, Event::Settle),
            ],
            masks: b"3333",
            slots: b"0001",
            given: b"",
        },
        Schedule {
            name: "a leaving ends a turn",
            config: Config::Rr { quantum: 2 },
            marks: &[
                (
                    0,
                    Event::Seat {
                        slot: 0,
                        terms: Terms::Turn,
                    },
                ),
                (
                    0,
                    Event::Seat {
                        slot: 1,
                        terms: Terms::Turn,
                    },
                ),
                (1, Event::Leave { slot: 0 }),
                (
                    1,
                    Event::Seat {
                        slot: 0,
                        terms: Terms::Turn,
                    },
                ),
            ],
            masks: b"3333",
            slots: b"0110",
            given: b"",
        },
        Schedule {
            name: "a wheel",
            config: Config::Wheel { frame: 5 },
            marks: &[
                (
                    0,
                    Event::Seat {
                        slot: 0,
                        terms: Terms::Slots(2),
                    },
                ),
                (
                    0,
                    Event::Seat {
                        slot: 1,
                        terms: Terms::Slots(3),
                    },
                ),
            ],
            masks: b"1111111",
            slots: b"00...00",
            given: b"",
        },
        Schedule {
            name: "reservations above a join",
            config: Config::Edf,
            marks: &[(
                0,
                Event::Seat {
                    slot: 0,
                    terms: FIFTH,
                },
            )],
            masks: b"111111111111",
            slots: b"00........00",
            given: b"",
        },
        Schedule {
            name: "turns above a join",
            config: Config::Rr { quantum: 1 },
            marks: &[
                (
                    0,
                    Event::Seat {
                        slot: 0,
                        terms: Terms::Turn,
                    },
                ),
                (
                    0,
                    Event::Seat {
                        slot: 1,
                        terms: Terms::Turn,
                    },
                ),
            ],
            masks: b"333333333333",
            slots: b"000101010100",
            given: b"--        --",
        },
        Schedule {
            name: "a join",
            config: Config::Join { ports: 2 },
            marks: &[(
                0,
                Event::Seat {
                    slot: 0,
                    terms: Terms::Sole,
                },
            )],
            masks: b"111111111111",
            slots: b"000000000000",
            given: b"   - - - -  ",
        },
    ];
    for schedule in &schedules {
        let mut book = Book::new(rt.alloc(), 0);
        holds(&rt, &mut book, schedule)?;
    }
    Ok(())
}
