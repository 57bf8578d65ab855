// Deadlines, budgets and the room in use of small books, against what the definitions say.
use crate::books::{HALF, LATE, LONG, SHORT, in_range, pass, push_marks, seat};
use hls_chron::{Book, Config, Event, Terms};
use hls_kinds::Claim;
use hls_kinds_lookup::{claim_at, occupant, room_used};
use std::alloc::{AllocError, Global};
use std::process::Abort;
use std::test::Fail;

/// Fills a book with these marks and masks, each tick served as the discipline says.
fn fill(
    rt: &impl Abort,
    book: &mut Book,
    config: &Config,
    marks: &[(u32, Event)],
    masks: &[u8],
) -> Result<(), AllocError> {
    for asking in masks {
        push_marks(book, marks)?;
        pass(rt, book, config, *asking, true)?;
    }
    push_marks(book, marks)
}

#[test]
fn tells_deadlines_and_budgets(rt: HostRuntime) -> Result<(), Fail> {
    let mut book = Book::new(rt.alloc(), 0);
    let seats = [(0, seat(0, HALF)), (0, seat(1, LATE))];
    fill(&rt, &mut book, &Config::Edf, &seats, b"00000")?;
    assert!(rt; book.now() < 1000);
    assert_eq!(rt;
        claim_at(&book, 3, 0),
        Some(Claim {
            deadline: 15,
            budget: 5
        })
    );
    assert_eq!(rt;
        claim_at(&book, 3, 1),
        Some(Claim {
            deadline: 21,
            budget: 8
        })
    );
    assert_eq!(rt;
        claim_at(&book, 0, 1),
        Some(Claim {
            deadline: 0,
            budget: 8
        })
    );
    assert_eq!(rt; claim_at(&book, 3, 2), None);
    all_claim(&rt, rt.alloc(), &CLAIMS)
}

/// Masks of a short reservation, and the deadline and the budget after them.
type Claimed = (&'static [u8], u64, u32);

const CLAIMS: [Claimed; 5] = [
    (b"1", 4, 1),
    (b"11", 4, 0),
    (b"10", 4, 1),
    (b"100", 7, 2),
    (b"1111", 8, 2),
];

/// Compares the claims of all these cases.
fn all_claim(rt: &impl Abort, alloc: Global, cases: &[Claimed]) -> Result<(), Fail> {
    for at in 0..cases.len() {
        let (masks, deadline, budget) = cases[at];
        let mut book = Book::new(alloc, 0);
        fill(rt, &mut book, &Config::Edf, &[(0, seat(0, SHORT))], masks)?;
        assert!(rt; book.now() < 1000);
        assert_eq!(rt; claim_at(&book, 1, 0), Some(Claim { deadline, budget }));
    }
    Ok(())
}

const WHOLE: u128 = 133573286426580000;

/// Marks and masks of a scheduler, the room that is then used, and whether its first slot is held.
type Held = (Config, &'static [(u32, Event)], &'static [u8], u128, bool);

const HELD: [Held; 9] = [
    (
        Config::Edf,
        &[
            (
                0,
                Event::Seat {
                    slot: 0,
                    terms: HALF,
                },
            ),
            (
                0,
                Event::Seat {
                    slot: 1,
                    terms: LONG,
                },
            ),
        ],
        b"33333",
        WHOLE,
        true,
    ),
    (
        Config::Edf,
        &[
            (
                0,
                Event::Seat {
                    slot: 0,
                    terms: HALF,
                },
            ),
            (
                0,
                Event::Seat {
                    slot: 1,
                    terms: LONG,
                },
            ),
            (5, Event::Leave { slot: 0 }),
        ],
        b"33333",
        WHOLE,
        true,
    ),
    (
        Config::Edf,
        &[
            (
                0,
                Event::Seat {
                    slot: 0,
                    terms: HALF,
                },
            ),
            (
                0,
                Event::Seat {
                    slot: 1,
                    terms: LONG,
                },
            ),
            (5, Event::Leave { slot: 0 }),
        ],
        b"3333322222",
        WHOLE / 2,
        false,
    ),
    (
        Config::Edf,
        &[
            (
                0,
                Event::Seat {
                    slot: 0,
                    terms: HALF,
                },
            ),
            (0, Event::Leave { slot: 0 }),
        ],
        b"",
        0,
        false,
    ),
    (
        Config::Edf,
        &[
            (
                0,
                Event::Seat {
                    slot: 0,
                    terms: HALF,
                },
            ),
            (2, Event::Settle),
            (2, Event::Leave { slot: 0 }),
        ],
        b"11",
        0,
        false,
    ),
    (
        Config::Edf,
        &[
            (
                0,
                Event::Seat {
                    slot: 0,
                    terms: HALF,
                },
            ),
            (2, Event::Leave { slot: 0 }),
            (2, Event::Settle),
        ],
        b"11",
        0,
        false,
    ),
    (
        Config::Edf,
        &[
            (
                0,
                Event::Seat {
                    slot: 0,
                    terms: HALF,
                },
            ),
            (2, Event::Leave { slot: 0 }),
        ],
        b"00",
        0,
        false,
    ),
    (
        Config::Sfq {
            total: 4,
            most: 3,
            quantum: 1,
        },
        &[(
            0,
            Event::Seat {
                slot: 0,
                terms: Terms::Weight(3),
            },
        )],
        b"1",
        3,
        true,
    ),
    (
        Config::Wheel { frame: 5 },
        &[
            (
                0,
                Event::Seat {
                    slot: 0,
                    terms: Terms::Slots(2),
                },
            ),
            (
                0,
                Event::Seat {
                    slot: 1,
                    terms: Terms::Slots(3),
                },
            ),
            (1, Event::Leave { slot: 0 }),
        ],
        b"1",
        3,
        false,
    ),
];

/// Compares what is held and used in a case.
fn is_held(rt: &impl Abort, alloc: Global, case: Held) -> Result<(), Fail> {
    let (config, marks, masks, used, taken) = case;
    let mut book = Book::new(alloc, 0);
    fill(rt, &mut book, &config, marks, masks)?;
    assert!(rt; in_range(&config));
    assert_eq!(rt; room_used(&book, &config), used);
    assert_eq!(rt; occupant(&book, &config, 0).is_some(), taken);
    Ok(())
}

/// Compares what is held and used in all these cases.
fn all_are_held(rt: &impl Abort, alloc: Global, cases: &[Held]) -> Result<(), Fail> {
    for at in 0..cases.len() {
        is_held(rt, alloc, cases[at])?;
    }
    Ok(())
}

#[test]
fn tells_what_is_held_and_used(rt: HostRuntime) -> Result<(), Fail> {
    all_are_held(&rt, rt.alloc(), &HELD)
}
