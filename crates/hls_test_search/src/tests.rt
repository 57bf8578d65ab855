//! Searches, held against worked derivations, and against all chains over small guarantees.
ghost use Rattle.std.specs.Prelude.{◌≡◌, ◌<◌, IfOk};
ghost use Rattle.hls_chron.specs.Ranges.{ConfigInRange, IsWithin, TermsInRange};
ghost use Rattle.hls_guarantee.specs.Limits.{IsNarrow, IsValid};
ghost use Rattle.hls_chron.specs.Kinds.{by_shares, port_count};

use crate::chains::differences;
use hls_check::lent;
use hls_chron::{Config, Sharing, Terms};
use hls_derive::{Derivation, Place, read_derivation};
use hls_guarantee::{Guarantee, RuleName, narrow, read_guarantee, valid};
use hls_rules::{RULES, Rule, RuleBook, strongest};
use hls_rules2::answer_of;
use hls_search::search;
use std::alloc::{AllocError, Global};
use std::process::Abort;
use std::test::Fail;

/// The guarantee of that text, within the limits of a scenario.
fn read(text: &str) -> Result<Guarantee, Fail>
    ensures { IfOk result (λ g. IsNarrow g) }
{
    match read_guarantee(text.as_bytes()) {
        Some(g) if narrow(&g) => Ok(g),
        _ => Err(Fail::new("a narrow guarantee")),
    }
}

/// What is found at a place with one port.
fn found(
    alloc: Global,
    book: &RuleBook,
    place: &Place,
    have: &str,
    want: &str,
    depth: u8,
) -> Result<Option<Derivation>, Fail>
    requires config { ConfigInRange place.now.config }
    requires terms { TermsInRange place.now.terms }
    requires ports { port_count place.now.config ≡ 1 }
{
    let haves = [read(have)?];
    let want = read(want)?;
    Ok(search(alloc, book, place, &haves, &want, depth)?)
}

/// What is found at a join of two ports.
fn joined(
    alloc: Global,
    book: &RuleBook,
    first: &str,
    second: &str,
    want: &str,
    depth: u8,
) -> Result<Option<Derivation>, Fail> {
    let place = Place {
        config: Config::Join { ports: 2 },
        terms: Terms::Sole,
    };
    let haves = [read(first)?, read(second)?];
    let want = read(want)?;
    Ok(search(alloc, book, &place, &haves, &want, depth)?)
}

/// The derivation of that text.
fn derivation(alloc: Global, text: &str) -> Result<Option<Derivation>, AllocError> {
    read_derivation(alloc, text.as_bytes())
}

/// Whether a derivation is the one of that text, which is empty for none.
fn is_text(alloc: Global, found: &Option<Derivation>, text: &str) -> Result<bool, AllocError> {
    let told = derivation(alloc, text)?;
    match (found, &told) {
        (Some(d), Some(e)) => Ok(
            d.from == e.from
                && d.before.items() == e.before.items()
                && d.sched == e.sched
                && d.after.items() == e.after.items(),
        ),
        (None, None) => Ok(text.is_empty()),
        _ => Ok(false),
    }
}

const PASSING: Place = Place {
    config: Config::Fp,
    terms: Terms::Prio(0),
};

/// What is there, what is wanted, the least depth at which it is found, and whether it is found at all.
type Least = (&'static str, &'static str, u8, bool);

const AT_FIXED_PRIORITY: [Least; 38] = [
    ("RESBH 1 2", "RESBS 1 2", 1, true),
    ("RESBH 1 2", "RESCS 1 3", 1, true),
    ("RESBH 1 2", "PSBE 1/2 1", 1, true),
    ("RESCH 1 2", "PSBE 1/2 1/2", 1, true),
    ("PSBE 1 0", "RESBS 1 1", 1, true),
    ("RESCH 1 2", "RESBH 1 2", 1, true),
    ("ALL", "RESBS 1 1", 1, true),
    ("PSBE 1 0", "PSBE 1 1", 1, true),
    ("RESCS 1 3", "RESBS 1 4", 2, true),
    ("RESCH 1 3", "RESCS 1 4", 1, true),
    ("RESCH 1 2", "RESBS 1 2", 2, true),
    ("RESBH 1 2", "RESBS 1 3", 2, true),
    ("RESBH 1 2", "PSBE 1/2 2", 2, true),
    ("RESBH 1 2", "RESBS 2 6", 2, true),
    ("RESCH 1 2", "PSBE 1/2 1", 2, true),
    ("RESCH 1 2", "RESBS 2 5", 2, true),
    ("RESCH 1 3", "RESBS 1 4", 2, true),
    ("RESBS 3 10", "RESCS 3 16", 0, false),
    ("RESBS 3 10", "RESCS 3 17", 1, true),
    ("RESBS 3 10", "RESCS 2 16", 1, true),
    ("RESBS 3 10", "RESCS 2 15", 0, false),
    ("RESBS 3 10", "RESBS 2 16", 2, true),
    ("RESBS 3 10", "RESCS 4 28", 2, true),
    ("RESBS 3 10", "PSBE 3/10 21/5", 1, true),
    ("RESBS 3 10", "PSBE 3/10 4", 0, false),
    ("RESBS 3 10", "PSBE 1/5 14/5", 2, true),
    ("RESBS 3 10", "RESBS 3 10", 0, true),
    ("ALL", "ALL", 0, true),
    ("RESBS 3 10", "NULL", 0, true),
    ("NULL", "RESBS 1 20000", 0, false),
    ("RESBS 3 10", "RESBH 3 10", 0, false),
    ("RESCS 1 3", "ALL", 0, false),
    ("RESBH 5 20000", "RESCS 5 20000", 0, false),
    ("ALL", "RESCH 1 2", 0, false),
    ("RESCH 2 5", "RESBH 2 5", 1, true),
    ("RESCH 2 5", "RESCS 4 10", 1, true),
    ("RESCH 2 5", "RESBS 4 10", 2, true),
    ("RESCS 2 5", "RESCS 5 14", 0, false),
];

/// What is there, what is wanted, at which depth, and the one derivation, which is empty for none.
type Case = (&'static str, &'static str, u8, &'static str);

const AT_LIGHT_WEIGHT: [Case; 4] = [
    ("ALL", "PSBE 1/8 1", 1, "ALL R8 PSBE 1/2 0 SFQ PSBE 1/8 1"),
    ("ALL", "PSBE 1/8 1", 0, ""),
    ("ALL", "PSBE 1/4 1", 1, "ALL R8 PSBE 1 0 SFQ PSBE 1/4 1"),
    ("RESBS 3 10", "PSBE 9/40 4", 6, ""),
];

const AT_HEAVY_WEIGHT: [Case; 5] = [
    (
        "RESBS 3 10",
        "PSBE 9/40 83/20",
        1,
        "RESBS 3 10 R4 PSBE 3/10 21/5 SFQ PSBE 9/40 83/20",
    ),
    ("RESBS 3 10", "PSBE 9/40 83/20", 0, ""),
    ("ALL", "PSBE 3/8 3/4", 1, ""),
    (
        "ALL",
        "PSBE 3/8 3/4",
        2,
        "ALL R8 PSBE 1 0 SFQ PSBE 3/4 1 R1 PSBE 3/8 3/4",
    ),
    (
        "PSBE 1/2 20",
        "PSBE 3/8 16",
        0,
        "PSBE 1/2 20 SFQ PSBE 3/8 16",
    ),
];

const AT_LIGHT_TURNS: [Case; 5] = [
    ("ALL", "PSBE 1/4 2", 3, "ALL R8 PSBE 1 0 SFQ PSBE 1/4 2"),
    ("ALL", "PSBE 1/4 1", 3, ""),
    ("ALL", "PSBE 1/8 2", 1, "ALL R8 PSBE 1/2 0 SFQ PSBE 1/8 2"),
    ("ALL", "PSBE 1/8 1", 1, ""),
    (
        "ALL",
        "PSBE 1/8 1",
        2,
        "ALL R8 PSBE 1 0 SFQ PSBE 1/4 2 R1 PSBE 1/8 1",
    ),
];

const AT_HEAVY_TURNS: [Case; 4] = [
    ("ALL", "PSBE 3/4 2", 3, "ALL R8 PSBE 1 0 SFQ PSBE 3/4 2"),
    ("ALL", "PSBE 3/4 1", 3, ""),
    (
        "RESBS 3 10",
        "PSBE 9/40 103/20",
        1,
        "RESBS 3 10 R4 PSBE 3/10 21/5 SFQ PSBE 9/40 103/20",
    ),
    ("RESBS 3 10", "PSBE 9/40 83/20", 6, ""),
];

const AT_RESERVATION: [Case; 6] = [
    ("ALL", "RESBH 20 40", 0, "ALL EDF RESBH 20 40"),
    (
        "ALL",
        "RESCS 20 60",
        1,
        "ALL EDF RESBH 20 40 R3 RESCS 20 60",
    ),
    ("ALL", "RESCS 1 41", 1, "ALL EDF RESBH 20 40 R10 RESCS 1 41"),
    (
        "ALL",
        "PSBE 1/2 20",
        1,
        "ALL EDF RESBH 20 40 R4 PSBE 1/2 20",
    ),
    ("ALL", "PSBE 1/2 19", 6, ""),
    ("RESBH 20 40", "RESBS 1 40", 6, ""),
];

const AT_FRAME: [Case; 4] = [
    ("ALL", "RESCH 2 5", 0, "ALL WHEEL RESCH 2 5"),
    ("ALL", "RESCS 4 10", 1, "ALL WHEEL RESCH 2 5 R11 RESCS 4 10"),
    ("ALL", "NULL", 0, "ALL WHEEL NULL"),
    ("ALL", "RESCH 3 5", 6, ""),
];

const AT_TURNS: [Case; 11] = [
    ("NULL", "NULL", 0, "NULL RR NULL"),
    (
        "ALL",
        "PSBE 1/32 155/32",
        1,
        "ALL R8 PSBE 1 0 RR PSBE 1/32 155/32",
    ),
    ("ALL", "PSBE 1/32 155/32", 0, ""),
    ("ALL", "PSBE 1/32 4", 6, ""),
    ("ALL", "PSBE 1/16 100", 6, ""),
    ("ALL", "PSBE 1/64 5", 1, "ALL R8 PSBE 1/2 5 RR PSBE 1/64 5"),
    (
        "ALL",
        "PSBE 1/64 5",
        2,
        "ALL R8 PSBE 1 0 RR PSBE 1/32 155/32 R1 PSBE 1/64 5",
    ),
    (
        "ALL",
        "RESBS 1 187",
        2,
        "ALL R8 PSBE 1 0 RR PSBE 1/32 155/32 R6 RESBS 1 187",
    ),
    ("ALL", "RESBS 1 186", 6, ""),
    (
        "PSBE 1/2 20",
        "PSBE 1/64 175/32",
        0,
        "PSBE 1/2 20 RR PSBE 1/64 175/32",
    ),
    (
        "RESBS 3 10",
        "PSBE 3/320 199/40",
        1,
        "RESBS 3 10 R4 PSBE 3/10 21/5 RR PSBE 3/320 199/40",
    ),
];

const AT_PROCESSOR: [Case; 4] = [
    ("ALL", "ALL", 0, "ALL CPU ALL"),
    ("ALL", "NULL", 0, ""),
    ("ALL", "NULL", 1, "ALL CPU ALL R9 NULL"),
    ("NULL", "NULL", 6, ""),
];

/// The first of these cases that goes otherwise at the place.
fn otherwise(
    alloc: Global,
    book: &RuleBook,
    place: &Place,
    cases: &[Case],
) -> Result<Option<usize>, Fail>
    requires config { ConfigInRange place.now.config }
    requires terms { TermsInRange place.now.terms }
    requires ports { port_count place.now.config ≡ 1 }
{
    for at in 0..cases.len() {
        let (have, want, depth, told) = cases[at];
        if !is_text(alloc, &found(alloc, book, place, have, want, depth)?, told)? {
            return Ok(Some(at));
        }
    }
    Ok(None)
}

/// Whether anything is found at fixed priority.
fn passes(alloc: Global, book: &RuleBook, have: &str, want: &str, depth: u8) -> Result<bool, Fail> {
    Ok(found(alloc, book, &PASSING, have, want, depth)?.is_some())
}

/// Whether a pair is found at fixed priority from its least depth on.
fn is_from_depth(alloc: Global, book: &RuleBook, pair: Least) -> Result<bool, Fail> {
    let (have, want, least, is_there) = pair;
    let deep = passes(alloc, book, have, want, 6)?;
    let there = !is_there || passes(alloc, book, have, want, least)?;
    let before = least > 0 && passes(alloc, book, have, want, least - 1)?;
    Ok(deep == is_there && there && !before)
}

/// The first of these pairs that is not found at fixed priority from its least depth on.
fn not_from_depth(alloc: Global, book: &RuleBook, pairs: &[Least]) -> Result<Option<usize>, Fail> {
    for at in 0..pairs.len() {
        if !is_from_depth(alloc, book, pairs[at])? {
            return Ok(Some(at));
        }
    }
    Ok(None)
}

/// The share that these blocks, or windows, are by that rule.
fn share_of(rule: RuleName, g: &Guarantee) -> Option<Guarantee> {
    if valid(g) { strongest(rule, g) } else { None }
}

/// The reservations of at most `size` ticks, and the shares that they are.
fn known_up_to(alloc: Global, size: u32) -> Result<Vec<Guarantee>, AllocError>
    requires { size < 10 }
{
    let mut known = vec![in alloc; Guarantee::All, Guarantee::Null]?;
    for y in 1..size + 1 {
        for x in 1..y + 1 {
            for hard in [true, false] {
                let blocks = Guarantee::Resb { hard, x, y };
                let windows = Guarantee::Resc { hard, x, y };
                known.push(blocks)?;
                known.push(windows)?;
                if !hard {
                    known.extend(share_of(RuleName::R4, &blocks))?;
                    known.extend(share_of(RuleName::R5, &windows))?;
                }
            }
        }
    }
    Ok(known)
}

/// What a place lends of a guarantee, if anything.
fn lent_of_valid(place: &Place, g: &Guarantee) -> Option<Guarantee>
    requires config { ConfigInRange place.now.config }
    requires terms { TermsInRange place.now.terms }
{
    if valid(g) { lent(place, g) } else { None }
}

/// These and what a place lends of them.
fn with_lent(
    alloc: Global,
    place: &Place,
    known: &[Guarantee],
) -> Result<Vec<Guarantee>, AllocError>
    requires config { ConfigInRange place.now.config }
    requires terms { TermsInRange place.now.terms }
{
    let mut all = Vec::new(alloc);
    for g in known {
        all.push(*g)?;
        all.extend(lent_of_valid(place, g))?;
    }
    Ok(all)
}

/// Compares all cases of a place.
fn agrees(
    rt: &impl Abort,
    alloc: Global,
    book: &RuleBook,
    place: &Place,
    cases: &[Case],
) -> Result<(), Fail>
    requires config { ConfigInRange place.now.config }
    requires terms { TermsInRange place.now.terms }
    requires ports { port_count place.now.config ≡ 1 }
{
    let other = otherwise(alloc, book, place, cases)?;
    assert_eq!(rt; other, None, "{:?} {:?}", place.config, place.terms);
    Ok(())
}

fn by_weights(rt: &impl Abort, alloc: Global, book: &RuleBook) -> Result<(), Fail> {
    agrees(rt, alloc, book, &fair_queueing(4, 1, 1), &AT_LIGHT_WEIGHT)?;
    agrees(rt, alloc, book, &fair_queueing(4, 3, 1), &AT_HEAVY_WEIGHT)?;
    agrees(rt, alloc, book, &fair_queueing(4, 1, 2), &AT_LIGHT_TURNS)?;
    agrees(rt, alloc, book, &fair_queueing(4, 3, 2), &AT_HEAVY_TURNS)
}

const RESERVED: Place = Place {
    config: Config::Edf,
    terms: Terms::Res {
        hard: true,
        x: 20,
        y: 40,
    },
};

const FRAMED: Place = Place {
    config: Config::Wheel { frame: 5 },
    terms: Terms::Slots(2),
};

const TURNING: Place = Place {
    config: Config::Rr { quantum: 5 },
    terms: Terms::Turn,
};

const PROCESSOR: Place = Place {
    config: Config::Cpu,
    terms: Terms::Cpu,
};

fn worked_derivations(rt: &impl Abort, alloc: Global, book: &RuleBook) -> Result<(), Fail> {
    by_weights(rt, alloc, book)?;
    agrees(rt, alloc, book, &RESERVED, &AT_RESERVATION)?;
    agrees(rt, alloc, book, &FRAMED, &AT_FRAME)?;
    agrees(rt, alloc, book, &TURNING, &AT_TURNS)?;
    agrees(rt, alloc, book, &PROCESSOR, &AT_PROCESSOR)
}

/// A seat of this weight of a total, beside one other, in turns of a quantum.
pub fn fair_queueing(total: u32, weight: u32, quantum: u32) -> Place
    requires total { IsWithin 1 100 total }
    requires weight { IsWithin 1 20 weight }
    requires quantum { IsWithin 1 100 quantum }
    ensures { result ≡ record {
      config = by_shares (record { total = total; most = 2; quantum = quantum });
      terms = Terms.Weight weight;
    } }
{
    let sharing = Sharing {
        total,
        most: 2,
        quantum,
    };
    Place {
        config: sharing.config(),
        terms: Terms::Weight(weight),
    }
}

/// What the two ports have, what is wanted, and the one derivation, which is empty for none.
type Joined = (&'static str, &'static str, &'static str, &'static str);

const AT_JOIN: [Joined; 4] = [
    (
        "RESBH 2 10",
        "NULL",
        "RESBS 2 10",
        "RESBH 2 10 R2 RESBS 2 10 JOIN 0 RESBS 2 10",
    ),
    (
        "NULL",
        "RESBH 2 10",
        "RESBS 2 10",
        "RESBH 2 10 R2 RESBS 2 10 JOIN 1 RESBS 2 10",
    ),
    ("RESBH 2 10", "NULL", "NULL", "RESBH 2 10 JOIN 0 NULL"),
    ("RESBH 2 10", "NULL", "RESBH 2 10", ""),
];

/// The first of these cases that goes otherwise at a join.
fn joined_otherwise(
    alloc: Global,
    book: &RuleBook,
    cases: &[Joined],
) -> Result<Option<usize>, Fail> {
    for at in 0..cases.len() {
        let (first, second, want, told) = cases[at];
        if !is_text(alloc, &joined(alloc, book, first, second, want, 3)?, told)? {
            return Ok(Some(at));
        }
    }
    Ok(None)
}

/// How many searches at the place miss a derivation by way of small guarantees.
fn missed_of_shares(alloc: Global, book: &RuleBook, place: &Place) -> Result<u32, AllocError>
    requires config { ConfigInRange place.now.config }
    requires terms { TermsInRange place.now.terms }
    requires ports { port_count place.now.config ≡ 1 }
{
    let few = known_up_to(alloc, 2)?;
    let known = with_lent(alloc, place, &few)?;
    let mut all: u32 = 0;
    for depth in 0..3 {
        let (missed, _) = differences(alloc, book, &known, place, depth)?;
        all = all.saturating_add(missed);
    }
    Ok(all)
}

/// Whether no search at the place misses a derivation.
fn misses_none(rt: &impl Abort, alloc: Global, book: &RuleBook, place: &Place) -> Result<(), Fail>
    requires config { ConfigInRange place.now.config }
    requires terms { TermsInRange place.now.terms }
    requires ports { port_count place.now.config ≡ 1 }
{
    let missed = missed_of_shares(alloc, book, place)?;
    assert_eq!(rt; missed, 0, "{:?}", place.config);
    Ok(())
}

/// Compares all searches of this depth at fixed priority.
fn differs_in_none(
    rt: &impl Abort,
    alloc: Global,
    book: &RuleBook,
    known: &[Guarantee],
    depth: u8,
) -> Result<(), Fail> {
    let differ = differences(alloc, book, known, &PASSING, depth)?;
    assert_eq!(rt; differ, (0, 0), "fixed priority, depth {depth}");
    Ok(())
}

const TURN: Place = Place {
    config: Config::Rr { quantum: 1 },
    terms: Terms::Turn,
};

fn small_chains(rt: &impl Abort, alloc: Global, book: &RuleBook) -> Result<(), Fail> {
    let known = known_up_to(alloc, 3)?;
    for depth in 0..4 {
        differs_in_none(rt, alloc, book, &known, depth)?;
    }
    for quantum in 1..3 {
        misses_none(rt, alloc, book, &fair_queueing(3, 2, quantum))?;
    }
    misses_none(rt, alloc, book, &TURN)
}

/// Compares all that a book of rules finds.
fn searches(rt: &impl Abort, alloc: Global, book: &RuleBook) -> Result<(), Fail> {
    assert_eq!(rt; not_from_depth(alloc, book, &AT_FIXED_PRIORITY)?, None);
    worked_derivations(rt, alloc, book)?;
    assert_eq!(rt; joined_otherwise(alloc, book, &AT_JOIN)?, None);
    small_chains(rt, alloc, book)
}

#[test]
fn searches_by_stored_rules(rt: HostRuntime) -> Result<(), Fail> {
    let alloc = rt.alloc();
    let mut rules = Vec::new(alloc);
    for name in RULES {
        let step = Box::new(
            alloc,
            move |have: Guarantee, want: Guarantee| -> Option<Guarantee>
                requires have { IsValid have }
                requires want { IsValid want }
            { answer_of(name, have, want) },
        )?;
        rules.push(Rule::new(name, step))?;
    }
    let book = RuleBook::new(rules);
    searches(&rt, alloc, &book)
}
