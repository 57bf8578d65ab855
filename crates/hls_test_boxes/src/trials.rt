// Thousands of short lists of calls that a generator draws, with ticks that are given and ticks that are not.
// Each answer is held against the definitions as plain functions of the book; what each seat gets against
// what it is promised, where the box is given what that takes; and each stay in a frame against its cap.
ghost use Rattle.std.specs.Prelude.{◌≡◌, ◌<◌, ◌≤◌, None};
ghost use Rattle.hls_chron.specs.Kinds.{kind_of};
ghost use Rattle.hls_chron.specs.Ranges.{ConfigInRange};
ghost use Rattle.hls_sched.specs.Seen.{IsBlank, IsConfigured};

use crate::harness::{Known, Step, compare, fair_turns, free_in, is_asking, rows_of, take};
use hls_chron::{Book, Config, Terms, TickRow};
use hls_edf::Edf;
use hls_fp::Fp;
use hls_frac::Frac;
use hls_guarantee::{Guarantee, holds, valid};
use hls_join::Join;
use hls_kinds::{Tenant, room_asked, room_total, terms_at};
use hls_kinds_lookup::{room_used, tenant_at};
use hls_rr::Rr;
use hls_sched::{Scheduler, SeatFault};
use hls_sfq::Sfq;
use hls_wheel::Wheel;
use std::alloc::{AllocError, Global};
use std::process::Abort;
use std::test::Fail;

/// So many lists are drawn for each kind, and each has so many calls; of reservations a third, since their definitions
/// are slow.
const LISTS: u32 = 150;

const CALLS: u32 = 60;

/// A fixed series of numbers.
#[derive(Clone, Copy, Debug)]
struct Series {
    state: u32,
}

impl Series {
    /// The next number below a bound.
    fn below(&mut self, bound: u32) -> u32
        requires { 0 < bound }
        ensures { result < bound }
    {
        self.state = self.state.wrapping_mul(1_103_515_245).wrapping_add(12_345);
        (self.state >> 16) % bound
    }
}

/// How ticks are given: of eight so many, through so many ports.
#[derive(Clone, Copy, Debug)]
struct Giving {
    ticks: u32,
    ports: u8,
}

fn draw_giving(config: &Config, series: &mut Series) -> Giving {
    let ticks = match series.below(4) {
        0 => 4,
        1 => 7,
        _ => 8,
    };
    let ports = match config {
        Config::Join { ports } => series.below(u32::from(*ports).max(1)) as u8 + 1,
        _ => 1,
    };
    Giving { ticks, ports }
}

fn draw_tick(giving: Giving, series: &mut Series) -> Step {
    let port = series.below(u32::from(giving.ports).max(1)) as u8;
    if series.below(8) < giving.ticks {
        Step::Tick(Some(port))
    } else {
        Step::Tick(None)
    }
}

fn draw_reservation(series: &mut Series) -> Terms {
    let y = 1 + series.below(12);
    let x = 1 + series.below(y);
    let hard = series.below(2) == 0;
    Terms::Res { hard, x, y }
}

/// Terms, mostly of the kind of a configuration.
fn draw_terms(config: &Config, series: &mut Series) -> Terms {
    if series.below(16) == 0 {
        return Terms::Slots(11);
    }
    match config {
        Config::Fp => Terms::Prio(series.below(6)),
        Config::Edf => draw_reservation(series),
        Config::Sfq { .. } => Terms::Weight(1 + series.below(4)),
        Config::Wheel { .. } => Terms::Slots(1 + series.below(5)),
        Config::Join { .. } => Terms::Sole,
        _ => Terms::Turn,
    }
}

/// Whether more of a frame or of a total is asked than there is.
fn exceeds(config: &Config, terms: &Terms) -> bool {
    match (*config, *terms) {
        (Config::Sfq { total, .. }, Terms::Weight(weight)) => total < weight,
        (Config::Wheel { frame }, Terms::Slots(places)) => frame < places,
        _ => false,
    }
}

/// Whether a seat has the priority number that is asked for.
fn is_taken(book: &Book, terms: &Terms) -> bool {
    for slot in 0..32 {
        if matches!(terms, Terms::Prio(_)) && terms_at(book, slot) == Some(*terms) {
            return true;
        }
    }
    false
}

/// Why a seat cannot be taken, by the definitions.
fn fault_in(book: &Book, config: &Config, terms: &Terms) -> Option<SeatFault>
    requires { ConfigInRange config.now }
{
    if terms.kind() != config.kind() || exceeds(config, terms) {
        return Some(SeatFault::Unfit);
    }
    if let Terms::Prio(priority) = *terms {
        if is_taken(book, terms) {
            return Some(SeatFault::PriorityTaken { priority });
        }
    }
    if free_in(book, config).is_none() {
        let seats = config.most_seats();
        return Some(SeatFault::Full { seats });
    }
    let free = room_total(config).saturating_sub(room_used(book, config));
    let asked = room_asked(config, terms);
    if free < asked {
        return Some(SeatFault::NoRoom { free, asked });
    }
    None
}

/// A seat is taken where it fits, and else is refused.
fn draw_seat(book: &Book, config: &Config, series: &mut Series) -> Step
    requires { ConfigInRange config.now }
{
    let terms = draw_terms(config, series);
    match (fault_in(book, config, &terms), free_in(book, config)) {
        (Some(fault), _) => Step::Refuse(terms, fault),
        (None, Some(slot)) => Step::Seat(terms, slot),
        (None, None) => Step::Tick(None),
    }
}

/// A seat is left, or begins or ends to ask; a tick where nobody sits.
fn draw_change(book: &Book, mask: u32, giving: Giving, series: &mut Series) -> Step {
    let slot = series.below(4);
    if terms_at(book, slot).is_none() {
        return draw_tick(giving, series);
    }
    match (series.below(8), is_asking(mask, slot)) {
        (0, _) => Step::Leave(slot),
        (_, true) => Step::Release(slot),
        (_, false) => Step::Request(slot),
    }
}

/// A step that can be taken.
fn draw_step(book: &Book, config: &Config, mask: u32, giving: Giving, series: &mut Series) -> Step
    requires { ConfigInRange config.now }
{
    match series.below(64) {
        0 => Step::Settle,
        1..=8 => draw_seat(book, config, series),
        9..=22 => draw_change(book, mask, giving, series),
        _ => draw_tick(giving, series),
    }
}

/// Of a tick, whether it was asked for, and whether it was had.
#[derive(Clone, Copy, Debug)]
struct Moment {
    asked: bool,
    had: bool,
}

/// Whether a run of ticks satisfies a guarantee.
fn is_kept(guarantee: &Guarantee, run: &[bool], rt: &impl Abort) -> bool {
    assert!(rt; valid(guarantee) && run.len() <= 1000);
    holds(guarantee, run)
}

/// Whether each run of ticks that were asked for satisfies a guarantee.
fn satisfy(
    moments: &[Moment],
    guarantee: &Guarantee,
    rt: &impl Abort,
    alloc: Global,
) -> Result<bool, AllocError> {
    let mut run: Vec<bool> = Vec::new(alloc);
    for moment in moments {
        if moment.asked {
            run.push(moment.had)?;
        } else if is_kept(guarantee, &run, rt) {
            run.clear();
        } else {
            return Ok(false);
        }
    }
    Ok(is_kept(guarantee, &run, rt))
}

/// What was done in a tick: whether the box asked, and the port that it was granted.
#[derive(Clone, Copy, Debug)]
struct Done {
    asked: bool,
    port: Option<u8>,
}

/// What a box was given through a port.
fn given(ticks: &[Done], port: u8, alloc: Global) -> Result<Vec<Moment>, AllocError> {
    let mut moments: Vec<Moment> = Vec::new(alloc);
    for tick in ticks {
        let asked = tick.asked;
        let had = asked && tick.port == Some(port);
        moments.push(Moment { asked, had })?;
    }
    Ok(moments)
}

/// What a slot got.
fn got(rows: &[TickRow], slot: u32, alloc: Global) -> Result<Vec<Moment>, AllocError>
    requires { slot < 32 }
{
    let mut moments: Vec<Moment> = Vec::new(alloc);
    for row in rows {
        let asked = is_asking(row.mask, slot);
        let had = serves(row, slot);
        moments.push(Moment { asked, had })?;
    }
    Ok(moments)
}

fn serves(row: &TickRow, slot: u32) -> bool {
    row.to.is_some_and(|to| u32::from(to) == slot)
}

/// Which of the rows of a book, and of what goes with them, is a tick's.
fn place_of(book: &Book, tick: u32) -> usize {
    tick.saturating_sub(book.start()) as usize
}

/// Those of these rows of a book that a tick has, and later ones.
fn rows_since<'a>(rows: &'a [TickRow], book: &Book, tick: u32) -> &'a [TickRow] {
    &rows[place_of(book, tick).min(rows.len())..]
}

/// What a box may be given.
fn premises(rt: &impl Abort) -> [Guarantee; 6] {
    let s = Frac::make(1, 2).expect(rt, "a half");
    let d = Frac::make(3, 1).expect(rt, "three ticks");
    let hard = false;
    [
        Guarantee::All,
        Guarantee::Resb { hard, x: 1, y: 2 },
        Guarantee::Resb { hard, x: 2, y: 5 },
        Guarantee::Resc { hard, x: 1, y: 3 },
        Guarantee::Resc { hard, x: 3, y: 8 },
        Guarantee::Psbe { s, d },
    ]
}

/// What a seat is promised of it.
fn lent(config: &Config, terms: &Terms, given: Guarantee) -> Guarantee {
    match (*config, *terms, given) {
        (Config::Join { .. }, _, _) => given,
        (Config::Fp, Terms::Prio(0), _) => given,
        (Config::Edf, Terms::Res { hard, x, y }, Guarantee::All) => Guarantee::Resb { hard, x, y },
        (Config::Wheel { frame }, Terms::Slots(places), Guarantee::All) => Guarantee::Resc {
            hard: true,
            x: places,
            y: frame,
        },
        _ => Guarantee::Null,
    }
}

/// Checks that each seat has its promise, where the box is given this.
fn check_seats(
    book: &Book,
    config: &Config,
    given: Guarantee,
    rt: &impl Abort,
    alloc: Global,
) -> Result<(), AllocError> {
    let rows = rows_of(book, alloc)?;
    for slot in 0..32 {
        if let Tenant::Sits { terms, since } = tenant_at(book, slot) {
            let moments = got(rows_since(&rows, book, since), slot, alloc)?;
            let promised = lent(config, &terms, given);
            assert!(rt;
                satisfy(&moments, &promised, rt, alloc)?,
                "slot {slot}: {promised:?}"
            );
        }
    }
    Ok(())
}

/// Checks each promise whose premise a port meets.
fn check_port(
    book: &Book,
    config: &Config,
    moments: &[Moment],
    rt: &impl Abort,
    alloc: Global,
) -> Result<(), AllocError> {
    for given in premises(rt) {
        if satisfy(moments, &given, rt, alloc)? {
            check_seats(book, config, given, rt, alloc)?;
        }
    }
    Ok(())
}

/// Checks the promises of each port, from the last settling on, where this was done in all ticks.
fn check_ports(
    book: &Book,
    config: &Config,
    settled: u32,
    ticks: &[Done],
    rt: &impl Abort,
    alloc: Global,
) -> Result<(), AllocError> {
    let ticks = &ticks[place_of(book, settled).min(ticks.len())..];
    for port in 0..4 {
        let moments = given(ticks, port, alloc)?;
        check_port(book, config, &moments, rt, alloc)?;
    }
    Ok(())
}

fn count_served(rows: &[TickRow], slot: u32) -> u32 {
    let mut served: u32 = 0;
    for row in rows {
        served = served.saturating_add(u32::from(serves(row, slot)));
    }
    served
}

/// Checks that a slot has no more of any frame than its places.
fn check_frames(rows: &[TickRow], slot: u32, frame: u32, places: u32, rt: &impl Abort) {
    for from in 0..rows.len() {
        let to = from.saturating_add(frame as usize).min(rows.len());
        assert!(rt;
            count_served(&rows[from..to], slot) <= places,
            "slot {slot}"
        );
    }
}

/// Checks that no seat of a frame has more than its places, ready or not.
fn check_caps(
    book: &Book,
    config: &Config,
    rt: &impl Abort,
    alloc: Global,
) -> Result<(), AllocError> {
    let rows = rows_of(book, alloc)?;
    for slot in 0..32 {
        if let (
            Config::Wheel { frame },
            Tenant::Sits {
                terms: Terms::Slots(places),
                since,
            },
        ) = (*config, tenant_at(book, slot))
        {
            check_frames(rows_since(&rows, book, since), slot, frame, places, rt);
        }
    }
    Ok(())
}

/// Whether a step may end a stay, or what was given throughout.
fn may_end(step: Step) -> bool {
    matches!(step, Step::Leave(_) | Step::Settle | Step::Tick(None))
}

/// Sets a box up, and takes the steps of a list.
fn play(
    scheduler: &mut dyn Scheduler,
    config: &Config,
    series: &mut Series,
    rt: &impl Abort,
    alloc: Global,
) -> Result<(), AllocError>
    requires blank { IsBlank (kind_of config.now) (seen scheduler.old) }
    requires ranges { ConfigInRange config.now }
{
    let start = series.below(1000);
    scheduler.setup(config, start, start + CALLS, CALLS)?;
    let giving = draw_giving(config, series);
    let mut settled = start;
    let mut ticks: Vec<Done> = Vec::new(alloc);
    let mut known = Known {
        mask: 0,
        ticks: CALLS,
        marks: 2 * CALLS,
    };
    for _step in 0..CALLS {
        let step = draw_step(scheduler.book(), config, known.mask, giving, series);
        if may_end(step) {
            check_ports(scheduler.book(), config, settled, &ticks, rt, alloc)?;
            check_caps(scheduler.book(), config, rt, alloc)?;
        }
        match step {
            Step::Settle => settled = scheduler.book().now(),
            Step::Tick(port) => {
                let asked = scheduler.asks();
                ticks.push(Done { asked, port })?;
            }
            _ => {}
        }
        known = take(scheduler, config, known, step, rt);
    }
    compare(scheduler, config, known.mask, rt);
    check_caps(scheduler.book(), config, rt, alloc)?;
    check_ports(scheduler.book(), config, settled, &ticks, rt, alloc)
}

#[test]
fn keeps_priorities_in_drawn_calls(rt: HostRuntime) -> Result<(), Fail> {
    let mut series = Series { state: 7 };
    for _list in 0..LISTS {
        let mut fp = Fp::blank(rt.alloc());
        play(&mut fp, &Config::Fp, &mut series, &rt, rt.alloc())?;
    }
    Ok(())
}

#[test]
fn keeps_reservations_in_drawn_calls(rt: HostRuntime) -> Result<(), Fail> {
    let mut series = Series { state: 7 };
    for _list in 0..LISTS / 3 {
        let mut edf = Edf::blank(rt.alloc());
        play(&mut edf, &Config::Edf, &mut series, &rt, rt.alloc())?;
    }
    Ok(())
}

#[test]
fn keeps_tags_in_drawn_calls(rt: HostRuntime) -> Result<(), Fail> {
    let mut series = Series { state: 7 };
    for _list in 0..LISTS {
        let total = 1 + series.below(10);
        let most = 1 + series.below(4);
        let quantum = 1 + series.below(4);
        let config = fair_turns(total, most, quantum);
        let mut sfq = Sfq::blank(rt.alloc());
        play(&mut sfq, &config, &mut series, &rt, rt.alloc())?;
    }
    Ok(())
}

#[test]
fn takes_turns_in_drawn_calls(rt: HostRuntime) -> Result<(), Fail> {
    let mut series = Series { state: 7 };
    for _list in 0..LISTS {
        let quantum = 1 + series.below(5);
        let mut rr = Rr::blank(rt.alloc());
        play(
            &mut rr,
            &Config::Rr { quantum },
            &mut series,
            &rt,
            rt.alloc(),
        )?;
    }
    Ok(())
}

#[test]
fn keeps_frames_in_drawn_calls(rt: HostRuntime) -> Result<(), Fail> {
    let mut series = Series { state: 7 };
    for _list in 0..LISTS {
        let frame = 1 + series.below(10);
        let mut wheel = Wheel::blank(rt.alloc());
        play(
            &mut wheel,
            &Config::Wheel { frame },
            &mut series,
            &rt,
            rt.alloc(),
        )?;
    }
    Ok(())
}

#[test]
fn passes_soft_guarantees_on_in_drawn_calls(rt: HostRuntime) -> Result<(), Fail> {
    let mut series = Series { state: 7 };
    for _list in 0..LISTS {
        let ports = 2 + series.below(3) as u8;
        let mut join = Join::blank(rt.alloc());
        play(
            &mut join,
            &Config::Join { ports },
            &mut series,
            &rt,
            rt.alloc(),
        )?;
    }
    Ok(())
}
