// Boxes taken through lists of steps, each against the definitions as plain functions of the book.
ghost use Rattle.std.specs.Prelude.{◌≡◌, ◌≢◌, ◌+◌, ◌^◌, ◌<◌, ◌≤◌, None, true, false};
ghost use Rattle.hls_chron.specs.Kinds.{kind_of, by_shares};
ghost use Rattle.hls_chron.specs.Ranges.{ConfigInRange, TermsInRange};
ghost use Rattle.hls_chron.specs.Seats.{SlotAsks, terms_at as seated_at};
ghost use Rattle.hls_sched.specs.Seen.{IsBlank, IsConfigured, seated};

use hls_chron::{Book, Config, RunRow, Sharing, Terms, TickRow};
use hls_kinds::terms_at;
use hls_kinds_lookup::{asks_at, discipline_choice, occupant, room_used};
use hls_sched::{Scheduler, SeatFault};
use std::alloc::{AllocError, Global};
use std::process::Abort;

const HORIZON: u32 = 1000;

const COMMANDS: u32 = 1000;

/// What is done to a box.
#[derive(Clone, Copy, Debug, PartialEq, Eq)]
pub enum Step {
    /// A seat is taken on terms, at this slot.
    Seat(Terms, u32),
    /// Terms are refused.
    Refuse(Terms, SeatFault),
    Leave(u32),
    Request(u32),
    Release(u32),
    Settle,
    /// A tick passes, granted through a port where the box asks.
    Tick(Option<u8>),
}

pub fn is_asking(mask: u32, slot: u32) -> bool
    requires { slot < 32 }
    ensures asking { result ≡ true → SlotAsks mask slot }
    ensures silent { result ≢ true → ¬ SlotAsks mask slot }
{
    (mask >> slot) & 1 == 1
}

/// The bit of a slot.
fn bit(slot: u32) -> u32
    requires { slot < 32 }
    ensures { result ≡ 2 ^ slot }
{
    1 << slot
}

/// What is known of a box: the slots that ask, and the room that is left in its book.
#[derive(Clone, Copy, Debug)]
pub struct Known {
    pub mask: u32,
    pub ticks: u32,
    pub marks: u32,
}

/// Fair queueing in turns of so many ticks.
pub fn fair_turns(total: u32, most: u32, quantum: u32) -> Config
    ensures { result ≡ by_shares (record { total = total; most = most; quantum = quantum }) }
{
    Sharing {
        total,
        most,
        quantum,
    }
    .config()
}

/// The least free slot, by the definition.
pub fn free_in(book: &Book, config: &Config) -> Option<u32> {
    for slot in 0..config.most_seats() {
        if occupant(book, config, slot).is_none() {
            return Some(slot);
        }
    }
    None
}

/// Compares the answers of a box with the definitions.
pub fn compare(scheduler: &dyn Scheduler, config: &Config, mask: u32, rt: &impl Abort)
    requires configured { IsConfigured (seen scheduler.now) }
    requires ranges { ConfigInRange config.now }
{
    let book = scheduler.book();
    assert!(rt; book.now() < 1_000_000);
    assert_eq!(rt; scheduler.choice(), discipline_choice(book, config, mask));
    assert_eq!(rt; scheduler.asks(), asks_at(book, config, mask));
    assert_eq!(rt; scheduler.parts_used(), room_used(book, config));
    assert_eq!(rt; scheduler.free_slot(), free_in(book, config));
}

/// Lets a tick pass, granted through a port where the scheduler asks.
fn pass_tick(scheduler: &mut dyn Scheduler, port: Option<u8>)
    requires configured { IsConfigured (seen scheduler.old) }
    requires ungranted { (seen scheduler.old).grant ≡ None }
    requires room { 0 < (seen scheduler.old).book.spare_ticks }
    ensures configured { IsConfigured (seen scheduler.new) }
    ensures ungranted { (seen scheduler.new).grant ≡ None }
    ensures mask { (seen scheduler.new).mask ≡ (seen scheduler.old).mask }
    ensures ticks { (seen scheduler.old).book.spare_ticks ≡ (seen scheduler.new).book.spare_ticks + 1 }
    ensures marks { (seen scheduler.new).book.spare_marks ≡ (seen scheduler.old).book.spare_marks }
{
    match port {
        Some(port) if scheduler.asks() => {
            scheduler.grant(port);
            scheduler.turn();
            scheduler.revoke();
        }
        _ => scheduler.turn(),
    }
}

/// Checks that terms are in their ranges.
fn check_terms(terms: &Terms, rt: &impl Abort)
    ensures { TermsInRange terms.now }
{
    match *terms {
        Terms::Prio(priority) => assert!(rt; priority <= 31),
        Terms::Res { x, y, .. } => assert!(rt; 1 <= x && x <= y && y <= 10_000),
        Terms::Weight(weight) => assert!(rt; 1 <= weight && weight <= 20),
        Terms::Slots(places) => assert!(rt; 1 <= places && places <= 1000),
        _ => {}
    }
}

/// Takes a seat, which has to be at a slot.
fn take_seat(scheduler: &mut dyn Scheduler, terms: &Terms, slot: u32, rt: &impl Abort)
    requires configured { IsConfigured (seen scheduler.old) }
    requires room { 0 < (seen scheduler.old).book.spare_marks }
    ensures { seen scheduler.new ≡ seated slot terms.now (seen scheduler.old) }
{
    check_terms(terms, rt);
    assert!(rt; scheduler.fits(terms).is_none());
    assert_eq!(rt; scheduler.free_slot(), Some(slot));
    scheduler.seat(slot, terms);
}

fn check_refusal(scheduler: &dyn Scheduler, terms: &Terms, fault: SeatFault, rt: &impl Abort)
    requires { IsConfigured (seen scheduler.now) }
{
    check_terms(terms, rt);
    assert_eq!(rt; scheduler.fits(terms), Some(fault));
}

/// Checks that a slot is taken, and whether it asks.
fn check_slot(book: &Book, mask: u32, slot: u32, asks: bool, rt: &impl Abort)
    ensures within { slot < 32 }
    ensures taken { seated_at book.now slot ≢ None }
    ensures asking { asks ≡ true → SlotAsks mask slot }
    ensures silent { asks ≡ false → ¬ SlotAsks mask slot }
{
    assert!(rt; slot < 32);
    assert!(rt; terms_at(book, slot).is_some());
    assert!(rt; is_asking(mask, slot) == asks);
}

/// Takes a step, and compares the answers of the box before it with the definitions.
pub fn take(
    scheduler: &mut dyn Scheduler,
    config: &Config,
    known: Known,
    step: Step,
    rt: &impl Abort,
) -> Known
    requires configured { IsConfigured (seen scheduler.old) }
    requires ranges { ConfigInRange config.now }
    requires ungranted { (seen scheduler.old).grant ≡ None }
    requires mask { (seen scheduler.old).mask ≡ known.mask }
    requires ticks { known.ticks ≤ (seen scheduler.old).book.spare_ticks }
    requires marks { known.marks ≤ (seen scheduler.old).book.spare_marks }
    ensures configured { IsConfigured (seen scheduler.new) }
    ensures ungranted { (seen scheduler.new).grant ≡ None }
    ensures mask { (seen scheduler.new).mask ≡ result.mask }
    ensures ticks { result.ticks ≤ (seen scheduler.new).book.spare_ticks }
    ensures marks { result.marks ≤ (seen scheduler.new).book.spare_marks }
{
    let Known { mask, ticks, marks } = known;
    assert!(rt; ticks > 0 && marks > 0);
    compare(scheduler, config, mask, rt);
    match step {
        Step::Seat(terms, slot) => {
            take_seat(scheduler, &terms, slot, rt);
            Known {
                mask,
                ticks,
                marks: marks - 1,
            }
        }
        Step::Refuse(terms, fault) => {
            check_refusal(scheduler, &terms, fault, rt);
            known
        }
        Step::Leave(slot) => {
            check_slot(
                scheduler.book(),
                mask,
                slot,
                slot < 32 && is_asking(mask, slot),
                rt,
            );
            scheduler.leave(slot);
            Known {
                mask: mask & !bit(slot),
                ticks,
                marks: marks - 1,
            }
        }
        Step::Request(slot) => {
            check_slot(scheduler.book(), mask, slot, false, rt);
            scheduler.request(slot);
            Known {
                mask: mask | bit(slot),
                ticks,
                marks,
            }
        }
        Step::Release(slot) => {
            check_slot(scheduler.book(), mask, slot, true, rt);
            scheduler.release(slot);
            Known {
                mask: mask & !bit(slot),
                ticks,
                marks,
            }
        }
        Step::Settle => {
            scheduler.settle();
            Known {
                mask,
                ticks,
                marks: marks - 1,
            }
        }
        Step::Tick(port) => {
            pass_tick(scheduler, port);
            Known {
                mask,
                ticks: ticks - 1,
                marks,
            }
        }
    }
}

/// Sets a box up, and takes steps.
pub fn take_all(
    scheduler: &mut dyn Scheduler,
    config: &Config,
    steps: &[Step],
    rt: &impl Abort,
) -> Result<(), AllocError>
    requires blank { IsBlank (kind_of config.now) (seen scheduler.old) }
    requires ranges { ConfigInRange config.now }
{
    scheduler.setup(config, 0, HORIZON, COMMANDS)?;
    let mut known = Known {
        mask: 0,
        ticks: HORIZON,
        marks: 2 * COMMANDS,
    };
    for step in steps {
        known = take(scheduler, config, known, *step, rt);
    }
    compare(scheduler, config, known.mask, rt);
    Ok(())
}

/// The rows of a book, one for each tick.
pub fn rows_of(book: &Book, alloc: Global) -> Result<Vec<TickRow>, AllocError> {
    let mut rows: Vec<TickRow> = Vec::new(alloc);
    for run in book.runs() {
        append_each(&mut rows, run)?;
    }
    Ok(rows)
}

fn append_each(rows: &mut Vec<TickRow>, run: &RunRow) -> Result<(), AllocError> {
    for _tick in 0..run.count {
        rows.push(run.row)?;
    }
    Ok(())
}

/// Checks which slot each tick served.
pub fn check_served(rows: &[TickRow], served: &[Option<u8>], rt: &impl Abort) {
    assert_eq!(rt; rows.len(), served.len());
    for (row, slot) in rows.iter().zip(served) {
        assert_eq!(rt; row.to, *slot);
    }
}
