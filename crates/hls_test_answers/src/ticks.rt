// The ticks between commands, by the runs of a report.
use crate::ranges::config_in_range;
use crate::{Hierarchy, Scheduler};
use hls_chron::{Book, Name, SLOTS, TickRow};
use hls_kinds_lookup::asks_at;
use hls_report_text::{Path, Report};
use hls_test_accounts::is_ready;
use std::alloc::{AllocError, Global};

/// The path of a tick.
pub fn path_at(report: &Report, tick: u32) -> Option<Path> {
    for run in report.runs.items() {
        if run.from <= tick && tick <= run.to {
            return run.path;
        }
    }
    None
}

/// The name at a place of a path, the root's being at 0.
pub fn name_at(report: &Report, path: &Path, place: usize) -> Option<Name> {
    if place >= usize::from(path.len) {
        return None;
    }
    let at = path.names.get(place)?;
    report.names.items().get(usize::from(*at)).copied()
}

/// Which slots of a scheduler ask in a tick, a bit each, as far as so many steps down tell.
#[cycle(asking)]
pub fn mask_of(
    hierarchy: &Hierarchy,
    report: &Report,
    tick: u32,
    steps: usize,
    sched: &Name,
) -> u32 {
    let mut mask = 0;
    if steps == 0 {
        return mask;
    }
    for seat in hierarchy.seats.iter() {
        if seat.sched == Some(*sched) && u32::from(seat.slot) < SLOTS {
            if asks(hierarchy, report, tick, steps - 1, &seat.child) {
                mask |= 1 << seat.slot;
            }
        }
    }
    mask
}

/// Whether a scheduler or a thread asks in a tick.
#[cycle(asking)]
pub fn asks(hierarchy: &Hierarchy, report: &Report, tick: u32, steps: usize, name: &Name) -> bool {
    match hierarchy.scheduler(name) {
        Some(sched) => {
            let mask = mask_of(hierarchy, report, tick, steps, name);
            config_in_range(&sched.config)
                && sched.book.now() < u32::MAX
                && asks_at(&sched.book, &sched.config, mask)
        }
        None => hierarchy.has_thread(name) && is_ready(report, name, tick),
    }
}

/// The slot of a scheduler, and the port of its child, that are on the way from the one to the other.
fn hop(hierarchy: &Hierarchy, sched: Option<Name>, child: &Name) -> Option<(u8, u8)> {
    for seat in hierarchy.seats.iter() {
        if seat.sched == sched && seat.child == *child {
            return Some((seat.slot, seat.port));
        }
    }
    None
}

/// The slot that a scheduler on a path serves, and the port through which it is granted.
fn served_on(hierarchy: &Hierarchy, report: &Report, path: &Path, name: &Name) -> Option<(u8, u8)> {
    let mut above = None;
    for place in 0..8 {
        let here = name_at(report, path, place)?;
        if here == *name {
            let next = name_at(report, path, place + 1)?;
            let (_, port) = hop(hierarchy, above, name)?;
            let (slot, _) = hop(hierarchy, Some(here), &next)?;
            return Some((slot, port));
        }
        above = Some(here);
    }
    None
}

/// The row of a tick in the book of a scheduler.
fn row_of(hierarchy: &Hierarchy, report: &Report, tick: u32, sched: &Scheduler) -> TickRow {
    let steps = hierarchy.schedulers.len();
    let mask = mask_of(hierarchy, report, tick, steps, &sched.name);
    let served = match path_at(report, tick) {
        Some(path) => served_on(hierarchy, report, &path, &sched.name),
        None => None,
    };
    match served {
        Some((slot, port)) => TickRow {
            mask,
            to: Some(slot),
            port,
        },
        None => TickRow {
            mask,
            to: None,
            port: 0,
        },
    }
}

/// The rows of a tick, for each scheduler.
fn rows_of(
    alloc: Global,
    hierarchy: &Hierarchy,
    report: &Report,
    tick: u32,
) -> Result<Vec<TickRow>, AllocError> {
    let mut rows = Vec::new(alloc);
    for sched in hierarchy.schedulers.iter() {
        rows.push(row_of(hierarchy, report, tick, sched))?;
    }
    Ok(rows)
}

/// Writes a row behind the others, in a book that is not at the last tick of all.
fn put_row(book: &mut Book, row: TickRow) -> Result<(), AllocError> {
    if book.now() < u32::MAX {
        book.reserve(1, 0)?;
        book.push_tick(row);
    }
    Ok(())
}

/// Passes a tick: each book gets its row.
///
/// # Errors
///
/// Want of memory, and then only some may have theirs.
pub fn pass(
    alloc: Global,
    hierarchy: &mut Hierarchy,
    report: &Report,
    tick: u32,
) -> Result<(), AllocError> {
    let rows = rows_of(alloc, hierarchy, report, tick)?;
    for (sched, row) in hierarchy.schedulers.iter_mut().zip(rows.iter()) {
        put_row(&mut sched.book, *row)?;
    }
    Ok(())
}
