// What commands do.
use crate::reach::is_within;
use crate::seating::free_slot;
use crate::{Hierarchy, Scheduler, Seat};
use hls_chron::{Book, Config, Event, Name, Terms};
use hls_scenario::{Command, Perch, Spot};
use std::alloc::{AllocError, Global};

/// Does a command of a tick, which nothing refuses. Wakes and blocks change nothing here.
///
/// # Errors
///
/// Want of memory, and then only a part may be done.
pub fn carry_out(
    alloc: Global,
    hierarchy: &mut Hierarchy,
    tick: u32,
    command: &Command,
) -> Result<(), AllocError> {
    match command {
        Command::Load {
            name,
            config,
            perches,
        } => load(alloc, hierarchy, tick, name, config, perches.items()),
        Command::Thread { name, perch } => {
            hierarchy.threads.push(*name)?;
            take(hierarchy, name, 0, perch)
        }
        Command::End { name } => {
            hierarchy.threads.retain(|thread| thread != name);
            leave(hierarchy, name)
        }
        Command::Unload { name } => {
            hierarchy.schedulers.retain(|sched| sched.name != *name);
            leave(hierarchy, name)
        }
        Command::Move { name, perch } => {
            leave(hierarchy, name)?;
            take(hierarchy, name, 0, perch)?;
            settle(hierarchy, name)
        }
        Command::Wake { .. } | Command::Block { .. } => Ok(()),
    }
}

fn load(
    alloc: Global,
    hierarchy: &mut Hierarchy,
    tick: u32,
    name: &Name,
    config: &Config,
    perches: &[Perch],
) -> Result<(), AllocError> {
    for (port, perch) in perches.iter().enumerate() {
        take(hierarchy, name, (port % 256) as u8, perch)?;
    }
    hierarchy.schedulers.push(Scheduler {
        name: *name,
        config: *config,
        book: Book::new(alloc, tick),
    })?;
    Ok(())
}

/// Notes an event of the present tick.
fn note(book: &mut Book, event: Event) -> Result<(), AllocError> {
    book.now();
    book.reserve(0, 1)?;
    book.push_mark(event);
    Ok(())
}

/// Takes the seat that is asked for, in the least slot that is neither taken nor held.
fn take(
    hierarchy: &mut Hierarchy,
    child: &Name,
    port: u8,
    perch: &Perch,
) -> Result<(), AllocError> {
    let (sched, slot, terms) = match perch.spot {
        Spot::Cpu => (None, 0, Terms::Cpu),
        Spot::Under { sched, terms } => (Some(sched), take_slot(hierarchy, &sched, &terms)?, terms),
    };
    hierarchy.seats.push(Seat {
        child: *child,
        port,
        sched,
        slot,
        terms,
        kept: perch.want,
    })?;
    Ok(())
}

/// Takes a slot of a scheduler.
fn take_slot(hierarchy: &mut Hierarchy, name: &Name, terms: &Terms) -> Result<u8, AllocError> {
    for sched in hierarchy.schedulers.iter_mut() {
        if sched.name == *name {
            let slot = (free_slot(&sched.book, &sched.config).unwrap_or(0) % 256) as u8;
            note(
                &mut sched.book,
                Event::Seat {
                    slot,
                    terms: *terms,
                },
            )?;
            return Ok(slot);
        }
    }
    Ok(0)
}

/// Leaves the seats that somebody has.
fn leave(hierarchy: &mut Hierarchy, child: &Name) -> Result<(), AllocError> {
    for sched in hierarchy.schedulers.iter_mut() {
        note_leaving(sched, &hierarchy.seats, child)?;
    }
    hierarchy.seats.retain(|seat| seat.child != *child);
    Ok(())
}

/// Notes that somebody leaves the seats of a scheduler.
fn note_leaving(sched: &mut Scheduler, seats: &[Seat], child: &Name) -> Result<(), AllocError> {
    for seat in seats {
        if seat.child == *child && seat.sched == Some(sched.name) {
            note(&mut sched.book, Event::Leave { slot: seat.slot })?;
        }
    }
    Ok(())
}

/// Settles a scheduler and all that are below it.
fn settle(hierarchy: &mut Hierarchy, above: &Name) -> Result<(), AllocError> {
    let steps = hierarchy.schedulers.len();
    for sched in hierarchy.schedulers.iter_mut() {
        if is_within(&hierarchy.seats, steps, above, &sched.name) {
            note(&mut sched.book, Event::Settle)?;
        }
    }
    Ok(())
}
