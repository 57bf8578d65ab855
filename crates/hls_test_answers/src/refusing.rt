// Why a command is refused.
use crate::asked::{new_name, old_name, perch_at, perch_count};
use crate::boxes::{BoxCount, boxes_after};
use crate::ranges::config_in_range;
use crate::reach::{Counted, counts, is_within, most_to};
use crate::seating::{fault_of, seats_taken};
use crate::{Hierarchy, Seat};
use hls_chron::{Config, Kind, LEVELS, Name, SHARES, Terms};
use hls_kinds::SeatFault;
use hls_report_text::{Answered, Refusal};
use hls_scenario::{Command, Perch, Spot};
use std::alloc::{AllocError, Global};

/// How many schedulers and threads there can be.
const MOST_NODES: u32 = 64;

const MOST_THREADS: u32 = 256;

/// The hierarchy as it stands, the commands so far with their answers, and how many boxes of each kind there were
/// at first.
#[derive(Clone, Copy)]
pub struct Moment<'a> {
    pub hierarchy: &'a Hierarchy,
    pub before: &'a [Answered],
    pub boxes: u32,
}

/// The refusal of least number that applies to a command, unless a derivation is wanting.
///
/// # Errors
///
/// Want of memory.
pub fn refusal_of(
    alloc: Global,
    moment: &Moment<'_>,
    command: &Command,
) -> Result<Option<Refusal>, AllocError> {
    for number in 10..24 {
        if let Some(refusal) = refusal_by(alloc, moment, command, number)? {
            return Ok(Some(refusal));
        }
    }
    Ok(None)
}

/// The refusal of a number: of the command as a whole, or else at its first place that has it.
fn refusal_by(
    alloc: Global,
    moment: &Moment<'_>,
    command: &Command,
    number: u32,
) -> Result<Option<Refusal>, AllocError> {
    match refusal_of_whole(alloc, moment, command, number)? {
        Some(refusal) => Ok(Some(refusal)),
        None => Ok(refusal_at_places(moment.hierarchy, command, number)),
    }
}

fn refusal_of_whole(
    alloc: Global,
    moment: &Moment<'_>,
    command: &Command,
    number: u32,
) -> Result<Option<Refusal>, AllocError> {
    let hierarchy = moment.hierarchy;
    match number {
        10 => Ok(name_taken(hierarchy, command)),
        11 => Ok(name_unknown(hierarchy, command)),
        12 => Ok(wrong_sort(hierarchy, command)),
        13 => Ok(too_many_nodes(hierarchy, command)),
        14 => Ok(too_many_threads(hierarchy, command)),
        15 => Ok(not_empty(hierarchy, command)),
        19 => Ok(cycle(hierarchy, command)),
        20 => too_deep(alloc, hierarchy, command),
        21 => too_many_shares(alloc, hierarchy, command),
        22 => Ok(kit_empty(moment, command)),
        _ => Ok(None),
    }
}

fn name_taken(hierarchy: &Hierarchy, command: &Command) -> Option<Refusal> {
    let name = new_name(command)?;
    if hierarchy.has(&name) {
        Some(Refusal::NameTaken { name })
    } else {
        None
    }
}

fn name_unknown(hierarchy: &Hierarchy, command: &Command) -> Option<Refusal> {
    let name = old_name(command)?;
    if hierarchy.has(&name) {
        None
    } else {
        Some(Refusal::NoSuchName { name })
    }
}

fn is_join(hierarchy: &Hierarchy, name: &Name) -> bool {
    match hierarchy.scheduler(name) {
        Some(sched) => sched.config.kind() == Kind::Join,
        None => false,
    }
}

fn wrong_sort(hierarchy: &Hierarchy, command: &Command) -> Option<Refusal> {
    let (name, is_wrong) = match command {
        Command::End { name } | Command::Wake { name, .. } | Command::Block { name } => {
            (*name, hierarchy.scheduler(name).is_some())
        }
        Command::Unload { name } => (*name, hierarchy.has_thread(name)),
        Command::Move { name, .. } => (*name, is_join(hierarchy, name)),
        _ => return None,
    };
    if is_wrong {
        Some(Refusal::WrongSort { name: Some(name) })
    } else {
        None
    }
}

fn too_many_nodes(hierarchy: &Hierarchy, command: &Command) -> Option<Refusal> {
    match command {
        Command::Load { .. } if hierarchy.schedulers.len() >= MOST_NODES as usize => {
            Some(Refusal::TooManyNodes { most: MOST_NODES })
        }
        _ => None,
    }
}

fn too_many_threads(hierarchy: &Hierarchy, command: &Command) -> Option<Refusal> {
    match command {
        Command::Thread { .. } if hierarchy.threads.len() >= MOST_THREADS as usize => {
            Some(Refusal::TooManyThreads { most: MOST_THREADS })
        }
        _ => None,
    }
}

fn not_empty(hierarchy: &Hierarchy, command: &Command) -> Option<Refusal> {
    let Command::Unload { name } = command else {
        return None;
    };
    let seats = seats_taken(&hierarchy.scheduler(name)?.book);
    if seats == 0 {
        None
    } else {
        Some(Refusal::NotEmpty { name: *name, seats })
    }
}

fn cycle(hierarchy: &Hierarchy, command: &Command) -> Option<Refusal> {
    let Command::Move { name, perch } = command else {
        return None;
    };
    let Spot::Under { sched, .. } = perch.spot else {
        return None;
    };
    let steps = hierarchy.schedulers.len();
    if hierarchy.scheduler(name).is_some() && is_within(&hierarchy.seats, steps, name, &sched) {
        Some(Refusal::Cycle { name: sched })
    } else {
        None
    }
}

/// The most that the schedulers would count on a path, were the command done.
fn most_after(
    alloc: Global,
    hierarchy: &Hierarchy,
    counted: Counted,
    command: &Command,
) -> Result<u32, AllocError> {
    match command {
        Command::Load {
            config,
            perches,
            ..
        } => Ok(most_with_new(hierarchy, counted, config, perches.items())),
        Command::Move { name, perch } => {
            let seats = moved_seats(alloc, &hierarchy.seats, name, perch)?;
            Ok(most_of_all(hierarchy, &seats, counted))
        }
        _ => Ok(0),
    }
}

/// The most on a path down to a new scheduler.
fn most_with_new(
    hierarchy: &Hierarchy,
    counted: Counted,
    config: &Config,
    perches: &[Perch],
) -> u32 {
    let mut most = 0;
    for perch in perches {
        if let Spot::Under { sched, .. } = perch.spot {
            let steps = hierarchy.schedulers.len();
            most = most.max(most_to(hierarchy, &hierarchy.seats, counted, steps, &sched));
        }
    }
    counts(counted, config).saturating_add(most)
}

/// The scheduler of a place, `None` for the processor.
fn sched_of(spot: &Spot) -> Option<Name> {
    match spot {
        Spot::Cpu => None,
        Spot::Under { sched, .. } => Some(*sched),
    }
}

/// A seat, on another scheduler where it is the mover's.
fn moved_seat(seat: &Seat, mover: &Name, sched: Option<Name>) -> Seat {
    if seat.child == *mover {
        Seat { sched, ..*seat }
    } else {
        *seat
    }
}

/// The seats with a mover at its new place.
fn moved_seats(
    alloc: Global,
    seats: &[Seat],
    name: &Name,
    perch: &Perch,
) -> Result<Vec<Seat>, AllocError> {
    let mut moved = Vec::new(alloc);
    for seat in seats {
        moved.push(moved_seat(seat, name, sched_of(&perch.spot)))?;
    }
    Ok(moved)
}

/// The most on a path down to any scheduler, with these seats.
fn most_of_all(hierarchy: &Hierarchy, seats: &[Seat], counted: Counted) -> u32 {
    let mut most = 0;
    for sched in hierarchy.schedulers.iter() {
        let steps = hierarchy.schedulers.len();
        most = most.max(most_to(hierarchy, seats, counted, steps, &sched.name));
    }
    most
}

fn too_deep(
    alloc: Global,
    hierarchy: &Hierarchy,
    command: &Command,
) -> Result<Option<Refusal>, AllocError> {
    let level = most_after(alloc, hierarchy, Counted::All, command)?;
    if level > LEVELS {
        Ok(Some(Refusal::TooDeep { level }))
    } else {
        Ok(None)
    }
}

fn too_many_shares(
    alloc: Global,
    hierarchy: &Hierarchy,
    command: &Command,
) -> Result<Option<Refusal>, AllocError> {
    let count = most_after(alloc, hierarchy, Counted::Shares, command)?;
    if count > SHARES {
        Ok(Some(Refusal::TooManyShares { count }))
    } else {
        Ok(None)
    }
}

fn kit_empty(moment: &Moment<'_>, command: &Command) -> Option<Refusal> {
    let Command::Load { config, .. } = command else {
        return None;
    };
    let full = BoxCount {
        left: moment.boxes,
        used: 0,
    };
    let kind = config.kind();
    let BoxCount { left, used } = boxes_after(full, kind, moment.before);
    if left == 0 {
        Some(Refusal::KitEmpty { kind, used })
    } else {
        None
    }
}

fn refusal_at_places(hierarchy: &Hierarchy, command: &Command, number: u32) -> Option<Refusal> {
    for port in 0..perch_count(command) {
        if let Some(perch) = perch_at(command, port) {
            let refusal = refusal_at(hierarchy, command, &perch.spot, number);
            if refusal.is_some() {
                return refusal;
            }
        }
    }
    None
}

fn refusal_at(
    hierarchy: &Hierarchy,
    command: &Command,
    spot: &Spot,
    number: u32,
) -> Option<Refusal> {
    match spot {
        Spot::Cpu => refusal_at_processor(hierarchy, command, number),
        Spot::Under { sched, terms } => refusal_under(hierarchy, sched, terms, number),
    }
}

/// Whether a command places a thread.
fn places_thread(hierarchy: &Hierarchy, command: &Command) -> bool {
    match command {
        Command::Thread { .. } => true,
        Command::Move { name, .. } => hierarchy.has_thread(name),
        _ => false,
    }
}

fn refusal_at_processor(hierarchy: &Hierarchy, command: &Command, number: u32) -> Option<Refusal> {
    match number {
        12 if places_thread(hierarchy, command) => Some(Refusal::WrongSort { name: None }),
        18 if hierarchy.has_root() => Some(Refusal::SeatsFull {
            name: None,
            seats: 1,
        }),
        _ => None,
    }
}

fn refusal_under(
    hierarchy: &Hierarchy,
    name: &Name,
    terms: &Terms,
    number: u32,
) -> Option<Refusal> {
    match number {
        11 if !hierarchy.has(name) => Some(Refusal::NoSuchName { name: *name }),
        12 if hierarchy.has_thread(name) => Some(Refusal::WrongSort { name: Some(*name) }),
        _ => fault_under(hierarchy, name, terms, number),
    }
}

fn fault_under(hierarchy: &Hierarchy, name: &Name, terms: &Terms, number: u32) -> Option<Refusal> {
    let sched = hierarchy.scheduler(name)?;
    if !config_in_range(&sched.config) {
        return None;
    }
    match fault_of(number, &sched.book, &sched.config, terms)? {
        SeatFault::Unfit => Some(Refusal::TermsUnfit { name: *name }),
        SeatFault::PriorityTaken { priority } => Some(Refusal::PriorityTaken { priority }),
        SeatFault::Full { seats } => Some(Refusal::SeatsFull {
            name: Some(*name),
            seats,
        }),
        SeatFault::NoRoom { free, asked } => Some(Refusal::NoRoom { free, asked }),
    }
}
