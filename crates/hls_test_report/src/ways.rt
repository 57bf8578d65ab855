// The paths of a report beside those of the schedulers' disciplines.
use hls_chron::Name;
use hls_kinds_lookup::discipline_choice;
use hls_report_text::{Answer, Path, Report};
use hls_test_answers::{
    Hierarchy, asks, carry_out, config_in_range, mask_of, name_at, pass, path_at,
};
use std::alloc::{AllocError, Global};

/// The root scheduler.
fn root_of(hierarchy: &Hierarchy) -> Option<Name> {
    for seat in hierarchy.seats.iter() {
        if seat.sched.is_none() {
            return Some(seat.child);
        }
    }
    None
}

/// Who sits on a slot of a scheduler.
fn sitter(hierarchy: &Hierarchy, sched: &Name, slot: u32) -> Option<Name> {
    for seat in hierarchy.seats.iter() {
        if seat.sched == Some(*sched) && u32::from(seat.slot) == slot {
            return Some(seat.child);
        }
    }
    None
}

/// Whom a scheduler serves in a tick where it is granted.
fn served_by(hierarchy: &Hierarchy, report: &Report, tick: u32, name: &Name) -> Option<Name> {
    let sched = hierarchy.scheduler(name)?;
    if !config_in_range(&sched.config) || sched.book.now() == u32::MAX {
        return None;
    }
    let mask = mask_of(hierarchy, report, tick, hierarchy.schedulers.len(), name);
    let slot = discipline_choice(&sched.book, &sched.config, mask)?;
    sitter(hierarchy, name, slot)
}

/// Whether a path is that of the choices from the root down to a thread.
fn is_chosen(hierarchy: &Hierarchy, report: &Report, tick: u32, root: &Name, path: &Path) -> bool {
    let mut here = *root;
    for place in 0..usize::from(path.len) {
        if name_at(report, path, place) != Some(here) {
            return false;
        }
        match served_by(hierarchy, report, tick, &here) {
            Some(next) => here = next,
            None => return place + 1 == usize::from(path.len) && hierarchy.has_thread(&here),
        }
    }
    false
}

/// Whether a tick is granted as it should be: along the choices where the root asks, else to nobody.
fn is_due(hierarchy: &Hierarchy, report: &Report, tick: u32) -> bool {
    let path = path_at(report, tick);
    let Some(root) = root_of(hierarchy) else {
        return path.is_none();
    };
    let asked = asks(hierarchy, report, tick, hierarchy.schedulers.len(), &root);
    match path {
        Some(path) => asked && is_chosen(hierarchy, report, tick, &root, &path),
        None => !asked,
    }
}

/// Carries out the commands of a tick that are told as done.
fn carry_out_at(
    alloc: Global,
    hierarchy: &mut Hierarchy,
    report: &Report,
    tick: u32,
) -> Result<(), AllocError> {
    for a in report.answered.items() {
        if a.tick == tick {
            if let Answer::Done(_) = &a.answer {
                carry_out(alloc, hierarchy, tick, &a.command)?;
            }
        }
    }
    Ok(())
}

/// The first tick of a report that is not granted along the choices of its schedulers; `None` where each is.
///
/// # Errors
///
/// Want of memory.
pub fn first_other_path(alloc: Global, report: &Report) -> Result<Option<u32>, AllocError> {
    let mut hierarchy = Hierarchy::new(alloc);
    for tick in 0..report.horizon {
        carry_out_at(alloc, &mut hierarchy, report, tick)?;
        if !is_due(&hierarchy, report, tick) {
            return Ok(Some(tick));
        }
        pass(alloc, &mut hierarchy, report, tick)?;
    }
    Ok(None)
}
