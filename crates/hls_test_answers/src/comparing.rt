// The answers of a report beside the defined ones.
use crate::Hierarchy;
use crate::dues::{Due, dues_of};
use crate::effects::carry_out;
use crate::refusing::{Moment, refusal_of};
use crate::ticks::pass;
use hls_report_text::{Answer, Answered, Refusal, Report, Seated};
use hls_rules::RuleBook;
use std::alloc::{AllocError, Global};

/// Whether each due seat is told in its turn, with a derivation of at most so many conversions.
fn are_settled(dues: &[Due], depth: u8, seats: &[Seated]) -> bool {
    dues.len() == seats.len()
        && dues
            .iter()
            .zip(seats.iter())
            .all(|(due, seated)| due.is_settled(depth, seated))
}

/// That the first seat without a derivation lacks one, if there is such a seat.
fn underived(
    alloc: Global,
    dues: &[Due],
    rules: &RuleBook,
    depth: u8,
) -> Result<Option<Refusal>, AllocError> {
    for due in dues {
        if !due.is_in_range() || !due.is_derivable(alloc, rules, depth)? {
            return Ok(Some(Refusal::NoDerivation {
                name: due.name,
                depth,
            }));
        }
    }
    Ok(None)
}

/// Whether an answer is the defined one.
fn is_defined(
    alloc: Global,
    moment: &Moment<'_>,
    rules: &RuleBook,
    depth: u8,
    a: &Answered,
) -> Result<bool, AllocError> {
    let dues = dues_of(alloc, moment.hierarchy, &a.command)?;
    let refusal = match refusal_of(alloc, moment, &a.command)? {
        Some(refusal) => Some(refusal),
        None => underived(alloc, &dues, rules, depth)?,
    };
    match (&a.answer, refusal) {
        (Answer::Refused(told), Some(refusal)) => Ok(*told == refusal),
        (Answer::Done(seats), None) => Ok(are_settled(&dues, depth, seats.items())),
        _ => Ok(false),
    }
}

/// The place of the first command of a report whose answer is not the defined one, in a run that began with so
/// many boxes of each kind; `None` where each answer is.
///
/// # Errors
///
/// Want of memory.
pub fn first_other_answer(
    alloc: Global,
    rules: &RuleBook,
    boxes: u32,
    report: &Report,
) -> Result<Option<usize>, AllocError> {
    let mut hierarchy = Hierarchy::new(alloc);
    let mut now = 0;
    let answered = report.answered.items();
    for at in 0..answered.len() {
        let a = &answered[at];
        pass_until(alloc, &mut hierarchy, report, now, a.tick)?;
        now = a.tick;
        let moment = Moment {
            hierarchy: &hierarchy,
            before: &answered[..at],
            boxes,
        };
        if !is_defined(alloc, &moment, rules, report.depth, a)? {
            return Ok(Some(at));
        }
        if let Answer::Done(_) = &a.answer {
            carry_out(alloc, &mut hierarchy, a.tick, &a.command)?;
        }
    }
    Ok(None)
}

/// Passes the ticks from one to before another.
fn pass_until(
    alloc: Global,
    hierarchy: &mut Hierarchy,
    report: &Report,
    from: u32,
    until: u32,
) -> Result<(), AllocError> {
    for tick in from..until {
        pass(alloc, hierarchy, report, tick)?;
    }
    Ok(())
}
