// The threads of a report, by the places of their admissions.
ghost use Rattle.std.specs.Prelude.{◌≡◌, ◌+◌, ◌≤◌, ◌<◌, ◌++◌, [], drop, map, filter, get_or, IfOk, OnOk};
ghost use Rattle.std.specs.Prelude.{◌&&◌, IfSome, All, length};
ghost use Rattle.hls_report_text.specs.Content.{content_of};
ghost use Rattle.hls_report_text.specs.WellFormed.{IsWellFormed};
ghost use Rattle.hls_legal.specs.Commands.{has_done, rouses};
ghost use Rattle.hls_view_jobs.specs.Words.{words_on, end_in, is_end, sort_of};
ghost use Rattle.hls_view_jobs.specs.Threads.{admits, admitted, has_tick, lasting, lives};
ghost use Rattle.hls_view_jobs.specs.Inside.Sources.{IsAdmission, life_by, listed};

use crate::words::{has_roused, sort_of};
use hls_chron::Name;
use hls_report_text::{Answer, Answered, Report};
use hls_scenario::Command;
use std::alloc::{AllocError, Global};

/// A thread, from its first tick to before its end, and at which place of all commands its admission stands.
#[derive(Clone, Copy, Debug, PartialEq, Eq)]
pub(crate) struct Admission {
    pub(crate) name: Name,
    pub(crate) from: u32,
    pub(crate) until: u32,
    pub(crate) place: usize,
}

/// Whom a command admits.
fn admits(command: &Command) -> Option<Name>
    ensures { result ≡ admits command.now }
{
    match command {
        Command::Thread { name, .. } => Some(*name),
        _ => None,
    }
}

/// Whom a command admits, if it was carried out.
fn admitted(a: &Answered) -> Option<Name>
    ensures { result ≡ admitted a.now }
{
    match &a.answer {
        Answer::Done(_) => admits(&a.command),
        Answer::Refused(_) => None,
    }
}

/// Whether a command that was carried out ends the thread of a name.
fn is_end_of(a: &Answered, name: &Name) -> bool
    ensures { result ≡ (has_done (rouses name.now) a.now && is_end (sort_of a.now.command)) }
{
    has_roused(a, name) & sort_of(&a.command).is_end()
}

/// The tick before which the thread of a name is there, by the commands from a place on.
fn end_from(horizon: u32, answered: &[Answered], place: usize, name: &Name) -> u32
    requires { place ≤ length answered.now }
    ensures { result ≡ end_in horizon (words_on horizon name.now (drop place answered.now)) }
{
    for at in place..answered.len() {
        let a = &answered[at];
        if is_end_of(a, name) {
            return a.tick;
        }
    }
    horizon
}

/// The thread that the command at a place admits, if it has a tick.
fn admission_at(report: &Report, place: usize) -> Option<Admission>
    requires formed { IsWellFormed report.now }
    requires within { place < length report.now.answered }
    ensures is { IfSome result (IsAdmission (content_of report.now)) }
    ensures lives { filter (has_tick report.now.horizon) (lives report.now.horizon (drop place report.now.answered))
        ≡ map (life_by report.now.horizon report.now.answered) (listed result)
        ++ filter (has_tick report.now.horizon) (lives report.now.horizon (drop (place + 1) report.now.answered)) }
{
    let answered = report.answered.items();
    let a = &answered[place];
    match admitted(a) {
        Some(name) => {
            let until = end_from(report.horizon, answered, place + 1, &name);
            if a.tick < until {
                Some(Admission {
                    name,
                    from: a.tick,
                    until,
                    place,
                })
            } else {
                None
            }
        }
        None => None,
    }
}

/// Puts a thread, if there is one, behind all others.
fn add(all: &mut Vec<Admission>, one: Option<Admission>) -> Result<(), AllocError>
    ensures { OnOk result (all.new.items ≡ all.old.items ++ listed one) }
{
    if let Some(one) = one {
        all.push(one)?;
    }
    Ok(())
}

/// The threads of a report that have a tick, in the order of their admissions.
///
/// # Errors
/// Returns `AllocError` for want of memory.
pub(crate) fn admissions(alloc: Global, report: &Report) -> Result<Vec<Admission>, AllocError>
    requires { IsWellFormed report.now }
    ensures are { IfOk result (λ all. All (IsAdmission (content_of report.now)) all.items) }
    ensures lives { IfOk result (λ all.
        map (life_by report.now.horizon report.now.answered) all.items ≡ lasting (content_of report.now)) }
{
    let mut all = Vec::new(alloc);
    for place in 0..report.answered.items().len() {
        add(&mut all, admission_at(report, place))?;
    }
    Ok(all)
}
