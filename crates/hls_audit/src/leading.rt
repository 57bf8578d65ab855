// Paths that lead nowhere, by a tree that follows the commands from tick to tick.
ghost use Rattle.std.specs.Prelude.{◌≡◌, ◌+◌, ◌<◌, List, IfOk, Decides, option_map, true, slice_get};
ghost use Rattle.hls_audit_clauses.specs.declared.member.Member.{Member};
ghost use Rattle.hls_report_text.specs.Content.{content_of, path_names};
ghost use Rattle.hls_report_text.specs.WellFormed.{HasShort, IsWellFormed};
ghost use Rattle.hls_legal.specs.Schedule as spelled;
ghost use Rattle.hls_audit_clauses.specs.Names as told;
ghost use Rattle.hls_audit_clauses.specs.Clauses.{IsAstray};
ghost use Rattle.hls_audit_watch.specs.First.{FirstAt};
ghost use Rattle.hls_audit.specs.Inside.Followed.{AreFollowed};
ghost use Rattle.hls_audit.specs.Inside.Leading.{IsAbreast, IsReached, tick_or, end_or};
ghost use Rattle.hls_audit_threads.specs.Inside.Order.{AreInOrder};

use crate::followed::Followed;
use crate::tree::Tree;
use hls_report_text::{Answer, Answered, Path, Report};
use hls_scenario::Command;
use std::alloc::{AllocError, Global};

/// Whether a command surely leaves every tree as it is: where it was refused, and where it wakes or blocks.
fn leaves_names(a: &Answered) -> bool
    ensures { result ≡ true → (tree : List Member) → told.after_answer tree a.now ≡ tree }
{
    match &a.answer {
        Answer::Done(_) => is_rousing(&a.command),
        Answer::Refused(_) => true,
    }
}

fn is_rousing(command: &Command) -> bool
    ensures { result ≡ true → (tree : List Member) → told.after tree command.now ≡ tree }
{
    match command {
        Command::Wake { .. } => true,
        Command::Block { .. } => true,
        _ => false,
    }
}

/// Whether a tree surely is as before behind a command, from whether it was so in front of it.
fn stays_same(is_same: bool, a: &Answered) -> bool
    ensures { result ≡ true → (is_same ≡ true) × ((tree : List Member) → told.after_answer tree a.now ≡ tree) }
{
    is_same && leaves_names(a)
}

/// Lets the tree follow the commands of a tick. Returns the place of the first one after it, and whether the tree
/// surely is as before.
fn follow_tick(
    alloc: Global,
    tree: &mut Tree,
    answered: &[Answered],
    from: usize,
    tick: u32,
) -> Result<(usize, bool), AllocError>
    requires order { AreInOrder answered.now }
    requires abreast { IsAbreast answered.now tick from tree.old.members.items }
    ensures { IfOk result (λ p. IsAbreast answered.now (tick + 1) p.0 tree.new.members.items
        × (p.1 ≡ true → tree.new.members.items ≡ tree.old.members.items)) }
{
    let mut is_same = true;
    for at in from..answered.len() {
        let a = &answered[at];
        if tick < a.tick {
            return Ok((at, is_same));
        }
        tree.follow(alloc, a)?;
        is_same = stays_same(is_same, a);
    }
    Ok((answered.len(), is_same))
}

/// The place of the run that has a tick, from the place of the one that has the tick before it.
pub(crate) fn run_of(report: &Report, last: usize, tick: u32) -> usize
    requires formed { IsWellFormed report.now }
    requires early { tick < report.now.horizon }
    requires reached { IsReached report.now.runs tick last }
    ensures { IsReached report.now.runs (tick + 1) result }
{
    match report.runs.items().get(last) {
        Some(run) => { if run.to < tick { last + 1 } else { last } }
        None => last,
    }
}

/// The path of a tick, whose run is at a place.
pub(crate) fn path_of(report: &Report, at: usize, tick: u32) -> Option<Path>
    requires formed { IsWellFormed report.now }
    requires reached { IsReached report.now.runs (tick + 1) at }
    ensures short { HasShort result }
    ensures path { spelled.path_at (content_of report.now).stretches tick
        ≡ option_map (path_names report.now.names) result }
{
    match report.runs.items().get(at) {
        Some(run) => run.path,
        None => None,
    }
}

/// Whether the second clause fails at a tick, whose run is at a place, and up to which the tree follows the commands.
fn is_astray(report: &Report, tree: &Tree, followed: &mut Followed, at: usize, tick: u32) -> bool
    requires formed { IsWellFormed report.now }
    requires reached { IsReached report.now.runs (tick + 1) at }
    requires tree { tree.now.members.items ≡ told.tree_at tick (content_of report.now).answered }
    requires followed { AreFollowed tree.now.members.items report.now.names followed.old.paths.items }
    ensures followed { AreFollowed tree.now.members.items report.now.names followed.new.paths.items }
    ensures astray { Decides result (IsAstray (content_of report.now) tick) }
{
    match path_of(report, at, tick) {
        Some(path) => !followed.leads_down(tree, report.names.items(), &path),
        None => false,
    }
}

/// The tick of the command at a place, or else the horizon.
fn command_tick(report: &Report, at: usize) -> u32
    ensures { result ≡ tick_or report.now.horizon (slice_get report.now.answered at) }
{
    match report.answered.items().get(at) {
        Some(a) => a.tick,
        None => report.horizon,
    }
}

/// The tick behind the run at a place, or else the horizon.
fn run_end(report: &Report, at: usize) -> u32
    requires { IsWellFormed report.now }
    ensures { result ≡ end_or report.now.horizon (slice_get report.now.runs at) }
{
    match report.runs.items().get(at) {
        Some(run) => run.to + 1,
        None => report.horizon,
    }
}

/// The first tick at which the second clause fails. What is looked at are the ticks at which a run begins or commands
/// come: a path leads astray at one of them, or never.
pub(crate) fn first_astray(alloc: Global, report: &Report) -> Result<Option<u32>, AllocError>
    requires { IsWellFormed report.now }
    ensures { IfOk result (FirstAt (IsAstray (content_of report.now))) }
{
    let mut tree = Tree::new(alloc);
    let mut followed = Followed::new(alloc)?;
    let mut next = 0;
    let mut at = 0;
    let mut tick = 0;
    while tick < report.horizon {
        let (upto, is_same) = follow_tick(alloc, &mut tree, report.answered.items(), next, tick)?;
        followed.keep(is_same);
        next = upto;
        at = run_of(report, at, tick);
        if is_astray(report, &tree, &mut followed, at, tick) {
            return Ok(Some(tick));
        }
        tick = command_tick(report, next).min(run_end(report, at));
    }
    Ok(None)
}
