// The derivation in force of a node and a port.
ghost use Rattle.std.specs.Prelude.{◌≡◌, ◌+◌, ℕ, drop, take, find, length, min, reverse, IfSome};
ghost use Rattle.std.specs.Prelude.{option_copied};
ghost use Rattle.hls_derive.specs.Derivation.{IsWithinGrammar};
ghost use Rattle.hls_report_text.specs.Content.{content_of};
ghost use Rattle.hls_report_text.specs.WellFormed.{IsWellFormed};
ghost use Rattle.hls_report_text.specs.declared.report.Seated as told;
ghost use Rattle.hls_audit_clauses.specs.Clauses as clauses;
ghost use Rattle.hls_view_tale.specs.Hierarchies.{IsHierarchy};
ghost use Rattle.hls_view_tree.specs.Derived as derived;
ghost use Rattle.hls_view_tree.specs.Stays as stays;

use crate::since::{is_same, standing_of};
use hls_chron::Name;
use hls_report_text::{Answer, Answered, Report, Seated};
use hls_view_tale::Hierarchy;

fn seats_in(answer: &Answer) -> &[Seated]
    ensures { result.now ≡ clauses.seats_in answer.now }
{
    match answer {
        Answer::Done(seats) => seats.items(),
        Answer::Refused(_) => &[],
    }
}

fn is_line_of(name: &Name, port: usize, seated: &Seated) -> bool
    ensures { result ≡ derived.is_line_of name.now port seated.now }
{
    is_same(&seated.name, name) && usize::from(seated.port) == port
}

fn tells_of(name: &Name, port: usize, a: &Answered) -> bool
    ensures { result ≡ derived.tells_of name.now port a.now }
{
    seats_in(&a.answer)
        .iter()
        .any(|seated| is_line_of(name, port, seated))
}

fn last_line<'a>(name: &Name, port: usize, a: &'a Answered) -> Option<&'a Seated>
    ensures { option_copied result ≡ derived.last_line name.now port a.now }
{
    seats_in(&a.answer)
        .iter()
        .rev()
        .find(|seated| is_line_of(name, port, seated))
}

fn last_telling<'a>(name: &Name, port: usize, commands: &'a [Answered]) -> Option<&'a Answered>
    ensures { option_copied result ≡ find (derived.tells_of name.now port) (reverse commands.now) }
{
    commands.iter().rev().find(|a| tells_of(name, port, a))
}

fn last_told<'a>(name: &Name, port: usize, commands: &'a [Answered]) -> Option<&'a Seated>
    ensures { option_copied result ≡ derived.last_told name.now port commands.now }
{
    match last_telling(name, port, commands) {
        Some(a) => last_line(name, port, a),
        None => None,
    }
}

/// Behind which place of a list, at most, a part up to a place ends.
fn end_behind(answered: &[Answered], to: usize) -> usize
    ensures { result ≡ min (to + 1) (length answered.now) }
{
    if to < answered.len() {
        to + 1
    } else {
        answered.len()
    }
}

/// The commands from a place to another, both included.
fn commands_from(answered: &[Answered], from: usize, to: usize) -> &[Answered]
    ensures { result.now ≡ drop from (take (to + 1) answered.now) }
{
    let end = end_behind(answered, to);
    &answered[from.min(end)..end]
}

fn commands_of<'a>(report: &'a Report, hierarchy: &Hierarchy, name: &Name) -> &'a [Answered]
    ensures { result.now ≡ derived.commands_of report.now.answered
        (stays.standing_of hierarchy.now.standing.items name.now) }
{
    match standing_of(&hierarchy.standing, name) {
        Some(standing) => { commands_from(report.answered.items(), standing.born, standing.opened) }
        None => &[],
    }
}

/// The line with the derivation in force of the node of a name and its port, in a hierarchy of the report, if there is
/// one.
pub fn derivation_of<'a>(
    report: &'a Report,
    hierarchy: &Hierarchy,
    name: &Name,
    port: usize,
) -> Option<&'a Seated>
    requires { IsWellFormed report.now }
    ensures within { IfSome (option_copied result) (λ (s : told.Seated). IsWithinGrammar s.derivation) }
    ensures is { (t : ℕ) → IsHierarchy (content_of report.now) t hierarchy.now →
        option_copied result ≡ derived.line_in_force (content_of report.now) t name.now port }
{
    last_told(name, port, commands_of(report, hierarchy, name))
}
