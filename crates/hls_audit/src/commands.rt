// What the commands do to the tree of names, and the derivations that they were answered with.
ghost use Rattle.std.specs.Prelude.{◌≡◌, ◌<◌, ℕ, IfOk, Decides};
ghost use Rattle.std.specs.List.{AllByRecursion};
ghost use Rattle.hls_report_text.specs.Content.{content_of};
ghost use Rattle.hls_report_text.specs.WellFormed.{IsWellFormed};
ghost use Rattle.hls_legal.specs.Commands as said;
ghost use Rattle.hls_audit_clauses.specs.Clauses.{IsMisplacedAt, IsUnderivedAt};
ghost use Rattle.hls_audit_watch.specs.First.{FirstAt};
ghost use Rattle.hls_audit.specs.Inside.Fits.{IsFit};
ghost use Rattle.hls_audit_threads.specs.Inside.Order.{AreInOrder, IsSound};
ghost use Rattle.hls_audit.specs.Inside.Sites.{IsMisplacedBy, IsUnderivedBy, HasBad};

use crate::tree::Tree;
use hls_report_text::{Answer, Answered, Report};
use std::alloc::{AllocError, Global};

/// Whether a command was carried out.
fn is_done(answer: &Answer) -> bool
    ensures { result ≡ said.is_done answer.now }
{
    match answer {
        Answer::Done(_) => true,
        Answer::Refused(_) => false,
    }
}

/// Whether a command was carried out that the tree before it does not allow.
fn is_misplaced(alloc: Global, tree: &Tree, a: &Answered) -> Result<bool, AllocError>
    ensures { IfOk result (λ b. Decides b (IsMisplacedBy tree.now.members.items a.now)) }
{
    if !is_done(&a.answer) {
        return Ok(false);
    }
    tree.is_misplaced(alloc, &a.command)
}

/// The tick of the first command that was carried out where the tree before it does not allow it.
fn first_misplaced_of(alloc: Global, answered: &[Answered]) -> Result<Option<u32>, AllocError>
    requires { AreInOrder answered.now }
    ensures { IfOk result (FirstAt (HasBad IsMisplacedBy answered.now)) }
{
    let mut tree = Tree::new(alloc);
    for a in answered {
        if is_misplaced(alloc, &tree, a)? {
            return Ok(Some(a.tick));
        }
        tree.follow(alloc, a)?;
    }
    Ok(None)
}

/// The first tick at which the first clause fails.
pub(crate) fn first_misplaced(alloc: Global, report: &Report) -> Result<Option<u32>, AllocError>
    requires { IsWellFormed report.now }
    ensures { IfOk result (FirstAt (IsMisplacedAt (content_of report.now))) }
{
    first_misplaced_of(alloc, report.answered.items())
}

/// Whether a command was carried out without a derivation for each of the seats that it takes.
fn is_underived(alloc: Global, depth: u8, tree: &Tree, a: &Answered) -> Result<bool, AllocError>
    requires fit { AllByRecursion IsFit tree.now.members.items }
    requires sound { IsSound a.now }
    requires placed { ¬ IsMisplacedBy tree.now.members.items a.now }
    ensures { IfOk result (λ b. Decides b (IsUnderivedBy depth tree.now.members.items a.now)) }
{
    match &a.answer {
        Answer::Done(seats) => tree.is_underived(alloc, depth, &a.command, seats.items()),
        Answer::Refused(_) => Ok(false),
    }
}

/// The tick of the first command that was carried out so, of those before a tick.
fn first_underived_of(
    alloc: Global,
    depth: u8,
    answered: &[Answered],
    below: u32,
) -> Result<Option<u32>, AllocError>
    requires order { AreInOrder answered.now }
    requires sound { AllByRecursion IsSound answered.now }
    requires placed { (t : ℕ) → t < below → ¬ HasBad IsMisplacedBy answered.now t }
    ensures { IfOk result (FirstAt (λ t. HasBad (IsUnderivedBy depth) answered.now t × (t < below))) }
{
    let mut tree = Tree::new(alloc);
    for a in answered {
        if below <= a.tick {
            return Ok(None);
        }
        if is_underived(alloc, depth, &tree, a)? {
            return Ok(Some(a.tick));
        }
        tree.follow(alloc, a)?;
    }
    Ok(None)
}

/// The first tick, of those before one, at which the sixth clause fails, where the first fails at none of them.
pub(crate) fn first_underived(
    alloc: Global,
    report: &Report,
    below: u32,
) -> Result<Option<u32>, AllocError>
    requires formed { IsWellFormed report.now }
    requires placed { (t : ℕ) → t < below → ¬ IsMisplacedAt (content_of report.now) t }
    ensures { IfOk result (FirstAt (λ t. IsUnderivedAt (content_of report.now) t × (t < below))) }
{
    first_underived_of(alloc, report.depth, report.answered.items(), below)
}
