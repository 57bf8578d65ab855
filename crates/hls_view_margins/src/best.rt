// The best cut of some ticks: the one whose least surplus is greatest.
ghost use Rattle.hls_chron.specs.Ranges.{longest_horizon};
ghost use Rattle.std.specs.Prelude.{◌≡◌, ◌+◌, ◌-◌, ◌≤◌, ◌<◌, ◌↔◌, ℕ, Bool, IsTrue, min};
ghost use Rattle.hls_audit_spans.specs.Spans.{Tell};
ghost use Rattle.hls_view_margins.specs.Cuts.{IsCutPiece, IsBestOf};
ghost use Rattle.hls_view_margins.specs.Inside.Pieces.{IsBetween, IsSomeOver, AreFound, allowed_least, IsBetterOf};

use crate::cuts::{Blocks, Cut, Window};
use crate::first::{is_less, sooner};
use crate::margin::Part;
use crate::parts::part_of;
use crate::scale::Scale;
use hls_audit_spans::Spans;

/// Of pieces: the first that has the least surplus, and whether one has more ticks served than allowed.
#[derive(Clone, Copy)]
pub(crate) struct Pieces {
    pub(crate) least: Option<Part>,
    pub(crate) over: bool,
}

/// The ticks from one on and before another, if there is one.
fn part_between(served: &Spans, from: u32, until: u32) -> Option<Part>
    requires few { until ≤ longest_horizon }
    ensures { (f : ℕ → Bool) (end : ℕ) → Tell f served.now.spans.items end → until ≤ end →
        IsBetween f from until result }
{
    if from < until {
        Some(part_of(served, from, until - from))
    } else {
        None
    }
}

/// Whether a piece has more ticks served than allowed.
fn is_over(piece: &Option<Part>, most: u32) -> bool
    ensures { IsTrue result ↔ IsSomeOver piece.now most }
{
    match piece {
        Some(part) => most < part.got,
        None => false,
    }
}

/// What is found of the pieces of a cut.
fn pieces_of(scale: &Scale, served: &Spans, cut: &Cut, most: u32) -> Pieces
    ensures { (f : ℕ → Bool) (end : ℕ) → Tell f served.now.spans.items end → cut.now.hi ≤ end →
        AreFound scale.now (IsCutPiece f cut.now.lo cut.now.hi cut.now.offset cut.now.period) most result }
{
    let mut least = None;
    let mut over = false;
    let mut from = cut.lo;
    let mut next = cut.lo + cut.offset;
    while from < cut.hi {
        let piece = part_between(served, from, next.min(cut.hi));
        over |= is_over(&piece, most);
        least = sooner(scale, least, piece);
        from = next;
        next += cut.period;
    }
    Pieces { least, over }
}

impl Pieces {
    /// The first piece that has the least surplus, if the cut is allowed: where it is hard, none has too many ticks.
    fn allowed(&self, hard: bool) -> Option<Part>
        ensures { result ≡ allowed_least self.now hard }
    {
        if hard && self.over { None } else { self.least }
    }
}

/// The piece that has more surplus, or else the first.
fn better(scale: &Scale, first: Option<Part>, later: Option<Part>) -> Option<Part>
    ensures { IsBetterOf scale.now first later result }
{
    match (first, later) {
        (None, _) => later,
        (Some(_), None) => first,
        (Some(a), Some(b)) => {
            if is_less(scale, &a, &b) {
                Some(b)
            } else {
                Some(a)
            }
        }
    }
}

/// Of the allowed cuts the one whose least surplus is greatest: the first of its pieces that has it.
pub(crate) fn best_piece(
    scale: &Scale,
    served: &Spans,
    window: &Window,
    blocks: &Blocks,
) -> Option<Part>
    ensures { (f : ℕ → Bool) (end : ℕ) → Tell f served.now.spans.items end → window.now.hi ≤ end →
        IsBestOf scale.now f window.now.lo window.now.hi blocks.now.hard blocks.now.most blocks.now.period
        (min blocks.now.period (window.now.hi - window.now.lo)) result }
{
    let period = blocks.period;
    let mut best = None;
    for offset in 0..period.min(window.hi - window.lo) {
        let cut = Cut {
            lo: window.lo,
            hi: window.hi,
            offset,
            period,
        };
        let found = pieces_of(scale, served, &cut, blocks.most);
        best = better(scale, best, found.allowed(blocks.hard));
    }
    best
}
