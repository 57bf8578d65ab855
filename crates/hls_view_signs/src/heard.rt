// The words on threads, told of each once it is asked for.
ghost use Rattle.std.specs.Prelude.{◌≡◌, IfOk, OnOk, Some, slice_get};
ghost use Rattle.hls_report_text.specs.Content.{Content, content_of};
ghost use Rattle.hls_view_signs.specs.Inside.Heard.{is_of_node, IsHeard, AreHeard, IsHeardAt};

use crate::commands::behind;
use crate::event::Node;
use hls_chron::Name;
use hls_report_text::Report;
use hls_view_jobs::{Word, words_on};
use std::alloc::{AllocError, Global};

/// The words on a thread that the command at a place admitted, up to its end.
#[derive(Drop)]
pub(crate) struct Heard {
    pub(crate) name: Name,
    pub(crate) born: usize,
    pub(crate) words: Vec<Word>,
}

fn is_heard(heard: &[Heard], place: usize, node: &Node) -> bool
    ensures { result ≡ is_of_node node.now (slice_get heard.now place) }
{
    match heard.get(place) {
        Some(heard) => heard.born == node.standing.born && heard.name == node.label.name,
        None => false,
    }
}

fn put_heard(all: &mut Vec<Heard>, place: usize, heard: Heard) -> Result<usize, AllocError>
    ensures heard { (c : Content) → AreHeard c all.old.items → IsHeard c heard →
        OnOk result (AreHeard c all.new.items) }
    ensures there { IfOk result (λ at. slice_get all.new.items at ≡ Some heard) }
{
    if place < all.len() {
        all[place] = heard;
        return Ok(place);
    }
    let last = all.len();
    all.push(heard)?;
    Ok(last)
}

/// Where the words on the thread of a node stand, which are found if they do not stand at a guess.
///
/// # Errors
/// Returns `AllocError` for want of memory.
pub(crate) fn heard_at(
    alloc: Global,
    all: &mut Vec<Heard>,
    report: &Report,
    node: &Node,
    guess: usize,
) -> Result<usize, AllocError>
    requires { AreHeard (content_of report.now) all.old.items }
    ensures heard { OnOk result (AreHeard (content_of report.now) all.new.items) }
    ensures at { IfOk result (IsHeardAt (content_of report.now) all.new.items node.now) }
{
    if is_heard(all, guess, node) {
        return Ok(guess);
    }
    let name = node.label.name;
    let born = node.standing.born;
    let later = behind(report.answered.items(), born);
    let words = words_on(alloc, report.horizon, later, 0, &name)?;
    let at = put_heard(all, guess, Heard { name, born, words })?;
    Ok(at)
}
