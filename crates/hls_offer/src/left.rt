// What is left on a scheduler.
ghost use Rattle.std.specs.Prelude.{◌≡◌, ◌≤◌, ℕ, true, false, All, IfOk};
ghost use Rattle.std.specs.List.{filter_map};
ghost use Rattle.hls_chron.specs.Parts.{all_parts};
ghost use Rattle.hls_kinds.specs.Room.{IsFull};
ghost use Rattle.hls_machine.specs.Hierarchy.{Hierarchy, config_of, book_of};
ghost use Rattle.hls_machine.specs.Legal.{IsReached};
ghost use Rattle.hls_tree.specs.Reads.{IsLoaded};
ghost use Rattle.hls_tree.specs.Trees.{IsTreeOf, Stands};
ghost use Rattle.hls_offer.specs.Left.{fit_in, IsLeft};

use crate::priorities::free_spans;
use hls_chron::{ALL_PARTS, Book, Config, List};
use hls_kinds::room_total;
use hls_kinds_lookup::{occupant, room_used};
use hls_offer_text::{Fit, Left};
use hls_sched::Scheduler;
use hls_tree::{NodeId, Tree};
use std::alloc::{AllocError, Global};

/// Whether every slot of a scheduler is taken up.
fn is_full(book: &Book, config: &Config) -> bool
    ensures full { result ≡ true → IsFull config.now book.now }
    ensures free { result ≡ false → ¬ IsFull config.now book.now }
{
    for slot in 0..config.most_seats() {
        if occupant(book, config, slot).is_none() {
            return false;
        }
    }
    true
}

/// The greatest reservation in a period that so many parts are enough for.
fn fit_in(free: u128, y: u32) -> Option<Fit>
    requires free { free ≤ all_parts }
    ensures { result ≡ fit_in free y }
{
    let x = (free * u128::from(y) / u128::from(ALL_PARTS)) as u32;
    if x == 0 {
        return None;
    }
    Some(Fit { x, y })
}

/// The greatest reservations in these periods that so many parts are enough for.
fn fits_in(alloc: Global, free: u128, periods: &[u32]) -> Result<Vec<Fit>, AllocError>
    requires free { free ≤ all_parts }
    ensures { IfOk result (λ fits. fits.items ≡ filter_map (fit_in free) periods.now) }
{
    periods
        .iter()
        .filter_map(|y| fit_in(free, *y))
        .collect(alloc)
}

/// What is left on a scheduler, with reservations in these periods.
///
/// # Errors
/// Returns `AllocError` for want of memory.
pub fn left_on(alloc: Global, tree: &Tree, id: NodeId, periods: &[u32]) -> Result<Left, AllocError>
    requires stands { Stands seen tree.now (λ h. IsReached h × IsLoaded (h.nodes id)) }
    ensures { IfOk result (λ left. (h : Hierarchy) → IsTreeOf seen tree.now h →
        IsLeft (config_of (h.nodes id)) (book_of (h.nodes id)) periods.now left) }
{
    let config = tree.config(id);
    let book = tree.book(id);
    if is_full(book, &config) {
        return Ok(Left::Full);
    }
    let room = room_total(&config).saturating_sub(room_used(book, &config));
    match config {
        Config::Fp => Ok(Left::Priorities(List::of(free_spans(alloc, tree, id)?))),
        Config::Edf => Ok(Left::Parts {
            free: room,
            fits: List::of(fits_in(alloc, room, periods)?),
        }),
        Config::Sfq { .. } => Ok(Left::Weight(room)),
        Config::Wheel { .. } => Ok(Left::Slots(room)),
        Config::Rr { .. } => Ok(Left::Turn),
        Config::Join { .. } | Config::Cpu => Ok(Left::Sole),
    }
}
