// The lines that tell what is left on each loaded scheduler.
ghost use Rattle.std.specs.Prelude.{OnOk};
ghost use Rattle.hls_machine.specs.Hierarchy.{Hierarchy};
ghost use Rattle.hls_machine.specs.Legal.{IsReached};
ghost use Rattle.hls_tree.specs.Reads.{IsLoaded};
ghost use Rattle.hls_tree.specs.Trees.{IsTreeOf, Stands};
ghost use Rattle.hls_offer.specs.Inside.Lines.{AddsFree, AddsAll};

use crate::left::left_on;
use hls_manager::haves_of;
use hls_offer_text::put_free;
use hls_sched::Scheduler;
use hls_tree::{NodeId, Tree};
use std::alloc::{AllocError, Global};

/// Appends the line that tells what is left on a scheduler, with reservations in these periods.
fn put_one(
    alloc: Global,
    version: u8,
    tree: &Tree,
    id: NodeId,
    periods: &[u32],
    out: &mut Vec<u8>,
) -> Result<(), AllocError>
    requires stands { Stands seen tree.now (λ h. IsReached h × IsLoaded (h.nodes id)) }
    ensures { OnOk result (AddsFree seen version tree.now periods.now id out.old.items out.new.items) }
{
    let name = tree.name(id);
    let config = tree.config(id);
    let haves = haves_of(alloc, tree, id)?;
    let left = left_on(alloc, tree, id, periods)?;
    put_free(out, version, name, &config, &haves, &left)
}

/// Appends a line for each loaded scheduler, in the order of their loads, that tells what is left on it, with
/// reservations in these periods. Configurations are spelled as loads of this version spell them.
///
/// # Errors
/// Returns `AllocError` for want of memory.
pub fn put_spare(
    alloc: Global,
    version: u8,
    tree: &Tree,
    periods: &[u32],
    out: &mut Vec<u8>,
) -> Result<(), AllocError>
    requires stands { Stands seen tree.now IsReached }
    ensures { OnOk result (AddsAll seen version tree.now periods.now out.old.items out.new.items) }
{
    for at in 0..tree.scheds() {
        let id = tree.sched(at);
        put_one(alloc, version, tree, id, periods, out)?;
    }
    Ok(())
}
