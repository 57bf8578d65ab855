// What ways end in, and the names on them.
ghost use Rattle.std.specs.Prelude.{◌≡◌, ◌++◌, OnOk, flat_map, option_copied};
ghost use Rattle.hls_view_lanes.specs.Leaves as leaves;
ghost use Rattle.hls_view_drawing.specs.Rows as rows;
ghost use Rattle.hls_view_drawing.specs.Strips as strips;

use hls_audit_clauses::Sort;
use hls_text::put;
use hls_view_tale::Label;
use std::alloc::AllocError;

/// The last label of a way; the processor has none.
pub(crate) fn last_label(way: &[Label]) -> Option<&Label>
    ensures { option_copied result ≡ rows.last_label way.now }
{
    way.get(way.len().saturating_sub(1))
}

/// Whether a way ends in a thread.
#[tactic(auto, using(hls_view_drawing::proofs::Ends::leaf_by_end))]
pub(crate) fn is_leaf(way: &[Label]) -> bool
    ensures { result ≡ leaves.is_leaf way.now }
{
    match last_label(way) {
        Some(label) => matches!(label.sort, Sort::Thread),
        None => false,
    }
}

fn put_steps(text: &mut Vec<u8>, way: &[Label]) -> Result<(), AllocError>
    ensures { OnOk result (text.new.items ≡ text.old.items ++ flat_map strips.step_text way.now) }
{
    for label in way {
        put(text, b"/")?;
        put(text, label.name.bytes())?;
    }
    Ok(())
}

/// Appends the names on the way down, from that of the processor.
///
/// # Errors
/// Returns `AllocError` for want of memory.
pub(crate) fn put_way(text: &mut Vec<u8>, way: &[Label]) -> Result<(), AllocError>
    ensures { OnOk result (text.new.items ≡ text.old.items ++ strips.way_text way.now) }
{
    put(text, b"cpu")?;
    put_steps(text, way)
}
