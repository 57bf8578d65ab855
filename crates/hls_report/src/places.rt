// The places of names.
ghost use Rattle.std.specs.Prelude.{◌≡◌, ◌<◌, OnOk, IfOk, length, get_or, []};
ghost use Rattle.hls_report_text.specs.WellFormed.{with_name};

use hls_chron::Name;
use indexmap::IndexSet;
use std::alloc::AllocError;

/// The place of a name among those that are known, behind which it is put where it is new.
pub fn place_in(known: &mut IndexSet<Name>, name: Name) -> Result<usize, AllocError>
    ensures known { OnOk result (known.new.keys ≡ with_name known.old.keys name) }
    ensures place { IfOk result (λ place. (place < length known.new.keys)
        × (get_or known.new.keys place [] ≡ name)) }
{
    let (place, _) = known.insert_full(name)?;
    Ok(place)
}
