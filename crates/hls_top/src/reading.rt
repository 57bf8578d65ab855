// Reading a text.
ghost use Rattle.std.specs.Prelude.{◌≡◌, ◌≤◌, Some, IfOk, IfErr, OnOk, vec_len};
ghost use Rattle.hls_io.specs.Bytes.{IsWhole};
ghost use Rattle.hls_top.specs.Exchange.{drawn};
ghost use Rattle.hls_top.specs.Ends.{Lacks};
ghost use Rattle.hls_top.specs.Says.{IsRead};

use hls_io::{ReadError, Source, read_all};
use std::alloc::Global;

/// Reads a text of at most so many bytes.
///
/// # Errors
/// Returns why there is none.
pub fn text_from<S: Source>(
    alloc: Global,
    source: &mut S,
    most: usize,
) -> Result<Vec<u8>, ReadError>
    ensures whole { IfOk result (λ text. IsWhole (S.left source.old) (S.left source.new) text.items) }
    ensures within { IfOk result (λ text. vec_len text ≤ most) }
    ensures quiet { OnOk result (S.faults source.new ≡ S.faults source.old) }
    ensures lacks { IfErr result (λ error. Lacks error (Some most) (drawn S.left S.faults source.old source.new)) }
    ensures orderly { IsRead (Some most) (drawn S.left S.faults source.old source.new) }
{
    read_all(alloc, source, most)
}
