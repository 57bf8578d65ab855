// What an audit comes to, in words.
ghost use Rattle.std.specs.Prelude.{◌≡◌, ◌++◌, OnOk};
ghost use Rattle.hls_top.specs.Summaries.{verdict};

use hls_audit::Outcome;
use hls_text::{put, put_number};
use std::alloc::AllocError;

/// Appends what an audit comes to: that all is kept, or the clause that fails first and its tick.
///
/// # Errors
/// Returns `AllocError` for want of memory.
pub fn put_verdict(out: &mut Vec<u8>, audit: Outcome) -> Result<(), AllocError>
    ensures { OnOk result (out.new.items ≡ out.old.items ++ verdict audit) }
{
    match audit {
        Outcome::Kept => put(out, b"kept"),
        Outcome::Broken { clause, tick } => {
            put(out, b"broken A")?;
            put_number(out, u128::from(clause))?;
            put(out, b" ")?;
            put_number(out, u128::from(tick))
        }
    }
}
