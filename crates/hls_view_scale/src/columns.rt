// The columns of a picture.
ghost use Rattle.std.specs.Prelude.{◌≡◌, ◌≤◌};

use crate::rounds::nice;
use crate::scale::Scale;

/// How many columns a picture has at most, and how wide all are together at most.
const COLUMNS: u64 = 1200;

/// How wide a column is at most.
const WIDEST: u64 = 24;

/// How the ticks from one to another stand in columns: as few to a column as a round number allows.
pub fn scale_of(from: u32, to: u32) -> Scale
    requires { from ≤ to }
    ensures begins { result.from ≡ from }
    ensures ends { result.to ≡ to }
{
    let shown = u64::from(to) + 1 - u64::from(from);
    let ticks = nice((shown + COLUMNS - 1) / COLUMNS);
    let columns = (shown + ticks - 1) / ticks;
    Scale {
        from,
        to,
        ticks,
        columns,
        wide: (COLUMNS / columns).min(WIDEST),
    }
}
