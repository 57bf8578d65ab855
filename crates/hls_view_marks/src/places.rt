// Where columns, ticks and rows stand on a page.
ghost use Rattle.std.specs.Prelude.{◌≡◌, ◌<◌, ◌^◌};
ghost use Rattle.hls_view_marks.specs.Places.{column_x, tick_x, row_top};

use crate::page::Page;

/// The left end of a column.
pub fn column_x(page: &Page, column: u64) -> u128
    requires { page.now.left < 2 ^ 80 }
    ensures is { result ≡ column_x page.now column }
    ensures within { result < 2 ^ 81 }
{
    page.left + page.scale.column_offset(column)
}

/// Where a tick begins.
pub fn tick_x(page: &Page, tick: u64) -> u128
    requires { page.now.left < 2 ^ 80 }
    ensures is { result ≡ tick_x page.now tick }
    ensures within { result < 2 ^ 81 }
{
    page.left + page.scale.offset(tick)
}

/// The top of a row, or of what is behind the last.
pub fn row_top(row: usize) -> u128
    ensures is { result ≡ row_top row }
    ensures within { result < 2 ^ 80 }
{
    128 + 20 * row as u128
}
