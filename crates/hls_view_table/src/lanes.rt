// How wide the columns of a table are.
ghost use Rattle.std.specs.Prelude.{◌≡◌, ◌∷◌, IfOk, length, map};
ghost use Rattle.hls_view_table.specs.Tables.{cells_of, head_of, side_of, cell_at, width_at, lanes_of};

use crate::table::{Column, Row, Side};
use std::alloc::{AllocError, Global};

/// Where the cells of a column stand, and how many bytes its widest cell has.
#[derive(Clone, Copy)]
pub struct Lane {
    pub side: Side,
    pub wide: usize,
}

/// The heads of columns, as the cells of a line.
pub fn heads_of(alloc: Global, columns: &[Column]) -> Result<Row, AllocError>
    ensures { IfOk result (λ row. cells_of row ≡ map head_of columns.now) }
{
    let mut heads = Row::new(alloc);
    for column in columns {
        heads.push(column.head.as_bytes().to_vec(alloc)?)?;
    }
    Ok(heads)
}

/// How many bytes the cell of a row in a column has.
fn cell_len(row: &Row, at: usize) -> usize
    ensures { result ≡ length (cell_at at (cells_of row.now)) }
{
    match row.cells.get(at) {
        Some(cell) => cell.len(),
        None => 0,
    }
}

fn width_at(heads: &Row, rows: &[Row], at: usize) -> usize
    ensures { result ≡ width_at at (cells_of heads.now ∷ map cells_of rows.now) }
{
    let mut wide = cell_len(heads, at);
    for row in rows {
        wide = wide.max(cell_len(row, at));
    }
    wide
}

/// The lanes of columns, from the left, wide enough for the heads and for all rows.
pub fn lanes_of(
    alloc: Global,
    columns: &[Column],
    heads: &Row,
    rows: &[Row],
) -> Result<Vec<Lane>, AllocError>
    ensures { IfOk result (λ lanes. lanes.items
        ≡ lanes_of (map side_of columns.now) (cells_of heads.now ∷ map cells_of rows.now)) }
{
    let mut lanes = Vec::new(alloc);
    for (at, column) in columns.iter().enumerate() {
        lanes.push(Lane {
            side: column.side,
            wide: width_at(heads, rows, at),
        })?;
    }
    Ok(lanes)
}
