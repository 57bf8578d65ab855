// The text of a table.
ghost use Rattle.std.specs.Prelude.{◌≡◌, ◌≤◌, ◌∷◌, ◌++◌, [], OnOk, length, map, take, replicate};
ghost use Rattle.hls_view_table.specs.Tables.{cells_of, set_in, spread, trimmed, line_text, lines_text, table_text};

use crate::lanes::{Lane, heads_of, lanes_of};
use crate::table::{Row, Side, Table};
use hls_text::put;
use std::alloc::{AllocError, Global};

fn put_blanks(out: &mut Vec<u8>, count: usize) -> Result<(), AllocError>
    ensures { OnOk result (out.new.items ≡ out.old.items ++ replicate count 32) }
{
    for _ in 0..count {
        out.push(b' ')?;
    }
    Ok(())
}

/// Appends a cell with the blanks that fill its lane.
fn put_cell(out: &mut Vec<u8>, lane: Lane, cell: &[u8]) -> Result<(), AllocError>
    ensures { OnOk result (out.new.items ≡ out.old.items ++ set_in lane cell.now) }
{
    let blanks = lane.wide.saturating_sub(cell.len());
    match lane.side {
        Side::Left => {
            put(out, cell)?;
            put_blanks(out, blanks)
        }
        Side::Right => {
            put_blanks(out, blanks)?;
            put(out, cell)
        }
    }
}

/// Appends the cells of a line, two blanks behind each.
fn put_cells(out: &mut Vec<u8>, lanes: &[Lane], cells: &[Vec<u8>]) -> Result<(), AllocError>
    ensures { OnOk result (out.new.items ≡ out.old.items ++ spread lanes.now (map (λ c. c.items) cells.now)) }
{
    for (lane, cell) in lanes.iter().zip(cells) {
        put_cell(out, *lane, cell)?;
        put(out, b"  ")?;
    }
    Ok(())
}

/// How many bytes a text has without the blanks at its end.
fn trimmed_len(text: &[u8]) -> usize
    ensures within { result ≤ length text.now }
    ensures is { take result text.now ≡ trimmed text.now }
{
    let mut len = text.len();
    while len > 0 && text[len - 1] == b' ' {
        len -= 1;
    }
    len
}

fn put_line(out: &mut Vec<u8>, lanes: &[Lane], row: &Row) -> Result<(), AllocError>
    ensures { OnOk result (out.new.items ≡ out.old.items ++ (line_text lanes.now (cells_of row.now) ++ 10 ∷ [])) }
{
    let start = out.len();
    put_cells(out, lanes, &row.cells)?;
    let len = start + trimmed_len(&out[start..]);
    out.truncate(len);
    put(out, b"\n")?;
    Ok(())
}

fn put_lines(out: &mut Vec<u8>, lanes: &[Lane], rows: &[Row]) -> Result<(), AllocError>
    ensures { OnOk result (out.new.items ≡ out.old.items ++ lines_text lanes.now (map cells_of rows.now)) }
{
    for row in rows {
        put_line(out, lanes, row)?;
    }
    Ok(())
}

/// Appends the text of a table, a line for the heads and one for each row.
///
/// # Errors
/// Returns `AllocError` for want of memory.
pub fn write_table(alloc: Global, out: &mut Vec<u8>, table: &Table) -> Result<(), AllocError>
    ensures { OnOk result (out.new.items ≡ out.old.items ++ table_text table.now) }
{
    let heads = heads_of(alloc, table.columns)?;
    let lanes = lanes_of(alloc, table.columns, &heads, &table.rows)?;
    put_line(out, &lanes, &heads)?;
    put_lines(out, &lanes, &table.rows)?;
    Ok(())
}
