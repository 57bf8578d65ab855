// Margins as the rows of a table.
ghost use Rattle.std.specs.Prelude.{◌≡◌, ◌∷◌, ◌++◌, [], OnOk, IfOk, All, map};
ghost use Rattle.hls_guarantee.specs.Limits.{IsValid};
ghost use Rattle.hls_view_table.specs.Tables.{cells_of};
ghost use Rattle.hls_view_rows.specs.Cells.{dash};
ghost use Rattle.hls_view_rows.specs.Margins.{stay_cells, spare_cells, room_cells, longest_cells, margin_cells};
ghost use Rattle.hls_view_rows.specs.Margins.{margins_text};

use crate::cells::{number_cell, span_cell, ticks_cell, word_cell};
use hls_view_margins as found;
use hls_view_margins::{Margin, Room, Spare};
use hls_view_table::{Column, Row, Side, Table, write_table};
use hls_view_texts::{distance_text, guarantee_text};
use std::alloc::{AllocError, Global};

/// The columns of the table of margins.
const COLUMNS: [Column; 14] = [
    Column {
        head: "stay",
        side: Side::Left,
    },
    Column {
        head: "ticks",
        side: Side::Left,
    },
    Column {
        head: "guarantee",
        side: Side::Left,
    },
    Column {
        head: "ready",
        side: Side::Right,
    },
    Column {
        head: "served",
        side: Side::Right,
    },
    Column {
        head: "spare",
        side: Side::Right,
    },
    Column {
        head: "had",
        side: Side::Right,
    },
    Column {
        head: "where",
        side: Side::Left,
    },
    Column {
        head: "room",
        side: Side::Right,
    },
    Column {
        head: "where",
        side: Side::Left,
    },
    Column {
        head: "wait",
        side: Side::Right,
    },
    Column {
        head: "where",
        side: Side::Left,
    },
    Column {
        head: "window",
        side: Side::Right,
    },
    Column {
        head: "where",
        side: Side::Left,
    },
];

fn push_stay(alloc: Global, row: &mut Row, m: &Margin) -> Result<(), AllocError>
    requires { IsValid m.now.kept }
    ensures { OnOk result (cells_of row.new ≡ cells_of row.old ++ stay_cells m.now) }
{
    row.push(word_cell(alloc, m.name.bytes())?)?;
    row.push(span_cell(alloc, m.from, u64::from(m.to))?)?;
    row.push(guarantee_text(alloc, &m.kept)?)?;
    row.push(number_cell(alloc, m.ready)?)?;
    row.push(number_cell(alloc, m.served)?)?;
    Ok(())
}

/// A word for what is not measured, and no part.
fn push_unjudged(alloc: Global, row: &mut Row, word: &[u8]) -> Result<(), AllocError>
    ensures { OnOk result (cells_of row.new ≡ cells_of row.old ++ (word.now ∷ dash ∷ dash ∷ [])) }
{
    row.push(word_cell(alloc, word)?)?;
    row.push(word_cell(alloc, b"-")?)?;
    row.push(word_cell(alloc, b"-")?)?;
    Ok(())
}

fn push_spare(alloc: Global, row: &mut Row, spare: &Spare) -> Result<(), AllocError>
    ensures { OnOk result (cells_of row.new ≡ cells_of row.old ++ spare_cells spare.now) }
{
    match spare {
        Spare::Unjudged => push_unjudged(alloc, row, b"-"),
        Spare::Over => push_unjudged(alloc, row, b"over"),
        Spare::Least { part, surplus } => {
            row.push(distance_text(alloc, surplus)?)?;
            row.push(number_cell(alloc, part.got)?)?;
            row.push(ticks_cell(alloc, part.from, part.ticks)?)?;
            Ok(())
        }
    }
}

fn push_room(alloc: Global, row: &mut Row, room: &Option<Room>) -> Result<(), AllocError>
    ensures { OnOk result (cells_of row.new ≡ cells_of row.old ++ room_cells room.now) }
{
    match room {
        None => {
            row.push(word_cell(alloc, b"-")?)?;
            row.push(word_cell(alloc, b"-")?)?;
        }
        Some(room) => {
            row.push(distance_text(alloc, &room.left)?)?;
            row.push(ticks_cell(alloc, room.part.from, room.part.ticks)?)?;
        }
    }
    Ok(())
}

fn push_longest(
    alloc: Global,
    row: &mut Row,
    longest: &Option<found::Row>,
) -> Result<(), AllocError>
    ensures { OnOk result (cells_of row.new ≡ cells_of row.old ++ longest_cells longest.now) }
{
    match longest {
        None => {
            row.push(word_cell(alloc, b"0")?)?;
            row.push(word_cell(alloc, b"-")?)?;
        }
        Some(ticks) => {
            row.push(number_cell(alloc, ticks.ticks)?)?;
            row.push(ticks_cell(alloc, ticks.from, ticks.ticks)?)?;
        }
    }
    Ok(())
}

fn margin_row(alloc: Global, m: &Margin) -> Result<Row, AllocError>
    requires { IsValid m.now.kept }
    ensures { IfOk result (λ row. cells_of row ≡ margin_cells m.now) }
{
    let mut row = Row::new(alloc);
    push_stay(alloc, &mut row, m)?;
    push_spare(alloc, &mut row, &m.spare)?;
    push_room(alloc, &mut row, &m.room)?;
    push_longest(alloc, &mut row, &m.wait)?;
    push_longest(alloc, &mut row, &m.window)?;
    Ok(row)
}

fn margin_rows(alloc: Global, margins: &[Margin]) -> Result<Vec<Row>, AllocError>
    requires { All (λ m. IsValid m.kept) margins.now }
    ensures { IfOk result (λ rows. map cells_of rows.items ≡ map margin_cells margins.now) }
{
    let mut rows = Vec::new(alloc);
    for m in margins {
        rows.push(margin_row(alloc, m)?)?;
    }
    Ok(rows)
}

/// Appends the table of margins, a line for each below the heads.
///
/// # Errors
/// Returns `AllocError` for want of memory.
pub fn write_margins(alloc: Global, out: &mut Vec<u8>, margins: &[Margin]) -> Result<(), AllocError>
    requires { All (λ m. IsValid m.kept) margins.now }
    ensures { OnOk result (out.new.items ≡ out.old.items ++ margins_text margins.now) }
{
    let rows = margin_rows(alloc, margins)?;
    let table = Table {
        columns: &COLUMNS,
        rows,
    };
    write_table(alloc, out, &table)
}
