// Tables as data.
ghost use Rattle.std.specs.Prelude.{◌≡◌, ◌∷◌, ◌++◌, [], OnOk};
ghost use Rattle.hls_view_table.specs.Tables.{cells_of};

use std::alloc::{AllocError, Global};

/// Where the cells of a column stand.
#[derive(Clone, Copy, Debug, PartialEq, Eq)]
pub enum Side {
    /// At the left, with blanks behind them.
    Left,
    /// At the right, with blanks before them, as numbers do.
    Right,
}

/// A column: what stands over it, and where its cells stand.
#[derive(Clone, Copy, Debug)]
pub struct Column {
    pub head: &'static str,
    pub side: Side,
}

/// The cells of a line, from the left.
#[derive(Debug, Drop)]
pub struct Row {
    pub cells: Vec<Vec<u8>>,
}

impl Row {
    /// A line without cells.
    pub fn new(alloc: Global) -> Row
        ensures { cells_of result ≡ [] }
    {
        Row {
            cells: Vec::new(alloc),
        }
    }

    /// Sets a cell behind the others.
    ///
    /// # Errors
    /// Returns `AllocError` for want of memory.
    pub fn push(&mut self, cell: Vec<u8>) -> Result<(), AllocError>
        ensures { OnOk result (cells_of self.new ≡ cells_of self.old ++ cell.items ∷ []) }
    {
        self.cells.push(cell)?;
        Ok(())
    }
}

/// A table: its columns, and its rows below the heads. A row may have fewer cells; of those beyond the last column
/// nothing is shown.
#[derive(Debug, Drop)]
pub struct Table<'a> {
    pub columns: &'a [Column],
    pub rows: Vec<Row>,
}
