//! What holds of tables as text: each function's contract is a law, and its body does nothing.

ghost use Rattle.std.specs.Prelude.{◌≡◌, List};
ghost use Rattle.std.specs.List.{AllByRecursion};
ghost use Rattle.hls_text.specs.Lines.{Text};
ghost use Rattle.hls_view_table.specs.declared.table.Side.{Side};
ghost use Rattle.hls_view_table.specs.Tables.{aligned};
ghost use Rattle.hls_view_table.specs.Cells.{IsLine};

/// The text of a table determines its heads and its cells, at whichever sides they stand.
pub fn text_determines_cells()
    ensures { (sides others : List Side) (one two : List (List Text)) → AllByRecursion (IsLine sides) one →
        AllByRecursion (IsLine others) two → aligned sides one ≡ aligned others two → one ≡ two }
{}
