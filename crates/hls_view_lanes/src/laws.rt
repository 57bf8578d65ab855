//! What holds of rows: each function's contract is a law, and its body does nothing.

ghost use Rattle.std.specs.Prelude.{◌≡◌, ◌+◌, ◌<◌, ◌≤◌, ℕ, List, Some, None, true, false, slice_get};
ghost use Rattle.std.specs.List.{AllByRecursion, range_with_len, sum_by, count_by};
ghost use Rattle.hls_text.specs.Lines.{Text};
ghost use Rattle.hls_report_text.specs.Content.{Content};
ghost use Rattle.hls_legal.specs.Schedule.{path_at};
ghost use Rattle.hls_view_tale.specs.declared.label.Label.{Label};
ghost use Rattle.hls_view_lanes.specs.Rows.{ways_at, has_row, rows_of};
ghost use Rattle.hls_view_lanes.specs.Facts.{given_at, facts, idle_facts};
ghost use Rattle.hls_view_lanes.specs.Standing.{AreApart, IsSomeWay};
ghost use Rattle.hls_view_lanes.specs.Leaves.{IsDown, ServesAlone, IsGiven, goes_to};

/// Every place that somebody has in one of the ticks has a row.
pub fn every_place_has_a_row()
    ensures { (c : Content) (from ticks t i : ℕ) (way : List Label) → t < ticks →
        slice_get (ways_at c (from + t)) i ≡ Some way → has_row (rows_of c from ticks) way ≡ true }
{}

/// No two rows read alike.
pub fn no_row_stands_twice()
    ensures { (c : Content) (from ticks : ℕ) → AreApart (rows_of c from ticks) }
{}

/// Each row but the processor's own is a place that somebody has in one of the ticks.
pub fn every_row_is_a_place()
    ensures { (c : Content) (from ticks : ℕ) → AllByRecursion (IsSomeWay c from ticks) (rows_of c from ticks) }
{}

/// A tick whose path names a way down over schedulers to a thread is not idle, and of the rows that end in threads it
/// goes to the one that reads as this way, and to no other.
pub fn a_tick_goes_to_one_thread()
    ensures { (c : Content) (t : ℕ) (names : List Text) (way : List Label) → path_at c.stretches t ≡ Some names →
        given_at c t ≡ Some way → IsDown way → ServesAlone c t way }
{}

/// A tick without a path goes to the row for idle ticks, and to no other.
pub fn an_idle_tick_goes_to_nobody()
    ensures { (c : Content) (t : ℕ) → path_at c.stretches t ≡ None →
        ((idle_facts c t).served ≡ true) × ((row : List Label) → (facts c t row).served ≡ false) }
{}

/// Where each of some ticks in a row is idle, or has a path that names a way down over schedulers to a thread, each
/// goes to just one row: how many go to each row that ends in a thread, and how many are idle, come to all of them.
pub fn threads_and_idleness_share_out_the_ticks()
    ensures { (c : Content) (from ticks a n : ℕ) → from ≤ a → a + n ≤ from + ticks →
        ((t : ℕ) → a ≤ t → t < a + n → IsGiven c t) →
        sum_by (λ row. count_by (λ t. goes_to c t row) (range_with_len a n)) (rows_of c from ticks)
        + count_by (λ t. (idle_facts c t).served) (range_with_len a n) ≡ n }
{}
