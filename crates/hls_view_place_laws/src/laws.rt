//! What holds of places and of pictures: each function's contract is a law, and its body does nothing.

ghost use Rattle.std.specs.Prelude.{◌≡◌, ◌≢◌, ◌↔◌, ◌≤◌, ◌+◌, ℕ, List, [], None, map};
ghost use Rattle.std.specs.List.{AllPairs, Contains, sum_by};
ghost use Rattle.hls_report_text.specs.Content.{Content};
ghost use Rattle.hls_report_text.specs.WellFormed.{IsContent};
ghost use Rattle.hls_legal.specs.Schedule.{path_at};
ghost use Rattle.hls_audit_clauses.specs.Names.{tree_at};
ghost use Rattle.hls_audit.specs.declared.auditing.Outcome.{Outcome};
ghost use Rattle.hls_audit.specs.declared.auditing.Outcome.TheVariants.{Kept};
ghost use Rattle.hls_audit.specs.Audits.{IsTale};
ghost use Rattle.hls_view_tale.specs.declared.label.Label.{Label};
ghost use Rattle.hls_view_tale.specs.declared.place.Place.{Place};
ghost use Rattle.hls_view_tale.specs.declared.hierarchy.Hierarchy.{Hierarchy};
ghost use Rattle.hls_view_tale.specs.Places.{labels_of};
ghost use Rattle.hls_view_tale.specs.Hierarchies.{IsHierarchy};
ghost use Rattle.hls_view_scale.specs.declared.scale.Scale.{Scale};
ghost use Rattle.hls_view_scale.specs.Columns.{ticks_in};
ghost use Rattle.hls_view_lanes.specs.Leaves.{IsGiven};
ghost use Rattle.hls_view_picture_rows.specs.declared.picture.Picture.{Picture};
ghost use Rattle.hls_view_drawing.specs.Rows.{data_of};
ghost use Rattle.hls_view_drawing.specs.Drawing.{IsDrawing};
ghost use Rattle.hls_view_place_laws.specs.Tales.{TellsUpTo};
ghost use Rattle.hls_view_place_laws.specs.Ways.{IsWayDown};
ghost use Rattle.hls_view_place_laws.specs.Shares.{shown_rows, leaves_below, served_in, idle_in};
ghost use Rattle.hls_view_place_laws.specs.Reading.{path_shown};

/// A tale tells up to each of its ticks, so that each law below holds of each tick of a report that tells a tale.
pub fn a_tale_tells_up_to_each_tick()
    ensures { (c : Content) (t : ℕ) → IsTale c Kept → TellsUpTo c t }
{}

/// A tick that is not idle has a path that names a way down over schedulers to a thread.
pub fn each_path_names_a_way()
    ensures { (c : Content) (t : ℕ) → IsContent c → TellsUpTo c t → IsGiven c t }
{}

/// The places of a tick are exactly the ways down in its tree of names.
pub fn places_are_the_ways_down()
    ensures { (c : Content) (t : ℕ) (h : Hierarchy) → IsContent c → TellsUpTo c t → IsHierarchy c t h →
        (place : Place) → Contains h.places.items place ↔ IsWayDown (tree_at t c.answered) None (labels_of place) }
{}

/// No place of a tick stands twice.
pub fn places_stand_once()
    ensures { (c : Content) (t : ℕ) (h : Hierarchy) → IsContent c → TellsUpTo c t → IsHierarchy c t h →
        AllPairs (λ (a b : Place). a ≢ b) h.places.items }
{}

/// In each column a row has as many ticks as the threads' rows below it together, or as it has itself where it is one.
pub fn threads_below_a_row_share_out_its_ticks()
    ensures { (c : Content) (s : Scale) (column : ℕ) (row : List Label) → IsContent c → TellsUpTo c s.to →
        sum_by (served_in c s column) (leaves_below (shown_rows c s) row) ≡ served_in c s column row }
{}

/// The ticks of a column that go to each of the threads' rows, and those that are idle, come to all of its ticks.
pub fn threads_and_idleness_share_out_each_column()
    ensures { (c : Content) (s : Scale) (column : ℕ) → IsContent c → TellsUpTo c s.to →
        sum_by (served_in c s column) (leaves_below (shown_rows c s) []) + idle_in c s column ≡ ticks_in s column }
{}

/// Where each column of a picture is a tick, the path of the tick is told by the strong bar of the column: it has the
/// names of its row, from the top, and there is none where that is the row for idle ticks.
pub fn strong_bars_tell_the_paths()
    ensures { (c : Content) (audit : Outcome) (s : Scale) (p : Picture) (column : ℕ) → IsContent c →
        TellsUpTo c s.to → IsDrawing c audit s p → s.ticks ≡ 1 → s.from + column ≤ s.to →
        path_shown (map data_of p.rows.items) column ≡ path_at c.stretches (s.from + column) }
{}

/// Two reports of which one picture can be drawn, with a tick to each column, have the same schedule in its ticks.
pub fn equal_pictures_tell_equal_schedules()
    ensures { (c d : Content) (audit other : Outcome) (s : Scale) (p : Picture) (t : ℕ) → IsContent c → IsContent d →
        TellsUpTo c s.to → TellsUpTo d s.to → IsDrawing c audit s p → IsDrawing d other s p → s.ticks ≡ 1 →
        s.from ≤ t → t ≤ s.to → path_at c.stretches t ≡ path_at d.stretches t }
{}
