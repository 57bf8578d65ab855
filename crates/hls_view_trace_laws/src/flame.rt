//! The slices of a schedule.

ghost use Rattle.std.specs.Prelude.{◌≡◌, ◌<◌, ℕ, []};
ghost use Rattle.std.specs.List.{AllPairs};
ghost use Rattle.hls_report_text.specs.Content.{Content};
ghost use Rattle.hls_report_text.specs.WellFormed.{IsContent};
ghost use Rattle.hls_legal.specs.Schedule.{path_at};
ghost use Rattle.hls_view_trace.specs.declared.event.Place.{Place};
ghost use Rattle.hls_view_tracks.specs.Flame.{names_in, flame};
ghost use Rattle.hls_view_trace_laws.specs.Held.{names_at};
ghost use Rattle.hls_view_trace_laws.specs.Nesting.{IsNested};

/// The slices that hold a tick are those of the names of its path, from the outer to the inner. So just those ticks are
/// held by so many slices, one within the other, whose path has as many names.
pub fn slices_at_a_tick_spell_its_path()
    ensures { (place : Place) (c : Content) (t : ℕ) → IsContent c → t < c.horizon →
        names_at t (flame place [] c.stretches) ≡ names_in (path_at c.stretches t) }
{}

/// Of any two slices the later one begins no earlier, and lies within the other or behind it.
pub fn slices_of_the_schedule_nest()
    ensures { (place : Place) (c : Content) → IsContent c → AllPairs IsNested (flame place [] c.stretches) }
{}
