//! The texts of traces.

ghost use Rattle.std.specs.Prelude.{◌<◌, ◌^◌, ℕ, []};
ghost use Rattle.std.specs.List.{AllByRecursion};
ghost use Rattle.hls_report_text.specs.Content.{Content};
ghost use Rattle.hls_report_text.specs.WellFormed.{IsContent};
ghost use Rattle.hls_view_trace.specs.declared.event.Event.{Event};
ghost use Rattle.hls_view_trace.specs.declared.event.Place.{Place};
ghost use Rattle.hls_view_trace.specs.declared.event.Trace.{Trace};
ghost use Rattle.hls_view_trace.specs.Events.{event_text};
ghost use Rattle.hls_view_trace.specs.Traces.{trace_text};
ghost use Rattle.hls_view_tracks.specs.Commands.{instants};
ghost use Rattle.hls_view_tracks.specs.Flame.{flame};
ghost use Rattle.hls_view_trace_laws.specs.Json.{IsJson, IsObject};
ghost use Rattle.hls_view_trace_laws.specs.Plain.{IsHeldPlace, IsPlainEvent, IsPlainTrace};

/// The text of an event is an object in JSON.
pub fn events_are_objects()
    ensures { (tick : ℕ) (event : Event) → tick < 2 ^ 32 → IsPlainEvent event → IsObject (event_text tick event) [] }
{}

/// The text of a trace is JSON.
pub fn traces_are_json()
    ensures { (trace : Trace) → IsPlainTrace trace → IsJson (trace_text trace) }
{}

/// The slices of the schedule of a report have nothing that JSON must escape.
pub fn schedules_are_plain()
    ensures { (place : Place) (c : Content) → IsContent c → IsHeldPlace place →
        AllByRecursion IsPlainEvent (flame place [] c.stretches) }
{}

/// The commands of a report, and the answers to them, have nothing that JSON must escape.
pub fn commands_are_plain()
    ensures { (place : Place) (c : Content) → IsContent c → IsHeldPlace place →
        AllByRecursion IsPlainEvent (instants c.version place c.answered) }
{}
