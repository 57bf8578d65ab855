//! The slices of stays: on the track of each way of a thread its stay, and within it windows and runs.

ghost use Rattle.std.specs.Prelude.{◌≡◌, ◌&&◌, ℕ, List};
ghost use Rattle.hls_chron.specs.Ticks.{one_if};
ghost use Rattle.hls_report_text.specs.declared.report.Account.{Account};
ghost use Rattle.hls_report_text.specs.Content.{Content};
ghost use Rattle.hls_legal.specs.Ready.{is_ready};
ghost use Rattle.hls_view_tale.specs.declared.label.Label.{Label};
ghost use Rattle.hls_view_trace.specs.declared.event.Category.TheVariants.{Ready, Run};
ghost use Rattle.hls_view_trace.specs.declared.event.Place.{Place};
ghost use Rattle.hls_view_timeline.specs.Taken.{is_number, taken_at};
ghost use Rattle.hls_view_timeline.specs.Staying.{ready_in, taken_in, track_events};
ghost use Rattle.hls_view_timeline.specs.Counted.{held_as, is_in};

/// One run holds each tick of a stay that takes the way of the track, and none holds any other tick.
pub fn runs_hold_the_ticks_of_their_way()
    ensures { (c : Content) (ways : List (List Label)) (place : Place) (a : Account) (number t : ℕ) →
        held_as Run t (track_events place a (ready_in c a) (taken_in c ways a) number)
        ≡ one_if (is_in t a && is_number number (taken_at c ways t)) }
{}

/// One window holds each tick of a stay in which its thread is ready, and none holds any other tick.
pub fn windows_hold_the_ready_ticks()
    ensures { (c : Content) (ways : List (List Label)) (place : Place) (a : Account) (number t : ℕ) →
        held_as Ready t (track_events place a (ready_in c a) (taken_in c ways a) number)
        ≡ one_if (is_in t a && is_ready c a.name t) }
{}
