//! What holds of jobs: each function's contract is a law, and its body does nothing.

ghost use Rattle.std.specs.Prelude.{◌≡◌, ℕ, ◌+◌, ◌-◌, ◌≤◌, ◌<◌, Bool, List, Some, None};
ghost use Rattle.hls_chron.specs.Ledger.{Ledger, now_of};
ghost use Rattle.hls_chron.specs.Seats.{asked, served};
ghost use Rattle.hls_chron.specs.Ticks.{count};
ghost use Rattle.hls_kinds.specs.Tenants.{tenant_at};
ghost use Rattle.hls_kinds.specs.Made.{IsMade};
ghost use Rattle.hls_book.specs.Books.{IsGiven};
ghost use Rattle.hls_text.specs.Lines.{Text};
ghost use Rattle.hls_scenario.specs.declared.scenario.Scenario.{Scenario};
ghost use Rattle.hls_report_text.specs.declared.report.Answered.{Answered};
ghost use Rattle.hls_report_text.specs.Content.{Content};
ghost use Rattle.hls_machine.specs.Hierarchy.{start, had_asked, was_served};
ghost use Rattle.hls_machine.specs.Steps.{Step, state};
ghost use Rattle.hls_machine.specs.Legal.{IsLegal};
ghost use Rattle.hls_legal.specs.declared.stay.Stay.{Stay};
ghost use Rattle.hls_legal.specs.Accounts.{end_of};
ghost use Rattle.hls_legal.specs.Commands.{last_rousing};
ghost use Rattle.hls_legal.specs.Schedule.{is_served};
ghost use Rattle.hls_legal.specs.Tells.{Tells};
ghost use Rattle.hls_legal.specs.Moment.{Boxes};
ghost use Rattle.hls_legal.specs.Legal.{IsLegalContent};
ghost use Rattle.hls_legal_jobs.specs.Jobs.{AsksForJobs, AreInTime};
ghost use Rattle.hls_legal_jobs.specs.Runs.{HasReservation};
ghost use Rattle.hls_legal_jobs.specs.Kept.{KeepsJobs};
ghost use Rattle.hls_legal_jobs.specs.Reports.{IsReservedStay, IsWake, IsReleased, every_in, periods_for};
ghost use Rattle.hls_legal_jobs.specs.Reports.{due_in, IsWokenInTurn, IsServedInTime};

use hls_chron::{Config, Terms};
use hls_kinds::{Reservation, Tenant};

/// Jobs of a reservation, hard or soft, are in time, where its scheduler was given every tick in which it asked, since
/// its start or its last settling: each has what it asks for within the periods whose budgets that takes, and all that
/// is left of these budgets before their end, whatever else sits on the scheduler.
pub fn jobs_are_in_time()
    ensures { (b : Ledger) (slot : ℕ) (hard : Bool) (r : Reservation) (periods : ℕ → ℕ) (from : ℕ)
        (released : ℕ → Bool) → IsMade Config.Edf b → IsGiven b →
        tenant_at b slot ≡ Tenant.Sits (Terms.Res hard r.x r.y) r.since →
        AsksForJobs r periods from released (asked b slot) (served b slot) (now_of b) →
        AreInTime r periods from released (asked b slot) (served b slot) (now_of b) }
{}

/// So are those of each thread of a legal run, since its stay began, that has a reservation on a scheduler for which
/// every tick is guaranteed. What the run was before a stay ended is a legal run too, in which the stay goes on.
pub fn jobs_of_legal_runs_are_in_time()
    ensures { (steps : List Step) (k : ℕ) (r : Reservation) (periods : ℕ → ℕ) (from : ℕ)
        (released : ℕ → Bool) → IsLegal start steps → HasReservation (state start steps) k r →
        AsksForJobs r periods from released (had_asked (state start steps).past k)
        (was_served (state start steps).past k) (state start steps).now →
        AreInTime r periods from released (had_asked (state start steps).past k)
        (was_served (state start steps).past k) (state start steps).now }
{}

/// So are those of a thread by the commands and the schedule of a report that tells a legal run, up to the end of its
/// stay.
pub fn jobs_of_reports_are_in_time()
    ensures { (c : Content) (steps : List Step) (stay : Stay) (r : Reservation) (from : ℕ) → IsLegal start steps →
        Tells c steps → IsReservedStay c stay r → IsWokenInTurn c stay.name r from (end_of c stay) →
        IsServedInTime c stay.name r from (end_of c stay) }
{}

/// A wake for no more than the budget takes one period.
pub fn jobs_of_one_budget_take_one_period(r: Reservation)
    ensures { (ticks : ℕ) → 0 < ticks → ticks ≤ r.x →
        (periods_for r ticks ≡ 1) × (due_in r ticks ≡ r.y + ticks - r.x) }
{}

/// In a legal report all jobs are in time: those of reservations that are woken in turn, below a scheduler for which
/// every tick is guaranteed, and those of any thread by its printed guarantee alone, wherever it sits.
pub fn legal_reports_keep_their_jobs()
    ensures { (s : Scenario) (given : ℕ) (boxes : Boxes) (c : Content) → IsLegalContent s given boxes c → KeepsJobs c }
{}

/// Will a frame be in time? In a legal report a thread sits as `res x y` below a scheduler for which every tick is
/// guaranteed, and is woken in turn. Then it has the ticks of each release of a wake within `y` ticks where the wake is
/// for `x`, and sooner by what it is for less; unless there is a further word on it before, and as long as its stay
/// lasts.
pub fn frames_are_in_time()
    ensures { (s : Scenario) (given : ℕ) (boxes : Boxes) (c : Content) (stay : Stay) (r : Reservation) (from w : ℕ)
        (wake : Answered) (ticks : ℕ) → IsLegalContent s given boxes c → IsReservedStay c stay r →
        IsWokenInTurn c stay.name r from (end_of c stay) → from ≤ w → IsReleased c stay.name w wake ticks →
        0 < ticks → ticks ≤ r.x → w + (r.y + ticks - r.x) ≤ end_of c stay →
        ((t : ℕ) → w ≤ t → t < w + (r.y + ticks - r.x) → last_rousing stay.name t c.answered ≡ Some wake) →
        ticks ≤ count (is_served c.stretches stay.name) w (r.y + ticks - r.x) }
{}

/// The first release of a wake is in its own tick, and one that is not periodic has no other.
pub fn wakes_are_released()
    ensures first { (c : Content) (name : Text) (wake : Answered) (ticks : ℕ) → IsWake c name wake ticks →
        IsReleased c name wake.tick wake ticks }
    ensures once { (c : Content) (name : Text) (w : ℕ) (wake : Answered) (ticks : ℕ) →
        IsReleased c name w wake ticks → every_in wake.command ≡ None → w ≡ wake.tick }
{}
