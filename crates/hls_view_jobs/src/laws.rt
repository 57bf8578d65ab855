//! What jobs tell: each function's contract is a law, and its body does nothing.

ghost use Rattle.std.specs.Prelude.{◌≡◌, ◌+◌, ◌≤◌, ◌<◌, ◌++◌, ◌∷◌, ℕ, List, Some, length, slice_get};
ghost use Rattle.hls_text.specs.Lines.{Text};
ghost use Rattle.hls_report_text.specs.declared.report.Answered.{Answered};
ghost use Rattle.hls_report_text.specs.Content.{Content};
ghost use Rattle.hls_report_text.specs.WellFormed.{IsContent};
ghost use Rattle.hls_guarantee.specs.Limits.{IsValid};
ghost use Rattle.hls_guarantee.specs.Satisfaction.{Satisfies};
ghost use Rattle.hls_legal.specs.declared.stay.Stay.{Stay};
ghost use Rattle.hls_legal.specs.Schedule.{is_served};
ghost use Rattle.hls_view_jobs.specs.declared.job.Release.{Release};
ghost use Rattle.hls_view_jobs.specs.declared.job.Fate.TheVariants.{Open};
ghost use Rattle.hls_view_jobs.specs.declared.job.Job.{Job};
ghost use Rattle.hls_view_jobs.specs.declared.summary.Summary.{Summary};
ghost use Rattle.hls_view_jobs.specs.Words.{words_on};
ghost use Rattle.hls_view_jobs.specs.Jobs.{releases, AreJobs, IsJob, stay_with};
ghost use Rattle.hls_view_jobs.specs.Promises.{IsWithinBound};
ghost use Rattle.hls_view_jobs.specs.Summaries.{IsSummary};

/// No two jobs of a thread have a tick in common: the ticks of each lie before the release of all later ones. Here `a`
/// is the command that admits the thread.
pub fn jobs_have_no_tick_in_common()
    ensures { (c : Content) (before : List Answered) (a : Answered) (after : List Answered) (name : Text)
        (jobs : List Job) (i j : ℕ) (one other : Job) → IsContent c → c.answered ≡ before ++ a ∷ after →
        AreJobs c name (releases (words_on c.horizon name after)) jobs → i < j → slice_get jobs i ≡ Some one →
        slice_get jobs j ≡ Some other → one.release + one.ticks ≤ other.release }
{}

/// At most the last job of a thread is open.
pub fn only_the_last_job_may_be_open()
    ensures { (c : Content) (before : List Answered) (a : Answered) (after : List Answered) (name : Text)
        (jobs : List Job) (i : ℕ) (one : Job) → IsContent c → c.answered ≡ before ++ a ∷ after →
        AreJobs c name (releases (words_on c.horizon name after)) jobs → slice_get jobs i ≡ Some one → one.fate ≡ Open →
        i + 1 ≡ length jobs }
{}

/// Each job is done, dropped or open, and exactly one of these.
pub fn jobs_are_done_dropped_or_open()
    ensures { (jobs : List Job) (s : Summary) → IsSummary jobs s → s.done + s.dropped + s.unfinished ≡ s.jobs }
{}

/// A job with a bound is done within it, and has fewer ticks where it is not done, if the guarantee of the stay that
/// has its ticks is kept over them.
pub fn jobs_are_within_their_bounds()
    ensures { (c : Content) (name : Text) (r : Release) (job : Job) (stay : Stay) (bound : ℕ) → IsValid stay.kept →
        1 ≤ r.asked → IsJob c name r job → stay_with c name job.release job.ticks ≡ Some stay →
        job.bound ≡ Some bound →
        Satisfies stay.kept (is_served c.stretches name) job.release (job.release + job.ticks) →
        IsWithinBound bound job job.fate }
{}
