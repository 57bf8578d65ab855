//! What holds of what happens in rows: each function's contract is a law, and its body does nothing.

ghost use Rattle.std.specs.Prelude.{◌≡◌, ℕ};
ghost use Rattle.hls_text.specs.Lines.{Text};
ghost use Rattle.hls_report_text.specs.Content.{Content};
ghost use Rattle.hls_view_jobs.specs.declared.job.Release.{Release};
ghost use Rattle.hls_view_jobs.specs.declared.job.Job.{Job};
ghost use Rattle.hls_view_jobs.specs.Jobs.{IsJob};
ghost use Rattle.hls_view_signs.specs.Happenings.{is_dropped};
ghost use Rattle.hls_view_signs.specs.Fates.{has_ended_by};

/// Work is dropped in a tick exactly where its job has the fate that a wake or a block in this tick dropped it.
pub fn a_drop_is_the_fate_of_a_job()
    ensures { (c : Content) (t : ℕ) (name : Text) (r : Release) (job : Job) → IsJob c name r job →
        is_dropped c t name r ≡ has_ended_by t job.fate }
{}
