//! What jobs tell: each function's contract is a law, and its body does nothing.

ghost use Rattle.std.specs.Prelude.{◌≡◌, ◌+◌, ◌≤◌, ◌<◌, ◌↔◌, ℕ, List, All, Any, Contains, true, sum, map, filter};
ghost use Rattle.hls_text.specs.Lines.{Text};
ghost use Rattle.hls_scenario.specs.declared.scenario.Scenario.{Scenario};
ghost use Rattle.hls_report_text.specs.Content.{Content};
ghost use Rattle.hls_report_text.specs.WellFormed.{IsContent};
ghost use Rattle.hls_legal.specs.Schedule.{is_served};
ghost use Rattle.hls_legal.specs.Ready.{is_ready};
ghost use Rattle.hls_legal.specs.Moment.{Boxes};
ghost use Rattle.hls_legal.specs.Legal.{IsLegalContent};
ghost use Rattle.hls_audit_clauses.specs.Clauses.{Ready, Supplied};
ghost use Rattle.hls_view_jobs.specs.declared.job.Release.{Release};
ghost use Rattle.hls_view_jobs.specs.declared.job.Job.{Job};
ghost use Rattle.hls_view_jobs.specs.declared.summary.Which.TheVariants.{Open};
ghost use Rattle.hls_view_jobs.specs.declared.summary.Number.TheVariants.{Lack, Ticks};
ghost use Rattle.hls_view_jobs.specs.declared.summary.Summary.{Summary};
ghost use Rattle.hls_view_jobs.specs.declared.summary.ThreadJobs.{ThreadJobs};
ghost use Rattle.hls_view_jobs.specs.Words.{end_in};
ghost use Rattle.hls_view_jobs.specs.Jobs.{AreJobs};
ghost use Rattle.hls_view_jobs.specs.Threads.{Life, lasting, AreJobsOf};
ghost use Rattle.hls_view_jobs.specs.Summaries.{number, of_fate, IsSummary, IsLine, AreLines};
ghost use Rattle.hls_view_job_laws.specs.Jobs.{IsTickOf, IsReadyThroughout, KeepsBound};
ghost use Rattle.hls_view_job_laws.specs.Lives.{HasJobs, IsWokenForJobs, releases_in, ticks_with};
ghost use Rattle.hls_view_job_laws.specs.Lines.{AreLinesInBound};
ghost use Rattle.hls_view_job_laws.specs.Clauses.{NeverFails};

/// In all ticks of a job its thread is ready.
pub fn threads_are_ready_in_their_jobs()
    ensures { (c : Content) (name : Text) (jobs : List Job) → IsContent c → AreJobsOf c name jobs →
        All (IsReadyThroughout c name) jobs }
{}

/// The line of a thread has as many jobs as it has wakes and later releases of periodic ones exactly where each wake
/// releases a job. In version 1, where no wake has a later release, that is how many wakes the line tells; else it
/// tells no more wakes than jobs where each releases one.
pub fn lines_tell_whether_each_wake_releases_a_job()
    ensures releases { (c : Content) (life : Life) (line : ThreadJobs) → IsLine c life line →
        (releases_in life ≡ line.summary.jobs) ↔ IsWokenForJobs life }
    ensures wakes { (c : Content) (life : Life) (line : ThreadJobs) → IsContent c → Contains (lasting c) life →
        IsLine c life line → c.version ≡ 1 → (line.wakes ≡ line.summary.jobs) ↔ IsWokenForJobs life }
    ensures few { (c : Content) (life : Life) (line : ThreadJobs) → IsContent c → Contains (lasting c) life →
        IsLine c life line → IsWokenForJobs life → line.wakes ≤ line.summary.jobs }
{}

/// Where each wake of a thread releases a job, the ticks of its jobs are exactly those in which it is ready.
pub fn jobs_have_the_ready_ticks()
    ensures each { (c : Content) (life : Life) (jobs : List Job) (t : ℕ) → IsContent c → HasJobs c life jobs →
        IsWokenForJobs life → life.from ≤ t → t < end_in c.horizon life.words →
        (is_ready c life.name t ≡ true) ↔ Any (λ (job : Job). IsTickOf job t) jobs }
    ensures all { (c : Content) (life : Life) (jobs : List Job) → IsContent c → HasJobs c life jobs →
        IsWokenForJobs life → sum (map (number Ticks) jobs) ≡ ticks_with c life (is_ready c life.name) }
{}

/// Where no thread runs unready besides, what its jobs got adds up to the ticks in which it is served.
pub fn jobs_have_the_served_ticks()
    ensures { (c : Content) (life : Life) (jobs : List Job) → IsContent c → NeverFails Ready c → HasJobs c life jobs →
        IsWokenForJobs life →
        sum (map (λ (job : Job). job.got) jobs) ≡ ticks_with c life (is_served c.stretches life.name) }
{}

/// What jobs got is what they asked for, but for what dropped ones lost and what open ones still lack.
pub fn jobs_got_what_they_asked_for_or_lack_it()
    ensures { (c : Content) (name : Text) (all : List Release) (jobs : List Job) (s : Summary) →
        AreJobs c name all jobs → IsSummary jobs s →
        sum (map (λ (job : Job). job.got) jobs) + s.lost + sum (map (number Lack) (filter (of_fate Open) jobs))
        ≡ s.asked }
{}

/// Where each stay has what is guaranteed for it in every window in which its thread is ready, each job with a bound is
/// done within it, and has fewer ticks where it is not done.
pub fn jobs_keep_their_bounds()
    ensures { (c : Content) (name : Text) (jobs : List Job) → IsContent c → NeverFails Supplied c →
        AreJobsOf c name jobs → All KeepsBound jobs }
{}

/// So the line of a thread tells no response above its bound; and neither a wake nor a later release of one drops a
/// job, where each wake releases one and they are no closer than the bound.
pub fn lines_keep_their_bounds()
    ensures { (c : Content) (lines : List ThreadJobs) → IsContent c → NeverFails Supplied c →
        AreLines c (lasting c) lines → AreLinesInBound (lasting c) lines }
{}

/// A legal report keeps all these bounds: those of its jobs, and those of its lines.
pub fn legal_reports_keep_their_bounds()
    ensures jobs { (s : Scenario) (given : ℕ) (boxes : Boxes) (c : Content) (name : Text) (jobs : List Job) →
        IsLegalContent s given boxes c → AreJobsOf c name jobs → All KeepsBound jobs }
    ensures lines { (s : Scenario) (given : ℕ) (boxes : Boxes) (c : Content) (lines : List ThreadJobs) →
        IsLegalContent s given boxes c → AreLines c (lasting c) lines → AreLinesInBound (lasting c) lines }
{}

/// In a legal report what the jobs of a thread got adds up to the ticks in which it is served, where each wake of it
/// releases a job.
pub fn jobs_of_legal_reports_have_the_served_ticks()
    ensures { (s : Scenario) (given : ℕ) (boxes : Boxes) (c : Content) (life : Life) (jobs : List Job) →
        IsLegalContent s given boxes c → HasJobs c life jobs → IsWokenForJobs life →
        sum (map (λ (job : Job). job.got) jobs) ≡ ticks_with c life (is_served c.stretches life.name) }
{}
