//! What holds of what the program promises, and of its runs one after the other: each function's contract is a law,
//! and its body does
//! nothing.

ghost use Rattle.std.specs.Prelude.{◌≡◌, ◌≤◌, ℕ, List, length};
ghost use Rattle.hls_text.specs.Lines.{Text};
ghost use Rattle.hls_io.specs.declared.status.Status.{Status};
ghost use Rattle.hls_io.specs.declared.status.Status.TheVariants.{Done};
ghost use Rattle.hls_top_words.specs.declared.jobs.Job.TheVariants.{Check};
ghost use Rattle.hls_report_text.specs.Content.{Content};
ghost use Rattle.hls_machine.specs.Steps.{Step};
ghost use Rattle.hls_legal.specs.Moment.{Boxes};
ghost use Rattle.hls_legal.specs.Legal.{IsRun};
ghost use Rattle.hls_top.specs.Exchange.{Exchange, report_limit};
ghost use Rattle.hls_top.specs.Outputs.{IsReportOf};
ghost use Rattle.hls_top.specs.Musts.{Came, OrMemory, MustAnswer};
ghost use Rattle.hls_top.specs.Promises.{AnswersEach};

/// The promise on answers is as strong as the definition of a legal report there: a report that keeps it tells a legal
/// run in which each command has its defined answer.
pub fn reports_with_defined_answers_tell_runs()
    ensures { (boxes : Boxes) (c : Content) → AnswersEach boxes c →
        (steps : List Step) × IsRun c.depth boxes c steps }
{}

/// The report that `run` writes, where it is within the limit, is found kept by `check`.
pub fn check_keeps_what_run_writes()
    ensures { (depth : ℕ) (boxes : Boxes) (bytes output : Text) (x : Exchange) (status : Status) →
        IsReportOf depth boxes bytes output → Came x Check output → length output ≤ report_limit →
        MustAnswer x status → OrMemory status (status ≡ Done) }
{}
