//! What holds of legal reports: each function's contract is a law, and its body does nothing.

ghost use Rattle.std.specs.Prelude.{◌≡◌, ◌∷◌, ◌++◌, [], ℕ, List, All, Option, Some, Bool, slice_get};
ghost use Rattle.hls_text.specs.Lines.{Text};
ghost use Rattle.hls_scenario.specs.declared.scenario.Scenario.{Scenario};
ghost use Rattle.hls_report_text.specs.declared.refusal.Refusal.{Refusal};
ghost use Rattle.hls_report_text.specs.declared.report.Answer.TheVariants.{Refused};
ghost use Rattle.hls_report_text.specs.declared.report.Answered.{Answered};
ghost use Rattle.hls_report_text.specs.Content.{Content};
ghost use Rattle.hls_machine.specs.Hierarchy.{start};
ghost use Rattle.hls_machine.specs.Steps.{Step, Path, Elapse, state};
ghost use Rattle.hls_machine.specs.Legal.{Can};
ghost use Rattle.hls_legal.specs.Tells.{Answers, Names};
ghost use Rattle.hls_legal.specs.Moment.{Boxes, Moment};
ghost use Rattle.hls_legal.specs.Answers.{IsAnswer};
ghost use Rattle.hls_legal.specs.Kit.{boxes_left};
ghost use Rattle.hls_legal.specs.Legal.{IsRun, IsLegalContent};
ghost use Rattle.hls_legal.specs.Grown.{with_answer, IsTickMore};
ghost use Rattle.hls_legal.specs.AlikeReports.{IsAlikeContent};
ghost use Rattle.hls_legal.specs.Kept.{KeepsAccount};
ghost use Rattle.hls_legal.specs.Without.{scenario_without, content_without};

/// A legal report keeps each guarantee that it prints: in every run of ticks of the account in all of which the
/// thread is ready, the schedule gives it what is guaranteed, and over the whole account the cap is kept.
pub fn legal_reports_keep_every_stay()
    ensures { (s : Scenario) (given : ℕ) (boxes : Boxes) (c : Content) → IsLegalContent s given boxes c →
        All (KeepsAccount c) c.accounts }
{}

/// Two legal reports of one scenario, depth and kit differ in derivations alone: they have the same answers,
/// refusals with their kept values included, one schedule, one list of accounts and the same idle ticks. Their
/// runs may number nodes otherwise, and give new books other room.
pub fn legal_reports_differ_in_derivations_alone()
    ensures { (s : Scenario) (given : ℕ) (boxes : Boxes) (one two : Content) → IsLegalContent s given boxes one →
        IsLegalContent s given boxes two → IsAlikeContent one two }
{}

/// A run that a report tells goes on, and the report with it: by a command of the present tick with its
/// defined answer and the step that does it, and by a tick with its path. The horizon of the report is the
/// present tick.
pub fn runs_go_on()
    ensures command { (depth : ℕ) (boxes : Boxes) (c : Content) (steps : List Step) (step : Step) (a : Answered) →
        IsRun depth boxes c steps → a.tick ≡ c.horizon → Can (state start steps) step →
        Answers (state start steps) a.command a.answer step →
        IsAnswer (record {
          hierarchy = state start steps;
          boxes = boxes_left boxes c.answered;
          depth = depth;
        }) a.command a.answer →
        IsRun depth boxes (with_answer c a) (steps ++ step ∷ []) }
    ensures tick { (depth : ℕ) (boxes : Boxes) (c longer : Content) (steps : List Step) (asking : ℕ → Bool)
        (masks : ℕ → ℕ) (path : Option Path) (names : Option (List Text)) → IsRun depth boxes c steps →
        Can (state start steps) (Elapse asking masks path) → Names (state start steps) path names →
        IsTickMore c longer names → IsRun depth boxes longer (steps ++ Elapse asking masks path ∷ []) }
{}

/// A refused command could be left out of the scenario: the report without it is legal, with the same
/// schedule, the same accounts and the same other answers.
pub fn refused_commands_may_be_left_out()
    ensures { (s : Scenario) (given : ℕ) (boxes : Boxes) (c : Content) (at : ℕ) (a : Answered) (r : Refusal) →
        IsLegalContent s given boxes c → slice_get c.answered at ≡ Some a → a.answer ≡ Refused r →
        IsLegalContent (scenario_without at s) given boxes (content_without at c) }
{}
