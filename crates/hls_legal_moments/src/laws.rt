//! What holds of the answers of reports: each function's contract is a law, and its body does nothing.

ghost use Rattle.std.specs.Prelude.{◌≡◌, ◌∷◌, ◌++◌, ℕ, List, length, map};
ghost use Rattle.hls_scenario.specs.declared.scenario.Item.{Item};
ghost use Rattle.hls_report_text.specs.Content.{Content};
ghost use Rattle.hls_report_text.specs.ReportText.{item_of};
ghost use Rattle.hls_machine.specs.Steps.{Step};
ghost use Rattle.hls_legal.specs.Moment.{Boxes};
ghost use Rattle.hls_legal.specs.Legal.{IsRun};
ghost use Rattle.hls_legal_moments.specs.Moments.{moment_behind, IsAnsweredAt};

/// An answer depends on nothing behind it: in a report that tells a run, a command has the answer that is defined at
/// the moment where any other run of the commands before it leads, whatever comes behind it. The horizon of the report
/// of that other run is the tick of the command.
pub fn answers_depend_on_nothing_behind_them()
    ensures { (depth : ℕ) (boxes : Boxes) (c d : Content) (steps others : List Step) (item : Item) (later : List Item) →
        IsRun depth boxes c steps → IsRun depth boxes d others → item.tick ≡ c.horizon →
        map item_of d.answered ≡ map item_of c.answered ++ item ∷ later →
        IsAnsweredAt (moment_behind depth boxes c steps) d (length c.answered) item }
{}
