//! What holds of what the program tells: each function's contract is a law, and its body does nothing.

ghost use Rattle.std.specs.Prelude.{◌≢◌, ◌↔◌, ℕ, List, Option, Contains};
ghost use Rattle.hls_io.specs.declared.status.Status.{Status};
ghost use Rattle.hls_io.specs.declared.status.Status.TheVariants.{Done as WorkDone};
ghost use Rattle.hls_text.specs.Lines.{Text};
ghost use Rattle.hls_chron.specs.declared.plain.Config.{Config};
ghost use Rattle.hls_chron.specs.declared.plain.Config.TheVariants.{Cpu};
ghost use Rattle.hls_chron.specs.declared.plain.Terms.{Terms};
ghost use Rattle.hls_chron.specs.Ledger.{Ledger};
ghost use Rattle.hls_chron.specs.Ranges.{TermsInRange};
ghost use Rattle.hls_kinds.specs.declared.fault.SeatFault.{SeatFault};
ghost use Rattle.hls_kinds.specs.Faults.{Applies};
ghost use Rattle.hls_scenario.specs.declared.scenario.Scenario.{Scenario};
ghost use Rattle.hls_scenario.specs.declared.scenario.Spot.TheVariants.{Under};
ghost use Rattle.hls_scenario.specs.declared.scenario.Command.{Command};
ghost use Rattle.hls_report_text.specs.declared.report.Seated.{Seated};
ghost use Rattle.hls_report_text.specs.declared.report.Answer.TheVariants.{Done};
ghost use Rattle.hls_legal.specs.Moment.{Boxes, Moment};
ghost use Rattle.hls_legal.specs.Answers.{IsAnswer};
ghost use Rattle.hls_legal.specs.Refusals.{HasFault};
ghost use Rattle.hls_top.specs.Exchange.{Exchange};
ghost use Rattle.hls_offer_text.specs.declared.left.Left.{Left};
ghost use Rattle.hls_offer_text.specs.OfferText.{Free};
ghost use Rattle.hls_offer_words.specs.declared.asked.Asked.{Asked};
ghost use Rattle.hls_offer_words.specs.Table.{IsQuestion};
ghost use Rattle.hls_offer.specs.Moments.{IsMoment};
ghost use Rattle.hls_offer.specs.Left.{IsLeft};
ghost use Rattle.hls_offer.specs.Told.{Told, TellsLeft};
ghost use Rattle.hls_offer.specs.Replies.{given_depth, Tells};
ghost use Rattle.hls_offer.specs.Ends.{Ends};
ghost use Rattle.hls_offer_reports.specs.Reports.{IsDoneInReports};
ghost use Rattle.hls_offer_reports.specs.Lines.{AllAreDone, AtLinesAreDone};
ghost use Rattle.hls_offer_reports.specs.Room.{HasTerms};

/// What would be done at the moment of a tick is done in reports: in each legal report of the scenario up to the tick,
/// with the command behind it, and in each one of the whole scenario, with the command put in behind its items up to
/// the tick.
pub fn what_would_be_done_is_done_in_reports()
    ensures { (s : Scenario) (given : ℕ) (boxes : Boxes) (tick : ℕ) (m : Moment) (command : Command)
        (seats : List Seated) → IsMoment s given boxes tick m → IsAnswer m command (Done seats) →
        IsDoneInReports s given boxes tick command }
{}

/// So is each request that is told: a line that begins with `at` is that of a command, which is done in such reports.
/// The question is one that words can ask.
pub fn what_is_told_is_done_in_reports()
    ensures { (a : Asked) (s : Scenario) (boxes : Boxes) (tick : ℕ) (status : Status) (output : Text)
        (tells : Tells a s boxes tick status output) → IsQuestion a.question →
        AtLinesAreDone s (given_depth a.depth) boxes tick tells.told.lines }
{}

/// So is each such line that the program writes at the status 0. Where no command of the scenario comes later, the line
/// may stand behind the text, and each run of the longer text tells that it is done.
pub fn what_is_written_is_done_in_reports()
    ensures { (x : Exchange) → Ends x WorkDone → AllAreDone x }
{}

/// Terms find no fault at a scheduler exactly where they are among those that are told to be left.
pub fn what_is_left_fits()
    ensures { (config : Config) (b : Ledger) (periods : List ℕ) (left : Left) (its : Terms) → config ≢ Cpu →
        TermsInRange its → IsLeft config b periods left →
        ((fault : SeatFault) → ¬ Applies config b its fault) ↔ HasTerms left its }
{}

/// At a moment nothing refuses a seat for its terms, its priority, its slot or its room exactly where its terms are
/// among those that the line of its scheduler tells.
pub fn what_is_told_to_be_left_fits()
    ensures { (s : Scenario) (given : ℕ) (boxes : Boxes) (tick : ℕ) (m : Moment) (periods : Option (List ℕ))
        (told : Told) (f : Free) (its : Terms) → IsMoment s given boxes tick m →
        (tells : TellsLeft s.version m periods told) → Contains tells.frees f → TermsInRange its →
        ((fault : SeatFault) → ¬ HasFault m.hierarchy (Under f.name its) f.name fault) ↔ HasTerms f.left its }
{}
