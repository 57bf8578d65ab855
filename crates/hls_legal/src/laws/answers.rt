//! What holds of the defined answers: each function's contract is a law, and its body does nothing.

ghost use Rattle.std.specs.Prelude.{◌≡◌, ◌<◌, ◌∷◌, ◌++◌, ◌⊎◌, [], ℕ, List, Some, slice_get};
ghost use Rattle.hls_scenario.specs.declared.scenario.Command.{Command};
ghost use Rattle.hls_scenario.specs.declared.scenario.Spot.{Spot};
ghost use Rattle.hls_derive.specs.declared.derivation.Derivation.{Derivation};
ghost use Rattle.hls_report_text.specs.declared.report.Answer.{Answer};
ghost use Rattle.hls_report_text.specs.declared.report.Answer.TheVariants.{Done, Refused};
ghost use Rattle.hls_report_text.specs.declared.report.Answered.{Answered};
ghost use Rattle.hls_report_text.specs.declared.report.Seated.{Seated};
ghost use Rattle.hls_report_text.specs.declared.refusal.Refusal.{Refusal};
ghost use Rattle.hls_scenario.specs.Grammar.{IsCommand};
ghost use Rattle.hls_machine.specs.Hierarchy.{Hierarchy, start};
ghost use Rattle.hls_machine.specs.Legal.{IsLegal};
ghost use Rattle.hls_machine.specs.Lists.{IsListed};
ghost use Rattle.hls_machine.specs.Steps.{Step, state};
ghost use Rattle.hls_legal.specs.Moment.{Boxes, Moment, spots_of};
ghost use Rattle.hls_legal.specs.Answers.{number, RefusesCommand, RefusesPlace, Applies, IsAnswer};
ghost use Rattle.hls_legal.specs.Dues.{Due, dues, Derives, IsUnderivable, AreSettled};
ghost use Rattle.hls_legal.specs.Refusals.{IsUnderived};
ghost use Rattle.hls_legal.specs.AlikeAnswers.{IsAlikeAnswer};
ghost use Rattle.hls_legal.specs.Along.{IsTick, AnswersAlong};
ghost use Rattle.hls_legal.specs.Doable.{MayDo, HasBox, AreDerivable};
ghost use Rattle.hls_legal.specs.Kit.{boxes_after, boxes_left};
ghost use Rattle.hls_legal.specs.Tested.{PassesPlaces, PassesPlacesBefore};

/// In a moment a command has one answer: the same refusal, with the same values, or the same seats, whose
/// derivations may differ but end in the same guarantee.
pub fn answers_are_determined()
    ensures { (m : Moment) (command : Command) (one two : Answer) → IsAnswer m command one →
        IsAnswer m command two → IsAlikeAnswer one two }
{}

/// There is no moment and no command of which every answer is wrong. Which answer is right is decided by the
/// tests of the refusals, and by whether a derivation exists.
pub fn no_command_lacks_an_answer()
    ensures { (m : Moment) (command : Command) → ¬ ((answer : Answer) → ¬ IsAnswer m command answer) }
{}

/// A refusal of each number applies with one set of values at most.
pub fn refusals_keep_one_value()
    ensures { (m : Moment) (command : Command) (one two : Refusal) → Applies m command one →
        Applies m command two → number one ≡ number two → one ≡ two }
{}

/// Where a step may be taken that does what a command asks for, no refusal applies but that the kit has no
/// box of the kind, and that a seat has no derivation. With a box and the derivations the command is done.
/// The lists have to be of what is there, as each legal run leaves them.
pub fn doable_commands_are_done()
    ensures only { (m : Moment) (command : Command) → IsListed m.hierarchy → MayDo m.hierarchy command →
        (r : Refusal) → Applies m command r → (number r ≡ 22) ⊎ (number r ≡ 24) }
    ensures done { (m : Moment) (command : Command) → IsListed m.hierarchy → MayDo m.hierarchy command →
        HasBox m.boxes command → AreDerivable m command →
        (seats : List Seated) × IsAnswer m command (Done seats) }
{}

/// Where a legal run leads, a command within the grammar to which no refusal applies, and whose seats have
/// derivations, is done by a step that may be taken. So the refusals, and the want of derivations, are exactly
/// what the machine forbids.
pub fn unrefused_commands_may_be_done()
    ensures { (past : List Step) → IsLegal start past → (m : Moment) → m.hierarchy ≡ state start past →
        (version : ℕ) (command : Command) → IsCommand version command → ((r : Refusal) → ¬ Applies m command r) →
        AreDerivable m command → MayDo m.hierarchy command }
{}

/// How tests find the answer: of the least number that anything has, a refusal of the whole command; else the one
/// at the first place that has the number; and done, where nothing refuses.
pub fn tests_find_the_answer()
    ensures whole { (m : Moment) (command : Command) (r : Refusal) →
        ((other : Refusal) → number other < number r → ¬ RefusesCommand m command other) →
        ((other : Refusal) → number other < number r → PassesPlaces m.hierarchy command other) →
        RefusesCommand m command r → IsAnswer m command (Refused r) }
    ensures place { (m : Moment) (command : Command) (r : Refusal) →
        ((other : Refusal) → number other < number r → ¬ RefusesCommand m command other) →
        ((other : Refusal) → number other < number r → PassesPlaces m.hierarchy command other) →
        ((other : Refusal) → number other ≡ number r → ¬ RefusesCommand m command other) →
        (port : ℕ) (spot : Spot) → slice_get (spots_of command) port ≡ Some spot →
        RefusesPlace m.hierarchy command spot r →
        ((other : Refusal) → number other ≡ number r → PassesPlacesBefore m.hierarchy command port other) →
        IsAnswer m command (Refused r) }
    ensures done { (m : Moment) (command : Command) (seats : List Seated) →
        ((r : Refusal) → ¬ RefusesCommand m command r) →
        ((r : Refusal) → PassesPlaces m.hierarchy command r) →
        AreSettled m.depth (dues m.hierarchy command) seats → IsAnswer m command (Done seats) }
{}

/// The first seat without a derivation is one that has none, where each seat before it has one.
pub fn searches_find_who_lacks_a_derivation()
    ensures { (m : Moment) (command : Command) (at : ℕ) (due : Due) →
        slice_get (dues m.hierarchy command) at ≡ Some due → IsUnderivable m.depth due →
        ((before : ℕ) (other : Due) → before < at → slice_get (dues m.hierarchy command) before ≡ Some other →
        (d : Derivation) × Derives m.depth other d) →
        IsUnderived m.hierarchy m.depth command due.name }
{}

/// The answers along a run go on by a command that is answered where the run leads, and by a tick.
pub fn answers_go_on()
    ensures command { (depth : ℕ) (h : Hierarchy) (boxes : Boxes) (steps : List Step) (answered : List Answered)
        (step : Step) (a : Answered) → AnswersAlong depth h boxes steps answered → ¬ IsTick step →
        IsAnswer (record { hierarchy = state h steps; boxes = boxes_left boxes answered; depth = depth })
        a.command a.answer →
        AnswersAlong depth h boxes (steps ++ step ∷ []) (answered ++ a ∷ []) }
    ensures tick { (depth : ℕ) (h : Hierarchy) (boxes : Boxes) (steps : List Step) (answered : List Answered)
        (tick : Step) → AnswersAlong depth h boxes steps answered → IsTick tick →
        AnswersAlong depth h boxes (steps ++ tick ∷ []) answered }
    ensures boxes { (boxes : Boxes) (answered : List Answered) (a : Answered) →
        boxes_left boxes (answered ++ a ∷ []) ≡ boxes_after (boxes_left boxes answered) a.command a.answer }
{}
