//! What holds of the clauses: each function's contract is a law, and its body does nothing.

ghost use Rattle.std.specs.Prelude.{◌≡◌, ◌↔◌, ℕ, List, All, true, false};
ghost use Rattle.hls_text.specs.Lines.{Text};
ghost use Rattle.hls_scenario.specs.declared.scenario.Command.{Command};
ghost use Rattle.hls_scenario.specs.Grammar.{IsCommand};
ghost use Rattle.hls_scenario.specs.declared.scenario.Scenario.{Scenario};
ghost use Rattle.hls_report_text.specs.Content.{Content};
ghost use Rattle.hls_report_text.specs.WellFormed.{IsContent};
ghost use Rattle.hls_report_text.specs.declared.refusal.Refusal.{Refusal};
ghost use Rattle.hls_machine.specs.Hierarchy.{start};
ghost use Rattle.hls_machine.specs.Steps.{Step, state};
ghost use Rattle.hls_machine.specs.Legal.{IsLegal};
ghost use Rattle.hls_legal.specs.Tells.{Tells};
ghost use Rattle.hls_legal.specs.Stays.{stays};
ghost use Rattle.hls_legal.specs.Agrees.{IsKeptBy};
ghost use Rattle.hls_legal.specs.Moment.{Boxes, Moment};
ghost use Rattle.hls_legal.specs.Answers.{Applies};
ghost use Rattle.hls_legal.specs.Legal.{IsLegalContent};
ghost use Rattle.hls_legal.specs.Dues.{dues as hierarchy_dues};
ghost use Rattle.hls_audit_clauses.specs.Names.{tree_of};
ghost use Rattle.hls_audit_clauses.specs.Misplaced.{is_misplaced};
ghost use Rattle.hls_audit_clauses.specs.Dues.{dues};
ghost use Rattle.hls_audit_clauses.specs.Ways.{leads_down};
ghost use Rattle.hls_audit_clauses.specs.Descents.{HasDescent};
ghost use Rattle.hls_audit_clauses.specs.Reasons.{IsOfNames};
ghost use Rattle.hls_audit_clauses.specs.Clauses.{Clause, number_of, Fails};
ghost use Rattle.hls_audit_clauses.specs.Kept.{IsKept, IsBroken};

/// Every legal report is kept: no clause of the audit fails at any tick.
pub fn legal_reports_are_kept()
    ensures { (s : Scenario) (given : ℕ) (boxes : Boxes) (c : Content) → IsLegalContent s given boxes c → IsKept c }
{}

/// Whoever wrote it, a report that is kept gives each thread what is guaranteed for it, in every window of every
/// stay and not in the longest ones alone, and keeps the cap over each stay.
pub fn kept_reports_keep_their_stays()
    ensures { (c : Content) → IsContent c → IsKept c → All (IsKeptBy c) (stays c.answered) }
{}

/// An audit that names a broken clause names one that fails, so that such a report is not kept.
pub fn broken_reports_are_not_kept()
    ensures { (c : Content) (number t : ℕ) → IsBroken c number t → IsKept c → ⊥ }
{}

/// A report is broken in one way: at one tick, by one clause.
pub fn reports_are_broken_once()
    ensures { (c : Content) (n m t u : ℕ) → IsBroken c n t → IsBroken c m u → (t ≡ u) × (n ≡ m) }
{}

/// The tree of names that a legal run leaves allows a command exactly where no refusal applies that tells of
/// names, sorts and seats: none of the numbers 10, 11, 12, 15 and 19, and not 18 at the processor.
pub fn trees_allow_what_names_do_not_refuse()
    ensures { (c : Content) (steps : List Step) → IsLegal start steps → Tells c steps → (m : Moment) →
        m.hierarchy ≡ state start steps → (version : ℕ) (command : Command) → IsCommand version command →
        (is_misplaced (tree_of c.answered) command ≡ false) ↔ ((r : Refusal) → IsOfNames r → ¬ Applies m command r) }
{}

/// In the tree of names that a legal run leaves, names lead down exactly where nodes of these names do: the first
/// sits at the processor, each other on the one before it, and the last is a thread.
pub fn trees_lead_down_where_nodes_do()
    ensures { (c : Content) (steps : List Step) → IsLegal start steps → Tells c steps → (names : List Text) →
        (leads_down (tree_of c.answered) names ≡ true) ↔ HasDescent (state start steps) names }
{}

/// The tree of names that a legal run leaves tells for each command which seats are to be derived, and from what,
/// as the hierarchy does.
pub fn trees_tell_what_is_to_be_derived()
    ensures { (c : Content) (steps : List Step) → IsLegal start steps → Tells c steps → (command : Command) →
        dues (tree_of c.answered) command ≡ hierarchy_dues (state start steps) command }
{}
