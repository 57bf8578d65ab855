// A core.
ghost use Rattle.std.specs.Prelude.{◌≡◌, ◌≤◌, ◌<◌, ◌+◌, ◌-◌, ℕ, true, false, IfOk, OnErr, length, slice_get, []};
ghost use Rattle.std.specs.Prelude.{option_copied};
ghost use Rattle.hls_scenario.specs.declared.scenario.Scenario.{Scenario};
ghost use Rattle.hls_scenario.specs.Grammar.{IsScenario};
ghost use Rattle.hls_sched.specs.GoodKit.{IsGood};
ghost use Rattle.hls_sched.specs.Boxed.{boxed};
ghost use Rattle.hls_legal.specs.Moment.{Boxes};
ghost use Rattle.hls_legal.specs.Legal.{depth_in_force, IsLegalReport};

use crate::bursts::Bursts;
use hls_clock::Agenda;
use hls_core_journal::Journal;
use hls_core_stays::Stays;
use hls_report_text::{Answer, Report};
use hls_rules::RuleBook;
use hls_scenario::Scenario;
use hls_sched::{Kit, Scheduler};
use hls_tree::Tree;
use std::alloc::{AllocError, Global};

/// A scenario that is carried out, command by command and tick by tick.
#[derive(Drop)]
pub struct Core {
    pub(crate) alloc: Global,
    pub(crate) scenario: Scenario,
    pub(crate) depth: u8,
    pub(crate) kit: Kit,
    pub(crate) rules: RuleBook,
    pub(crate) tree: Tree,
    pub(crate) agenda: Agenda,
    pub(crate) journal: Journal,
    pub(crate) bursts: Bursts,
    pub(crate) stays: Stays,
}

/// The depth in force: the scenario's own, or else the one that is given.
fn depth_in_force(given: u8, own: Option<u8>) -> u8
    ensures { result ≡ depth_in_force given own }
{
    match own {
        Some(depth) => depth,
        None => given,
    }
}

impl Core {
    ghost use Rattle.hls_manager.specs.Outcomes.{boxes_in};
    ghost use Rattle.hls_machine.specs.Hierarchy.{start};
    ghost use Rattle.hls_machine.specs.Steps.{state};
    ghost use Rattle.hls_core.specs.Cores.{IsCoreOf, Runs, NoneDue};
    ghost use Rattle.hls_core.specs.Leaps.{IsLeap, IsLeapTo};
    ghost use Rattle.hls_core.specs.Readings.{scenario_of, now_of, next_of, answers_of, HasOneMore};

    /// Begins with a scenario, of which nothing was carried out. The scenario's own depth wins over the one
    /// that is given. Boxes come out of the kit, and derivations go by the rules.
    ///
    /// # Errors
    /// Returns `AllocError` for want of memory. What was handed in is dropped.
    pub fn open(
        alloc: Global,
        scenario: Scenario,
        depth: u8,
        kit: Kit,
        rules: RuleBook,
    ) -> Result<Core, AllocError>
        requires scenario { IsScenario scenario }
        requires depth { depth ≤ 6 }
        requires kit { IsGood (boxed seen) kit }
        ensures is { IfOk result (λ core. IsCoreOf seen core scenario depth (boxes_in kit)) }
        ensures now { IfOk result (λ core. now_of core ≡ 0) }
        ensures unanswered { IfOk result (λ core. answers_of core ≡ []) }
    {
        let journal = Journal::open(alloc, scenario.items.items(), scenario.horizon)?;
        let depth = depth_in_force(depth, scenario.depth);
        let tree = Tree::new(alloc, scenario.horizon);
        Ok(Core {
            alloc,
            scenario,
            depth,
            kit,
            rules,
            tree,
            agenda: Agenda::new(),
            journal,
            bursts: Bursts::new(alloc),
            stays: Stays::new(alloc),
        })
    }

    /// How many ticks have passed: the present tick.
    pub fn now(&self) -> u32
        ensures { result ≡ now_of self.now }
    {
        self.journal.ticks()
    }

    /// The answer of the command that was carried out last.
    pub fn last(&self) -> Option<&Answer>
        ensures { option_copied result ≡ slice_get (answers_of self.now) (length (answers_of self.now) - 1) }
    {
        self.journal.last()
    }

    /// Carries the next command out that is due, and tells whether one was. Where memory is wanting the
    /// command is still due.
    ///
    /// # Errors
    /// Returns `AllocError` for want of memory.
    pub fn command(&mut self) -> Result<bool, AllocError>
        requires { Runs seen self.old }
        ensures is { (s : Scenario) (given : ℕ) (boxes : Boxes) → IsCoreOf seen self.old s given boxes →
            IsCoreOf seen self.new s given boxes }
        ensures carried { IfOk result (λ carried. carried ≡ true → HasOneMore self.old self.new) }
        ensures none { IfOk result (λ carried. carried ≡ false →
            NoneDue (scenario_of self.new).items (next_of self.new) (now_of self.new)) }
        ensures same { IfOk result (λ carried. carried ≡ false → self.new ≡ self.old) }
        ensures still_due { OnErr result (next_of self.new ≡ next_of self.old) }
        ensures unanswered { OnErr result (answers_of self.new ≡ answers_of self.old) }
        ensures scenario { scenario_of self.new ≡ scenario_of self.old }
        ensures ticks { now_of self.new ≡ now_of self.old }
    {
        self.carry_next()
    }

    /// Lets one tick pass, once the commands of the present tick have their answers.
    pub fn tick(&mut self)
        requires runs { Runs seen self.old }
        requires none_due { NoneDue (scenario_of self.old).items (next_of self.old) (now_of self.old) }
        requires early { now_of self.old < (scenario_of self.old).horizon }
        ensures is { (s : Scenario) (given : ℕ) (boxes : Boxes) → IsCoreOf seen self.old s given boxes →
            IsCoreOf seen self.new s given boxes }
        ensures ticks { now_of self.new ≡ now_of self.old + 1 }
        ensures answers { answers_of self.new ≡ answers_of self.old }
        ensures scenario { scenario_of self.new ≡ scenario_of self.old }
        ensures next { next_of self.new ≡ next_of self.old }
    {
        self.pass_ticks(1);
    }

    /// Lets ticks pass, once the commands of the present tick have their answers: as many as nothing happens in, up to
    /// the next command, the horizon, the end of the burst of who is served, the first release of any thread's wake, or
    /// the first tick in which a scheduler may ask otherwise or serve another. Tells how many they are: one or more.
    pub fn leap(&mut self) -> u32
        requires runs { Runs seen self.old }
        requires none_due { NoneDue (scenario_of self.old).items (next_of self.old) (now_of self.old) }
        requires early { now_of self.old < (scenario_of self.old).horizon }
        ensures is { (s : Scenario) (given : ℕ) (boxes : Boxes) → IsCoreOf seen self.old s given boxes →
            IsCoreOf seen self.new s given boxes }
        ensures some { 0 < result }
        ensures leap { (s : Scenario) (given : ℕ) (boxes : Boxes) → (is : IsCoreOf seen self.old s given boxes) →
            IsLeap s (next_of self.old) (state start is.steps) result }
        ensures ticks { now_of self.new ≡ now_of self.old + result }
        ensures answers { answers_of self.new ≡ answers_of self.old }
        ensures scenario { scenario_of self.new ≡ scenario_of self.old }
        ensures next { next_of self.new ≡ next_of self.old }
    {
        let horizon = self.scenario.horizon;
        self.leap_to(horizon)
    }

    /// Lets ticks pass as `leap` does, but none from the tick `end` on.
    pub fn leap_to(&mut self, end: u32) -> u32
        requires runs { Runs seen self.old }
        requires none_due { NoneDue (scenario_of self.old).items (next_of self.old) (now_of self.old) }
        requires early { now_of self.old < end }
        requires within { end ≤ (scenario_of self.old).horizon }
        ensures is { (s : Scenario) (given : ℕ) (boxes : Boxes) → IsCoreOf seen self.old s given boxes →
            IsCoreOf seen self.new s given boxes }
        ensures some { 0 < result }
        ensures within { now_of self.new ≤ end }
        ensures leap { (s : Scenario) (given : ℕ) (boxes : Boxes) → (is : IsCoreOf seen self.old s given boxes) →
            IsLeapTo s (next_of self.old) end (state start is.steps) result }
        ensures ticks { now_of self.new ≡ now_of self.old + result }
        ensures answers { answers_of self.new ≡ answers_of self.old }
        ensures scenario { scenario_of self.new ≡ scenario_of self.old }
        ensures next { next_of self.new ≡ next_of self.old }
    {
        let most = self.ticks_ahead(end);
        self.pass_ticks(most)
    }

    /// The report of the scenario, once all its ticks have passed.
    ///
    /// # Errors
    /// Returns `AllocError` for want of memory.
    pub fn finish(self) -> Result<Report, AllocError>
        requires runs { Runs seen self }
        requires ended { now_of self ≡ (scenario_of self).horizon }
        ensures { IfOk result (λ report. (s : Scenario) (given : ℕ) (boxes : Boxes) →
            IsCoreOf seen self s given boxes → IsLegalReport s given boxes report) }
    {
        let Core {
            alloc,
            scenario,
            depth,
            kit,
            rules: _,
            tree,
            agenda: _,
            journal,
            bursts: _,
            stays,
        } = self;
        // A report takes much memory, so the books of the schedulers go first.
        drop(tree);
        drop(kit);
        let idle = stays.idle();
        let accounts = stays.accounts(alloc, journal.ticks())?;
        journal.finish(alloc, scenario, depth, accounts, idle)
    }
}
