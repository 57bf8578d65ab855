// What is read of a core between its commands: the tree as it stands, and what a request would be answered.
ghost use Rattle.std.specs.Prelude.{◌≡◌, IfOk};
ghost use Rattle.hls_scenario.specs.Grammar.{IsCommand};
ghost use Rattle.hls_report_text.specs.WellFormed.{MayAnswer as IsWellFormed};
ghost use Rattle.hls_legal.specs.Moment.{Moment};
ghost use Rattle.hls_legal.specs.Answers.{IsAnswer};
ghost use Rattle.hls_manager.specs.Outcomes.{IsRequest};

use crate::Core;
use hls_manager::ask;
use hls_report_text::Answer;
use hls_rules::RuleBook;
use hls_scenario::Command;
use hls_sched::Scheduler;
use hls_tree::Tree;
use std::alloc::AllocError;

impl Core {
    ghost use Rattle.hls_core.specs.Cores.{Runs};
    ghost use Rattle.hls_core.specs.Asking.{IsMomentOf};

    /// The tree as it stands.
    pub fn tree(&self) -> &Tree
        ensures { result.now ≡ self.now.tree }
    {
        &self.tree
    }

    /// The depth in force.
    pub fn depth(&self) -> u8
        ensures { result ≡ self.now.depth }
    {
        self.depth
    }

    /// The rules that derivations go by.
    pub fn rules(&self) -> &RuleBook
        ensures { result.now ≡ self.now.rules }
    {
        &self.rules
    }

    /// What the admission of a thread, or a move, would be answered at this moment. Nothing is carried out.
    ///
    /// # Errors
    /// Returns `AllocError` for want of memory.
    pub fn ask(&self, command: &Command) -> Result<Answer, AllocError>
        requires runs { Runs seen self.now }
        requires kind { IsRequest command.now }
        requires command { IsCommand 2 command.now }
        ensures is { IfOk result (λ answer. (m : Moment) → IsMomentOf seen self.now m → IsAnswer m command.now answer) }
        ensures formed { IfOk result (λ answer. IsWellFormed command.now answer) }
    {
        ask(self.alloc, &self.tree, &self.rules, self.depth, command)
    }
}
