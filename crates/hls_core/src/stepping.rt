// A core goes on. Its journal may have let go of answers that were told.
ghost use Rattle.std.specs.Prelude.{◌≡◌, ◌<◌, ◌≤◌, ◌+◌, true, false, IfOk, OnErr};

use crate::Core;
use crate::commands::carry_along;
use crate::ticks::{Leap, elapse};
use hls_scenario::Command;
use hls_sched::Scheduler;
use hls_tree::Tree;
use std::alloc::AllocError;

/// The key of the node that a command gave its name to, where it did: the place of the name is guessed by it.
fn new_key(tree: &Tree, command: &Command) -> usize {
    match command {
        Command::Load { name, .. } | Command::Thread { name, .. } => match tree.find(name) {
            Some(id) => id.key(),
            None => 0,
        },
        _ => 0,
    }
}

impl Core {
    ghost use Rattle.hls_machine.specs.Hierarchy.{Hierarchy};
    ghost use Rattle.hls_core.specs.Cores.{NoneDue, NoneWithin, IsUpTo};
    ghost use Rattle.hls_core.specs.Inside.Elapses.{MayElapse, IsStretch};
    ghost use Rattle.hls_core.specs.Inside.Sparing.{MayGoOn, GoesOn, StaysOn};

    /// Carries the next command out that is due, and tells whether one was. Where memory is wanting the
    /// command is still due.
    pub(crate) fn carry_next(&mut self) -> Result<bool, AllocError>
        requires { MayGoOn seen self.old }
        ensures carried { IfOk result (λ carried. carried ≡ true → GoesOn seen self.old self.new) }
        ensures none { IfOk result (λ carried. carried ≡ false →
            NoneDue self.new.scenario.items self.new.agenda self.new.journal.ticks) }
        ensures same { IfOk result (λ carried. carried ≡ false → self.new ≡ self.old) }
        ensures is { OnErr result (StaysOn seen self.old self.new) }
        ensures still_due { OnErr result (self.new.agenda ≡ self.old.agenda) }
        ensures unanswered { OnErr result (self.new.journal ≡ self.old.journal) }
        ensures scenario { self.new.scenario ≡ self.old.scenario }
        ensures ticks { self.new.journal.ticks ≡ self.old.journal.ticks }
    {
        let now = self.journal.ticks();
        let commands = self.scenario.items.items().len() as u32;
        let Some(command) = self.agenda.due(&self.scenario, now) else {
            return Ok(false);
        };
        let answer = carry_along(
            self.alloc,
            &mut self.tree,
            &mut self.kit,
            &mut self.bursts,
            &mut self.stays,
            &self.rules,
            self.depth,
            commands,
            command,
        )?;
        let key = new_key(&self.tree, command);
        self.journal.note(command, answer, key);
        self.agenda.advance();
        Ok(true)
    }

    /// How many ticks there are up to the next command, or up to the end if that is sooner.
    pub(crate) fn ticks_ahead(&self, end: u32) -> u32
        requires none_due { NoneDue self.now.scenario.items self.now.agenda self.now.journal.ticks }
        requires early { self.now.journal.ticks < end }
        ensures some { 0 < result }
        ensures none_due { NoneWithin self.now.scenario.items self.now.agenda self.now.journal.ticks result }
        ensures within { self.now.journal.ticks + result ≤ end }
        ensures next { IsUpTo self.now.scenario.items self.now.agenda end (self.now.journal.ticks + result) }
    {
        let now = self.journal.ticks();
        match self.agenda.next_after(&self.scenario, now) {
            Some(tick) => tick.min(end) - now,
            None => end - now,
        }
    }

    /// Lets ticks pass, in which no command is due: as many as the grant stays for, but at most so many. Tells how many
    /// they are.
    pub(crate) fn pass_ticks(&mut self, most: u32) -> u32
        requires may { MayGoOn seen self.old }
        requires some { 0 < most }
        requires none_due { NoneWithin self.old.scenario.items self.old.agenda self.old.journal.ticks most }
        requires early { self.old.journal.ticks + most ≤ self.old.scenario.horizon }
        ensures is { StaysOn seen self.old self.new }
        ensures answers { self.new.journal.answers ≡ self.old.journal.answers }
        ensures some { 0 < result }
        ensures most { result ≤ most }
        ensures stretch { (h : Hierarchy) → MayElapse seen self.old.tree self.old.bursts self.old.stays
            self.old.journal most h → IsStretch h most result }
        ensures ticks { self.new.journal.ticks ≡ self.old.journal.ticks + result }
        ensures scenario { self.new.scenario ≡ self.old.scenario }
        ensures agenda { self.new.agenda ≡ self.old.agenda }
    {
        let Leap { path, ticks } = elapse(
            &mut self.tree,
            &mut self.bursts,
            &mut self.stays,
            &self.journal,
            most,
        );
        self.journal.leap(path, ticks);
        ticks
    }

    /// Lets ticks pass, once the commands of the present tick have their answers: as many as nothing happens in. Tells
    /// how many they are.
    pub(crate) fn pass_along(&mut self) -> u32
        requires may { MayGoOn seen self.old }
        requires none_due { NoneDue self.old.scenario.items self.old.agenda self.old.journal.ticks }
        requires early { self.old.journal.ticks < self.old.scenario.horizon }
        ensures is { StaysOn seen self.old self.new }
        ensures answers { self.new.journal.answers ≡ self.old.journal.answers }
        ensures some { 0 < result }
        ensures ticks { self.new.journal.ticks ≡ self.old.journal.ticks + result }
        ensures scenario { self.new.scenario ≡ self.old.scenario }
        ensures agenda { self.new.agenda ≡ self.old.agenda }
    {
        let horizon = self.scenario.horizon;
        let most = self.ticks_ahead(horizon);
        self.pass_ticks(most)
    }
}
