// A scenario is told in the text of its report while it is carried out: what was told is not kept.
ghost use Rattle.std.specs.Prelude.{◌≡◌, ◌≤◌, ◌<◌, ◌+◌, ◌++◌, true, false, IfOk, OnOk};
ghost use Rattle.hls_scenario.specs.Grammar.{IsScenario};
ghost use Rattle.hls_report_text.specs.ReportText.{ended};
ghost use Rattle.hls_sched.specs.GoodKit.{IsGood};
ghost use Rattle.hls_sched.specs.Boxed.{boxed};
ghost use Rattle.hls_manager.specs.Outcomes.{boxes_in};
ghost use Rattle.hls_core.specs.Cores.{NoneDue};
ghost use Rattle.hls_core_stays.specs.Told as accounts;
ghost use Rattle.hls_core.specs.Texts.{IsLegalText, told_text};
ghost use Rattle.hls_core.specs.Inside.Tellings.{MayTell, TellsOn, HasUntold, TellsLast, TellsStays, TellsRest};

use crate::Core;
use crate::told::Told;
use hls_core_stays::Stays;
use hls_report_text::{put_answered, put_end, put_head};
use hls_rules::RuleBook;
use hls_scenario::Scenario;
use hls_sched::{Kit, Scheduler};
use hls_text::put;
use std::alloc::{AllocError, Global};

/// Tells of the command that was carried out last, and lets its answer go.
fn tell_last(core: &mut Core, text: &mut Vec<u8>) -> Result<(), AllocError>
    requires { HasUntold seen core.old text.old.items }
    ensures told { OnOk result (TellsLast seen core.old text.old.items core.new text.new.items) }
    ensures agenda { core.new.agenda ≡ core.old.agenda }
    ensures scenario { core.new.scenario ≡ core.old.scenario }
    ensures ticks { core.new.journal.ticks ≡ core.old.journal.ticks }
{
    let place = core.agenda.place() as usize - 1;
    let version = core.scenario.version;
    let item = &core.scenario.items.items()[place];
    match core.journal.take_last() {
        Some(answer) => put_answered(text, version, item.tick, &item.command, &answer),
        None => unreachable!(),
    }
}

/// Carries the next command out that is due, and tells of it. Returns whether one was due.
fn tell_command(core: &mut Core, text: &mut Vec<u8>) -> Result<bool, AllocError>
    requires { MayTell seen core.old text.old.items }
    ensures on { OnOk result (TellsOn seen core.old text.old.items core.new text.new.items) }
    ensures carried { IfOk result (λ carried. carried ≡ true → core.new.agenda ≡ core.old.agenda + 1) }
    ensures none { IfOk result (λ carried. carried ≡ false →
        NoneDue core.new.scenario.items core.new.agenda core.new.journal.ticks) }
    ensures scenario { core.new.scenario ≡ core.old.scenario }
    ensures ticks { core.new.journal.ticks ≡ core.old.journal.ticks }
{
    if !core.carry_next()? {
        return Ok(false);
    }
    tell_last(core, text)?;
    Ok(true)
}

/// Carries out the commands of the present tick, in their written order, and tells of them.
fn tell_due(core: &mut Core, text: &mut Vec<u8>) -> Result<(), AllocError>
    requires { MayTell seen core.old text.old.items }
    ensures on { OnOk result (TellsOn seen core.old text.old.items core.new text.new.items) }
    ensures none { OnOk result (NoneDue core.new.scenario.items core.new.agenda core.new.journal.ticks) }
    ensures ticks { core.new.journal.ticks ≡ core.old.journal.ticks }
    ensures scenario { core.new.scenario ≡ core.old.scenario }
{
    while tell_command(core, text)? {}
    Ok(())
}

/// Carries out all commands, tells of them, and lets all ticks pass, up to the horizon.
fn tell_all(core: &mut Core, text: &mut Vec<u8>) -> Result<(), AllocError>
    requires { MayTell seen core.old text.old.items }
    ensures on { OnOk result (TellsOn seen core.old text.old.items core.new text.new.items) }
    ensures ended { OnOk result (core.new.journal.ticks ≡ core.new.scenario.horizon) }
{
    let horizon = core.scenario.horizon;
    while core.now() < horizon {
        tell_due(core, text)?;
        core.pass_along();
    }
    Ok(())
}

/// Tells of the accounts and of the end, once all ticks have passed.
fn tell_accounts(alloc: Global, stays: Stays, now: u32) -> Result<Vec<u8>, AllocError>
    requires { accounts.MayTell stays now }
    ensures { IfOk result (λ text. TellsStays stays now text.items) }
{
    let mut text = Vec::new(alloc);
    let idle = stays.idle();
    put(&mut text, b"accounts\n")?;
    stays.put_accounts(&mut text, now)?;
    put_end(&mut text, idle)?;
    Ok(text)
}

/// Tells of the schedule and the accounts behind the text so far, once all commands were told. The memory of what is
/// not told any more is given back first.
fn tell_rest(core: Core, text: Vec<u8>) -> Result<Told, AllocError>
    requires may { MayTell seen core text.items }
    requires ended { core.journal.ticks ≡ core.scenario.horizon }
    ensures { IfOk result (λ told. TellsRest seen core text.items (told_text told)) }
{
    let Core {
        alloc,
        scenario,
        depth: _,
        kit,
        rules: _,
        tree,
        agenda: _,
        journal,
        bursts: _,
        stays,
    } = core;
    drop(tree);
    drop(kit);
    drop(scenario);
    let now = journal.ticks();
    let schedule = journal.into_schedule()?;
    let back = tell_accounts(alloc, stays, now)?;
    Told::new(alloc, text, schedule, back)
}

impl Core {
    /// Carries a scenario out, as a core that is opened with these, and returns the text of its report. An answer
    /// is told as soon as there is one, and not kept. What comes before the schedule is written into the room that is
    /// given, whose bytes go.
    ///
    /// # Errors
    /// Returns `AllocError` for want of memory. What was handed in is dropped.
    pub fn tell(
        alloc: Global,
        scenario: Scenario,
        depth: u8,
        kit: Kit,
        rules: RuleBook,
        room: Vec<u8>,
    ) -> Result<Told, AllocError>
        requires scenario { IsScenario scenario }
        requires depth { depth ≤ 6 }
        requires kit { IsGood (boxed seen) kit }
        ensures { IfOk result (λ told. IsLegalText scenario depth (boxes_in kit) (told_text told)) }
    {
        let mut text = room;
        text.clear();
        let mut core = Core::open(alloc, scenario, depth, kit, rules)?;
        put_head(
            &mut text,
            core.scenario.version,
            core.scenario.horizon,
            core.depth,
        )?;
        tell_all(&mut core, &mut text)?;
        tell_rest(core, text)
    }
}
