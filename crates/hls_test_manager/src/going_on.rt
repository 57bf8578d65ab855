// A scenario that is carried out on a core, where each command is carried out once more if memory was wanting.
ghost use Rattle.std.specs.Prelude.{◌≡◌, ◌≤◌, ◌+◌, ℕ, true, false, IfOk, OnOk};
ghost use Rattle.hls_scenario.specs.declared.scenario.Scenario.{Scenario};
ghost use Rattle.hls_sched.specs.GoodKit.{IsGood};
ghost use Rattle.hls_sched.specs.Boxed.{boxed};
ghost use Rattle.hls_legal.specs.Moment.{Boxes};
ghost use Rattle.hls_core.specs.Cores.{IsCoreOf, Runs, NoneDue};

use hls_core::Core;
use hls_lang::read_scenario;
use hls_report_text::write_report;
use hls_rules::RuleBook;
use hls_sched::{Kit, Scheduler};
use std::alloc::{AllocError, Global};

/// How many conversions a derivation may have.
const DEPTH: u8 = 3;

/// A reservation that begins anew when its scheduler is moved.
const SETTLING: &str = "hls 1\nhorizon 11\n\
    at 0 load root fp on cpu as ALL\n\
    at 0 load e edf on root prio 1 as NULL\n\
    at 0 thread a on e res 2 4 hard as NULL\n\
    at 0 thread b on root prio 0 as ALL\n\
    at 0 wake a\n\
    at 0 wake b\n\
    at 3 end b\n\
    at 3 move e to root prio 0 as ALL\n";

/// Carries the next command out that is due, once more where memory was wanting, and tells whether one was.
fn command_anyway(core: &mut Core) -> Result<bool, AllocError>
    requires { Runs seen core.old }
    ensures is { (s : Scenario) (given : ℕ) (boxes : Boxes) → IsCoreOf seen core.old s given boxes →
        IsCoreOf seen core.new s given boxes }
    ensures carried { IfOk result (λ carried. carried ≡ true → core.new.agenda ≡ core.old.agenda + 1) }
    ensures none { IfOk result (λ carried. carried ≡ false →
        NoneDue core.new.scenario.items core.new.agenda core.new.journal.ticks) }
    ensures scenario { core.new.scenario ≡ core.old.scenario }
    ensures ticks { core.new.journal.ticks ≡ core.old.journal.ticks }
{
    match core.command() {
        Ok(carried) => Ok(carried),
        Err(_) => core.command(),
    }
}

/// Carries out the commands of the present tick.
fn carry_out_due(core: &mut Core) -> Result<(), AllocError>
    requires runs { Runs seen core.old }
    ensures is { OnOk result ((s : Scenario) (given : ℕ) (boxes : Boxes) → IsCoreOf seen core.old s given boxes →
        IsCoreOf seen core.new s given boxes) }
    ensures none { OnOk result (NoneDue core.new.scenario.items core.new.agenda core.new.journal.ticks) }
    ensures ticks { core.new.journal.ticks ≡ core.old.journal.ticks }
    ensures scenario { core.new.scenario ≡ core.old.scenario }
{
    while command_anyway(core)? {}
    Ok(())
}

/// Carries out all commands and lets all ticks pass, up to the horizon.
fn run_to(core: &mut Core, horizon: u32) -> Result<(), AllocError>
    requires runs { Runs seen core.old }
    requires horizon { horizon ≡ core.old.scenario.horizon }
    ensures is { OnOk result ((s : Scenario) (given : ℕ) (boxes : Boxes) → IsCoreOf seen core.old s given boxes →
        IsCoreOf seen core.new s given boxes) }
    ensures ended { OnOk result (core.new.journal.ticks ≡ core.new.scenario.horizon) }
{
    while core.now() < horizon {
        carry_out_due(core)?;
        core.tick();
    }
    Ok(())
}

/// The report of the scenario.
///
/// # Errors
///
/// Want of memory, but for the first time at a command.
pub fn settled(alloc: Global, kit: Kit, rules: RuleBook) -> Result<Vec<u8>, AllocError>
    requires { IsGood (boxed seen) kit }
{
    match read_scenario(alloc, SETTLING.as_bytes()) {
        Ok(scenario) => {
            let horizon = scenario.horizon;
            let mut core = Core::open(alloc, scenario, DEPTH, kit, rules)?;
            run_to(&mut core, horizon)?;
            let report = core.finish()?;
            write_report(alloc, &report)
        }
        Err(_) => Err(AllocError),
    }
}
