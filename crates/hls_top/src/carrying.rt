// Carrying a scenario out, command by command and tick by tick.
ghost use Rattle.std.specs.Prelude.{◌≡◌, ◌≤◌, ℕ, IfOk, OnOk};
ghost use Rattle.hls_scenario.specs.declared.scenario.Scenario.{Scenario};
ghost use Rattle.hls_scenario.specs.Grammar.{IsScenario};
ghost use Rattle.hls_sched.specs.GoodKit.{IsGood};
ghost use Rattle.hls_sched.specs.Boxed.{boxed};
ghost use Rattle.hls_manager.specs.Outcomes.{boxes_in};
ghost use Rattle.hls_legal.specs.Moment.{Boxes};
ghost use Rattle.hls_legal.specs.Legal.{IsLegalReport};
ghost use Rattle.hls_core.specs.Cores.{IsCoreOf, Runs, NoneDue};

use hls_core::Core;
use hls_report_text::Report;
use hls_rules::RuleBook;
use hls_scenario::Scenario;
use hls_sched::{Kit, Scheduler};
use std::alloc::{AllocError, Global};

/// Carries out the commands of the present tick, in their written order.
///
/// # Errors
/// Returns `AllocError` for want of memory.
pub fn carry_out_due(core: &mut Core) -> Result<(), AllocError>
    requires runs { Runs seen core.old }
    ensures is { OnOk result ((s : Scenario) (given : ℕ) (boxes : Boxes) → IsCoreOf seen core.old s given boxes →
        IsCoreOf seen core.new s given boxes) }
    ensures none { OnOk result (NoneDue core.new.scenario.items core.new.agenda core.new.journal.ticks) }
    ensures ticks { core.new.journal.ticks ≡ core.old.journal.ticks }
    ensures scenario { core.new.scenario ≡ core.old.scenario }
{
    while core.command()? {}
    Ok(())
}

/// Carries out all commands and lets all ticks pass, up to the horizon.
fn run_to(core: &mut Core, horizon: u32) -> Result<(), AllocError>
    requires runs { Runs seen core.old }
    requires horizon { horizon ≡ core.old.scenario.horizon }
    ensures is { OnOk result ((s : Scenario) (given : ℕ) (boxes : Boxes) → IsCoreOf seen core.old s given boxes →
        IsCoreOf seen core.new s given boxes) }
    ensures ended { OnOk result (core.new.journal.ticks ≡ core.new.scenario.horizon) }
{
    while core.now() < horizon {
        carry_out_due(core)?;
        core.leap();
    }
    Ok(())
}

/// Carries a scenario out, and tells of it in a report.
///
/// # Errors
/// Returns `AllocError` for want of memory.
pub fn carry_out(
    alloc: Global,
    scenario: Scenario,
    depth: u8,
    kit: Kit,
    rules: RuleBook,
) -> Result<Report, AllocError>
    requires scenario { IsScenario scenario }
    requires depth { depth ≤ 6 }
    requires good { IsGood (boxed seen) kit }
    ensures { IfOk result (IsLegalReport scenario depth (boxes_in kit)) }
{
    let horizon = scenario.horizon;
    let mut core = Core::open(alloc, scenario, depth, kit, rules)?;
    run_to(&mut core, horizon)?;
    core.finish()
}
