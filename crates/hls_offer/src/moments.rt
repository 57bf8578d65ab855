// The tick that is asked about, and a scenario carried out up to it.
ghost use Rattle.std.specs.Prelude.{◌≡◌, ◌≤◌, ◌<◌, ℕ, IfSome, IsNone, OnOk, length};
ghost use Rattle.hls_scenario.specs.declared.scenario.Scenario.{Scenario as ScenarioSeen};
ghost use Rattle.hls_legal.specs.Moment.{Boxes};
ghost use Rattle.hls_core.specs.Cores.{IsCoreOf, Runs, NoneDue};
ghost use Rattle.hls_core.specs.Readings.{scenario_of, now_of, next_of};
ghost use Rattle.hls_offer.specs.Moments.{tick_of, asked_tick, items_to, IsBadTick, IsGoodTick};

use hls_core::Core;
use hls_lang::Cause;
use hls_scenario::{Item, Scenario};
use hls_sched::Scheduler;
use hls_top::carry_out_due;
use std::alloc::AllocError;

/// With so many items up to a tick there is none left for an answer.
const MOST_ITEMS: usize = 65_536;

/// The tick of the last item, or 0 where there is none.
fn last_tick(items: &[Item]) -> u32
    ensures { result ≡ asked_tick None items.now }
{
    match items.last() {
        Some(item) => item.tick,
        None => 0,
    }
}

/// The tick that is asked about: the one that is stated, or else that of the last item.
pub fn asked_tick(stated: Option<u32>, items: &[Item]) -> u32
    ensures { result ≡ asked_tick stated items.now }
{
    match stated {
        Some(tick) => tick,
        None => last_tick(items),
    }
}

/// How many items have ticks up to this one.
fn count_to(items: &[Item], tick: u32) -> usize
    ensures { result ≡ length (items_to tick items.now) }
{
    items.iter().filter(|item| item.tick <= tick).count()
}

/// Why a tick of a scenario cannot be asked about.
pub fn tick_fault(scenario: &Scenario, tick: u32) -> Option<Cause>
    ensures bad { IfSome result (λ cause. IsBadTick scenario.now tick cause) }
    ensures good { IsNone result → IsGoodTick scenario.now tick }
{
    if tick >= scenario.horizon {
        return Some(Cause::Late);
    }
    if count_to(scenario.items.items(), tick) >= MOST_ITEMS {
        return Some(Cause::Many);
    }
    None
}

/// Carries a scenario out up to a tick, the commands of the tick included.
///
/// # Errors
/// Returns `AllocError` for want of memory.
pub fn carry_to(core: &mut Core, tick: u32) -> Result<(), AllocError>
    requires runs { Runs seen core.old }
    requires behind { now_of core.old ≤ tick }
    requires early { tick < (scenario_of core.old).horizon }
    ensures is { OnOk result ((s : ScenarioSeen) (given : ℕ) (boxes : Boxes) → IsCoreOf seen core.old s given boxes →
        IsCoreOf seen core.new s given boxes) }
    ensures now { OnOk result (now_of core.new ≡ tick) }
    ensures none { OnOk result (NoneDue (scenario_of core.new).items (next_of core.new) tick) }
{
    while core.now() < tick {
        carry_out_due(core)?;
        core.leap_to(tick);
    }
    carry_out_due(core)?;
    Ok(())
}
