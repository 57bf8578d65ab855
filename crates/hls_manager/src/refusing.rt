// Why a load is refused whose places are known.
ghost use Rattle.std.specs.Prelude.{◌≡◌, ◌≢◌, ℕ, List, length, IfSome, IsNone};
ghost use Rattle.hls_text.specs.Lines.{Text};
ghost use Rattle.hls_chron.specs.Kinds.{kind_of};
ghost use Rattle.hls_scenario.specs.declared.scenario.Perch.{Perch};
ghost use Rattle.hls_scenario.specs.declared.scenario.Command.TheVariants.{Load};
ghost use Rattle.hls_report_text.specs.WellFormed.{IsRefusal};
ghost use Rattle.hls_machine.specs.Hierarchy.{Hierarchy};
ghost use Rattle.hls_legal.specs.Answers.{IsRefused};
ghost use Rattle.hls_tree.specs.Trees.{IsTreeOf, Stands};
ghost use Rattle.hls_machine.specs.Legal.{IsReached};
ghost use Rattle.hls_manager.specs.Outcomes.{moment};
ghost use Rattle.hls_manager.specs.Inside.Least.{is_early as is_early_of};
ghost use Rattle.hls_manager.specs.Inside.Ports.{AreAtParents, AreInRange, ArePerchesInRange};
ghost use Rattle.hls_manager.specs.Inside.Loads.{IsPlaced, IsOpen};

use crate::heights::height_refusal;
use crate::ports::{least_fault, number};
use hls_chron::{Config, Kind};
use hls_report_text::Refusal;
use hls_sched::{Kit, Scheduler};
use hls_tree::{Seat, Tree};

/// How many schedulers may be loaded.
const MOST_SCHEDULERS: u32 = 64;

/// Why a load is refused whose places are known, for anything but want of derivations.
pub(crate) fn find_refusal(
    tree: &Tree,
    kit: &Kit,
    config: &Config,
    seats: &[Seat],
) -> Option<Refusal>
    requires stands { Stands seen tree.now (λ h. IsReached h × AreAtParents h seats.now) }
    requires range { AreInRange seats.now }
    requires boxed { kind_of config.now ≢ Kind.Cpu }
    ensures refused { IfSome result (λ refusal. (h : Hierarchy) (name : Text) (perches : List Perch) (depth : ℕ) →
        IsTreeOf seen tree.now h → IsReached h → IsPlaced h name perches seats.now →
        IsRefused (moment h kit.now depth) (Load name config.now perches) refusal) }
    ensures unrefused { IsNone result → (h : Hierarchy) (name : Text) (perches : List Perch) (depth : ℕ) →
        IsTreeOf seen tree.now h → IsReached h → IsPlaced h name perches seats.now →
        IsOpen (moment h kit.now depth) config.now perches }
    ensures formed { (h : Hierarchy) (name : Text) (perches : List Perch) → IsTreeOf seen tree.now h →
        IsPlaced h name perches seats.now → ArePerchesInRange perches →
        IfSome result (λ refusal. IsRefusal refusal) }
    ensures counts { IsNone result → length kit.now.used ≡ 6 }
{
    if tree.scheds() >= MOST_SCHEDULERS {
        return Some(Refusal::TooManyNodes {
            most: MOST_SCHEDULERS,
        });
    }
    let fault = least_fault(tree, seats);
    if is_early(&fault) {
        return fault;
    }
    if let Some(refusal) = height_refusal(tree, config, seats) {
        return Some(refusal);
    }
    let kind = config.kind();
    let used = kit.boxes_used(kind);
    if kit.boxes_left(kind) == 0 {
        return Some(Refusal::KitEmpty { kind, used });
    }
    fault
}

/// Whether there is a fault of a seat that is told before the height of a load and the want of a box.
fn is_early(fault: &Option<Refusal>) -> bool
    ensures { result ≡ is_early_of fault.now }
{
    match fault {
        Some(refusal) => number(refusal) < 20,
        None => false,
    }
}
