// How deep a new scheduler would be, and how many fair queueing schedulers a path to it would hold.
ghost use Rattle.hls_chron.specs.Ranges.{most_levels, most_shares};
ghost use Rattle.std.specs.Prelude.{◌≡◌, ◌≤◌, length, List, IfSome, IsNone};
ghost use Rattle.hls_text.specs.Lines.{Text};
ghost use Rattle.hls_scenario.specs.declared.scenario.Perch.{Perch};
ghost use Rattle.hls_report_text.specs.WellFormed.{IsRefusal};
ghost use Rattle.hls_machine.specs.Hierarchy.{Hierarchy};
ghost use Rattle.hls_chron.specs.Kinds.{fair_queue};
ghost use Rattle.hls_machine.specs.Legal.{fair_queues, IsReached};
ghost use Rattle.hls_tree.specs.Trees.{IsTreeOf, Stands};
ghost use Rattle.hls_manager.specs.Inside.Ports.{AreAtParents, AreWanted};
ghost use Rattle.hls_manager.specs.Inside.Heights.{IsMost, IsHeightRefusal, IsLowEnough};

use hls_chron::{Config, LEVELS, SHARES};
use hls_report_text::Refusal;
use hls_sched::Scheduler;
use hls_tree::{Seat, Tree};

/// The greatest level of the schedulers at which these seats are; the processor is at level 0.
fn level_over(tree: &Tree, seats: &[Seat]) -> u32
    requires { Stands seen tree.now (λ h. IsReached h × AreAtParents h seats.now) }
    ensures most { (h : Hierarchy) → IsTreeOf seen tree.now h → IsReached h →
        IsMost h length seats.now (length seats.now) result }
    ensures within { result ≤ most_levels }
{
    let mut most = 0;
    for seat in seats {
        if let Some(id) = seat.parent {
            most = most.max(tree.level(id));
        }
    }
    most
}

/// The most fair queueing schedulers on a path to one of these seats.
fn shares_over(tree: &Tree, seats: &[Seat]) -> u32
    requires { Stands seen tree.now (λ h. IsReached h × AreAtParents h seats.now) }
    ensures most { (h : Hierarchy) → IsTreeOf seen tree.now h → IsReached h →
        IsMost h (fair_queues h) seats.now (length seats.now) result }
    ensures within { result ≤ most_shares }
{
    let mut most = 0;
    for seat in seats {
        if let Some(id) = seat.parent {
            most = most.max(tree.shares(id));
        }
    }
    most
}

/// How many fair queueing schedulers a scheduler is: one or none.
fn share_of(config: &Config) -> u32
    ensures share { result ≡ fair_queue config.now }
    ensures within { result ≤ 1 }
{
    u32::from(config.fair_queues())
}

/// Why a scheduler on these seats would be too deep, or below too many fair queueing ones.
pub(crate) fn height_refusal(tree: &Tree, config: &Config, seats: &[Seat]) -> Option<Refusal>
    requires { Stands seen tree.now (λ h. IsReached h × AreAtParents h seats.now) }
    ensures refused { IfSome result (λ refusal. (h : Hierarchy) (name : Text) (perches : List Perch) →
        IsTreeOf seen tree.now h → IsReached h → AreWanted h perches (length perches) seats.now →
        IsHeightRefusal h name config.now perches refusal) }
    ensures low { IsNone result → (h : Hierarchy) (perches : List Perch) → IsTreeOf seen tree.now h →
        IsReached h → AreWanted h perches (length perches) seats.now → IsLowEnough h config.now perches }
    ensures formed { IfSome result (λ refusal. IsRefusal refusal) }
{
    let level = level_over(tree, seats) + 1;
    if level > LEVELS {
        return Some(Refusal::TooDeep { level });
    }
    let count = shares_over(tree, seats) + share_of(config);
    if count > SHARES {
        return Some(Refusal::TooManyShares { count });
    }
    None
}
