// What can be promised to a thread on a seat.
ghost use Rattle.std.specs.Prelude.{◌≡◌, ◌≢◌, ◌↔◌, ℕ, IfOk, IsTrue, IfSome, IsNone, List, Option, option_copied};
ghost use Rattle.hls_scenario.specs.declared.scenario.Command.{Command};
ghost use Rattle.hls_legal.specs.Moment.{Moment};
ghost use Rattle.hls_legal.specs.Answers.{IsAnswer, number};
ghost use Rattle.hls_core.specs.Cores.{Runs};
ghost use Rattle.hls_core.specs.Asking.{IsMomentOf};
ghost use Rattle.hls_offer_lines.specs.Lines.{ArePeriodsAsked};
ghost use Rattle.hls_offer_asks.specs.Requests.{IsWish};
ghost use Rattle.hls_offer_asks.specs.Offers.{IsOffer};
ghost use Rattle.hls_offer_asks.specs.Inside.Hindering.{AreLinesAt, IsFreeAt, IsHindrance};

use crate::seats::scheduler_of;
use crate::wish::{Wish, request};
use hls_core::Core;
use hls_derive::Place;
use hls_guarantee::Guarantee;
use hls_manager::haves_of;
use hls_offer_best::Seat;
use hls_offer_lines::offered;
use hls_report_text::{Answer, Refusal};
use hls_sched::Scheduler;
use std::alloc::{AllocError, Global};

/// What can be promised to a thread on a seat.
#[derive(Debug, Drop)]
pub enum Offer {
    /// The lines of the offer, best first.
    Open(Vec<Guarantee>),
    /// Nothing: every request for the seat is refused so.
    Shut(Refusal),
}

/// What can be promised to a thread on a seat as the core stands, of blocks and windows of these periods, or of the
/// own periods of what is lent where no list is given.
///
/// # Errors
/// Returns `AllocError` for want of memory.
pub fn offer_at(
    alloc: Global,
    core: &Core,
    wish: &Wish,
    periods: Option<&[u32]>,
) -> Result<Offer, AllocError>
    requires runs { Runs seen core.now }
    requires wish { IsWish wish.now }
    requires periods { ArePeriodsAsked (option_copied periods) }
    ensures { IfOk result (λ offer. (m : Moment) → IsMomentOf seen core.now m →
        IsOffer m wish.now (option_copied periods.entry) offer) }
{
    let answer = core.ask(&request(core.tree(), wish, &Guarantee::Null))?;
    match hindrance(&answer) {
        Some(refusal) => Ok(Offer::Shut(refusal)),
        None => Ok(Offer::Open(lines_at(alloc, core, wish, periods)?)),
    }
}

/// Why a request is refused, where it is not for want of a derivation.
fn hindrance(answer: &Answer) -> Option<Refusal>
    ensures { (m : Moment) (command : Command) → IsAnswer m command answer.now → IsHindrance m command result }
{
    match answer {
        Answer::Refused(refusal) if !is_for_want(refusal) => Some(*refusal),
        _ => None,
    }
}

fn is_for_want(refusal: &Refusal) -> bool
    ensures { IsTrue result ↔ (number refusal.now ≡ 24) }
{
    matches!(refusal, Refusal::NoDerivation { .. })
}

/// The lines of the offer of a seat for which nothing but the want of a derivation refuses a request.
fn lines_at(
    alloc: Global,
    core: &Core,
    wish: &Wish,
    periods: Option<&[u32]>,
) -> Result<Vec<Guarantee>, AllocError>
    requires runs { Runs seen core.now }
    requires wish { IsWish wish.now }
    requires periods { ArePeriodsAsked (option_copied periods) }
    requires free { (m : Moment) → IsMomentOf seen core.now m → IsFreeAt m wish.now }
    ensures { IfOk result (λ lines. (m : Moment) → IsMomentOf seen core.now m →
        AreLinesAt m wish.now (option_copied periods.entry) lines.items) }
{
    let tree = core.tree();
    let Some(id) = scheduler_of(tree, &wish.on) else {
        unreachable!();
    };
    let haves = haves_of(alloc, tree, id)?;
    let seat = Seat {
        place: Place {
            config: tree.config(id),
            terms: wish.terms,
        },
        haves: &haves,
        depth: core.depth(),
    };
    offered(alloc, core.rules(), &seat, periods)
}
