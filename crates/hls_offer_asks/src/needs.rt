// The cheapest terms with which a guarantee that is needed can be had.
ghost use Rattle.std.specs.Prelude.{◌≡◌, ◌≢◌, ◌≤◌, ◌↔◌, ℕ, IfOk, IsTrue, List, None, Option};
ghost use Rattle.std.specs.Prelude.{false, option_copied, true};
ghost use Rattle.hls_chron.specs.Name.{IsName};
ghost use Rattle.hls_scenario.specs.declared.scenario.Command.{Command};
ghost use Rattle.hls_scenario.specs.Grammar.{IsTerms};
ghost use Rattle.hls_legal.specs.Moment.{Moment};
ghost use Rattle.hls_legal.specs.Answers.{IsAnswer};
ghost use Rattle.hls_core.specs.Cores.{Runs};
ghost use Rattle.hls_core.specs.Asking.{IsMomentOf};
ghost use Rattle.hls_offer_lines.specs.Cost.{ArePeriods};
ghost use Rattle.hls_offer_asks.specs.Requests.{request_of};
ghost use Rattle.hls_offer_asks.specs.Needs.{IsHad, IsNeed, IsNowhereElse, IsOfNames, IsUnbarred, wish_of};
ghost use Rattle.hls_offer_asks.specs.Inside.Trying.{
  IsBar,
  IsDerivedFirst,
  IsDoneBehind,
  IsDoneBelowIfAny,
  IsTried,
  refusal_of,
};

use crate::seats::scheduler_of;
use crate::wish::{Wish, request};
use hls_chron::{Name, Terms};
use hls_core::Core;
use hls_guarantee::Guarantee;
use hls_manager::haves_of;
use hls_offer_lines::{TermsAsked, first_terms};
use hls_report_text::{Answer, Refusal};
use hls_sched::Scheduler;
use std::alloc::{AllocError, Global};

/// A guarantee that is needed, and the name of the thread that needs it.
#[derive(Clone, Copy, Debug)]
pub struct Need {
    pub name: Name,
    pub wanted: Guarantee,
}

/// With which terms a guarantee can be had on a scheduler.
#[derive(Debug, Drop)]
pub enum Had {
    /// With these, which are the first in the order of cost.
    At(Terms),
    /// With none, and why: on the first terms that have a derivation, or whatever the terms.
    Refused {
        terms: Option<Terms>,
        refusal: Refusal,
    },
}

/// The first terms, in the order of cost, with which a guarantee that is needed can be had on the scheduler of a name
/// as the core stands. Reservations are of these periods, or of any where no list is given.
///
/// # Errors
/// Returns `AllocError` for want of memory.
pub fn need_on(
    alloc: Global,
    core: &Core,
    need: &Need,
    on: &Name,
    periods: Option<&[u32]>,
) -> Result<Had, AllocError>
    requires runs { Runs seen core.now }
    requires need { IsNeed need.now }
    requires on { IsName on.now }
    requires periods { ArePeriods (option_copied periods) }
    ensures is { IfOk result (λ had. (m : Moment) → IsMomentOf seen core.now m →
        IsHad m need.now on.now (option_copied periods.entry) had) }
    ensures nowhere { IfOk result (λ had. (m : Moment) → IsMomentOf seen core.now m →
        IsNowhereElse m need.now on.now (option_copied periods.entry) had) }
{
    match bar(&answer_on(core, need, on, Terms::Turn)?) {
        Some(refusal) => Ok(Had::Refused {
            terms: None,
            refusal,
        }),
        None => need_at(alloc, core, need, on, periods),
    }
}

/// What the request for these terms would be answered.
fn answer_on(core: &Core, need: &Need, on: &Name, terms: Terms) -> Result<Answer, AllocError>
    requires runs { Runs seen core.now }
    requires need { IsNeed need.now }
    requires on { IsName on.now }
    requires terms { IsTerms terms }
    ensures { IfOk result (λ answer. (m : Moment) → IsMomentOf seen core.now m →
        IsAnswer m (request_of m.hierarchy (wish_of need.now on.now terms) need.now.wanted) answer) }
{
    let wish = Wish {
        name: need.name,
        on: *on,
        terms,
    };
    core.ask(&request(core.tree(), &wish, &need.wanted))
}

/// The refusal of a request, where it comes whatever the terms.
fn bar(answer: &Answer) -> Option<Refusal>
    ensures { (m : Moment) (command : Command) → IsAnswer m command answer.now → IsBar m command result }
{
    match answer {
        Answer::Refused(refusal) if is_of_names(refusal) => Some(*refusal),
        _ => None,
    }
}

fn is_of_names(refusal: &Refusal) -> bool
    ensures { IsTrue result ↔ IsOfNames refusal.now }
{
    match refusal {
        Refusal::NameTaken { .. }
        | Refusal::NoSuchName { .. }
        | Refusal::WrongSort { .. }
        | Refusal::TooManyThreads { .. } => true,
        _ => false,
    }
}

/// The first terms, where the names are right.
fn need_at(
    alloc: Global,
    core: &Core,
    need: &Need,
    on: &Name,
    periods: Option<&[u32]>,
) -> Result<Had, AllocError>
    requires runs { Runs seen core.now }
    requires need { IsNeed need.now }
    requires on { IsName on.now }
    requires periods { ArePeriods (option_copied periods) }
    requires unbarred { (m : Moment) → IsMomentOf seen core.now m → IsUnbarred m need.now on.now }
    ensures is { IfOk result (λ had. (m : Moment) → IsMomentOf seen core.now m →
        IsHad m need.now on.now (option_copied periods.entry) had) }
    ensures nowhere { IfOk result (λ had. (m : Moment) → IsMomentOf seen core.now m →
        IsNowhereElse m need.now on.now (option_copied periods.entry) had) }
{
    match first_derived(alloc, core, need, on, periods)? {
        Some(terms) => try_from(core, need, on, terms),
        None => Ok(Had::Refused {
            terms: None,
            refusal: Refusal::NoDerivation {
                name: need.name,
                depth: core.depth(),
            },
        }),
    }
}

/// The first terms that have a derivation, where the names are right.
fn first_derived(
    alloc: Global,
    core: &Core,
    need: &Need,
    on: &Name,
    periods: Option<&[u32]>,
) -> Result<Option<Terms>, AllocError>
    requires runs { Runs seen core.now }
    requires need { IsNeed need.now }
    requires periods { ArePeriods (option_copied periods) }
    requires unbarred { (m : Moment) → IsMomentOf seen core.now m → IsUnbarred m need.now on.now }
    ensures { IfOk result (λ first. (m : Moment) → IsMomentOf seen core.now m →
        IsDerivedFirst m need.now on.now (option_copied periods.entry) first) }
{
    let tree = core.tree();
    let Some(id) = scheduler_of(tree, on) else {
        unreachable!();
    };
    let haves = haves_of(alloc, tree, id)?;
    let asked = TermsAsked {
        config: tree.config(id),
        haves: &haves,
        depth: core.depth(),
        wanted: need.wanted,
    };
    first_terms(alloc, core.rules(), &asked, periods)
}

/// Whether it can be had with these terms or, at fixed priority, with a later priority. Of other terms none that come
/// later would do where these find no room.
fn try_from(core: &Core, need: &Need, on: &Name, terms: Terms) -> Result<Had, AllocError>
    requires runs { Runs seen core.now }
    requires need { IsNeed need.now }
    requires on { IsName on.now }
    requires terms { IsTerms terms }
    ensures { IfOk result (λ had. (m : Moment) → IsMomentOf seen core.now m → IsTried m need.now on.now terms had) }
{
    let Some(refusal) = refusal_of(&answer_on(core, need, on, terms)?) else {
        return Ok(Had::At(terms));
    };
    match done_behind(core, need, on, &terms)? {
        Some(later) => Ok(Had::At(later)),
        None => Ok(Had::Refused {
            terms: Some(terms),
            refusal,
        }),
    }
}

fn refusal_of(answer: &Answer) -> Option<Refusal>
    ensures { result ≡ refusal_of answer.now }
{
    match answer {
        Answer::Done(_) => None,
        Answer::Refused(refusal) => Some(*refusal),
    }
}

/// The first terms behind these with which it can be had, at fixed priority.
fn done_behind(
    core: &Core,
    need: &Need,
    on: &Name,
    terms: &Terms,
) -> Result<Option<Terms>, AllocError>
    requires runs { Runs seen core.now }
    requires need { IsNeed need.now }
    requires on { IsName on.now }
    requires terms { IsTerms terms.now }
    ensures { IfOk result (λ later. (m : Moment) → IsMomentOf seen core.now m →
        IsDoneBehind m need.now on.now terms.now later) }
{
    let Terms::Prio(priority) = terms else {
        return Ok(None);
    };
    match done_below(core, need, on, *priority)? {
        Some(low) => Ok(Some(Terms::Prio(low))),
        None => Ok(None),
    }
}

/// The first priority below one with which it can be had, in falling order.
fn done_below(core: &Core, need: &Need, on: &Name, end: u32) -> Result<Option<u32>, AllocError>
    requires runs { Runs seen core.now }
    requires need { IsNeed need.now }
    requires on { IsName on.now }
    requires end { end ≤ 31 }
    ensures { IfOk result (λ low. (m : Moment) → IsMomentOf seen core.now m →
        IsDoneBelowIfAny m need.now on.now end low) }
{
    let mut priority = end;
    while priority > 0 {
        priority -= 1;
        let answer = answer_on(core, need, on, Terms::Prio(priority))?;
        if is_done(&answer) {
            return Ok(Some(priority));
        }
    }
    Ok(None)
}

fn is_done(answer: &Answer) -> bool
    ensures done { result ≡ true → refusal_of answer.now ≡ None }
    ensures refused { result ≡ false → refusal_of answer.now ≢ None }
{
    match answer {
        Answer::Done(_) => true,
        Answer::Refused(_) => false,
    }
}
