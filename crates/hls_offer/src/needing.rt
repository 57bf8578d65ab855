// The lines that tell by which terms a guarantee can be had.
ghost use Rattle.std.specs.Prelude.{◌≡◌, ℕ, IfOk, option_copied, length};
ghost use Rattle.hls_chron.specs.Name.{IsName};
ghost use Rattle.hls_legal.specs.Moment.{Moment};
ghost use Rattle.hls_core.specs.Cores.{Runs};
ghost use Rattle.hls_core.specs.Readings.{now_of};
ghost use Rattle.hls_core.specs.Asking.{IsMomentOf};
ghost use Rattle.hls_offer_lines.specs.Cost.{ArePeriods};
ghost use Rattle.hls_offer_asks.specs.Needs.{IsNeed};
ghost use Rattle.hls_offer_words.specs.Table.{IsPlace};
ghost use Rattle.hls_offer_words.specs.declared.asked.Question.TheVariants.{Need as AsksNeed};
ghost use Rattle.hls_offer.specs.Told.{IsTold};
ghost use Rattle.hls_offer.specs.Inside.Told.{AddsPlace, AddsPlaces, AddsTold};

use crate::offering::put_wish;
use hls_chron::Name;
use hls_core::Core;
use hls_offer_asks::{Had, Need, Wish, need_on};
use hls_offer_text::put_refused;
use hls_sched::Scheduler;
use std::alloc::{AllocError, Global};

/// A guarantee that is needed, with reservations of these periods, or of any where no list is given.
#[derive(Clone, Copy)]
pub struct Sought<'a> {
    pub need: Need,
    pub periods: Option<&'a [u32]>,
}

/// Appends the line of a scheduler that tells by which terms a guarantee can be had on it, or why by none. Tells
/// whether it can be had.
fn put_place(
    alloc: Global,
    core: &Core,
    sought: &Sought<'_>,
    on: &Name,
    out: &mut Vec<u8>,
) -> Result<bool, AllocError>
    requires runs { Runs seen core.now }
    requires need { IsNeed sought.now.need }
    requires on { IsName on.now }
    requires periods { ArePeriods (option_copied sought.now.periods) }
    ensures { IfOk result (λ offers. (m : Moment) → IsMomentOf seen core.now m →
        AddsPlace m (now_of core.now) sought.now.need on.now (option_copied sought.now.periods) offers
        out.old.items out.new.items) }
{
    match need_on(alloc, core, &sought.need, on, sought.periods)? {
        Had::At(terms) => {
            let wish = Wish {
                name: sought.need.name,
                on: *on,
                terms,
            };
            put_wish(core, &wish, &sought.need.wanted, out)?;
            Ok(true)
        }
        Had::Refused { terms, refusal } => {
            put_refused(out, on, terms, &refusal)?;
            Ok(false)
        }
    }
}

/// A name that was lent, as a value of its own: of such a one it is known that it is a name.
fn own(name: &Name) -> Name
    ensures { result ≡ name.now }
{
    *name
}

/// Appends such a line for each loaded scheduler, in the order of their loads. Tells whether the guarantee can be had
/// on one of them.
fn put_places(
    alloc: Global,
    core: &Core,
    sought: &Sought<'_>,
    out: &mut Vec<u8>,
) -> Result<bool, AllocError>
    requires runs { Runs seen core.now }
    requires need { IsNeed sought.now.need }
    requires periods { ArePeriods (option_copied sought.now.periods) }
    ensures { IfOk result (λ offers. (m : Moment) → IsMomentOf seen core.now m →
        AddsPlaces m (now_of core.now) sought.now.need (option_copied sought.now.periods)
        (length m.hierarchy.schedulers) offers out.old.items out.new.items) }
{
    let tree = core.tree();
    let mut offers = false;
    for at in 0..tree.scheds() {
        let told = tree.name(tree.sched(at));
        let on = own(told);
        let here = put_place(alloc, core, sought, &on, out)?;
        offers = offers || here;
    }
    Ok(offers)
}

/// Appends the lines that tell by which terms a guarantee can be had: on one scheduler, or else on each loaded one.
/// Tells whether it can be had anywhere.
///
/// # Errors
/// Returns `AllocError` for want of memory.
pub fn put_need(
    alloc: Global,
    core: &Core,
    sought: &Sought<'_>,
    on: Option<Name>,
    out: &mut Vec<u8>,
) -> Result<bool, AllocError>
    requires runs { Runs seen core.now }
    requires need { IsNeed sought.now.need }
    requires on { IsPlace on }
    requires periods { ArePeriods (option_copied sought.now.periods) }
    ensures { IfOk result (λ offers. (version : ℕ) (m : Moment) → IsMomentOf seen core.now m → AddsTold
        (IsTold version (AsksNeed sought.now.need.name sought.now.need.wanted on) m (now_of core.now)
        (option_copied sought.now.periods)) offers out.old.items out.new.items) }
{
    match on {
        Some(scheduler) => put_place(alloc, core, sought, &scheduler, out),
        None => put_places(alloc, core, sought, out),
    }
}
