// The lines that tell what can be promised to a thread on a seat.
ghost use Rattle.std.specs.Prelude.{◌≡◌, ◌++◌, ℕ, All, IfOk, OnOk, option_copied};
ghost use Rattle.hls_guarantee.specs.Limits.{IsNarrow};
ghost use Rattle.hls_report_text.specs.ReportText.{ended, with_end};
ghost use Rattle.hls_legal.specs.Moment.{Moment};
ghost use Rattle.hls_core.specs.Cores.{Runs};
ghost use Rattle.hls_core.specs.Readings.{now_of};
ghost use Rattle.hls_core.specs.Asking.{IsMomentOf};
ghost use Rattle.hls_offer_lines.specs.Lines.{ArePeriodsAsked};
ghost use Rattle.hls_offer_words.specs.declared.asked.Question.TheVariants.{Offer as AsksOffer};
ghost use Rattle.hls_offer_asks.specs.Requests.{IsWish, request_of};
ghost use Rattle.hls_offer.specs.Told.{at_text, open_told, IsTold};
ghost use Rattle.hls_offer.specs.Inside.Told.{AddsTold};

use hls_core::Core;
use hls_guarantee::Guarantee;
use hls_offer_asks::{Offer, Wish, offer_at, request};
use hls_offer_text::{put_refused, put_request};
use hls_sched::Scheduler;
use std::alloc::{AllocError, Global};

/// Appends the line of the request for a seat with a guarantee, at the tick where the core stands.
///
/// # Errors
/// Returns `AllocError` for want of memory.
pub fn put_wish(
    core: &Core,
    wish: &Wish,
    wanted: &Guarantee,
    out: &mut Vec<u8>,
) -> Result<(), AllocError>
    requires runs { Runs seen core.now }
    requires wish { IsWish wish.now }
    requires narrow { IsNarrow wanted.now }
    ensures { OnOk result ((m : Moment) → IsMomentOf seen core.now m → out.new.items ≡ out.old.items
        ++ with_end (at_text (now_of core.now) (request_of m.hierarchy wish.now wanted.now))) }
{
    put_request(out, core.now(), &request(core.tree(), wish, wanted))
}

/// Appends the lines of the requests for a seat, one for each of these guarantees.
fn put_requests(
    core: &Core,
    wish: &Wish,
    lines: &[Guarantee],
    out: &mut Vec<u8>,
) -> Result<(), AllocError>
    requires runs { Runs seen core.now }
    requires wish { IsWish wish.now }
    requires narrow { All IsNarrow lines.now }
    ensures { OnOk result ((m : Moment) → IsMomentOf seen core.now m → out.new.items
        ≡ out.old.items ++ ended (open_told m.hierarchy (now_of core.now) wish.now lines.now).lines) }
{
    for wanted in lines {
        put_wish(core, wish, wanted, out)?;
    }
    Ok(())
}

/// Appends the lines that tell what can be promised to a thread on a seat, of blocks and windows of these periods, or
/// of the own periods of what is lent where no list is given. Tells whether the seat is offered.
///
/// # Errors
/// Returns `AllocError` for want of memory.
pub fn put_offer(
    alloc: Global,
    core: &Core,
    wish: &Wish,
    periods: Option<&[u32]>,
    out: &mut Vec<u8>,
) -> Result<bool, AllocError>
    requires runs { Runs seen core.now }
    requires wish { IsWish wish.now }
    requires periods { ArePeriodsAsked (option_copied periods) }
    ensures { IfOk result (λ offers. (version : ℕ) (m : Moment) → IsMomentOf seen core.now m → AddsTold
        (IsTold version (AsksOffer wish.now.name wish.now.on wish.now.terms) m (now_of core.now)
        (option_copied periods.entry)) offers out.old.items out.new.items) }
{
    match offer_at(alloc, core, wish, periods)? {
        Offer::Open(lines) => {
            put_requests(core, wish, &lines, out)?;
            Ok(true)
        }
        Offer::Shut(refusal) => {
            put_refused(out, &wish.on, Some(wish.terms), &refusal)?;
            Ok(false)
        }
    }
}
