// What can be promised to a seat, as a list of lines.
ghost use Rattle.std.specs.Prelude.{◌≡◌, ◌++◌, IfOk, option_copied};
ghost use Rattle.hls_offer_best.specs.Best.{CanAsk};
ghost use Rattle.hls_offer_lines.specs.Lines.{
  AreOffers,
  ArePeriodsAsked,
  AreSpans,
  or_nothing,
  wait_line,
};
ghost use Rattle.hls_offer_lines.specs.Inside.Listing.{AreLent};

use crate::hard::{hard_lines, whole_lines};
use crate::lending::{all_lent, push_some};
use crate::periods::{Waiting, lines_of_periods, own_periods};
use crate::shares::top_shares;
use hls_guarantee::Guarantee;
use hls_offer_best::{Form, Seat, least_wait};
use hls_rules::RuleBook;
use std::alloc::{AllocError, Global};

/// What can be promised to the seat, best first, of blocks and windows of these periods, or of the own periods of what
/// is lent where no list is given.
///
/// # Errors
/// Returns `AllocError` for want of memory.
pub fn offered(
    alloc: Global,
    book: &RuleBook,
    seat: &Seat<'_>,
    periods: Option<&[u32]>,
) -> Result<Vec<Guarantee>, AllocError>
    requires can { CanAsk seat.now }
    requires periods { ArePeriodsAsked (option_copied periods) }
    ensures { IfOk result (λ lines. AreOffers seat.now (option_copied periods.entry) lines.items) }
{
    let lent = all_lent(alloc, seat)?;
    let whole = whole_lines(alloc, book, seat)?;
    let lines = joined(whole, hard_lines(alloc, book, seat, &lent, Form::Blocks)?)?;
    let lines = joined(lines, hard_lines(alloc, book, seat, &lent, Form::Windows)?)?;
    let mut lines = joined(lines, top_shares(alloc, book, seat)?)?;
    let waiting = Waiting {
        seat: *seat,
        wait: least_wait(alloc, book, seat)?,
    };
    push_some(&mut lines, line_of_wait(waiting.wait))?;
    let spans = spans(alloc, book, &waiting, &lent, periods)?;
    or_nothing(joined(lines, spans)?)
}

/// The lines of the periods that are asked about.
fn spans(
    alloc: Global,
    book: &RuleBook,
    waiting: &Waiting<'_>,
    lent: &[Guarantee],
    periods: Option<&[u32]>,
) -> Result<Vec<Guarantee>, AllocError>
    requires can { CanAsk waiting.now.seat }
    requires lent { AreLent waiting.now.seat lent.now }
    requires periods { ArePeriodsAsked (option_copied periods) }
    ensures { IfOk result (λ lines. AreSpans waiting.now.seat waiting.now.wait (option_copied periods.entry)
        lines.items) }
{
    match periods {
        Some(periods) => lines_of_periods(alloc, book, waiting, periods),
        None => {
            let own = own_periods(alloc, &waiting.seat, lent)?;
            lines_of_periods(alloc, book, waiting, &own)
        }
    }
}

fn line_of_wait(wait: Option<u32>) -> Option<Guarantee>
    ensures { result ≡ wait_line wait }
{
    match wait {
        Some(ticks) => Some(Form::Windows.of(1, ticks)),
        None => None,
    }
}

/// The one list behind the other.
fn joined(lines: Vec<Guarantee>, more: Vec<Guarantee>) -> Result<Vec<Guarantee>, AllocError>
    ensures { IfOk result (λ all. all.items ≡ lines.items ++ more.items) }
{
    let mut all = lines;
    let mut rest = more;
    all.append(&mut rest)?;
    Ok(all)
}

/// The lines, or that of nothing where there are none.
fn or_nothing(lines: Vec<Guarantee>) -> Result<Vec<Guarantee>, AllocError>
    ensures { IfOk result (λ all. all.items ≡ or_nothing lines.items) }
{
    let mut all = lines;
    if all.is_empty() {
        all.push(Guarantee::Null)?;
    }
    Ok(all)
}
