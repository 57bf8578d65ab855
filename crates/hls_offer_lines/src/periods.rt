// The most ticks of blocks and windows, period by period.
ghost use Rattle.std.specs.Prelude.{◌≡◌, ◌≤◌, ◌<◌, ◌⊎◌, ℕ, All, IfOk, IfSome, IsFalse, IsTrue, Some};
ghost use Rattle.hls_offer_best.specs.Best.{CanAsk, IsLeastIfAny, IsMostIfAny, Gives};
ghost use Rattle.hls_offer_best.specs.Inside.Trying.{IsFrom};
ghost use Rattle.hls_offer_lines.specs.Lines.{
  AreOfPeriod,
  AreOfPeriods,
  AreOwnPeriods,
  block_line,
  is_wait,
  window_line,
};
ghost use Rattle.hls_offer_lines.specs.Inside.Listing.{AreLent, IsPeriodAbove};

use crate::lending::push_some;
use hls_guarantee::Guarantee;
use hls_offer_best::{Form, Seat, Window, most_ticks};
use hls_offer_laws::own_period;
use hls_rules::RuleBook;
use std::alloc::{AllocError, Global};

/// A seat, and its least wait, if there is one.
#[derive(Clone, Copy)]
pub struct Waiting<'a> {
    pub seat: Seat<'a>,
    pub wait: Option<u32>,
}

/// The most ticks of the blocks and windows of these periods that can be promised, period by period.
pub fn lines_of_periods(
    alloc: Global,
    book: &RuleBook,
    waiting: &Waiting<'_>,
    periods: &[u32],
) -> Result<Vec<Guarantee>, AllocError>
    requires can { CanAsk waiting.now.seat }
    requires periods { All (λ y. y ≤ 20000) periods.now }
    ensures { IfOk result (λ lines. AreOfPeriods waiting.now.seat waiting.now.wait periods.now lines.items) }
{
    let mut lines = Vec::new(alloc);
    for y in periods {
        let mut more = lines_of_period(alloc, book, waiting, *y)?;
        lines.append(&mut more)?;
    }
    Ok(lines)
}

fn lines_of_period(
    alloc: Global,
    book: &RuleBook,
    waiting: &Waiting<'_>,
    y: u32,
) -> Result<Vec<Guarantee>, AllocError>
    requires can { CanAsk waiting.now.seat }
    requires period { y ≤ 20000 }
    ensures { IfOk result (λ lines. AreOfPeriod waiting.now.seat waiting.now.wait y lines.items) }
{
    let blocks = most_of(alloc, book, &waiting.seat, Form::Blocks, y)?;
    let windows = most_of(alloc, book, &waiting.seat, Form::Windows, y)?;
    let mut lines = Vec::new(alloc);
    push_some(&mut lines, line_of_blocks(y, blocks))?;
    push_some(&mut lines, line_of_windows(waiting.wait, y, windows))?;
    Ok(lines)
}

/// The most ticks of this form that can be promised.
fn most_of(
    alloc: Global,
    book: &RuleBook,
    seat: &Seat<'_>,
    form: Form,
    y: u32,
) -> Result<Option<u32>, AllocError>
    requires can { CanAsk seat.now }
    requires period { y ≤ 20000 }
    ensures { IfOk result (λ most. IsMostIfAny (λ x. Gives (record { seat = seat.now; form = form; y = y }) x) most) }
{
    let window = Window {
        seat: *seat,
        form,
        y,
    };
    most_ticks(alloc, book, &window)
}

fn line_of_blocks(y: u32, most: Option<u32>) -> Option<Guarantee>
    ensures { result ≡ block_line y most }
{
    match most {
        Some(x) => Some(Form::Blocks.of(x, y)),
        None => None,
    }
}

/// The line of the most ticks of windows, where it is not the wait again.
fn line_of_windows(wait: Option<u32>, y: u32, most: Option<u32>) -> Option<Guarantee>
    ensures { result ≡ window_line wait y most }
{
    match most {
        Some(x) if !is_wait(wait, x, y) => Some(Form::Windows.of(x, y)),
        _ => None,
    }
}

fn is_wait(wait: Option<u32>, x: u32, y: u32) -> bool
    ensures { result ≡ is_wait wait x y }
{
    match wait {
        Some(wait) => x == 1 && y == wait,
        None => false,
    }
}

// ---- the periods of what is lent

/// The periods of what is lent, rising.
pub fn own_periods(
    alloc: Global,
    seat: &Seat<'_>,
    lent: &[Guarantee],
) -> Result<Vec<u32>, AllocError>
    requires { AreLent seat.now lent.now }
    ensures own { IfOk result (λ periods. AreOwnPeriods seat.now periods.items) }
    ensures few { IfOk result (λ periods. All (λ y. y ≤ 20000) periods.items) }
{
    let mut periods = Vec::new(alloc);
    let mut last = 0;
    while let Some(y) = next_period(lent, last) {
        periods.push(y)?;
        last = y;
    }
    Ok(periods)
}

/// The least period of what is lent that is above the last one.
fn next_period(lent: &[Guarantee], last: u32) -> Option<u32>
    ensures { IsLeastIfAny (λ y. IsPeriodAbove lent.now last y) result }
{
    let mut next = None;
    for one in lent {
        next = sooner(own_period(one), last, next);
    }
    next
}

/// The least period so far, or this one where it is above the last and less.
fn sooner(period: Option<u32>, last: u32, next: Option<u32>) -> Option<u32>
    ensures from { (result ≡ next) ⊎ ((result ≡ period) × IfSome period (λ y. last < y)) }
    ensures kept { (y : ℕ) → IsFrom next y → IsFrom result y }
    ensures tried { (y : ℕ) → period ≡ Some y → last < y → IsFrom result y }
{
    match period {
        Some(y) if last < y && is_less(y, next) => period,
        _ => next,
    }
}

/// Whether a period is less than the least so far.
fn is_less(y: u32, next: Option<u32>) -> bool
    ensures no { IsFalse result → IsFrom next y }
    ensures yes { IsTrue result → (other : ℕ) → IsFrom next other → y ≤ other }
{
    match next {
        Some(least) => y < least,
        None => true,
    }
}
