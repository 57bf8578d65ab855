// The lines that answer a question where a core stands.
ghost use Rattle.std.specs.Prelude.{◌≡◌, IfOk, option_copied};
ghost use Rattle.hls_legal.specs.Moment.{Moment};
ghost use Rattle.hls_core.specs.Cores.{Runs};
ghost use Rattle.hls_core.specs.Readings.{now_of};
ghost use Rattle.hls_core.specs.Asking.{IsMomentOf};
ghost use Rattle.hls_offer_words.specs.declared.asked.Question.TheVariants.{Need as AsksNeed, Spare as AsksSpare};
ghost use Rattle.hls_offer_lines.specs.Cost.{ArePeriods};
ghost use Rattle.hls_offer_asks.specs.Needs.{IsNeed};
ghost use Rattle.hls_offer.specs.Spare.{told_periods};
ghost use Rattle.hls_offer.specs.Told.{IsTold};
ghost use Rattle.hls_offer.specs.Inside.Told.{AddsTold};
ghost use Rattle.hls_offer.specs.Inside.Readings.{IsAskable};

use crate::needing::{Sought, put_need};
use crate::offering::put_offer;
use crate::spare::put_spare;
use hls_core::Core;
use hls_offer_asks::{Need, Wish};
use hls_offer_words::{Asked, Question};
use hls_sched::Scheduler;
use std::alloc::{AllocError, Global};

/// The periods of the reservations that are told where the words state none.
const USUAL_PERIODS: &[u32] = &[1000];

/// The periods that are stated, if any are.
fn stated_periods(asked: &Asked) -> Option<&[u32]>
    ensures { option_copied result ≡ asked.now.periods }
{
    match &asked.periods {
        Some(periods) => Some(periods.items()),
        None => None,
    }
}

/// The periods of the reservations that are told.
fn told_periods(asked: &Asked) -> &[u32]
    ensures { result.now ≡ told_periods asked.now.periods }
{
    match &asked.periods {
        Some(periods) => periods.items(),
        None => USUAL_PERIODS,
    }
}

/// Appends the lines that answer a question where the core stands, in this version of the language. Tells whether one
/// of them offers a seat.
///
/// # Errors
/// Returns `AllocError` for want of memory.
pub fn put_told(
    alloc: Global,
    version: u8,
    core: &Core,
    asked: &Asked,
    out: &mut Vec<u8>,
) -> Result<bool, AllocError>
    requires runs { Runs seen core.now }
    requires asked { IsAskable asked.now }
    ensures { IfOk result (λ offers. (m : Moment) → IsMomentOf seen core.now m → AddsTold
        (IsTold version asked.now.question m (now_of core.now) asked.now.periods) offers out.old.items
        out.new.items) }
{
    let periods = stated_periods(asked);
    match asked.question {
        Question::Offer { name, on, terms } => {
            put_offer(alloc, core, &Wish { name, on, terms }, periods, out)
        }
        Question::Need { name, wanted, on } => {
            let need = Need { name, wanted };
            put_need(alloc, core, &Sought { need, periods }, on, out)
        }
        Question::Spare => {
            put_spare(alloc, version, core.tree(), told_periods(asked), out)?;
            Ok(false)
        }
    }
}
