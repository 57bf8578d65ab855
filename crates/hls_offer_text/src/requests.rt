// The lines that tell whether a request would be done. A request has no configuration, and so each version spells it
// alike.
ghost use Rattle.std.specs.Prelude.{◌≡◌, ◌++◌, OnOk};
ghost use Rattle.hls_scenario.specs.Forms.{spaced, terms_forms};
ghost use Rattle.hls_scenario.specs.Grammar.{IsCommand};
ghost use Rattle.hls_report_text.specs.ReportText.{item_text, with_end};
ghost use Rattle.hls_offer_text.specs.OfferText.{refused_text, stated_terms_text};

use crate::writing::put_counted;
use hls_chron::{Name, Terms};
use hls_report_text::{Refusal, put_command, put_refusal};
use hls_scenario::Command;
use hls_text::put;
use std::alloc::AllocError;

/// Appends the line of a request that would be done at a tick: it may stand in a scenario.
///
/// # Errors
/// Returns `AllocError` for want of memory.
pub fn put_request(out: &mut Vec<u8>, tick: u32, request: &Command) -> Result<(), AllocError>
    requires { IsCommand 1 request.now }
    ensures { OnOk result (out.new.items
        ≡ out.old.items ++ with_end (item_text 1 (record { tick = tick; command = request.now }))) }
{
    put_command(out, 1, tick, request)?;
    put(out, b"\n")
}

/// Appends the line of a scheduler on which nothing can be had: the terms that were asked about, if they are told,
/// and why.
///
/// # Errors
/// Returns `AllocError` for want of memory.
pub fn put_refused(
    out: &mut Vec<u8>,
    scheduler: &Name,
    terms: Option<Terms>,
    refusal: &Refusal,
) -> Result<(), AllocError>
    ensures { OnOk result (out.new.items ≡ out.old.items ++
        with_end (refused_text scheduler.now terms refusal.now)) }
{
    put(out, b"no ")?;
    put(out, scheduler.bytes())?;
    put_stated(out, terms)?;
    put(out, b" : ")?;
    put_refusal(out, refusal)?;
    put(out, b"\n")
}

fn put_stated(out: &mut Vec<u8>, terms: Option<Terms>) -> Result<(), AllocError>
    ensures { OnOk result (out.new.items ≡ out.old.items ++ stated_terms_text terms) }
{
    match terms {
        Some(terms) => put_terms(out, &terms),
        None => Ok(()),
    }
}

fn put_terms(out: &mut Vec<u8>, terms: &Terms) -> Result<(), AllocError>
    ensures { OnOk result (out.new.items ≡ out.old.items ++ spaced (terms_forms terms.now)) }
{
    match terms {
        Terms::Cpu => Ok(()),
        Terms::Prio(priority) => put_counted(out, b" prio ", u128::from(*priority)),
        Terms::Res { hard, x, y } => {
            put_counted(out, b" res ", u128::from(*x))?;
            put_counted(out, b" ", u128::from(*y))?;
            put(out, if *hard { b" hard" } else { b" soft" })
        }
        Terms::Weight(weight) => put_counted(out, b" weight ", u128::from(*weight)),
        Terms::Slots(places) => put_counted(out, b" slots ", u128::from(*places)),
        Terms::Turn => put(out, b" turn"),
        Terms::Sole => put(out, b" sole"),
    }
}
