// The lines of an answer, written one by one.
ghost use Rattle.std.specs.Prelude.{◌≡◌, ◌++◌, ◌∷◌, [], OnOk, codes, decimal, flat_map};
ghost use Rattle.std.specs.List.{AllByRecursion};
ghost use Rattle.hls_guarantee.specs.Limits.{IsValid};
ghost use Rattle.hls_scenario.specs.Forms.{spaced, config_forms, quantum_forms};
ghost use Rattle.hls_report_text.specs.ReportText.{with_end, ended, span_text};
ghost use Rattle.hls_offer_text.specs.OfferText.{one_span_text, fit_text, left_text, more_text, guarantees_text};
ghost use Rattle.hls_offer_text.specs.OfferText.{free_text, head_lines};

use crate::{Fit, Left, Span};
use hls_chron::{Config, Name};
use hls_guarantee::{Guarantee, write_guarantee};
use hls_text::{put, put_number};
use std::alloc::AllocError;

/// Appends the lines that stand before all others: the tick that is asked about, and the depth in force.
///
/// # Errors
/// Returns `AllocError` for want of memory.
pub fn put_head(out: &mut Vec<u8>, tick: u32, depth: u8) -> Result<(), AllocError>
    ensures { OnOk result (out.new.items ≡ out.old.items ++ ended (head_lines tick depth)) }
{
    put(out, b"hls-offer 1\n")?;
    put_line(out, b"tick ", u128::from(tick))?;
    put_line(out, b"depth ", u128::from(depth))
}

/// Appends a line of words and a number.
fn put_line(out: &mut Vec<u8>, words: &[u8], number: u128) -> Result<(), AllocError>
    ensures { OnOk result (out.new.items ≡ out.old.items ++ with_end (words.now ++ decimal number)) }
{
    put_counted(out, words, number)?;
    put(out, b"\n")
}

/// Appends the last line.
///
/// # Errors
/// Returns `AllocError` for want of memory.
pub fn put_end(out: &mut Vec<u8>) -> Result<(), AllocError>
    ensures { OnOk result (out.new.items ≡ out.old.items ++ with_end (codes "end")) }
{
    put(out, b"end\n")
}

/// Appends the line of a loaded scheduler: its name, its configuration as a load of this version spells it, what its
/// ports are guaranteed, and what is left on it.
///
/// # Errors
/// Returns `AllocError` for want of memory.
pub fn put_free(
    out: &mut Vec<u8>,
    version: u8,
    name: &Name,
    config: &Config,
    haves: &[Guarantee],
    left: &Left,
) -> Result<(), AllocError>
    requires { AllByRecursion (λ g. IsValid g) haves.now }
    ensures { OnOk result (out.new.items ≡ out.old.items ++ with_end (free_text version
        (record { name = name.now; config = config.now; haves = haves.now; left = left.now }))) }
{
    put(out, b"free ")?;
    put(out, name.bytes())?;
    put_config(out, version, config)?;
    put(out, b" has ")?;
    put_guarantees(out, haves)?;
    put(out, b" : ")?;
    put_left(out, left)?;
    put(out, b"\n")
}

fn put_config(out: &mut Vec<u8>, version: u8, config: &Config) -> Result<(), AllocError>
    ensures { OnOk result (out.new.items ≡ out.old.items ++ spaced (config_forms version config.now)) }
{
    if let Some(sharing) = config.sharing() {
        put_counted(out, b" sfq ", u128::from(sharing.total))?;
        put_counted(out, b" ", u128::from(sharing.most))?;
        return put_quantum(out, version, sharing.quantum);
    }
    match config {
        Config::Cpu | Config::Sfq { .. } => Ok(()),
        Config::Fp => put(out, b" fp"),
        Config::Edf => put(out, b" edf"),
        Config::Rr { quantum } => put_counted(out, b" rr ", u128::from(*quantum)),
        Config::Wheel { frame } => put_counted(out, b" wheel ", u128::from(*frame)),
        Config::Join { .. } => put(out, b" join"),
    }
}

fn put_quantum(out: &mut Vec<u8>, version: u8, quantum: u32) -> Result<(), AllocError>
    ensures { OnOk result (out.new.items ≡ out.old.items ++ spaced (quantum_forms version quantum)) }
{
    if version == 1 {
        return Ok(());
    }
    put_counted(out, b" ", u128::from(quantum))
}

fn put_guarantees(out: &mut Vec<u8>, haves: &[Guarantee]) -> Result<(), AllocError>
    requires { AllByRecursion (λ g. IsValid g) haves.now }
    ensures { OnOk result (out.new.items ≡ out.old.items ++ guarantees_text haves.now) }
{
    let [first, rest @ ..] = haves else {
        return Ok(());
    };
    write_guarantee(first, out)?;
    put_more(out, rest)
}

fn put_more(out: &mut Vec<u8>, haves: &[Guarantee]) -> Result<(), AllocError>
    requires { AllByRecursion (λ g. IsValid g) haves.now }
    ensures { OnOk result (out.new.items ≡ out.old.items ++ flat_map more_text haves.now) }
{
    for have in haves {
        put(out, b" , ")?;
        write_guarantee(have, out)?;
    }
    Ok(())
}

fn put_left(out: &mut Vec<u8>, left: &Left) -> Result<(), AllocError>
    ensures { OnOk result (out.new.items ≡ out.old.items ++ left_text left.now) }
{
    match left {
        Left::Full => put(out, b"full"),
        Left::Priorities(spans) => {
            put(out, b"prio")?;
            put_spans(out, spans.items())
        }
        Left::Parts { free, fits } => {
            put_counted(out, b"parts ", *free)?;
            put_fits(out, fits.items())
        }
        Left::Weight(weight) => put_counted(out, b"weight ", *weight),
        Left::Slots(places) => put_counted(out, b"slots ", *places),
        Left::Turn => put(out, b"turn"),
        Left::Sole => put(out, b"sole"),
    }
}

fn put_spans(out: &mut Vec<u8>, spans: &[Span]) -> Result<(), AllocError>
    ensures { OnOk result (out.new.items ≡ out.old.items ++ flat_map one_span_text spans.now) }
{
    for span in spans {
        put_counted(out, b" ", u128::from(span.first))?;
        put_counted(out, b"..", u128::from(span.last))?;
    }
    Ok(())
}

fn put_fits(out: &mut Vec<u8>, fits: &[Fit]) -> Result<(), AllocError>
    ensures { OnOk result (out.new.items ≡ out.old.items ++ flat_map fit_text fits.now) }
{
    for fit in fits {
        put_counted(out, b" , res ", u128::from(fit.x))?;
        put_counted(out, b" ", u128::from(fit.y))?;
    }
    Ok(())
}

/// Appends words and a number behind them.
pub fn put_counted(out: &mut Vec<u8>, words: &[u8], number: u128) -> Result<(), AllocError>
    ensures { OnOk result (out.new.items ≡ out.old.items ++ (words.now ++ decimal number)) }
{
    put(out, words)?;
    put_number(out, number)
}
