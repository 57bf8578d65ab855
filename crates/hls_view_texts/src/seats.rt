// Configurations and terms as texts.
ghost use Rattle.std.specs.Prelude.{◌≡◌, ◌∷◌, ◌++◌, OnOk, IfOk, decimal};
ghost use Rattle.hls_chron.specs.Kinds.{by_shares};
ghost use Rattle.hls_scenario.specs.Forms.{joined, quantum_forms, spaced, terms_forms};
ghost use Rattle.hls_view_texts.specs.Texts as texts;

use hls_audit_clauses::Sort;
use hls_chron::{Config, Sharing, Terms};
use hls_text::{put, put_number};
use std::alloc::{AllocError, Global};

/// A blank and a number.
fn put_blank_number(text: &mut Vec<u8>, number: u32) -> Result<(), AllocError>
    ensures { OnOk result (text.new.items ≡ text.old.items ++ (32 ∷ decimal number)) }
{
    put(text, b" ")?;
    put_number(text, u128::from(number))
}

/// The quantum of fair queueing, where it is not 1.
fn put_quantum(text: &mut Vec<u8>, quantum: u32) -> Result<(), AllocError>
    ensures { OnOk result (text.new.items ≡ text.old.items
        ++ spaced (quantum_forms (texts.version_with quantum) quantum)) }
{
    if quantum == 1 {
        return Ok(());
    }
    put_blank_number(text, quantum)
}

fn put_sharing(text: &mut Vec<u8>, sharing: Sharing) -> Result<(), AllocError>
    ensures { OnOk result (text.new.items ≡ text.old.items ++ joined (texts.config_forms (by_shares sharing))) }
{
    put(text, b"sfq")?;
    put_blank_number(text, sharing.total)?;
    put_blank_number(text, sharing.most)?;
    put_quantum(text, sharing.quantum)
}

fn config_text(alloc: Global, config: &Config) -> Result<Vec<u8>, AllocError>
    ensures { IfOk result (λ text. text.items ≡ joined (texts.config_forms config.now)) }
{
    let mut text = Vec::new(alloc);
    if let Some(sharing) = config.sharing() {
        put_sharing(&mut text, sharing)?;
        return Ok(text);
    }
    match config {
        Config::Cpu | Config::Sfq { .. } => {}
        Config::Fp => put(&mut text, b"fp")?,
        Config::Edf => put(&mut text, b"edf")?,
        Config::Rr { quantum } => {
            put(&mut text, b"rr")?;
            put_blank_number(&mut text, *quantum)?;
        }
        Config::Wheel { frame } => {
            put(&mut text, b"wheel")?;
            put_blank_number(&mut text, *frame)?;
        }
        Config::Join { .. } => put(&mut text, b"join")?,
    }
    Ok(text)
}

/// The configuration of a scheduler, as a load spells it; nothing for a thread.
///
/// # Errors
/// Returns `AllocError` for want of memory.
pub fn sort_text(alloc: Global, sort: &Sort) -> Result<Vec<u8>, AllocError>
    ensures { IfOk result (λ text. text.items ≡ texts.sort_text sort.now) }
{
    match sort {
        Sort::Scheduler { config } => config_text(alloc, config),
        Sort::Thread => Ok(Vec::new(alloc)),
    }
}

/// The terms of a seat, as a scenario spells them; nothing at the processor.
///
/// # Errors
/// Returns `AllocError` for want of memory.
pub fn terms_text(alloc: Global, terms: &Terms) -> Result<Vec<u8>, AllocError>
    ensures { IfOk result (λ text. text.items ≡ joined (terms_forms terms.now)) }
{
    let mut text = Vec::new(alloc);
    match terms {
        Terms::Cpu => {}
        Terms::Prio(priority) => {
            put(&mut text, b"prio")?;
            put_blank_number(&mut text, *priority)?;
        }
        Terms::Res { hard, x, y } => {
            put(&mut text, b"res")?;
            put_blank_number(&mut text, *x)?;
            put_blank_number(&mut text, *y)?;
            put(&mut text, if *hard { b" hard" } else { b" soft" })?;
        }
        Terms::Weight(weight) => {
            put(&mut text, b"weight")?;
            put_blank_number(&mut text, *weight)?;
        }
        Terms::Slots(places) => {
            put(&mut text, b"slots")?;
            put_blank_number(&mut text, *places)?;
        }
        Terms::Turn => put(&mut text, b"turn")?,
        Terms::Sole => put(&mut text, b"sole")?,
    }
    Ok(text)
}
