// The canonical text of a scenario, and of a command.
ghost use Rattle.std.specs.Prelude.{◌≡◌, ◌++◌, ◌∷◌, [], OnOk, IfOk, codes, decimal, flat_map};
ghost use Rattle.std.specs.List.{AllByRecursion};
ghost use Rattle.hls_guarantee.specs.Limits.{IsNarrow};
ghost use Rattle.hls_scenario.specs.Forms.{the, fraction, number, spaced, joined, line_text, header_forms};
ghost use Rattle.hls_scenario.specs.Forms.{horizon_forms, depth_lines, guarantee_forms, terms_forms};
ghost use Rattle.hls_scenario.specs.Forms.{config_forms, quantum_forms, spot_forms, perch_forms, perches_forms};
ghost use Rattle.hls_scenario.specs.Forms.{burst_forms, waking_forms};
ghost use Rattle.hls_scenario.specs.Printing.{comma_text};
ghost use Rattle.hls_scenario.specs.Forms.{command_forms, item_forms, command_text, scenario_text};
ghost use Rattle.hls_scenario.specs.Grammar.{IsScenario, IsCommand, IsScenarioText};

use crate::{Command, Item, Perch, Scenario, Spot};
use hls_chron::{Config, Name, Terms};
use hls_guarantee::{Guarantee, write_guarantee};
use hls_text::put;
use std::alloc::{AllocError, Global};

/// The canonical text of a scenario: one space between words, a line for each item, no comment, and
/// fractions in lowest terms.
///
/// # Errors
/// Returns `AllocError` for want of memory.
#[tactic(auto, unfolding(crate::specs::Forms::scenario_text))]
pub fn print_scenario(alloc: Global, scenario: &Scenario) -> Result<Vec<u8>, AllocError>
    requires { IsScenario scenario.now }
    ensures text { IfOk result (λ text. text.items ≡ scenario_text scenario.now) }
    // It is in the grammar, and so is read back as the same scenario.
    ensures stands { IfOk result (λ text. IsScenarioText text.items scenario.now) }
{
    let mut out = Vec::new(alloc);
    put_head(&mut out, scenario)?;
    put_items(&mut out, scenario.version, scenario.items.items())?;
    Ok(out)
}

/// The canonical text of a command without its tick, as reports of this version have it.
///
/// # Errors
/// Returns `AllocError` for want of memory.
pub fn print_command(alloc: Global, version: u8, command: &Command) -> Result<Vec<u8>, AllocError>
    requires { IsCommand version command.now }
    ensures { IfOk result (λ text. text.items ≡ command_text version command.now) }
{
    let mut out = Vec::new(alloc);
    put_command(&mut out, version, command)?;
    Ok(out)
}

fn put_head(out: &mut Vec<u8>, scenario: &Scenario) -> Result<(), AllocError>
    ensures { OnOk result (out.new.items ≡ out.old.items
        ++ flat_map line_text
        (header_forms scenario.now.version ∷ horizon_forms scenario.now.horizon ∷ depth_lines scenario.now.depth)) }
{
    put_counted(out, b"hls", u32::from(scenario.version))?;
    put_counted(out, b"horizon", scenario.horizon)?;
    put_depth(out, scenario.depth)
}

// A line of a word and a number.
fn put_counted(out: &mut Vec<u8>, word: &[u8], count: u32) -> Result<(), AllocError>
    ensures { OnOk result (out.new.items
        ≡ out.old.items ++ line_text (the word.now ∷ number count ∷ [])) }
{
    put(out, word)?;
    put_number(out, count)?;
    put(out, b"\n")
}

fn put_depth(out: &mut Vec<u8>, depth: Option<u8>) -> Result<(), AllocError>
    ensures { OnOk result (out.new.items ≡ out.old.items ++ flat_map line_text (depth_lines depth)) }
{
    let Some(depth) = depth else {
        return Ok(());
    };
    put_counted(out, b"depth", u32::from(depth))
}

fn put_items(out: &mut Vec<u8>, version: u8, items: &[Item]) -> Result<(), AllocError>
    requires { AllByRecursion (λ item. IsCommand version item.command) items.now }
    ensures { OnOk result (out.new.items
        ≡ out.old.items ++ flat_map (λ item. line_text (item_forms version item)) items.now) }
{
    for item in items {
        put_item(out, version, item)?;
    }
    Ok(())
}

fn put_item(out: &mut Vec<u8>, version: u8, item: &Item) -> Result<(), AllocError>
    requires { IsCommand version item.now.command }
    ensures { OnOk result (out.new.items ≡ out.old.items ++ line_text (item_forms version item.now)) }
{
    put(out, b"at")?;
    put_number(out, item.tick)?;
    put(out, b" ")?;
    put_command(out, version, &item.command)?;
    put(out, b"\n")
}

/// Appends the canonical text of a command without its tick, in this version of the language.
///
/// # Errors
/// Returns `AllocError` for want of memory.
pub fn put_command(out: &mut Vec<u8>, version: u8, command: &Command) -> Result<(), AllocError>
    requires { IsCommand version command.now }
    ensures { OnOk result (out.new.items ≡ out.old.items ++ command_text version command.now) }
{
    match command {
        Command::Load {
            name,
            config,
            perches,
        } => {
            put_named(out, b"load", name)?;
            put_config(out, version, config)?;
            put(out, b" on")?;
            put_perches(out, perches.items())
        }
        Command::Thread { name, perch } => {
            put_named(out, b"thread", name)?;
            put(out, b" on")?;
            put_perch(out, perch)
        }
        Command::End { name } => put_named(out, b"end", name),
        Command::Unload { name } => put_named(out, b"unload", name),
        Command::Move { name, perch } => {
            put_named(out, b"move", name)?;
            put(out, b" to")?;
            put_perch(out, perch)
        }
        Command::Wake { name, every, burst } => {
            put_named(out, b"wake", name)?;
            put_waking(out, *every, *burst)
        }
        Command::Block { name } => put_named(out, b"block", name),
    }
}

fn put_config(out: &mut Vec<u8>, version: u8, config: &Config) -> Result<(), AllocError>
    ensures { OnOk result (out.new.items ≡ out.old.items ++ spaced (config_forms version config.now)) }
{
    // fair queueing, by its numbers
    if let Some(sharing) = config.sharing() {
        put(out, b" sfq")?;
        put_number(out, sharing.total)?;
        put_number(out, sharing.most)?;
        return put_quantum(out, version, sharing.quantum);
    }
    match config {
        Config::Cpu | Config::Sfq { .. } => Ok(()),
        Config::Fp => put(out, b" fp"),
        Config::Edf => put(out, b" edf"),
        Config::Rr { quantum } => {
            put(out, b" rr")?;
            put_number(out, *quantum)
        }
        Config::Wheel { frame } => {
            put(out, b" wheel")?;
            put_number(out, *frame)
        }
        Config::Join { .. } => put(out, b" join"),
    }
}

fn put_quantum(out: &mut Vec<u8>, version: u8, quantum: u32) -> Result<(), AllocError>
    ensures { OnOk result (out.new.items ≡ out.old.items ++ spaced (quantum_forms version quantum)) }
{
    if version == 1 {
        return Ok(());
    }
    put_number(out, quantum)
}

fn put_perches(out: &mut Vec<u8>, perches: &[Perch]) -> Result<(), AllocError>
    requires { AllByRecursion (λ perch. IsNarrow perch.want) perches.now }
    ensures { OnOk result (out.new.items ≡ out.old.items ++ spaced (perches_forms perches.now)) }
{
    let [first, rest @ ..] = perches else {
        return Ok(());
    };
    put_perch(out, first)?;
    put_more_perches(out, rest)
}

fn put_more_perches(out: &mut Vec<u8>, perches: &[Perch]) -> Result<(), AllocError>
    requires { AllByRecursion (λ perch. IsNarrow perch.want) perches.now }
    ensures { OnOk result (out.new.items ≡ out.old.items ++ flat_map comma_text perches.now) }
{
    for perch in perches {
        put(out, b" ,")?;
        put_perch(out, perch)?;
    }
    Ok(())
}

fn put_perch(out: &mut Vec<u8>, perch: &Perch) -> Result<(), AllocError>
    requires { IsNarrow perch.now.want }
    ensures { OnOk result (out.new.items ≡ out.old.items ++ spaced (perch_forms perch.now)) }
{
    put_spot(out, &perch.spot)?;
    put(out, b" as ")?;
    write_guarantee(&perch.want, out)
}

fn put_spot(out: &mut Vec<u8>, spot: &Spot) -> Result<(), AllocError>
    ensures { OnOk result (out.new.items ≡ out.old.items ++ spaced (spot_forms spot.now)) }
{
    match spot {
        Spot::Cpu => put(out, b" cpu"),
        Spot::Under { sched, terms } => {
            put_named(out, b"", sched)?;
            put_terms(out, terms)
        }
    }
}

fn put_terms(out: &mut Vec<u8>, terms: &Terms) -> Result<(), AllocError>
    ensures { OnOk result (out.new.items ≡ out.old.items ++ spaced (terms_forms terms.now)) }
{
    match terms {
        Terms::Cpu => Ok(()),
        Terms::Prio(priority) => {
            put(out, b" prio")?;
            put_number(out, *priority)
        }
        Terms::Res { hard, x, y } => {
            put(out, b" res")?;
            put_number(out, *x)?;
            put_number(out, *y)?;
            put(out, if *hard { b" hard" } else { b" soft" })
        }
        Terms::Weight(weight) => {
            put(out, b" weight")?;
            put_number(out, *weight)
        }
        Terms::Slots(places) => {
            put(out, b" slots")?;
            put_number(out, *places)
        }
        Terms::Turn => put(out, b" turn"),
        Terms::Sole => put(out, b" sole"),
    }
}

fn put_waking(out: &mut Vec<u8>, every: Option<u32>, burst: Option<u32>) -> Result<(), AllocError>
    ensures { OnOk result (out.new.items ≡ out.old.items ++ spaced (waking_forms every burst)) }
{
    let Some(period) = every else {
        return put_burst(out, burst);
    };
    let Some(ticks) = burst else {
        return Ok(());
    };
    put(out, b" every")?;
    put_number(out, period)?;
    put(out, b" burst")?;
    put_number(out, ticks)
}

fn put_burst(out: &mut Vec<u8>, burst: Option<u32>) -> Result<(), AllocError>
    ensures { OnOk result (out.new.items ≡ out.old.items ++ spaced (burst_forms burst)) }
{
    let Some(ticks) = burst else {
        return Ok(());
    };
    put(out, b" for")?;
    put_number(out, ticks)
}

// The words, a space and a name.
fn put_named(out: &mut Vec<u8>, words: &[u8], name: &Name) -> Result<(), AllocError>
    ensures { OnOk result (out.new.items ≡ out.old.items ++ (words.now ++ (32 ∷ name.now))) }
{
    put(out, words)?;
    put(out, b" ")?;
    put(out, name.bytes())
}

// A space and a number.
fn put_number(out: &mut Vec<u8>, number: u32) -> Result<(), AllocError>
    ensures { OnOk result (out.new.items ≡ out.old.items ++ (32 ∷ decimal number)) }
{
    put(out, b" ")?;
    hls_text::put_number(out, u128::from(number))
}
