// Commands and items.
ghost use Rattle.std.specs.Prelude.{◌≡◌, ◌∷◌, ◌++◌, [], IfOk, IfSome, Some, Ok};
ghost use Rattle.hls_scenario.specs.Grammar.{IsItemLine};
ghost use Rattle.hls_text.specs.Tokens.{tokens_of};
ghost use Rattle.hls_lang.specs.Words.{Gives, Keeps};
ghost use Rattle.hls_lang.specs.Reading.{join_at, one_perch_at, load_by, load_at, thread_at, move_at};
ghost use Rattle.hls_lang.specs.Reading.{last_name_at};
ghost use Rattle.hls_lang.specs.Reading.{every_at, waking_at, wake_at, command_by, command_at, item_at};
ghost use Rattle.hls_lang.specs.Inside.Steps.{last_burst_at, kept_at, stamp_at};
ghost use Rattle.hls_scenario.specs.declared.scenario.Command.TheVariants.{Wake};

use crate::line_error::LineError;
use crate::ports::ports;
use crate::seats::{config_after, last_perch};
use crate::words::{end, name, number, tick, token, word};
use crate::{Cause, Command, Item, Perch};
use hls_chron::{Config, List, Name};
use hls_text::next_token;
use std::alloc::{AllocError, Global};

/// The longest burst, in ticks.
const MOST_BURST: u32 = 100_000;

/// The longest period of a wake, in ticks.
const MOST_PERIOD: u32 = 100_000;

#[tactic(auto, unfolding(crate::specs::Reading::join_at))]
fn join(alloc: Global, name: Name, line: &[u8]) -> Result<Command, LineError>
    ensures { Keeps (λ command. command) result (join_at name (tokens_of line.now)) }
{
    let rest = word(line, b"on")?;
    let perches = ports(alloc, rest)?;
    let config = Config::Join {
        ports: perches.len() as u8,
    };
    Ok(Command::Load {
        name,
        config,
        perches: List::of(perches),
    })
}

fn one_of(alloc: Global, perch: Perch) -> Result<Vec<Perch>, AllocError>
    ensures { IfOk result (λ perches. perches.items ≡ perch ∷ []) }
{
    let perches = vec![in alloc; perch]?;
    Ok(perches)
}

#[tactic(auto, unfolding(crate::specs::Reading::one_perch_at))]
fn one_perch(alloc: Global, name: Name, config: Config, line: &[u8]) -> Result<Command, LineError>
    ensures { Keeps (λ command. command) result (one_perch_at name config (tokens_of line.now)) }
{
    let rest = word(line, b"on")?;
    let perch = last_perch(rest)?;
    let perches = one_of(alloc, perch)?;
    Ok(Command::Load {
        name,
        config,
        perches: List::of(perches),
    })
}

#[tactic(auto, unfolding(crate::specs::Reading::load_by))]
fn load_after(
    alloc: Global,
    version: u8,
    name: Name,
    word: &[u8],
    line: &[u8],
) -> Result<Command, LineError>
    ensures { Keeps (λ command. command) result (load_by version name word.now (tokens_of line.now)) }
{
    if word == b"join".as_slice() {
        return join(alloc, name, line);
    }
    let (config, rest) = config_after(version, word, line)?;
    one_perch(alloc, name, config, rest)
}

#[tactic(auto, unfolding(crate::specs::Reading::load_at))]
fn load(alloc: Global, version: u8, line: &[u8]) -> Result<Command, LineError>
    ensures { Keeps (λ command. command) result (load_at version (tokens_of line.now)) }
{
    match name(line) {
        Ok((name, rest)) => {
            let (found, rest) = token(rest)?;
            load_after(alloc, version, name, found, rest)
        }
        Err(cause) => Err(LineError::Fault(cause)),
    }
}

#[tactic(auto, unfolding(crate::specs::Reading::thread_at))]
fn thread(line: &[u8]) -> Result<Command, Cause>
    ensures { Gives (λ command. command) result (thread_at (tokens_of line.now)) }
{
    match name(line) {
        Ok((name, rest)) => {
            let rest = word(rest, b"on")?;
            let perch = last_perch(rest)?;
            Ok(Command::Thread { name, perch })
        }
        Err(cause) => Err(cause),
    }
}

#[tactic(auto, unfolding(crate::specs::Reading::move_at))]
fn moving(line: &[u8]) -> Result<Command, Cause>
    ensures { Gives (λ command. command) result (move_at (tokens_of line.now)) }
{
    match name(line) {
        Ok((name, rest)) => {
            let rest = word(rest, b"to")?;
            let perch = last_perch(rest)?;
            Ok(Command::Move { name, perch })
        }
        Err(cause) => Err(cause),
    }
}

/// A name that ends the line.
#[tactic(auto, unfolding(crate::specs::Reading::last_name_at))]
fn last_name(line: &[u8]) -> Result<Name, Cause>
    ensures { Gives (λ name. name) result (last_name_at (tokens_of line.now)) }
{
    match name(line) {
        Ok((name, rest)) => {
            end(rest)?;
            Ok(name)
        }
        Err(cause) => Err(cause),
    }
}

/// A burst that ends the line.
fn last_burst(line: &[u8]) -> Result<Option<u32>, Cause>
    ensures { Gives (λ burst. burst) result (last_burst_at (tokens_of line.now)) }
{
    let (ticks, rest) = number(line, 1, MOST_BURST)?;
    end(rest)?;
    Ok(Some(ticks))
}

/// A period, and behind it a burst that ends the line.
#[tactic(auto, unfolding(crate::specs::Reading::every_at))]
fn every(line: &[u8]) -> Result<(Option<u32>, Option<u32>), Cause>
    ensures { Gives (λ p. p) result (every_at (tokens_of line.now)) }
{
    let (period, rest) = number(line, 1, MOST_PERIOD)?;
    let rest = word(rest, b"burst")?;
    let (ticks, rest) = number(rest, 1, MOST_BURST)?;
    end(rest)?;
    Ok((Some(period), Some(ticks)))
}

/// The period and the burst of a wake: version 1 has no word for a period.
#[tactic(auto, unfolding(crate::specs::Reading::waking_at, crate::specs::Reading::burst_at))]
fn waking(version: u8, line: &[u8]) -> Result<(Option<u32>, Option<u32>), Cause>
    ensures { Gives (λ p. p) result (waking_at version (tokens_of line.now)) }
{
    let Some((found, rest)) = next_token(line) else {
        return Ok((None, None));
    };
    if version != 1 && found == b"every".as_slice() {
        every(rest)
    } else if found == b"for".as_slice() {
        let burst = last_burst(rest)?;
        Ok((None, burst))
    } else {
        Err(Cause::Word)
    }
}

#[tactic(auto, unfolding(crate::specs::Reading::wake_at))]
fn wake(version: u8, line: &[u8]) -> Result<(Name, Option<u32>, Option<u32>), Cause>
    ensures { Gives (λ p. Wake p.0 p.1 p.2) result (wake_at version (tokens_of line.now)) }
{
    match name(line) {
        Ok((name, rest)) => {
            let (every, burst) = waking(version, rest)?;
            Ok((name, every, burst))
        }
        Err(cause) => Err(cause),
    }
}

#[tactic(auto, unfolding(crate::specs::Reading::command_by))]
fn command_after(alloc: Global, version: u8, word: &[u8], line: &[u8]) -> Result<Command, LineError>
    ensures { Keeps (λ command. command) result (command_by version word.now (tokens_of line.now)) }
{
    if word == b"load".as_slice() {
        load(alloc, version, line)
    } else if word == b"thread".as_slice() {
        Ok(thread(line)?)
    } else if word == b"end".as_slice() {
        Ok(Command::End {
            name: last_name(line)?,
        })
    } else if word == b"unload".as_slice() {
        Ok(Command::Unload {
            name: last_name(line)?,
        })
    } else if word == b"move".as_slice() {
        Ok(moving(line)?)
    } else if word == b"wake".as_slice() {
        let (name, every, burst) = wake(version, line)?;
        Ok(Command::Wake { name, every, burst })
    } else if word == b"block".as_slice() {
        Ok(Command::Block {
            name: last_name(line)?,
        })
    } else {
        Err(LineError::Fault(Cause::Word))
    }
}

#[tactic(auto, unfolding(crate::specs::Reading::command_at))]
fn command(alloc: Global, version: u8, line: &[u8]) -> Result<Command, LineError>
    ensures { Keeps (λ command. command) result (command_at version (tokens_of line.now)) }
{
    let (found, rest) = token(line)?;
    command_after(alloc, version, found, rest)
}

fn keep_item(items: &mut Vec<Item>, item: Item) -> Result<(), LineError>
    ensures { Keeps (λ u. items.new.items) result (Ok (items.old.items ++ item ∷ [])) }
{
    match items.push(item) {
        Ok(()) => Ok(()),
        Err(wanting) => Err(LineError::Memory(AllocError::from(wanting))),
    }
}

/// Reads a command, all of a line, and keeps it with the items.
// The commands that come most often are kept at once: a command is large, and each step between costs a copy.
#[tactic(auto, unfolding(crate::specs::Reading::command_at, crate::specs::Reading::command_by))]
pub fn keep_command(
    alloc: Global,
    version: u8,
    items: &mut Vec<Item>,
    tick: u32,
    line: &[u8],
) -> Result<(), LineError>
    ensures { Keeps (λ u. items.new.items) result (kept_at version items.old.items tick (tokens_of line.now)) }
{
    let (found, rest) = token(line)?;
    if found == b"wake".as_slice() {
        let (name, every, burst) = wake(version, rest)?;
        let command = Command::Wake { name, every, burst };
        keep_item(items, Item { tick, command })
    } else if found == b"block".as_slice() {
        let command = Command::Block {
            name: last_name(rest)?,
        };
        keep_item(items, Item { tick, command })
    } else {
        let command = command_after(alloc, version, found, rest)?;
        keep_item(items, Item { tick, command })
    }
}

/// The tick before a command, and what stands after it.
pub fn stamp(line: &[u8], horizon: u32, last: u32) -> Result<(u32, &[u8]), Cause>
    ensures { Gives (λ p. (p.0, tokens_of p.1.now)) result (stamp_at horizon last (tokens_of line.now)) }
{
    let rest = word(line, b"at")?;
    tick(rest, horizon, last)
}

/// An item, all of a line.
#[tactic(auto, unfolding(crate::specs::Reading::item_at))]
pub fn item(
    alloc: Global,
    version: u8,
    line: &[u8],
    horizon: u32,
    last: u32,
) -> Result<Item, LineError>
    ensures { Keeps (λ item. item) result (item_at version horizon last (tokens_of line.now)) }
{
    let (tick, rest) = stamp(line, horizon, last)?;
    let command = command(alloc, version, rest)?;
    Ok(Item { tick, command })
}

/// The item that is all of a line, in this version of the language, of a tick from `last` on and below the
/// horizon. `None` for every other line.
///
/// # Errors
/// Returns `AllocError` for want of memory.
pub fn read_item(
    alloc: Global,
    version: u8,
    line: &[u8],
    horizon: u32,
    last: u32,
) -> Result<Option<Item>, AllocError>
    ensures found { IfOk result (λ found.
        IfSome found (λ item. IsItemLine version horizon last (tokens_of line.now) item)) }
    ensures exact { IfOk result (λ found.
        (item : Item) → IsItemLine version horizon last (tokens_of line.now) item → found ≡ Some item) }
{
    match item(alloc, version, line, horizon, last) {
        Ok(item) => Ok(Some(item)),
        Err(LineError::Fault(_)) => Ok(None),
        Err(LineError::Memory(wanting)) => Err(wanting),
    }
}
