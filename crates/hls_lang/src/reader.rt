// Reading a whole text.
ghost use Rattle.std.specs.Prelude.{◌≡◌, ◌<◌, ◌≤◌, ◌^◌, ◌-◌, ◌∷◌, ◌++◌, [], length, Ok, Err, OnOk, IsErr};
ghost use Rattle.std.specs.Prelude.{true};
ghost use Rattle.hls_text.specs.Tokens.{tokens_of};
ghost use Rattle.hls_chron.specs.Ranges.{most_ticks};
ghost use Rattle.hls_lang.specs.Words.{Gives, Keeps};
ghost use Rattle.hls_lang.specs.ReadingLines.{header_at, horizon_at, depth_at, begins_with, is_full};
ghost use Rattle.hls_lang.specs.ReadingLines.{item_step};
ghost use Rattle.hls_lang.specs.ReadingLines.{depth_step, stage_step, line_step, tokens_step};
ghost use Rattle.hls_lang.specs.ReadingLines.{with_item, with_depth};
ghost use Rattle.hls_lang.specs.ReadingLines.{state_of};
ghost use Rattle.hls_lang.specs.ReadingLines.{StepGives, ReadGives, finish_at, fault_of, scenario_of};

use crate::commands::{keep_command, stamp};
use crate::line_error::LineError;
use crate::plain::{is_blank, is_plain};
use crate::words::{end, number, word};
use crate::{Cause, Item, Scenario, ScenarioFault};
use hls_chron::List;
use hls_text::{is_clean, next_line, next_token, shown};
use std::alloc::Global;

/// How many items a scenario has at most.
const MOST_ITEMS: usize = 65_536;

/// How many conversions a derivation has at most.
const MOST_DEPTH: u32 = 6;

/// The latest version of the language.
const LAST_VERSION: u32 = 2;

/// Which line may come next.
#[derive(Clone, Copy, Debug, PartialEq, Eq)]
pub enum Stage {
    AtHeader,
    AtHorizon,
    /// The depth or an item.
    AtDepth,
    AtItems,
}

/// What was read of the lines so far.
#[derive(Debug, Drop)]
pub struct Reader {
    pub stage: Stage,
    pub version: u8,
    pub horizon: u32,
    pub depth: Option<u8>,
    /// The tick of the last item, or 0.
    pub last: u32,
    pub items: Vec<Item>,
}

#[tactic(auto, unfolding(crate::specs::ReadingLines::header_at))]
fn header(line: &[u8]) -> Result<u8, Cause>
    ensures { Gives (λ n. n) result (header_at (tokens_of line.now)) }
{
    let rest = word(line, b"hls")?;
    let (version, rest) = number(rest, 1, LAST_VERSION)?;
    end(rest)?;
    Ok(version as u8)
}

/// How many ticks a scenario of this version has at most.
fn most_ticks(version: u8) -> u32
    ensures { result ≡ most_ticks version }
{
    if version == 1 { 100_000 } else { 1_000_000 }
}

#[tactic(auto, unfolding(crate::specs::ReadingLines::horizon_at))]
fn horizon(version: u8, line: &[u8]) -> Result<u32, Cause>
    ensures { Gives (λ n. n) result (horizon_at version (tokens_of line.now)) }
{
    let rest = word(line, b"horizon")?;
    let (ticks, rest) = number(rest, 1, most_ticks(version))?;
    end(rest)?;
    Ok(ticks)
}

#[tactic(auto, unfolding(crate::specs::ReadingLines::depth_at))]
fn depth(line: &[u8]) -> Result<u8, Cause>
    ensures { Gives (λ n. n) result (depth_at (tokens_of line.now)) }
{
    let rest = word(line, b"depth")?;
    let (steps, rest) = number(rest, 0, MOST_DEPTH)?;
    end(rest)?;
    Ok(steps as u8)
}

fn begins_with(line: &[u8], word: &[u8]) -> bool
    ensures { result ≡ begins_with word.now (tokens_of line.now) }
{
    match next_token(line) {
        Some((found, _)) => found == word,
        None => false,
    }
}

impl Reader {
    #[tactic(auto, unfolding(crate::specs::ReadingLines::item_step, crate::specs::Reading::item_at))]
    fn item(&mut self, alloc: Global, line: &[u8]) -> Result<(), LineError>
        ensures { StepGives result (state_of self.new) (item_step (state_of self.old) (tokens_of line.now)) }
    {
        if self.items.len() >= MOST_ITEMS && begins_with(line, b"at") {
            return Err(LineError::Fault(Cause::Many));
        }
        let (tick, rest) = stamp(line, self.horizon, self.last)?;
        keep_command(alloc, self.version, &mut self.items, tick, rest)?;
        self.last = tick;
        self.stage = Stage::AtItems;
        Ok(())
    }

    #[tactic(auto, unfolding(crate::specs::ReadingLines::depth_step))]
    fn depth_or_item(&mut self, alloc: Global, line: &[u8]) -> Result<(), LineError>
        ensures { StepGives result (state_of self.new) (depth_step (state_of self.old) (tokens_of line.now)) }
    {
        if begins_with(line, b"depth") {
            self.depth = Some(depth(line)?);
            self.stage = Stage::AtItems;
            return Ok(());
        }
        self.item(alloc, line)
    }

    /// Reads the next line that is not blank.
    #[tactic(auto, unfolding(crate::specs::ReadingLines::stage_step))]
    fn tokens(&mut self, alloc: Global, line: &[u8]) -> Result<(), LineError>
        ensures { StepGives result (state_of self.new)
            (stage_step self.old.stage (state_of self.old) (tokens_of line.now)) }
    {
        match self.stage {
            Stage::AtHeader => match header(line) {
                Ok(version) => {
                    self.version = version;
                    self.stage = Stage::AtHorizon;
                    Ok(())
                }
                Err(_) => Err(LineError::Fault(Cause::Header)),
            },
            Stage::AtHorizon => match horizon(self.version, line) {
                Ok(ticks) => {
                    self.horizon = ticks;
                    self.stage = Stage::AtDepth;
                    Ok(())
                }
                Err(_) => Err(LineError::Fault(Cause::Horizon)),
            },
            Stage::AtDepth => self.depth_or_item(alloc, line),
            Stage::AtItems => self.item(alloc, line),
        }
    }

    /// Reads what counts of the next line.
    fn shown(&mut self, alloc: Global, line: &[u8]) -> Result<(), LineError>
        ensures { StepGives result (state_of self.new) (tokens_step (state_of self.old) (tokens_of line.now)) }
    {
        if is_blank(line) {
            return Ok(());
        }
        self.tokens(alloc, line)
    }

    #[tactic(auto, unfolding(crate::specs::ReadingLines::line_step))]
    fn line(&mut self, alloc: Global, line: &[u8]) -> Result<(), LineError>
        ensures { StepGives result (state_of self.new) (line_step (state_of self.old) line.now) }
    {
        if is_plain(line) {
            return self.shown(alloc, line);
        }
        if !is_clean(line) {
            return Err(LineError::Fault(Cause::Byte));
        }
        self.shown(alloc, shown(line))
    }
}

fn fault_at(line: u32, error: LineError) -> ScenarioFault
    ensures { result ≡ fault_of line error }
{
    match error {
        LineError::Fault(cause) => ScenarioFault::At { line, cause },
        LineError::Memory(wanting) => ScenarioFault::Memory(wanting),
    }
}

fn finish(reader: Reader, line: u32) -> Result<Scenario, ScenarioFault>
    ensures { ReadGives result (finish_at reader.stage line (state_of reader)) }
{
    let Reader {
        stage,
        version,
        horizon,
        depth,
        last: _,
        items,
    } = reader;
    match stage {
        Stage::AtHeader => Err(fault_at(line, LineError::Fault(Cause::Header))),
        Stage::AtHorizon => Err(fault_at(line, LineError::Fault(Cause::Horizon))),
        Stage::AtDepth | Stage::AtItems => Ok(Scenario {
            version,
            horizon,
            depth,
            items: List::of(items),
        }),
    }
}

/// The scenario of a text, or the first line that cannot stand and its cause.
pub fn read_lines(alloc: Global, text: &[u8]) -> Result<Scenario, ScenarioFault>
    requires { length text.now < 2 ^ 32 - 1 }
    ensures { ReadGives result (scenario_of text.now) }
{
    let mut reader = Reader {
        stage: Stage::AtHeader,
        version: 1,
        horizon: 0,
        depth: None,
        last: 0,
        items: Vec::new(alloc),
    };
    let mut number = 1u32;
    let mut rest = text;
    while let Some((line, after)) = next_line(rest) {
        match reader.line(alloc, line) {
            Ok(()) => {}
            Err(error) => return Err(fault_at(number, error)),
        }
        number += 1;
        rest = after;
    }
    finish(reader, number)
}
