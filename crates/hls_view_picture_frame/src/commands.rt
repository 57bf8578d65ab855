// What was asked in the ticks shown, and what became of it.
ghost use Rattle.std.specs.Prelude.{◌≡◌, ◌<◌, ◌∷◌, ◌++◌, [], IfOk, OnOk, filter, map};
ghost use Rattle.hls_view_picture_frame.specs.Commands as told;

use hls_text::put;
use hls_view_picture_rows::ShownCommand;
use hls_view_pieces::Piece::{Number, Text};
use hls_view_pieces::put_pieces;
use hls_view_scale::Scale;
use std::alloc::{AllocError, Global};

/// How many lines of refusals there are at most.
const MOST_LINES: usize = 12;

pub(crate) fn is_refused(command: &ShownCommand) -> bool
    ensures { result ≡ told.is_refused command.now }
{
    command.refusal.is_some()
}

fn has_outcome(command: &ShownCommand, refused: bool) -> bool
    ensures { result ≡ told.has_outcome refused command.now }
{
    if refused {
        is_refused(command)
    } else {
        !is_refused(command)
    }
}

#[tactic(auto, unfolding(crate::specs::Commands::outcome_text))]
fn put_outcome(out: &mut Vec<u8>, refusal: &Option<Vec<u8>>) -> Result<(), AllocError>
    ensures { OnOk result (out.new.items ≡ out.old.items ++ told.outcome_text refusal.now) }
{
    match refusal {
        None => put(out, b"done"),
        Some(why) => put_pieces(out, &[Text(b"refused "), Text(why)]),
    }
}

/// Appends a command as a report has it.
///
/// # Errors
/// Returns `AllocError` for want of memory.
#[tactic(auto, unfolding(crate::specs::Commands::command_line))]
pub fn put_command_line(out: &mut Vec<u8>, command: &ShownCommand) -> Result<(), AllocError>
    ensures { OnOk result (out.new.items ≡ out.old.items ++ told.command_line command.now) }
{
    put_pieces(
        out,
        &[
            Text(b"at "),
            Number(u128::from(command.tick)),
            Text(b" "),
            Text(&command.text),
            Text(b" = "),
        ],
    )?;
    put_outcome(out, &command.refusal)
}

/// The column of a tick.
pub fn column_of(scale: &Scale, tick: u32) -> u32
    ensures { result ≡ told.column_of scale.now tick }
{
    (u64::from(tick.saturating_sub(scale.from)) / scale.ticks) as u32
}

/// The column of each command that was refused, or of each that was done.
fn column_each(
    alloc: Global,
    scale: &Scale,
    commands: &[ShownCommand],
    refused: bool,
) -> Result<Vec<u32>, AllocError>
    ensures { IfOk result (λ columns. columns.items ≡ map (told.command_column scale.now)
        (filter (told.has_outcome refused) commands.now)) }
{
    let mut columns = Vec::new(alloc);
    for command in commands {
        if has_outcome(command, refused) {
            columns.push(column_of(scale, command.tick))?;
        }
    }
    Ok(columns)
}

/// The columns of the commands that were refused, or else of those that were done, each once where they stand in the
/// order of their ticks.
///
/// # Errors
/// Returns `AllocError` for want of memory.
pub fn columns_where(
    alloc: Global,
    scale: &Scale,
    commands: &[ShownCommand],
    refused: bool,
) -> Result<Vec<u32>, AllocError>
    ensures { IfOk result (λ columns. columns.items
        ≡ told.columns_of scale.now (filter (told.has_outcome refused) commands.now)) }
{
    let mut columns = column_each(alloc, scale, commands, refused)?;
    columns.dedup();
    Ok(columns)
}

fn refused_lines(alloc: Global, commands: &[ShownCommand]) -> Result<Vec<Vec<u8>>, AllocError>
    ensures { IfOk result (λ lines. map (λ line. line.items) lines.items ≡ told.refused_lines commands.now) }
{
    let mut lines = Vec::new(alloc);
    for command in commands {
        if is_refused(command) {
            let mut line = Vec::new(alloc);
            put_command_line(&mut line, command)?;
            lines.push(line)?;
        }
    }
    Ok(lines)
}

fn more_line(alloc: Global, more: usize) -> Result<Vec<u8>, AllocError>
    requires { 0 < more }
    ensures { IfOk result (λ line. line.items ∷ [] ≡ told.more_lines more) }
{
    let mut line = Vec::new(alloc);
    put_pieces(
        &mut line,
        &[Text(b"and "), Number(more as u128), Text(b" more")],
    )?;
    Ok(line)
}

/// The lines that stand below the rows: the first refusals, and how many more there are.
///
/// # Errors
/// Returns `AllocError` for want of memory.
pub fn refusal_lines(alloc: Global, commands: &[ShownCommand]) -> Result<Vec<Vec<u8>>, AllocError>
    ensures { IfOk result (λ lines. map (λ line. line.items) lines.items ≡ told.refusal_lines commands.now) }
{
    let mut lines = refused_lines(alloc, commands)?;
    let more = lines.len().saturating_sub(MOST_LINES);
    if more == 0 {
        return Ok(lines);
    }
    lines.truncate(MOST_LINES);
    lines.push(more_line(alloc, more)?)?;
    Ok(lines)
}
