// The commands of the ticks shown.
ghost use Rattle.std.specs.Prelude.{◌≡◌, ◌++◌, IfOk, OnOk, flat_map, map, option_map};
ghost use Rattle.std.specs.List.{AllByRecursion};
ghost use Rattle.hls_scenario.specs.Forms as spelled;
ghost use Rattle.hls_scenario.specs.Grammar.{IsCommand};
ghost use Rattle.hls_report_text.specs.declared.report.Answered as told;
ghost use Rattle.hls_view_drawing.specs.Commands as commands;

use hls_report_text::{Answer, Answered, put_refusal};
use hls_scenario::{Command, put_command};
use hls_view_picture_rows::ShownCommand;
use hls_view_scale::Scale;
use std::alloc::{AllocError, Global};

fn is_shown(scale: &Scale, tick: u32) -> bool
    ensures { result ≡ commands.is_shown scale.now tick }
{
    scale.from <= tick && tick <= scale.to
}

fn command_text(alloc: Global, version: u8, command: &Command) -> Result<Vec<u8>, AllocError>
    requires { IsCommand version command.now }
    ensures { IfOk result (λ text. text.items ≡ spelled.command_text version command.now) }
{
    let mut text = Vec::new(alloc);
    put_command(&mut text, version, command)?;
    Ok(text)
}

/// Why a command was refused, where it was.
fn refusal_text(alloc: Global, answer: &Answer) -> Result<Option<Vec<u8>>, AllocError>
    ensures { IfOk result (λ why. option_map (λ text. text.items) why ≡ commands.refusal_of answer.now) }
{
    match answer {
        Answer::Done(_) => Ok(None),
        Answer::Refused(refusal) => {
            let mut text = Vec::new(alloc);
            put_refusal(&mut text, refusal)?;
            Ok(Some(text))
        }
    }
}

fn shown(alloc: Global, version: u8, answered: &Answered) -> Result<ShownCommand, AllocError>
    requires { IsCommand version answered.now.command }
    ensures { IfOk result (λ s. commands.data_of s ≡ commands.shown version answered.now) }
{
    Ok(ShownCommand {
        tick: answered.tick,
        text: command_text(alloc, version, &answered.command)?,
        refusal: refusal_text(alloc, &answered.answer)?,
    })
}

fn put_shown(
    alloc: Global,
    all: &mut Vec<ShownCommand>,
    version: u8,
    scale: &Scale,
    a: &Answered,
) -> Result<(), AllocError>
    requires { IsCommand version a.now.command }
    ensures { OnOk result (map commands.data_of all.new.items
        ≡ map commands.data_of all.old.items ++ commands.shown_if version scale.now a.now) }
{
    if is_shown(scale, a.tick) {
        all.push(shown(alloc, version, a)?)?;
    }
    Ok(())
}

/// The commands of the ticks shown, in their order and as reports of this version spell them, with what became of them.
///
/// # Errors
/// Returns `AllocError` for want of memory.
pub fn commands_shown(
    alloc: Global,
    version: u8,
    answered: &[Answered],
    scale: &Scale,
) -> Result<Vec<ShownCommand>, AllocError>
    requires { AllByRecursion (λ (a : told.Answered). IsCommand version a.command) answered.now }
    ensures { IfOk result (λ all. map commands.data_of all.items
        ≡ flat_map (commands.shown_if version scale.now) answered.now) }
{
    let mut all = Vec::new(alloc);
    for a in answered {
        put_shown(alloc, &mut all, version, scale, a)?;
    }
    Ok(all)
}
