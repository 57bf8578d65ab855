// Commands for clap.
ghost use Rattle.std.specs.Prelude.{◌≡◌, false};
ghost use Rattle.clap.specs.declared.builder.command.Command.TheViews.{out-Command};
ghost use Rattle.clap.specs.Words.{app_of};
ghost use Rattle.hls_words.specs.Commands.{word, program};

use clap::Command;
use std::alloc::Global;

/// A word of the command line, with no help of its own.
pub fn word_command<'a>(alloc: Global, name: &'a str) -> Command<'a>
    ensures app { app_of result ≡ word name.entry.now }
    ensures local { (out-Command result).has_globals ≡ false }
{
    Command::new(alloc, name).disable_help_flag(true)
}

/// A program that is told by its first word what to do, and has no help.
pub fn program_command<'a>(alloc: Global, name: &'a str) -> Command<'a>
    ensures app { app_of result ≡ program name.entry.now }
    ensures local { (out-Command result).has_globals ≡ false }
{
    Command::new(alloc, name)
        .no_binary_name(true)
        .disable_help_flag(true)
        .disable_help_subcommand(true)
        .subcommand_required(true)
}
