// The words, by clap beside the table.
ghost use Rattle.std.specs.Prelude.{◌≡◌, IfOk, IfErr, map, string_bytes, false, MatchOption};
ghost use Rattle.clap.specs.declared.builder.command.Command.TheViews.{out-Command};
ghost use Rattle.clap.specs.Words.{kind_of, app_of, subcommand_of, subcommand_rows_of};
ghost use Rattle.hls_top_words.specs.Table.{IsJob, IsNoJob};
ghost use Rattle.hls_top_words.specs.Inside.Commands.{run, check, numbered, hls};
ghost use Rattle.hls_top_words.specs.Inside.Shapes.{told};

use crate::Job;
use crate::table::has_shape;
use crate::told::job_told;
use clap::error::ErrorKind;
use clap::{Arg, ArgAction, ArgMatches, Command, Error};
use hls_words::{program_command, word_command};
use std::alloc::{AllocError, Global};

fn run_command<'a>(alloc: Global) -> Result<Command<'a>, AllocError>
    ensures app { IfOk result (λ c. app_of c ≡ run) }
    ensures local { IfOk result (λ c. (out-Command c).has_globals ≡ false) }
{
    let depth = Arg::new(alloc, "depth")
        .long("depth")
        .action(ArgAction::Set);
    word_command(alloc, "run").arg(depth)
}

fn check_command<'a>(alloc: Global) -> Command<'a>
    ensures app { app_of result ≡ check }
    ensures local { (out-Command result).has_globals ≡ false }
{
    word_command(alloc, "check")
}

/// A word that takes a number.
fn numbered_command<'a>(alloc: Global, name: &'a str) -> Result<Command<'a>, AllocError>
    ensures app { IfOk result (λ c. app_of c ≡ numbered name.entry.now) }
    ensures local { IfOk result (λ c. (out-Command c).has_globals ≡ false) }
{
    let number = Arg::new(alloc, "number")
        .required(true)
        .action(ArgAction::Set);
    word_command(alloc, name).arg(number)
}

fn hls_command<'a>(alloc: Global) -> Result<Command<'a>, AllocError>
    ensures { IfOk result (λ c. app_of c ≡ hls) }
{
    program_command(alloc, "hls")
        .subcommand(run_command(alloc)?)?
        .subcommand(check_command(alloc))?
        .subcommand(numbered_command(alloc, "gen")?)?
        .subcommand(numbered_command(alloc, "trial")?)
}

/// What clap makes of the words. It refuses none of the table but for want of memory.
fn matched<'a>(alloc: Global, words: &'a Vec<String>) -> Result<ArgMatches<'a>, Error>
    ensures told { IfOk result (λ m. told (subcommand_rows_of m)
        ≡ told (subcommand_of hls (map string_bytes words.entry.now.items))) }
    ensures refused { IfErr result (λ e. (job : Job) → IsJob (map string_bytes words.entry.now.items) job →
        kind_of e ≡ ErrorKind.OutOfMemory) }
{
    let hls = hls_command(alloc)?;
    hls.try_get_matches_from(words.as_slice())
}

/// What the words ask for, or `None` where they are not in the table. The table tells how words may stand, and clap
/// reads what they state.
///
/// # Errors
///
/// Returns `AllocError` where clap has no memory.
pub fn asked_for(alloc: Global, words: &Vec<String>) -> Result<Option<Job>, AllocError>
    ensures { IfOk result (λ found. MatchOption found (IsNoJob (map string_bytes words.now.items))
        (IsJob (map string_bytes words.now.items))) }
{
    if !has_shape(words) {
        return Ok(None);
    }
    match matched(alloc, words) {
        Ok(matches) => Ok(job_told(&matches)),
        Err(error) if error.kind() == ErrorKind::OutOfMemory => Err(AllocError),
        Err(_) => Ok(None),
    }
}
