// The words, by clap beside the table.
ghost use Rattle.std.specs.Prelude.{◌≡◌, IfOk, IfErr, map, string_bytes, false, MatchOption};
ghost use Rattle.clap.specs.declared.builder.command.Command.TheViews.{out-Command};
ghost use Rattle.clap.specs.Words.{kind_of, app_of, subcommand_of, subcommand_rows_of};
ghost use Rattle.hls_offer_words.specs.Table.{IsAsked, IsNotAsked};
ghost use Rattle.hls_offer_words.specs.Inside.Commands.{worded, asking, hlsoffer};
ghost use Rattle.hls_offer_words.specs.Inside.Shapes.{told};

use crate::Asked;
use crate::table::has_shape;
use crate::told::asked_told;
use clap::error::ErrorKind;
use clap::{Arg, ArgAction, ArgMatches, Command, Error};
use hls_words::{program_command, word_command};
use std::alloc::{AllocError, Global};

/// A word with others behind it.
fn worded_command<'a>(alloc: Global, name: &'a str) -> Result<Command<'a>, AllocError>
    ensures app { IfOk result (λ c. app_of c ≡ worded name.entry.now) }
    ensures local { IfOk result (λ c. (out-Command c).has_globals ≡ false) }
{
    let words = Arg::new(alloc, "words").action(ArgAction::Append);
    word_command(alloc, name).arg(words)
}

/// A word that asks a question.
fn asking_command<'a>(alloc: Global, name: &'a str) -> Result<Command<'a>, AllocError>
    ensures app { IfOk result (λ c. app_of c ≡ asking name.entry.now) }
    ensures local { IfOk result (λ c. (out-Command c).has_globals ≡ false) }
{
    let tick = Arg::new(alloc, "at").long("at").action(ArgAction::Set);
    let depth = Arg::new(alloc, "depth")
        .long("depth")
        .action(ArgAction::Set);
    worded_command(alloc, name)?.arg(tick)?.arg(depth)
}

fn hlsoffer_command<'a>(alloc: Global) -> Result<Command<'a>, AllocError>
    ensures { IfOk result (λ c. app_of c ≡ hlsoffer) }
{
    program_command(alloc, "hlsoffer")
        .subcommand(asking_command(alloc, "offer")?)?
        .subcommand(asking_command(alloc, "need")?)?
        .subcommand(asking_command(alloc, "spare")?)
}

/// What clap makes of the words. It refuses none of the table but for want of memory.
fn matched<'a>(alloc: Global, words: &'a [String]) -> Result<ArgMatches<'a>, Error>
    ensures told { IfOk result (λ m. told (subcommand_rows_of m)
        ≡ told (subcommand_of hlsoffer (map string_bytes words.entry.now))) }
    ensures refused { IfErr result (λ e. (a : Asked) → IsAsked (map string_bytes words.entry.now) a →
        kind_of e ≡ ErrorKind.OutOfMemory) }
{
    let hlsoffer = hlsoffer_command(alloc)?;
    hlsoffer.try_get_matches_from(words)
}

/// What the words ask for, or `None` where they ask for nothing that the program knows. The table tells how words may
/// stand, and clap reads what they state.
///
/// # Errors
/// Returns `AllocError` for want of memory.
pub fn asked_for(alloc: Global, words: &[String]) -> Result<Option<Asked>, AllocError>
    ensures { IfOk result (λ found. MatchOption found (IsNotAsked (map string_bytes words.now))
        (IsAsked (map string_bytes words.now))) }
{
    if !has_shape(words) {
        return Ok(None);
    }
    match matched(alloc, words) {
        Ok(matches) => asked_told(alloc, &matches),
        Err(error) if error.kind() == ErrorKind::OutOfMemory => Err(AllocError),
        Err(_) => Ok(None),
    }
}
