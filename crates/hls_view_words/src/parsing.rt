// The words, by clap beside the table.
ghost use Rattle.std.specs.Prelude.{◌≡◌, IfOk, IfErr, map, string_bytes, false, MatchOption};
ghost use Rattle.clap.specs.declared.builder.command.Command.TheViews.{out-Command};
ghost use Rattle.clap.specs.Words.{kind_of, app_of};
ghost use Rattle.hls_view_words.specs.Table.{IsView, IsNoView};
ghost use Rattle.hls_view_words.specs.Inside.Commands.{margins, jobs, tree, svg, trace, tables, hlsview};

use crate::View;
use crate::table::listed;
use clap::error::ErrorKind;
use clap::{Arg, ArgAction, ArgMatches, Command, Error};
use hls_words::{program_command, word_command};
use std::alloc::{AllocError, Global};

fn margins_command<'a>(alloc: Global) -> Command<'a>
    ensures app { app_of result ≡ margins }
    ensures local { (out-Command result).has_globals ≡ false }
{
    word_command(alloc, "margins")
}

fn tree_command<'a>(alloc: Global) -> Result<Command<'a>, AllocError>
    ensures app { IfOk result (λ c. app_of c ≡ tree) }
    ensures local { IfOk result (λ c. (out-Command c).has_globals ≡ false) }
{
    let tick = Arg::new(alloc, "at").long("at").action(ArgAction::Set);
    word_command(alloc, "tree").arg(tick)
}

fn jobs_command<'a>(alloc: Global) -> Result<Command<'a>, AllocError>
    ensures app { IfOk result (λ c. app_of c ≡ jobs) }
    ensures local { IfOk result (λ c. (out-Command c).has_globals ≡ false) }
{
    let name = Arg::new(alloc, "of").long("of").action(ArgAction::Set);
    word_command(alloc, "jobs").arg(name)
}

fn svg_command<'a>(alloc: Global) -> Result<Command<'a>, AllocError>
    ensures app { IfOk result (λ c. app_of c ≡ svg) }
    ensures local { IfOk result (λ c. (out-Command c).has_globals ≡ false) }
{
    let from = Arg::new(alloc, "from").long("from").action(ArgAction::Set);
    let to = Arg::new(alloc, "to").long("to").action(ArgAction::Set);
    word_command(alloc, "svg").arg(from)?.arg(to)
}

fn trace_command<'a>(alloc: Global) -> Result<Command<'a>, AllocError>
    ensures app { IfOk result (λ c. app_of c ≡ trace) }
    ensures local { IfOk result (λ c. (out-Command c).has_globals ≡ false) }
{
    let tick = Arg::new(alloc, "tick").long("tick").action(ArgAction::Set);
    word_command(alloc, "trace").arg(tick)
}

fn tables_command<'a>(alloc: Global) -> Result<Command<'a>, AllocError>
    ensures app { IfOk result (λ c. app_of c ≡ tables) }
    ensures local { IfOk result (λ c. (out-Command c).has_globals ≡ false) }
{
    program_command(alloc, "hlsview")
        .subcommand(margins_command(alloc))?
        .subcommand(tree_command(alloc)?)?
        .subcommand(jobs_command(alloc)?)
}

fn hlsview_command<'a>(alloc: Global) -> Result<Command<'a>, AllocError>
    ensures { IfOk result (λ c. app_of c ≡ hlsview) }
{
    tables_command(alloc)?
        .subcommand(svg_command(alloc)?)?
        .subcommand(trace_command(alloc)?)
}

/// What clap makes of the words. It refuses none of the table but for want of memory.
fn matched<'a>(alloc: Global, words: &'a Vec<String>) -> Result<ArgMatches<'a>, Error>
    ensures { IfErr result (λ e. (view : View) → IsView (map string_bytes words.entry.now.items) view →
        kind_of e ≡ ErrorKind.OutOfMemory) }
{
    let hlsview = hlsview_command(alloc)?;
    hlsview.try_get_matches_from(words.as_slice())
}

/// Lets clap read words of the table.
fn clap_reads(alloc: Global, words: &Vec<String>, view: &View) -> Result<(), AllocError>
    requires { IsView (map string_bytes words.now.items) view.now }
{
    match matched(alloc, words) {
        Ok(_matches) => Ok(()),
        Err(error) => {
            if error.kind() == ErrorKind::OutOfMemory {
                Err(AllocError)
            } else {
                unreachable!()
            }
        }
    }
}

/// What the words ask for, or `None` where they are not in the table. Clap reads what is in it.
///
/// # Errors
///
/// Returns `AllocError` where clap has no memory.
pub fn asked_for(alloc: Global, words: &Vec<String>) -> Result<Option<View>, AllocError>
    ensures { IfOk result (λ found. MatchOption found (IsNoView (map string_bytes words.now.items))
        (IsView (map string_bytes words.now.items))) }
{
    let Some(view) = listed(words) else {
        return Ok(None);
    };
    clap_reads(alloc, words, &view)?;
    Ok(Some(view))
}
