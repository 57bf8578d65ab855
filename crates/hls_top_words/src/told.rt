// What clap's matches ask for.
ghost use Rattle.std.specs.Prelude.{◌≡◌, ◌≤◌, ◌<◌, ◌^◌, decimal, IfSome, IsNone, ℕ};
ghost use Rattle.clap.specs.Words.{found_of, rows_of, subcommand_rows_of};
ghost use Rattle.hls_top_words.specs.Inside.Shapes.{told, depth_in, number_in as number_of, TellsJob, TellsDepth};
ghost use Rattle.hls_top_words.specs.Inside.Shapes.{TellsNumber};

use crate::Job;
use clap::ArgMatches;
use hls_text::decimal_number;

/// The depth where the words state none.
const USUAL_DEPTH: u8 = 3;

/// The most conversions of a derivation.
const MOST_DEPTH: u128 = 6;

/// The greatest number of a scenario that is made.
const MOST_NUMBER: u128 = 4_294_967_295;

/// The depth that a text spells, of at most 6 conversions.
fn depth_of(text: &str) -> Option<u8>
    ensures found { IfSome result (λ depth. (depth ≤ 6) × (text.now ≡ decimal depth)) }
    ensures none { IsNone result → (depth : ℕ) → depth ≤ 6 → text.now ≡ decimal depth → ⊥ }
{
    match decimal_number(text.as_bytes()) {
        Some(n) if n <= MOST_DEPTH => Some(n as u8),
        _ => None,
    }
}

/// The depth that was found behind `run`.
fn depth_found(matches: &ArgMatches) -> Option<u8>
    ensures found { IfSome result (TellsDepth (depth_in (rows_of (found_of matches.now)))) }
    ensures none { IsNone result → (depth : ℕ) → ¬ TellsDepth (depth_in (rows_of (found_of matches.now))) depth }
{
    match matches.get_str("depth") {
        Some(text) => depth_of(text),
        None => Some(USUAL_DEPTH),
    }
}

/// The number of 32 bits that a text spells.
fn number_of_text(text: &str) -> Option<u32>
    ensures found { IfSome result (λ number. (number < 2 ^ 32) × (text.now ≡ decimal number)) }
    ensures none { IsNone result → (number : ℕ) → number < 2 ^ 32 → text.now ≡ decimal number → ⊥ }
{
    match decimal_number(text.as_bytes()) {
        Some(n) if n <= MOST_NUMBER => Some(n as u32),
        _ => None,
    }
}

/// The number that was found behind `gen` or `trial`.
fn number_found(matches: &ArgMatches) -> Option<u32>
    ensures found { IfSome result (TellsNumber (number_of (rows_of (found_of matches.now)))) }
    ensures none { IsNone result → (number : ℕ) → ¬ TellsNumber (number_of (rows_of (found_of matches.now))) number }
{
    match matches.get_str("number") {
        Some(text) => number_of_text(text),
        None => None,
    }
}

/// The job of a subcommand with these matches.
fn job_of(name: &str, matches: &ArgMatches) -> Option<Job>
    ensures found { IfSome result (TellsJob (Some (
      name.now,
      depth_in (rows_of (found_of matches.now)),
      number_of (rows_of (found_of matches.now)),
    ))) }
    ensures none { IsNone result → (job : Job) → ¬ TellsJob (Some (
      name.now,
      depth_in (rows_of (found_of matches.now)),
      number_of (rows_of (found_of matches.now)),
    )) job }
{
    match name {
        "run" => Some(Job::Run {
            depth: depth_found(matches)?,
        }),
        "check" => Some(Job::Check),
        "gen" => Some(Job::Gen {
            number: number_found(matches)?,
        }),
        "trial" => Some(Job::Trial {
            number: number_found(matches)?,
        }),
        _ => None,
    }
}

/// The job that matches tell, or `None` where what they state is no depth, or no number.
pub fn job_told(matches: &ArgMatches) -> Option<Job>
    ensures found { IfSome result (TellsJob (told (subcommand_rows_of matches.now))) }
    ensures none { IsNone result → (job : Job) → ¬ TellsJob (told (subcommand_rows_of matches.now)) job }
{
    let (name, found) = matches.subcommand()?;
    job_of(name, found)
}
