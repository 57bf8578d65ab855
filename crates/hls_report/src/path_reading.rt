// Reading the words of a path.
ghost use Rattle.std.specs.Prelude.{◌≡◌, ◌^◌, ◌<◌, ◌≤◌, ◌+◌, ◌==◌, ◌∷◌, ◌++◌, [], List, ℕ, length, take};
ghost use Rattle.std.specs.Prelude.{codes, IfSome, IfOk, MatchOption};
ghost use Rattle.std.specs.List.{position_or_len};
ghost use Rattle.hls_text.specs.Lines.{Text};
ghost use Rattle.hls_chron.specs.Name.{IsName};
ghost use Rattle.hls_text.specs.Options.{Gives};
ghost use Rattle.hls_report.specs.Inside.Paths.{names_text, first_name_at, FitIn, IsPathRead};

use crate::places::place_in;
use crate::words::name;
use hls_chron::Name;
use hls_report_text::Path;
use hls_text::{after, place_of};
use indexmap::IndexSet;
use std::alloc::AllocError;

/// How many names the paths of a report have at most.
const MOST_NAMES: usize = 65_536;

/// How many names a path has at most.
const MOST_PARTS: u8 = 9;

/// How many bytes stand before the first such byte, or in all.
fn length_before(text: &[u8], byte: u8) -> usize
    ensures value { result ≡ position_or_len (λ b. b == byte) text.now }
    ensures short { result ≤ length text.now }
{
    match place_of(text, byte) {
        Some(place) => place,
        None => text.len(),
    }
}

/// A name of a path, and what stands behind it.
#[derive(Debug, Drop)]
struct First<'a> {
    name: Name,
    rest: &'a [u8],
}

/// The first name behind a slash.
#[tactic(auto, unfolding(crate::specs::Inside::Paths::first_name_at))]
fn first_name(text: &[u8]) -> Option<First<'_>>
    ensures read { Gives (λ p. (p.name, p.rest.now)) result (first_name_at text.now) }
    ensures found { IfSome result (λ p. IsName p.name × (text.now ≡ codes "/" ++ (p.name ++ p.rest.now))) }
{
    let rest = after(text, b"/")?;
    let length = length_before(rest, b'/');
    let name = name(&rest[..length])?;
    Some(First {
        name,
        rest: &rest[length..],
    })
}

fn push(path: &mut Path, place: u16)
    requires { path.old.len < 9 }
    ensures { (path.new.len ≡ path.old.len + 1)
        × (take path.new.len path.new.names ≡ take path.old.len path.old.names ++ place ∷ []) }
{
    path.names[usize::from(path.len)] = place;
    path.len += 1;
}

/// The path that words tell, of names that are known or are put behind them.
pub fn path(known: &mut IndexSet<Name>, text: &[u8]) -> Result<Option<Path>, AllocError>
    requires { length known.old.keys ≤ 2 ^ 16 }
    ensures { IfOk result (λ found. MatchOption found
        ((names : List Text) → FitIn known.old.keys names → text.now ≡ names_text names → ⊥)
        (IsPathRead known.old.keys known.new.keys text.now)) }
{
    let mut path = Path {
        len: 0,
        names: [0; 9],
    };
    let mut rest = text;
    while let Some(first) = first_name(rest) {
        if path.len == MOST_PARTS {
            return Ok(None);
        }
        let place = place_in(known, first.name)?;
        if known.len() > MOST_NAMES {
            return Ok(None);
        }
        push(&mut path, place as u16);
        rest = first.rest;
    }
    if rest.is_empty() && path.len > 0 {
        Ok(Some(path))
    } else {
        Ok(None)
    }
}
