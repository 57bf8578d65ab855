// What the lines of runs end with, once for each path.
ghost use Rattle.std.specs.Prelude.{◌≡◌, ◌<◌, ◌++◌, [], IfOk, OnOk, codes, flat_map, get_or, length, map};
ghost use Rattle.hls_core_journal.specs.Schedule.{tail_text};

use crate::ways::name_at;
use hls_chron::Name;
use hls_report_text::Path;
use hls_text::put;
use indexmap::IndexSet;
use std::alloc::{AllocError, Global};
use std::marker::Model;

/// Where a text lies among the bytes of all.
#[derive(Clone, Copy, Debug)]
struct Part {
    from: usize,
    to: usize,
}

/// Texts that lie one behind the other. Contracts see a list of them.
#[derive(Debug, Drop)]
pub(crate) struct Tails {
    bytes: Vec<u8>,
    parts: Vec<Part>,
}

impl Model for Tails {
    ghost use Rattle.std.specs.Prelude.{List};
    ghost use Rattle.hls_text.specs.Lines.{Text};
    ghost use Rattle.hls_core_journal.specs.Inside.Tails.{AreParts, texts_by};

    ghost Value = { List Text };

    ghost view = { λ t. texts_by t.bytes.items t.parts.items };

    ghost invariant = { λ t. AreParts t.bytes.items t.parts.items };
}

impl Tails {
    /// The text at a place.
    pub(crate) fn at(&self, place: usize) -> &[u8]
        requires { place < length self.now }
        ensures { result.now ≡ get_or self.now place [] }
    {
        let part = self.parts[place];
        &self.bytes[part.from..part.to]
    }
}

/// Appends the names of places, each behind a slash.
fn put_places(out: &mut Vec<u8>, names: &IndexSet<Name>, places: &[u16]) -> Result<(), AllocError>
    ensures { OnOk result (out.new.items ≡ out.old.items
        ++ flat_map (λ place. codes "/" ++ get_or names.now.keys place []) places.now) }
{
    for place in places {
        put(out, b"/")?;
        put(out, name_at(names, usize::from(*place)))?;
    }
    Ok(())
}

/// Appends what the line of a run with this path ends with.
fn put_tail(
    out: &mut Vec<u8>,
    names: &IndexSet<Name>,
    path: &Option<Path>,
) -> Result<(), AllocError>
    ensures { OnOk result (out.new.items ≡ out.old.items ++ tail_text names.now.keys path.now) }
{
    match path {
        Some(path) => {
            let places: &[u16] = &path.names;
            let count = usize::from(path.len).min(places.len());
            put(out, b" cpu")?;
            put_places(out, names, &places[..count])?;
            put(out, b"\n")
        }
        None => put(out, b" idle\n"),
    }
}

/// What the lines of runs with these paths end with.
pub(crate) fn tails_of(
    alloc: Global,
    names: &IndexSet<Name>,
    ways: &[Option<Path>],
) -> Result<Tails, AllocError>
    ensures { IfOk result (λ tails. tails ≡ map (tail_text names.now.keys) ways.now) }
{
    let mut bytes = Vec::new(alloc);
    let mut parts = Vec::with_capacity(alloc, ways.len())?;
    for way in ways {
        let from = bytes.len();
        put_tail(&mut bytes, names, way)?;
        let to = bytes.len();
        parts.push(Part { from, to })?;
    }
    Ok(Tails { bytes, parts })
}
