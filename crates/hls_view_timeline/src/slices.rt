// Longest rows of ticks as slices.
ghost use Rattle.hls_chron.specs.Ranges.{longest_horizon};
ghost use Rattle.std.specs.Prelude.{◌≡◌, ◌+◌, ◌++◌, ◌<◌, ◌≤◌, [], IfOk, OnOk, length};
ghost use Rattle.hls_view_trace.specs.Events.{category_text};
ghost use Rattle.hls_view_trace.specs.declared.event.Event.TheVariants as variants;
ghost use Rattle.hls_view_timeline.specs.Slices as told;

use hls_chron::List;
use hls_view_trace::{Category, Event, Place, Slice};
use std::alloc::{AllocError, Global};

/// Ticks in a row from one on, whether each of them is on, and as what they are shown on which track: a category, and
/// the word for it.
#[derive(Clone, Copy)]
struct Strip<'a> {
    category: Category,
    word: &'a [u8],
    place: Place,
    from: u32,
    on: &'a [bool],
}

/// Whether a longest row begins so many ticks behind the first.
fn begins(on: &[bool], at: usize) -> bool
    requires { at < length on.now }
    ensures { result ≡ told.begins on.now at }
{
    on[at] && (at == 0 || !on[at - 1])
}

/// How many are on in a row from the first.
fn run_length(on: &[bool]) -> usize
    ensures within { result ≤ length on.now }
    ensures length { result ≡ told.run_length on.now }
{
    for at in 0..on.len() {
        if !on[at] {
            return at;
        }
    }
    on.len()
}

fn row_slice(alloc: Global, strip: &Strip, from: u32, ticks: u32) -> Result<Slice, AllocError>
    requires named { strip.now.word.now ≡ category_text strip.now.category }
    requires few { from + ticks ≤ longest_horizon }
    ensures { IfOk result (λ slice. variants.Slice slice
        ≡ told.row_slice strip.now.category strip.now.place from ticks) }
{
    Ok(Slice {
        category: strip.category,
        name: List::of(strip.word.to_vec(alloc)?),
        place: strip.place,
        from,
        to: (from + ticks).saturating_sub(1),
        counts: None,
    })
}

/// Adds the slice of the longest row that begins so many ticks behind the first, if one does.
fn put_slice(
    alloc: Global,
    events: &mut Vec<Event>,
    strip: &Strip,
    at: usize,
) -> Result<(), AllocError>
    requires named { strip.now.word.now ≡ category_text strip.now.category }
    requires there { at < length strip.now.on.now }
    requires few { strip.now.from + length strip.now.on.now ≤ longest_horizon }
    ensures { OnOk result (events.new.items ≡ events.old.items
        ++ told.slice_at strip.now.category strip.now.place strip.now.from strip.now.on.now at) }
{
    if !begins(strip.on, at) {
        return Ok(());
    }
    let ticks = run_length(&strip.on[at..]) as u32;
    let slice = row_slice(alloc, strip, strip.from + at as u32, ticks)?;
    events.push(Event::Slice(slice))?;
    Ok(())
}

/// The ticks of a stay from one on: in which its thread is ready, and which take one of its ways.
#[derive(Clone, Copy)]
pub(crate) struct Ticks<'a> {
    pub(crate) from: u32,
    pub(crate) ready: &'a [bool],
    pub(crate) taken: &'a [bool],
}

/// Adds the windows of a stay on one of its tracks, and the rows of ticks that are served there.
///
/// # Errors
/// Returns `AllocError` for want of memory.
pub(crate) fn put_inner(
    alloc: Global,
    events: &mut Vec<Event>,
    place: Place,
    ticks: &Ticks,
) -> Result<(), AllocError>
    requires alike { length ticks.now.taken.now ≡ length ticks.now.ready.now }
    requires few { ticks.now.from + length ticks.now.ready.now ≤ longest_horizon }
    ensures { OnOk result (events.new.items ≡ events.old.items
        ++ told.inner_slices place ticks.now.from ticks.now.ready.now ticks.now.taken.now) }
{
    let ready = Strip {
        category: Category::Ready,
        word: b"ready",
        place,
        from: ticks.from,
        on: ticks.ready,
    };
    let taken = Strip {
        category: Category::Run,
        word: b"run",
        place,
        from: ticks.from,
        on: ticks.taken,
    };
    for at in 0..ticks.ready.len() {
        put_slice(alloc, events, &ready, at)?;
        put_slice(alloc, events, &taken, at)?;
    }
    Ok(())
}
