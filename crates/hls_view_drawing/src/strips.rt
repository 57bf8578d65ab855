// What ran in the ticks shown.
ghost use Rattle.std.specs.Prelude.{◌≡◌, ◌+◌, ◌-◌, ◌∷◌, ◌++◌, [], ◌<◌, ◌≤◌, OnOk, IfOk, Some};
ghost use Rattle.std.specs.Prelude.{◌&&◌, nat_le, codes, decimal, flat_map, get_or, length, map, option_map};
ghost use Rattle.std.specs.List.{AllByRecursion, range_with_len};
ghost use Rattle.hls_report_text.specs.declared.report.Run as told;
ghost use Rattle.hls_report_text.specs.Content.{content_of, path_names, stretch_of};
ghost use Rattle.hls_report_text.specs.ReportText.{path_text};
ghost use Rattle.hls_report_text.specs.WellFormed.{HasShort, IsWellFormed};
ghost use Rattle.hls_view_scale.specs.Columns.{column_from, ticks_in};
ghost use Rattle.hls_view_drawing.specs.Rows.{no_counts};
ghost use Rattle.hls_view_drawing.specs.Strips as strips;

use crate::rows::is_leaf;
use hls_chron::{List, Name};
use hls_report_text::{Path, Report, Run};
use hls_text::{put, put_number};
use hls_view_lanes::Counts;
use hls_view_picture_rows::{Stretch, Strip};
use hls_view_scale::Scale;
use hls_view_tale::Label;
use std::alloc::{AllocError, Global};

// ---- runs

fn is_run_shown(scale: &Scale, run: &Run) -> bool
    ensures { result ≡ (nat_le scale.now.from run.now.to && nat_le run.now.from scale.now.to) }
{
    scale.from <= run.to && run.from <= scale.to
}

/// The name at a place, where there is one.
fn put_name(text: &mut Vec<u8>, names: &[Name], place: u16) -> Result<(), AllocError>
    ensures { OnOk result (text.new.items ≡ text.old.items ++ get_or names.now place []) }
{
    match names.get(usize::from(place)) {
        Some(name) => put(text, name.bytes()),
        None => Ok(()),
    }
}

fn put_places(text: &mut Vec<u8>, names: &[Name], places: &[u16]) -> Result<(), AllocError>
    ensures { OnOk result (text.new.items ≡ text.old.items
        ++ flat_map (λ place. codes "/" ++ get_or names.now place []) places.now) }
{
    for place in places {
        put(text, b"/")?;
        put_name(text, names, *place)?;
    }
    Ok(())
}

fn put_path(text: &mut Vec<u8>, names: &[Name], path: &Path) -> Result<(), AllocError>
    requires { path.now.len ≤ 9 }
    ensures { OnOk result (text.new.items ≡ text.old.items
        ++ flat_map (λ name. codes "/" ++ name) (path_names names.now path.now)) }
{
    put_places(text, names, &path.names[..usize::from(path.len)])
}

fn run_text(alloc: Global, names: &[Name], path: &Option<Path>) -> Result<Vec<u8>, AllocError>
    requires { HasShort path.now }
    ensures { IfOk result (λ text. text.items ≡ 32 ∷ path_text (option_map (path_names names.now) path.now)) }
{
    let mut text = Vec::new(alloc);
    match path {
        Some(path) => {
            put(&mut text, b" cpu")?;
            put_path(&mut text, names, path)?;
        }
        None => put(&mut text, b" idle")?,
    }
    Ok(text)
}

fn strip_of(alloc: Global, names: &[Name], run: &Run) -> Result<Strip, AllocError>
    requires { HasShort run.now.path }
    ensures { IfOk result (λ strip. strips.data_of strip ≡ strips.strip_of (stretch_of names.now run.now)) }
{
    Ok(Strip {
        ticks: Stretch {
            first: run.from,
            last: run.to,
        },
        text: run_text(alloc, names, &run.path)?,
    })
}

fn put_strip(
    alloc: Global,
    all: &mut Vec<Strip>,
    scale: &Scale,
    names: &[Name],
    run: &Run,
) -> Result<(), AllocError>
    requires { HasShort run.now.path }
    ensures { OnOk result (map strips.data_of all.new.items
        ≡ map strips.data_of all.old.items ++ strips.strip_if scale.now (stretch_of names.now run.now)) }
{
    if is_run_shown(scale, run) {
        all.push(strip_of(alloc, names, run)?)?;
    }
    Ok(())
}

fn strips_of(
    alloc: Global,
    scale: &Scale,
    names: &[Name],
    runs: &[Run],
) -> Result<Vec<Strip>, AllocError>
    requires { AllByRecursion (λ (run : told.Run). HasShort run.path) runs.now }
    ensures { IfOk result (λ all. map strips.data_of all.items
        ≡ flat_map (λ (run : told.Run). strips.strip_if scale.now (stretch_of names.now run)) runs.now) }
{
    let mut all = Vec::new(alloc);
    for run in runs {
        put_strip(alloc, &mut all, scale, names, run)?;
    }
    Ok(all)
}

/// The runs that have a tick shown.
#[tactic(auto, using(crate::proofs::Steps::runs_shown))]
fn run_strips(alloc: Global, report: &Report, scale: &Scale) -> Result<Vec<Strip>, AllocError>
    requires { IsWellFormed report.now }
    ensures { IfOk result (λ all. map strips.data_of all.items ≡ strips.run_strips (content_of report.now) scale.now) }
{
    let all = strips_of(alloc, scale, report.names.items(), report.runs.items())?;
    Ok(all)
}

// ---- columns

fn put_steps(text: &mut Vec<u8>, way: &[Label]) -> Result<(), AllocError>
    ensures { OnOk result (text.new.items ≡ text.old.items
        ++ flat_map strips.step_text way.now) }
{
    for label in way {
        put(text, b"/")?;
        put(text, label.name.bytes())?;
    }
    Ok(())
}

fn put_way(text: &mut Vec<u8>, way: &[Label]) -> Result<(), AllocError>
    ensures { OnOk result (text.new.items ≡ text.old.items
        ++ strips.way_text way.now) }
{
    put(text, b"cpu")?;
    put_steps(text, way)
}

fn count_at(counts: &List<u32>, column: usize) -> u32
    ensures { result ≡ get_or counts.now column 0 }
{
    match counts.items().get(column) {
        Some(count) => *count,
        None => 0,
    }
}

fn put_leaf(
    text: &mut Vec<u8>,
    column: usize,
    way: &[Label],
    counts: &Counts,
) -> Result<(), AllocError>
    ensures { OnOk result (text.new.items ≡ text.old.items ++ strips.leaf_if column way.now counts.now) }
{
    let served = count_at(&counts.served, column);
    if served == 0 || !is_leaf(way) {
        return Ok(());
    }
    put(text, b"\n")?;
    put_way(text, way)?;
    put(text, b" ")?;
    put_number(text, u128::from(served))
}

fn put_idle(text: &mut Vec<u8>, column: usize, counts: &Counts) -> Result<(), AllocError>
    ensures { OnOk result (text.new.items ≡ text.old.items ++ strips.idle_text column counts.now) }
{
    let served = count_at(&counts.served, column);
    if served == 0 {
        return Ok(());
    }
    put(text, b"\nidle ")?;
    put_number(text, u128::from(served))
}

fn leaves_text(
    alloc: Global,
    column: usize,
    ways: &[List<Label>],
    counts: &[Counts],
) -> Result<Vec<u8>, AllocError>
    requires { length counts.now ≡ length ways.now + 1 }
    ensures { IfOk result (λ text. text.items ≡ strips.leaves_text column ways.now counts.now) }
{
    let mut text = Vec::new(alloc);
    for number in 0..ways.len() {
        put_leaf(&mut text, column, ways[number].items(), &counts[number])?;
    }
    put_idle(&mut text, column, &counts[ways.len()])?;
    Ok(text)
}

/// The last tick of a column.
fn last_of(scale: &Scale, column: u64) -> u32
    requires there { column < scale.now.columns }
    ensures { result ≡ column_from scale.now column + ticks_in scale.now column - 1 }
{
    let end = u64::from(scale.column_from(column)) + scale.ticks_in(column);
    let last = end.saturating_sub(1);
    if last > u64::from(scale.to) {
        unreachable!()
    }
    last as u32
}

fn column_strip(
    alloc: Global,
    scale: &Scale,
    ways: &[List<Label>],
    counts: &[Counts],
    column: u64,
) -> Result<Strip, AllocError>
    requires counts { length counts.now ≡ length ways.now + 1 }
    requires there { column < scale.now.columns }
    ensures { IfOk result (λ strip. strips.data_of strip ≡ strips.column_strip scale.now ways.now counts.now column) }
{
    Ok(Strip {
        ticks: Stretch {
            first: scale.column_from(column),
            last: last_of(scale, column),
        },
        text: leaves_text(alloc, column as usize, ways, counts)?,
    })
}

/// A strip for each column.
fn column_strips(
    alloc: Global,
    scale: &Scale,
    ways: &[List<Label>],
    counts: &[Counts],
) -> Result<Vec<Strip>, AllocError>
    requires { length counts.now ≡ length ways.now + 1 }
    ensures { IfOk result (λ all. map strips.data_of all.items ≡ strips.column_strips scale.now ways.now counts.now) }
{
    let mut all = Vec::new(alloc);
    for column in 0..scale.columns {
        all.push(column_strip(alloc, scale, ways, counts, column)?)?;
    }
    Ok(all)
}

/// What ran: the runs where a column has one tick, and else, column by column, in how many ticks each thread was served
/// at each place.
///
/// # Errors
/// Returns `AllocError` for want of memory.
pub fn what_ran(
    alloc: Global,
    report: &Report,
    scale: &Scale,
    ways: &[List<Label>],
    counts: &[Counts],
) -> Result<Vec<Strip>, AllocError>
    requires formed { IsWellFormed report.now }
    requires counts { length counts.now ≡ length ways.now + 1 }
    ensures { IfOk result (λ all. map strips.data_of all.items
        ≡ strips.what_ran (content_of report.now) scale.now ways.now counts.now) }
{
    if scale.ticks == 1 {
        run_strips(alloc, report, scale)
    } else {
        column_strips(alloc, scale, ways, counts)
    }
}
