// What is printed at a row, and what is drawn in it.
ghost use Rattle.std.specs.Prelude.{◌≡◌, ◌+◌, ◌++◌, ◌∷◌, [], ◌<◌, ◌≤◌, IfOk, length, map, get_or, None, Some};
ghost use Rattle.std.specs.Prelude.{option_copied, option_map, position};
ghost use Rattle.std.specs.List.{AllByRecursion, range_with_len};
ghost use Rattle.hls_guarantee.specs.Limits.{IsValid};
ghost use Rattle.hls_view_lanes.specs.Leaves as leaves;
ghost use Rattle.hls_view_drawing.specs.Rows as told;
ghost use Rattle.hls_view_drawing.specs.Inside.Printed.{IsPrinted};
ghost use Rattle.hls_view_drawing.specs.Inside.Valid.{IsValidAt, AreValid};

use hls_audit_clauses::Sort;
use hls_chron::List;
use hls_guarantee::Guarantee;
use hls_view_lanes::{Counts, is_same};
use hls_view_margins::Part;
use hls_view_picture_rows::{Class, PictureRow, Stretch};
use hls_view_scale::Scale;
use hls_view_signs::Signs;
use hls_view_tale::Label;
use hls_view_texts::{distance_text, guarantee_text, sort_text, terms_text};
use hls_view_tights::Tight;
use std::alloc::{AllocError, Global};

/// The greatest depth that is told.
const MOST_DEPTH: usize = 4_294_967_295;

/// The last label of a way; the processor has none.
pub fn last_label(way: &[Label]) -> Option<&Label>
    ensures { option_copied result ≡ told.last_label way.now }
{
    way.get(way.len().saturating_sub(1))
}

/// Whether a way ends in a thread.
#[tactic(auto, using(crate::proofs::Ends::leaf_by_end))]
pub fn is_leaf(way: &[Label]) -> bool
    ensures { result ≡ leaves.is_leaf way.now }
{
    match last_label(way) {
        Some(label) => matches!(label.sort, Sort::Thread),
        None => false,
    }
}

fn class_of(kept: &Guarantee) -> Class
    ensures { result ≡ told.class_of kept.now }
{
    match kept {
        Guarantee::All => Class::All,
        Guarantee::Null => Class::Null,
        Guarantee::Resb { hard, .. } | Guarantee::Resc { hard, .. } => {
            if *hard { Class::Hard } else { Class::Soft }
        }
        Guarantee::Psbe { .. } => Class::Share,
    }
}

/// What is printed at a row.
#[derive(Drop)]
struct Printed {
    class: Class,
    name: Vec<u8>,
    config: Vec<u8>,
    terms: Vec<u8>,
    guarantee: Vec<u8>,
}

fn processor_printed(alloc: Global) -> Result<Printed, AllocError>
    ensures { IfOk result (IsPrinted None) }
{
    Ok(Printed {
        class: Class::All,
        name: b"cpu".to_vec(alloc)?,
        config: Vec::new(alloc),
        terms: Vec::new(alloc),
        guarantee: b"ALL".to_vec(alloc)?,
    })
}

fn label_printed(alloc: Global, label: &Label) -> Result<Printed, AllocError>
    requires { IsValid label.now.kept }
    ensures { IfOk result (IsPrinted (Some label.now)) }
{
    Ok(Printed {
        class: class_of(&label.kept),
        name: label.name.bytes().to_vec(alloc)?,
        config: sort_text(alloc, &label.sort)?,
        terms: terms_text(alloc, &label.terms)?,
        guarantee: guarantee_text(alloc, &label.kept)?,
    })
}

fn printed_at(alloc: Global, way: &[Label]) -> Result<Printed, AllocError>
    requires { IsValidAt (told.last_label way.now) }
    ensures { IfOk result (IsPrinted (told.last_label way.now)) }
{
    match last_label(way) {
        Some(label) => label_printed(alloc, label),
        None => processor_printed(alloc),
    }
}

/// The number of the first row that reads as a way.
fn row_like(rows: &[List<Label>], way: &[Label]) -> Option<usize>
    ensures { result ≡ told.row_like rows.now way.now }
{
    rows.iter().position(|row| is_same(row.items(), way))
}

/// The number of the row above one.
fn row_above(rows: &[List<Label>], way: &[Label]) -> Option<u32>
    requires few { length rows.now < 100000 }
    ensures { result ≡ told.row_above rows.now way.now }
{
    if way.len() == 0 {
        return None;
    }
    match row_like(rows, &way[..way.len() - 1]) {
        Some(number) => Some(number as u32),
        None => None,
    }
}

fn spare_text(alloc: Global, tight: &Option<Tight>) -> Result<Vec<u8>, AllocError>
    ensures { IfOk result (λ text. text.items ≡ told.spare_text tight.now) }
{
    match tight {
        Some(tight) => distance_text(alloc, &tight.surplus),
        None => Ok(Vec::new(alloc)),
    }
}

/// The ticks of a part, where all of it is shown.
fn bracket_of(scale: &Scale, part: &Part) -> Option<Stretch>
    ensures { result ≡ told.bracket_of scale.now part.now }
{
    let last = (u64::from(part.from) + u64::from(part.ticks)).saturating_sub(1);
    if scale.from <= part.from && last <= u64::from(scale.to) {
        Some(Stretch {
            first: part.from,
            last: last as u32,
        })
    } else {
        None
    }
}

/// The ticks of the part that has the least to spare, where all of it is shown.
fn bracket(scale: &Scale, tight: &Option<Tight>) -> Option<Stretch>
    ensures { result ≡ told.bracket scale.now tight.now }
{
    match tight {
        Some(tight) => bracket_of(scale, &tight.part),
        None => None,
    }
}

/// A row: its way, in how many ticks of each column which facts hold of it, and what happens in it.
#[derive(Clone, Copy)]
struct Drawn<'a> {
    way: &'a [Label],
    counts: &'a Counts,
    signs: &'a Signs,
    tight: &'a Option<Tight>,
}

fn copy_of(alloc: Global, numbers: &List<u32>) -> Result<Vec<u32>, AllocError>
    ensures { IfOk result (λ copy. copy.items ≡ numbers.now) }
{
    numbers.items().to_vec(alloc)
}

fn row_of(
    alloc: Global,
    scale: &Scale,
    rows: &[List<Label>],
    drawn: &Drawn<'_>,
) -> Result<PictureRow, AllocError>
    requires few { length rows.now < 100000 }
    requires valid { IsValidAt (told.last_label drawn.now.way.now) }
    ensures { IfOk result (λ row. told.data_of row ≡ told.row_of scale.now rows.now
        drawn.now.way.now drawn.now.counts.now drawn.now.signs.now
        drawn.now.tight.now) }
{
    let Printed {
        class,
        name,
        config,
        terms,
        guarantee,
    } = printed_at(alloc, drawn.way)?;
    Ok(PictureRow {
        depth: drawn.way.len().min(MOST_DEPTH) as u32,
        is_leaf: is_leaf(drawn.way),
        class,
        name,
        config,
        terms,
        guarantee,
        spare: spare_text(alloc, drawn.tight)?,
        above: row_above(rows, drawn.way),
        here: copy_of(alloc, &drawn.counts.here)?,
        ready: copy_of(alloc, &drawn.counts.ready)?,
        served: copy_of(alloc, &drawn.counts.served)?,
        begins: copy_of(alloc, &drawn.signs.begins)?,
        wakes: copy_of(alloc, &drawn.signs.wakes)?,
        drops: copy_of(alloc, &drawn.signs.drops)?,
        bracket: bracket(scale, drawn.tight),
    })
}

fn idle_row(alloc: Global, counts: &Counts) -> Result<PictureRow, AllocError>
    ensures { IfOk result (λ row. told.data_of row ≡ told.idle_row counts.now) }
{
    Ok(PictureRow {
        depth: 0,
        is_leaf: true,
        class: Class::Idle,
        name: b"idle".to_vec(alloc)?,
        config: Vec::new(alloc),
        terms: Vec::new(alloc),
        guarantee: Vec::new(alloc),
        spare: Vec::new(alloc),
        above: None,
        here: copy_of(alloc, &counts.here)?,
        ready: copy_of(alloc, &counts.ready)?,
        served: copy_of(alloc, &counts.served)?,
        begins: Vec::new(alloc),
        wakes: Vec::new(alloc),
        drops: Vec::new(alloc),
        bracket: None,
    })
}

/// A row for each way, in their order, and one for idle ticks, whose counts stand behind all others.
///
/// # Errors
/// Returns `AllocError` for want of memory.
pub fn all_rows(
    alloc: Global,
    scale: &Scale,
    ways: &[List<Label>],
    counts: &[Counts],
    signs: &[Signs],
    tights: &[Option<Tight>],
) -> Result<Vec<PictureRow>, AllocError>
    requires few { length ways.now < 100000 }
    requires valid { AreValid ways.now }
    requires counts { length counts.now ≡ length ways.now + 1 }
    requires signs { length signs.now ≡ length ways.now }
    requires tights { length tights.now ≡ length ways.now }
    ensures { IfOk result (λ all. map told.data_of all.items
        ≡ told.all_rows scale.now ways.now counts.now signs.now tights.now) }
{
    let mut all = Vec::new(alloc);
    for number in 0..ways.len() {
        let drawn = Drawn {
            way: ways[number].items(),
            counts: &counts[number],
            signs: &signs[number],
            tight: &tights[number],
        };
        all.push(row_of(alloc, scale, ways, &drawn)?)?;
    }
    all.push(idle_row(alloc, &counts[ways.len()])?)?;
    Ok(all)
}
