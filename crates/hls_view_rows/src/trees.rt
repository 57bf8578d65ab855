// The places of a hierarchy as the rows of a table.
ghost use Rattle.std.specs.Prelude.{◌≡◌, ◌<◌, ◌∷◌, ◌++◌, [], ℕ, OnOk, IfOk, IfSome, codes, decimal, flat_map, map};
ghost use Rattle.std.specs.Prelude.{option_map, option_copied};
ghost use Rattle.std.specs.List.{AllByRecursion};
ghost use Rattle.hls_guarantee.specs.Limits.{IsValid};
ghost use Rattle.hls_derive.specs.Derivation.{IsWithinGrammar};
ghost use Rattle.hls_report_text.specs.declared.report.Seated as told;
ghost use Rattle.hls_report_text.specs.Content.{Content, content_of};
ghost use Rattle.hls_report_text.specs.WellFormed.{IsWellFormed};
ghost use Rattle.hls_view_tale.specs.declared.label.Label as label;
ghost use Rattle.hls_view_tale.specs.declared.place.Place as placed;
ghost use Rattle.hls_view_tale.specs.Places.{labels_of};
ghost use Rattle.hls_view_tale.specs.Hierarchies.{IsHierarchy};
ghost use Rattle.hls_view_tree.specs.Scenes.{IsScene};
ghost use Rattle.hls_view_table.specs.Tables.{cells_of};
ghost use Rattle.hls_view_rows.specs.Trees as trees;

use crate::cells::{number_cell, word_cell};
use hls_audit_clauses::Sort;
use hls_derive::write_derivation;
use hls_report_text::{Report, Seated};
use hls_text::put;
use hls_view_table::{Column, Row, Side, Table, write_table};
use hls_view_tale::{Hierarchy, Place, hierarchy_at};
use hls_view_texts::{guarantee_text, sort_text, terms_text};
use hls_view_tree::{Activity, Scene, derivation_of, since_of};
use std::alloc::{AllocError, Global};

/// The columns of the table of places.
const COLUMNS: [Column; 6] = [
    Column {
        head: "hierarchy",
        side: Side::Left,
    },
    Column {
        head: "seat",
        side: Side::Left,
    },
    Column {
        head: "guarantee",
        side: Side::Left,
    },
    Column {
        head: "since",
        side: Side::Right,
    },
    Column {
        head: "now",
        side: Side::Left,
    },
    Column {
        head: "by",
        side: Side::Left,
    },
];

/// The configuration of a scheduler, behind a blank.
fn put_sort(alloc: Global, cell: &mut Vec<u8>, sort: &Sort) -> Result<(), AllocError>
    ensures { OnOk result (cell.new.items ≡ cell.old.items ++ trees.configured sort.now) }
{
    match sort {
        Sort::Scheduler { .. } => {
            put(cell, b" ")?;
            put(cell, &sort_text(alloc, sort)?)
        }
        Sort::Thread => Ok(()),
    }
}

/// Two blanks for each label above a place, and for its own.
fn put_levels(cell: &mut Vec<u8>, place: &Place) -> Result<(), AllocError>
    ensures { OnOk result (cell.new.items
        ≡ cell.old.items ++ flat_map (λ (l : label.Label). codes "  ") (labels_of place.now)) }
{
    for _label in place.above.items() {
        put(cell, b"  ")?;
    }
    put(cell, b"  ")
}

fn place_cell(alloc: Global, place: &Place) -> Result<Vec<u8>, AllocError>
    ensures { IfOk result (λ cell. cell.items ≡ trees.place_text place.now) }
{
    let mut cell = Vec::new(alloc);
    put_levels(&mut cell, place)?;
    put(&mut cell, place.label.name.bytes())?;
    put_sort(alloc, &mut cell, &place.label.sort)?;
    Ok(cell)
}

fn activity_cell(alloc: Global, activity: Activity) -> Result<Vec<u8>, AllocError>
    ensures { IfOk result (λ cell. cell.items ≡ trees.activity_text activity) }
{
    match activity {
        Activity::Served => word_cell(alloc, b"served"),
        Activity::Ready => word_cell(alloc, b"ready"),
        Activity::Quiet => word_cell(alloc, b"-"),
    }
}

fn derived_cell(alloc: Global, seated: Option<&Seated>) -> Result<Vec<u8>, AllocError>
    requires { IfSome (option_copied seated) (λ s. IsWithinGrammar s.derivation) }
    ensures { IfOk result (λ cell. cell.items
        ≡ trees.derived_text (option_map (λ (s : told.Seated). s.derivation) (option_copied seated.entry))) }
{
    let mut cell = Vec::new(alloc);
    if let Some(seated) = seated {
        write_derivation(&seated.derivation, &mut cell)?;
    }
    Ok(cell)
}

fn place_row(
    alloc: Global,
    report: &Report,
    hierarchy: &Hierarchy,
    scene: &Scene,
    place: &Place,
) -> Result<Row, AllocError>
    requires formed { IsWellFormed report.now }
    requires kept { IsValid place.now.label.kept }
    ensures { IfOk result (λ row. (t : ℕ) → IsHierarchy (content_of report.now) t hierarchy.now →
        IsScene (content_of report.now) t scene.now →
        cells_of row ≡ trees.place_cells (content_of report.now) t place.now) }
{
    let label = &place.label;
    let derived = derivation_of(report, hierarchy, &label.name, label.port);
    let mut row = Row::new(alloc);
    row.push(place_cell(alloc, place)?)?;
    row.push(terms_text(alloc, &label.terms)?)?;
    row.push(guarantee_text(alloc, &label.kept)?)?;
    row.push(number_cell(alloc, since_of(report, hierarchy, &label.name))?)?;
    row.push(activity_cell(alloc, scene.activity_of(alloc, place)?)?)?;
    row.push(derived_cell(alloc, derived)?)?;
    Ok(row)
}

fn processor_row(alloc: Global, scene: &Scene) -> Result<Row, AllocError>
    ensures { IfOk result (λ row. (c : Content) (t : ℕ) → IsScene c t scene.now →
        cells_of row ≡ trees.processor_cells c t) }
{
    let mut row = Row::new(alloc);
    row.push(word_cell(alloc, b"cpu")?)?;
    row.push(Vec::new(alloc))?;
    row.push(Vec::new(alloc))?;
    row.push(Vec::new(alloc))?;
    row.push(activity_cell(alloc, scene.activity(&[]))?)?;
    row.push(Vec::new(alloc))?;
    Ok(row)
}

fn tree_rows(
    alloc: Global,
    report: &Report,
    hierarchy: &Hierarchy,
    scene: &Scene,
) -> Result<Vec<Row>, AllocError>
    requires formed { IsWellFormed report.now }
    requires valid { AllByRecursion (λ (p : placed.Place). IsValid p.label.kept) hierarchy.now.places.items }
    ensures { IfOk result (λ rows. (t : ℕ) → IsHierarchy (content_of report.now) t hierarchy.now →
        IsScene (content_of report.now) t scene.now →
        map cells_of rows.items ≡ trees.processor_cells (content_of report.now) t
        ∷ map (trees.place_cells (content_of report.now) t) hierarchy.now.places.items) }
{
    let mut rows = Vec::new(alloc);
    rows.push(processor_row(alloc, scene)?)?;
    for place in &hierarchy.places {
        rows.push(place_row(alloc, report, hierarchy, scene, place)?)?;
    }
    Ok(rows)
}

/// Appends the table of the hierarchy at a tick of a report: the processor, and below it each place, with what is told
/// of it.
///
/// # Errors
/// Returns `AllocError` for want of memory.
pub fn write_tree(
    alloc: Global,
    out: &mut Vec<u8>,
    report: &Report,
    tick: u32,
) -> Result<(), AllocError>
    requires formed { IsWellFormed report.now }
    requires early { tick < report.now.horizon }
    ensures { OnOk result (out.new.items ≡ out.old.items ++ trees.tree_text (content_of report.now) tick) }
{
    let hierarchy = hierarchy_at(alloc, report, tick)?;
    let scene = Scene::of(alloc, report, &hierarchy, tick)?;
    let rows = tree_rows(alloc, report, &hierarchy, &scene)?;
    let table = Table {
        columns: &COLUMNS,
        rows,
    };
    write_table(alloc, out, &table)
}
