// Jobs as the rows of tables: a line for each thread, or for each job.
ghost use Rattle.std.specs.Prelude.{◌≡◌, ◌∷◌, ◌++◌, [], OnOk, IfOk, codes, map};
ghost use Rattle.hls_view_table.specs.Tables.{cells_of};
ghost use Rattle.hls_view_rows.specs.Jobs.{count_cells, size_cells, response_cells, line_cells, lines_text};
ghost use Rattle.hls_view_rows.specs.Jobs.{sort_text, dropped_cells, fate_cells, job_cells, jobs_text};

use crate::cells::{
    amount_cell, amount_or_dash, number_cell, number_or_dash, span_cell, ticks_cell, word_cell,
};
use hls_text::put;
use hls_view_jobs::{Fate, Job, Responses, Sort, Summary, ThreadJobs, Word};
use hls_view_table::{Column, Row, Side, Table, write_table};
use hls_view_texts::fraction_text;
use std::alloc::{AllocError, Global};

/// The columns of the table of threads.
const LINE_COLUMNS: [Column; 17] = [
    Column {
        head: "thread",
        side: Side::Left,
    },
    Column {
        head: "ticks",
        side: Side::Left,
    },
    Column {
        head: "wakes",
        side: Side::Right,
    },
    Column {
        head: "jobs",
        side: Side::Right,
    },
    Column {
        head: "done",
        side: Side::Right,
    },
    Column {
        head: "dropped",
        side: Side::Right,
    },
    Column {
        head: "by wake",
        side: Side::Right,
    },
    Column {
        head: "open",
        side: Side::Right,
    },
    Column {
        head: "asked",
        side: Side::Right,
    },
    Column {
        head: "lost",
        side: Side::Right,
    },
    Column {
        head: "apart",
        side: Side::Right,
    },
    Column {
        head: "most",
        side: Side::Right,
    },
    Column {
        head: "best",
        side: Side::Right,
    },
    Column {
        head: "mean",
        side: Side::Right,
    },
    Column {
        head: "worst",
        side: Side::Right,
    },
    Column {
        head: "where",
        side: Side::Left,
    },
    Column {
        head: "bound",
        side: Side::Right,
    },
];

/// The columns of the table of jobs.
const JOB_COLUMNS: [Column; 8] = [
    Column {
        head: "release",
        side: Side::Right,
    },
    Column {
        head: "asked",
        side: Side::Right,
    },
    Column {
        head: "got",
        side: Side::Right,
    },
    Column {
        head: "fate",
        side: Side::Left,
    },
    Column {
        head: "at",
        side: Side::Right,
    },
    Column {
        head: "response",
        side: Side::Right,
    },
    Column {
        head: "waited",
        side: Side::Right,
    },
    Column {
        head: "bound",
        side: Side::Right,
    },
];

fn push_counts(alloc: Global, row: &mut Row, s: &Summary) -> Result<(), AllocError>
    ensures { OnOk result (cells_of row.new ≡ cells_of row.old ++ count_cells s.now) }
{
    row.push(amount_cell(alloc, s.jobs as u128)?)?;
    row.push(amount_cell(alloc, s.done as u128)?)?;
    row.push(amount_cell(alloc, s.dropped as u128)?)?;
    row.push(amount_cell(alloc, s.by_wake as u128)?)?;
    row.push(amount_cell(alloc, s.unfinished as u128)?)?;
    Ok(())
}

fn push_sizes(alloc: Global, row: &mut Row, s: &Summary) -> Result<(), AllocError>
    ensures { OnOk result (cells_of row.new ≡ cells_of row.old ++ size_cells s.now) }
{
    row.push(amount_cell(alloc, s.asked)?)?;
    row.push(amount_cell(alloc, s.lost)?)?;
    row.push(number_or_dash(alloc, s.apart)?)?;
    row.push(number_or_dash(alloc, s.most)?)?;
    Ok(())
}

fn push_responses(
    alloc: Global,
    row: &mut Row,
    responses: &Option<Responses>,
) -> Result<(), AllocError>
    ensures { OnOk result (cells_of row.new ≡ cells_of row.old ++ response_cells responses.now) }
{
    match responses {
        None => {
            row.push(word_cell(alloc, b"-")?)?;
            row.push(word_cell(alloc, b"-")?)?;
            row.push(word_cell(alloc, b"-")?)?;
            row.push(word_cell(alloc, b"-")?)?;
        }
        Some(r) => {
            row.push(number_cell(alloc, r.best)?)?;
            row.push(fraction_text(alloc, &r.mean)?)?;
            row.push(number_cell(alloc, r.longest.ticks)?)?;
            row.push(ticks_cell(alloc, r.longest.release, r.longest.ticks)?)?;
        }
    }
    Ok(())
}

fn line_row(alloc: Global, line: &ThreadJobs) -> Result<Row, AllocError>
    ensures { IfOk result (λ row. cells_of row ≡ line_cells line.now) }
{
    let mut row = Row::new(alloc);
    row.push(word_cell(alloc, line.name.bytes())?)?;
    row.push(span_cell(alloc, line.from, u64::from(line.to))?)?;
    row.push(amount_cell(alloc, line.wakes as u128)?)?;
    push_counts(alloc, &mut row, &line.summary)?;
    push_sizes(alloc, &mut row, &line.summary)?;
    push_responses(alloc, &mut row, &line.summary.responses)?;
    row.push(amount_or_dash(alloc, line.summary.bound)?)?;
    Ok(row)
}

fn line_rows(alloc: Global, lines: &[ThreadJobs]) -> Result<Vec<Row>, AllocError>
    ensures { IfOk result (λ rows. map cells_of rows.items ≡ map line_cells lines.now) }
{
    let mut rows = Vec::new(alloc);
    for line in lines {
        rows.push(line_row(alloc, line)?)?;
    }
    Ok(rows)
}

/// Appends the table of threads, a line for each below the heads.
///
/// # Errors
/// Returns `AllocError` for want of memory.
pub fn write_thread_lines(
    alloc: Global,
    out: &mut Vec<u8>,
    lines: &[ThreadJobs],
) -> Result<(), AllocError>
    ensures { OnOk result (out.new.items ≡ out.old.items ++ lines_text lines.now) }
{
    let rows = line_rows(alloc, lines)?;
    let table = Table {
        columns: &LINE_COLUMNS,
        rows,
    };
    write_table(alloc, out, &table)
}

/// Appends the word by which a job was dropped.
fn put_sort(cell: &mut Vec<u8>, sort: &Sort) -> Result<(), AllocError>
    ensures { OnOk result (cell.new.items ≡ cell.old.items ++ sort_text sort.now) }
{
    match sort {
        Sort::Wakes { .. } => put(cell, b"wake"),
        Sort::Blocks => put(cell, b"block"),
        Sort::Ends => put(cell, b"end"),
    }
}

fn dropped_cell(alloc: Global, sort: &Sort) -> Result<Vec<u8>, AllocError>
    ensures { IfOk result (λ cell. cell.items ≡ codes "dropped by " ++ sort_text sort.now) }
{
    let mut cell = Vec::new(alloc);
    put(&mut cell, b"dropped by ")?;
    put_sort(&mut cell, sort)?;
    Ok(cell)
}

fn push_dropped(alloc: Global, row: &mut Row, by: &Word) -> Result<(), AllocError>
    ensures { OnOk result (cells_of row.new ≡ cells_of row.old ++ dropped_cells by.now) }
{
    row.push(dropped_cell(alloc, &by.sort)?)?;
    row.push(number_cell(alloc, by.tick)?)?;
    row.push(word_cell(alloc, b"-")?)?;
    Ok(())
}

fn push_fate(alloc: Global, row: &mut Row, job: &Job) -> Result<(), AllocError>
    ensures { OnOk result (cells_of row.new ≡ cells_of row.old ++ fate_cells job.now job.now.fate) }
{
    match job.fate {
        Fate::Done { at } => {
            row.push(word_cell(alloc, b"done")?)?;
            row.push(number_cell(alloc, at)?)?;
            row.push(number_cell(alloc, job.ticks)?)?;
        }
        Fate::Dropped { by } => push_dropped(alloc, row, &by)?,
        Fate::Open => {
            row.push(word_cell(alloc, b"open")?)?;
            row.push(word_cell(alloc, b"-")?)?;
            row.push(word_cell(alloc, b"-")?)?;
        }
    }
    Ok(())
}

fn job_row(alloc: Global, job: &Job) -> Result<Row, AllocError>
    ensures { IfOk result (λ row. cells_of row ≡ job_cells job.now) }
{
    let mut row = Row::new(alloc);
    row.push(number_cell(alloc, job.release)?)?;
    row.push(number_cell(alloc, job.asked)?)?;
    row.push(number_cell(alloc, job.got)?)?;
    push_fate(alloc, &mut row, job)?;
    row.push(number_cell(alloc, job.ticks.saturating_sub(job.got))?)?;
    row.push(amount_or_dash(alloc, job.bound)?)?;
    Ok(row)
}

fn job_rows(alloc: Global, jobs: &[Job]) -> Result<Vec<Row>, AllocError>
    ensures { IfOk result (λ rows. map cells_of rows.items ≡ map job_cells jobs.now) }
{
    let mut rows = Vec::new(alloc);
    for job in jobs {
        rows.push(job_row(alloc, job)?)?;
    }
    Ok(rows)
}

/// Appends the table of jobs, a line for each below the heads.
///
/// # Errors
/// Returns `AllocError` for want of memory.
pub fn write_jobs(alloc: Global, out: &mut Vec<u8>, jobs: &[Job]) -> Result<(), AllocError>
    ensures { OnOk result (out.new.items ≡ out.old.items ++ jobs_text jobs.now) }
{
    let rows = job_rows(alloc, jobs)?;
    let table = Table {
        columns: &JOB_COLUMNS,
        rows,
    };
    write_table(alloc, out, &table)
}
