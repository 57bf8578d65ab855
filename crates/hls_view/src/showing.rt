// The view of the text of a report.
ghost use Rattle.std.specs.Prelude.{◌≡◌, ◌≤◌, ◌∷◌, ◌++◌, [], IfOk, MatchOption, OnOk, codes, length, ◌<◌};
ghost use Rattle.hls_report_text.specs.Content.{content_of};
ghost use Rattle.hls_report_text.specs.WellFormed.{IsReportText, IsWellFormed};
ghost use Rattle.hls_audit.specs.declared.auditing.Outcome.TheVariants.{Kept};
ghost use Rattle.hls_audit.specs.Audits.{IsAudit, IsTale};
ghost use Rattle.hls_top.specs.Exchange.{report_limit};
ghost use Rattle.hls_view.specs.Outputs.{IsSaid};
ghost use Rattle.hls_view.specs.Texts.{opening, name_line, tick_line, audit_line, opening_at};
ghost use Rattle.hls_view.specs.Texts.{first_shown, last_shown, shows_tree, tick_shown, HasManyRows, ShowsMargins};
ghost use Rattle.hls_view.specs.Texts.{tick_length};
ghost use Rattle.hls_view.specs.Texts.{ShowsThreads};
ghost use Rattle.hls_view.specs.Texts.{ShowsJobs, IsViewText};
ghost use Rattle.hls_view.specs.Inside.Shown.{Says};

use crate::outputs::Output;
use hls_audit::{Outcome, audit, audit_tale};
use hls_chron::Name;
use hls_io::Status;
use hls_report::{Report, ReportFault, read_report};
use hls_text::{put, put_number};
use hls_top::{put_verdict, refusal_line, verdict_line};
use hls_view_drawing::drawing_of;
use hls_view_jobs::{jobs_of, thread_lines};
use hls_view_lanes::{lanes_of, rows_between};
use hls_view_margins::margins;
use hls_view_picture::write_picture;
use hls_view_rows::{write_jobs, write_margins, write_thread_lines, write_tree};
use hls_view_scale::scale_of;
use hls_view_timeline::trace_of;
use hls_view_trace::write_trace;
use hls_view_words::View;
use std::alloc::{AllocError, Global};

/// With the row for idle ticks no more than 4096 are drawn.
const MOST_ROWS: usize = 4096;

/// What the audit of the first two clauses comes to, where that of all of them comes to this.
fn tale_of(alloc: Global, report: &Report, audited: Outcome) -> Result<Outcome, AllocError>
    requires formed { IsWellFormed report.now }
    requires audited { IsAudit (content_of report.now) audited }
    ensures { IfOk result (IsTale (content_of report.now)) }
{
    match audited {
        Outcome::Kept => Ok(Outcome::Kept),
        Outcome::Broken { clause, .. } if clause <= 2 => Ok(audited),
        Outcome::Broken { .. } => audit_tale(alloc, report),
    }
}

/// Appends the first lines of a view: its name, and what the audit comes to.
fn put_opening(out: &mut Vec<u8>, name: &[u8], audited: Outcome) -> Result<(), AllocError>
    ensures { OnOk result (out.new.items ≡ out.old.items ++ opening name.now audited) }
{
    put(out, b"hlsview-")?;
    put(out, name)?;
    put(out, b" 1\naudit ")?;
    put_verdict(out, audited)?;
    put(out, b"\n")
}

/// The margins of a report.
fn margins_text(alloc: Global, report: &Report, audited: Outcome) -> Result<Vec<u8>, AllocError>
    requires formed { IsWellFormed report.now }
    ensures { IfOk result (λ bytes. ShowsMargins (content_of report.now) audited bytes.items) }
{
    let mut out = Vec::new(alloc);
    put_opening(&mut out, b"margins", audited)?;
    let margins = margins(alloc, report)?;
    write_margins(alloc, &mut out, &margins)?;
    Ok(out)
}

/// The tick that is stated, or the last one where none or a later one is.
fn tick_shown(report: &Report, at: Option<u32>) -> u32
    requires { IsWellFormed report.now }
    ensures is { result ≡ tick_shown (content_of report.now) at }
    ensures within { result < report.now.horizon }
{
    let last = report.horizon - 1;
    match at {
        Some(tick) => tick.min(last),
        None => last,
    }
}

fn put_name_line(out: &mut Vec<u8>, name: &[u8]) -> Result<(), AllocError>
    ensures { OnOk result (out.new.items ≡ out.old.items ++ name_line name.now) }
{
    put(out, b"hlsview-")?;
    put(out, name)?;
    put(out, b" 1\n")
}

fn put_tick_line(out: &mut Vec<u8>, report: &Report, tick: u32) -> Result<(), AllocError>
    ensures { OnOk result (out.new.items ≡ out.old.items ++ tick_line (content_of report.now) tick) }
{
    put(out, b"tick ")?;
    put_number(out, u128::from(tick))?;
    put(out, b" of ")?;
    put_number(out, u128::from(report.horizon))?;
    put(out, b"\n")
}

fn put_audit_line(out: &mut Vec<u8>, audited: Outcome) -> Result<(), AllocError>
    ensures { OnOk result (out.new.items ≡ out.old.items ++ audit_line audited) }
{
    put(out, b"audit ")?;
    put_verdict(out, audited)?;
    put(out, b"\n")
}

/// Appends the first lines of a view of one tick.
fn put_opening_at(
    out: &mut Vec<u8>,
    name: &[u8],
    report: &Report,
    tick: u32,
    audited: Outcome,
) -> Result<(), AllocError>
    ensures { OnOk result (out.new.items
        ≡ out.old.items ++ opening_at name.now (content_of report.now) tick audited) }
{
    put_name_line(out, name)?;
    put_tick_line(out, report, tick)?;
    put_audit_line(out, audited)
}

/// The hierarchy at the tick that is stated.
fn tree_text(
    alloc: Global,
    report: &Report,
    audited: Outcome,
    at: Option<u32>,
) -> Result<Vec<u8>, AllocError>
    requires formed { IsWellFormed report.now }
    ensures { IfOk result (λ bytes. bytes.items
        ≡ shows_tree (content_of report.now) (tick_shown (content_of report.now) at) audited) }
{
    let mut out = Vec::new(alloc);
    let tick = tick_shown(report, at);
    put_opening_at(&mut out, b"tree", report, tick, audited)?;
    write_tree(alloc, &mut out, report, tick)?;
    Ok(out)
}

/// What the jobs of each thread of a report come to.
fn threads_text(alloc: Global, report: &Report, audited: Outcome) -> Result<Vec<u8>, AllocError>
    requires formed { IsWellFormed report.now }
    ensures { IfOk result (λ bytes. ShowsThreads (content_of report.now) audited bytes.items) }
{
    let mut out = Vec::new(alloc);
    put_opening(&mut out, b"jobs", audited)?;
    let lines = thread_lines(alloc, report)?;
    write_thread_lines(alloc, &mut out, &lines)?;
    Ok(out)
}

/// The jobs of the threads of a name.
fn jobs_text(
    alloc: Global,
    report: &Report,
    audited: Outcome,
    name: &Name,
) -> Result<Vec<u8>, AllocError>
    requires formed { IsWellFormed report.now }
    ensures { IfOk result (λ bytes. ShowsJobs (content_of report.now) audited name.now bytes.items) }
{
    let mut out = Vec::new(alloc);
    put_opening(&mut out, b"jobs", audited)?;
    put(&mut out, b"thread ")?;
    put(&mut out, name.bytes())?;
    put(&mut out, b"\n")?;
    let jobs = jobs_of(alloc, report, name)?;
    write_jobs(alloc, &mut out, &jobs)?;
    Ok(out)
}

/// The first tick of a picture.
fn first_shown(report: &Report, from: Option<u32>) -> u32
    requires { IsWellFormed report.now }
    ensures is { result ≡ first_shown (content_of report.now) from }
    ensures within { result < report.now.horizon }
{
    match from {
        Some(tick) => tick.min(report.horizon - 1),
        None => 0,
    }
}

/// The last tick of a picture.
fn last_shown(report: &Report, from: Option<u32>, to: Option<u32>) -> u32
    requires { IsWellFormed report.now }
    ensures is { result ≡ last_shown (content_of report.now) from to }
    ensures order { first_shown (content_of report.now) from ≤ result }
    ensures within { result < report.now.horizon }
{
    tick_shown(report, to).max(first_shown(report, from))
}

/// The picture of the ticks that are stated, or none where it would have too many rows.
fn picture_text(
    alloc: Global,
    report: &Report,
    audited: Outcome,
    from: Option<u32>,
    to: Option<u32>,
) -> Result<Option<Vec<u8>>, AllocError>
    requires formed { IsWellFormed report.now }
    ensures { IfOk result (λ found. MatchOption found (HasManyRows (View.Svg from to) (content_of report.now))
        (λ bytes. IsViewText (View.Svg from to) (content_of report.now) audited bytes.items)) }
{
    let first = first_shown(report, from);
    let scale = scale_of(first, last_shown(report, from, to));
    let lanes = lanes_of(alloc, report, &scale)?;
    if lanes.rows.len() >= MOST_ROWS {
        return Ok(None);
    }
    let picture = drawing_of(alloc, report, audited, &scale, &lanes)?;
    let mut out = Vec::new(alloc);
    write_picture(alloc, &mut out, &picture)?;
    Ok(Some(out))
}

/// How many microseconds are shown as a tick.
fn tick_length(tick: Option<u32>) -> u32
    ensures { result ≡ tick_length tick }
{
    tick.unwrap_or(1)
}

/// The trace of all ticks, or none where it would have too many rows.
fn trace_text(
    alloc: Global,
    report: &Report,
    audited: Outcome,
    tick: Option<u32>,
) -> Result<Option<Vec<u8>>, AllocError>
    requires formed { IsWellFormed report.now }
    ensures { IfOk result (λ found. MatchOption found (HasManyRows (View.Trace tick) (content_of report.now))
        (λ bytes. IsViewText (View.Trace tick) (content_of report.now) audited bytes.items)) }
{
    let rows = rows_between(alloc, report, 0, report.horizon)?;
    if rows.len() >= MOST_ROWS {
        return Ok(None);
    }
    let trace = trace_of(alloc, report, audited, tick_length(tick), &rows)?;
    let mut out = Vec::new(alloc);
    write_trace(&mut out, &trace)?;
    Ok(Some(out))
}

/// The view of a report that tells a tale, or none where it would have too many rows.
fn view_text(
    alloc: Global,
    view: &View,
    report: &Report,
    audited: Outcome,
) -> Result<Option<Vec<u8>>, AllocError>
    requires formed { IsWellFormed report.now }
    ensures { IfOk result (λ found. MatchOption found (HasManyRows view.now (content_of report.now))
        (λ bytes. IsViewText view.now (content_of report.now) audited bytes.items)) }
{
    match view {
        View::Margins => Ok(Some(margins_text(alloc, report, audited)?)),
        View::Tree { at } => Ok(Some(tree_text(alloc, report, audited, *at)?)),
        View::Jobs { of: None } => Ok(Some(threads_text(alloc, report, audited)?)),
        View::Jobs { of: Some(name) } => Ok(Some(jobs_text(alloc, report, audited, name)?)),
        View::Svg { from, to } => picture_text(alloc, report, audited, *from, *to),
        View::Trace { tick } => trace_text(alloc, report, audited, *tick),
    }
}

/// What is said of a report that tells a tale.
fn shown(
    alloc: Global,
    view: &View,
    report: &Report,
    audited: Outcome,
) -> Result<Output, AllocError>
    requires formed { IsWellFormed report.now }
    ensures { IfOk result (λ output. Says view.now (content_of report.now) audited output.status output.bytes.items) }
{
    match view_text(alloc, view, report, audited)? {
        Some(bytes) => Ok(Output {
            status: Status::Done,
            bytes,
        }),
        None => Ok(Output {
            status: Status::TooLong,
            bytes: Vec::new(alloc),
        }),
    }
}

/// The view of a report that was read from a text, or the line that tells why there is none.
fn view_of(alloc: Global, view: &View, report: &Report, text: Vec<u8>) -> Result<Output, AllocError>
    requires read { IsReportText text.items report.now }
    ensures { IfOk result (λ output. IsSaid view.now text.items output.status output.bytes.items) }
{
    drop(text);
    let audited = audit(alloc, report)?;
    let told = tale_of(alloc, report, audited)?;
    match told {
        Outcome::Kept => shown(alloc, view, report, audited),
        Outcome::Broken { .. } => Ok(Output {
            status: Status::Broken,
            bytes: verdict_line(alloc, told)?,
        }),
    }
}

/// The view of the report of a text, or the line that refuses the text.
///
/// # Errors
/// Returns `AllocError` for want of memory.
pub fn view_of_text(alloc: Global, view: &View, text: Vec<u8>) -> Result<Output, AllocError>
    requires within { length text.items ≤ report_limit }
    ensures { IfOk result (λ output. IsSaid view.now text.items output.status output.bytes.items) }
{
    match read_report(alloc, &text) {
        Ok(report) => view_of(alloc, view, &report, text),
        Err(ReportFault::At { line }) => Ok(Output {
            status: Status::RefusedText,
            bytes: refusal_line(alloc, line, b"Form")?,
        }),
        Err(ReportFault::Memory(error)) => Err(error),
    }
}
