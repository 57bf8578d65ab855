// Reading the runs.
ghost use Rattle.hls_chron.specs.Ranges.{longest_horizon};
ghost use Rattle.std.specs.Prelude.{◌≡◌, ◌↔◌, ◌^◌, ◌<◌, ◌≤◌, ◌+◌, ◌++◌, ◌∷◌, [], List, length, map, codes};
ghost use Rattle.std.specs.Prelude.{Option, Some, None, IfOk, OnOk, IfErr, IfSome, MatchOption};
ghost use Rattle.hls_text.specs.Lines.{Text};
ghost use Rattle.hls_report_text.specs.ReportText.{two_words, span_text, path_text, stretch_text};
ghost use Rattle.hls_report.specs.Inside.Rests.{CanCount, Passes, FailsAt, RunRest, AccountRest};
ghost use Rattle.hls_report.specs.Inside.RunLines.{FitsPath, IsPathTold, IsNextRun, IsRunTold};
ghost use Rattle.hls_report.specs.Inside.RunLines.{stretches_of, IsSchedule, AreNames, IsRunRead, RunFails};
ghost use Rattle.hls_report.specs.Inside.RunLines.{AccountsPass, AccountsFail, AreRecent};
ghost use Rattle.hls_report_text.specs.declared.stretch.Stretch.{Stretch};

use crate::ReportFault;
use crate::lines::Lines;
use crate::path_reading::path;
use crate::recent_paths::{Known, Told, place_of};
use crate::span_reading::span_before;
use hls_chron::{List, Name};
use hls_report_text::{Path, Run};
use hls_text::after;
use indexmap::IndexSet;
use std::alloc::{AllocError, Global};

/// What the runs of a report tell: the names of their paths, each once by first use, and the runs.
#[derive(Debug, Drop)]
pub struct Schedule {
    pub names: List<Name>,
    pub runs: List<Run>,
}

/// The last tick of a run, and the words of its path.
#[derive(Debug, Drop)]
struct RunFront<'a> {
    to: u32,
    words: &'a [u8],
}

/// The last tick of a run from that tick on, and the words of its path.
fn run_front(line: &[u8], from: u32, horizon: u32) -> Option<RunFront<'_>>
    requires { horizon ≤ longest_horizon }
    ensures { MatchOption result
        ((s : Stretch) → s.from ≡ from → from ≤ s.to → s.to < horizon → line.now ≡ stretch_text s → ⊥)
        (λ f. (from ≤ f.to) × (f.to < horizon)
        × (line.now ≡ two_words (span_text from f.to) f.words.now)) }
{
    let Some((first, to, words)) = span_before(line) else {
        return None;
    };
    if first == from && from <= to && to < horizon {
        Some(RunFront { to, words })
    } else {
        None
    }
}

/// The path that words tell, name by name, or `None` for `idle`.
fn new_path(known: &mut IndexSet<Name>, words: &[u8]) -> Result<Option<Option<Path>>, AllocError>
    requires { length known.old.keys ≤ 2 ^ 16 }
    ensures { IfOk result (λ found. MatchOption found
        ((p : Option (List Text)) → FitsPath known.old.keys p → words.now ≡ path_text p → ⊥)
        (IsPathTold known.old.keys known.new.keys words.now)) }
{
    if words == b"idle".as_slice() {
        return Ok(Some(None));
    }
    let Some(names) = after(words, b"cpu") else {
        return Ok(None);
    };
    match path(known, names)? {
        Some(path) => Ok(Some(Some(path))),
        None => Ok(None),
    }
}

/// The path that words tell, which they may have told of late, or `None` for `idle`.
fn told_path<'a>(known: &mut Known<'a>, words: &'a [u8]) -> Result<Option<Option<Path>>, AllocError>
    requires few { length known.old.names.keys ≤ 2 ^ 16 }
    requires recent { AreRecent known.old }
    ensures told { IfOk result (λ found. MatchOption found
        ((p : Option (List Text)) → FitsPath known.old.names.keys p → words.now ≡ path_text p → ⊥)
        (IsPathTold known.old.names.keys known.new.names.keys words.now)) }
    ensures recent { IfOk result (λ found. IfSome found (λ path. AreRecent known.new)) }
{
    let place = place_of(words);
    if let Some(path) = known.path_at(place, words) {
        return Ok(Some(path));
    }
    match new_path(&mut known.names, words)? {
        Some(path) => {
            known.keep(place, Told { words, path });
            Ok(Some(path))
        }
        None => Ok(None),
    }
}

/// A run, and the words of its path.
#[derive(Debug, Drop)]
struct ToldRun<'a> {
    run: Run,
    words: &'a [u8],
}

/// The run from that tick on that a line tells, whose path has other words than the last.
fn told_run<'a>(
    known: &mut Known<'a>,
    line: &'a [u8],
    from: u32,
    last: &[u8],
    horizon: u32,
) -> Result<Option<ToldRun<'a>>, AllocError>
    requires few { horizon ≤ longest_horizon }
    requires known { length known.old.names.keys ≤ 2 ^ 16 }
    requires recent { AreRecent known.old }
    ensures told { IfOk result (λ found. MatchOption found
        ((s : Stretch) → IsNextRun horizon from last.now known.old.names.keys s →
        line.now ≡ stretch_text s → ⊥)
        (λ t. IsRunTold horizon from last.now known.old.names.keys known.new.names.keys line.now t.words.now
        t.run)) }
    ensures recent { IfOk result (λ found. IfSome found (λ t. AreRecent known.new)) }
{
    let Some(front) = run_front(line, from, horizon) else {
        return Ok(None);
    };
    if last == front.words {
        return Ok(None);
    }
    match told_path(known, front.words)? {
        Some(path) => Ok(Some(ToldRun {
            run: Run {
                from,
                to: front.to,
                path,
            },
            words: front.words,
        })),
        None => Ok(None),
    }
}

/// Reads the next run.
fn next_run<'a>(
    known: &mut Known<'a>,
    lines: &mut Lines<'a>,
    from: u32,
    last: &[u8],
    horizon: u32,
) -> Result<ToldRun<'a>, ReportFault>
    requires room { CanCount lines.old }
    requires few { horizon ≤ longest_horizon }
    requires left { from < horizon }
    requires known { AreNames known.old.names.keys }
    requires recent { AreRecent known.old }
    ensures ok { IfOk result (λ t. IsRunRead horizon from last.now known.old.names.keys known.new.names.keys
        t.words.now t.run lines.old lines.new) }
    ensures recent { IfOk result (λ t. AreRecent known.new) }
    ensures err { IfErr result (RunFails horizon from last.now known.old.names.keys lines.old) }
{
    let Some(line) = lines.next() else {
        return Err(lines.fault());
    };
    match told_run(known, line, from, last, horizon)? {
        Some(told) => Ok(told),
        None => Err(lines.fault()),
    }
}

/// Reads the line behind the runs.
fn accounts_line(lines: &mut Lines<'_>) -> Result<(), ReportFault>
    requires { CanCount lines.old }
    ensures ok { OnOk result (AccountsPass lines.old lines.new) }
    ensures err { IfErr result (AccountsFail lines.old) }
{
    let Some(line) = lines.next() else {
        return Err(lines.fault());
    };
    if line == b"accounts".as_slice() {
        Ok(())
    } else {
        Err(lines.fault())
    }
}

fn keep_run(runs: &mut Vec<Run>, run: Run) -> Result<(), AllocError>
    ensures { OnOk result (runs.new.items ≡ runs.old.items ++ run ∷ []) }
{
    runs.push(run)?;
    Ok(())
}

fn names_of(alloc: Global, known: &IndexSet<Name>) -> Result<List<Name>, AllocError>
    ensures { IfOk result (λ names. names ≡ known.now.keys) }
{
    let mut names = Vec::new(alloc);
    names.extend_from_slice(known.as_slice())?;
    Ok(List::of(names))
}

/// Reads the runs, and the line behind them.
pub fn runs(alloc: Global, lines: &mut Lines<'_>, horizon: u32) -> Result<Schedule, ReportFault>
    requires room { CanCount lines.old }
    requires few { horizon ≤ longest_horizon }
    ensures ok { IfOk result (λ s. IsSchedule horizon s
        × Passes (RunRest horizon 0 None []) (AccountRest horizon)
        (map stretch_text (stretches_of s) ++ codes "accounts" ∷ []) lines.old lines.new) }
    ensures err { IfErr result (λ fault. FailsAt (RunRest horizon 0 None []) lines.old fault) }
{
    let mut known = Known::new(alloc)?;
    let mut runs = Vec::new(alloc);
    let mut from = 0;
    let mut last = b"".as_slice();
    while from < horizon {
        let told = next_run(&mut known, lines, from, last, horizon)?;
        from = told.run.to + 1;
        last = told.words;
        keep_run(&mut runs, told.run)?;
    }
    accounts_line(lines)?;
    Ok(Schedule {
        names: names_of(alloc, &known.names)?,
        runs: List::of(runs),
    })
}
