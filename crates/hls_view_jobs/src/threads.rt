// The jobs of the threads of a report.
ghost use Rattle.std.specs.Prelude.{◌≡◌, IfOk, OnOk, All, map};
ghost use Rattle.hls_report_text.specs.Content.{content_of};
ghost use Rattle.hls_report_text.specs.WellFormed.{IsWellFormed};
ghost use Rattle.hls_view_jobs.specs.Jobs.{releases, AreJobs};
ghost use Rattle.hls_view_jobs.specs.Threads.{AreJobsOf, lasting};
ghost use Rattle.hls_view_jobs.specs.Summaries.{IsLine, AreLines};
ghost use Rattle.hls_view_jobs.specs.Inside.Sound.{AreWords};
ghost use Rattle.hls_view_jobs.specs.Inside.Sources.{AreSources, IsAdmission, life_by};

use crate::admissions::{Admission, admissions};
use crate::fates::job_of;
use crate::job::{Job, Word};
use crate::releases::releases_of;
use crate::sources::{Sources, stays_named};
use crate::summary::ThreadJobs;
use crate::totals::summary_of;
use crate::words::{wakes_on, words_on};
use hls_chron::Name;
use hls_report_text::Report;
use std::alloc::{AllocError, Global};

/// The jobs that these words on the thread of a name release.
fn jobs_on(
    alloc: Global,
    report: &Report,
    sources: &mut Sources,
    name: &Name,
    words: &[Word],
) -> Result<Vec<Job>, AllocError>
    requires formed { IsWellFormed report.now }
    requires sources { AreSources report.now sources.old }
    requires words { AreWords report.now.horizon 0 words.now }
    ensures sources { OnOk result (AreSources report.now sources.new) }
    ensures jobs { IfOk result (λ jobs. AreJobs (content_of report.now) name.now (releases words.now) jobs.items) }
{
    let place = sources
        .known
        .place_of(alloc, report, &sources.lookup, name)?;
    let stays = stays_named(alloc, report, &sources.stays, name)?;
    let releases = releases_of(alloc, words)?;
    let mut jobs = Vec::new(alloc);
    for at in 0..releases.len() {
        let served = &sources.known.ticks[place].served;
        jobs.push(job_of(report, name, served, &stays, &releases[at]))?;
    }
    Ok(jobs)
}

/// The words on a thread, from its admission to its end.
fn words_of(alloc: Global, report: &Report, thread: &Admission) -> Result<Vec<Word>, AllocError>
    requires { IsAdmission (content_of report.now) thread.now }
    ensures words { IfOk result (λ words.
        words.items ≡ (life_by report.now.horizon report.now.answered thread.now).words) }
    ensures sound { IfOk result (λ words. AreWords report.now.horizon 0 words.items) }
{
    let answered = report.answered.items();
    let words = words_on(
        alloc,
        report.horizon,
        answered,
        thread.place + 1,
        &thread.name,
    )?;
    Ok(words)
}

/// The jobs of a thread.
fn jobs_in(
    alloc: Global,
    report: &Report,
    sources: &mut Sources,
    thread: &Admission,
) -> Result<Vec<Job>, AllocError>
    requires formed { IsWellFormed report.now }
    requires sources { AreSources report.now sources.old }
    requires thread { IsAdmission (content_of report.now) thread.now }
    ensures sources { OnOk result (AreSources report.now sources.new) }
    ensures jobs { IfOk result (λ jobs. AreJobs (content_of report.now) thread.now.name
        (releases (life_by report.now.horizon report.now.answered thread.now).words) jobs.items) }
{
    let words = words_of(alloc, report, thread)?;
    jobs_on(alloc, report, sources, &thread.name, &words)
}

/// The jobs of those of these threads that have a name.
fn jobs_among(
    alloc: Global,
    report: &Report,
    sources: &mut Sources,
    threads: &[Admission],
    name: &Name,
) -> Result<Vec<Job>, AllocError>
    requires formed { IsWellFormed report.now }
    requires sources { AreSources report.now sources.old }
    requires threads { All (IsAdmission (content_of report.now)) threads.now }
    requires all { map (life_by report.now.horizon report.now.answered) threads.now ≡ lasting (content_of report.now) }
    ensures { IfOk result (λ jobs. AreJobsOf (content_of report.now) name.now jobs.items) }
{
    let mut jobs = Vec::new(alloc);
    for at in 0..threads.len() {
        let thread = threads[at];
        if thread.name == *name {
            let more = jobs_in(alloc, report, sources, &thread)?;
            jobs.extend_from_slice(&more)?;
        }
    }
    Ok(jobs)
}

/// The jobs of all threads of a name that have a tick, in the order of their releases.
///
/// # Errors
/// Returns `AllocError` where there is no memory for what is kept beside the report.
pub fn jobs_of(alloc: Global, report: &Report, name: &Name) -> Result<Vec<Job>, AllocError>
    requires { IsWellFormed report.now }
    ensures { IfOk result (λ jobs. AreJobsOf (content_of report.now) name.now jobs.items) }
{
    let mut sources = Sources::of(alloc, report)?;
    let threads = admissions(alloc, report)?;
    jobs_among(alloc, report, &mut sources, &threads, name)
}

/// The line of a thread.
fn line_of(
    alloc: Global,
    report: &Report,
    sources: &mut Sources,
    thread: &Admission,
) -> Result<ThreadJobs, AllocError>
    requires formed { IsWellFormed report.now }
    requires sources { AreSources report.now sources.old }
    requires thread { IsAdmission (content_of report.now) thread.now }
    ensures sources { OnOk result (AreSources report.now sources.new) }
    ensures line { IfOk result
        (IsLine (content_of report.now) (life_by report.now.horizon report.now.answered thread.now)) }
{
    let words = words_of(alloc, report, thread)?;
    let jobs = jobs_on(alloc, report, sources, &thread.name, &words)?;
    let summary = summary_of(alloc, &jobs)?;
    let wakes = wakes_on(report.answered.items(), thread.place + 1, &thread.name);
    Ok(ThreadJobs {
        name: thread.name,
        from: thread.from,
        to: thread.until - 1,
        wakes,
        summary,
    })
}

/// The lines of these threads.
fn lines_among(
    alloc: Global,
    report: &Report,
    sources: &mut Sources,
    threads: &[Admission],
) -> Result<Vec<ThreadJobs>, AllocError>
    requires formed { IsWellFormed report.now }
    requires sources { AreSources report.now sources.old }
    requires threads { All (IsAdmission (content_of report.now)) threads.now }
    requires all { map (life_by report.now.horizon report.now.answered) threads.now ≡ lasting (content_of report.now) }
    ensures { IfOk result (λ lines. AreLines (content_of report.now) (lasting (content_of report.now)) lines.items) }
{
    let mut lines = Vec::new(alloc);
    for at in 0..threads.len() {
        let thread = threads[at];
        lines.push(line_of(alloc, report, sources, &thread)?)?;
    }
    Ok(lines)
}

/// A line for each thread of a report that has a tick, in the order of their admissions: what its jobs come to.
///
/// # Errors
/// Returns `AllocError` where there is no memory for what is kept beside the report.
pub fn thread_lines(alloc: Global, report: &Report) -> Result<Vec<ThreadJobs>, AllocError>
    requires { IsWellFormed report.now }
    ensures { IfOk result (λ lines. AreLines (content_of report.now) (lasting (content_of report.now)) lines.items) }
{
    let mut sources = Sources::of(alloc, report)?;
    let threads = admissions(alloc, report)?;
    lines_among(alloc, report, &mut sources, &threads)
}
