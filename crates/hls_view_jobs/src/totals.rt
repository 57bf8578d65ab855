// What the jobs of a thread come to.
ghost use Rattle.std.specs.Prelude.{◌≡◌, IfOk, filter};
ghost use Rattle.hls_view_jobs.specs.Summaries.{has_fate, of_fate, has_ticks, AreResponsesOf, IsGreatest};
ghost use Rattle.hls_view_jobs.specs.Summaries.{IsSummary};
ghost use Rattle.hls_view_jobs.specs.Inside.Running.{longer, greater, IsLongestWhole};

use crate::job::{Fate, Job};
use crate::numbers::{gaps, least, most, numbers, sum_of};
use crate::summary::{Number, Responses, Summary, Which};
use hls_frac::Frac;
use std::alloc::{AllocError, Global};

impl Which {
    /// Whether a job is one of these.
    fn has(self, job: &Job) -> bool
        ensures { result ≡ of_fate self job.now }
    {
        match (self, job.fate) {
            (Which::Done, Fate::Done { .. }) => true,
            (Which::Dropped, Fate::Dropped { .. }) => true,
            (Which::ByWake, Fate::Dropped { by }) => by.sort.is_wake(),
            (Which::Open, Fate::Open) => true,
            _ => false,
        }
    }
}

/// Those jobs.
fn chosen(alloc: Global, jobs: &[Job], which: Which) -> Result<Vec<Job>, AllocError>
    ensures { IfOk result (λ all. all.items ≡ filter (of_fate which) jobs.now) }
{
    let mut all = Vec::new(alloc);
    for job in jobs {
        if which.has(job) {
            all.push(*job)?;
        }
    }
    Ok(all)
}

/// The jobs that have a tick.
fn with_ticks(alloc: Global, jobs: &[Job]) -> Result<Vec<Job>, AllocError>
    ensures { IfOk result (λ all. all.items ≡ filter has_ticks jobs.now) }
{
    let mut all = Vec::new(alloc);
    for job in jobs {
        if 1 <= job.ticks {
            all.push(*job)?;
        }
    }
    Ok(all)
}

/// The longer of a job, if there is one, and a later one.
fn longer(longest: Option<Job>, job: Job) -> Option<Job>
    ensures { result ≡ longer longest job }
{
    match longest {
        None => Some(job),
        Some(longest) => {
            if longest.ticks < job.ticks {
                Some(job)
            } else {
                Some(longest)
            }
        }
    }
}

/// The first of the jobs that have the most ticks.
fn longest(jobs: &[Job]) -> Option<Job>
    ensures { IsLongestWhole jobs.now result }
{
    let mut longest = None;
    for at in 0..jobs.len() {
        longest = longer(longest, jobs[at]);
    }
    longest
}

/// How long those jobs took that are done, if there are any.
fn responses_of(alloc: Global, done: &[Job]) -> Result<Option<Responses>, AllocError>
    ensures { IfOk result (AreResponsesOf done.now) }
{
    let ticks = numbers(alloc, done, Number::Ticks)?;
    let Some(longest) = longest(done) else {
        return Ok(None);
    };
    let Some(best) = least(&ticks) else {
        return Ok(None);
    };
    let Some(mean) = Frac::make(sum_of(&ticks), done.len() as u128) else {
        return Ok(None);
    };
    Ok(Some(Responses {
        best,
        mean,
        longest,
    }))
}

/// The greater of a bound, if there is one, and another.
fn greater(greatest: Option<u128>, bound: u128) -> u128
    ensures { result ≡ greater greatest bound }
{
    match greatest {
        None => bound,
        Some(most) => most.max(bound),
    }
}

/// The greatest bound of jobs, if each has one.
fn greatest_bound(jobs: &[Job]) -> Option<u128>
    ensures { IsGreatest jobs.now result }
{
    let mut greatest = None;
    for at in 0..jobs.len() {
        match jobs[at].bound {
            Some(bound) => greatest = Some(greater(greatest, bound)),
            None => return None,
        }
    }
    greatest
}

/// What some jobs come to.
///
/// # Errors
/// Returns `AllocError` for want of memory.
pub(crate) fn summary_of(alloc: Global, jobs: &[Job]) -> Result<Summary, AllocError>
    ensures { IfOk result (IsSummary jobs.now) }
{
    let done = chosen(alloc, jobs, Which::Done)?;
    let dropped = chosen(alloc, jobs, Which::Dropped)?;
    let asked = numbers(alloc, jobs, Number::Asked)?;
    Ok(Summary {
        jobs: jobs.len(),
        done: done.len(),
        dropped: dropped.len(),
        by_wake: chosen(alloc, jobs, Which::ByWake)?.len(),
        unfinished: chosen(alloc, jobs, Which::Open)?.len(),
        asked: sum_of(&asked),
        lost: sum_of(&numbers(alloc, &dropped, Number::Lack)?),
        apart: least(&gaps(alloc, jobs)?),
        most: most(&asked),
        responses: responses_of(alloc, &done)?,
        bound: greatest_bound(&with_ticks(alloc, jobs)?),
    })
}
