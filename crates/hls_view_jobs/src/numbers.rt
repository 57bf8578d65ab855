// Numbers of jobs, and the least and the greatest of numbers.
ghost use Rattle.std.specs.Prelude.{◌≡◌, IfOk, map, sum};
ghost use Rattle.hls_view_jobs.specs.Summaries.{number, gaps_behind, gaps, IsLeast, IsMost};
ghost use Rattle.hls_view_jobs.specs.Inside.Running.{least_with, most_with};

use crate::job::Job;
use crate::summary::Number;
use std::alloc::{AllocError, Global};

impl Number {
    /// This number of a job.
    fn of(self, job: &Job) -> u32
        ensures { result ≡ number self job.now }
    {
        match self {
            Number::Asked => job.asked,
            Number::Lack => job.asked.saturating_sub(job.got),
            Number::Ticks => job.ticks,
        }
    }
}

/// A number of each job.
pub(crate) fn numbers(alloc: Global, jobs: &[Job], which: Number) -> Result<Vec<u32>, AllocError>
    ensures { IfOk result (λ all. all.items ≡ map (number which) jobs.now) }
{
    let mut all = Vec::new(alloc);
    for job in jobs {
        all.push(which.of(job))?;
    }
    Ok(all)
}

/// How far each job is behind the one before it, and the first behind a tick.
fn gaps_behind(alloc: Global, tick: u32, jobs: &[Job]) -> Result<Vec<u32>, AllocError>
    ensures { IfOk result (λ all. all.items ≡ gaps_behind tick jobs.now) }
{
    let mut all = Vec::new(alloc);
    let mut last = tick;
    for job in jobs {
        all.push(job.release.saturating_sub(last))?;
        last = job.release;
    }
    Ok(all)
}

/// How far each job is behind the one before it.
pub(crate) fn gaps(alloc: Global, jobs: &[Job]) -> Result<Vec<u32>, AllocError>
    ensures { IfOk result (λ all. all.items ≡ gaps jobs.now) }
{
    match jobs.split_first() {
        Some((first, more)) => gaps_behind(alloc, first.release, more),
        None => Ok(Vec::new(alloc)),
    }
}

/// The sum of some numbers.
pub(crate) fn sum_of(numbers: &[u32]) -> u128
    ensures { result ≡ sum numbers.now }
{
    let mut total: u128 = 0;
    for number in numbers {
        total += u128::from(*number);
    }
    total
}

/// The lesser of a number, if there is one, and another.
fn least_with(least: Option<u32>, number: u32) -> Option<u32>
    ensures { result ≡ least_with least number }
{
    match least {
        None => Some(number),
        Some(least) => {
            if number < least {
                Some(number)
            } else {
                Some(least)
            }
        }
    }
}

/// The greater of a number, if there is one, and another.
fn most_with(most: Option<u32>, number: u32) -> Option<u32>
    ensures { result ≡ most_with most number }
{
    match most {
        None => Some(number),
        Some(most) => {
            if most < number {
                Some(number)
            } else {
                Some(most)
            }
        }
    }
}

/// The least of some numbers.
pub(crate) fn least(numbers: &[u32]) -> Option<u32>
    ensures { IsLeast numbers.now result }
{
    let mut least = None;
    for at in 0..numbers.len() {
        least = least_with(least, numbers[at]);
    }
    least
}

/// The greatest of some numbers.
pub(crate) fn most(numbers: &[u32]) -> Option<u32>
    ensures { IsMost numbers.now result }
{
    let mut most = None;
    for at in 0..numbers.len() {
        most = most_with(most, numbers[at]);
    }
    most
}
