//! The jobs of the threads of a report: what each wake for so many ticks, and each later release of a periodic wake,
//! was given, and when it was done.
#![tactic(auto)]

mod admissions;
mod bounds;
mod fates;
mod job;
pub mod laws;
mod numbers;
mod releases;
mod sources;
mod summary;
mod threads;
mod totals;
mod words;

pub use job::{Fate, Job, Release, Sort, Word};
pub use summary::{Number, Responses, Summary, ThreadJobs, Which};
pub use threads::{jobs_of, thread_lines};
pub use words::{Repeat, put_later, words_on};
