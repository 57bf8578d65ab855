//! Reports, and their text: one for each.
#![tactic(auto)]

pub mod laws;
mod refusal;
mod refusals;
mod report;
mod stretch;
mod writing;

pub use refusal::Refusal;
pub use refusals::put_refusal;
pub use report::{Account, Answer, Answered, Path, Report, Run, Seated};
pub use writing::{
    put_account, put_answered, put_command, put_end, put_head, put_runs, write_report,
};
