//! Reports, and their text both ways.
#![tactic(auto)]

mod account_reading;
mod command_reading;
mod fault;
pub mod laws;
mod line_reading;
mod lines;
mod path_reading;
mod places;
mod reader;
mod recent_paths;
mod refusal_reading;
mod report_reading;
mod run_reading;
mod span_reading;
mod words;

pub use fault::ReportFault;
pub use hls_report_text::{
    Account, Answer, Answered, Path, Refusal, Report, Run, Seated, write_report,
};
pub use report_reading::read_report;
