//! All that the program does: a scenario is read, carried out and reported, a report is read and audited, and
//! scenarios are made from numbers and tried out.
#![tactic(auto)]

mod carrying;
mod checking;
mod generating;
pub mod laws;
mod outputs;
mod reading;
mod refusing;
mod run;
mod running;
mod trying;
mod verdicts;

pub use carrying::carry_out_due;
pub use checking::verdict_line;
pub use reading::text_from;
pub use refusing::{cause_word, refusal_line};
pub use run::{hls_run, say};
pub use verdicts::put_verdict;
