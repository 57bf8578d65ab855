//! Carries commands out on a small tree, and tells the answers and what is left of tree and kit; then a scenario on a
//! core, and writes its report. Where memory is wanting for a command, it carries the command out once more; of the
//! tree it says besides if tree or kit are not as before.
#![tactic(auto)]

mod carrying;
mod going_on;
mod showing;
mod starting;

use crate::starting::trial;
use std::process::ExitCode;
use std::{io, str};

/// The exit status where memory was wanting for anything but a command.
const OUT_OF_MEMORY: u8 = 6;

fn main(rt: HostRuntime) -> io::Result<ExitCode> {
    match trial(rt.alloc()) {
        Ok(text) => {
            let told = str::from_utf8(&text).unwrap_or("");
            print!(rt; "{told}")?;
            Ok(ExitCode::SUCCESS)
        }
        Err(_) => Ok(ExitCode::from(OUT_OF_MEMORY)),
    }
}
