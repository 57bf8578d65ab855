// A run of the program on the scenario whose commands a report tells.
use hls_prog_start::report_on;
use hls_test_report::{Finding, judged};
use std::alloc::{AllocError, Global};
use std::str;

/// What the program writes, beside the report whose commands it was given.
#[derive(Clone, Copy)]
pub enum Repeat {
    Same,
    DerivedOtherwise,
    Differs,
}

impl Repeat {
    pub fn words(self) -> &'static str {
        match self {
            Repeat::Same => "same",
            Repeat::DerivedOtherwise => "derived otherwise",
            Repeat::Differs => "differs",
        }
    }
}

/// Whether a line of a report is an answer or a derivation.
fn is_answer(line: &str) -> bool {
    line.starts_with("= ") || line.starts_with("by ")
}

/// The first line of the scenario of a report, which is of the same version.
fn header_of(report: &str) -> &'static str {
    if report.starts_with("hls-report 2\n") {
        "hls 2\n"
    } else {
        "hls 1\n"
    }
}

/// The scenario of the version, the horizon, the depth and the commands that a report tells.
fn scenario_of(alloc: Global, report: &str) -> Result<String, AllocError> {
    let mut scenario = String::new(alloc);
    scenario.push_str(header_of(report))?;
    for line in report.lines().skip(1) {
        if line == "schedule" {
            break;
        }
        if !is_answer(line) {
            scenario.push_str(line)?;
            scenario.push('\n')?;
        }
    }
    Ok(scenario)
}

/// Whether two lines of reports differ in a derivation alone.
fn are_alike(line: &str, other: &str) -> bool {
    line == other || (line.starts_with("by ") && other.starts_with("by "))
}

/// Whether two reports differ in derivations alone.
fn differ_in_derivations(report: &str, other: &str) -> bool {
    let mut rest = other.lines();
    for line in report.lines() {
        match rest.next() {
            Some(own) if are_alike(line, own) => {}
            _ => return false,
        }
    }
    rest.next().is_none()
}

/// What the program writes about the commands of a report.
pub fn repeated(alloc: Global, report: &str) -> Result<Repeat, AllocError> {
    let Some(bytes) = report_on(alloc, scenario_of(alloc, report)?)? else {
        return Ok(Repeat::Differs);
    };
    if bytes.as_slice() == report.as_bytes() {
        return Ok(Repeat::Same);
    }
    match str::from_utf8(&bytes) {
        Ok(text) if differ_in_derivations(report, text) => match judged(alloc, &bytes)? {
            Finding::AsTold => Ok(Repeat::DerivedOtherwise),
            _ => Ok(Repeat::Differs),
        },
        _ => Ok(Repeat::Differs),
    }
}
