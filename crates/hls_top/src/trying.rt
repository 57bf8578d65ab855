// The trial of a number: its scenario is carried out, and its report audited.
ghost use Rattle.std.specs.Prelude.{◌≡◌, ◌≤◌, ◌++◌, IfOk, OnOk, length};
ghost use Rattle.hls_sched.specs.GoodKit.{IsGood};
ghost use Rattle.hls_sched.specs.Boxed.{boxed};
ghost use Rattle.hls_manager.specs.Outcomes.{boxes_in};
ghost use Rattle.hls_report_text.specs.Content.{content_of};
ghost use Rattle.hls_report_text.specs.ReportText.{ended, with_end};
ghost use Rattle.hls_top.specs.Outputs.{IsOfTrial, output_text};
ghost use Rattle.hls_legal.specs.Commands.{is_done};
ghost use Rattle.hls_top.specs.Summaries.{done_of, commands_line, ticks_line, trial_lines};

use crate::carrying::carry_out;
use crate::outputs::{Output, OutputText};
use crate::verdicts::put_verdict;
use hls_audit::{Outcome, audit};
use hls_gen::generate;
use hls_io::Status;
use hls_report_text::{Answer, Answered, Report};
use hls_rules::RuleBook;
use hls_sched::{Kit, Scheduler};
use hls_text::{put, put_number};
use std::alloc::{AllocError, Global};

/// The depth that scenarios are given which are made from numbers; they state the same themselves.
const DEPTH: u8 = 3;

fn is_done(one: &Answered) -> bool
    ensures { result ≡ is_done one.now.answer }
{
    matches!(&one.answer, Answer::Done(_))
}

/// How many commands were carried out.
fn done_of(answered: &[Answered]) -> usize
    ensures count { result ≡ done_of answered.now }
    ensures few { result ≤ length answered.now }
{
    let mut count = 0;
    for one in answered {
        if is_done(one) {
            count += 1;
        }
    }
    count
}

fn put_commands(out: &mut Vec<u8>, answered: &[Answered]) -> Result<(), AllocError>
    ensures { OnOk result (out.new.items ≡ out.old.items ++ with_end (commands_line answered.now)) }
{
    let done = done_of(answered);
    put(out, b"commands ")?;
    put_number(out, answered.len() as u128)?;
    put(out, b" done ")?;
    put_number(out, done as u128)?;
    put(out, b" refused ")?;
    put_number(out, (answered.len() - done) as u128)?;
    put(out, b"\n")
}

fn put_ticks(out: &mut Vec<u8>, horizon: u32, idle: u32) -> Result<(), AllocError>
    ensures { OnOk result (out.new.items ≡ out.old.items ++ with_end (ticks_line horizon idle)) }
{
    put(out, b"ticks ")?;
    put_number(out, u128::from(horizon))?;
    put(out, b" idle ")?;
    put_number(out, u128::from(idle))?;
    put(out, b"\n")
}

/// The four lines about a trial.
fn summary(
    alloc: Global,
    number: u32,
    report: &Report,
    audit: Outcome,
) -> Result<Vec<u8>, AllocError>
    ensures { IfOk result (λ bytes. bytes.items ≡ ended (trial_lines number (content_of report.now) audit)) }
{
    let mut out = Vec::new(alloc);
    put(&mut out, b"trial ")?;
    put_number(&mut out, u128::from(number))?;
    put(&mut out, b"\n")?;
    put_commands(&mut out, report.answered.items())?;
    put_ticks(&mut out, report.horizon, report.idle)?;
    put(&mut out, b"audit ")?;
    put_verdict(&mut out, audit)?;
    put(&mut out, b"\n")?;
    Ok(out)
}

/// Carries the scenario of a number out, audits its report, and sums both up.
///
/// # Errors
/// Returns `AllocError` for want of memory.
pub fn trial_of(alloc: Global, number: u32, kit: Kit, rules: RuleBook) -> Result<Output, AllocError>
    requires good { IsGood (boxed seen) kit }
    ensures { IfOk result (λ output. IsOfTrial number (boxes_in kit) output.status (output_text output.text)) }
{
    let scenario = generate(alloc, number)?;
    let report = carry_out(alloc, scenario, DEPTH, kit, rules)?;
    let audit = audit(alloc, &report)?;
    Ok(Output {
        status: Status::Done,
        text: OutputText::Bytes(summary(alloc, number, &report, audit)?),
    })
}
