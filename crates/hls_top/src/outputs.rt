// What is to be written at words that ask for a job.
ghost use Rattle.std.specs.Prelude.{◌≡◌, ◌≤◌, ℕ, IfOk, IfErr, OnOk, OnErr};
ghost use Rattle.std.specs.Io.KnownBytes.{Appends};
ghost use Rattle.hls_io.specs.Bytes.{TellsAlike, AppendsPart};
ghost use Rattle.hls_io.specs.Faults.{CountsFaults};
ghost use Rattle.hls_sched.specs.GoodKit.{IsGood};
ghost use Rattle.hls_sched.specs.Boxed.{boxed};
ghost use Rattle.hls_manager.specs.Outcomes.{boxes_in};
ghost use Rattle.hls_top.specs.Exchange.{drawn, limit};
ghost use Rattle.hls_top.specs.Outputs.{IsOutput, output_text};
ghost use Rattle.hls_top.specs.Ends.{Lacks};
ghost use Rattle.hls_top.specs.Says.{IsRead};

use crate::checking::verdict_on_text;
use crate::generating::scenario_of;
use crate::reading::text_from;
use crate::running::report_on_text;
use crate::trying::trial_of;
use hls_core::Told;
use hls_io::{Failed, ReadError, Sink, Source, Status, write_all};
use hls_rules::RuleBook;
use hls_sched::{Kit, Scheduler};
use hls_top_words::Job;
use std::alloc::Global;

/// The most bytes that are taken for the text of a scenario.
const SCENARIO_LIMIT: usize = 4_194_304;

/// The most bytes that are taken for the text of a report.
const REPORT_LIMIT: usize = 268_435_456;

/// A text that is to be written.
#[derive(Drop)]
pub enum OutputText {
    /// It stands as it is written.
    Bytes(Vec<u8>),
    /// It is that of a report, whose schedule becomes text while it is written.
    Report(Told),
}

impl OutputText {
    /// Writes the whole text. It takes no memory.
    ///
    /// # Errors
    /// Returns `Failed` where a write failed, which stops it. A part of the text is written by then.
    pub fn write<K: Sink>(self, sink: &mut K) -> Result<(), Failed>
        ensures whole { OnOk result (Appends (K.written sink.old) (K.written sink.new) (output_text self)) }
        ensures part { OnErr result (AppendsPart (K.written sink.old) (K.written sink.new) (output_text self)) }
        ensures told { TellsAlike (K.written sink.old) (K.written sink.new) }
        ensures faults { CountsFaults (K.faults sink.old) (K.faults sink.new) result }
    {
        match self {
            OutputText::Bytes(bytes) => write_all(sink, &bytes),
            OutputText::Report(told) => told.write(sink),
        }
    }
}

/// What is to be written, and the status that goes with it.
#[derive(Drop)]
pub struct Output {
    pub status: Status,
    pub text: OutputText,
}

/// Does what is asked for, up to its output. A text is read first, where one is asked for.
pub fn output_of<S: Source>(
    alloc: Global,
    job: Job,
    source: &mut S,
    kit: Kit,
    rules: RuleBook,
) -> Result<Output, ReadError>
    requires depth { (depth : ℕ) → job ≡ Job.Run depth → depth ≤ 6 }
    requires good { IsGood (boxed seen) kit }
    ensures is { IfOk result (λ output. IsOutput (boxes_in kit) job
        (drawn S.left S.faults source.old source.new) output.status (output_text output.text)) }
    ensures quiet { OnOk result (S.faults source.new ≡ S.faults source.old) }
    ensures lacks { IfErr result (λ error. Lacks error (limit job) (drawn S.left S.faults source.old source.new)) }
    ensures orderly { IsRead (limit job) (drawn S.left S.faults source.old source.new) }
{
    match job {
        Job::Run { depth } => {
            let text = text_from(alloc, source, SCENARIO_LIMIT)?;
            Ok(report_on_text(alloc, text, depth, kit, rules)?)
        }
        Job::Check => {
            let text = text_from(alloc, source, REPORT_LIMIT)?;
            Ok(verdict_on_text(alloc, text)?)
        }
        Job::Gen { number } => Ok(scenario_of(alloc, number)?),
        Job::Trial { number } => Ok(trial_of(alloc, number, kit, rules)?),
    }
}
