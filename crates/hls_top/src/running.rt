// The report on the text of a scenario.
ghost use Rattle.std.specs.Prelude.{◌≤◌, IfOk, length};
ghost use Rattle.hls_sched.specs.GoodKit.{IsGood};
ghost use Rattle.hls_sched.specs.Boxed.{boxed};
ghost use Rattle.hls_manager.specs.Outcomes.{boxes_in};
ghost use Rattle.hls_scenario.specs.Grammar.{IsScenarioText};
ghost use Rattle.hls_core.specs.Texts.{told_text};
ghost use Rattle.hls_top.specs.Exchange.{scenario_limit};
ghost use Rattle.hls_top.specs.Outputs.{IsReportOf, IsOfRun, output_text};

use crate::outputs::{Output, OutputText};
use crate::refusing::{cause_word, refusal_line};
use hls_core::{Core, Told};
use hls_io::Status;
use hls_lang::{Scenario, ScenarioFault, read_scenario};
use hls_rules::RuleBook;
use hls_sched::{Kit, Scheduler};
use std::alloc::{AllocError, Global};

/// The text of the report of a scenario. Its front takes the place of the scenario's own text, to save memory.
fn report_on(
    alloc: Global,
    scenario: Scenario,
    depth: u8,
    kit: Kit,
    rules: RuleBook,
    text: Vec<u8>,
) -> Result<Told, AllocError>
    requires read { IsScenarioText text.items scenario }
    requires depth { depth ≤ 6 }
    requires good { IsGood (boxed seen) kit }
    ensures { IfOk result (λ told. IsReportOf depth (boxes_in kit) text.items (told_text told)) }
{
    Core::tell(alloc, scenario, depth, kit, rules, text)
}

/// The report on a text, or the line that refuses it.
///
/// # Errors
/// Returns `AllocError` for want of memory.
pub fn report_on_text(
    alloc: Global,
    text: Vec<u8>,
    depth: u8,
    kit: Kit,
    rules: RuleBook,
) -> Result<Output, AllocError>
    requires within { length text.items ≤ scenario_limit }
    requires depth { depth ≤ 6 }
    requires good { IsGood (boxed seen) kit }
    ensures { IfOk result (λ output. IsOfRun depth (boxes_in kit) text.items output.status (output_text output.text)) }
{
    match read_scenario(alloc, &text) {
        Ok(scenario) => Ok(Output {
            status: Status::Done,
            text: OutputText::Report(report_on(alloc, scenario, depth, kit, rules, text)?),
        }),
        Err(ScenarioFault::At { line, cause }) => Ok(Output {
            status: Status::RefusedText,
            text: OutputText::Bytes(refusal_line(alloc, line, cause_word(cause))?),
        }),
        Err(ScenarioFault::Memory(error)) => Err(error),
    }
}
