// Reading a scenario.
ghost use Rattle.std.specs.Prelude.{◌≡◌, ◌<◌, ◌^◌, ◌-◌, length, Ok, IfOk, IfErr};
ghost use Rattle.hls_text.specs.Lines.{lines_of};
ghost use Rattle.hls_scenario.specs.Grammar.{IsScenarioText, IsFirstBad};
ghost use Rattle.hls_lang.specs.Faults.{AtLine};
ghost use Rattle.hls_lang.specs.ReadingLines.{ReadGives, scenario_of};

use crate::reader::read_lines;
use crate::{Scenario, ScenarioFault};
use std::alloc::Global;

/// The scenario of a text.
///
/// # Errors
/// Returns the first line that cannot stand and why; lines are counted from 1 on, and a text that ends before its
/// header or its horizon has its fault one line after its last. Returns `Memory` for want of memory.
pub fn read_scenario(alloc: Global, text: &[u8]) -> Result<Scenario, ScenarioFault>
    requires { length text.now < 2 ^ 32 - 1 }
    // What is read is in the grammar.
    ensures found { IfOk result (λ s. IsScenarioText text.now s) }
    // What is in the grammar is read, unless memory is wanting.
    ensures only { (s : Scenario) → IsScenarioText text.now s → ReadGives result (Ok s) }
    // The line of a fault is the first with which no scenario's text begins.
    ensures first { IfErr result (λ fault. AtLine fault (IsFirstBad (lines_of text.now))) }
    // Which line and which cause it is.
    ensures exact { ReadGives result (scenario_of text.now) }
{
    read_lines(alloc, text)
}
