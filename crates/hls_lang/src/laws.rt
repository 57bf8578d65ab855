//! What holds of texts and scenarios: each function's contract is a law, and its body does nothing.

ghost use Rattle.std.specs.Prelude.{◌≡◌, ℕ, Ok};
ghost use Rattle.hls_text.specs.Lines.{Text};
ghost use Rattle.hls_scenario.specs.Forms.{command_text, scenario_text};
ghost use Rattle.hls_scenario.specs.Grammar.{IsCommand, IsScenario, IsScenarioText};
ghost use Rattle.hls_lang.specs.ReadingLines.{scenario_of};

use crate::{Command, Scenario};

/// The canonical text of a scenario is read as that scenario.
pub fn canonical_text_is_read()
    ensures { (s : Scenario) → IsScenario s → scenario_of (scenario_text s) ≡ Ok s }
{}

/// A text stands for at most one scenario.
pub fn text_stands_for_one()
    ensures { (text : Text) (s t : Scenario) → IsScenarioText text s → IsScenarioText text t → s ≡ t }
{}

/// No two scenarios within the grammar have one canonical text.
pub fn canonical_text_is_injective()
    ensures { (s t : Scenario) → IsScenario s → IsScenario t → scenario_text s ≡ scenario_text t → s ≡ t }
{}

/// No two commands within the grammar of one version have one canonical text.
pub fn command_text_is_injective()
    ensures { (version : ℕ) (c d : Command) → IsCommand version c → IsCommand version d →
        command_text version c ≡ command_text version d → c ≡ d }
{}
