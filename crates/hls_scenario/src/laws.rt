//! What holds of canonical texts: each function's contract is a law, and its body does nothing.

ghost use Rattle.std.specs.Prelude.{ℕ};
ghost use Rattle.hls_text.specs.Tokens.{tokens_of};
ghost use Rattle.hls_scenario.specs.Forms.{command_forms, command_text, scenario_text};
ghost use Rattle.hls_scenario.specs.Grammar.{IsCommand, IsScenario, IsLine, IsScenarioText};

use crate::{Command, Scenario};

/// The canonical text of a scenario is in the grammar and stands for the scenario.
pub fn canonical_text_stands()
    ensures { (s : Scenario) → IsScenario s → IsScenarioText (scenario_text s) s }
{}

/// The tokens of a command's canonical text are words that stand for the command.
pub fn command_text_stands()
    ensures { (version : ℕ) (command : Command) → IsCommand version command →
        IsLine (command_forms version command) (tokens_of (command_text version command)) }
{}
