//! What holds of longer texts: the function's contract is a law, and its body does nothing.

ghost use Rattle.std.specs.Prelude.{◌≡◌, ◌++◌, true};
ghost use Rattle.hls_text.specs.Lines.{Text};
ghost use Rattle.hls_scenario.specs.declared.scenario.Item.{Item};
ghost use Rattle.hls_scenario.specs.declared.scenario.Scenario.{Scenario};
ghost use Rattle.hls_scenario.specs.Forms.{item_forms, line_text};
ghost use Rattle.hls_scenario.specs.Grammar.{IsScenarioText};
ghost use Rattle.hls_longer_texts.specs.Longer.{ends_line, with_item, MayFollow};

/// The line of a further command may stand behind the text of a scenario, where the text ends its last line and no
/// command has a later tick: it is a text of the scenario with that command.
pub fn texts_go_on_by_a_line()
    ensures { (text : Text) (s : Scenario) (item : Item) → IsScenarioText text s → ends_line text ≡ true →
        MayFollow s item → IsScenarioText (text ++ line_text (item_forms s.version item)) (with_item s item) }
{}
