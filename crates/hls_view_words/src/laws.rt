//! What holds of the table of words: each function's contract is a law, and its body does nothing.

ghost use Rattle.std.specs.Prelude.{◌≡◌, List};
ghost use Rattle.hls_text.specs.Lines.{Text};
ghost use Rattle.hls_view_words.specs.Table.{IsView};

use crate::View;

/// Words ask for one view at most.
pub fn words_ask_for_one_view()
    ensures { (words : List Text) (one two : View) → IsView words one → IsView words two → one ≡ two }
{}
