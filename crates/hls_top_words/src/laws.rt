//! What holds of the table of words: each function's contract is a law, and its body does nothing.

ghost use Rattle.std.specs.Prelude.{◌≡◌, List};
ghost use Rattle.hls_text.specs.Lines.{Text};
ghost use Rattle.hls_top_words.specs.Table.{IsJob};

use crate::Job;

/// Words ask for one thing at most.
pub fn words_ask_for_one_job()
    ensures { (words : List Text) (one two : Job) → IsJob words one → IsJob words two → one ≡ two }
{}
