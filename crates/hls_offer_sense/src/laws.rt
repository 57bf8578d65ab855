//! What holds of the words of a question: the function's contract is a law, and its body does nothing.

ghost use Rattle.std.specs.Prelude.{◌≡◌, List};
ghost use Rattle.hls_text.specs.Lines.{Text};
ghost use Rattle.hls_offer_words.specs.Table.{IsAsked};
ghost use Rattle.hls_offer_words.specs.declared.asked.Asked.{Asked};

/// A list of words asks one question at most: of one tick, with one depth and the same periods.
pub fn words_ask_one_question()
    ensures { (words : List Text) (one two : Asked) → IsAsked words one → IsAsked words two → one ≡ two }
{}
