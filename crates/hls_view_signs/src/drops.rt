// Words that wake a thread, and jobs that a wake or a block drops.
ghost use Rattle.hls_chron.specs.Ranges.{longest_horizon};
ghost use Rattle.std.specs.Prelude.{◌≡◌, ◌+◌, ◌<◌, ◌&&◌, ◌==◌, not, Some, IfSome};
ghost use Rattle.std.specs.List.{list_any};
ghost use Rattle.hls_text.specs.Lines.{Text};
ghost use Rattle.hls_report_text.specs.Content.{Content};
ghost use Rattle.hls_audit_threads.specs.Inside.Ticks.{TellsServed};
ghost use Rattle.hls_view_jobs.specs.Jobs.{releases, release_of};
ghost use Rattle.hls_view_jobs.specs.declared.job.Word as spoken;
ghost use Rattle.hls_view_jobs.specs.Words as words;
ghost use Rattle.hls_view_signs.specs.Happenings as told;
ghost use Rattle.hls_view_signs.specs.Inside.Words.{released, AreEarly, AreRising, AreParted, last_of};

use hls_audit_spans::Spans;
use hls_view_jobs::{Sort, Word};

fn is_end(sort: Sort) -> bool
    ensures { result ≡ words.is_end sort }
{
    match sort {
        Sort::Ends => true,
        Sort::Wakes { .. } | Sort::Blocks => false,
    }
}

fn is_wake(sort: Sort) -> bool
    ensures { result ≡ words.is_wake sort }
{
    match sort {
        Sort::Wakes { .. } => true,
        Sort::Blocks | Sort::Ends => false,
    }
}

/// Whether a word is of a tick, and is no end.
fn is_broken(word: &Word, tick: u32) -> bool
    ensures { result ≡ (word.now.tick == tick && not (words.is_end word.now.sort)) }
{
    word.tick == tick && !is_end(word.sort)
}

/// Whether a word in a tick drops a job that the word before it on the thread of a name released.
fn is_cut(served: &Spans, last: &Word, word: &Word, tick: u32) -> bool
    requires last { last.now.tick < longest_horizon }
    requires word { word.now.tick < longest_horizon }
    ensures { (c : Content) (name : Text) → TellsServed c name served.now.spans.items → last.now.tick < c.horizon →
        word.now.tick < c.horizon → result
        ≡ list_any (told.is_dropped c tick name) (release_of last.now.tick last.now.sort (Some word.now)) }
{
    match last.sort {
        Sort::Wakes { burst: Some(asked) } => {
            let ticks = word.tick.saturating_sub(last.tick);
            is_broken(word, tick) & (served.count(last.tick, ticks) < asked)
        }
        Sort::Wakes { burst: None } => false,
        Sort::Blocks => false,
        Sort::Ends => false,
    }
}

/// Whether a word in a tick drops a job that the word before it, if there is one, released.
fn is_cut_by(served: &Spans, last: Option<Word>, word: &Word, tick: u32) -> bool
    requires last { IfSome last (λ (w : spoken.Word). w.tick < longest_horizon) }
    requires word { word.now.tick < longest_horizon }
    ensures { (c : Content) (name : Text) → TellsServed c name served.now.spans.items →
        IfSome last (λ (w : spoken.Word). w.tick < c.horizon) → word.now.tick < c.horizon →
        result ≡ list_any (told.is_dropped c tick name) (released last (Some word.now)) }
{
    match last {
        Some(last) => word.tick == tick && is_cut(served, &last, word, tick),
        None => false,
    }
}

/// How many words come before a tick.
fn words_before(words: &[Word], tick: u32) -> usize
    requires { AreRising words.now }
    ensures { AreParted words.now tick result result }
{
    let mut low = 0;
    let mut high = words.len();
    while low < high {
        let middle = low + (high - low) / 2;
        if words[middle].tick < tick {
            low = middle + 1;
        } else {
            high = middle;
        }
    }
    low
}

/// Whether a word wakes its thread in a tick.
fn wakes(word: &Word, tick: u32) -> bool
    ensures { result ≡ told.is_woken tick word.now }
{
    word.tick == tick && is_wake(word.sort)
}

/// Whether a thread on which these are the words is woken in a tick.
pub(crate) fn is_woken(tick: u32, words: &[Word]) -> bool
    requires { AreRising words.now }
    ensures { result ≡ list_any (told.is_woken tick) words.now }
{
    for at in words_before(words, tick)..words.len() {
        let word = words[at];
        if tick < word.tick {
            return false;
        }
        if wakes(&word, tick) {
            return true;
        }
    }
    false
}

/// The last of the first so many words.
fn last_of(words: &[Word], count: usize) -> Option<Word>
    ensures { result ≡ last_of words.now count }
{
    if count == 0 {
        return None;
    }
    words.get(count - 1).copied()
}

/// Whether a wake or a block in a tick drops a job of a thread on which these are the words.
pub(crate) fn is_dropped(served: &Spans, tick: u32, words: &[Word]) -> bool
    requires early { AreEarly 1000000 words.now }
    requires rising { AreRising words.now }
    ensures { (c : Content) (name : Text) → TellsServed c name served.now.spans.items → AreEarly c.horizon words.now →
        result ≡ list_any (told.is_dropped c tick name) (releases words.now) }
{
    let first = words_before(words, tick);
    let mut last = last_of(words, first);
    for at in first..words.len() {
        let word = words[at];
        if tick < word.tick {
            return false;
        }
        if is_cut_by(served, last, &word, tick) {
            return true;
        }
        last = Some(word);
    }
    false
}
