// The table of words.
ghost use Rattle.std.specs.Prelude.{codes, map, string_bytes, IfSome, IsNone, ◌∷◌};
ghost use Rattle.hls_view_words.specs.Table.{IsView, IsNoView};

use crate::View;
use crate::names::name_in;
use crate::spans::{only, span_in};
use crate::ticks::tick_in;

/// What the words after `tree` ask for.
fn tree_of(words: &[String]) -> Option<View>
    ensures found { IfSome result (λ view. IsView (codes "tree" ∷ map string_bytes words.now) view) }
    ensures none { IsNone result → IsNoView (codes "tree" ∷ map string_bytes words.now) }
{
    if words.is_empty() {
        return Some(View::Tree { at: None });
    }
    let tick = tick_in(words)?;
    Some(View::Tree { at: Some(tick) })
}

/// What the words after `jobs` ask for.
fn jobs_of(words: &[String]) -> Option<View>
    ensures found { IfSome result (λ view. IsView (codes "jobs" ∷ map string_bytes words.now) view) }
    ensures none { IsNone result → IsNoView (codes "jobs" ∷ map string_bytes words.now) }
{
    if words.is_empty() {
        return Some(View::Jobs { of: None });
    }
    let name = name_in(words)?;
    Some(View::Jobs { of: Some(name) })
}

/// What the words after `svg` ask for.
fn svg_of(words: &[String]) -> Option<View>
    ensures found { IfSome result (λ view. IsView (codes "svg" ∷ map string_bytes words.now) view) }
    ensures none { IsNone result → IsNoView (codes "svg" ∷ map string_bytes words.now) }
{
    let span = span_in(words)?;
    Some(View::Svg {
        from: span.from,
        to: span.to,
    })
}

/// The most microseconds that may stand for a tick.
const LONGEST_TICK: u32 = 1_000_000;

/// What the words after `trace` ask for.
fn trace_of(words: &[String]) -> Option<View>
    ensures found { IfSome result (λ view. IsView (codes "trace" ∷ map string_bytes words.now) view) }
    ensures none { IsNone result → IsNoView (codes "trace" ∷ map string_bytes words.now) }
{
    if words.is_empty() {
        return Some(View::Trace { tick: None });
    }
    let tick = only("--tick", LONGEST_TICK, words)?;
    if tick == 0 {
        return None;
    }
    Some(View::Trace { tick: Some(tick) })
}

/// What the words ask for, or `None` where they ask for nothing that the program knows.
pub fn listed(words: &[String]) -> Option<View>
    ensures found { IfSome result (IsView (map string_bytes words.now)) }
    ensures none { IsNone result → IsNoView (map string_bytes words.now) }
{
    let (first, options) = words.split_first()?;
    match first.as_str() {
        "svg" => svg_of(options),
        "trace" => trace_of(options),
        "margins" if options.is_empty() => Some(View::Margins),
        "tree" => tree_of(options),
        "jobs" => jobs_of(options),
        _ => None,
    }
}
