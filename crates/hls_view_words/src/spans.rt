// The first and the last tick that options state.
ghost use Rattle.std.specs.Prelude.{◌≡◌, ◌≤◌, [], ℕ, List, Option, Some, map, string_bytes, IfSome, IsNone};
ghost use Rattle.hls_view_words.specs.Table.{Heads, FromFirst, ToFirst, MaySpan};

use crate::heads::head_of;

/// The last tick that a word may state.
const LAST_TICK: u32 = 99_999;

/// The first and the last tick of a picture, where they are stated.
#[derive(Clone, Copy)]
pub struct Span {
    pub from: Option<u32>,
    pub to: Option<u32>,
}

/// The one number up to a greatest one that an option states, with nothing behind it.
pub fn only(option: &str, most: u32, words: &[String]) -> Option<u32>
    ensures found { IfSome result (λ n.
        (n ≤ most) × Heads option.now (map string_bytes words.now) n []) }
    ensures none { IsNone result → (n : ℕ) → n ≤ most → ¬ Heads option.now (map string_bytes words.now) n [] }
{
    let head = head_of(option, most, words)?;
    if head.rest.is_empty() {
        Some(head.number)
    } else {
        None
    }
}

/// The ticks that some words state, the first before the last.
fn from_first(words: &[String]) -> Option<Span>
    ensures found { IfSome result (λ s. FromFirst (map string_bytes words.now) s.from s.to) }
    ensures none { IsNone result → (from to : Option ℕ) → ¬ FromFirst (map string_bytes words.now) from to }
{
    let head = head_of("--from", LAST_TICK, words)?;
    if head.rest.is_empty() {
        return Some(Span {
            from: Some(head.number),
            to: None,
        });
    }
    let to = only("--to", LAST_TICK, head.rest)?;
    if head.number > to {
        return None;
    }
    Some(Span {
        from: Some(head.number),
        to: Some(to),
    })
}

/// The ticks that some words state, the last before the first.
fn to_first(words: &[String]) -> Option<Span>
    ensures found { IfSome result (λ s. ToFirst (map string_bytes words.now) s.from s.to) }
    ensures none { IsNone result → (from to : Option ℕ) → ¬ ToFirst (map string_bytes words.now) from to }
{
    let head = head_of("--to", LAST_TICK, words)?;
    if head.rest.is_empty() {
        return Some(Span {
            from: None,
            to: Some(head.number),
        });
    }
    let from = only("--from", LAST_TICK, head.rest)?;
    if from > head.number {
        return None;
    }
    Some(Span {
        from: Some(from),
        to: Some(head.number),
    })
}

/// The ticks that some words after `svg` state.
pub fn span_in(words: &[String]) -> Option<Span>
    ensures found { IfSome result (λ s. MaySpan (map string_bytes words.now) s.from s.to) }
    ensures none { IsNone result → (from to : Option ℕ) → ¬ MaySpan (map string_bytes words.now) from to }
{
    if words.is_empty() {
        return Some(Span {
            from: None,
            to: None,
        });
    }
    match from_first(words) {
        Some(span) => Some(span),
        None => to_first(words),
    }
}
