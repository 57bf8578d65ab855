//! Reading a guarantee from its text.

ghost use Rattle.std.specs.Prelude.{
  ◌≡◌,
  ◌≢◌,
  ℕ,
  ◌^◌,
  ◌<◌,
  ◌≤◌,
  ◌==◌,
  ◌↔◌,
  List,
  ◌∷◌,
  ◌++◌,
  codes,
  decimal,
  true,
  false,
  position,
  IsTrue,
  IfSome,
  IsSomeAnd,
};
ghost use Rattle.std.specs.List.{list_any};
ghost use Rattle.hls_frac.specs.Frac.{IsWithin};
ghost use Rattle.hls_guarantee.specs.Limits.{IsValid};
ghost use Rattle.hls_guarantee.specs.Spelling.{fraction_text, spelling, HasFields};

use crate::{Guarantee, valid};
use hls_frac::Frac;
use hls_text::{cut, decimal_number};

/// The number of 64 bits that a text spells, without a leading zero.
fn number(text: &[u8]) -> Option<u64>
    ensures found { IfSome result (λ n. text.now ≡ decimal n) }
    ensures exact { (n : ℕ) → n < 2 ^ 64 → text.now ≡ decimal n → result ≡ Some n }
{
    match decimal_number(text) {
        Some(n) if n < 1 << 64 => Some(n as u64),
        _ => None,
    }
}

/// A number of ticks.
fn ticks(text: &[u8]) -> Option<u32>
    ensures found { IfSome result (λ n. text.now ≡ decimal n) }
    ensures exact { (n : ℕ) → n ≤ 20000 → text.now ≡ decimal n → result ≡ Some n }
{
    match number(text) {
        Some(n) if n <= 20_000 => Some(n as u32),
        _ => None,
    }
}

/// The fraction that a text spells, in lowest terms, a whole one without a denominator.
fn fraction(text: &[u8]) -> Option<Frac>
    ensures found { IfSome result (λ f. text.now ≡ fraction_text f) }
    ensures exact { (f : Frac) → IsWithin f (10 ^ 13) (10 ^ 8) → text.now ≡ fraction_text f →
        result ≡ Some f }
{
    match cut(text, b'/') {
        Some((num, den)) => ratio(num, den),
        None => whole(text),
    }
}

/// The fraction that two numbers spell, if they are in lowest terms and the denominator is to be written.
fn ratio(num: &[u8], den: &[u8]) -> Option<Frac>
    ensures found { IfSome result (λ f. (num.now ≡ decimal f.num) × (den.now ≡ decimal f.den) × (f.den ≢ 1)) }
    ensures exact { (f : Frac) → IsWithin f (10 ^ 13) (10 ^ 8) → num.now ≡ decimal f.num →
        den.now ≡ decimal f.den →
        f.den ≢ 1 → result ≡ Some f }
{
    match (number(num), number(den)) {
        (Some(num), Some(den)) => quotient(u128::from(num), u128::from(den)),
        _ => None,
    }
}

/// The fraction of these two numbers, if they are in lowest terms and the denominator is to be written.
fn quotient(num: u128, den: u128) -> Option<Frac>
    ensures found { IfSome result (λ f. (f.num ≡ num) × (f.den ≡ den) × (f.den ≢ 1)) }
    ensures exact { (f : Frac) → f.num ≡ num → f.den ≡ den → f.den ≢ 1 → result ≡ Some f }
{
    match Frac::make(num, den) {
        Some(f) if is_written(f, num, den) => Some(f),
        _ => None,
    }
}

/// Whether these are the numbers of the fraction, and the denominator is to be written.
fn is_written(f: Frac, num: u128, den: u128) -> bool
    ensures { IsTrue result ↔ ((f.num ≡ num) × (f.den ≡ den) × (f.den ≢ 1)) }
{
    f.num == num && f.den == den && f.den != 1
}

/// The whole number that a text spells, as a fraction.
fn whole(text: &[u8]) -> Option<Frac>
    ensures found { IfSome result (λ f. (text.now ≡ decimal f.num) × (f.den ≡ 1)) }
    ensures exact { (f : Frac) → IsWithin f (10 ^ 13) (10 ^ 8) → text.now ≡ decimal f.num → f.den ≡ 1 →
        result ≡ Some f }
{
    match number(text) {
        Some(num) => Frac::make(u128::from(num), 1),
        None => None,
    }
}

/// The share that two fields spell.
fn share(first: &[u8], second: &[u8]) -> Option<Guarantee>
    ensures found { IfSome result (λ g. HasFields g (codes "PSBE") first.now second.now) }
    ensures exact { (g : Guarantee) → IsValid g → HasFields g (codes "PSBE") first.now second.now →
        result ≡ Some g }
{
    let s = fraction(first)?;
    let d = fraction(second)?;
    Some(Guarantee::Psbe { s, d })
}

/// The guarantee that a word and two fields spell.
fn with_numbers(word: &[u8], first: &[u8], second: &[u8]) -> Option<Guarantee>
    ensures found { IfSome result (λ g. HasFields g word.now first.now second.now) }
    ensures exact { (g : Guarantee) → IsValid g → HasFields g word.now first.now second.now →
        result ≡ Some g }
{
    if word == b"PSBE".as_slice() {
        return share(first, second);
    }
    reservation(word, ticks(first)?, ticks(second)?)
}

/// The reservation that a word and two numbers spell.
fn reservation(word: &[u8], x: u32, y: u32) -> Option<Guarantee>
    ensures found { IfSome result (λ g. HasFields g word.now (decimal x) (decimal y)) }
    ensures blocks_hard { word.now ≡ codes "RESBH" → result ≡ Some (Guarantee.Resb true x y) }
    ensures blocks_soft { word.now ≡ codes "RESBS" → result ≡ Some (Guarantee.Resb false x y) }
    ensures windows_hard { word.now ≡ codes "RESCH" → result ≡ Some (Guarantee.Resc true x y) }
    ensures windows_soft { word.now ≡ codes "RESCS" → result ≡ Some (Guarantee.Resc false x y) }
{
    if word == b"RESBH".as_slice() {
        Some(Guarantee::Resb { hard: true, x, y })
    } else if word == b"RESBS".as_slice() {
        Some(Guarantee::Resb { hard: false, x, y })
    } else if word == b"RESCH".as_slice() {
        Some(Guarantee::Resc { hard: true, x, y })
    } else if word == b"RESCS".as_slice() {
        Some(Guarantee::Resc { hard: false, x, y })
    } else {
        None
    }
}

/// The guarantee that a word and what stands after it spell.
fn after_word(word: &[u8], fields: &[u8]) -> Option<Guarantee>
    ensures found { IfSome result (λ g. word.now ++ (32 ∷ fields.now) ≡ spelling g) }
    ensures exact { (g : Guarantee) (first second : List ℕ) → IsValid g → HasFields g word.now first second →
        fields.now ≡ first ++ (32 ∷ second) → list_any (λ b. b == 32) first ≡ false → result ≡ Some g }
{
    match cut(fields, b' ') {
        Some((first, second)) => with_numbers(word, first, second),
        None => None,
    }
}

/// The guarantee with numbers that a text spells.
fn numbered(text: &[u8]) -> Option<Guarantee>
    ensures found { IfSome result (λ g. text.now ≡ spelling g) }
    ensures exact { (g : Guarantee) → IsValid g → text.now ≢ codes "ALL" → text.now ≢ codes "NULL" →
        text.now ≡ spelling g → result ≡ Some g }
{
    match cut(text, b' ') {
        Some((word, fields)) => after_word(word, fields),
        None => None,
    }
}

/// The guarantee that a text spells, of numbers of any size.
fn spelled(text: &[u8]) -> Option<Guarantee>
    ensures found { IfSome result (λ g. text.now ≡ spelling g) }
    ensures exact { (g : Guarantee) → IsValid g → text.now ≡ spelling g → result ≡ Some g }
{
    if text == b"ALL".as_slice() {
        Some(Guarantee::All)
    } else if text == b"NULL".as_slice() {
        Some(Guarantee::Null)
    } else {
        numbered(text)
    }
}

/// The guarantee that a text spells, in the limits of derivations; `None` for every other text.
pub fn read_guarantee(text: &[u8]) -> Option<Guarantee>
    ensures found { IfSome result (λ g. IsValid g × (text.now ≡ spelling g)) }
    ensures exact { (g : Guarantee) → IsValid g → text.now ≡ spelling g → result ≡ Some g }
{
    match spelled(text) {
        Some(g) if valid(&g) => Some(g),
        _ => None,
    }
}
