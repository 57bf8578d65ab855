// Reading a refusal.
ghost use Rattle.std.specs.Prelude.{◌≡◌, ◌∷◌, ◌++◌, codes, decimal, IfSome};
ghost use Rattle.hls_text.specs.Options.{Gives};
ghost use Rattle.hls_report_text.specs.ReportText.{two_words, place_text, kind_text, refusal_text};
ghost use Rattle.hls_report_text.specs.WellFormed.{IsRefusal};
ghost use Rattle.hls_report_text.specs.Inside.Reading.{not_empty_at, seats_full_at, kit_empty_at, no_room_at};
ghost use Rattle.hls_report_text.specs.Inside.Reading.{no_derivation_at, refusal_at, seat_refusal_at};
ghost use Rattle.hls_report_text.specs.Inside.Reading.{late_refusal_at};

use crate::words::{count, digit, kind, name, place};
use hls_report_text::Refusal;
use hls_text::{after, cut, decimal_number};

/// The refusal that a text spells.
#[tactic(auto, unfolding(hls_report_text::specs::Inside::Reading::refusal_at))]
pub fn refusal(text: &[u8]) -> Option<Refusal>
    ensures read { result ≡ refusal_at text.now }
    ensures found { IfSome result (λ r. IsRefusal r × (text.now ≡ refusal_text r)) }
{
    if let Some(rest) = after(text, b"10 NameTaken ") {
        let name = name(rest)?;
        return Some(Refusal::NameTaken { name });
    }
    if let Some(rest) = after(text, b"11 NoSuchName ") {
        let name = name(rest)?;
        return Some(Refusal::NoSuchName { name });
    }
    if let Some(rest) = after(text, b"12 WrongSort ") {
        let name = place(rest)?;
        return Some(Refusal::WrongSort { name });
    }
    if let Some(rest) = after(text, b"13 TooManyNodes ") {
        let most = count(rest)?;
        return if most == 64 {
            Some(Refusal::TooManyNodes { most })
        } else {
            None
        };
    }
    if let Some(rest) = after(text, b"14 TooManyThreads ") {
        let most = count(rest)?;
        return if most == 256 {
            Some(Refusal::TooManyThreads { most })
        } else {
            None
        };
    }
    seat_refusal(text)
}

/// A refusal for what stands on a scheduler.
#[tactic(auto, unfolding(hls_report_text::specs::Inside::Reading::seat_refusal_at))]
fn seat_refusal(text: &[u8]) -> Option<Refusal>
    ensures read { result ≡ seat_refusal_at text.now }
    ensures found { IfSome result (λ r. IsRefusal r × (text.now ≡ refusal_text r)) }
{
    if let Some(rest) = after(text, b"15 NotEmpty ") {
        return not_empty(rest);
    }
    if let Some(rest) = after(text, b"16 TermsUnfit ") {
        let name = name(rest)?;
        return Some(Refusal::TermsUnfit { name });
    }
    if let Some(rest) = after(text, b"17 PriorityTaken ") {
        let priority = count(rest)?;
        return Some(Refusal::PriorityTaken { priority });
    }
    if let Some(rest) = after(text, b"18 SeatsFull ") {
        return seats_full(rest);
    }
    if let Some(rest) = after(text, b"19 Cycle ") {
        let name = name(rest)?;
        return Some(Refusal::Cycle { name });
    }
    late_refusal(text)
}

/// A refusal for the whole hierarchy, for room, or for want of a derivation.
#[tactic(auto, unfolding(hls_report_text::specs::Inside::Reading::late_refusal_at))]
fn late_refusal(text: &[u8]) -> Option<Refusal>
    ensures read { result ≡ late_refusal_at text.now }
    ensures found { IfSome result (λ r. IsRefusal r × (text.now ≡ refusal_text r)) }
{
    if let Some(rest) = after(text, b"20 TooDeep ") {
        let level = count(rest)?;
        return Some(Refusal::TooDeep { level });
    }
    if let Some(rest) = after(text, b"21 TooManyShares ") {
        let count = count(rest)?;
        return Some(Refusal::TooManyShares { count });
    }
    if let Some(rest) = after(text, b"22 KitEmpty ") {
        return kit_empty(rest);
    }
    if let Some(rest) = after(text, b"23 NoRoom ") {
        return no_room(rest);
    }
    no_derivation(after(text, b"24 NoDerivation ")?)
}

fn not_empty(text: &[u8]) -> Option<Refusal>
    ensures read { result ≡ not_empty_at text.now }
    ensures found { IfSome result (λ r. IsRefusal r × (codes "15 NotEmpty " ++ text.now ≡ refusal_text r)) }
{
    let (front, rest) = cut(text, b' ')?;
    let name = name(front)?;
    let seats = count(rest)?;
    Some(Refusal::NotEmpty { name, seats })
}

fn seats_full(text: &[u8]) -> Option<Refusal>
    ensures read { result ≡ seats_full_at text.now }
    ensures found { IfSome result (λ r. IsRefusal r × (codes "18 SeatsFull " ++ text.now ≡ refusal_text r)) }
{
    let (front, rest) = cut(text, b' ')?;
    let name = place(front)?;
    let seats = count(rest)?;
    Some(Refusal::SeatsFull { name, seats })
}

fn kit_empty(text: &[u8]) -> Option<Refusal>
    ensures read { result ≡ kit_empty_at text.now }
    ensures found { IfSome result (λ r. IsRefusal r × (codes "22 KitEmpty " ++ text.now ≡ refusal_text r)) }
{
    let (front, rest) = cut(text, b' ')?;
    let kind = kind(front)?;
    let used = count(rest)?;
    Some(Refusal::KitEmpty { kind, used })
}

fn no_room(text: &[u8]) -> Option<Refusal>
    ensures read { result ≡ no_room_at text.now }
    ensures found { IfSome result (λ r. IsRefusal r × (codes "23 NoRoom " ++ text.now ≡ refusal_text r)) }
{
    let (front, rest) = cut(text, b' ')?;
    let free = decimal_number(front)?;
    let asked = decimal_number(rest)?;
    Some(Refusal::NoRoom { free, asked })
}

fn no_derivation(text: &[u8]) -> Option<Refusal>
    ensures read { result ≡ no_derivation_at text.now }
    ensures found { IfSome result (λ r.
        IsRefusal r × (codes "24 NoDerivation " ++ text.now ≡ refusal_text r)) }
{
    let (front, rest) = cut(text, b' ')?;
    let name = name(front)?;
    let depth = digit(rest, 7)?;
    Some(Refusal::NoDerivation { name, depth })
}
