// Reading a line.
ghost use Rattle.hls_chron.specs.Ranges.{longest_horizon};
ghost use Rattle.std.specs.Prelude.{◌≡◌, ◌≤◌, ◌<◌, ◌^◌, ◌++◌, ◌∷◌, codes, decimal, Some, IfSome, IfOk, ℕ};
ghost use Rattle.std.specs.Prelude.{IsTrue, ◌↔◌};
ghost use Rattle.hls_guarantee.specs.Limits.{IsValid};
ghost use Rattle.hls_guarantee.specs.Spelling.{spelling};
ghost use Rattle.hls_chron.specs.Name.{IsName};
ghost use Rattle.hls_text.specs.Options.{Gives};
ghost use Rattle.hls_scenario.specs.Grammar.{IsCommand};
ghost use Rattle.hls_report_text.specs.ReportText.{two_words, item_text, seat_text, span_text, ticks_text};
ghost use Rattle.hls_report_text.specs.ReportText.{account_text};
ghost use Rattle.hls_report_text.specs.WellFormed.{IsSeated, IsAccount};
ghost use Rattle.hls_report_text.specs.Inside.Reading.{seat_front_at, span_at, spanned_at, account_front_at};
ghost use Rattle.hls_report_text.specs.Inside.Reading.{ticks_at};
ghost use Rattle.hls_report.specs.Inside.Rests.{IsNext};

use crate::words::{count, digit, name};
use hls_chron::Name;
use hls_derive::{guarantee, read_derivation};
use hls_guarantee::Guarantee;
use hls_lang::{Item, read_item};
use hls_report_text::{Account, Seated, put_command};
use hls_text::{after, cut};
use std::alloc::{AllocError, Global};

/// The item of this version that a line spells, of a tick from the last one on and below the horizon.
pub fn item(
    alloc: Global,
    version: u8,
    line: &[u8],
    horizon: u32,
    last: u32,
) -> Result<Option<Item>, AllocError>
    requires { horizon ≤ longest_horizon }
    ensures found { IfOk result (λ found.
        IfSome found (λ item. IsNext version horizon last item × (line.now ≡ item_text version item))) }
    ensures exact { IfOk result (λ found.
        (item : Item) → IsNext version horizon last item → line.now ≡ item_text version item →
        found ≡ Some item) }
{
    match read_item(alloc, version, line, horizon, last)? {
        Some(item) => {
            if spells(alloc, version, line, &item)? {
                Ok(Some(item))
            } else {
                Ok(None)
            }
        }
        None => Ok(None),
    }
}

fn spells(alloc: Global, version: u8, line: &[u8], item: &Item) -> Result<bool, AllocError>
    requires { IsCommand version item.now.command }
    ensures { IfOk result (λ is. IsTrue is ↔ (line.now ≡ item_text version item.now)) }
{
    let mut text = Vec::with_capacity(alloc, line.len())?;
    put_command(&mut text, version, item.tick, &item.command)?;
    Ok(line == text.as_slice())
}

/// The name and the port of a seat, and what stands behind them.
#[derive(Debug, Drop)]
struct SeatFront<'a> {
    name: Name,
    port: u8,
    rest: &'a [u8],
}

#[tactic(auto, unfolding(hls_report_text::specs::Inside::Reading::seat_front_at))]
fn seat_front(line: &[u8]) -> Option<SeatFront<'_>>
    ensures read { Gives (λ p. (p.name, p.port, p.rest.now)) result (seat_front_at line.now) }
    ensures found { IfSome result (λ p. IsName p.name × (p.port ≤ 3)
        × (line.now ≡ codes "by " ++ two_words p.name (two_words (decimal p.port) p.rest.now))) }
{
    let rest = after(line, b"by ")?;
    let (front, rest) = cut(rest, b' ')?;
    let name = name(front)?;
    let (front, rest) = cut(rest, b' ')?;
    let port = digit(front, 4)?;
    Some(SeatFront { name, port, rest })
}

/// The seat that a line spells.
pub fn seat(alloc: Global, line: &[u8]) -> Result<Option<Seated>, AllocError>
    ensures found { IfOk result (λ found. IfSome found (λ s. IsSeated s × (line.now ≡ seat_text s))) }
    ensures exact { IfOk result (λ found.
        (s : Seated) → IsSeated s → line.now ≡ seat_text s → found ≡ Some s) }
{
    match seat_front(line) {
        Some(front) => match read_derivation(alloc, front.rest)? {
            Some(derivation) => Ok(Some(Seated {
                name: front.name,
                port: front.port,
                derivation,
            })),
            None => Ok(None),
        },
        None => Ok(None),
    }
}

#[tactic(auto, unfolding(hls_report_text::specs::Inside::Reading::span_at))]
fn span(text: &[u8]) -> Option<(u32, u32)>
    ensures read { result ≡ span_at text.now }
    ensures found { IfSome result (λ p. text.now ≡ span_text p.0 p.1) }
{
    let (front, rest) = cut(text, b'.')?;
    let from = count(front)?;
    let rest = after(rest, b".")?;
    let to = count(rest)?;
    Some((from, to))
}

/// A span, and what stands behind it and a space.
#[tactic(auto, unfolding(hls_report_text::specs::Inside::Reading::spanned_at))]
pub fn spanned(text: &[u8]) -> Option<(u32, u32, &[u8])>
    ensures read { Gives (λ p. (p.0, p.1, p.2.now)) result (spanned_at text.now) }
    ensures found { IfSome result (λ p. text.now ≡ two_words (span_text p.0 p.1) p.2.now) }
{
    let (front, rest) = cut(text, b' ')?;
    let (from, to) = span(front)?;
    Some((from, to, rest))
}

#[tactic(auto, unfolding(hls_report_text::specs::Inside::Reading::ticks_at))]
fn ticks(text: &[u8]) -> Option<(u32, u32)>
    ensures read { result ≡ ticks_at text.now }
    ensures found { IfSome result (λ p. text.now ≡ ticks_text p.0 p.1) }
{
    let rest = after(text, b" ready ")?;
    let (front, rest) = cut(rest, b' ')?;
    let ready = count(front)?;
    let rest = after(rest, b"served ")?;
    let served = count(rest)?;
    Some((ready, served))
}

/// The name and the span of an account, and what stands behind them.
#[derive(Debug, Drop)]
struct AccountFront<'a> {
    name: Name,
    from: u32,
    to: u32,
    rest: &'a [u8],
}

fn account_front(line: &[u8]) -> Option<AccountFront<'_>>
    ensures read { Gives (λ p. (p.name, p.from, p.to, p.rest.now)) result (account_front_at line.now) }
    ensures found { IfSome result (λ p. IsName p.name
        × (line.now ≡ two_words p.name (two_words (span_text p.from p.to) p.rest.now))) }
{
    let (front, rest) = cut(line, b' ')?;
    let name = name(front)?;
    let (from, to, rest) = spanned(rest)?;
    Some(AccountFront {
        name,
        from,
        to,
        rest,
    })
}

/// The guarantee and the ticks of an account.
fn account_back(text: &[u8]) -> Option<(Guarantee, u32, u32)>
    ensures found { IfSome result (λ p. IsValid p.0 × (text.now ≡ spelling p.0 ++ ticks_text p.1 p.2)) }
    ensures exact { (g : Guarantee) (r s : ℕ) → IsValid g → r < 2 ^ 32 → s < 2 ^ 32 →
        text.now ≡ spelling g ++ ticks_text r s → result ≡ Some (g, r, s) }
{
    let Some((kept, rest)) = guarantee(text) else {
        return None;
    };
    match ticks(rest) {
        Some((ready, served)) => Some((kept, ready, served)),
        None => None,
    }
}

/// The account that a line spells.
pub fn account(line: &[u8], horizon: u32) -> Option<Account>
    requires { horizon ≤ longest_horizon }
    ensures found { IfSome result (λ a. IsAccount horizon a × (line.now ≡ account_text a)) }
    ensures exact { (a : Account) → IsAccount horizon a → line.now ≡ account_text a → result ≡ Some a }
{
    match account_front(line) {
        Some(front) => account_of(front.name, front.from, front.to, front.rest, horizon),
        None => None,
    }
}

/// The account of a name and a span, with what stands behind them.
fn account_of(name: Name, from: u32, to: u32, rest: &[u8], horizon: u32) -> Option<Account>
    requires { IsName name }
    ensures found { IfSome result (λ a. IsAccount horizon a × (a.name ≡ name) × (a.from ≡ from) × (a.to ≡ to)
        × (rest.now ≡ spelling a.kept ++ ticks_text a.ready a.served)) }
    ensures exact { (a : Account) → IsAccount horizon a → a.name ≡ name → a.from ≡ from → a.to ≡ to →
        rest.now ≡ spelling a.kept ++ ticks_text a.ready a.served → result ≡ Some a }
{
    if from > to || to >= horizon {
        return None;
    }
    match account_back(rest) {
        Some((kept, ready, served)) => Some(Account {
            name,
            from,
            to,
            kept,
            ready,
            served,
        }),
        None => None,
    }
}
