// The first terms, in the order of what they cost others, with which a guarantee can be had.
ghost use Rattle.std.specs.Prelude.{◌≡◌, ◌≢◌, ◌≤◌, ◌<◌, ◌↔◌, ℕ, All, Contains, IfOk, IsTrue, Option, Some, None, List};
ghost use Rattle.std.specs.Prelude.{option_copied, true};
ghost use Rattle.hls_chron.specs.Ranges.{ConfigInRange, TermsInRange};
ghost use Rattle.hls_guarantee.specs.declared.Guarantee.TheVariants.{Resb};
ghost use Rattle.hls_offer_lines.specs.Cost.{
  ArePeriods,
  CanAskTerms,
  IsFirstIfAny,
  IsFit,
  IsHadOn,
  IsPeriodOf,
};
ghost use Rattle.hls_offer_lines.specs.Inside.Places.{place_count, place_of};

use hls_chron::{Config, SLOTS, Terms};
use hls_derive::Place;
use hls_guarantee::Guarantee;
use hls_offer_best::{Budget, Need, Seat, cheapest};
use hls_offer_laws::laws::reservations_have_sizes;
use hls_rules::RuleBook;
use std::alloc::{AllocError, Global};

/// The longest period of a reservation, in ticks.
const LONGEST: u32 = 10_000;

/// What is asked of a scheduler: how it is configured, what its ports have, how many conversions there may be, and
/// the guarantee that is wanted.
#[derive(Clone, Copy)]
pub struct TermsAsked<'a> {
    pub config: Config,
    pub haves: &'a [Guarantee],
    pub depth: u8,
    pub wanted: Guarantee,
}

impl TermsAsked<'_> {
    /// Whether the guarantee can be had on these terms.
    fn is_had_on(&self, alloc: Global, book: &RuleBook, terms: Terms) -> Result<bool, AllocError>
        requires can { CanAskTerms self.now }
        requires range { TermsInRange terms }
        ensures { IfOk result (λ had. IsTrue had ↔ IsHadOn self.now terms) }
    {
        let seat = Seat {
            place: Place {
                config: self.config,
                terms,
            },
            haves: self.haves,
            depth: self.depth,
        };
        seat.offers(alloc, book, &self.wanted)
    }
}

/// The first terms, in the order of cost, on which the guarantee can be had. Reservations are of these periods, or of
/// any where no list is given.
///
/// # Errors
/// Returns `AllocError` for want of memory.
pub fn first_terms(
    alloc: Global,
    book: &RuleBook,
    asked: &TermsAsked<'_>,
    periods: Option<&[u32]>,
) -> Result<Option<Terms>, AllocError>
    requires can { CanAskTerms asked.now }
    requires periods { ArePeriods (option_copied periods) }
    ensures { IfOk result (λ first. IsFirstIfAny asked.now (option_copied periods.entry) first) }
{
    match asked.config {
        Config::Edf => first_reservation(alloc, book, asked, periods),
        Config::Cpu
        | Config::Fp
        | Config::Sfq { .. }
        | Config::Rr { .. }
        | Config::Wheel { .. }
        | Config::Join { .. } => first_place(alloc, book, asked),
    }
}

// ---- terms that are no reservation, place by place

fn first_place(
    alloc: Global,
    book: &RuleBook,
    asked: &TermsAsked<'_>,
) -> Result<Option<Terms>, AllocError>
    requires can { CanAskTerms asked.now }
    requires other { asked.now.config ≢ Config.Edf }
    ensures { (periods : Option (List ℕ)) → IfOk result (λ first. IsFirstIfAny asked.now periods first) }
{
    for at in 0..place_count(&asked.config) {
        let terms = terms_at(&asked.config, at);
        if asked.is_had_on(alloc, book, terms)? {
            return Ok(Some(terms));
        }
    }
    Ok(None)
}

/// How many terms there are, other than reservations.
fn place_count(config: &Config) -> u32
    ensures { result ≡ place_count config.now }
{
    if let Some(sharing) = config.sharing() {
        return sharing.total.min(20);
    }
    match config {
        Config::Fp => SLOTS,
        Config::Wheel { frame } => *frame,
        Config::Cpu | Config::Edf | Config::Sfq { .. } | Config::Rr { .. } | Config::Join { .. } =>
            1,
    }
}

/// The terms at a place in the order of cost.
fn terms_at(config: &Config, at: u32) -> Terms
    requires range { ConfigInRange config.now }
    requires other { config.now ≢ Config.Edf }
    requires there { at < place_count config.now }
    ensures fits { IsFit config.now None result }
    ensures there { place_of result ≡ at }
{
    match config {
        Config::Fp => Terms::Prio(31 - at),
        Config::Sfq { .. } => Terms::Weight(at + 1),
        Config::Wheel { .. } => Terms::Slots(at + 1),
        Config::Rr { .. } => Terms::Turn,
        Config::Join { .. } => Terms::Sole,
        Config::Cpu | Config::Edf => Terms::Cpu,
    }
}

// ---- reservations

fn first_reservation(
    alloc: Global,
    book: &RuleBook,
    asked: &TermsAsked<'_>,
    periods: Option<&[u32]>,
) -> Result<Option<Terms>, AllocError>
    requires can { CanAskTerms asked.now }
    requires edf { asked.now.config ≡ Config.Edf }
    requires periods { ArePeriods (option_copied periods) }
    ensures { IfOk result (λ first. IsFirstIfAny asked.now (option_copied periods.entry) first) }
{
    if let Guarantee::Resb { hard: true, x, y } = asked.wanted {
        return hard_reservation(alloc, book, asked, periods, Budget { x, y });
    }
    match periods {
        Some(periods) => cheapest_of(alloc, book, asked, periods),
        None => cheapest_of(alloc, book, asked, &all_periods(alloc)?),
    }
}

/// The reservation of these hard blocks for themselves, if it is of these periods and they can be had on it.
fn hard_reservation(
    alloc: Global,
    book: &RuleBook,
    asked: &TermsAsked<'_>,
    periods: Option<&[u32]>,
    blocks: Budget,
) -> Result<Option<Terms>, AllocError>
    requires can { CanAskTerms asked.now }
    requires edf { asked.now.config ≡ Config.Edf }
    requires wanted { asked.now.wanted ≡ Resb true blocks.x blocks.y }
    ensures { IfOk result (λ first. IsFirstIfAny asked.now (option_copied periods.entry) first) }
{
    reservations_have_sizes(asked.haves, asked.depth);
    let terms = Terms::Res {
        hard: true,
        x: blocks.x,
        y: blocks.y,
    };
    if is_asked(periods, blocks.y) && asked.is_had_on(alloc, book, terms)? {
        return Ok(Some(terms));
    }
    Ok(None)
}

/// Whether reservations may be of this period.
fn is_asked(periods: Option<&[u32]>, y: u32) -> bool
    ensures { IsTrue result ↔ ((y ≤ 10000) × IsPeriodOf (option_copied periods.entry) y) }
{
    y <= LONGEST
        && match periods {
            Some(periods) => periods.contains(&y),
            None => true,
        }
}

/// The cheapest reservation of these periods, where no hard blocks are wanted.
fn cheapest_of(
    alloc: Global,
    book: &RuleBook,
    asked: &TermsAsked<'_>,
    periods: &[u32],
) -> Result<Option<Terms>, AllocError>
    requires can { CanAskTerms asked.now }
    requires edf { asked.now.config ≡ Config.Edf }
    requires soft { (ticks period : ℕ) → asked.now.wanted ≢ Resb true ticks period }
    requires periods { ArePeriods (Some periods.now) }
    ensures { IfOk result (λ first. IsFirstIfAny asked.now (Some periods.now) first) }
{
    let need = Need {
        haves: asked.haves,
        depth: asked.depth,
        wanted: asked.wanted,
    };
    let Some(best) = cheapest(alloc, book, &need, periods)? else {
        return Ok(None);
    };
    Ok(Some(Terms::Res {
        hard: false,
        x: best.x,
        y: best.y,
    }))
}

/// Every period that a reservation may have.
fn all_periods(alloc: Global) -> Result<Vec<u32>, AllocError>
    ensures ranges { IfOk result (λ all. All (λ y. (1 ≤ y) × (y ≤ 10000)) all.items) }
    ensures each { IfOk result (λ all. (y : ℕ) → 1 ≤ y → y ≤ 10000 → Contains all.items y) }
{
    let mut all = Vec::new(alloc);
    for y in 1..LONGEST + 1 {
        all.push(y)?;
    }
    Ok(all)
}
