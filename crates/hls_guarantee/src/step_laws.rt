//! What holds of the steps at schedulers: each function's contract is a law, and its body does nothing.

ghost use Rattle.std.specs.Prelude.{◌≡◌, ◌≢◌, ℕ, ◌*◌, ◌-◌, ◌≤◌, ◌↔◌};
ghost use Rattle.hls_frac.specs.Frac.{IsQuotient, IsSum, IsProduct};
ghost use Rattle.hls_chron.specs.Kinds.{kind_of, terms_kind};
ghost use Rattle.hls_chron.specs.Ranges.{ConfigInRange};
ghost use Rattle.hls_guarantee.specs.Conversions.{Leads};
ghost use Rattle.hls_guarantee.specs.Steps.{IsFairShare, IsTurnShare, LendsByTerms, LendsThrough};

use crate::{Guarantee, RuleName};
use hls_chron::{Config, Sharing, Terms};
use hls_frac::Frac;

/// The processor lends every tick to its one seat, and nothing to any other.
pub fn processor_lends_every_tick(terms: Terms, g: Guarantee, h: Guarantee)
    ensures { (port : ℕ) → LendsThrough Config.Cpu terms port g h ↔
        ((terms ≡ Terms.Cpu) × (port ≡ 0) × (g ≡ Guarantee.All) × (h ≡ Guarantee.All)) }
{}

/// On terms that are not of its kind a scheduler promises nothing.
pub fn other_terms_lend_nothing(config: Config, terms: Terms, g: Guarantee, h: Guarantee)
    requires { kind_of config ≢ terms_kind terms }
    ensures { (port : ℕ) → LendsThrough config terms port g h → h ≡ Guarantee.Null }
{}

/// Below fixed priority the seat of priority number 0 alone is lent more than nothing, and it is lent what the
/// scheduler has.
pub fn first_priority_has_it_all(priority: u32, g: Guarantee, h: Guarantee)
    requires { h ≢ Guarantee.Null }
    ensures { (port : ℕ) → LendsThrough Config.Fp (Terms.Prio priority) port g h →
        ((priority ≡ 0) × (h ≡ g)) }
{}

/// A turn in a round is lent a part of a share, and of anything else nothing.
pub fn turns_lend_shares(quantum: u32, terms: Terms, g: Guarantee, h: Guarantee)
    requires { h ≢ Guarantee.Null }
    ensures { (port : ℕ) → LendsThrough (Config.Rr quantum) terms port g h →
        (s d rate error : Frac) × (terms ≡ Terms.Turn) × (g ≡ Guarantee.Psbe s d) × (h ≡ Guarantee.Psbe rate error)
        × IsTurnShare quantum s d rate error }
{}

/// Terms of a scheduler's kind make one guarantee of what the scheduler has.
pub fn terms_lend_one_guarantee(
    config: Config,
    terms: Terms,
    g: Guarantee,
    h: Guarantee,
    other: Guarantee,
)
    requires { ConfigInRange config }
    ensures { LendsByTerms config terms g h → LendsByTerms config terms g other → h ≡ other }
{}

/// A fair share is a lower share that starts no earlier, as by `R1`.
pub fn fair_shares_are_lesser(
    sharing: Sharing,
    weight: u32,
    s: Frac,
    d: Frac,
    rate: Frac,
    error: Frac,
)
    requires weight { 1 ≤ weight }
    requires share { IsFairShare sharing weight s d rate error }
    ensures { Leads RuleName.R1 (Guarantee.Psbe s d) (Guarantee.Psbe rate error) }
{}

/// The share of a turn is a lower share that starts no earlier, as by `R1`.
pub fn shares_of_turns_are_lesser(quantum: u32, s: Frac, d: Frac, rate: Frac, error: Frac)
    requires { IsTurnShare quantum s d rate error }
    ensures { Leads RuleName.R1 (Guarantee.Psbe s d) (Guarantee.Psbe rate error) }
{}

/// A seat that is alone, with the whole weight, has the whole share.
pub fn sole_weight_has_the_share(sharing: Sharing, s: Frac, d: Frac)
    requires some { 1 ≤ sharing.total }
    requires sole { sharing.most ≡ 1 }
    ensures { IsFairShare sharing sharing.total s d s d }
{}

/// The rate is `s * part`, and the error `(d + others) * part + rest`, where `part` is `weight / total`,
/// `others` is `(most - 1) * quantum`, and `rest` is `(total - weight) * quantum / total`.
pub fn fair_shares_are_sums_of_products(
    sharing: Sharing,
    weight: u32,
    s: Frac,
    d: Frac,
    part: Frac,
    others: Frac,
    waiting: Frac,
    slowed: Frac,
    rest: Frac,
    rate: Frac,
    error: Frac,
)
    requires most { 1 ≤ sharing.most }
    requires weight { 1 ≤ weight }
    requires total { weight ≤ sharing.total }
    requires part { IsQuotient part weight sharing.total }
    requires others { IsQuotient others ((sharing.most - 1) * sharing.quantum) 1 }
    requires waiting { IsSum waiting d others }
    requires slowed { IsProduct slowed waiting part }
    requires rest { IsQuotient rest ((sharing.total - weight) * sharing.quantum) sharing.total }
    ensures { IsFairShare sharing weight s d rate error ↔
        (IsProduct rate s part × IsSum error slowed rest) }
{}
