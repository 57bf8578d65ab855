// Whether numbers are in their ranges.
ghost use Rattle.std.specs.Prelude.{◌≡◌, true};
ghost use Rattle.hls_chron.specs.Ranges.{ConfigInRange, TermsInRange};
ghost use Rattle.hls_chron.specs.Kinds as kinds;

use hls_chron::{Config, Sharing, Terms};

/// Whether the numbers of a configuration are in their ranges.
pub fn config_in_range(config: &Config) -> bool
    ensures { result ≡ true → ConfigInRange config.now }
{
    if let Some(sharing) = config.sharing() {
        return sharing_in_range(&sharing);
    }
    match *config {
        Config::Rr { quantum } => 1 <= quantum && quantum <= 100,
        Config::Wheel { frame } => 1 <= frame && frame <= 1000,
        Config::Join { ports } => 2 <= ports && ports <= 4,
        _ => true,
    }
}

fn sharing_in_range(sharing: &Sharing) -> bool
    ensures { result ≡ true → ConfigInRange (kinds.by_shares sharing.now) }
{
    (1 <= sharing.total && sharing.total <= 100)
        && (1 <= sharing.most && sharing.most <= 20)
        && (1 <= sharing.quantum && sharing.quantum <= 100)
}

/// Whether the numbers of terms are in their ranges.
pub fn terms_in_range(terms: &Terms) -> bool
    ensures { result ≡ true → TermsInRange terms.now }
{
    match *terms {
        Terms::Prio(priority) => priority <= 31,
        Terms::Res { x, y, .. } => 1 <= x && x <= y && y <= 10_000,
        Terms::Weight(weight) => 1 <= weight && weight <= 20,
        Terms::Slots(places) => 1 <= places && places <= 1000,
        _ => true,
    }
}

/// How many ports a scheduler has.
pub fn port_count(config: &Config) -> usize
    ensures { result ≡ kinds.port_count config.now }
{
    match *config {
        Config::Join { ports } => usize::from(ports),
        _ => 1,
    }
}
