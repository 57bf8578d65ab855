// The room of a scheduler, and what is asked of it.
ghost use Rattle.std.specs.Prelude.{◌≡◌};
ghost use Rattle.hls_kinds.specs.Room.{room_total as total_of, room_asked as asked_of};

use hls_chron::{ALL_PARTS, Config, Terms, parts};

/// The room that a scheduler has in all: parts, weight or places; 0 for a kind whose seats use up none.
pub fn room_total(config: &Config) -> u128
    ensures { result ≡ total_of config.now }
{
    match *config {
        Config::Edf => u128::from(ALL_PARTS),
        Config::Sfq { total, .. } => u128::from(total),
        Config::Wheel { frame } => u128::from(frame),
        _ => 0,
    }
}

/// What a seat on these terms asks of the room of a scheduler.
pub fn room_asked(config: &Config, terms: &Terms) -> u128
    ensures { result ≡ asked_of config.now terms.now }
{
    match (*config, *terms) {
        (Config::Edf, Terms::Res { x, y, .. }) => parts(x, y),
        (Config::Sfq { .. }, Terms::Weight(weight)) => u128::from(weight),
        (Config::Wheel { .. }, Terms::Slots(places)) => u128::from(places),
        _ => 0,
    }
}
