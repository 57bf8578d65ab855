// How long schedulers stand.
ghost use Rattle.std.specs.Prelude.{◌≡◌};
ghost use Rattle.hls_kinds.specs.Stands.{stands_idle};

use hls_chron::Config;

/// Whether a scheduler with this configuration stands always while it is not granted: what it asks, and whom it would
/// serve, changes by no tick then.
pub fn stands_idle(config: &Config) -> bool
    ensures { result ≡ stands_idle config.now }
{
    match *config {
        Config::Cpu => true,
        Config::Fp => true,
        Config::Edf => false,
        Config::Sfq { .. } => true,
        Config::Rr { .. } => true,
        Config::Wheel { .. } => false,
        Config::Join { .. } => true,
    }
}
