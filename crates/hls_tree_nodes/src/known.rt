// What a pass has found, for the next one.
ghost use Rattle.std.specs.Prelude.{◌≡◌, ◌≢◌, ◌<◌, ℕ};
ghost use Rattle.hls_tree_nodes.specs.Known.{has_bit};

/// What the last pass found of the schedulers, by their places in the list: which of the first 64 are at each
/// level, a bit for each, and which of them told that they ask.
#[derive(Clone, Copy, Debug)]
pub struct Known {
    pub places: [u64; 10],
    pub voices: u64,
}

/// The bit of a place.
pub fn has_bit(bits: u64, at: u32) -> bool
    requires { at < 64 }
    ensures { result ≡ has_bit bits at }
{
    (bits >> at) & 1 == 1
}

/// These bits, but for that of a place.
pub fn with_bit(bits: u64, at: u32, to: bool) -> u64
    requires { at < 64 }
    ensures here { has_bit result at ≡ to }
    ensures others { (k : ℕ) → k < 64 → k ≢ at → has_bit result k ≡ has_bit bits k }
{
    if to {
        bits | 1 << at
    } else {
        bits & !(1 << at)
    }
}
