//! What holds of scales: each function's contract is a law, and its body does nothing.

ghost use Rattle.std.specs.Prelude.{◌≡◌, ◌≤◌, ◌<◌, ◌↔◌, ℕ};
ghost use Rattle.hls_view_scale.specs.Heights.{height};

/// A bar is nothing exactly where its fact never holds.
pub fn none_for_nothing()
    ensures { (some all full : ℕ) → height some all full ≡ 0 ↔ some ≡ 0 }
{}

/// A bar is full exactly where its fact always holds.
pub fn full_for_all()
    ensures { (some all full : ℕ) → some ≤ all → 0 < all → 1 < full → height some all full ≡ full ↔ some ≡ all }
{}

/// A bar does not fall as its fact holds more often.
pub fn never_falls()
    ensures { (some more all full : ℕ) → some ≤ more → 0 < all → height some all full ≤ height more all full }
{}

/// No bar is more than full.
pub fn at_most_full()
    ensures { (some all full : ℕ) → some ≤ all → 0 < all → 0 < full → height some all full ≤ full }
{}
