// What the ticks of a part and its service are measured by.
ghost use Rattle.std.specs.Prelude.{◌≡◌, ◌≤◌, ◌^◌};

use crate::margin::Part;

/// A number that grows evenly: so much to begin with, and so much more for each tick and for each served one.
#[derive(Clone, Copy, Debug, PartialEq, Eq)]
pub struct Line {
    pub base: u128,
    pub tick: u128,
    pub got: u128,
    pub ghost base_small: { base ≤ 10 ^ 28 },
    pub ghost tick_small: { tick ≤ 10 ^ 28 },
    pub ghost got_small: { got ≤ 10 ^ 28 },
}

/// What a part has, and what it is to have, as lines, in parts of which so many are one tick.
#[derive(Clone, Copy, Debug, PartialEq, Eq)]
pub struct Scale {
    pub has: Line,
    pub wants: Line,
    pub unit: u128,
    pub ghost some: { 1 ≤ unit },
    pub ghost unit_small: { unit ≤ 10 ^ 28 },
}

impl Line {
    ghost use Rattle.hls_view_margins.specs.Scales.{at};

    /// The number for so many ticks and so much service.
    pub(crate) fn at(&self, ticks: u32, got: u32) -> u128
        ensures value { result ≡ at self.now ticks got }
        ensures small { result ≤ 10 ^ 38 }
    {
        self.base + self.tick * u128::from(ticks) + self.got * u128::from(got)
    }
}
