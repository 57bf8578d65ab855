// Cuts of ticks.
ghost use Rattle.hls_chron.specs.Ranges.{longest_horizon};
ghost use Rattle.std.specs.Prelude.{◌≤◌, ◌<◌};

/// The ticks from one on and before another, cut before the one at an offset and every so many ticks behind it.
#[derive(Clone, Copy)]
pub(crate) struct Cut {
    pub(crate) lo: u32,
    pub(crate) hi: u32,
    pub(crate) offset: u32,
    pub(crate) period: u32,
    pub(crate) ghost order: { lo ≤ hi },
    pub(crate) ghost few: { hi ≤ longest_horizon },
    pub(crate) ghost some: { 1 ≤ period },
    pub(crate) ghost small: { period ≤ 20000 },
    pub(crate) ghost within: { offset < period },
}

/// The ticks from one on and before another, at least one.
#[derive(Clone, Copy)]
pub(crate) struct Window {
    pub(crate) lo: u32,
    pub(crate) hi: u32,
    pub(crate) ghost some: { lo < hi },
    pub(crate) ghost few: { hi ≤ longest_horizon },
}

/// A reservation by blocks: where it is hard, at most so many of the ticks of a period.
#[derive(Clone, Copy)]
pub(crate) struct Blocks {
    pub(crate) hard: bool,
    pub(crate) most: u32,
    pub(crate) period: u32,
    pub(crate) ghost long: { 1 ≤ period },
    pub(crate) ghost small: { period ≤ 20000 },
}
