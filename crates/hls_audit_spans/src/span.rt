// Ticks in a row.
ghost use Rattle.std.specs.Prelude.{◌≡◌, ◌+◌, ◌-◌, ◌<◌, ◌≤◌, Some, None, min};

/// The ticks from one on and before another. Of the ticks before it so many are in no span.
#[derive(Clone, Copy, Debug, PartialEq, Eq)]
pub struct Span {
    pub(crate) from: u32,
    pub(crate) until: u32,
    pub(crate) idle: u32,
}

impl Span {
    /// How many ticks are in earlier spans.
    pub(crate) fn earlier(&self) -> u32
        ensures { result ≡ self.now.from - self.now.idle }
    {
        self.from.saturating_sub(self.idle)
    }

    /// How many ticks are in this span and earlier ones.
    pub(crate) fn so_far(&self) -> u32
        ensures { result ≡ self.now.until - self.now.idle }
    {
        self.until.saturating_sub(self.idle)
    }

    /// How many ticks before one are in this span or an earlier one.
    pub(crate) fn before(&self, tick: u32) -> u32
        ensures { result ≡ min tick self.now.until - self.now.idle }
    {
        tick.min(self.until).saturating_sub(self.idle)
    }
}
