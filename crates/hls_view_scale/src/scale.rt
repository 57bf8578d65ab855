// How ticks stand in columns.
ghost use Rattle.std.specs.Prelude.{◌≡◌, ◌<◌, ◌≤◌, ◌+◌, ◌-◌, ◌*◌, ◌/◌, ◌^◌};
ghost use Rattle.hls_view_scale.specs.Measures.{column_ticks, column_count, column_wide};

/// How the ticks of a picture stand in columns.
#[derive(Clone, Copy, Debug)]
pub struct Scale {
    /// The first tick shown.
    pub from: u32,
    /// The last tick shown.
    pub to: u32,
    /// How many ticks go into a column.
    pub ticks: u64,
    /// How many columns there are.
    pub columns: u64,
    /// How wide a column is.
    pub wide: u64,
    pub ghost ordered: { from ≤ to },
    pub ghost ticks_are: { ticks ≡ column_ticks from to },
    pub ghost columns_are: { columns ≡ column_count from to },
    pub ghost wide_is: { wide ≡ column_wide from to },
    pub ghost some: { 0 < ticks },
    pub ghost few: { ticks ≤ 10000000000 },
    pub ghost seen: { 0 < wide },
    pub ghost narrow: { wide ≤ 24 },
}

impl Scale {
    ghost use Rattle.hls_view_scale.specs.Columns.{offset, column_offset, column_from, ticks_in};

    /// How far right of the first tick a tick stands.
    pub fn offset(&self, tick: u64) -> u128
        ensures is { result ≡ offset self.now tick }
        ensures within { result < 2 ^ 70 }
    {
        let ticks = tick.saturating_sub(u64::from(self.from));
        u128::from(ticks) * u128::from(self.wide) / u128::from(self.ticks)
    }

    /// How far right of the first column a column stands, from 0.
    pub fn column_offset(&self, column: u64) -> u128
        ensures is { result ≡ column_offset self.now column }
        ensures within { result < 2 ^ 70 }
    {
        u128::from(column) * u128::from(self.wide)
    }

    /// How wide all columns are together.
    pub fn across(&self) -> u128
        ensures is { result ≡ column_offset self.now self.now.columns }
        ensures within { result < 2 ^ 70 }
    {
        self.column_offset(self.columns)
    }

    /// How many ticks a column has, from 0; none beyond the last.
    pub fn ticks_in(&self, column: u64) -> u64
        ensures { result ≡ ticks_in self.now column }
    {
        let shown = u128::from(self.to) + 1 - u128::from(self.from);
        let left = shown.saturating_sub(u128::from(column) * u128::from(self.ticks));
        left.min(u128::from(self.ticks)) as u64
    }

    /// The first tick of a column, from 0.
    pub fn column_from(&self, column: u64) -> u32
        requires { column < self.now.columns }
        ensures is { result ≡ column_from self.now column }
        ensures within { result + ticks_in self.now column ≤ self.now.to + 1 }
    {
        let before = u128::from(column) * u128::from(self.ticks);
        self.from + before as u32
    }
}
