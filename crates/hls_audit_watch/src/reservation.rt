// So many ticks of so many.
ghost use Rattle.std.specs.Prelude.{◌≤◌, ◌↔◌, IsTrue};
ghost use Rattle.hls_guarantee.specs.Limits.{IsReservation};
ghost use Rattle.hls_guarantee.specs.Satisfaction.{IsReserved};

/// `x` of `y` ticks, and where it is hard no more.
#[derive(Clone, Copy)]
pub(crate) struct Reservation {
    pub(crate) hard: bool,
    pub(crate) x: u32,
    pub(crate) y: u32,
}

impl Reservation {
    /// Whether of `n` ticks, so many of them served, enough are, and where it is hard not too many.
    pub(crate) fn is_met(&self, n: u32, got: u32) -> bool
        requires range { IsReservation self.now.x self.now.y }
        requires n { n ≤ 20000 }
        requires got { got ≤ 20000 }
        ensures { IsTrue result ↔ IsReserved self.now.hard self.now.x self.now.y n got }
    {
        self.x + n <= self.y + got && (!self.hard || got <= self.x)
    }
}
