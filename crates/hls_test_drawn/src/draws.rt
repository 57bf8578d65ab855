// Numbers that are drawn, each from the one before.
ghost use Rattle.std.specs.Prelude.{◌<◌};

/// The state of the draws.
#[derive(Clone, Copy, Debug)]
pub struct Draws {
    state: u32,
}

impl Draws {
    pub fn new(number: u32) -> Draws {
        Draws { state: number }
    }

    /// Draws a number below a bound.
    pub fn draw(&mut self, bound: u32) -> u32
        requires { 0 < bound }
        ensures { result < bound }
    {
        let next = (u64::from(self.state) * 1_103_515_245 + 12_345) % 2_147_483_648;
        self.state = next as u32;
        self.state / 65_536 % bound
    }
}
