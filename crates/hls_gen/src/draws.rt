// Numbers that are drawn.
ghost use Rattle.std.specs.Prelude.{◌≡◌, ◌<◌};
ghost use Rattle.hls_gen.specs.Draws.{first_state, next_state, drawn};

/// The state of the draws, which the next number comes from.
#[derive(Clone, Copy, Debug)]
pub(crate) struct Draws {
    pub(crate) state: u32,
}

impl Draws {
    pub(crate) fn new(number: u32) -> Draws
        ensures { result.state ≡ first_state number }
    {
        Draws {
            state: number % 2_147_483_648,
        }
    }

    /// Draws a number below a bound.
    pub(crate) fn draw(&mut self, bound: u32) -> u32
        requires { 0 < bound }
        ensures state { self.new.state ≡ next_state self.old.state }
        ensures value { result ≡ drawn self.new.state bound }
        ensures below { result < bound }
    {
        let next = (u64::from(self.state) * 1_103_515_245 + 12_345) % 2_147_483_648;
        self.state = next as u32;
        self.state / 65_536 % bound
    }
}
