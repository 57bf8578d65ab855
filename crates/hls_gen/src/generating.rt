// The scenario of a number.
ghost use Rattle.std.specs.Prelude.{◌≡◌, ◌≤◌, ◌*◌, IfOk, OnOk};
ghost use Rattle.hls_scenario.specs.Grammar.{IsScenario};
ghost use Rattle.hls_gen.specs.Generated.{generated, opening, after_rounds, three_tenths, with_round, with_schedulers};
ghost use Rattle.hls_gen.specs.Generated.{with_exchange, with_reservations, with_weights, with_turns};
ghost use Rattle.hls_gen.specs.Inside.Making.{made_of};

use crate::draws::Draws;
use crate::making::{Making, named, under};
use hls_chron::{Config, List, Terms};
use hls_frac::Frac;
use hls_guarantee::Guarantee;
use hls_scenario::{Command, Perch, Scenario, Spot};
use std::alloc::{AllocError, Global};

/// How many ticks the scenario has.
const HORIZON: u32 = 20_000;

/// How many rounds there are.
const ROUNDS: u32 = 1_999;

/// The scenario of a number: some two thousand commands over 20,000 ticks, on all kinds of schedulers but wheels and
/// joins.
///
/// # Errors
/// Returns `AllocError` for want of memory.
pub fn generate(alloc: Global, number: u32) -> Result<Scenario, AllocError>
    ensures generated { IfOk result (λ scenario. scenario ≡ generated number) }
    ensures within { IfOk result (λ scenario. IsScenario scenario) }
{
    match make(alloc, number) {
        Ok(scenario) => Ok(scenario),
        Err(error) => Err(error),
    }
}

#[tactic(auto, unfolding(crate::specs::Generated::generated))]
fn make(alloc: Global, number: u32) -> Result<Scenario, AllocError>
    ensures { IfOk result (λ scenario. scenario ≡ generated number) }
{
    let mut making = Making {
        items: Vec::new(alloc),
        draws: Draws::new(number),
    };
    making.put_schedulers(alloc)?;
    making.put_reservations()?;
    making.put_weights()?;
    making.put_turns()?;
    making.put_rounds()?;
    Ok(Scenario {
        version: 1,
        horizon: HORIZON,
        depth: Some(3),
        items: List::of(making.items),
    })
}

/// Three tenths of the ticks, with an error of 42.
fn three_tenths() -> Guarantee
    ensures { result ≡ three_tenths }
{
    let Some(s) = Frac::make(3, 10) else {
        unreachable!()
    };
    let Some(d) = Frac::make(42, 1) else {
        unreachable!()
    };
    Guarantee::Psbe { s, d }
}

impl Making {
    #[tactic(auto, unfolding(crate::specs::Generated::with_schedulers))]
    fn put_schedulers(&mut self, alloc: Global) -> Result<(), AllocError>
        ensures { OnOk result (made_of self.new ≡ with_schedulers (made_of self.old)) }
    {
        let root = named(b"root");
        let e = named(b"e");
        let at_processor = Perch {
            spot: Spot::Cpu,
            want: Guarantee::All,
        };
        let first = under(root, Terms::Prio(0), Guarantee::All);
        let second = under(root, Terms::Prio(1), Guarantee::Null);
        let reserved = Terms::Res {
            hard: true,
            x: 30,
            y: 100,
        };
        let share = under(e, reserved, three_tenths());
        let queue = Config::fair(10, 5);
        self.put_load(alloc, root, Config::Fp, at_processor)?;
        self.put_load(alloc, e, Config::Edf, first)?;
        self.put_load(alloc, named(b"r"), Config::Rr { quantum: 5 }, second)?;
        self.put_load(alloc, named(b"s"), queue, share)
    }

    #[tactic(auto, unfolding(crate::specs::Generated::with_reservations))]
    fn put_reservations(&mut self) -> Result<(), AllocError>
        ensures { OnOk result (made_of self.new ≡ with_reservations (made_of self.old)) }
    {
        self.put_reserved(0, named(b"h0"))?;
        self.put_reserved(0, named(b"h1"))?;
        self.put_reserved(0, named(b"h2"))?;
        self.put_reserved(0, named(b"h3"))
    }

    #[tactic(auto, unfolding(crate::specs::Generated::with_weights))]
    fn put_weights(&mut self) -> Result<(), AllocError>
        ensures { OnOk result (made_of self.new ≡ with_weights (made_of self.old)) }
    {
        self.put_weighted(named(b"w0"))?;
        self.put_weighted(named(b"w1"))?;
        self.put_weighted(named(b"w2"))
    }

    #[tactic(auto, unfolding(crate::specs::Generated::with_turns))]
    fn put_turns(&mut self) -> Result<(), AllocError>
        ensures { OnOk result (made_of self.new ≡ with_turns (made_of self.old)) }
    {
        self.put_turned(named(b"b0"))?;
        self.put_turned(named(b"b1"))
    }

    /// Ends the first reservation, puts another in its place, and tries to move all of them behind the rest.
    #[tactic(auto, unfolding(crate::specs::Generated::with_exchange))]
    fn put_exchange(&mut self, tick: u32) -> Result<(), AllocError>
        ensures { OnOk result (made_of self.new ≡ with_exchange tick (made_of self.old)) }
    {
        let name = named(b"h0");
        self.put(tick, Command::End { name })?;
        self.put_reserved(tick, name)?;
        let perch = under(named(b"root"), Terms::Prio(2), Guarantee::Null);
        self.put(
            tick,
            Command::Move {
                name: named(b"e"),
                perch,
            },
        )
    }

    #[tactic(auto, unfolding(crate::specs::Generated::with_round))]
    fn put_round(&mut self, tick: u32) -> Result<(), AllocError>
        ensures { OnOk result (made_of self.new ≡ with_round tick (made_of self.old)) }
    {
        if tick % 2_000 == 0 {
            self.put_exchange(tick)?;
        }
        self.put_wake(tick)
    }

    fn put_rounds(&mut self) -> Result<(), AllocError>
        ensures { OnOk result (made_of self.new ≡ after_rounds 1999 (made_of self.old)) }
    {
        for round in 0..ROUNDS {
            self.put_round(10 * (round + 1))?;
        }
        Ok(())
    }
}
