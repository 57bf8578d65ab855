// Items that are made one by one.
ghost use Rattle.std.specs.Prelude.{◌≡◌, ◌<◌, ◌+◌, OnOk, Some, None, true};
ghost use Rattle.hls_chron.specs.Name.{IsName};
ghost use Rattle.hls_gen.specs.Generated.{with_command, with_plain, with_reserved, with_weighted, with_wake};
ghost use Rattle.hls_gen.specs.Generated.{thread_name, under, reserved, weighted, turned, load};
ghost use Rattle.hls_gen.specs.Inside.Making.{made_of};

use crate::draws::Draws;
use hls_chron::{Config, List, Name, Terms};
use hls_guarantee::Guarantee;
use hls_scenario::{Command, Item, Perch, Spot};
use std::alloc::{AllocError, Global};

/// The items so far, and the draws.
#[derive(Drop)]
pub(crate) struct Making {
    pub(crate) items: Vec<Item>,
    pub(crate) draws: Draws,
}

/// The name of this text.
pub(crate) fn named(text: &[u8]) -> Name
    requires { IsName text.now }
    ensures { result ≡ text.now }
{
    match Name::read(text) {
        Some(name) => name,
        None => unreachable!(),
    }
}

/// The thread of a number.
fn thread_name(number: u32) -> Name
    ensures { result ≡ thread_name number }
{
    match number {
        0 => named(b"h0"),
        1 => named(b"h1"),
        2 => named(b"h2"),
        3 => named(b"h3"),
        4 => named(b"w0"),
        5 => named(b"w1"),
        6 => named(b"w2"),
        7 => named(b"b0"),
        _ => named(b"b1"),
    }
}

/// A seat on a scheduler.
pub(crate) fn under(sched: Name, terms: Terms, want: Guarantee) -> Perch
    ensures { result ≡ under sched terms want }
{
    Perch {
        spot: Spot::Under { sched, terms },
        want,
    }
}

impl Making {
    /// Puts a command behind the others.
    pub(crate) fn put(&mut self, tick: u32, command: Command) -> Result<(), AllocError>
        ensures { OnOk result (made_of self.new ≡ with_plain tick command (made_of self.old)) }
    {
        self.items.push(Item { tick, command })?;
        Ok(())
    }

    pub(crate) fn put_load(
        &mut self,
        alloc: Global,
        name: Name,
        config: Config,
        perch: Perch,
    ) -> Result<(), AllocError>
        ensures { OnOk result (made_of self.new ≡ with_plain 0 (load name config perch) (made_of self.old)) }
    {
        let mut perches = Vec::new(alloc);
        perches.push(perch)?;
        self.put(
            0,
            Command::Load {
                name,
                config,
                perches: List::of(perches),
            },
        )
    }

    /// Puts a reservation of drawn numbers.
    #[tactic(auto, unfolding(crate::specs::Generated::with_reserved))]
    pub(crate) fn put_reserved(&mut self, tick: u32, name: Name) -> Result<(), AllocError>
        ensures { OnOk result (made_of self.new ≡ with_reserved tick name (made_of self.old)) }
    {
        let x = 1 + self.draws.draw(5);
        let y = 40 + self.draws.draw(60);
        let perch = under(
            named(b"e"),
            Terms::Res { hard: true, x, y },
            Guarantee::Resb { hard: true, x, y },
        );
        self.put(tick, Command::Thread { name, perch })
    }

    /// Puts a thread of a drawn weight.
    #[tactic(auto, unfolding(crate::specs::Generated::with_weighted))]
    pub(crate) fn put_weighted(&mut self, name: Name) -> Result<(), AllocError>
        ensures { OnOk result (made_of self.new ≡ with_weighted name (made_of self.old)) }
    {
        let weight = 1 + self.draws.draw(3);
        let perch = under(named(b"s"), Terms::Weight(weight), Guarantee::Null);
        self.put(0, Command::Thread { name, perch })
    }

    /// Puts a thread that takes turns.
    pub(crate) fn put_turned(&mut self, name: Name) -> Result<(), AllocError>
        ensures { OnOk result (made_of self.new ≡ with_plain 0 (turned name) (made_of self.old)) }
    {
        let perch = under(named(b"r"), Terms::Turn, Guarantee::Null);
        self.put(0, Command::Thread { name, perch })
    }

    /// Puts a block or a wake of a drawn thread.
    #[tactic(auto, unfolding(crate::specs::Generated::with_wake))]
    pub(crate) fn put_wake(&mut self, tick: u32) -> Result<(), AllocError>
        ensures { OnOk result (made_of self.new ≡ with_wake tick (made_of self.old)) }
    {
        let name = thread_name(self.draws.draw(9));
        if self.draws.draw(3) == 0 {
            return self.put(tick, Command::Block { name });
        }
        let burst = Some(1 + self.draws.draw(20));
        let wake = Command::Wake {
            name,
            every: None,
            burst,
        };
        self.put(tick, wake)
    }
}
