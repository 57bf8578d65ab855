//! Which command of a scenario is due.
#![tactic(auto)]

ghost use Rattle.std.specs.Prelude.{◌≡◌, ◌+◌, ◌<◌, drop, option_copied};
ghost use Rattle.hls_clock.specs.Agenda.{due_command, first_tick_after};

use hls_scenario::{Command, Item, Scenario};
use std::marker::Model;

/// How many commands of a scenario have their answers. It borrows nothing of the scenario, and no
/// call takes memory. Contracts see an agenda as its place.
#[derive(Debug, Drop)]
pub struct Agenda {
    place: u32,
}

impl Model for Agenda {
    ghost use Rattle.std.specs.Prelude.{ℕ};

    ghost Value = { ℕ };

    ghost view = { λ agenda. agenda.place };
}

/// The items from a place on. To pass over those before it one by one would cost what there are.
fn items_from(items: &[Item], place: usize) -> &[Item]
    ensures { result.now ≡ drop place items.now }
{
    if place < items.len() {
        &items[place..]
    } else {
        &[]
    }
}

impl Agenda {
    /// An agenda at the first item.
    pub fn new() -> Agenda
        ensures { result ≡ 0 }
    {
        Agenda { place: 0 }
    }

    /// The place in the items, from 0 on.
    pub fn place(&self) -> u32
        ensures { result ≡ self.now }
    {
        self.place
    }

    /// The command of the item at the place, where its tick is now. `None` exactly where no item
    /// stands at the place, or its tick is another.
    pub fn due<'a>(&self, scenario: &'a Scenario, now: u32) -> Option<&'a Command>
        ensures { option_copied result ≡ due_command scenario.entry.now.items self.now now }
    {
        let item = scenario.items.items().get(self.place as usize)?;
        if item.tick == now {
            Some(&item.command)
        } else {
            None
        }
    }

    /// Goes on to the next item. A command that met want of memory is due again, where the place
    /// is raised only once it has its answer.
    pub fn advance(&mut self)
        requires { self.old < 65536 }
        ensures { self.new ≡ self.old + 1 }
    {
        self.place += 1;
    }

    /// The tick of the first item, at the place or after it, whose tick is above `now`. `None`
    /// exactly where there is none.
    pub fn next_after(&self, scenario: &Scenario, now: u32) -> Option<u32>
        ensures { result ≡ first_tick_after now (drop self.now scenario.now.items) }
    {
        items_from(scenario.items.items(), self.place as usize)
            .iter()
            .map(|item| item.tick)
            .find(|tick| *tick > now)
    }
}
