// Scenarios that are drawn.
ghost use Rattle.std.specs.Prelude.{◌<◌, ◌≤◌};

use crate::draws::Draws;
use std::alloc::{AllocError, Global};

/// How many commands are drawn for a scenario.
const COMMANDS: u32 = 80;

/// The commands come up to two ticks after this one.
const LAST: u32 = 90;

/// How each scenario begins behind its first line: with a scheduler of each kind, of which these come before the fair
/// queue.
const BEFORE_QUEUE: &str = "horizon 100\n\
    at 0 load f0 fp on cpu as ALL\n\
    at 0 load e0 edf on f0 prio 0 as ALL\n\
    at 0 load r0 rr 2 on f0 prio 1 as NULL\n";

/// And these behind it.
const BEHIND_QUEUE: &str = "at 0 load w0 wheel 6 on r0 turn as NULL\n\
    at 0 load j0 join on e0 res 1 8 soft as RESBS 1 8 , r0 turn as NULL\n";

/// What is drawn of a scenario as words, on a few names of schedulers of each kind and of threads.
#[derive(Drop)]
struct Drawing {
    alloc: Global,
    version: u8,
    draws: Draws,
}

impl Drawing {
    fn draw(&mut self, bound: u32) -> u32
        requires { 0 < bound }
        ensures { result < bound }
    {
        self.draws.draw(bound)
    }

    /// A number from 1 to a bound.
    fn number(&mut self, bound: u32) -> u32
        requires { 0 < bound }
        ensures { result ≤ bound }
    {
        1 + self.draws.draw(bound)
    }

    /// The letter of a kind, with which the names of its schedulers begin.
    fn letter(kind: u32) -> &'static str {
        match kind {
            0 => "f",
            1 => "e",
            2 => "s",
            3 => "r",
            4 => "w",
            _ => "j",
        }
    }

    /// The name of one of two schedulers of a kind, mostly of the first.
    fn scheduler(&mut self, kind: u32) -> Result<String, AllocError> {
        let letter = Drawing::letter(kind);
        let number = self.draw(4) / 3;
        format!(in self.alloc; "{letter}{number}")
    }

    /// The name of one of six threads.
    fn thread(&mut self) -> Result<String, AllocError> {
        let number = self.draw(6);
        format!(in self.alloc; "t{number}")
    }

    /// A name of a scheduler or a thread.
    fn name(&mut self) -> Result<String, AllocError> {
        let kind = self.draw(6);
        match self.draw(3) {
            0 => self.scheduler(kind),
            _ => self.thread(),
        }
    }

    /// The configuration of a fair queue, whose quantum only version 2 names.
    fn fair_queue(&mut self) -> Result<String, AllocError> {
        if self.version == 1 {
            return "sfq 8 3".to_string(self.alloc);
        }
        let quantum = self.number(3);
        format!(in self.alloc; "sfq 8 3 {quantum}")
    }

    /// The configuration of a kind that is no join.
    fn config(&mut self, kind: u32) -> Result<String, AllocError> {
        match kind {
            0 => "fp".to_string(self.alloc),
            1 => "edf".to_string(self.alloc),
            2 => self.fair_queue(),
            3 => {
                let quantum = self.number(3);
                format!(in self.alloc; "rr {quantum}")
            }
            _ => "wheel 6".to_string(self.alloc),
        }
    }

    /// The terms of a reservation.
    fn reservation(&mut self) -> Result<String, AllocError> {
        let served = self.number(3);
        let period = served + 4 + self.draw(12);
        match self.draw(2) {
            0 => format!(in self.alloc; "res {served} {period} hard"),
            _ => format!(in self.alloc; "res {served} {period} soft"),
        }
    }

    /// The terms of a kind.
    fn terms(&mut self, kind: u32) -> Result<String, AllocError> {
        match kind {
            0 => {
                let priority = self.draw(5);
                format!(in self.alloc; "prio {priority}")
            }
            1 => self.reservation(),
            2 => {
                let weight = self.number(4);
                format!(in self.alloc; "weight {weight}")
            }
            3 => "turn".to_string(self.alloc),
            4 => {
                let places = self.number(4);
                format!(in self.alloc; "slots {places}")
            }
            _ => "sole".to_string(self.alloc),
        }
    }

    /// A scheduler of a kind with terms, which mostly are of that kind.
    fn spot(&mut self, kind: u32) -> Result<String, AllocError> {
        let name = self.scheduler(kind)?;
        let other = self.draw(6);
        let terms = match self.draw(14) {
            0 => self.terms(other)?,
            _ => self.terms(kind)?,
        };
        format!(in self.alloc; "{name} {terms}")
    }

    /// The processor or a scheduler with terms.
    fn place(&mut self) -> Result<String, AllocError> {
        let kind = self.draw(6);
        match self.draw(20) {
            0 => "cpu".to_string(self.alloc),
            _ => self.spot(kind),
        }
    }

    /// A guarantee, which often is one that each place lends.
    fn guarantee(&mut self) -> &'static str {
        match self.draw(12) {
            0 => "ALL",
            1 => "RESBS 1 8",
            2 => "RESCS 1 40",
            3 => "PSBE 1/40 60",
            _ => "NULL",
        }
    }

    /// The load of a join at two ports, on schedulers of different kinds.
    fn join(&mut self) -> Result<String, AllocError> {
        let name = self.scheduler(5)?;
        let kind = self.draw(3);
        let other = 3 + self.draw(3);
        let first = self.spot(kind)?;
        let second = self.spot(other)?;
        let wanted = self.guarantee();
        format!(in self.alloc; "load {name} join on {first} as {wanted} , {second} as NULL")
    }

    /// The load of a scheduler.
    fn load(&mut self) -> Result<String, AllocError> {
        let kind = self.draw(6);
        if kind == 5 {
            return self.join();
        }
        let name = self.scheduler(kind)?;
        let config = self.config(kind)?;
        let place = self.place()?;
        let wanted = self.guarantee();
        format!(in self.alloc; "load {name} {config} on {place} as {wanted}")
    }

    /// The admission of a thread.
    fn admission(&mut self) -> Result<String, AllocError> {
        let name = self.thread()?;
        let place = self.place()?;
        let wanted = self.guarantee();
        format!(in self.alloc; "thread {name} on {place} as {wanted}")
    }

    /// A move.
    fn shift(&mut self) -> Result<String, AllocError> {
        let name = self.name()?;
        let place = self.place()?;
        let wanted = self.guarantee();
        format!(in self.alloc; "move {name} to {place} as {wanted}")
    }

    /// The wake of a thread: until it is blocked, for some ticks, or, in version 2, for some from each release on.
    fn wake(&mut self) -> Result<String, AllocError> {
        let name = self.thread()?;
        let ways = if self.version == 1 { 2 } else { 4 };
        match self.draw(ways) {
            0 => format!(in self.alloc; "wake {name}"),
            1 => {
                let ticks = self.number(9);
                format!(in self.alloc; "wake {name} for {ticks}")
            }
            _ => {
                let period = self.number(9);
                let ticks = self.number(4);
                format!(in self.alloc; "wake {name} every {period} burst {ticks}")
            }
        }
    }

    /// A command that takes a name alone.
    fn leaving(&mut self) -> Result<String, AllocError> {
        let name = self.name()?;
        match self.draw(4) {
            0 => format!(in self.alloc; "end {name}"),
            1 => format!(in self.alloc; "unload {name}"),
            _ => format!(in self.alloc; "block {name}"),
        }
    }

    fn command(&mut self) -> Result<String, AllocError> {
        match self.draw(12) {
            0 => self.load(),
            1..=3 => self.admission(),
            4..=6 => self.shift(),
            7..=9 => self.wake(),
            _ => self.leaving(),
        }
    }
}

/// The first lines of a scenario.
fn beginning(drawing: &mut Drawing) -> Result<String, AllocError> {
    let version = drawing.version;
    let queue = drawing.fair_queue()?;
    let load = format!(in drawing.alloc;
        "at 0 load s0 {queue} on e0 res 2 8 hard as PSBE 1/4 20\n"
    )?;
    format!(in drawing.alloc; "hls {version}\n{BEFORE_QUEUE}{load}{BEHIND_QUEUE}")
}

/// The text of the scenario of a number, in a version of the language.
pub fn drawn_scenario(alloc: Global, version: u8, number: u32) -> Result<String, AllocError> {
    let mut drawing = Drawing {
        alloc,
        version,
        draws: Draws::new(number),
    };
    let mut text = beginning(&mut drawing)?;
    let mut tick = 0;
    for _ in 0..COMMANDS {
        tick = tick.min(LAST) + drawing.draw(3) / 2 + drawing.draw(2);
        let command = drawing.command()?;
        let line = format!(in alloc; "at {tick} {command}\n")?;
        text.push_str(&line)?;
    }
    Ok(text)
}
