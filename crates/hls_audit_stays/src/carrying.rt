// The stays of threads, carried along the commands.
ghost use Rattle.std.specs.Prelude.{◌≡◌, ◌+◌, ◌<◌, ◌∷◌, ◌++◌, [], List, IfOk, OnOk, Some, true, map, filter};
ghost use Rattle.std.specs.Prelude.{length, not, slice_get, slice_set};
ghost use Rattle.hls_scenario.specs.declared.scenario.Perch as asked;
ghost use Rattle.hls_scenario.specs.declared.scenario.Command.TheVariants as command;
ghost use Rattle.hls_report_text.specs.declared.report.Answered as report;
ghost use Rattle.hls_legal.specs.Stays as told;
ghost use Rattle.hls_legal.specs.Commands as said;
ghost use Rattle.hls_audit_stays.specs.declared.found.FoundStay as found;
ghost use Rattle.hls_audit_stays.specs.Found.{stay_by, has_lasted, lasts};
ghost use Rattle.hls_audit_stays.specs.Inside.Marks.{next_mark};
ghost use Rattle.hls_audit_stays.specs.Inside.Carried.{IsCarried, AreOpen, AreFresh};
ghost use Rattle.hls_audit_stays.specs.Inside.Carried.{Settles, Closes, ClosesGoing, Opens};
ghost use Rattle.hls_audit_stays.specs.Inside.Carried.{found_from, found_by, ended_at};

use crate::found::FoundStay;
use crate::seats::Seats;
use crate::spells::is_same;
use hls_chron::Name;
use hls_report_text::{Answer, Answered};
use hls_scenario::Command;
use std::alloc::{AllocError, Global};

/// The stays that the commands so far make, and the places of those that go on. Those that began in the present tick
/// and go on are apart: one that ends with the tick in which it began has no ticks, and is let go. Besides, the threads
/// in the order of their admissions, and who was seated where.
#[derive(Drop)]
pub(crate) struct Carried {
    pub(crate) stays: Vec<FoundStay>,
    pub(crate) going: Vec<usize>,
    pub(crate) fresh: Vec<FoundStay>,
    pub(crate) tick: u32,
    pub(crate) threads: Vec<Name>,
    pub(crate) seats: Seats,
}

/// Appends stays.
fn append(stays: &mut Vec<FoundStay>, more: &[FoundStay]) -> Result<(), AllocError>
    ensures { OnOk result (stays.new.items ≡ stays.old.items ++ more.now) }
{
    for found in more {
        stays.push(*found)?;
    }
    Ok(())
}

/// Notes that the stay at a place ends.
fn end_at(stays: &mut Vec<FoundStay>, place: usize, tick: u32)
    requires { place < length stays.old.items }
    ensures { (stay : found.FoundStay) → slice_get stays.old.items place ≡ Some stay →
        stays.new.items ≡ slice_set stays.old.items place (ended_at tick stay) }
{
    let mut stay = stays[place];
    stay.until = Some(tick);
    stays[place] = stay;
}

impl Carried {
    /// No command came yet.
    fn new(alloc: Global) -> Carried
        ensures { (all : List report.Answered) → IsCarried result all 0 }
    {
        Carried {
            stays: Vec::new(alloc),
            going: Vec::new(alloc),
            fresh: Vec::new(alloc),
            tick: 0,
            threads: Vec::new(alloc),
            seats: Seats::new(alloc),
        }
    }

    /// Follows the command at a place.
    fn follow(
        &mut self,
        alloc: Global,
        answered: &[Answered],
        place: usize,
    ) -> Result<(), AllocError>
        requires place { place < length answered.now }
        requires carried { IsCarried self.old answered.now place }
        ensures { OnOk result (IsCarried self.new answered.now (place + 1)) }
    {
        let a = &answered[place];
        match &a.answer {
            Answer::Done(_) => self.carry_out(alloc, answered, place, a),
            Answer::Refused(_) => Ok(()),
        }
    }

    fn carry_out(
        &mut self,
        alloc: Global,
        answered: &[Answered],
        place: usize,
        a: &Answered,
    ) -> Result<(), AllocError>
        requires there { slice_get answered.now place ≡ Some a.now }
        requires done { said.is_done a.now.answer ≡ true }
        requires carried { IsCarried self.old answered.now place }
        ensures { OnOk result (IsCarried self.new answered.now (place + 1)) }
    {
        match &a.command {
            Command::Load { name, .. } => self.seats.note(answered, place, a, name),
            Command::Thread { name, .. } => self.admit(answered, place, a, name),
            Command::End { name } => self.end(alloc, answered, place, a, name),
            Command::Move { name, .. } => self.reseat(alloc, answered, place, a, name),
            Command::Unload { .. } => Ok(()),
            Command::Wake { .. } => Ok(()),
            Command::Block { .. } => Ok(()),
        }
    }

    /// Begins the stay of a thread that is admitted.
    fn admit(
        &mut self,
        answered: &[Answered],
        place: usize,
        a: &Answered,
        name: &Name,
    ) -> Result<(), AllocError>
        requires there { slice_get answered.now place ≡ Some a.now }
        requires done { said.is_done a.now.answer ≡ true }
        requires command { (perch : asked.Perch) × (a.now.command ≡ command.Thread name.now perch) }
        requires carried { IsCarried self.old answered.now place }
        ensures { OnOk result (IsCarried self.new answered.now (place + 1)) }
    {
        self.settle(a.tick)?;
        self.begin(name, Some(place))?;
        self.threads.push(*name)?;
        self.seats.note(answered, place, a, name)?;
        Ok(())
    }

    /// Ends the stays of a thread that is ended.
    fn end(
        &mut self,
        alloc: Global,
        answered: &[Answered],
        place: usize,
        a: &Answered,
        name: &Name,
    ) -> Result<(), AllocError>
        requires there { slice_get answered.now place ≡ Some a.now }
        requires done { said.is_done a.now.answer ≡ true }
        requires command { a.now.command ≡ command.End name.now }
        requires carried { IsCarried self.old answered.now place }
        ensures { OnOk result (IsCarried self.new answered.now (place + 1)) }
    {
        self.settle(a.tick)?;
        self.close(alloc, answered, name, &[])?;
        self.threads.retain(|thread| !is_same(name, thread));
        Ok(())
    }

    /// Ends the stays of whoever is moved or below, and begins others.
    fn reseat(
        &mut self,
        alloc: Global,
        answered: &[Answered],
        place: usize,
        a: &Answered,
        name: &Name,
    ) -> Result<(), AllocError>
        requires there { slice_get answered.now place ≡ Some a.now }
        requires done { said.is_done a.now.answer ≡ true }
        requires command { (perch : asked.Perch) × (a.now.command ≡ command.Move name.now perch) }
        requires carried { IsCarried self.old answered.now place }
        ensures { OnOk result (IsCarried self.new answered.now (place + 1)) }
    {
        let marks = self.seats.below(alloc, answered, place, name)?;
        let moved = self.moved(alloc, answered, name, &marks)?;
        self.settle(a.tick)?;
        self.close(alloc, answered, name, &marks)?;
        self.seats.note(answered, place, a, name)?;
        self.begin_all(&moved)?;
        Ok(())
    }

    /// The threads that are moved, by the marks of the schedulers.
    fn moved(
        &self,
        alloc: Global,
        answered: &[Answered],
        above: &Name,
        marks: &[bool],
    ) -> Result<Vec<Name>, AllocError>
        ensures { IfOk result (λ names. names.items
            ≡ filter (next_mark self.now.seats answered.now marks.now above.now) self.now.threads.items) }
    {
        self.threads
            .iter()
            .filter(|name| self.seats.is_below(answered, above, marks, name))
            .copied()
            .collect(alloc)
    }

    /// Goes on to a tick. Stays that began in another one have had ticks.
    fn settle(&mut self, tick: u32) -> Result<(), AllocError>
        requires { AreFresh self.old.fresh.items self.old.tick }
        ensures { OnOk result (Settles self.old self.new tick) }
    {
        if tick == self.tick {
            return Ok(());
        }
        for at in 0..self.fresh.len() {
            let found = self.fresh[at];
            let place = self.stays.len();
            self.stays.push(found)?;
            self.going.push(place)?;
        }
        self.fresh.clear();
        self.tick = tick;
        Ok(())
    }

    /// All stays that have a tick, or go on.
    fn settled(self) -> Result<Vec<FoundStay>, AllocError>
        ensures { IfOk result (λ all. all.items
            ≡ filter has_lasted (self.stays.items ++ self.fresh.items)) }
    {
        let mut all = self.stays;
        append(&mut all, &self.fresh)?;
        all.retain(|found| found.has_lasted());
        Ok(all)
    }

    /// Ends the open stays of whoever is below, by the marks of the schedulers.
    fn close(
        &mut self,
        alloc: Global,
        answered: &[Answered],
        above: &Name,
        marks: &[bool],
    ) -> Result<(), AllocError>
        requires { AreOpen self.old.stays.items self.old.going.items }
        ensures { OnOk result (Closes self.old self.new (next_mark self.old.seats answered.now marks.now above.now)) }
    {
        self.close_going(alloc, answered, above, marks)?;
        let seats = &self.seats;
        self.fresh.retain(|found| !seats.is_below(answered, above, marks, &found.name));
        Ok(())
    }

    /// Ends those that have ticks.
    fn close_going(
        &mut self,
        alloc: Global,
        answered: &[Answered],
        above: &Name,
        marks: &[bool],
    ) -> Result<(), AllocError>
        requires { AreOpen self.old.stays.items self.old.going.items }
        ensures { OnOk result (ClosesGoing self.old self.new
            (next_mark self.old.seats answered.now marks.now above.now)) }
    {
        let tick = self.tick;
        let mut still = Vec::new(alloc);
        for at in 0..self.going.len() {
            let place = self.going[at];
            let name = self.stays[place].name;
            if self.seats.is_below(answered, above, marks, &name) {
                end_at(&mut self.stays, place, tick);
            } else {
                still.push(place)?;
            }
        }
        self.going = still;
        Ok(())
    }

    /// Begins the stays of threads that were seated.
    fn begin_all(&mut self, names: &[Name]) -> Result<(), AllocError>
        ensures { OnOk result (Opens self.old self.new (map (found_by self.old.seats self.old.tick) names.now)) }
    {
        for name in names {
            let seated = self.seats.last.find(name);
            self.begin(name, seated)?;
        }
        Ok(())
    }

    /// Begins a stay.
    fn begin(&mut self, name: &Name, seated: Option<usize>) -> Result<(), AllocError>
        ensures { OnOk result (Opens self.old self.new (found_from name.now seated self.old.tick ∷ [])) }
    {
        self.fresh.push(FoundStay {
            name: *name,
            seated,
            since: self.tick,
            until: None,
        })?;
        Ok(())
    }
}

/// The stays that the commands of a report make, in the order in which they are opened, but for those that a command
/// ended before they had a tick.
///
/// # Errors
/// Returns `AllocError` where there is no memory for what is kept beside the commands.
pub fn stays_of(alloc: Global, answered: &[Answered]) -> Result<Vec<FoundStay>, AllocError>
    ensures { IfOk result (λ all. map (stay_by answered.now) all.items ≡ filter lasts (told.stays answered.now)) }
{
    let mut carried = Carried::new(alloc);
    for place in 0..answered.len() {
        carried.follow(alloc, answered, place)?;
    }
    carried.settled()
}
