// Who was seated where, by the commands so far.
ghost use Rattle.std.specs.Prelude.{◌≡◌, ◌+◌, List, OnOk, Some, true, slice_get};
ghost use Rattle.hls_report_text.specs.declared.report.Answered as report;
ghost use Rattle.hls_legal.specs.Commands as said;
ghost use Rattle.hls_audit_stays.specs.Inside.Seats.{AreSeats};
ghost use Rattle.hls_audit_stays.specs.Inside.Seats.{LearnsSched, LearnsSpot, LearnsSpots, LearnsSeats};

use crate::places::Places;
use hls_chron::Name;
use hls_report_text::Answered;
use hls_scenario::{Command, Perch, Spot};
use std::alloc::{AllocError, Global};

/// Which command seated each name last, also of those that are gone, and on which schedulers it was that somebody
/// was seated.
#[derive(Drop)]
pub(crate) struct Seats {
    pub(crate) last: Places,
    pub(crate) scheds: Vec<Name>,
    pub(crate) places: Places,
}

impl Seats {
    /// Nobody was seated.
    pub(crate) fn new(alloc: Global) -> Seats
        ensures { (all : List report.Answered) → AreSeats result all 0 }
    {
        Seats {
            last: Places::new(alloc),
            scheds: Vec::new(alloc),
            places: Places::new(alloc),
        }
    }

    /// Notes that the command at a place seats a name.
    ///
    /// # Errors
    /// Returns `AllocError` for want of memory.
    pub(crate) fn note(
        &mut self,
        answered: &[Answered],
        place: usize,
        a: &Answered,
        name: &Name,
    ) -> Result<(), AllocError>
        requires seats { AreSeats self.old answered.now place }
        requires there { slice_get answered.now place ≡ Some a.now }
        requires done { said.has_done (said.seats name.now) a.now ≡ true }
        ensures { OnOk result (AreSeats self.new answered.now (place + 1)) }
    {
        self.learn_seats(&a.command)?;
        self.last.set(name, place)?;
        Ok(())
    }

    /// Learns on which schedulers a command seats.
    fn learn_seats(&mut self, command: &Command) -> Result<(), AllocError>
        ensures { OnOk result (LearnsSeats self.old self.new command.now) }
    {
        match command {
            Command::Load { perches, .. } => self.learn_spots(perches.items()),
            Command::Thread { perch, .. } => self.learn_spot(&perch.spot),
            Command::Move { perch, .. } => self.learn_spot(&perch.spot),
            _ => Ok(()),
        }
    }

    fn learn_spots(&mut self, perches: &[Perch]) -> Result<(), AllocError>
        ensures { OnOk result (LearnsSpots self.old self.new perches.now) }
    {
        for perch in perches {
            self.learn_spot(&perch.spot)?;
        }
        Ok(())
    }

    fn learn_spot(&mut self, spot: &Spot) -> Result<(), AllocError>
        ensures { OnOk result (LearnsSpot self.old self.new spot.now) }
    {
        match spot {
            Spot::Cpu => Ok(()),
            Spot::Under { sched, .. } => self.learn(sched),
        }
    }

    /// Learns that somebody is seated on the scheduler of a name.
    fn learn(&mut self, sched: &Name) -> Result<(), AllocError>
        ensures { OnOk result (LearnsSched self.old self.new sched.now) }
    {
        if self.places.has(sched) {
            return Ok(());
        }
        let place = self.scheds.len();
        self.scheds.push(*sched)?;
        self.places.set(sched, place)?;
        Ok(())
    }
}
