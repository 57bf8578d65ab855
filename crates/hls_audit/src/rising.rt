// The way up from a name through all seats.
ghost use Rattle.std.specs.Prelude.{◌≡◌, [], OnOk, slice_get};
ghost use Rattle.hls_audit.specs.Inside.Rising.{AreNamed, MeetsName, MeetsSpot, MeetsAll};

use hls_audit_stays::Places;
use hls_chron::Name;
use hls_scenario::{Perch, Spot};
use std::alloc::{AllocError, Global};

/// The names that are met on a way up, each once, in the order in which they are met.
#[derive(Drop)]
pub(crate) struct Rising {
    pub(crate) names: Vec<Name>,
    pub(crate) places: Places,
}

impl Rising {
    /// Nobody was met. Takes no memory.
    pub(crate) fn new(alloc: Global) -> Rising
        ensures none { result.names.items ≡ [] }
        ensures named { AreNamed result }
    {
        Rising {
            names: Vec::new(alloc),
            places: Places::new(alloc),
        }
    }

    /// The name that was met at a place.
    pub(crate) fn get(&self, at: usize) -> Option<Name>
        ensures { result ≡ slice_get self.now.names.items at }
    {
        self.names.get(at).copied()
    }

    /// Meets a name, unless it was met before.
    ///
    /// # Errors
    /// Returns `AllocError` for want of memory.
    pub(crate) fn meet(&mut self, name: &Name) -> Result<(), AllocError>
        ensures { OnOk result (MeetsName self.old self.new name.now) }
    {
        if self.places.has(name) {
            return Ok(());
        }
        let place = self.names.len();
        self.names.push(*name)?;
        self.places.set(name, place)?;
        Ok(())
    }

    fn meet_spot(&mut self, spot: &Spot) -> Result<(), AllocError>
        ensures { OnOk result (MeetsSpot self.old self.new spot.now) }
    {
        match spot {
            Spot::Cpu => Ok(()),
            Spot::Under { sched, .. } => self.meet(sched),
        }
    }

    /// Meets the schedulers of these seats.
    ///
    /// # Errors
    /// Returns `AllocError` for want of memory.
    pub(crate) fn meet_all(&mut self, perches: &[Perch]) -> Result<(), AllocError>
        ensures { OnOk result (MeetsAll self.old self.new perches.now) }
    {
        for perch in perches {
            self.meet_spot(&perch.spot)?;
        }
        Ok(())
    }
}
