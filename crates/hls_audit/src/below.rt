// Who is below a name.
ghost use Rattle.std.specs.Prelude.{◌≡◌, ◌&&◌, IfOk};
ghost use Rattle.hls_legal.specs.Under.{is_on};
ghost use Rattle.hls_audit_clauses.specs.Names as names;

use crate::rising::Rising;
use crate::tree::{Tree, is_same};
use hls_chron::Name;
use hls_scenario::Spot;
use std::alloc::{AllocError, Global};

impl Tree {
    /// Whether a place is on a scheduler that is the moved one or below it.
    ///
    /// # Errors
    /// Returns `AllocError` for want of memory.
    pub(crate) fn closes_cycle(
        &self,
        alloc: Global,
        name: &Name,
        spot: &Spot,
    ) -> Result<bool, AllocError>
        ensures { IfOk result (λ cycle. cycle ≡ (names.is_scheduler self.now.members.items name.now
            && is_on (names.is_under self.now.members.items name.now) spot.now)) }
    {
        match spot {
            Spot::Cpu => Ok(false),
            Spot::Under { sched, .. } => self.is_moved_below(alloc, name, sched),
        }
    }

    fn is_moved_below(&self, alloc: Global, name: &Name, sched: &Name) -> Result<bool, AllocError>
        ensures { IfOk result (λ cycle. cycle ≡ (names.is_scheduler self.now.members.items name.now
            && names.is_under self.now.members.items name.now sched.now)) }
    {
        if !self.is_scheduler(name) {
            return Ok(false);
        }
        self.is_below(alloc, name, sched)
    }

    /// Whether a name is another one or below it: whether that one is met on the way up from it.
    fn is_below(&self, alloc: Global, above: &Name, name: &Name) -> Result<bool, AllocError>
        ensures { IfOk result (λ below. below ≡ names.is_under self.now.members.items above.now name.now) }
    {
        let mut rising = Rising::new(alloc);
        rising.meet(name)?;
        for at in 0..usize::MAX {
            let Some(next) = rising.get(at) else {
                return Ok(false);
            };
            if is_same(&next, above) {
                return Ok(true);
            }
            rising.meet_all(self.perches(&next))?;
        }
        Ok(false)
    }
}
