// Derivations, as plain data: whether each step is allowed is for the checker to say.
ghost use Rattle.std.specs.Prelude.{◌≡◌, ◌<◌};
ghost use Rattle.hls_derive.specs.Derivation.{conversions, last_of};

use hls_chron::{Config, Kind, List, Terms};
use hls_guarantee::{Guarantee, RuleName};

/// A seat as derivations see it: the scheduler's configuration and the terms of the seat.
#[derive(Clone, Copy, Debug, PartialEq, Eq)]
pub struct Place {
    pub config: Config,
    pub terms: Terms,
}

/// A conversion by a rule to the guarantee reached.
#[derive(Clone, Copy, Debug, PartialEq, Eq)]
pub struct Step {
    pub rule: RuleName,
    pub to: Guarantee,
}

/// The step through a scheduler of this kind to the guarantee reached. The port is the parent
/// of a join from which the derivation comes, and 0 for every other kind.
#[derive(Clone, Copy, Debug, PartialEq, Eq)]
pub struct SchedStep {
    pub kind: Kind,
    pub port: u8,
    pub to: Guarantee,
}

/// How a guarantee that a scheduler keeps for a seat follows from one that was given to the
/// scheduler: conversions, the step through the scheduler, and conversions again.
#[derive(Debug, Drop)]
pub struct Derivation {
    pub from: Guarantee,
    pub before: List<Step>,
    pub sched: SchedStep,
    pub after: List<Step>,
}

impl Derivation {
    /// The guarantee in which the derivation ends.
    pub fn last(&self) -> Guarantee
        ensures { result ≡ last_of self.now }
    {
        match self.after.items().last() {
            Some(step) => step.to,
            None => self.sched.to,
        }
    }

    /// How many conversions there are.
    pub fn depth(&self) -> u32
        requires { conversions self.now < 4294967290 }
        ensures { result ≡ conversions self.now }
    {
        (self.before.items().len() + self.after.items().len()) as u32
    }
}
