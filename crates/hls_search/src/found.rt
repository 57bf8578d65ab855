// A derivation that was found, before it takes memory.
ghost use Rattle.std.specs.Prelude.{◌≡◌, IfOk};

use crate::chain::Chain;
use hls_chron::List;
use hls_derive::{Derivation, SchedStep, Step};
use hls_guarantee::Guarantee;
use std::alloc::{AllocError, Global};

/// A derivation with few conversions, which takes no memory.
#[derive(Drop)]
pub struct Found {
    pub from: Guarantee,
    pub before: Chain,
    pub sched: SchedStep,
    pub after: Chain,
}

impl Found {
    ghost use Rattle.hls_search.specs.Inside.Found.{derivation_of};

    /// The derivation as plain data.
    ///
    /// # Errors
    /// Returns `AllocError` for want of memory.
    pub fn derivation(&self, alloc: Global) -> Result<Derivation, AllocError>
        ensures { IfOk result (λ d. d ≡ derivation_of self.now) }
    {
        let before = listed(alloc, &self.before)?;
        let after = listed(alloc, &self.after)?;
        Ok(Derivation {
            from: self.from,
            before,
            sched: self.sched,
            after,
        })
    }
}

/// The list of these conversions.
fn listed(alloc: Global, chain: &Chain) -> Result<List<Step>, AllocError>
    ensures { IfOk result (λ list. list ≡ chain.now) }
{
    let mut items = Vec::with_capacity(alloc, chain.len())?;
    items.extend_from_slice(chain.steps())?;
    Ok(List::of(items))
}
