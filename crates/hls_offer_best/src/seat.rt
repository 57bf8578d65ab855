// A seat that is asked about.
ghost use Rattle.std.specs.Prelude.{◌↔◌, IfOk, IsTrue};
ghost use Rattle.hls_guarantee.specs.Limits.{IsNarrow};
ghost use Rattle.hls_offer_best.specs.Best.{CanAsk, Offers};

use hls_derive::Place;
use hls_guarantee::Guarantee;
use hls_rules::RuleBook;
use hls_search::search;
use std::alloc::{AllocError, Global};

/// A seat: its place, what the ports of the place have, and how many conversions there may be.
#[derive(Clone, Copy)]
pub struct Seat<'a> {
    pub place: Place,
    pub haves: &'a [Guarantee],
    pub depth: u8,
}

impl Seat<'_> {
    /// Whether a guarantee can be promised to the seat.
    ///
    /// # Errors
    /// Returns `AllocError` for want of memory.
    pub fn offers(
        &self,
        alloc: Global,
        book: &RuleBook,
        wanted: &Guarantee,
    ) -> Result<bool, AllocError>
        requires can { CanAsk self.now }
        requires narrow { IsNarrow wanted.now }
        ensures { IfOk result (λ offers. IsTrue offers ↔ Offers self.now wanted.now) }
    {
        let found = search(alloc, book, &self.place, self.haves, wanted, self.depth)?;
        Ok(found.is_some())
    }
}
