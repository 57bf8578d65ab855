// Places in the hierarchy.
ghost use Rattle.std.specs.Prelude.{◌≡◌, IfOk};
ghost use Rattle.hls_view_tale.specs.Places.{place_at, labels_of};

use crate::Label;
use hls_chron::List;
use std::alloc::{AllocError, Global};

/// A way from the processor down to a node: the labels above it, from the top, and its own.
#[derive(Debug, Drop)]
pub struct Place {
    pub above: List<Label>,
    pub label: Label,
}

impl Place {
    /// The place of a label below others.
    pub(crate) fn below(alloc: Global, above: &[Label], label: &Label) -> Result<Place, AllocError>
        ensures { IfOk result (λ place. place ≡ place_at above.now label.now) }
    {
        Ok(Place {
            above: List::of(above.to_vec(alloc)?),
            label: *label,
        })
    }

    /// Its labels from the top, its own last.
    ///
    /// # Errors
    /// Returns `AllocError` for want of memory.
    pub fn labels(&self, alloc: Global) -> Result<Vec<Label>, AllocError>
        ensures { IfOk result (λ labels. labels.items ≡ labels_of self.now) }
    {
        let mut labels = self.above.items().to_vec(alloc)?;
        labels.push(self.label)?;
        Ok(labels)
    }
}
