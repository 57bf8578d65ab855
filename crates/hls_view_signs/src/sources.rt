// Who is served in which ticks, and the words on threads, told of each once it is asked for.
ghost use Rattle.std.specs.Prelude.{IfOk};
ghost use Rattle.hls_report_text.specs.Content.{content_of};
ghost use Rattle.hls_view_signs.specs.Inside.Sources.{AreSources};

use crate::heard::Heard;
use hls_audit_threads::{KnownThreads, Lookup};
use hls_report_text::Report;
use std::alloc::{AllocError, Global};

#[derive(Drop)]
pub(crate) struct Sources {
    pub(crate) lookup: Lookup,
    pub(crate) known: KnownThreads,
    pub(crate) heard: Vec<Heard>,
}

impl Sources {
    /// Those of a report.
    ///
    /// # Errors
    /// Returns `AllocError` for want of memory.
    pub(crate) fn of(alloc: Global, report: &Report) -> Result<Sources, AllocError>
        ensures { IfOk result (AreSources report.now) }
    {
        Ok(Sources {
            lookup: Lookup::of(alloc, report)?,
            known: KnownThreads::new(alloc),
            heard: Vec::new(alloc),
        })
    }
}
