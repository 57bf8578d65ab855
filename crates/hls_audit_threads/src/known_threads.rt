// The ticks of threads, each told once.
ghost use Rattle.std.specs.Prelude.{◌≡◌, IfOk, OnOk, Some};
ghost use Rattle.hls_report_text.specs.Content.{content_of};
ghost use Rattle.hls_report_text.specs.WellFormed.{IsWellFormed};
ghost use Rattle.hls_audit_threads.specs.Inside.Lookups.{IsLookup};
ghost use Rattle.hls_audit_threads.specs.Inside.KnownThreads.{AreKnown, IsKnownAt};

use crate::lookup::Lookup;
use crate::threads::{ready_ticks, served_ticks};
use hls_audit_spans::Spans;
use hls_audit_stays::Places;
use hls_chron::Name;
use hls_report_text::Report;
use std::alloc::{AllocError, Global};

/// In which ticks a thread is ready, and in which it is served.
#[derive(Drop)]
pub struct ThreadTicks {
    pub ready: Spans,
    pub served: Spans,
}

/// The ticks of those threads that were asked for.
#[derive(Drop)]
pub struct KnownThreads {
    pub(crate) places: Places,
    pub ticks: Vec<ThreadTicks>,
}

impl KnownThreads {
    /// No thread was asked for.
    pub fn new(alloc: Global) -> KnownThreads
        ensures { (report : Report) → AreKnown (content_of report) result }
    {
        KnownThreads {
            places: Places::new(alloc),
            ticks: Vec::new(alloc),
        }
    }

    /// The place of the ticks of the thread of a name.
    ///
    /// # Errors
    /// Returns `AllocError` for want of memory.
    pub fn place_of(
        &mut self,
        alloc: Global,
        report: &Report,
        lookup: &Lookup,
        name: &Name,
    ) -> Result<usize, AllocError>
        requires formed { IsWellFormed report.now }
        requires lookup { IsLookup report.now lookup.now }
        requires known { AreKnown (content_of report.now) self.old }
        ensures known { OnOk result (AreKnown (content_of report.now) self.new) }
        ensures place { IfOk result (λ place. IsKnownAt (content_of report.now) self.new name.now place) }
    {
        if let Some(place) = self.places.find(name) {
            return Ok(place);
        }
        let served = served_ticks(alloc, report, lookup, name)?;
        let ready = ready_ticks(alloc, report, lookup, name, &served)?;
        let place = self.ticks.len();
        self.ticks.push(ThreadTicks { ready, served })?;
        self.places.set(name, place)?;
        Ok(place)
    }
}
