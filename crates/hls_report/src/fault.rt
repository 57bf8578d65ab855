// Why a text is no report's.
ghost use Rattle.std.specs.Prelude.{◌≡◌};
ghost use Rattle.hls_report.specs.declared.fault.ReportFault.TheVariants as faults;

use std::alloc::AllocError;
use thiserror::Error;

/// Why no report was read.
#[derive(Debug, Drop, Error)]
pub enum ReportFault {
    /// The first line that cannot stand, from 1 on.
    #[error("line {line}")]
    At { line: u32 },
    /// There was no memory for the report.
    #[error(transparent)]
    Memory(AllocError),
}

impl From<AllocError> for ReportFault {
    ghost from_gives = { λ wanting fault. fault ≡ faults.Memory wanting };

    fn from(wanting: AllocError) -> ReportFault {
        ReportFault::Memory(wanting)
    }
}
