// Why a line was not read.
ghost use Rattle.std.specs.Prelude.{◌≡◌};
ghost use Rattle.hls_lang.specs.declared.line_error.LineError.TheVariants.{Fault, Memory};

use crate::Cause;
use std::alloc::AllocError;

/// Why a line was not read.
#[derive(Debug, Drop)]
pub enum LineError {
    Fault(Cause),
    Memory(AllocError),
}

impl From<Cause> for LineError {
    ghost from_gives = { λ cause error. error ≡ Fault cause };

    fn from(cause: Cause) -> LineError {
        LineError::Fault(cause)
    }
}

impl From<AllocError> for LineError {
    ghost from_gives = { λ wanting error. error ≡ Memory wanting };

    fn from(wanting: AllocError) -> LineError {
        LineError::Memory(wanting)
    }
}
