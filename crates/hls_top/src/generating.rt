// The scenario of a number.
ghost use Rattle.std.specs.Prelude.{IfOk};
ghost use Rattle.hls_top.specs.Outputs.{IsOfGen, output_text};

use crate::outputs::{Output, OutputText};
use hls_gen::generate;
use hls_io::Status;
use hls_scenario::print_scenario;
use std::alloc::{AllocError, Global};

/// The text of the scenario that is made from a number.
///
/// # Errors
/// Returns `AllocError` for want of memory.
pub fn scenario_of(alloc: Global, number: u32) -> Result<Output, AllocError>
    ensures { IfOk result (λ output. IsOfGen number output.status (output_text output.text)) }
{
    let scenario = generate(alloc, number)?;
    Ok(Output {
        status: Status::Done,
        text: OutputText::Bytes(print_scenario(alloc, &scenario)?),
    })
}
