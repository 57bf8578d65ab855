// The words, as the machine gives them.
ghost use Rattle.std.specs.Prelude.{◌≡◌, ◌⊎◌, IfErr};
ghost use Rattle.hls_io.specs.Status.{code_of};
ghost use Rattle.hls_io.specs.declared.status.Status.TheVariants.{Memory};

use hls_io::Status;
use std::{env, io};

/// The exit status where the machine does not give the words of the command line.
const NO_WORDS: u8 = 8;

/// The exit status where the words did not come: for want of memory, or for another cause.
fn without_words(error: &io::Error) -> u8
    ensures { (result ≡ code_of Memory) ⊎ (result ≡ 8) }
{
    if error.kind() == io::ErrorKind::OutOfMemory {
        Status::Memory.code()
    } else {
        NO_WORDS
    }
}

/// The words of the command line that stand after the program's name.
///
/// # Errors
/// Returns the exit status where they do not come: that of want of memory, or 8 for another cause.
pub fn words_of(rt: &HostRuntime) -> Result<Vec<String>, u8>
    ensures { IfErr result (λ code. (code ≡ code_of Memory) ⊎ (code ≡ 8)) }
{
    match env::args(rt) {
        Ok(args) => match args.skip(1).collect::<Vec<String>>(rt.alloc()) {
            Ok(words) => Ok(words),
            Err(_) => Err(Status::Memory.code()),
        },
        Err(error) => Err(without_words(&error)),
    }
}
