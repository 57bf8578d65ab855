// The line that refuses a text.
ghost use Rattle.std.specs.Prelude.{◌≡◌, IfOk};
ghost use Rattle.hls_top.specs.Refusing.{cause_text, refusal_line};

use hls_lang::Cause;
use hls_text::{put, put_number};
use std::alloc::{AllocError, Global};

/// The name of a cause.
pub fn cause_word(cause: Cause) -> &'static [u8]
    ensures { result.now ≡ cause_text cause }
{
    match cause {
        Cause::Byte => b"Byte",
        Cause::Header => b"Header",
        Cause::Horizon => b"Horizon",
        Cause::Many => b"Many",
        Cause::Short => b"Short",
        Cause::Extra => b"Extra",
        Cause::Word => b"Word",
        Cause::Number => b"Number",
        Cause::Name => b"Name",
        Cause::Order => b"Order",
        Cause::Late => b"Late",
    }
}

/// The line that tells the first line of a text that cannot stand, from 1 on, and why.
///
/// # Errors
/// Returns `AllocError` for want of memory.
pub fn refusal_line(alloc: Global, line: u32, cause: &[u8]) -> Result<Vec<u8>, AllocError>
    ensures { IfOk result (λ bytes. bytes.items ≡ refusal_line line cause.now) }
{
    let mut bytes = Vec::new(alloc);
    put(&mut bytes, b"refused line ")?;
    put_number(&mut bytes, u128::from(line))?;
    put(&mut bytes, b" ")?;
    put(&mut bytes, cause)?;
    put(&mut bytes, b"\n")?;
    Ok(bytes)
}
