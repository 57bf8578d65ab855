// Texts that grow at their end.
ghost use Rattle.std.specs.Prelude.{◌≡◌, ◌+◌, ◌≤◌, ◌++◌, OnOk, decimal, length, vec_capacity};

use itoa::Buffer;
use std::alloc::AllocError;

/// How many bytes a text has at most that is appended byte by byte, which is quicker than a call.
const SHORT: usize = 16;

/// Appends a text into room that is there.
fn put_reserved(out: &mut Vec<u8>, text: &[u8])
    requires { length out.old.items + length text.now ≤ vec_capacity out.old }
    ensures { out.new.items ≡ out.old.items ++ text.now }
{
    for byte in text {
        out.push_reserved(*byte);
    }
}

/// Appends a text.
///
/// # Errors
///
/// Returns `AllocError` where there is no memory for it.
pub fn put(out: &mut Vec<u8>, text: &[u8]) -> Result<(), AllocError>
    ensures { OnOk result (out.new.items ≡ out.old.items ++ text.now) }
{
    if text.len() > SHORT {
        return out.extend_from_slice(text);
    }
    out.reserve(text.len())?;
    put_reserved(out, text);
    Ok(())
}

/// Appends a number in decimal.
///
/// # Errors
///
/// Returns `AllocError` where there is no memory for it.
pub fn put_number(out: &mut Vec<u8>, number: u128) -> Result<(), AllocError>
    ensures { OnOk result (out.new.items ≡ out.old.items ++ decimal number) }
{
    let mut buffer = Buffer::new();
    put(out, buffer.format(number).as_bytes())
}
