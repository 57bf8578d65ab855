//! The text of a guarantee.

ghost use Rattle.std.specs.Prelude.{◌≡◌, ◌++◌, codes, decimal, take, length, OnOk, OnErr, if◌then◌else◌};
ghost use Rattle.hls_guarantee.specs.Limits.{IsValid};
ghost use Rattle.hls_guarantee.specs.Spelling.{fraction_text, with_fields, spelling};

use crate::Guarantee;
use hls_frac::Frac;
use itoa::{Buffer, Integer};
use std::alloc::AllocError;

/// Appends the text of a guarantee.
///
/// # Errors
/// Returns `AllocError` for want of memory; `out` is as before then.
pub fn write_guarantee(g: &Guarantee, out: &mut Vec<u8>) -> Result<(), AllocError>
    requires { IsValid g.now }
    ensures ok { OnOk result (out.new.items ≡ out.old.items ++ spelling g.now) }
    ensures err { OnErr result (out.new.items ≡ out.old.items) }
{
    let len = out.len();
    match append(g, out) {
        Ok(()) => Ok(()),
        Err(error) => {
            out.truncate(len);
            Err(error)
        }
    }
}

/// Appends the text, or as much of it as there is memory for.
fn append(g: &Guarantee, out: &mut Vec<u8>) -> Result<(), AllocError>
    ensures ok { OnOk result (out.new.items ≡ out.old.items ++ spelling g.now) }
    ensures err { OnErr result (take (length out.old.items) out.new.items ≡ out.old.items) }
{
    match g {
        Guarantee::All => out.extend_from_slice(b"ALL"),
        Guarantee::Null => out.extend_from_slice(b"NULL"),
        Guarantee::Resb { hard: true, x, y } => append_reservation(b"RESBH", *x, *y, out),
        Guarantee::Resb { hard: false, x, y } => append_reservation(b"RESBS", *x, *y, out),
        Guarantee::Resc { hard: true, x, y } => append_reservation(b"RESCH", *x, *y, out),
        Guarantee::Resc { hard: false, x, y } => append_reservation(b"RESCS", *x, *y, out),
        Guarantee::Psbe { s, d } => append_share(s, d, out),
    }
}

fn append_reservation(word: &[u8], x: u32, y: u32, out: &mut Vec<u8>) -> Result<(), AllocError>
    ensures ok { OnOk result (out.new.items ≡ out.old.items ++ with_fields word.now (decimal x) (decimal y)) }
    ensures err { OnErr result (take (length out.old.items) out.new.items ≡ out.old.items) }
{
    out.extend_from_slice(word)?;
    out.extend_from_slice(b" ")?;
    append_number(u128::from(x), out)?;
    out.extend_from_slice(b" ")?;
    append_number(u128::from(y), out)
}

fn append_share(s: &Frac, d: &Frac, out: &mut Vec<u8>) -> Result<(), AllocError>
    ensures ok { OnOk result
        (out.new.items ≡ out.old.items ++
        with_fields (codes "PSBE") (fraction_text s.now) (fraction_text d.now)) }
    ensures err { OnErr result (take (length out.old.items) out.new.items ≡ out.old.items) }
{
    out.extend_from_slice(b"PSBE ")?;
    append_fraction(s, out)?;
    out.extend_from_slice(b" ")?;
    append_fraction(d, out)
}

fn append_fraction(f: &Frac, out: &mut Vec<u8>) -> Result<(), AllocError>
    ensures ok { OnOk result (out.new.items ≡ out.old.items ++ fraction_text f.now) }
    ensures err { OnErr result (take (length out.old.items) out.new.items ≡ out.old.items) }
{
    append_number(f.num, out)?;
    if f.den == 1 {
        return Ok(());
    }
    out.extend_from_slice(b"/")?;
    append_number(f.den, out)
}

fn append_number(n: u128, out: &mut Vec<u8>) -> Result<(), AllocError>
    ensures ok { OnOk result (out.new.items ≡ out.old.items ++ decimal n) }
    ensures err { OnErr result (out.new.items ≡ out.old.items) }
{
    let mut buffer = Buffer::new();
    out.extend_from_slice(buffer.format(n).as_bytes())
}
