// Numbers and guarantees as texts.
ghost use Rattle.std.specs.Prelude.{◌≡◌, ◌++◌, OnOk, IfOk, decimal};
ghost use Rattle.hls_guarantee.specs.Limits.{IsValid};
ghost use Rattle.hls_guarantee.specs.Spelling.{fraction_text as fraction_spelling, spelling};
ghost use Rattle.hls_view_texts.specs.Texts as texts;

use hls_frac::Frac;
use hls_guarantee::{Guarantee, write_guarantee};
use hls_text::{put, put_number};
use hls_view_margins::Distance;
use std::alloc::{AllocError, Global};

/// A whole number.
///
/// # Errors
/// Returns `AllocError` for want of memory.
pub fn number_text(alloc: Global, number: u128) -> Result<Vec<u8>, AllocError>
    ensures { IfOk result (λ text. text.items ≡ decimal number) }
{
    let mut text = Vec::new(alloc);
    put_number(&mut text, number)?;
    Ok(text)
}

/// A guarantee in its spelling.
///
/// # Errors
/// Returns `AllocError` for want of memory.
pub fn guarantee_text(alloc: Global, guarantee: &Guarantee) -> Result<Vec<u8>, AllocError>
    requires { IsValid guarantee.now }
    ensures { IfOk result (λ text. text.items ≡ spelling guarantee.now) }
{
    let mut text = Vec::new(alloc);
    write_guarantee(guarantee, &mut text)?;
    Ok(text)
}

fn put_fraction(text: &mut Vec<u8>, fraction: &Frac) -> Result<(), AllocError>
    ensures { OnOk result (text.new.items ≡ text.old.items ++ fraction_spelling fraction.now) }
{
    put_number(text, fraction.num)?;
    if fraction.den == 1 {
        return Ok(());
    }
    put(text, b"/")?;
    put_number(text, fraction.den)
}

/// A fraction, without its denominator where that is 1.
///
/// # Errors
/// Returns `AllocError` for want of memory.
pub fn fraction_text(alloc: Global, fraction: &Frac) -> Result<Vec<u8>, AllocError>
    ensures { IfOk result (λ text. text.items ≡ fraction_spelling fraction.now) }
{
    let mut text = Vec::new(alloc);
    put_fraction(&mut text, fraction)?;
    Ok(text)
}

/// How far something is above 0 or below it.
///
/// # Errors
/// Returns `AllocError` for want of memory.
pub fn distance_text(alloc: Global, distance: &Distance) -> Result<Vec<u8>, AllocError>
    ensures { IfOk result (λ text. text.items ≡ texts.distance_text distance.now) }
{
    let mut text = Vec::new(alloc);
    match distance {
        Distance::Above(fraction) => put_fraction(&mut text, fraction)?,
        Distance::Below(fraction) => {
            put(&mut text, b"-")?;
            put_fraction(&mut text, fraction)?;
        }
    }
    Ok(text)
}
