// The cells of rows, each a text.
ghost use Rattle.std.specs.Prelude.{◌≡◌, ◌+◌, ◌-◌, IfOk, codes, decimal};
ghost use Rattle.hls_view_rows.specs.Cells.{span_text};
ghost use Rattle.hls_view_rows.specs.Jobs.{or_dash};

use hls_text::{put, put_number};
use std::alloc::{AllocError, Global};

pub fn number_cell(alloc: Global, number: u32) -> Result<Vec<u8>, AllocError>
    ensures { IfOk result (λ cell. cell.items ≡ decimal number) }
{
    let mut cell = Vec::new(alloc);
    put_number(&mut cell, u128::from(number))?;
    Ok(cell)
}

pub fn amount_cell(alloc: Global, amount: u128) -> Result<Vec<u8>, AllocError>
    ensures { IfOk result (λ cell. cell.items ≡ decimal amount) }
{
    let mut cell = Vec::new(alloc);
    put_number(&mut cell, amount)?;
    Ok(cell)
}

pub fn amount_or_dash(alloc: Global, amount: Option<u128>) -> Result<Vec<u8>, AllocError>
    ensures { IfOk result (λ cell. cell.items ≡ or_dash amount) }
{
    match amount {
        Some(amount) => amount_cell(alloc, amount),
        None => word_cell(alloc, b"-"),
    }
}

pub fn number_or_dash(alloc: Global, number: Option<u32>) -> Result<Vec<u8>, AllocError>
    ensures { IfOk result (λ cell. cell.items ≡ or_dash number) }
{
    match number {
        Some(number) => number_cell(alloc, number),
        None => word_cell(alloc, b"-"),
    }
}

/// A first tick and a last one.
pub fn span_cell(alloc: Global, from: u32, to: u64) -> Result<Vec<u8>, AllocError>
    ensures { IfOk result (λ cell. cell.items ≡ span_text from to) }
{
    let mut cell = Vec::new(alloc);
    put_number(&mut cell, u128::from(from))?;
    put(&mut cell, b"..")?;
    put_number(&mut cell, u128::from(to))?;
    Ok(cell)
}

/// So many ticks, at least one, from one on.
pub fn ticks_cell(alloc: Global, from: u32, ticks: u32) -> Result<Vec<u8>, AllocError>
    ensures { IfOk result (λ cell. cell.items ≡ span_text from (from + ticks - 1)) }
{
    let end = u64::from(from) + u64::from(ticks);
    span_cell(alloc, from, end.saturating_sub(1))
}

pub fn word_cell(alloc: Global, word: &[u8]) -> Result<Vec<u8>, AllocError>
    ensures { IfOk result (λ cell. cell.items ≡ word.now) }
{
    word.to_vec(alloc)
}
