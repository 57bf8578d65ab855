// What a row says in words and in numbers.
ghost use Rattle.std.specs.Prelude.{◌≡◌, ◌<◌, ◌^◌, IfOk, OnOk, decimal, length, sum};
ghost use Rattle.hls_view_picture_rows.specs.Rows as told;

use crate::picture::{Class, PictureRow};
use hls_text::put_number;
use itoa::Buffer;
use std::alloc::{AllocError, Global};

/// The class of a row's bars.
#[tactic(auto, unfolding(crate::specs::Rows::class_name))]
pub(crate) fn class_name(class: Class) -> &'static [u8]
    ensures { result.now ≡ told.class_name class }
{
    match class {
        Class::All => b"all",
        Class::Null => b"null",
        Class::Hard => b"hard",
        Class::Soft => b"soft",
        Class::Share => b"share",
        Class::Idle => b"idle",
    }
}

/// The class of its faint bars.
#[tactic(auto, unfolding(crate::specs::Rows::faint_name))]
pub(crate) fn faint_name(class: Class) -> &'static [u8]
    ensures { result.now ≡ told.faint_name class }
{
    match class {
        Class::All => b"all r",
        Class::Null => b"null r",
        Class::Hard => b"hard r",
        Class::Soft => b"soft r",
        Class::Share => b"share r",
        Class::Idle => b"idle r",
    }
}

/// The sum of counts.
pub fn total(counts: &[u32]) -> u128
    ensures { result ≡ sum counts.now }
{
    let mut total = 0;
    for count in counts {
        total += u128::from(*count);
    }
    total
}

/// What stands in a column at the left of the rows.
#[derive(Clone, Copy)]
pub enum Heading {
    /// The terms of its seat.
    Seat,
    /// What it was promised.
    Guarantee,
    /// At how many ticks it is served.
    Served,
    /// At how many ticks somebody is ready there.
    Ready,
    /// How much its promise had to spare.
    Spare,
}

/// The head of such a column.
#[tactic(auto, unfolding(crate::specs::Rows::head_of))]
pub fn head_of(heading: Heading) -> &'static [u8]
    ensures { result.now ≡ told.head_of heading }
{
    match heading {
        Heading::Seat => b"seat",
        Heading::Guarantee => b"guarantee",
        Heading::Served => b"served",
        Heading::Ready => b"ready",
        Heading::Spare => b"spare",
    }
}

fn number_len(number: u128) -> usize
    ensures { result ≡ length (decimal number) }
{
    let mut buffer = Buffer::new();
    buffer.format(number).len()
}

fn ready_len(row: &PictureRow) -> usize
    ensures { result ≡ length (told.ready_text row.now) }
{
    match row.class {
        Class::Idle => 0,
        _ => number_len(total(&row.ready)),
    }
}

/// How long the text of a row is in a column at the left.
pub(crate) fn cell_len(row: &PictureRow, heading: Heading) -> usize
    ensures { result ≡ length (told.cell_of heading row.now) }
{
    match heading {
        Heading::Seat => row.terms.len(),
        Heading::Guarantee => row.guarantee.len(),
        Heading::Served => number_len(total(&row.served)),
        Heading::Ready => ready_len(row),
        Heading::Spare => row.spare.len(),
    }
}

/// The text of a number.
///
/// # Errors
/// Returns `AllocError` for want of memory.
pub fn number_text(alloc: Global, number: u128) -> Result<Vec<u8>, AllocError>
    ensures { IfOk result (λ text. text.items ≡ decimal number) }
{
    let mut text = Vec::new(alloc);
    put_number(&mut text, number)?;
    Ok(text)
}

/// The number of ticks at which somebody is ready at a row, as text.
pub(crate) fn ready_text(alloc: Global, row: &PictureRow) -> Result<Vec<u8>, AllocError>
    ensures { IfOk result (λ text. text.items ≡ told.ready_text row.now) }
{
    match row.class {
        Class::Idle => Ok(Vec::new(alloc)),
        _ => number_text(alloc, total(&row.ready)),
    }
}
