// What stands above the rows: the head, the style and the legend.
ghost use Rattle.std.specs.Prelude.{◌≡◌, ◌+◌, ◌<◌, ◌^◌, ◌++◌, IfOk, OnOk, count_by, map};
ghost use Rattle.hls_view_picture_frame.specs.Front as told;
ghost use Rattle.hls_view_picture_frame.specs.Commands.{is_done, is_refused};

use crate::commands::is_refused;
use hls_view_marks::{Page, Spot, put_text, row_top};
use hls_view_picture_rows::{Picture, PictureRow, ShownCommand, total};
use hls_view_pieces::Piece::{Number, Text};
use hls_view_pieces::put_pieces;
use std::alloc::{AllocError, Global};

fn lines_wide(lines: &[Vec<u8>]) -> u128
    ensures is { result ≡ told.lines_wide (map (λ line. line.items) lines.now) }
    ensures within { result < 2 ^ 70 }
{
    let mut longest = 0;
    for line in lines {
        longest = longest.max(line.len());
    }
    7 * longest as u128
}

/// How wide a picture is, below whose rows these lines stand.
pub fn picture_wide(page: &Page, lines: &[Vec<u8>]) -> u128
    requires { page.now.left < 2 ^ 80 }
    ensures { result ≡ told.picture_wide page.now (map (λ line. line.items) lines.now) }
{
    let rows = page.left + page.scale.across() + 44;
    rows.max(1160).max(20 + lines_wide(lines))
}

fn lines_high(lines: &[Vec<u8>]) -> u128
    ensures is { result ≡ told.lines_high (map (λ line. line.items) lines.now) }
    ensures within { result < 2 ^ 70 }
{
    match lines {
        [] => 0,
        _ => 20 * (lines.len() as u128 + 1),
    }
}

/// How high a picture of so many rows is, below which these lines stand.
pub fn picture_high(rows: usize, lines: &[Vec<u8>]) -> u128
    ensures { result ≡ told.picture_high rows (map (λ line. line.items) lines.now) }
{
    row_top(rows) + 32 + lines_high(lines)
}

#[tactic(auto, unfolding(crate::specs::Front::ticks_words))]
fn put_ticks_words(out: &mut Vec<u8>, from: u128, to: u128, horizon: u128) -> Result<(), AllocError>
    ensures { OnOk result (out.new.items ≡ out.old.items ++ told.ticks_words from to horizon) }
{
    put_pieces(
        out,
        &[
            Text(b"Schedule of the ticks "),
            Number(from),
            Text(b" to "),
            Number(to),
            Text(b" of "),
            Number(horizon),
        ],
    )
}

#[tactic(auto, unfolding(crate::specs::Front::head_line))]
fn put_head_line(out: &mut Vec<u8>, picture: &Picture) -> Result<(), AllocError>
    ensures { OnOk result (out.new.items ≡ out.old.items ++ told.head_line picture.now) }
{
    let from = u128::from(picture.scale.from);
    let to = u128::from(picture.scale.to);
    put_ticks_words(out, from, to, u128::from(picture.horizon))
}

fn ticks_served(rows: &[PictureRow]) -> u128
    ensures { result ≡ told.ticks_served rows.now }
{
    match rows.get(0) {
        Some(row) => total(&row.served),
        None => 0,
    }
}

fn ticks_idle(rows: &[PictureRow]) -> u128
    ensures { result ≡ told.ticks_idle rows.now }
{
    match rows.get(rows.len().saturating_sub(1)) {
        Some(row) => total(&row.served),
        None => 0,
    }
}

fn done_count(commands: &[ShownCommand]) -> usize
    ensures { result ≡ count_by is_done commands.now }
{
    commands
        .iter()
        .filter(|command| !is_refused(command))
        .count()
}

fn refused_count(commands: &[ShownCommand]) -> usize
    ensures { result ≡ count_by is_refused commands.now }
{
    commands
        .iter()
        .filter(|command| is_refused(command))
        .count()
}

#[tactic(auto, unfolding(crate::specs::Front::column_words))]
fn put_column_words(out: &mut Vec<u8>, ticks: u64) -> Result<(), AllocError>
    ensures { OnOk result (out.new.items ≡ out.old.items ++ told.column_words ticks) }
{
    if ticks == 1 {
        return put_pieces(out, &[Text(b"a column is 1 tick")]);
    }
    put_pieces(
        out,
        &[
            Text(b"a column is "),
            Number(u128::from(ticks)),
            Text(b" ticks, and a bar as high as its part of them"),
        ],
    )
}

#[tactic(auto, unfolding(crate::specs::Front::audit_words))]
fn put_audit_words(
    out: &mut Vec<u8>,
    verdict: &[u8],
    threads: u128,
    schedulers: u128,
) -> Result<(), AllocError>
    ensures { OnOk result (out.new.items ≡ out.old.items ++ told.audit_words verdict.now threads schedulers) }
{
    put_pieces(
        out,
        &[
            Text(b"audit "),
            Text(verdict),
            Text(b"; threads "),
            Number(threads),
            Text(b", schedulers "),
            Number(schedulers),
        ],
    )
}

#[tactic(auto, unfolding(crate::specs::Front::command_words))]
fn put_command_words(out: &mut Vec<u8>, done: usize, refused: usize) -> Result<(), AllocError>
    ensures { OnOk result (out.new.items ≡ out.old.items ++ told.command_words done refused) }
{
    put_pieces(
        out,
        &[
            Text(b"; commands done "),
            Number(done as u128),
            Text(b", refused "),
            Number(refused as u128),
        ],
    )
}

#[tactic(auto, unfolding(crate::specs::Front::service_words))]
fn put_service_words(out: &mut Vec<u8>, served: u128, idle: u128) -> Result<(), AllocError>
    ensures { OnOk result (out.new.items ≡ out.old.items ++ told.service_words served idle) }
{
    put_pieces(
        out,
        &[
            Text(b"; ticks served "),
            Number(served),
            Text(b", idle "),
            Number(idle),
            Text(b"; "),
        ],
    )
}

#[tactic(auto, unfolding(crate::specs::Front::sums_line))]
fn put_sums_line(out: &mut Vec<u8>, picture: &Picture) -> Result<(), AllocError>
    ensures { OnOk result (out.new.items ≡ out.old.items ++ told.sums_line picture.now) }
{
    let commands = &picture.commands;
    put_audit_words(
        out,
        &picture.verdict,
        u128::from(picture.threads),
        u128::from(picture.schedulers),
    )?;
    put_command_words(out, done_count(commands), refused_count(commands))?;
    let rows = &picture.rows;
    put_service_words(out, ticks_served(rows), ticks_idle(rows))?;
    put_column_words(out, picture.scale.ticks)
}

/// The line that says what is shown.
///
/// # Errors
/// Returns `AllocError` for want of memory.
pub fn head_line(alloc: Global, picture: &Picture) -> Result<Vec<u8>, AllocError>
    ensures { IfOk result (λ line. line.items ≡ told.head_line picture.now) }
{
    let mut line = Vec::new(alloc);
    put_head_line(&mut line, picture)?;
    Ok(line)
}

/// The line that says how much there is of all.
///
/// # Errors
/// Returns `AllocError` for want of memory.
pub fn sums_line(alloc: Global, picture: &Picture) -> Result<Vec<u8>, AllocError>
    ensures { IfOk result (λ line. line.items ≡ told.sums_line picture.now) }
{
    let mut line = Vec::new(alloc);
    put_sums_line(&mut line, picture)?;
    Ok(line)
}

/// Appends how a picture begins.
///
/// # Errors
/// Returns `AllocError` for want of memory.
#[tactic(auto, unfolding(crate::specs::Front::svg_text))]
pub fn put_svg(out: &mut Vec<u8>, wide: u128, high: u128) -> Result<(), AllocError>
    ensures { OnOk result (out.new.items ≡ out.old.items ++ told.svg_text wide high) }
{
    put_pieces(
        out,
        &[
            Text(b"<svg xmlns=\"http://www.w3.org/2000/svg\" width=\""),
            Number(wide),
            Text(b"\" height=\""),
            Number(high),
            Text(b"\" viewBox=\"0 0 "),
            Number(wide),
            Text(b" "),
            Number(high),
            Text(b"\" role=\"img\" aria-labelledby=\"a b\">\n"),
        ],
    )
}

/// Appends what a reader of the picture who does not see it is told.
///
/// # Errors
/// Returns `AllocError` for want of memory.
#[tactic(auto, unfolding(crate::specs::Front::titles_text))]
pub fn put_titles<'a>(out: &mut Vec<u8>, head: &'a [u8], sums: &'a [u8]) -> Result<(), AllocError>
    ensures { OnOk result (out.new.items ≡ out.old.items ++ told.titles_text head.now sums.now) }
{
    put_pieces(
        out,
        &[
            Text(b"<title id=\"a\">"),
            Text(head),
            Text(b"</title>\n<desc id=\"b\">"),
            Text(sums),
            Text(b"</desc>\n"),
        ],
    )
}

#[tactic(auto, unfolding(crate::specs::Front::sums_class))]
fn sums_class(broken: Option<u32>) -> &'static [u8]
    ensures { result.now ≡ told.sums_class broken }
{
    match broken {
        None => b"",
        Some(_) => b"nt",
    }
}

/// Appends the two lines above.
///
/// # Errors
/// Returns `AllocError` for want of memory.
#[tactic(auto, unfolding(crate::specs::Front::heads_text))]
pub fn put_heads(
    out: &mut Vec<u8>,
    broken: Option<u32>,
    head: &[u8],
    sums: &[u8],
) -> Result<(), AllocError>
    ensures { OnOk result (out.new.items ≡ out.old.items ++ told.heads_text broken head.now sums.now) }
{
    put_text(out, b"h", Spot { x: 10, y: 22 }, head)?;
    put_text(out, sums_class(broken), Spot { x: 10, y: 42 }, sums)
}
