// What was asked, as titles of strips above the columns.
ghost use Rattle.std.specs.Prelude.{◌≡◌, ◌<◌, ◌^◌, ◌++◌, Some, OnOk};
ghost use Rattle.hls_view_picture.specs.Strips as told;

use hls_text::put;
use hls_view_marks::{Page, column_x};
use hls_view_picture_frame::{column_of, put_command_line};
use hls_view_picture_rows::ShownCommand;
use hls_view_pieces::Piece::{Number, Text};
use hls_view_pieces::put_pieces;
use std::alloc::AllocError;

#[tactic(auto, unfolding(crate::specs::Strips::open_text))]
fn put_open(out: &mut Vec<u8>, page: &Page, column: u32) -> Result<(), AllocError>
    requires { page.now.left < 2 ^ 80 }
    ensures { OnOk result (out.new.items ≡ out.old.items ++ told.open_text page.now column) }
{
    put_pieces(
        out,
        &[
            Text(b"<path class=\"v\" d=\"M"),
            Number(column_x(page, u64::from(column))),
            Text(b" 108h"),
            Number(u128::from(page.scale.wide)),
            Text(b"v18h-"),
            Number(u128::from(page.scale.wide)),
            Text(b"z\"><title>"),
        ],
    )
}

#[tactic(auto, unfolding(crate::specs::Strips::close_text))]
fn put_close(out: &mut Vec<u8>, column: Option<u32>) -> Result<(), AllocError>
    ensures { OnOk result (out.new.items ≡ out.old.items ++ told.close_text column) }
{
    match column {
        None => Ok(()),
        Some(_) => put(out, b"</title></path>\n"),
    }
}

fn is_in(column: Option<u32>, next: u32) -> bool
    ensures { result ≡ told.is_in column next }
{
    match column {
        None => false,
        Some(column) => column == next,
    }
}

#[tactic(auto, unfolding(crate::specs::Strips::turn_text))]
fn put_turn(
    out: &mut Vec<u8>,
    page: &Page,
    column: Option<u32>,
    next: u32,
) -> Result<(), AllocError>
    requires { page.now.left < 2 ^ 80 }
    ensures { OnOk result (out.new.items ≡ out.old.items ++ told.turn_text page.now column next) }
{
    if is_in(column, next) {
        return put(out, b"\n");
    }
    put_close(out, column)?;
    put_open(out, page, next)
}

/// Appends what was asked.
#[tactic(auto, unfolding(crate::specs::Strips::titles_text))]
pub(crate) fn put_titles(
    out: &mut Vec<u8>,
    page: &Page,
    commands: &[ShownCommand],
) -> Result<(), AllocError>
    requires { page.now.left < 2 ^ 80 }
    ensures { OnOk result (out.new.items ≡ out.old.items ++ told.titles_text page.now commands.now) }
{
    let mut column = None;
    for command in commands {
        let next = column_of(&page.scale, command.tick);
        put_turn(out, page, column, next)?;
        put_command_line(out, command)?;
        column = Some(next);
    }
    put_close(out, column)
}
