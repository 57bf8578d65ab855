// The whole text of a picture.
ghost use Rattle.std.specs.Prelude.{◌≡◌, ◌<◌, ◌^◌, ◌++◌, IfOk, OnOk, map};
ghost use Rattle.hls_view_picture.specs.Pictures as told;

use crate::between::{put_links, put_moves};
use crate::ending::put_ending;
use crate::strips::put_strips;
use crate::titles;
use hls_view_marks::{Area, Page, Shapes, Spot, put_area_path, put_marks, put_text, row_top};
use hls_view_picture_frame::{
    columns_where, head_line, picture_high, picture_wide, put_axis, put_heads, put_legend,
    put_style, put_svg, put_titles, put_words, refusal_lines, sums_line,
};
use hls_view_picture_rows::{Picture, ShownCommand, page_of, put_row_grounds, put_rows};
use std::alloc::{AllocError, Global};

#[tactic(auto, unfolding(crate::specs::Pictures::opening_text))]
fn put_opening(
    alloc: Global,
    out: &mut Vec<u8>,
    page: &Page,
    lines: &[Vec<u8>],
    picture: &Picture,
) -> Result<(), AllocError>
    requires { page.now.left < 2 ^ 80 }
    ensures { OnOk result (out.new.items ≡ out.old.items
        ++ told.opening_text page.now (map (λ line. line.items) lines.now) picture.now) }
{
    let wide = picture_wide(page, lines);
    let high = picture_high(picture.rows.len(), lines);
    let head = head_line(alloc, picture)?;
    let sums = sums_line(alloc, picture)?;
    put_svg(out, wide, high)?;
    put_titles(out, &head, &sums)?;
    put_style(out)?;
    let all = Area {
        x: 0,
        y: 0,
        wide,
        high,
    };
    put_area_path(out, b"bg", all)
}

#[tactic(auto, unfolding(crate::specs::Pictures::legends_text))]
fn put_legends(alloc: Global, out: &mut Vec<u8>, picture: &Picture) -> Result<(), AllocError>
    ensures { OnOk result (out.new.items ≡ out.old.items ++ told.legends_text picture.now) }
{
    let head = head_line(alloc, picture)?;
    let sums = sums_line(alloc, picture)?;
    put_heads(out, picture.broken_at, &head, &sums)?;
    put_legend(out)?;
    put_words(out)
}

#[tactic(auto, unfolding(crate::specs::Pictures::asked_text))]
fn put_asked(
    alloc: Global,
    out: &mut Vec<u8>,
    page: &Page,
    commands: &[ShownCommand],
) -> Result<(), AllocError>
    requires { page.now.left < 2 ^ 80 }
    ensures { OnOk result (out.new.items ≡ out.old.items ++ told.asked_text page.now commands.now) }
{
    let done = columns_where(alloc, &page.scale, commands, false)?;
    let refused = columns_where(alloc, &page.scale, commands, true)?;
    put_text(out, b"m", Spot { x: 10, y: 122 }, b"commands")?;
    let lines = Shapes {
        class: b"o",
        columns: &done,
        back: 0,
        down: 114,
        shape: b"v6",
    };
    put_marks(alloc, out, page, &lines)?;
    let crosses = Shapes {
        class: b"n",
        columns: &refused,
        back: 3,
        down: 119,
        shape: b"l6 6m0-6l-6 6",
    };
    put_marks(alloc, out, page, &crosses)
}

#[tactic(auto, unfolding(crate::specs::Pictures::plot_text))]
fn put_plot(
    alloc: Global,
    out: &mut Vec<u8>,
    page: &Page,
    picture: &Picture,
) -> Result<(), AllocError>
    requires { page.now.left < 2 ^ 80 }
    ensures { OnOk result (out.new.items ≡ out.old.items ++ told.plot_text page.now picture.now) }
{
    put_row_grounds(alloc, out, page, &picture.rows)?;
    put_axis(alloc, out, page, row_top(picture.rows.len()))?;
    put_asked(alloc, out, page, &picture.commands)?;
    put_rows(alloc, out, page, &picture.rows)
}

#[tactic(auto, unfolding(crate::specs::Pictures::over_text))]
fn put_over(
    alloc: Global,
    out: &mut Vec<u8>,
    page: &Page,
    picture: &Picture,
) -> Result<(), AllocError>
    requires { page.now.left < 2 ^ 80 }
    ensures { OnOk result (out.new.items ≡ out.old.items ++ told.over_text page.now picture.now) }
{
    put_links(alloc, out, &picture.rows)?;
    put_moves(alloc, out, page, &picture.moves)?;
    let bottom = row_top(picture.rows.len());
    put_strips(alloc, out, page, bottom, &picture.strips)?;
    titles::put_titles(out, page, &picture.commands)
}

#[tactic(auto, unfolding(crate::specs::Pictures::parts_text))]
fn put_parts(
    alloc: Global,
    out: &mut Vec<u8>,
    page: &Page,
    lines: &[Vec<u8>],
    picture: &Picture,
) -> Result<(), AllocError>
    requires { page.now.left < 2 ^ 80 }
    ensures { OnOk result (out.new.items ≡ out.old.items
        ++ told.parts_text page.now (map (λ line. line.items) lines.now) picture.now) }
{
    put_opening(alloc, out, page, lines, picture)?;
    put_legends(alloc, out, picture)?;
    put_plot(alloc, out, page, picture)?;
    put_over(alloc, out, page, picture)?;
    put_ending(alloc, out, page, lines, picture)
}

/// Appends the text of a picture.
///
/// # Errors
/// Returns `AllocError` for want of memory.
pub fn write_picture(alloc: Global, out: &mut Vec<u8>, picture: &Picture) -> Result<(), AllocError>
    ensures { OnOk result (out.new.items ≡ out.old.items ++ told.picture_text picture.now) }
{
    let page = page_of(picture);
    let lines = refusal_lines(alloc, &picture.commands)?;
    put_parts(alloc, out, &page, &lines, picture)
}
