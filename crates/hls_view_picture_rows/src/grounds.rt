// The grounds of the rows.
ghost use Rattle.std.specs.Prelude.{◌≡◌, ◌<◌, ◌^◌, ◌++◌, OnOk};
ghost use Rattle.hls_view_picture_rows.specs.RowTexts as told;

use crate::picture::PictureRow;
use hls_view_marks::{Area, Bars, Page, put_area_path, put_grounds, row_top};
use std::alloc::{AllocError, Global};

#[tactic(auto, unfolding(crate::specs::RowTexts::shade_text))]
fn put_shade(out: &mut Vec<u8>, page: &Page, is_leaf: bool, top: u128) -> Result<(), AllocError>
    requires { page.now.left < 2 ^ 80 }
    ensures { OnOk result (out.new.items ≡ out.old.items ++ told.shade_text page.now is_leaf top) }
{
    if is_leaf {
        return Ok(());
    }
    put_area_path(
        out,
        b"s",
        Area {
            x: 0,
            y: top,
            wide: page.left + page.scale.across(),
            high: 20,
        },
    )
}

#[tactic(auto, unfolding(crate::specs::RowTexts::ground_text))]
fn put_ground(
    alloc: Global,
    out: &mut Vec<u8>,
    page: &Page,
    place: usize,
    row: &PictureRow,
) -> Result<(), AllocError>
    requires { page.now.left < 2 ^ 80 }
    ensures { OnOk result (out.new.items ≡ out.old.items ++ told.ground_text page.now place row.now) }
{
    let top = row_top(place);
    put_shade(out, page, row.is_leaf, top)?;
    let bars = Bars {
        class: b"x",
        counts: &row.here,
        full: 18,
        base: top + 19,
    };
    put_grounds(alloc, out, page, &bars)
}

/// Appends the ground of each row.
///
/// # Errors
/// Returns `AllocError` for want of memory.
#[tactic(auto, unfolding(crate::specs::RowTexts::grounds))]
pub fn put_row_grounds(
    alloc: Global,
    out: &mut Vec<u8>,
    page: &Page,
    rows: &[PictureRow],
) -> Result<(), AllocError>
    requires { page.now.left < 2 ^ 80 }
    ensures { OnOk result (out.new.items ≡ out.old.items ++ told.grounds page.now rows.now) }
{
    for (place, row) in rows.iter().enumerate() {
        put_ground(alloc, out, page, place, row)?;
    }
    Ok(())
}
