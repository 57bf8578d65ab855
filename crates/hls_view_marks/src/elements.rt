// The elements of a picture, each on a line of its own.
ghost use Rattle.std.specs.Prelude.{◌≡◌, ◌++◌, OnOk};
ghost use Rattle.hls_view_marks.specs.Elements.{path_of, path_text, class_part, text_of, text_text, area_text};
ghost use Rattle.hls_view_marks.specs.Elements.{strip_text};

use hls_view_pieces::Piece::{Number, Text};
use hls_view_pieces::put_pieces;
use std::alloc::AllocError;

/// Where a text stands.
#[derive(Clone, Copy)]
pub struct Spot {
    pub x: u128,
    pub y: u128,
}

/// A rectangle: its upper left corner, and how wide and high it is.
#[derive(Clone, Copy)]
pub struct Area {
    pub x: u128,
    pub y: u128,
    pub wide: u128,
    pub high: u128,
}

/// Appends a path.
#[tactic(auto, unfolding(crate::specs::Elements::path_of))]
pub fn put_path_of<'a>(out: &mut Vec<u8>, class: &'a [u8], way: &'a [u8]) -> Result<(), AllocError>
    ensures { OnOk result (out.new.items ≡ out.old.items ++ path_of class.now way.now) }
{
    put_pieces(
        out,
        &[
            Text(b"<path class=\""),
            Text(class),
            Text(b"\" d=\""),
            Text(way),
            Text(b"\"/>\n"),
        ],
    )
}

/// Appends a path, unless it goes nowhere.
#[tactic(auto, unfolding(crate::specs::Elements::path_text))]
pub fn put_path(out: &mut Vec<u8>, class: &[u8], way: &[u8]) -> Result<(), AllocError>
    ensures { OnOk result (out.new.items ≡ out.old.items ++ path_text class.now way.now) }
{
    match way {
        [] => Ok(()),
        _ => put_path_of(out, class, way),
    }
}

#[tactic(auto, unfolding(crate::specs::Elements::class_part))]
fn put_class(out: &mut Vec<u8>, class: &[u8]) -> Result<(), AllocError>
    ensures { OnOk result (out.new.items ≡ out.old.items ++ class_part class.now) }
{
    match class {
        [] => Ok(()),
        _ => put_pieces(out, &[Text(b" class=\""), Text(class), Text(b"\"")]),
    }
}

/// Appends a text.
#[tactic(auto, unfolding(crate::specs::Elements::text_of))]
pub fn put_text_of(out: &mut Vec<u8>, class: &[u8], at: Spot, text: &[u8]) -> Result<(), AllocError>
    ensures { OnOk result (out.new.items ≡ out.old.items ++ text_of class.now at.x at.y text.now) }
{
    put_pieces(out, &[Text(b"<text")])?;
    put_class(out, class)?;
    put_pieces(
        out,
        &[
            Text(b" x=\""),
            Number(at.x),
            Text(b"\" y=\""),
            Number(at.y),
            Text(b"\">"),
            Text(text),
            Text(b"</text>\n"),
        ],
    )
}

/// Appends a text, unless it is empty.
#[tactic(auto, unfolding(crate::specs::Elements::text_text))]
pub fn put_text(out: &mut Vec<u8>, class: &[u8], at: Spot, text: &[u8]) -> Result<(), AllocError>
    ensures { OnOk result (out.new.items ≡ out.old.items ++ text_text class.now at.x at.y text.now) }
{
    match text {
        [] => Ok(()),
        _ => put_text_of(out, class, at, text),
    }
}

/// Appends the way around a rectangle.
#[tactic(auto, unfolding(crate::specs::Elements::area_text))]
fn put_area(way: &mut Vec<u8>, area: Area) -> Result<(), AllocError>
    ensures { OnOk result (way.new.items
        ≡ way.old.items ++ area_text area.x area.y area.wide area.high) }
{
    put_pieces(
        way,
        &[
            Text(b"M"),
            Number(area.x),
            Text(b" "),
            Number(area.y),
            Text(b"h"),
            Number(area.wide),
            Text(b"v"),
            Number(area.high),
            Text(b"h-"),
            Number(area.wide),
            Text(b"z"),
        ],
    )
}

/// Appends the path around a rectangle.
#[tactic(auto, unfolding(crate::specs::Elements::path_of))]
pub fn put_area_path(out: &mut Vec<u8>, class: &[u8], area: Area) -> Result<(), AllocError>
    ensures { OnOk result (out.new.items
        ≡ out.old.items ++ path_of class.now (area_text area.x area.y area.wide area.high)) }
{
    put_pieces(
        out,
        &[Text(b"<path class=\""), Text(class), Text(b"\" d=\"")],
    )?;
    put_area(out, area)?;
    put_pieces(out, &[Text(b"\"/>\n")])
}

/// Appends a rectangle that is not seen and has a title.
#[tactic(auto, unfolding(crate::specs::Elements::strip_text))]
pub fn put_strip(out: &mut Vec<u8>, area: Area, title: &[u8]) -> Result<(), AllocError>
    ensures { OnOk result (out.new.items
        ≡ out.old.items ++ strip_text area.x area.y area.wide area.high title.now) }
{
    put_pieces(out, &[Text(b"<path class=\"v\" d=\"")])?;
    put_area(out, area)?;
    put_pieces(
        out,
        &[Text(b"\"><title>"), Text(title), Text(b"</title></path>\n")],
    )
}
