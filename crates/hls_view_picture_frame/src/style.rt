// The style of a picture.
ghost use Rattle.std.specs.Prelude.{◌≡◌, ◌++◌, OnOk};
ghost use Rattle.hls_view_picture_frame.specs.Style as told;

use hls_view_pieces::Piece::Text;
use hls_view_pieces::put_pieces;
use std::alloc::AllocError;

#[tactic(auto, unfolding(crate::specs::Style::text_style))]
fn put_text_style(out: &mut Vec<u8>) -> Result<(), AllocError>
    ensures { OnOk result (out.new.items ≡ out.old.items ++ told.text_style) }
{
    put_pieces(
        out,
        &[
            Text(b"<style>\n"),
            Text(b"text{font:11px monospace;fill:#1b1b1b;white-space:pre}"),
            Text(b"path{shape-rendering:crispEdges}\n"),
            Text(b".h{font-size:14px;font-weight:bold}.b{font-weight:bold}.m{fill:#595959}"),
            Text(b".e{text-anchor:end}.c{text-anchor:middle}\n"),
            Text(b".bg{fill:#ffffff}.x{fill:#eceef1}.s{fill:#f6f6f6}.g{stroke:#d9d9d9;fill:none}"),
            Text(b".l{stroke:#8c8c8c;fill:none}\n"),
            Text(b".all{fill:#aa4499}.hard{fill:#0072b2}.soft{fill:#009e73}.share{fill:#d55e00}"),
        ],
    )
}

#[tactic(auto, unfolding(crate::specs::Style::bars_style))]
fn put_bars_style(out: &mut Vec<u8>) -> Result<(), AllocError>
    ensures { OnOk result (out.new.items ≡ out.old.items ++ told.bars_style) }
{
    put_pieces(
        out,
        &[
            Text(b".null,.idle{fill:#767676}\n"),
            Text(
                b".all.r{fill:#e2bfdd}.hard.r{fill:#b3d3e8}.soft.r{fill:#b0dfd0}.share.r{fill:#f5cfb3}",
            ),
            Text(b".null.r{fill:#cfcfcf}\n"),
            Text(b".o,.t{stroke:#1b1b1b;fill:none}.d{stroke-dasharray:3 2}"),
            Text(b".k{fill:#1b1b1b;shape-rendering:auto}.q{fill-opacity:.4}\n"),
            Text(b".n{stroke:#c00000;stroke-width:2;fill:none;shape-rendering:auto}"),
            Text(b".nt{fill:#c00000;font-weight:bold}\n"),
            Text(b".v{fill:#1b1b1b;fill-opacity:0}.v:hover{fill-opacity:.14}\n"),
        ],
    )
}

#[tactic(auto, unfolding(crate::specs::Style::dark_style))]
fn put_dark_style(out: &mut Vec<u8>) -> Result<(), AllocError>
    ensures { OnOk result (out.new.items ≡ out.old.items ++ told.dark_style) }
{
    put_pieces(
        out,
        &[
            Text(b"@media screen and (prefers-color-scheme:dark){\n"),
            Text(
                b"text{fill:#e8e8e8}.m{fill:#a6a6a6}.bg{fill:#16181c}.x{fill:#2a2f37}.s{fill:#1c1f24}",
            ),
            Text(b".g{stroke:#34383f}.l{stroke:#7d838c}\n"),
            Text(b".all{fill:#d47fbe}.hard{fill:#3aa0e0}.soft{fill:#1fc495}.share{fill:#f08030}"),
            Text(b".null,.idle{fill:#9a9a9a}\n"),
            Text(
                b".all.r{fill:#5e3d56}.hard.r{fill:#1f4b66}.soft.r{fill:#1a5a49}.share.r{fill:#6b4020}",
            ),
            Text(b".null.r{fill:#484b50}\n"),
            Text(b".o,.t{stroke:#e8e8e8}.k{fill:#e8e8e8}.n{stroke:#ff6b6b}.nt{fill:#ff6b6b}"),
            Text(b".v{fill:#ffffff}\n"),
            Text(b"}\n"),
            Text(b"@media print{svg:root{width:100%;height:auto}}\n"),
            Text(b"@page{size:landscape}\n"),
            Text(b"</style>\n"),
        ],
    )
}

/// Appends the style.
///
/// # Errors
/// Returns `AllocError` for want of memory.
#[tactic(auto, unfolding(crate::specs::Style::style_text))]
pub fn put_style(out: &mut Vec<u8>) -> Result<(), AllocError>
    ensures { OnOk result (out.new.items ≡ out.old.items ++ told.style_text) }
{
    put_text_style(out)?;
    put_bars_style(out)?;
    put_dark_style(out)
}
