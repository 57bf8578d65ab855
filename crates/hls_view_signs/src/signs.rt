// What happens in the rows of a picture.
ghost use Rattle.hls_chron.specs.Ranges.{longest_horizon};
ghost use Rattle.std.specs.Prelude.{◌≡◌, ◌<◌, ◌&&◌, ◌==◌, ℕ, IfOk, OnOk};
ghost use Rattle.std.specs.List.{list_any};
ghost use Rattle.hls_report_text.specs.Content.{Content, content_of};
ghost use Rattle.hls_report_text.specs.WellFormed.{IsWellFormed};
ghost use Rattle.hls_view_signs.specs.Columns.{columns_with};
ghost use Rattle.hls_view_signs.specs.Happenings.{happens_in};
ghost use Rattle.hls_view_signs.specs.Signs.{IsSigns, AreSigns};
ghost use Rattle.hls_view_signs.specs.Inside.Found.{column_of, is_found};
ghost use Rattle.hls_view_signs.specs.Inside.Moments.{AreMoments, has};

use crate::columns::{column_of, in_order, put_column};
use crate::event::Event;
use crate::moments::{Moment, moments_of};
use hls_chron::List;
use hls_report_text::Report;
use hls_view_scale::Scale;
use hls_view_tale::Label;
use std::alloc::{AllocError, Global};

/// What happens in a row: the columns that have such a tick, from the left, each once.
#[derive(Debug, Drop)]
pub struct Signs {
    /// A stay with this place begins.
    pub begins: List<u32>,
    /// A thread that has this place is woken, by a command or by a later release of a periodic wake.
    pub wakes: List<u32>,
    /// A wake or a block drops a job of a thread that has this place.
    pub drops: List<u32>,
}

/// The columns in which something happens in a row, as they come.
fn found_in(
    alloc: Global,
    scale: &Scale,
    moments: &[Moment],
    event: Event,
    row: &[Label],
) -> Result<Vec<u32>, AllocError>
    ensures { IfOk result (λ found. (k : ℕ) → is_found found.items k
        ≡ list_any (λ m. has event row.now m && column_of scale.now m.tick == k) moments.now) }
{
    let mut found = Vec::new(alloc);
    for moment in moments {
        if moment.has(event, row) {
            put_column(&mut found, column_of(scale, moment.tick))?;
        }
    }
    Ok(found)
}

/// The columns in which something happens in a row, from the left.
fn columns_for(
    alloc: Global,
    scale: &Scale,
    moments: &[Moment],
    event: Event,
    row: &[Label],
) -> Result<List<u32>, AllocError>
    requires { scale.now.to < longest_horizon }
    ensures { IfOk result (λ columns. (c : Content) → AreMoments c scale.now moments.now →
        columns ≡ columns_with scale.now (happens_in c event row.now)) }
{
    let found = found_in(alloc, scale, moments, event, row)?;
    Ok(List::of(in_order(alloc, scale, &found)?))
}

/// What happens in a row.
fn signs_for(
    alloc: Global,
    scale: &Scale,
    moments: &[Moment],
    row: &[Label],
) -> Result<Signs, AllocError>
    requires { scale.now.to < longest_horizon }
    ensures { IfOk result (λ signs. (c : Content) → AreMoments c scale.now moments.now →
        IsSigns c scale.now row.now signs) }
{
    Ok(Signs {
        begins: columns_for(alloc, scale, moments, Event::Begun, row)?,
        wakes: columns_for(alloc, scale, moments, Event::Woken, row)?,
        drops: columns_for(alloc, scale, moments, Event::Dropped, row)?,
    })
}

/// What happens in these rows in the shown ticks of a report, row by row.
///
/// # Errors
/// Returns `AllocError` where there is no memory for what is kept beside the report.
#[tactic(auto, using(hls_report_text::proofs::LineTexts::horizon_fits))]
pub fn signs_of(
    alloc: Global,
    report: &Report,
    scale: &Scale,
    rows: &[List<Label>],
) -> Result<Vec<Signs>, AllocError>
    requires formed { IsWellFormed report.now }
    requires early { scale.now.to < report.now.horizon }
    ensures { IfOk result (λ all. AreSigns (content_of report.now) scale.now rows.now all.items) }
{
    let moments = moments_of(alloc, report, scale)?;
    let mut all = Vec::new(alloc);
    for row in rows {
        all.push(signs_for(alloc, scale, &moments, row.items())?)?;
    }
    Ok(all)
}
