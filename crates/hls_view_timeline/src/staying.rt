// Stays on the tracks of their places.
ghost use Rattle.hls_chron.specs.Ranges.{longest_horizon};
ghost use Rattle.std.specs.Prelude.{◌≡◌, ◌+◌, ◌-◌, ◌++◌, ◌<◌, ◌≤◌, [], IfOk, OnOk, flat_map, get_or, length, map};
ghost use Rattle.std.specs.List.{AllByRecursion, range_with_len};
ghost use Rattle.hls_guarantee.specs.Limits.{IsValid};
ghost use Rattle.hls_report_text.specs.Content.{content_of};
ghost use Rattle.hls_report_text.specs.WellFormed.{IsWellFormed};
ghost use Rattle.hls_view_trace.specs.declared.event.Event.TheVariants as variants;
ghost use Rattle.hls_view_timeline.specs.Taken as takes;
ghost use Rattle.hls_view_timeline.specs.Staying as told;
ghost use Rattle.hls_view_timeline.specs.Inside.Accounts.{IsWithin};
ghost use Rattle.hls_view_timeline.specs.Inside.Readings.{AreReadings};

use crate::numbers::track_of;
use crate::readings::Readings;
use crate::slices::{Ticks, put_inner};
use crate::ways::ways_to;
use hls_chron::List;
use hls_report_text::{Account, Report};
use hls_view_tale::Label;
use hls_view_texts::guarantee_text;
use hls_view_trace::{Category, Counts, Event, Place, Slice};
use std::alloc::{AllocError, Global};

fn is_number(number: usize, taken: &Option<usize>) -> bool
    ensures { result ≡ takes.is_number number taken.now }
{
    match taken {
        Some(taken) => *taken == number,
        None => false,
    }
}

/// Which ticks take the way of a number.
fn taking(alloc: Global, number: usize, taken: &[Option<usize>]) -> Result<Vec<bool>, AllocError>
    ensures { IfOk result (λ on. on.items ≡ map (takes.is_number number) taken.now) }
{
    let mut on = Vec::new(alloc);
    for one in taken {
        on.push(is_number(number, one))?;
    }
    Ok(on)
}

fn stay_slice(alloc: Global, place: Place, account: &Account) -> Result<Slice, AllocError>
    requires { IsValid account.now.kept }
    ensures { IfOk result (λ slice. variants.Slice slice ≡ told.stay_slice place account.now) }
{
    Ok(Slice {
        category: Category::Stay,
        name: List::of(guarantee_text(alloc, &account.kept)?),
        place,
        from: account.from,
        to: account.to,
        counts: Some(Counts {
            ready: account.ready,
            served: account.served,
        }),
    })
}

/// A stay: in which of its ticks its thread is ready, and which of its ways each takes.
#[derive(Clone, Copy)]
struct Told<'a> {
    account: &'a Account,
    ready: &'a [bool],
    taken: &'a [Option<usize>],
}

/// Adds the events of a stay on a track, which shows the ticks that take the way of a number.
fn put_track(
    alloc: Global,
    events: &mut Vec<Event>,
    place: Place,
    stay: &Told,
    number: usize,
) -> Result<(), AllocError>
    requires valid { IsValid stay.now.account.now.kept }
    requires alike { length stay.now.taken.now ≡ length stay.now.ready.now }
    requires few { stay.now.account.now.from + length stay.now.ready.now ≤ longest_horizon }
    ensures { OnOk result (events.new.items ≡ events.old.items
        ++ told.track_events place stay.now.account.now stay.now.ready.now stay.now.taken.now number) }
{
    let slice = stay_slice(alloc, place, stay.account)?;
    events.push(Event::Slice(slice))?;
    let on = taking(alloc, number, stay.taken)?;
    let ticks = Ticks {
        from: stay.account.from,
        ready: stay.ready,
        taken: &on,
    };
    put_inner(alloc, events, place, &ticks)
}

/// Adds the events of a stay on the tracks of its ways.
fn put_stay(
    alloc: Global,
    events: &mut Vec<Event>,
    rows: &[List<Label>],
    ways: &[List<Label>],
    stay: &Told,
) -> Result<(), AllocError>
    requires rows { length rows.now < 4096 }
    requires valid { IsValid stay.now.account.now.kept }
    requires alike { length stay.now.taken.now ≡ length stay.now.ready.now }
    requires few { stay.now.account.now.from + length stay.now.ready.now ≤ longest_horizon }
    ensures { OnOk result (events.new.items ≡ events.old.items
        ++ told.stay_events rows.now ways.now stay.now.account.now stay.now.ready.now stay.now.taken.now) }
{
    for number in 0..ways.len() {
        let place = track_of(rows, ways[number].items());
        put_track(alloc, events, place, stay, number)?;
    }
    Ok(())
}

/// A report, and the rows of all its ticks.
#[derive(Clone, Copy)]
pub(crate) struct Shown<'a> {
    pub(crate) report: &'a Report,
    pub(crate) rows: &'a [List<Label>],
}

/// Adds the events of the stay of an account.
#[tactic(auto, using(hls_report_text::proofs::LineTexts::horizon_fits))]
fn put_account(
    alloc: Global,
    events: &mut Vec<Event>,
    shown: &Shown,
    readings: &mut Readings,
    account: &Account,
) -> Result<(), AllocError>
    requires formed { IsWellFormed shown.now.report.now }
    requires rows { length shown.now.rows.now < 4096 }
    requires readings { AreReadings shown.now.report.now readings.old }
    requires within { IsWithin (content_of shown.now.report.now) account.now }
    ensures readings { OnOk result (AreReadings shown.now.report.now readings.new) }
    ensures events { OnOk result (events.new.items ≡ events.old.items
        ++ told.account_events (content_of shown.now.report.now) shown.now.rows.now account.now) }
{
    let ways = ways_to(alloc, shown.report, account.from, &account.name)?;
    let ready = readings.ready_in(alloc, shown.report, account)?;
    let taken = readings.taken_in(alloc, shown.report, &ways, account)?;
    let stay = Told {
        account,
        ready: &ready,
        taken: &taken,
    };
    put_stay(alloc, events, shown.rows, &ways, &stay)
}

fn put_all(
    alloc: Global,
    events: &mut Vec<Event>,
    shown: &Shown,
    readings: &mut Readings,
    accounts: &[Account],
) -> Result<(), AllocError>
    requires formed { IsWellFormed shown.now.report.now }
    requires rows { length shown.now.rows.now < 4096 }
    requires readings { AreReadings shown.now.report.now readings.old }
    requires within { AllByRecursion (IsWithin (content_of shown.now.report.now)) accounts.now }
    ensures { OnOk result (events.new.items ≡ events.old.items
        ++ flat_map (told.account_events (content_of shown.now.report.now) shown.now.rows.now) accounts.now) }
{
    for account in accounts {
        put_account(alloc, events, shown, readings, account)?;
    }
    Ok(())
}

/// Adds the events of these stays, one after another.
///
/// # Errors
/// Returns `AllocError` for want of memory.
pub(crate) fn put_stays(
    alloc: Global,
    events: &mut Vec<Event>,
    shown: &Shown,
    accounts: &[Account],
) -> Result<(), AllocError>
    requires formed { IsWellFormed shown.now.report.now }
    requires rows { length shown.now.rows.now < 4096 }
    requires within { AllByRecursion (IsWithin (content_of shown.now.report.now)) accounts.now }
    ensures { OnOk result (events.new.items ≡ events.old.items
        ++ flat_map (told.account_events (content_of shown.now.report.now) shown.now.rows.now) accounts.now) }
{
    let mut readings = Readings::of(alloc, shown.report)?;
    put_all(alloc, events, shown, &mut readings, accounts)
}
