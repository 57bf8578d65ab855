// Commands as instants.
ghost use Rattle.std.specs.Prelude.{◌≡◌, ◌++◌, IfOk, OnOk};
ghost use Rattle.hls_view_trace.specs.declared.event.Event.TheVariants as events;
ghost use Rattle.std.specs.List.{AllByRecursion};
ghost use Rattle.hls_scenario.specs.Grammar.{IsCommand};
ghost use Rattle.hls_report_text.specs.WellFormed.{IsWellFormed, MayAnswer};
ghost use Rattle.hls_view_tracks.specs.Commands as told;

use hls_chron::List;
use hls_report_text::{Answer, Answered, Report, put_refusal};
use hls_scenario::print_command;
use hls_text::put;
use hls_view_trace::{Category, Event, Instant, Place};
use std::alloc::{AllocError, Global};

fn category_of(answer: &Answer) -> Category
    ensures { result ≡ told.category_of answer.now }
{
    match answer {
        Answer::Done(_) => Category::Done,
        Answer::Refused(_) => Category::Refused,
    }
}

fn put_answer(text: &mut Vec<u8>, answer: &Answer) -> Result<(), AllocError>
    ensures { OnOk result (text.new.items ≡ text.old.items ++ told.answer_text answer.now) }
{
    match answer {
        Answer::Done(_) => put(text, b"done"),
        Answer::Refused(refusal) => {
            put(text, b"refused ")?;
            put_refusal(text, refusal)
        }
    }
}

fn instant_of(alloc: Global, version: u8, place: Place, a: &Answered) -> Result<Instant, AllocError>
    requires { IsCommand version a.now.command }
    ensures { IfOk result (λ instant. events.Instant instant ≡ told.instant_of version place a.now) }
{
    let name = print_command(alloc, version, &a.command)?;
    let mut answer = Vec::new(alloc);
    put_answer(&mut answer, &a.answer)?;
    Ok(Instant {
        category: category_of(&a.answer),
        name: List::of(name),
        place,
        tick: a.tick,
        answer: List::of(answer),
    })
}

fn instants_of(
    alloc: Global,
    version: u8,
    place: Place,
    answered: &[Answered],
) -> Result<Vec<Event>, AllocError>
    requires { AllByRecursion (λ a. IsCommand version a.command × MayAnswer a.command a.answer) answered.now }
    ensures { IfOk result (λ events. events.items ≡ told.instants version place answered.now) }
{
    let mut events = Vec::new(alloc);
    for a in answered {
        let instant = instant_of(alloc, version, place, a)?;
        events.push(Event::Instant(instant))?;
    }
    Ok(events)
}

/// The commands of a report as instants of a track, in their order.
///
/// # Errors
/// Returns `AllocError` for want of memory.
pub fn command_events(
    alloc: Global,
    report: &Report,
    place: Place,
) -> Result<Vec<Event>, AllocError>
    requires { IsWellFormed report.now }
    ensures { IfOk result (λ events. events.items ≡ told.instants report.now.version place report.now.answered) }
{
    instants_of(alloc, report.version, place, report.answered.items())
}
