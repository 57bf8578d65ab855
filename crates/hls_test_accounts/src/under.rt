// Who sits below whom, by the names in the commands so far.
ghost use Rattle.std.specs.Prelude.{◌≡◌};
ghost use Rattle.std.specs.List.{list_any};
ghost use Rattle.hls_legal.specs.Under as told;

use crate::commands::{last_seating, same_name};
use hls_chron::Name;
use hls_report_text::Answered;
use hls_scenario::{Command, Perch, Spot};

/// Whether a name is the one above or, in at most so many steps, below it.
#[cycle(within)]
#[tactic(auto, using(hls_legal::proofs::UnderLaws::within_laws))]
fn is_within(before: &[Answered], steps: usize, above: &Name, name: &Name) -> bool
    ensures { result ≡ told.is_within before.now steps above.now name.now }
{
    if same_name(name, above) {
        return true;
    }
    if steps == 0 {
        return false;
    }
    match last_seating(name, before) {
        Some(a) => seats_on(before, steps - 1, above, &a.command),
        None => false,
    }
}

/// Whether one of the seats that a command gives is on such a scheduler.
#[cycle(within)]
fn seats_on(before: &[Answered], steps: usize, above: &Name, command: &Command) -> bool
    ensures { result ≡ told.seats_on (told.is_within before.now steps above.now) command.now }
{
    match command {
        Command::Load { perches, .. } => any_on(before, steps, above, perches.items()),
        Command::Thread { perch, .. } => is_on(before, steps, above, &perch.spot),
        Command::Move { perch, .. } => is_on(before, steps, above, &perch.spot),
        _ => false,
    }
}

#[cycle(within)]
fn any_on(before: &[Answered], steps: usize, above: &Name, perches: &[Perch]) -> bool
    ensures { result ≡ list_any (λ (perch : Perch).
        told.is_on (told.is_within before.now steps above.now) perch.spot) perches.now }
{
    for perch in perches {
        if is_on(before, steps, above, &perch.spot) {
            return true;
        }
    }
    false
}

#[cycle(within)]
fn is_on(before: &[Answered], steps: usize, above: &Name, spot: &Spot) -> bool
    ensures { result ≡ told.is_on (told.is_within before.now steps above.now) spot.now }
{
    match spot {
        Spot::Cpu => false,
        Spot::Under { sched, .. } => is_within(before, steps, above, sched),
    }
}

/// Whether a name is the one above or below it.
pub fn is_under(before: &[Answered], above: &Name, name: &Name) -> bool
    ensures { result ≡ told.is_under before.now above.now name.now }
{
    is_within(before, before.len(), above, name)
}
