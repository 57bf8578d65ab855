// What a kit has left.
ghost use Rattle.std.specs.Prelude.{◌≡◌};
ghost use Rattle.hls_legal.specs.Moment.{Boxes};
ghost use Rattle.hls_legal.specs.Kit.{boxes_left, is_kind};
ghost use Rattle.hls_test_answers.specs.Taking.{takes_box};

use hls_chron::Kind;
use hls_report_text::{Answer, Answered};
use hls_scenario::Command;

/// The boxes of one kind: how many are left, and how many were taken.
#[derive(Clone, Copy, Debug, PartialEq, Eq)]
pub struct BoxCount {
    pub left: u32,
    pub used: u32,
}

/// Whether two kinds are the same.
fn is_same(kind: Kind, other: Kind) -> bool
    ensures { result ≡ is_kind kind other }
{
    match (kind, other) {
        (Kind::Cpu, Kind::Cpu) | (Kind::Fp, Kind::Fp) | (Kind::Edf, Kind::Edf) => true,
        (Kind::Sfq, Kind::Sfq) | (Kind::Rr, Kind::Rr) => true,
        (Kind::Wheel, Kind::Wheel) | (Kind::Join, Kind::Join) => true,
        _ => false,
    }
}

/// Whether a command was a load of a kind, and was done.
fn takes(a: &Answered, kind: Kind) -> bool
    ensures { result ≡ takes_box kind a.now }
{
    match (&a.command, &a.answer) {
        (Command::Load { config, .. }, Answer::Done(_)) => is_same(kind, config.kind()),
        _ => false,
    }
}

/// The boxes of a kind after these commands.
pub fn boxes_after(count: BoxCount, kind: Kind, answered: &[Answered]) -> BoxCount
    ensures left { (boxes : Boxes) → boxes.left kind ≡ count.left → boxes.used kind ≡ count.used →
        result.left ≡ (boxes_left boxes answered.now).left kind }
    ensures used { (boxes : Boxes) → boxes.left kind ≡ count.left → boxes.used kind ≡ count.used →
        result.used ≡ (boxes_left boxes answered.now).used kind }
{
    let mut after = count;
    for a in answered {
        if takes(a, kind) {
            after = BoxCount {
                left: after.left.saturating_sub(1),
                used: after.used.saturating_add(1),
            };
        }
    }
    after
}
