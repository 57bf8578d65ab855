// Commands behind a place.
ghost use Rattle.std.specs.Prelude.{◌≡◌, ◌+◌, drop};

use hls_report_text::Answered;

/// The commands behind a place.
pub(crate) fn behind(answered: &[Answered], place: usize) -> &[Answered]
    ensures { result.now ≡ drop (place + 1) answered.now }
{
    if place < answered.len() {
        &answered[place + 1..]
    } else {
        &[]
    }
}
