// Whole lines of a text, and their numbers.
ghost use Rattle.std.specs.Prelude.{◌≡◌, ◌+◌, ◌∷◌, ◌++◌, MatchOption};
ghost use Rattle.hls_report_text.specs.WellFormed.{IsOneLine};
ghost use Rattle.hls_report.specs.Inside.Rests.{CanCount};

use crate::ReportFault;
use memchr::memchr;

/// The rest of a text, and the number of the line that was asked for last.
#[derive(Debug, Drop)]
pub struct Lines<'a> {
    pub rest: &'a [u8],
    pub count: u32,
}

/// The first line, without its end, and what stands behind that. `None` where no whole line is there.
fn first_line(text: &[u8]) -> Option<(&[u8], &[u8])>
    ensures { MatchOption result (IsOneLine text.now)
        (λ p. IsOneLine p.0.now × (text.now ≡ p.0.now ++ (10 ∷ p.1.now))) }
{
    match memchr(b'\n', text) {
        Some(place) => Some((&text[..place], &text[place + 1..])),
        None => None,
    }
}

impl<'a> Lines<'a> {
    /// The next line, without its end. `None` where no whole line is left.
    pub fn next(&mut self) -> Option<&'a [u8]>
        requires { CanCount self.old }
        ensures line { MatchOption result (IsOneLine self.old.rest.now)
            (λ line. IsOneLine line.now × (self.old.rest.now ≡ line.now ++ (10 ∷ self.new.rest.now))) }
        ensures count { self.new.count ≡ self.old.count + 1 }
    {
        self.count += 1;
        let (line, rest) = first_line(self.rest)?;
        self.rest = rest;
        Some(line)
    }

    /// The line that was asked for last is wrong.
    pub fn fault(&self) -> ReportFault
        ensures { result ≡ ReportFault.At self.now.count }
    {
        ReportFault::At { line: self.count }
    }
}
