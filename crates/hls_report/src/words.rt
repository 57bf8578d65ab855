// The words of a line.
ghost use Rattle.std.specs.Prelude.{◌≡◌, ◌<◌, ◌≤◌, decimal, IfSome};
ghost use Rattle.hls_chron.specs.Name.{IsName};
ghost use Rattle.hls_report_text.specs.WellFormed.{IsPlace, HasBoxes};
ghost use Rattle.hls_report_text.specs.Inside.Reading.{name_at, place_at, kind_at, count_at};
ghost use Rattle.hls_text.specs.Decimals.{number_below};
ghost use Rattle.hls_report_text.specs.ReportText.{place_text, kind_text};

use hls_chron::{Kind, Name};
use hls_text::{decimal_number, number};

/// A number of 32 bits.
pub fn count(text: &[u8]) -> Option<u32>
    ensures read { result ≡ count_at text.now }
    ensures found { IfSome result (λ n. text.now ≡ decimal n) }
{
    match number(text) {
        Some(n) if n < 4_294_967_296 => Some(n as u32),
        _ => None,
    }
}

/// A number below a limit of at most ten.
pub fn digit(text: &[u8], limit: u8) -> Option<u8>
    requires { limit ≤ 10 }
    ensures read { result ≡ number_below limit text.now }
    ensures found { IfSome result (λ n. (n < limit) × (text.now ≡ decimal n)) }
{
    match decimal_number(text) {
        Some(n) if n < u128::from(limit) => Some(n as u8),
        _ => None,
    }
}

pub fn name(text: &[u8]) -> Option<Name>
    ensures read { result ≡ name_at text.now }
    ensures found { IfSome result (λ name. IsName name × (text.now ≡ name)) }
{
    Name::read(text)
}

/// A name, or `None` for `cpu`.
pub fn place(text: &[u8]) -> Option<Option<Name>>
    ensures read { result ≡ place_at text.now }
    ensures found { IfSome result (λ place. IsPlace place × (text.now ≡ place_text place)) }
{
    if text == b"cpu".as_slice() {
        return Some(None);
    }
    match name(text) {
        Some(name) => Some(Some(name)),
        None => None,
    }
}

pub fn kind(text: &[u8]) -> Option<Kind>
    ensures read { result ≡ kind_at text.now }
    ensures found { IfSome result (λ kind. HasBoxes kind × (text.now ≡ kind_text kind)) }
{
    if text == b"fp".as_slice() {
        Some(Kind::Fp)
    } else if text == b"edf".as_slice() {
        Some(Kind::Edf)
    } else if text == b"sfq".as_slice() {
        Some(Kind::Sfq)
    } else if text == b"rr".as_slice() {
        Some(Kind::Rr)
    } else if text == b"wheel".as_slice() {
        Some(Kind::Wheel)
    } else if text == b"join".as_slice() {
        Some(Kind::Join)
    } else {
        None
    }
}
