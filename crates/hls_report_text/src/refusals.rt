// The text of a refusal.
ghost use Rattle.std.specs.Prelude.{◌≡◌, ◌++◌, OnOk, codes, decimal};
ghost use Rattle.hls_report_text.specs.ReportText.{two_words, kind_text, place_text, refusal_text};

use crate::Refusal;
use hls_chron::{Kind, Name};
use hls_text::{put, put_number};
use std::alloc::AllocError;

/// Appends the text of a refusal.
///
/// # Errors
/// Returns `AllocError` for want of memory.
pub fn put_refusal(out: &mut Vec<u8>, refusal: &Refusal) -> Result<(), AllocError>
    ensures { OnOk result (out.new.items ≡ out.old.items ++ refusal_text refusal.now) }
{
    match refusal {
        Refusal::NameTaken { name } => put_named(out, b"10 NameTaken ", name),
        Refusal::NoSuchName { name } => put_named(out, b"11 NoSuchName ", name),
        Refusal::WrongSort { name } => put_place(out, b"12 WrongSort ", name),
        Refusal::TooManyNodes { most } => put_counted(out, b"13 TooManyNodes ", *most),
        Refusal::TooManyThreads { most } => put_counted(out, b"14 TooManyThreads ", *most),
        Refusal::NotEmpty { name, seats } => {
            put_named(out, b"15 NotEmpty ", name)?;
            put_counted(out, b" ", *seats)
        }
        Refusal::TermsUnfit { name } => put_named(out, b"16 TermsUnfit ", name),
        Refusal::PriorityTaken { priority } => put_counted(out, b"17 PriorityTaken ", *priority),
        Refusal::SeatsFull { name, seats } => {
            put_place(out, b"18 SeatsFull ", name)?;
            put_counted(out, b" ", *seats)
        }
        Refusal::Cycle { name } => put_named(out, b"19 Cycle ", name),
        Refusal::TooDeep { level } => put_counted(out, b"20 TooDeep ", *level),
        Refusal::TooManyShares { count } => put_counted(out, b"21 TooManyShares ", *count),
        Refusal::KitEmpty { kind, used } => put_kind(out, *kind, *used),
        Refusal::NoRoom { free, asked } => put_room(out, *free, *asked),
        Refusal::NoDerivation { name, depth } => {
            put_named(out, b"24 NoDerivation ", name)?;
            put_counted(out, b" ", u32::from(*depth))
        }
    }
}

fn put_named(out: &mut Vec<u8>, words: &[u8], name: &Name) -> Result<(), AllocError>
    ensures { OnOk result (out.new.items ≡ out.old.items ++ (words.now ++ name.now)) }
{
    put(out, words)?;
    put(out, name.bytes())
}

fn put_place(out: &mut Vec<u8>, words: &[u8], place: &Option<Name>) -> Result<(), AllocError>
    ensures { OnOk result (out.new.items ≡ out.old.items ++ (words.now ++ place_text place.now)) }
{
    put(out, words)?;
    match place {
        Some(name) => put(out, name.bytes()),
        None => put(out, b"cpu"),
    }
}

fn put_counted(out: &mut Vec<u8>, words: &[u8], count: u32) -> Result<(), AllocError>
    ensures { OnOk result (out.new.items ≡ out.old.items ++ (words.now ++ decimal count)) }
{
    put(out, words)?;
    put_number(out, u128::from(count))
}

fn put_kind(out: &mut Vec<u8>, kind: Kind, used: u32) -> Result<(), AllocError>
    ensures { OnOk result (out.new.items
        ≡ out.old.items ++ (codes "22 KitEmpty " ++ two_words (kind_text kind) (decimal used))) }
{
    put(out, b"22 KitEmpty ")?;
    put(out, kind_word(kind))?;
    put_counted(out, b" ", used)
}

fn kind_word(kind: Kind) -> &'static [u8]
    ensures { result.now ≡ kind_text kind }
{
    match kind {
        Kind::Cpu => b"cpu",
        Kind::Fp => b"fp",
        Kind::Edf => b"edf",
        Kind::Sfq => b"sfq",
        Kind::Rr => b"rr",
        Kind::Wheel => b"wheel",
        Kind::Join => b"join",
    }
}

fn put_room(out: &mut Vec<u8>, free: u128, asked: u128) -> Result<(), AllocError>
    ensures { OnOk result (out.new.items
        ≡ out.old.items ++ (codes "23 NoRoom " ++ two_words (decimal free) (decimal asked))) }
{
    put(out, b"23 NoRoom ")?;
    put_number(out, free)?;
    put(out, b" ")?;
    put_number(out, asked)
}
