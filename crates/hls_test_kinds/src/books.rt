// Books that are written mark by mark and tick by tick.
ghost use Rattle.std.specs.Prelude.{◌≡◌, true};
ghost use Rattle.hls_chron.specs.Kinds.{by_shares};
ghost use Rattle.hls_chron.specs.Ranges.{ConfigInRange};

use hls_chron::{Book, Config, Event, Sharing, Terms, TickRow};
use hls_kinds_lookup::discipline_choice;
use std::alloc::AllocError;
use std::process::Abort;

pub const HALF: Terms = Terms::Res {
    hard: true,
    x: 5,
    y: 10,
};

pub const LATE: Terms = Terms::Res {
    hard: true,
    x: 8,
    y: 16,
};

pub const LONG: Terms = Terms::Res {
    hard: true,
    x: 10,
    y: 20,
};

pub const SHORT: Terms = Terms::Res {
    hard: true,
    x: 2,
    y: 4,
};

/// Fair queueing in turns of two ticks.
pub const TWOS: Sharing = Sharing {
    total: 4,
    most: 2,
    quantum: 2,
};

pub const fn seat(slot: u8, terms: Terms) -> Event {
    Event::Seat { slot, terms }
}

/// A digit, where it is one.
pub fn digit(byte: u8) -> Option<u32> {
    match byte {
        b'0'..=b'9' => Some(u32::from(byte - b'0')),
        _ => None,
    }
}

/// Whether the numbers of fair queueing are in their ranges.
fn are_in_range(sharing: &Sharing) -> bool
    ensures { result ≡ true → ConfigInRange (by_shares sharing.now) }
{
    1 <= sharing.total
        && sharing.total <= 100
        && 1 <= sharing.most
        && sharing.most <= 20
        && 1 <= sharing.quantum
        && sharing.quantum <= 100
}

/// Whether the numbers of a configuration are in their ranges.
pub fn in_range(config: &Config) -> bool
    ensures { result ≡ true → ConfigInRange config.now }
{
    match *config {
        Config::Sfq { .. } => match config.sharing() {
            Some(sharing) => are_in_range(&sharing),
            None => false,
        },
        Config::Rr { quantum } => 1 <= quantum && quantum <= 100,
        Config::Wheel { frame } => 1 <= frame && frame <= 1000,
        Config::Join { ports } => 2 <= ports && ports <= 4,
        Config::Cpu | Config::Fp | Config::Edf => true,
    }
}

/// Writes the marks of the present tick.
pub fn push_marks(book: &mut Book, marks: &[(u32, Event)]) -> Result<(), AllocError> {
    for (tick, event) in marks {
        if *tick == book.now() {
            book.reserve(0, 1)?;
            book.push_mark(*event);
        }
    }
    Ok(())
}

/// The slot to serve in a tick in which these slots ask, and the row that serves it where the
/// scheduler is granted.
pub fn pass(
    rt: &impl Abort,
    book: &mut Book,
    config: &Config,
    asking: u8,
    granted: bool,
) -> Result<Option<u32>, AllocError> {
    assert!(rt; in_range(config) && book.now() < 1000);
    let mask = digit(asking).unwrap_or(0);
    let choice = discipline_choice(book, config, mask);
    let to = match choice {
        Some(slot) if granted && slot < 32 => Some(slot as u8),
        _ => None,
    };
    book.reserve(1, 0)?;
    book.push_tick(TickRow { mask, to, port: 0 });
    Ok(choice)
}
