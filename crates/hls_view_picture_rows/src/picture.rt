// Pictures as data.
use hls_view_scale::Scale;

/// What is promised at a row, by which its colour goes.
#[derive(Clone, Copy)]
pub enum Class {
    /// Every tick.
    All,
    /// Nothing.
    Null,
    /// A hard reservation.
    Hard,
    /// A soft reservation.
    Soft,
    /// A share.
    Share,
    /// The row for idle ticks, at which nothing can be promised.
    Idle,
}

/// The ticks from one to another, both of them.
#[derive(Clone, Copy)]
pub struct Stretch {
    pub first: u32,
    pub last: u32,
}

/// A row: what is printed at its left, and what is so in each column.
#[derive(Drop)]
pub struct PictureRow {
    /// How many rows it is below.
    pub depth: u32,
    /// Whether it is a thread's, or that for idle ticks.
    pub is_leaf: bool,
    pub class: Class,
    pub name: Vec<u8>,
    /// How a scheduler is configured; empty for a thread.
    pub config: Vec<u8>,
    pub terms: Vec<u8>,
    pub guarantee: Vec<u8>,
    /// The least spare of its stays; empty where none has a number.
    pub spare: Vec<u8>,
    /// The row that it is directly below.
    pub above: Option<u32>,
    /// At how many ticks of each column somebody is there.
    pub here: Vec<u32>,
    /// At how many ticks of each column somebody is ready there or below.
    pub ready: Vec<u32>,
    /// At how many ticks of each column it is served.
    pub served: Vec<u32>,
    /// The columns in which a stay begins.
    pub begins: Vec<u32>,
    /// The columns in which a wake of its thread was done.
    pub wakes: Vec<u32>,
    /// The columns in which a job of its thread was dropped.
    pub drops: Vec<u32>,
    /// Where its promise had the least to spare.
    pub bracket: Option<Stretch>,
}

/// A command of the ticks shown.
#[derive(Drop)]
pub struct ShownCommand {
    pub tick: u32,
    /// Its spelling.
    pub text: Vec<u8>,
    /// Why it was refused; `None` where it was done.
    pub refusal: Option<Vec<u8>>,
}

/// A move that was done, between rows.
#[derive(Clone, Copy)]
pub struct ShownMove {
    pub tick: u32,
    pub from: u32,
    pub to: u32,
}

/// What ran in a stretch of ticks: in a run, or in a column of several ticks.
#[derive(Drop)]
pub struct Strip {
    pub ticks: Stretch,
    /// What its title says behind the ticks.
    pub text: Vec<u8>,
}

/// A picture.
#[derive(Drop)]
pub struct Picture {
    pub scale: Scale,
    /// How many ticks the report has.
    pub horizon: u32,
    /// What the audit says of the report.
    pub verdict: Vec<u8>,
    /// The first tick at which it is broken, if it is.
    pub broken_at: Option<u32>,
    /// How many threads have a row.
    pub threads: u64,
    /// How many schedulers have a row.
    pub schedulers: u64,
    /// From the top; the first is the processor's, and the last is that for idle ticks.
    pub rows: Vec<PictureRow>,
    /// In their order.
    pub commands: Vec<ShownCommand>,
    pub moves: Vec<ShownMove>,
    /// Where a column has one tick, the runs that have a tick shown; else one a column.
    pub strips: Vec<Strip>,
}
