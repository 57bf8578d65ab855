// The hierarchy, carried from tick to tick.
ghost use Rattle.std.specs.Prelude.{◌≡◌, ◌+◌, ◌≤◌, ℕ, [], IfOk, OnOk, false, length};
ghost use Rattle.hls_legal.specs.Commands.{is_done};
ghost use Rattle.hls_report_text.specs.Content.{Content, content_of};
ghost use Rattle.hls_report_text.specs.WellFormed.{AreAnswered, IsWellFormed};
ghost use Rattle.hls_view_tale.specs.Hierarchies.{IsHierarchy, came_by};
ghost use Rattle.hls_view_tale.specs.Following.{IsFollowing};
ghost use Rattle.hls_view_tale.specs.Inside.Told.{IsTold};
ghost use Rattle.hls_view_tale.specs.Inside.Came as came;

use crate::Hierarchy;
use crate::hierarchy::hierarchy_of;
use crate::tale::Tale;
use hls_report_text::{Answer, Answered, Report};
use hls_scenario::Command;
use std::alloc::{AllocError, Global};

/// The hierarchy of a report, carried along its ticks: a tick costs what its commands do.
#[derive(Drop)]
pub struct Following {
    pub(crate) tale: Tale,
    /// How many commands were followed.
    pub(crate) came: usize,
    /// A tick behind all of theirs.
    pub(crate) next: u64,
    /// Who is there, and all places, once these commands were carried out.
    pub hierarchy: Hierarchy,
}

/// How many commands came, and whether one of them changed who is where.
#[derive(Clone, Copy)]
struct Came {
    came: usize,
    changed: bool,
}

/// Whether a command begins, ends or moves stays where it is carried out.
fn seats(command: &Command) -> bool
    ensures { result ≡ came.seats command.now }
{
    match command {
        Command::Load { .. } => true,
        Command::Thread { .. } => true,
        Command::End { .. } => true,
        Command::Unload { .. } => true,
        Command::Move { .. } => true,
        Command::Wake { .. } => false,
        Command::Block { .. } => false,
    }
}

/// Whether a command was carried out, and began, ended or moved stays.
fn has_seated(a: &Answered) -> bool
    ensures { result ≡ came.has_seated a.now }
{
    match &a.answer {
        Answer::Done(_) => seats(&a.command),
        Answer::Refused(_) => false,
    }
}

/// Follows the commands up to a tick and in it, behind the first so many.
fn follow_to(
    alloc: Global,
    tale: &mut Tale,
    answered: &[Answered],
    first: usize,
    tick: u32,
) -> Result<Came, AllocError>
    requires answered { (version : ℕ) × (horizon : ℕ) × AreAnswered version horizon 0 answered.now }
    requires within { first ≤ length answered.now }
    requires early { came.AreBefore answered.now (tick + 1) first }
    requires told { IsTold tale.old answered.now first }
    ensures told { OnOk result (IsTold tale.new answered.now (came_by tick answered.now)) }
    ensures came { IfOk result (λ c. c.came ≡ came_by tick answered.now) }
    ensures before { IfOk result (λ c. came.AreBefore answered.now (tick + 1) c.came) }
    ensures within { IfOk result (λ c. c.came ≤ length answered.now) }
    ensures same { IfOk result (λ c. c.changed ≡ false → came.IsAlike answered.now first c.came) }
{
    let mut changed = false;
    for place in first..answered.len() {
        if tick < answered[place].tick {
            return Ok(Came {
                came: place,
                changed,
            });
        }
        changed = changed | has_seated(&answered[place]);
        tale.follow(alloc, answered, place)?;
    }
    Ok(Came {
        came: answered.len(),
        changed,
    })
}

impl Following {
    /// No command was followed: nobody is there.
    pub fn new(alloc: Global) -> Following
        ensures following { (c : Content) → IsFollowing c result }
        ensures none { result.hierarchy.places.items ≡ [] }
        ensures next { result.next ≡ 0 }
    {
        Following {
            tale: Tale::new(alloc),
            came: 0,
            next: 0,
            hierarchy: Hierarchy {
                standing: Vec::new(alloc),
                places: Vec::new(alloc),
            },
        }
    }

    /// Goes on to a tick behind those of all commands that were followed, or to the last of them.
    fn go_on(&mut self, alloc: Global, report: &Report, tick: u32) -> Result<bool, AllocError>
        requires formed { IsWellFormed report.now }
        requires following { IsFollowing (content_of report.now) self.old }
        requires order { self.old.next ≤ tick + 1 }
        ensures following { OnOk result (IsFollowing (content_of report.now) self.new) }
        ensures hierarchy { OnOk result (IsHierarchy (content_of report.now) tick self.new.hierarchy) }
        ensures same { IfOk result (λ changed. changed ≡ false →
            self.new.hierarchy.places.items ≡ self.old.hierarchy.places.items) }
    {
        let first = self.came;
        let came = follow_to(alloc, &mut self.tale, report.answered.items(), first, tick)?;
        self.came = came.came;
        self.next = u64::from(tick) + 1;
        if came.changed {
            self.hierarchy = hierarchy_of(alloc, &self.tale)?;
        }
        Ok(came.changed)
    }

    /// Goes to a tick, once its commands were carried out, and tells whether places may be others than before. An
    /// earlier tick is come to from the beginning.
    ///
    /// # Errors
    /// Returns `AllocError` where there is no memory for what is kept beside the report.
    pub fn go_to(&mut self, alloc: Global, report: &Report, tick: u32) -> Result<bool, AllocError>
        requires formed { IsWellFormed report.now }
        requires following { IsFollowing (content_of report.now) self.old }
        ensures following { OnOk result (IsFollowing (content_of report.now) self.new) }
        ensures hierarchy { OnOk result (IsHierarchy (content_of report.now) tick self.new.hierarchy) }
        ensures same { IfOk result (λ changed. changed ≡ false →
            self.new.hierarchy.places.items ≡ self.old.hierarchy.places.items) }
    {
        if self.next <= u64::from(tick) + 1 {
            return self.go_on(alloc, report, tick);
        }
        *self = Following::new(alloc);
        self.go_on(alloc, report, tick)?;
        Ok(true)
    }
}
