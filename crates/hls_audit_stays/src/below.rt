// Who is below a name, by the commands so far.
ghost use Rattle.std.specs.Prelude.{◌≡◌, ◌≤◌, IfOk, map, length};
ghost use Rattle.std.specs.List.{list_any};
ghost use Rattle.std.specs.Str.{bytes_eq};
ghost use Rattle.hls_text.specs.Lines.{Text};
ghost use Rattle.hls_scenario.specs.declared.scenario.Perch as asked;
ghost use Rattle.hls_legal.specs.Under as under;
ghost use Rattle.hls_audit_stays.specs.Inside.Seats.{seated, AreSeats};
ghost use Rattle.hls_audit_stays.specs.Inside.Marks.{mark_in, next_mark, next_marks, AreBelow};

use crate::seats::Seats;
use crate::spells::{are_same, is_any, is_marked, is_same};
use hls_chron::Name;
use hls_report_text::Answered;
use hls_scenario::{Command, Perch, Spot};
use std::alloc::{AllocError, Global};

impl Seats {
    /// Marks of the schedulers, by which a name is at or below another before the command at a place; no marks at all
    /// where none is marked.
    ///
    /// # Errors
    /// Returns `AllocError` for want of memory.
    pub(crate) fn below(
        &self,
        alloc: Global,
        answered: &[Answered],
        place: usize,
        above: &Name,
    ) -> Result<Vec<bool>, AllocError>
        requires seats { AreSeats self.now answered.now place }
        requires within { place ≤ length answered.now }
        ensures { IfOk result (λ marks. AreBelow self.now answered.now place marks.items above.now) }
    {
        let marks = self.marks_below(alloc, answered, place, above)?;
        if is_any(&marks) {
            return Ok(marks);
        }
        Ok(Vec::new(alloc))
    }

    // They are made in rounds, until one changes nothing.
    fn marks_below(
        &self,
        alloc: Global,
        answered: &[Answered],
        place: usize,
        above: &Name,
    ) -> Result<Vec<bool>, AllocError>
        requires seats { AreSeats self.now answered.now place }
        requires within { place ≤ length answered.now }
        ensures { IfOk result (λ marks. AreBelow self.now answered.now place marks.items above.now) }
    {
        let mut marks = self.first_marks(alloc, above)?;
        for _round in 1..place {
            let next = self.next_marks(alloc, answered, above, &marks)?;
            if are_same(&next, &marks) {
                return Ok(marks);
            }
            marks = next;
        }
        Ok(marks)
    }

    /// For each scheduler, whether it has the name.
    fn first_marks(&self, alloc: Global, above: &Name) -> Result<Vec<bool>, AllocError>
        ensures { IfOk result (λ marks. marks.items
            ≡ map (λ (name : Text). bytes_eq name above.now) self.now.scheds.items) }
    {
        self.scheds
            .iter()
            .map(|sched| is_same(sched, above))
            .collect(alloc)
    }

    /// The marks after one round more.
    fn next_marks(
        &self,
        alloc: Global,
        answered: &[Answered],
        above: &Name,
        marks: &[bool],
    ) -> Result<Vec<bool>, AllocError>
        ensures { IfOk result (λ next. next.items ≡ next_marks self.now answered.now marks.now above.now) }
    {
        self.scheds
            .iter()
            .map(|sched| self.is_below(answered, above, marks, sched))
            .collect(alloc)
    }

    /// Whether a name is the one above, or one of its seats is on a marked scheduler.
    pub(crate) fn is_below(
        &self,
        answered: &[Answered],
        above: &Name,
        marks: &[bool],
        name: &Name,
    ) -> bool
        ensures { result ≡ next_mark self.now answered.now marks.now above.now name.now }
    {
        is_same(name, above) || self.sits_on_marked(answered, marks, name)
    }

    fn sits_on_marked(&self, answered: &[Answered], marks: &[bool], name: &Name) -> bool
        ensures { result ≡ under.sits_on (mark_in self.now.places marks.now)
            (seated self.now.last answered.now name.now) }
    {
        if marks.is_empty() {
            return false;
        }
        self.sits_by(answered, marks, name)
    }

    fn sits_by(&self, answered: &[Answered], marks: &[bool], name: &Name) -> bool
        ensures { result ≡ under.sits_on (mark_in self.now.places marks.now)
            (seated self.now.last answered.now name.now) }
    {
        match self.last.find(name) {
            Some(place) => match answered.get(place) {
                Some(a) => self.seats_on_marked(marks, &a.command),
                None => false,
            },
            None => false,
        }
    }

    fn seats_on_marked(&self, marks: &[bool], command: &Command) -> bool
        ensures { result ≡ under.seats_on (mark_in self.now.places marks.now) command.now }
    {
        match command {
            Command::Load { perches, .. } => self.any_on_marked(marks, perches.items()),
            Command::Thread { perch, .. } => self.is_on_marked(marks, &perch.spot),
            Command::Move { perch, .. } => self.is_on_marked(marks, &perch.spot),
            _ => false,
        }
    }

    fn any_on_marked(&self, marks: &[bool], perches: &[Perch]) -> bool
        ensures { result ≡ list_any (λ (perch : asked.Perch).
            under.is_on (mark_in self.now.places marks.now) perch.spot) perches.now }
    {
        perches
            .iter()
            .any(|perch| self.is_on_marked(marks, &perch.spot))
    }

    fn is_on_marked(&self, marks: &[bool], spot: &Spot) -> bool
        ensures { result ≡ under.is_on (mark_in self.now.places marks.now) spot.now }
    {
        match spot {
            Spot::Cpu => false,
            Spot::Under { sched, .. } => self.mark(marks, sched),
        }
    }

    fn mark(&self, marks: &[bool], sched: &Name) -> bool
        ensures { result ≡ mark_in self.now.places marks.now sched.now }
    {
        match self.places.find(sched) {
            Some(place) => is_marked(marks, place),
            None => false,
        }
    }
}
