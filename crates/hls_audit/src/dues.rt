// The seats that a command takes or derives anew, and their derivations.
ghost use Rattle.std.specs.Prelude.{◌≡◌, ◌↔◌, ◌++◌, IfOk, IsTrue, OnOk, map, false, ◌∷◌};
ghost use Rattle.std.specs.List.{AllByRecursion};
ghost use Rattle.hls_report_text.specs.WellFormed.{IsSeated};
ghost use Rattle.hls_legal.specs.Tells as tells;
ghost use Rattle.hls_legal.specs.Dues as answers;
ghost use Rattle.hls_derive.specs.Derivation.{conversions, IsWithinGrammar};
ghost use Rattle.hls_audit_threads.specs.Inside.Order.{IsOfGrammar};
ghost use Rattle.hls_audit_clauses.specs.Dues as clause;
ghost use Rattle.hls_audit_clauses.specs.Names.{member_of, sort_of};
ghost use Rattle.hls_audit_clauses.specs.Misplaced as misplaced;
ghost use Rattle.hls_audit.specs.Inside.Fits.{IsFit, IsFitDue};
ghost use Rattle.hls_audit.specs.Inside.Told as inside;
ghost use Rattle.hls_audit.specs.Inside.Told.{told, dues_under};

use crate::tree::{Tree, is_same};
use hls_audit_clauses::{Member, Sort};
use hls_check::{Verdict, check};
use hls_chron::{Config, List, Name, Terms};
use hls_derive::{Derivation, Place};
use hls_guarantee::Guarantee;
use hls_report_text::Seated;
use hls_scenario::{Command, Perch, Spot};
use std::alloc::{AllocError, Global};

/// A derivation that is due: for a port of a named child, at a place, from what the ports of the scheduler there
/// have, to what is wanted.
#[derive(Debug, Drop)]
pub(crate) struct Due {
    name: Name,
    port: usize,
    place: Place,
    haves: List<Guarantee>,
    want: Guarantee,
}

impl Tree {
    /// Whether a command that was carried out lacks one derivation, of at most `depth` conversions, for each seat
    /// that it takes or derives anew, in their order.
    ///
    /// # Errors
    /// Returns `AllocError` for want of memory.
    pub(crate) fn is_underived(
        &self,
        alloc: Global,
        depth: u8,
        command: &Command,
        seats: &[Seated],
    ) -> Result<bool, AllocError>
        requires fit { AllByRecursion IsFit self.now.members.items }
        requires command { IsOfGrammar command.now }
        requires placed { misplaced.is_misplaced self.now.members.items command.now ≡ false }
        requires seats { AllByRecursion IsSeated seats.now }
        ensures { IfOk result (λ lacks. (lacks ≡ false) ↔
            answers.AreSettled depth (clause.dues self.now.members.items command.now) seats.now) }
    {
        let dues = self.dues(alloc, command)?;
        Ok(!are_settled(&dues, depth, seats))
    }

    /// What is due for a command.
    fn dues(&self, alloc: Global, command: &Command) -> Result<Vec<Due>, AllocError>
        ensures { IfOk result (λ dues. map told dues.items ≡ clause.dues self.now.members.items command.now) }
    {
        match command {
            Command::Load { name, perches, .. } => self.seat_dues(alloc, name, perches.items()),
            Command::Thread { name, perch } => self.seat_dues(alloc, name, &[*perch]),
            Command::Move { name, perch } => self.move_dues(alloc, name, perch),
            _ => Ok(Vec::new(alloc)),
        }
    }

    fn move_dues(&self, alloc: Global, name: &Name, perch: &Perch) -> Result<Vec<Due>, AllocError>
        ensures { IfOk result (λ dues. map told dues.items ≡
            clause.due_at self.now.members.items name.now 0 perch.now
            ∷ clause.dues_on self.now.members.items name.now perch.now.want) }
    {
        let mut dues = self.seat_dues(alloc, name, &[*perch])?;
        self.put_dues_on(alloc, name, &perch.want, &mut dues)?;
        Ok(dues)
    }

    /// What is due for new seats, in the order of their ports.
    fn seat_dues(
        &self,
        alloc: Global,
        name: &Name,
        perches: &[Perch],
    ) -> Result<Vec<Due>, AllocError>
        ensures { IfOk result (λ dues. map told dues.items ≡
            clause.dues_from self.now.members.items name.now 0 perches.now) }
    {
        let mut dues = Vec::new(alloc);
        for (port, perch) in perches.iter().enumerate() {
            dues.push(self.due_at(alloc, name, port, perch)?)?;
        }
        Ok(dues)
    }

    fn due_at(
        &self,
        alloc: Global,
        name: &Name,
        port: usize,
        perch: &Perch,
    ) -> Result<Due, AllocError>
        ensures { IfOk result (λ due. told due ≡
            clause.due_at self.now.members.items name.now port perch.now) }
    {
        Ok(Due {
            name: *name,
            port,
            place: Place {
                config: self.config_at(&perch.spot),
                terms: terms_in(&perch.spot),
            },
            haves: self.haves_at(alloc, &perch.spot)?,
            want: perch.want,
        })
    }

    /// The configuration of the scheduler of a name.
    fn config_of(&self, sched: &Name) -> Config
        ensures { result ≡ clause.config_in (sort_of (member_of self.now.members.items sched.now)) }
    {
        match self.sort(sched) {
            Some(Sort::Scheduler { config }) => config,
            _ => Config::Cpu,
        }
    }

    fn config_at(&self, spot: &Spot) -> Config
        ensures { result ≡ clause.config_at self.now.members.items spot.now }
    {
        match spot {
            Spot::Cpu => Config::Cpu,
            Spot::Under { sched, .. } => self.config_of(sched),
        }
    }

    /// What the ports of the scheduler of a place have.
    fn haves_at(&self, alloc: Global, spot: &Spot) -> Result<List<Guarantee>, AllocError>
        ensures { IfOk result (λ haves. haves ≡ clause.haves_at self.now.members.items spot.now) }
    {
        let haves = match spot {
            Spot::Cpu => vec![in alloc; Guarantee::All]?,
            Spot::Under { sched, .. } => wants(alloc, self.perches(sched))?,
        };
        Ok(List::of(haves))
    }

    /// Adds what is due for the seats on a scheduler once it has another guarantee, in the order in which they were
    /// taken.
    fn put_dues_on(
        &self,
        alloc: Global,
        moved: &Name,
        has: &Guarantee,
        dues: &mut Vec<Due>,
    ) -> Result<(), AllocError>
        ensures { OnOk result (map told dues.new.items ≡ map told dues.old.items
            ++ clause.dues_on self.now.members.items moved.now has.now) }
    {
        let config = self.config_of(moved);
        for member in self.members.iter() {
            put_dues_under(alloc, &config, moved, has, member, dues)?;
        }
        Ok(())
    }
}

impl Due {
    /// Whether a seat is told by its child and port, with a derivation of at most so many conversions.
    fn is_settled(&self, depth: u8, seated: &Seated) -> bool
        requires due { IsFitDue (told self.now) }
        requires seated { IsSeated seated.now }
        ensures { IsTrue result ↔ answers.IsSettled depth (told self.now) seated.now }
    {
        is_same(&seated.name, &self.name)
            && seated.port as usize == self.port
            && self.is_derived_by(depth, &seated.derivation)
    }

    /// Whether something is a derivation that is due here, of at most so many conversions.
    fn is_derived_by(&self, depth: u8, d: &Derivation) -> bool
        requires due { IsFitDue (told self.now) }
        requires derivation { IsWithinGrammar d.now }
        ensures { IsTrue result ↔ answers.Derives depth (told self.now) d.now }
    {
        let count = d.before.items().len() + d.after.items().len();
        if count > depth as usize {
            return false;
        }
        match check(d, &self.place, self.haves.items(), &self.want) {
            Verdict::Yes => true,
            Verdict::No { .. } => false,
        }
    }
}

/// Whether each due seat is told in its turn, with a derivation of at most so many conversions.
fn are_settled(dues: &[Due], depth: u8, seats: &[Seated]) -> bool
    requires dues { AllByRecursion IsFitDue (map told dues.now) }
    requires seats { AllByRecursion IsSeated seats.now }
    ensures { IsTrue result ↔ answers.AreSettled depth (map told dues.now) seats.now }
{
    if dues.len() != seats.len() {
        return false;
    }
    for (at, due) in dues.iter().enumerate() {
        if !due.is_settled(depth, &seats[at]) {
            return false;
        }
    }
    true
}

fn wants(alloc: Global, perches: &[Perch]) -> Result<Vec<Guarantee>, AllocError>
    ensures { IfOk result (λ wants. wants.items ≡ clause.wants perches.now) }
{
    perches.iter().map(|perch| perch.want).collect(alloc)
}

fn terms_in(spot: &Spot) -> Terms
    ensures { result ≡ tells.terms_in spot.now }
{
    match spot {
        Spot::Cpu => Terms::Cpu,
        Spot::Under { terms, .. } => *terms,
    }
}

fn is_at(moved: &Name, spot: &Spot) -> bool
    ensures { result ≡ clause.is_at moved.now spot.now }
{
    match spot {
        Spot::Cpu => false,
        Spot::Under { sched, .. } => is_same(sched, moved),
    }
}

/// Adds what is due for the seats of a member on a scheduler of this configuration that has another guarantee.
fn put_dues_under(
    alloc: Global,
    config: &Config,
    moved: &Name,
    has: &Guarantee,
    member: &Member,
    dues: &mut Vec<Due>,
) -> Result<(), AllocError>
    ensures { OnOk result (map told dues.new.items ≡ map told dues.old.items
        ++ dues_under config.now moved.now has.now member.now.name 0 member.now.perches) }
{
    for (port, perch) in member.perches.items().iter().enumerate() {
        if is_at(moved, &perch.spot) {
            dues.push(due_under(alloc, config, has, &member.name, port, perch)?)?;
        }
    }
    Ok(())
}

/// What is due for a seat on a scheduler of this configuration that has another guarantee.
fn due_under(
    alloc: Global,
    config: &Config,
    has: &Guarantee,
    name: &Name,
    port: usize,
    perch: &Perch,
) -> Result<Due, AllocError>
    ensures { IfOk result (λ due. told due ≡ inside.due_under config.now has.now name.now port perch.now) }
{
    Ok(Due {
        name: *name,
        port,
        place: Place {
            config: *config,
            terms: terms_in(&perch.spot),
        },
        haves: List::of(vec![in alloc; *has]?),
        want: perch.want,
    })
}
