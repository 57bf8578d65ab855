// The seats that a command takes or derives anew, and their derivations.
ghost use Rattle.std.specs.Prelude.{◌≡◌, ◌<◌, ◌≤◌, IfOk, true, false};
ghost use Rattle.hls_derive.specs.declared.derivation.Derivation.{Derivation};
ghost use Rattle.hls_derive.specs.Derivation.{conversions};
ghost use Rattle.hls_derive.specs.Derives.{IsDerivation};
ghost use Rattle.hls_search.specs.Search.{CanSearch};
ghost use Rattle.hls_check.specs.Checking.{CanCheck};

use crate::Hierarchy;
use crate::asked::{perch_at, perch_count};
use crate::ranges::{config_in_range, port_count, terms_in_range};
use hls_check::{Verdict, check};
use hls_chron::{Config, Name, Terms};
use hls_derive::{Derivation, Place};
use hls_guarantee::{Guarantee, narrow, valid};
use hls_report_text::Seated;
use hls_rules::RuleBook;
use hls_scenario::{Command, Perch, Spot};
use hls_search::search;
use std::alloc::{AllocError, Global};

/// A derivation that is due: for a port of a named child, at a place, from what the ports of the scheduler there
/// have, to what is wanted.
#[derive(Debug, Drop)]
pub struct Due {
    pub name: Name,
    pub port: u8,
    pub place: Place,
    pub haves: Vec<Guarantee>,
    pub want: Guarantee,
}

/// The configuration of the scheduler of a name.
fn config_of(hierarchy: &Hierarchy, name: &Name) -> Config {
    match hierarchy.scheduler(name) {
        Some(sched) => sched.config,
        None => Config::Cpu,
    }
}

/// What is due for a seat that is asked for.
fn due_at(
    alloc: Global,
    hierarchy: &Hierarchy,
    name: &Name,
    port: u8,
    perch: &Perch,
) -> Result<Due, AllocError> {
    let (config, terms, haves) = match perch.spot {
        Spot::Cpu => (Config::Cpu, Terms::Cpu, vec![in alloc; Guarantee::All]?),
        Spot::Under { sched, terms } => {
            (
                config_of(hierarchy, &sched),
                terms,
                hierarchy.haves(alloc, &sched)?,
            )
        }
    };
    Ok(Due {
        name: *name,
        port,
        place: Place { config, terms },
        haves,
        want: perch.want,
    })
}

/// What is due for the seats on a scheduler once it has another guarantee, in the order of their taking.
fn put_dues_on(
    alloc: Global,
    hierarchy: &Hierarchy,
    sched: &Name,
    has: Guarantee,
    dues: &mut Vec<Due>,
) -> Result<(), AllocError> {
    let config = config_of(hierarchy, sched);
    for seat in hierarchy.seats.iter() {
        if seat.sched == Some(*sched) {
            dues.push(Due {
                name: seat.child,
                port: seat.port,
                place: Place {
                    config,
                    terms: seat.terms,
                },
                haves: vec![in alloc; has]?,
                want: seat.kept,
            })?;
        }
    }
    Ok(())
}

/// Who gets the seats that a command asks for.
fn taker(command: &Command) -> Option<Name> {
    match command {
        Command::Load { name, .. } | Command::Thread { name, .. } => Some(*name),
        Command::Move { name, .. } => Some(*name),
        _ => None,
    }
}

/// What is due for a command: for its seats in the order of their ports, and then for those on a moved scheduler.
///
/// # Errors
///
/// Want of memory.
pub fn dues_of(
    alloc: Global,
    hierarchy: &Hierarchy,
    command: &Command,
) -> Result<Vec<Due>, AllocError> {
    let mut dues = Vec::new(alloc);
    let Some(name) = taker(command) else {
        return Ok(dues);
    };
    for port in 0..perch_count(command) {
        if let Some(perch) = perch_at(command, port) {
            dues.push(due_at(alloc, hierarchy, &name, (port % 256) as u8, &perch)?)?;
        }
    }
    if let Command::Move { name, perch } = command {
        put_dues_on(alloc, hierarchy, name, perch.want, &mut dues)?;
    }
    Ok(dues)
}

impl Due {
    /// Whether its numbers are in the ranges of a scenario, with a guarantee for each port.
    pub fn is_in_range(&self) -> bool
        ensures { result ≡ true → CanSearch self.now.place self.now.haves.items self.now.want }
    {
        config_in_range(&self.place.config)
            && terms_in_range(&self.place.terms)
            && self.haves.len() == port_count(&self.place.config)
            && self.haves.iter().all(|have| narrow(have))
            && narrow(&self.want)
    }

    /// Whether there is a derivation of at most so many conversions.
    ///
    /// # Errors
    ///
    /// Want of memory.
    pub fn is_derivable(
        &self,
        alloc: Global,
        rules: &RuleBook,
        depth: u8,
    ) -> Result<bool, AllocError>
        requires { CanSearch self.now.place self.now.haves.items self.now.want }
        ensures some { IfOk result (λ found. found ≡ true → (d : Derivation) ×
            IsDerivation self.now.place self.now.haves.items self.now.want d × (conversions d ≤ depth)) }
        ensures none { IfOk result (λ found. found ≡ false → (d : Derivation) →
            IsDerivation self.now.place self.now.haves.items self.now.want d → ¬ (conversions d ≤ depth)) }
    {
        match search(alloc, rules, &self.place, &self.haves, &self.want, depth)? {
            Some(_) => Ok(true),
            None => Ok(false),
        }
    }

    /// Whether a seat is told by its child and port, with a derivation of at most so many conversions.
    pub fn is_settled(&self, depth: u8, seated: &Seated) -> bool
        ensures { result ≡ true →
            IsDerivation self.now.place self.now.haves.items self.now.want seated.now.derivation ×
            (conversions seated.now.derivation ≤ depth) }
    {
        if seated.name != self.name || seated.port != self.port {
            return false;
        }
        is_short(&seated.derivation, depth) && self.is_derived_by(&seated.derivation)
    }

    /// Whether something is a derivation that is due here.
    fn is_derived_by(&self, d: &Derivation) -> bool
        requires { conversions d.now < 4294967290 }
        ensures { result ≡ true → IsDerivation self.now.place self.now.haves.items self.now.want d.now }
    {
        if !self.can_check(d) {
            return false;
        }
        check(d, &self.place, &self.haves, &self.want) == Verdict::Yes
    }

    /// Whether the numbers of a derivation and of what is due are in their ranges.
    fn can_check(&self, d: &Derivation) -> bool
        ensures { result ≡ true → CanCheck self.now.place self.now.haves.items self.now.want d.now }
    {
        config_in_range(&self.place.config)
            && terms_in_range(&self.place.terms)
            && self.haves.len() == port_count(&self.place.config)
            && self.haves.iter().all(|have| valid(have))
            && valid(&self.want)
            && valid(&d.from)
            && d.before.items().iter().all(|step| valid(&step.to))
            && valid(&d.sched.to)
            && d.after.items().iter().all(|step| valid(&step.to))
    }
}

/// Whether a derivation has at most so many conversions.
fn is_short(d: &Derivation, depth: u8) -> bool
    ensures { result ≡ true → conversions d.now ≤ depth }
{
    let depth = usize::from(depth);
    let before = d.before.items().len();
    before <= depth && d.after.items().len() <= depth - before
}
