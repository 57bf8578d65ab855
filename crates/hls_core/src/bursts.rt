// What is left of bursts, and the releases that are still to come.
ghost use Rattle.std.specs.Prelude.{◌≡◌, ◌≢◌, ◌<◌, ◌+◌, ◌^◌, ℕ, Option, Some, None, true, false, OnOk, OnErr};
ghost use Rattle.std.specs.Prelude.{get_or, vec_len, if◌then◌else◌};
ghost use Rattle.hls_core.specs.declared.begun.Release.{Release};
ghost use Rattle.hls_core.specs.Begun.{left_by, next_by, used, ends_within, released, is_due, sooner, first_of};

use crate::begun::{Begun, Release, released};
use hls_tree::NodeId;
use std::alloc::{AllocError, Global};

/// The bursts that threads have begun, at their numbers, and the tick of the first release that is still to come of
/// any of them. What is left of the burst of a thread that is not ready may be anything.
#[derive(Drop)]
pub struct Bursts {
    begun: Vec<Option<Begun>>,
    first: Option<u32>,
    is_known: bool,
    ghost known: { is_known ≡ true → first ≡ first_of begun.items },
}

/// Makes room for a number, at which there is no burst.
fn reach(begun: &mut Vec<Option<Begun>>, key: usize) -> Result<(), AllocError>
    requires { key < 2 ^ 32 }
    ensures begun { (k : ℕ) → get_or begun.new.items k None ≡ get_or begun.old.items k None }
    ensures room { OnOk result (key < vec_len begun.new) }
{
    if begun.len() <= key {
        begun.resize(key + 1, None)?;
    }
    Ok(())
}

/// The sooner one of a tick and a release.
fn sooner_of(first: Option<u32>, next: Option<Release>) -> Option<u32>
    ensures { result ≡ sooner first next }
{
    match next {
        None => first,
        Some(release) => match first {
            None => Some(release.tick),
            Some(tick) => Some(tick.min(release.tick)),
        },
    }
}

/// The next release of the wake of a burst.
fn next_of(begun: &Option<Begun>) -> Option<Release>
    ensures { result ≡ next_by begun.now }
{
    match begun {
        None => None,
        Some(begun) => begun.next,
    }
}

/// Whether the wake of a burst may have a further release.
fn has_next(begun: &Option<Begun>) -> bool
    ensures { result ≡ false → next_by begun.now ≡ None }
{
    next_of(begun).is_some()
}

/// Whether the first release stays known where a burst takes the place of another.
fn stays_known(is_known: bool, was: &Option<Begun>, new: &Option<Begun>) -> bool
    ensures known { result ≡ true → is_known ≡ true }
    ensures same { result ≡ true → next_by new.now ≡ next_by was.now }
{
    is_known && !has_next(was) && !has_next(new)
}

/// The tick of the first release of all.
fn first_in(begun: &[Option<Begun>]) -> Option<u32>
    ensures { result ≡ first_of begun.now }
{
    let mut first = None;
    for it in begun {
        first = sooner_of(first, next_of(it));
    }
    first
}

/// Makes those bursts whole that have a release in a tick, and finds the tick of the first release behind it.
fn release_all(begun: &mut [Option<Begun>], now: u32) -> Option<u32>
    requires fits { (k : ℕ) (release : Release) → next_by (get_or begun.old k None) ≡ Some release →
        release.tick ≡ now → release.tick + release.every < 2 ^ 32 }
    ensures whole { (k : ℕ) → get_or begun.new k None ≡ released now (get_or begun.old k None) }
    ensures first { result ≡ first_of begun.new }
{
    let mut first = None;
    for it in begun.iter_mut() {
        *it = released(*it, now);
        first = sooner_of(first, next_of(it));
    }
    first
}

impl Bursts {
    ghost use Rattle.hls_core.specs.Bursts.{begun_in};

    /// No bursts.
    pub fn new(alloc: Global) -> Bursts
        ensures { (k : ℕ) → begun_in result k ≡ None }
    {
        Bursts {
            begun: Vec::new(alloc),
            first: None,
            is_known: true,
        }
    }

    /// Writes the burst of a thread into room that is there, or none.
    fn put(&mut self, id: NodeId, begun: Option<Begun>)
        requires room { begun ≢ None → id < vec_len self.old.begun }
        ensures here { begun_in self.new id ≡ begun }
        ensures others { (k : ℕ) → k ≢ id → begun_in self.new k ≡ begun_in self.old k }
    {
        let key = id.key();
        if key >= self.begun.len() {
            return;
        }
        self.is_known = stays_known(self.is_known, &self.begun[key], &begun);
        self.begun[key] = begun;
    }

    /// Begins a burst of a thread, or none.
    ///
    /// # Errors
    /// Returns `AllocError` for want of memory, and then nothing has changed.
    pub fn set(&mut self, id: NodeId, begun: Option<Begun>) -> Result<(), AllocError>
        ensures here { OnOk result (begun_in self.new id ≡ begun) }
        ensures others { (k : ℕ) → k ≢ id → begun_in self.new k ≡ begun_in self.old k }
        ensures unchanged { OnErr result (begun_in self.new id ≡ begun_in self.old id) }
    {
        if begun.is_some() {
            reach(&mut self.begun, id.key())?;
        }
        self.put(id, begun);
        Ok(())
    }

    /// Forgets the burst of a thread, and the releases of its wake.
    pub fn forget(&mut self, id: NodeId)
        ensures here { begun_in self.new id ≡ None }
        ensures others { (k : ℕ) → k ≢ id → begun_in self.new k ≡ begun_in self.old k }
    {
        self.put(id, None);
    }

    /// How many ticks of its burst a thread has left, if it has one.
    pub fn left(&self, id: NodeId) -> Option<u32>
        ensures { result ≡ left_by (begun_in self.now id) }
    {
        if self.begun.len() <= id.key() {
            return None;
        }
        match &self.begun[id.key()] {
            None => None,
            Some(begun) => Some(begun.left),
        }
    }

    /// Uses up so many ticks of a burst, and tells whether they were the last.
    pub fn use_up(&mut self, id: NodeId, ticks: u32) -> bool
        ensures here { begun_in self.new id ≡ used ticks (begun_in self.old id) }
        ensures others { (k : ℕ) → k ≢ id → begun_in self.new k ≡ begun_in self.old k }
        ensures last { result ≡ ends_within ticks (left_by (begun_in self.old id)) }
    {
        let key = id.key();
        if self.begun.len() <= key {
            return false;
        }
        let Some(begun) = self.begun[key] else {
            return false;
        };
        self.begun[key] = Some(Begun {
            left: begun.left.saturating_sub(ticks),
            next: begun.next,
        });
        begun.left <= ticks
    }

    /// The tick of the first release of all, if any is still to come.
    pub fn first_release(&mut self) -> Option<u32>
        ensures first { result ≡ first_of self.new.begun.items }
        ensures same { (k : ℕ) → begun_in self.new k ≡ begun_in self.old k }
    {
        if !self.is_known {
            self.first = first_in(&self.begun);
            self.is_known = true;
        }
        self.first
    }

    /// Whether the next release of a thread's wake comes in a tick.
    pub fn is_due(&self, id: NodeId, now: u32) -> bool
        ensures { result ≡ is_due now (next_by (begun_in self.now id)) }
    {
        if self.begun.len() <= id.key() {
            return false;
        }
        match next_of(&self.begun[id.key()]) {
            None => false,
            Some(release) => release.tick == now,
        }
    }

    /// Makes those bursts whole that have a release in a tick.
    pub fn release(&mut self, now: u32)
        requires fits { (k : ℕ) (release : Release) → next_by (begun_in self.old k) ≡ Some release →
            release.tick ≡ now → release.tick + release.every < 2 ^ 32 }
        ensures { (k : ℕ) → begun_in self.new k ≡ released now (begun_in self.old k) }
    {
        let first = release_all(&mut self.begun, now);
        self.first = first;
        self.is_known = true;
    }
}
