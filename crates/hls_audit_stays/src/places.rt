// The places of names.
ghost use Rattle.std.specs.Prelude.{◌≡◌, ◌≢◌, ◌<◌, ℕ, List, Some, None, OnOk, is_some};
ghost use Rattle.hls_audit_stays.specs.Places.{place_in, spare_of, Notes, Sets};

use hls_chron::Name;
use indexmap::IndexMap;
use std::alloc::{AllocError, Global};

/// A place for each name that was noted or set here.
#[derive(Drop)]
pub struct Places {
    pub(crate) places: IndexMap<Name, usize>,
}

impl Places {
    /// No names. Takes no memory.
    pub fn new(alloc: Global) -> Places
        ensures { (name : List ℕ) → place_in result name ≡ None }
    {
        Places {
            places: IndexMap::new(alloc),
        }
    }

    /// The place of a name.
    pub fn find(&self, name: &Name) -> Option<usize>
        ensures { result ≡ place_in self.now name.now }
    {
        self.places.get(name).copied()
    }

    /// Notes that a name is at a place, unless it has one.
    ///
    /// # Errors
    /// Returns `AllocError` for want of memory.
    pub fn note(&mut self, name: &Name, place: usize) -> Result<(), AllocError>
        ensures { OnOk result (Notes self.old self.new name.now place) }
    {
        if self.has(name) {
            return Ok(());
        }
        self.reserve()?;
        self.insert(*name, place);
        Ok(())
    }

    /// Sets the place of a name, also where it had another.
    ///
    /// # Errors
    /// Returns `AllocError` for want of memory.
    pub fn set(&mut self, name: &Name, place: usize) -> Result<(), AllocError>
        ensures { OnOk result (Sets self.old self.new name.now place) }
    {
        self.reserve()?;
        self.insert(*name, place);
        Ok(())
    }

    /// Whether a name has a place.
    pub fn has(&self, name: &Name) -> bool
        ensures { result ≡ is_some (place_in self.now name.now) }
    {
        self.find(name).is_some()
    }

    fn reserve(&mut self) -> Result<(), AllocError>
        ensures room { OnOk result (0 < spare_of self.new) }
        ensures same { (name : List ℕ) → place_in self.new name ≡ place_in self.old name }
    {
        self.places.reserve(1)
    }

    #[tactic(auto, using(crate::proofs::Names::same_apart))]
    fn insert(&mut self, name: Name, place: usize)
        requires { 0 < spare_of self.old }
        ensures here { place_in self.new name ≡ Some place }
        ensures others { (other : List ℕ) → other ≢ name → place_in self.new other ≡ place_in self.old other }
    {
        match self.places.insert(name, place) {
            Ok(_) => {}
            Err(_) => unreachable!(),
        }
    }
}
