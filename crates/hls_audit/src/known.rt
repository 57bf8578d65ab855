// An index of names.
ghost use Rattle.std.specs.Prelude.{◌≡◌, ◌≢◌, ◌<◌, ℕ, List, Some, None, OnOk, is_some, option_copied};
ghost use Rattle.hls_audit.specs.Inside.Known.{known_as, spare_of};

use hls_audit_clauses::Member;
use hls_chron::Name;
use indexmap::IndexMap;
use std::alloc::{AllocError, Global};

/// Who has a name.
#[derive(Drop)]
pub(crate) struct Known {
    pub(crate) members: IndexMap<Name, Member>,
}

impl Known {
    /// Nobody. Takes no memory.
    pub(crate) fn new(alloc: Global) -> Known
        ensures { (name : List ℕ) → known_as result name ≡ None }
    {
        Known {
            members: IndexMap::new(alloc),
        }
    }

    /// Who has a name.
    pub(crate) fn find(&self, name: &Name) -> Option<&Member>
        ensures { option_copied result ≡ known_as self.now name.now }
    {
        self.members.get(name)
    }

    /// Whether somebody has a name.
    pub(crate) fn has(&self, name: &Name) -> bool
        ensures { result ≡ is_some (known_as self.now name.now) }
    {
        self.find(name).is_some()
    }

    /// Makes room for one name more.
    ///
    /// # Errors
    /// Returns `AllocError` for want of memory.
    pub(crate) fn reserve(&mut self) -> Result<(), AllocError>
        ensures room { OnOk result (0 < spare_of self.new) }
        ensures same { (name : List ℕ) → known_as self.new name ≡ known_as self.old name }
    {
        self.members.reserve(1)
    }

    /// Notes who has a name, into room that is there.
    #[tactic(auto, using(hls_audit_stays::proofs::Names::same_apart))]
    pub(crate) fn insert(&mut self, name: Name, member: Member)
        requires { 0 < spare_of self.old }
        ensures here { known_as self.new name ≡ Some member }
        ensures others { (other : List ℕ) → other ≢ name → known_as self.new other ≡ known_as self.old other }
    {
        match self.members.insert(name, member) {
            Ok(_) => {}
            Err(_) => unreachable!(),
        }
    }

    /// Forgets a name.
    #[tactic(auto, using(hls_audit_stays::proofs::Names::same_apart))]
    pub(crate) fn remove(&mut self, name: &Name)
        ensures here { known_as self.new name.now ≡ None }
        ensures others { (other : List ℕ) → other ≢ name.now → known_as self.new other ≡ known_as self.old other }
    {
        let _ = self.members.swap_remove(name);
    }
}
