// Paths that were followed already.
ghost use Rattle.std.specs.Prelude.{◌≡◌, ◌≤◌, ℕ, List, None, true, IfOk, slice_index_or};
ghost use Rattle.std.specs.List.{AllByRecursion};
ghost use Rattle.hls_chron.specs.Name.{IsName};
ghost use Rattle.hls_report_text.specs.Content.{path_names};
ghost use Rattle.hls_audit_clauses.specs.declared.member.Member.{Member};
ghost use Rattle.hls_audit_clauses.specs.Ways as clause;
ghost use Rattle.hls_audit.specs.Inside.Followed.{AreFollowed};

use crate::tree::Tree;
use hls_chron::Name;
use hls_report_text::Path;
use std::alloc::{AllocError, Global};

/// How many paths are remembered at most.
const ROOM: usize = 32;

/// Paths that lead down to a thread in the tree that stands, so that they need not be followed again. Each has a place
/// by its thread.
#[derive(Drop)]
pub(crate) struct Followed {
    pub(crate) paths: Vec<Option<Path>>,
}

impl Followed {
    /// No path was followed yet.
    pub(crate) fn new(alloc: Global) -> Result<Followed, AllocError>
        ensures { IfOk result (λ f. (members : List Member) (names : List (List ℕ)) →
            AreFollowed members names f.paths.items) }
    {
        let mut paths = Vec::new(alloc);
        paths.resize(ROOM, None)?;
        let mut followed = Followed { paths };
        followed.forget();
        Ok(followed)
    }

    fn forget(&mut self)
        ensures { (members : List Member) (names : List (List ℕ)) → AreFollowed members names self.new.paths.items }
    {
        for at in 0..self.paths.len() {
            self.paths[at] = None;
        }
    }

    /// Forgets all paths, unless the tree is as before.
    pub(crate) fn keep(&mut self, is_same: bool)
        ensures { (members more : List Member) (names : List (List ℕ)) → (is_same ≡ true → more ≡ members) →
            AreFollowed members names self.old.paths.items → AreFollowed more names self.new.paths.items }
    {
        if is_same {
            return;
        }
        self.forget();
    }

    /// Notes that a path leads down.
    fn note(&mut self, path: &Path)
        ensures { (members : List Member) (names : List (List ℕ)) →
            clause.leads_down members (path_names names path.now) ≡ true →
            AreFollowed members names self.old.paths.items → AreFollowed members names self.new.paths.items }
    {
        let place = place_of(path);
        if self.paths.len() <= place {
            return;
        }
        self.paths[place] = Some(*path);
    }

    /// Whether a path leads from the processor down to a thread.
    pub(crate) fn leads_down(&mut self, tree: &Tree, names: &[Name], path: &Path) -> bool
        requires short { path.now.len ≤ 9 }
        requires named { AllByRecursion IsName (path_names names.now path.now) }
        requires followed { AreFollowed tree.now.members.items names.now self.old.paths.items }
        ensures followed { AreFollowed tree.now.members.items names.now self.new.paths.items }
        ensures leads { result ≡ clause.leads_down tree.now.members.items (path_names names.now path.now) }
    {
        if is_at(&self.paths, place_of(path), &Some(*path)) {
            return true;
        }
        if !tree.leads_down(names, path) {
            return false;
        }
        self.note(path);
        true
    }
}

fn place_of(path: &Path) -> usize {
    match path.last_place() {
        Some(last) => usize::from(last) % ROOM,
        None => 0,
    }
}

fn is_at(paths: &[Option<Path>], place: usize, path: &Option<Path>) -> bool
    ensures { result ≡ true → slice_index_or paths.now place None ≡ path.now }
{
    match paths.get(place) {
        Some(other) => *other == *path,
        None => false,
    }
}
