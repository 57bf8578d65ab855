// Ways from the processor down to a thread.
ghost use Rattle.std.specs.Prelude.{◌≡◌, ◌≤◌, slice_get};
ghost use Rattle.std.specs.List.{AllByRecursion};
ghost use Rattle.hls_chron.specs.Name.{IsName};
ghost use Rattle.hls_report_text.specs.Content.{path_names};
ghost use Rattle.hls_audit_clauses.specs.Names as names;
ghost use Rattle.hls_audit_clauses.specs.Ways as clause;
ghost use Rattle.hls_audit.specs.Inside.Steps.{is_last, is_step};

use crate::placing::{sits_at_cpu, sits_on};
use crate::tree::Tree;
use hls_chron::Name;
use hls_report_text::Path;

impl Tree {
    /// Whether a path leads from the processor down to a thread.
    pub(crate) fn leads_down(&self, names: &[Name], path: &Path) -> bool
        requires short { path.now.len ≤ 9 }
        requires named { AllByRecursion IsName (path_names names.now path.now) }
        ensures { result ≡ clause.leads_down self.now.members.items (path_names names.now path.now) }
    {
        let mut above: Option<Name> = None;
        for place in &path.names[..path.len as usize] {
            let Some(name) = name_at(names, *place) else {
                return false;
            };
            if !self.is_step(&above, &name) {
                return false;
            }
            above = Some(name);
        }
        self.is_last(&above)
    }

    /// Whether a name is somebody's who sits where a path has come to: on a scheduler, or at the processor where
    /// the path begins.
    fn is_step(&self, above: &Option<Name>, name: &Name) -> bool
        ensures { result ≡ is_step self.now.members.items above.now name.now }
    {
        match self.member(name) {
            Some(member) => {
                match above {
                    Some(above) => sits_on(above, member),
                    None => sits_at_cpu(member),
                }
            }
            None => false,
        }
    }

    /// Whether a path that has come to a place may end there.
    fn is_last(&self, above: &Option<Name>) -> bool
        ensures { result ≡ is_last self.now.members.items above.now }
    {
        match above {
            Some(name) => self.is_thread(name),
            None => false,
        }
    }
}

fn name_at(names: &[Name], place: u16) -> Option<Name>
    ensures { result ≡ slice_get names.now place }
{
    names.get(place as usize).copied()
}
