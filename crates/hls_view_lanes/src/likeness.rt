// Labels that read alike, and ways that begin with others.
ghost use Rattle.std.specs.Prelude.{◌≡◌, Some};
ghost use Rattle.hls_audit_clauses.specs.Names.{is_join_sort};
ghost use Rattle.hls_view_lanes.specs.Likeness as told;

use hls_audit_clauses::Sort;
use hls_chron::Kind;
use hls_view_tale::Label;

fn is_join(sort: &Sort) -> bool
    ensures { result ≡ is_join_sort (Some sort.now) }
{
    match sort {
        Sort::Scheduler { config } => config.kind() == Kind::Join,
        Sort::Thread => false,
    }
}

/// Whether two sorts read alike: a join reads as one, however many ports it has.
fn is_like_sort(a: &Sort, b: &Sort) -> bool
    ensures { result ≡ told.is_like_sort a.now b.now }
{
    a == b || (is_join(a) && is_join(b))
}

/// Whether two labels read alike: the same name, sort, terms and guarantee, by whichever port.
fn is_like(a: &Label, b: &Label) -> bool
    ensures { result ≡ told.is_like a.now b.now }
{
    a.name == b.name && is_like_sort(&a.sort, &b.sort) && a.terms == b.terms && a.kept == b.kept
}

/// Whether a way begins with the labels of another.
pub(crate) fn begins(above: &[Label], way: &[Label]) -> bool
    ensures { result ≡ told.begins above.now way.now }
{
    if way.len() < above.len() {
        return false;
    }
    for (at, label) in above.iter().enumerate() {
        if !is_like(label, &way[at]) {
            return false;
        }
    }
    true
}

/// Whether two ways read alike.
pub fn is_same(a: &[Label], b: &[Label]) -> bool
    ensures { result ≡ told.is_same a.now b.now }
{
    begins(a, b) && begins(b, a)
}
