// What is to be moved, and where to.
ghost use Rattle.std.specs.Prelude.{◌≡◌, Some, None, IfOk, IfErr, IfSome, IsNone};
ghost use Rattle.hls_scenario.specs.declared.scenario.Spot.TheVariants.{Cpu, Under};
ghost use Rattle.hls_scenario.specs.declared.scenario.Command.TheVariants.{Move};
ghost use Rattle.hls_scenario.specs.Grammar.{IsCommand};
ghost use Rattle.hls_chron.specs.Name.{IsName};
ghost use Rattle.hls_report_text.specs.WellFormed.{IsRefusal};
ghost use Rattle.hls_machine.specs.Hierarchy.{Hierarchy};
ghost use Rattle.hls_machine.specs.Lists.{IsListed};
ghost use Rattle.hls_legal.specs.Tells.{HasName, terms_in};
ghost use Rattle.hls_legal.specs.Moment.{Moment};
ghost use Rattle.hls_legal.specs.Answers.{IsRefused};
ghost use Rattle.hls_tree.specs.Offers.{MovesTo};
ghost use Rattle.hls_tree.specs.Reads.{IsLoaded};
ghost use Rattle.hls_tree.specs.Trees.{IsTreeOf, Stands, Any};
ghost use Rattle.hls_manager.specs.Inside.Shifts.{IsAimed, is_join};

use hls_chron::{Kind, Name, Terms};
use hls_report_text::Refusal;
use hls_scenario::{Perch, Spot};
use hls_sched::Scheduler;
use hls_tree::{NodeId, Seat, Sort, Tree};

/// What is to be moved, and the seat that is wanted for it; or that a name is nobody's, or of the wrong sort.
pub(crate) fn aim(tree: &Tree, name: &Name, perch: &Perch) -> Result<(NodeId, Seat), Refusal>
    requires { Stands seen tree.now Any }
    ensures aimed { IfOk result (λ aimed. (h : Hierarchy) → IsTreeOf seen tree.now h →
        IsAimed h name.now perch.now aimed.0 aimed.1) }
    ensures refused { IfErr result (λ refusal. (m : Moment) → IsTreeOf seen tree.now m.hierarchy →
        IsListed m.hierarchy → IsRefused m (Move name.now perch.now) refusal) }
    ensures formed { IfErr result (λ refusal. IsCommand 2 (Move name.now perch.now) → IsRefusal refusal) }
{
    let Some(id) = tree.find(name) else {
        return Err(Refusal::NoSuchName { name: *name });
    };
    match perch.spot {
        Spot::Cpu => match refuses_root(tree, name, id) {
            Some(refusal) => Err(refusal),
            None => Ok((id, seat_for(None, perch))),
        },
        Spot::Under { sched, .. } => {
            let Some(parent) = tree.find(&sched) else {
                return Err(Refusal::NoSuchName { name: sched });
            };
            match refuses_under(tree, name, id, &sched, parent) {
                Some(refusal) => Err(refusal),
                None => Ok((id, seat_for(Some(parent), perch))),
            }
        }
    }
}

/// The seat that a perch asks for, at this parent.
fn seat_for(parent: Option<NodeId>, perch: &Perch) -> Seat
    ensures parent { result.parent ≡ parent }
    ensures terms { result.terms ≡ terms_in perch.now.spot }
    ensures kept { result.kept ≡ perch.now.want }
{
    let terms = match perch.spot {
        Spot::Cpu => Terms::Cpu,
        Spot::Under { terms, .. } => terms,
    };
    Seat {
        parent,
        terms,
        kept: perch.want,
    }
}

/// Why a node of this name may not sit at the processor, by its sort.
fn refuses_root(tree: &Tree, name: &Name, id: NodeId) -> Option<Refusal>
    requires stands { Stands seen tree.now Any }
    requires named { (h : Hierarchy) → IsTreeOf seen tree.now h → HasName h id name.now }
    ensures none { IsNone result → (h : Hierarchy) → IsTreeOf seen tree.now h → MovesTo None (h.nodes id) }
    ensures some { IfSome result (λ refusal. (m : Moment) (perch : Perch) → perch.spot ≡ Cpu →
        IsTreeOf seen tree.now m.hierarchy → IsListed m.hierarchy → IsRefused m (Move name.now perch) refusal) }
    ensures formed { IfSome result (λ refusal. IsName name.now → IsRefusal refusal) }
{
    let sort = tree.sort(id);
    if is_join(sort) {
        return Some(Refusal::WrongSort { name: Some(*name) });
    }
    match sort {
        Sort::Thread => Some(Refusal::WrongSort { name: None }),
        Sort::Sched(_) => None,
    }
}

/// Why a node of this name may not sit on another, by their sorts.
fn refuses_under(
    tree: &Tree,
    name: &Name,
    id: NodeId,
    sched: &Name,
    parent: NodeId,
) -> Option<Refusal>
    requires stands { Stands seen tree.now Any }
    requires named { (h : Hierarchy) → IsTreeOf seen tree.now h → HasName h id name.now }
    requires parent { (h : Hierarchy) → IsTreeOf seen tree.now h → HasName h parent sched.now }
    ensures none { IsNone result → (h : Hierarchy) → IsTreeOf seen tree.now h →
        MovesTo (Some parent) (h.nodes id) × IsLoaded (h.nodes parent) }
    ensures some { IfSome result (λ refusal. (m : Moment) (perch : Perch) (terms : Terms) →
        perch.spot ≡ Under sched.now terms → IsTreeOf seen tree.now m.hierarchy → IsListed m.hierarchy →
        IsRefused m (Move name.now perch) refusal) }
    ensures formed { IfSome result (λ refusal. IsName name.now → IsName sched.now → IsRefusal refusal) }
{
    if is_join(tree.sort(id)) {
        return Some(Refusal::WrongSort { name: Some(*name) });
    }
    match tree.sort(parent) {
        Sort::Thread => Some(Refusal::WrongSort { name: Some(*sched) }),
        Sort::Sched(_) => None,
    }
}

fn is_join(sort: Sort) -> bool
    ensures { result ≡ is_join sort }
{
    match sort {
        Sort::Sched(Kind::Join) => true,
        _ => false,
    }
}
