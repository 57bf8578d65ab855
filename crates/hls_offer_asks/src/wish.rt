// A seat that is wished for, and the request for it.
ghost use Rattle.std.specs.Prelude.{◌≡◌, IsTrue, true};
ghost use Rattle.hls_chron.specs.Name.{IsName};
ghost use Rattle.hls_machine.specs.Hierarchy.{Hierarchy};
ghost use Rattle.hls_machine.specs.Lists.{IsListed};
ghost use Rattle.hls_machine.specs.Steps.{is_thread};
ghost use Rattle.hls_legal.specs.Moment.{node_of};
ghost use Rattle.hls_tree.specs.Trees.{Any, IsTreeOf, Stands};
ghost use Rattle.hls_offer_asks.specs.Requests.{request_for, request_of};

use hls_chron::{Name, Terms};
use hls_guarantee::Guarantee;
use hls_scenario::{Command, Perch, Spot};
use hls_sched::Scheduler;
use hls_tree::{Sort, Tree};

/// A seat that is wished for: for a thread of this name, on the scheduler of a name, on these terms.
#[derive(Clone, Copy, Debug)]
pub struct Wish {
    pub name: Name,
    pub on: Name,
    pub terms: Terms,
}

/// The request for a seat with a guarantee: a move where the name is that of an admitted thread, and else an
/// admission.
pub fn request(tree: &Tree, wish: &Wish, wanted: &Guarantee) -> Command
    requires { Stands seen tree.now Any }
    ensures { (h : Hierarchy) → IsTreeOf seen tree.now h → IsListed h → result ≡ request_of h wish.now wanted.now }
{
    request_for(is_thread(tree, &wish.name), wish, wanted)
}

/// Whether an admitted thread has a name.
fn is_thread(tree: &Tree, name: &Name) -> bool
    requires { Stands seen tree.now Any }
    ensures { (h : Hierarchy) → IsTreeOf seen tree.now h → IsListed h → result ≡ is_thread (node_of h name.now) }
{
    let Some(id) = tree.find(name) else {
        return false;
    };
    match tree.sort(id) {
        Sort::Thread => true,
        Sort::Sched(_) => false,
    }
}

/// The request for a seat, where it is told whether the thread is known.
fn request_for(known: bool, wish: &Wish, wanted: &Guarantee) -> Command
    ensures { result ≡ request_for known wish.now wanted.now }
{
    let name = wish.name;
    let perch = Perch {
        spot: Spot::Under {
            sched: wish.on,
            terms: wish.terms,
        },
        want: *wanted,
    };
    if known {
        Command::Move { name, perch }
    } else {
        Command::Thread { name, perch }
    }
}
