// Names that commands use.
ghost use Rattle.std.specs.Prelude.{◌≡◌, Some, [], IfOk, IfErr};
ghost use Rattle.hls_scenario.specs.declared.scenario.Command.{Command};
ghost use Rattle.hls_report_text.specs.declared.report.Answer.TheVariants.{Done, Refused};
ghost use Rattle.hls_chron.specs.Name.{IsName};
ghost use Rattle.hls_report_text.specs.WellFormed.{IsRefusal};
ghost use Rattle.hls_machine.specs.Hierarchy.{Hierarchy};
ghost use Rattle.hls_machine.specs.Legal.{IsThread};
ghost use Rattle.hls_machine.specs.Lists.{IsListed};
ghost use Rattle.hls_legal.specs.Tells.{HasName};
ghost use Rattle.hls_legal.specs.Moment.{Moment};
ghost use Rattle.hls_legal.specs.Answers.{IsAnswer};
ghost use Rattle.hls_tree.specs.Trees.{IsTreeOf, Stands, Any};
ghost use Rattle.hls_tree.specs.Reads.{IsLoaded};
ghost use Rattle.hls_manager.specs.Faults.{fault_refusal};
ghost use Rattle.hls_manager.specs.Finds.{IsNoScheduler, IsOfThread};

use hls_chron::Name;
use hls_report_text::Refusal;
use hls_sched::SeatFault;
use hls_tree::{NodeId, Sort, Tree};

/// The thread of a name that a command is about, or why the command is refused. An end, a wake and a block
/// are refused for nothing else, so this answers wakes and blocks.
///
/// # Errors
/// Nobody has the name, or a scheduler has it.
pub fn find_thread(tree: &Tree, name: &Name) -> Result<NodeId, Refusal>
    requires { Stands seen tree.now Any }
    ensures found { IfOk result (λ id. (h : Hierarchy) → IsTreeOf seen tree.now h →
        HasName h id name.now × IsThread (h.nodes id)) }
    ensures done { IfOk result (λ _. (m : Moment) (command : Command) → IsTreeOf seen tree.now m.hierarchy →
        IsListed m.hierarchy → IsOfThread command name.now → IsAnswer m command (Done [])) }
    ensures refused { IfErr result (λ refusal. (m : Moment) (command : Command) →
        IsTreeOf seen tree.now m.hierarchy → IsListed m.hierarchy → IsOfThread command name.now →
        IsAnswer m command (Refused refusal)) }
    ensures formed { IfErr result (λ refusal. IsName name.now → IsRefusal refusal) }
{
    let Some(id) = tree.find(name) else {
        return Err(Refusal::NoSuchName { name: *name });
    };
    match tree.sort(id) {
        Sort::Thread => Ok(id),
        Sort::Sched(_) => Err(Refusal::WrongSort { name: Some(*name) }),
    }
}

/// The scheduler of a name, or why a command is refused that needs one of this name.
pub(crate) fn find_scheduler(tree: &Tree, name: &Name) -> Result<NodeId, Refusal>
    requires { Stands seen tree.now Any }
    ensures found { IfOk result (λ id. (h : Hierarchy) → IsTreeOf seen tree.now h →
        HasName h id name.now × IsLoaded (h.nodes id)) }
    ensures refused { IfErr result (λ refusal. (h : Hierarchy) → IsTreeOf seen tree.now h → IsListed h →
        IsNoScheduler h name.now refusal) }
    ensures formed { IfErr result (λ refusal. IsName name.now → IsRefusal refusal) }
{
    let Some(id) = tree.find(name) else {
        return Err(Refusal::NoSuchName { name: *name });
    };
    match tree.sort(id) {
        Sort::Sched(_) => Ok(id),
        Sort::Thread => Err(Refusal::WrongSort { name: Some(*name) }),
    }
}

/// Why a command is refused that wants a seat on the scheduler of this name, where the seat has this fault.
pub(crate) fn fault_refusal(sched: &Name, fault: SeatFault) -> Refusal
    ensures is { result ≡ fault_refusal sched.now fault }
    ensures formed { IsName sched.now → IsRefusal result }
{
    match fault {
        SeatFault::Unfit => Refusal::TermsUnfit { name: *sched },
        SeatFault::PriorityTaken { priority } => Refusal::PriorityTaken { priority },
        SeatFault::Full { seats } => Refusal::SeatsFull {
            name: Some(*sched),
            seats,
        },
        SeatFault::NoRoom { free, asked } => Refusal::NoRoom { free, asked },
    }
}
