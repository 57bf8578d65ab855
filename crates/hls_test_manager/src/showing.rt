// What a tree and a kit show.
ghost use Rattle.std.specs.Prelude.{◌≢◌, None};
ghost use Rattle.hls_machine.specs.Hierarchy.{seat_of};
ghost use Rattle.hls_tree.specs.Reads.{IsLoaded};
ghost use Rattle.hls_tree.specs.Trees.{Stands, Any};

use hls_chron::Name;
use hls_sched::{Kit, Scheduler};
use hls_tree::{NodeId, Sort, Tree};
use std::alloc::{AllocError, Global};
use std::str;

/// The names of all nodes.
const NAMES: [&str; 9] = ["root", "e", "r", "j", "k", "m", "a", "b", "c"];

/// The seat of a node at a port.
fn shown_seat(alloc: Global, tree: &Tree, id: NodeId, port: u8) -> Result<String, AllocError>
    requires { Stands seen tree.now (λ h. seat_of (h.nodes id) port ≢ None) }
{
    let name = tree.name(id);
    let word = str::from_utf8(name.bytes()).unwrap_or("");
    let terms = tree.terms(id, port);
    let kept = tree.kept(id, port);
    format!(in alloc; "    {word} {port} {terms:?} {kept:?}\n")
}

/// A scheduler, and the seats on it in the order in which they were taken.
fn shown_scheduler(alloc: Global, tree: &Tree, id: NodeId) -> Result<String, AllocError>
    requires { Stands seen tree.now (λ h. IsLoaded (h.nodes id)) }
{
    let config = tree.config(id);
    let level = tree.level(id);
    let slots = tree.slots_taken(id);
    let mut text = format!(in alloc; "{config:?}, level {level}, slots {slots}\n")?;
    for at in 0..tree.seats_taken(id) {
        let (child, port) = tree.child(id, at);
        let seat = shown_seat(alloc, tree, child, port)?;
        text.push_str(&seat)?;
    }
    Ok(text)
}

/// The node of a number.
fn shown_node(alloc: Global, tree: &Tree, id: NodeId) -> Result<String, AllocError>
    requires { Stands seen tree.now (λ h. h.nodes id ≢ None) }
{
    match tree.sort(id) {
        Sort::Thread => "thread\n".to_string(alloc),
        Sort::Sched(_) => shown_scheduler(alloc, tree, id),
    }
}

/// The node of a name, if there is one.
fn shown_name(alloc: Global, tree: &Tree, word: &str) -> Result<String, AllocError>
    requires { Stands seen tree.now Any }
{
    match Name::read(word.as_bytes()) {
        Some(name) => match tree.find(&name) {
            Some(id) => {
                let node = shown_node(alloc, tree, id)?;
                format!(in alloc; "{word}: {node}")
            }
            None => Ok(String::new(alloc)),
        },
        None => Ok(String::new(alloc)),
    }
}

/// All nodes of a tree, and the boxes of a kit.
pub fn shown(alloc: Global, tree: &Tree, kit: &Kit) -> Result<String, AllocError>
    requires { Stands seen tree.now Any }
{
    let schedulers = tree.scheds();
    let threads = tree.threads();
    let left = [
        kit.fp.len(),
        kit.edf.len(),
        kit.sfq.len(),
        kit.rr.len(),
        kit.wheel.len(),
        kit.join.len(),
    ];
    let used = kit.used;
    let mut text = format!(in alloc;
        "{schedulers} schedulers, {threads} threads, boxes left {left:?}, used {used:?}\n"
    )?;
    for word in NAMES {
        let node = shown_name(alloc, tree, word)?;
        text.push_str(&node)?;
    }
    Ok(text)
}
