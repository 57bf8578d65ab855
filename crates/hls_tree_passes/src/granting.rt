// The processor is granted down the tree.
ghost use Rattle.std.specs.Prelude.{◌≡◌, ◌≢◌, ℕ, ◌<◌, Option, Some, None, true, IfSome, IsNone, []};
ghost use Rattle.std.specs.Prelude.{map, option_map, slice_get};
ghost use Rattle.slab.specs.Slab.{get};
ghost use Rattle.hls_kinds.specs.Discipline.{Serves};
ghost use Rattle.hls_sched.specs.Seen.{config_of, seen_asks};
ghost use Rattle.hls_machine.specs.Hierarchy.{Processor, Seat};
ghost use Rattle.hls_tree_nodes.specs.Shown.{IsPosted, PostedIn, ServesIn};
ghost use Rattle.hls_tree_nodes.specs.Shown.{asks_in, place_in};
ghost use Rattle.hls_tree_nodes.specs.Shown.{grant_in, is_sched, on_post, post_granted};
ghost use Rattle.hls_tree_nodes.specs.Views.{shown_at, stored_at, choice_at, choice_opt, is_place, place_view};
ghost use Rattle.hls_tree_nodes.specs.Views.{seat_view, post_of};
ghost use Rattle.hls_tree_nodes.specs.Late.{IsLate, StaysLate};
ghost use Rattle.hls_tree_nodes.specs.Known.{IsAlongRoute};
ghost use Rattle.hls_tree_nodes.specs.TreeOf.{IsTelling, Sitter, Led, Ran, RootAt};
ghost use Rattle.hls_tree_nodes.specs.TreeOf.{Each};
ghost use Rattle.hls_sched.specs.Boxed.{boxed};

use hls_tree_nodes::{
    Node, NodeId, Nodes, Place, Role, Route, Station, TakenSeat, asks_at, rouse, same_place,
};
use slab::Slab;

/// Grants a scheduler through a port, and tells the slot that it serves, and who was seen last there.
fn grant_station(station: &mut Station, port: u8) -> (Option<u32>, usize)
    requires posted { IsPosted (post_of (boxed seen) station.old) }
    requires asks { seen_asks (boxed seen station.old.unit) ≡ true }
    requires free { (boxed seen station.old.unit).grant ≡ None }
    ensures granted { post_of (boxed seen) station.new ≡ post_granted port (post_of (boxed seen) station.old) }
    ensures choice { boxed choice station.new.unit ≡ boxed choice station.old.unit }
    ensures value { result.0 ≡ boxed choice station.old.unit }
    ensures serves { IfSome result.0 (Serves (config_of (boxed seen station.old.unit))
        (boxed seen station.old.unit).book (boxed seen station.old.unit).mask) }
    ensures some { result.0 ≢ None }
{
    let slot = station.grant(port);
    let last = match slot {
        Some(slot) => station.last_at(slot),
        None => 0,
    };
    (slot, last)
}

/// Grants a scheduler that is not behind through a port, and tells the slot that it serves, and who was seen last
/// there; nothing at a thread.
fn grant_on(slab: &mut Slab<Node>, key: usize, port: u8) -> (Option<u32>, usize)
    requires posted { PostedIn (stored_at (boxed seen) slab.old key) }
    requires asks { asks_in (stored_at (boxed seen) slab.old key) ≡ true }
    requires free { grant_in (stored_at (boxed seen) slab.old key) ≡ None }
    ensures others { (k : ℕ) → k ≢ key → get slab.new k ≡ get slab.old k }
    ensures granted { stored_at (boxed seen) slab.new key ≡
        on_post (post_granted port) (stored_at (boxed seen) slab.old key) }
    ensures value { result.0 ≡ choice_opt (boxed choice) (get slab.new key) }
    ensures serves { IfSome result.0 (ServesIn (stored_at (boxed seen) slab.old key)) }
    ensures some { is_sched (stored_at (boxed seen) slab.old key) ≡ true → result.0 ≢ None }
{
    match slab.get_mut(key) {
        Some(node) => match &mut node.role {
            Role::Sched(station) => grant_station(station, port),
            Role::Thread { .. } => (None, 0),
        },
        None => (None, 0),
    }
}

/// The same, and it may be behind: then it catches up before.
fn grant_at(nodes: &mut Nodes, key: usize, port: u8) -> (Option<u32>, usize)
    requires posted { PostedIn (shown_at (boxed seen) nodes.old key) }
    requires asks { asks_in (shown_at (boxed seen) nodes.old key) ≡ true }
    requires free { grant_in (shown_at (boxed seen) nodes.old key) ≡ None }
    requires late { IsLate (boxed seen) nodes.old }
    ensures others { (k : ℕ) → k ≢ key → get nodes.new.slab k ≡ get nodes.old.slab k }
    ensures granted { shown_at (boxed seen) nodes.new key ≡
        on_post (post_granted port) (shown_at (boxed seen) nodes.old key) }
    ensures value { result.0 ≡ choice_at (boxed choice) nodes.new key }
    ensures serves { IfSome result.0 (ServesIn (shown_at (boxed seen) nodes.old key)) }
    ensures some { is_sched (shown_at (boxed seen) nodes.old key) ≡ true → result.0 ≢ None }
    ensures late { StaysLate (boxed seen) nodes.old nodes.new }
{
    rouse(nodes, key);
    grant_on(&mut nodes.slab, key, port)
}

/// Whether the seat of a port is at a place.
fn sits_at(seats: &[TakenSeat], port: u8, place: Place) -> bool
    ensures { result ≡ is_place (option_map (λ (s : Seat). s.place) (slice_get (map seat_view seats.now) port))
        (place_view place) }
{
    match seats.get(port as usize) {
        Some(seat) => same_place(seat.place, place),
        None => false,
    }
}

/// The port of these seats that is at a place.
fn port_on(seats: &[TakenSeat], place: Place) -> Option<u8>
    ensures some { IfSome result (λ port. is_place
        (option_map (λ (s : Seat). s.place) (slice_get (map seat_view seats.now) port)) (place_view place) ≡ true) }
    ensures none { IsNone result → (port : ℕ) → port < 4 → is_place
        (option_map (λ (s : Seat). s.place) (slice_get (map seat_view seats.now) port)) (place_view place) ≢ true }
{
    for port in 0..4u8 {
        if sits_at(seats, port, place) {
            return Some(port);
        }
    }
    None
}

/// The port of a node that sits at a place.
fn port_at(nodes: &Nodes, key: usize, place: Place) -> Option<u8>
    ensures some { IfSome result
        (λ port. is_place (place_in (shown_at (boxed seen) nodes.now key) port) (place_view place) ≡ true) }
    ensures none { IsNone result → (port : ℕ) → port < 4 →
        is_place (place_in (shown_at (boxed seen) nodes.now key) port) (place_view place) ≢ true }
{
    match nodes.slab.get(key) {
        Some(node) => port_on(&node.seats, place),
        None => None,
    }
}

/// Who sits at a place, and by which port, of all nodes.
fn find_sitter(nodes: &Nodes, place: Place) -> Option<(usize, u8)>
    ensures some { IfSome result
        (λ who. is_place (place_in (shown_at (boxed seen) nodes.now who.0) who.1) (place_view place) ≡ true) }
    ensures none { IsNone result → (key port : ℕ) → port < 4 →
        is_place (place_in (shown_at (boxed seen) nodes.now key) port) (place_view place) ≢ true }
{
    let end = nodes.slab.capacity();
    for key in 0..end {
        if let Some(port) = port_at(nodes, key, place) {
            return Some((key, port));
        }
    }
    None
}

/// Who sits at a place, and by which port: the one who was seen there last, if it still does.
fn sitter_at(nodes: &Nodes, place: Place, last: usize) -> Option<(usize, u8)>
    ensures some { IfSome result
        (λ who. is_place (place_in (shown_at (boxed seen) nodes.now who.0) who.1) (place_view place) ≡ true) }
    ensures none { IsNone result → (key port : ℕ) → port < 4 →
        is_place (place_in (shown_at (boxed seen) nodes.now key) port) (place_view place) ≢ true }
{
    match port_at(nodes, last, place) {
        Some(port) => Some((last, port)),
        None => find_sitter(nodes, place),
    }
}

/// Notes who was seen at a slot of a scheduler.
fn note_on(nodes: &mut Nodes, key: usize, slot: u32, id: NodeId)
    requires posted { PostedIn (shown_at (boxed seen) nodes.old key) }
    requires late { IsLate (boxed seen) nodes.old }
    ensures here { shown_at (boxed seen) nodes.new key ≡ shown_at (boxed seen) nodes.old key }
    ensures choice { choice_at (boxed choice) nodes.new key ≡ choice_at (boxed choice) nodes.old key }
    ensures others { (k : ℕ) → k ≢ key → get nodes.new.slab k ≡ get nodes.old.slab k }
    ensures late { StaysLate (boxed seen) nodes.old nodes.new }
{
    match nodes.slab.get_mut(key) {
        Some(node) => match &mut node.role {
            Role::Sched(station) => station.note(slot, id),
            Role::Thread { .. } => {}
        },
        None => {}
    }
}

/// Notes who was seen at a place, if it is another one than the last.
fn note_seen(nodes: &mut Nodes, place: Place, last: usize, id: NodeId)
    requires posted { (k : ℕ) → PostedIn (shown_at (boxed seen) nodes.old k) }
    requires late { IsLate (boxed seen) nodes.old }
    ensures same { (k : ℕ) → shown_at (boxed seen) nodes.new k ≡ shown_at (boxed seen) nodes.old k }
    ensures choices { (k : ℕ) → choice_at (boxed choice) nodes.new k ≡ choice_at (boxed choice) nodes.old k }
    ensures late { StaysLate (boxed seen) nodes.old nodes.new }
{
    if id.key() == last {
        return;
    }
    match place {
        Place::Processor => {}
        Place::At { scheduler, slot } => note_on(nodes, scheduler, slot, id),
    }
}

/// Grants along the choices down to a thread, and tells the way.
fn grant_path(nodes: &mut Nodes, root: NodeId, route: &mut Route)
    requires telling { IsTelling (shown_at (boxed seen) nodes.old) Each }
    requires root { (sitter : Sitter (shown_at (boxed seen) nodes.old) Processor) ×
        (asks_in (shown_at (boxed seen) nodes.old sitter.node) ≡ true) }
    requires empty { route.old ≡ [] }
    requires late { IsLate (boxed seen) nodes.old }
    ensures led { Led (shown_at (boxed seen) nodes.old) (shown_at (boxed seen) nodes.new)
        (choice_at (boxed choice) nodes.new) route.new }
    ensures late { StaysLate (boxed seen) nodes.old nodes.new }
{
    let mut place = Place::Processor;
    let mut last = root.key();
    for step in 0..9u8 {
        let Some((key, port)) = sitter_at(nodes, place, last) else {
            unreachable!()
        };
        let id = NodeId::of(key);
        note_seen(nodes, place, last, id);
        route.push(id);
        let (slot, before) = grant_at(nodes, key, port);
        match slot {
            None => return,
            Some(slot) => {
                place = Place::At {
                    scheduler: key,
                    slot,
                };
                last = before;
            }
        }
    }
    unreachable!()
}

/// Grants from the root down, if it asks.
fn grant_root(nodes: &mut Nodes, root: Option<NodeId>, route: &mut Option<Route>)
    requires telling { IsTelling (shown_at (boxed seen) nodes.old) Each }
    requires root { RootAt (shown_at (boxed seen) nodes.old) root }
    requires late { IsLate (boxed seen) nodes.old }
    ensures ran { Ran (shown_at (boxed seen) nodes.old) (shown_at (boxed seen) nodes.new)
        (choice_at (boxed choice) nodes.new) root route.new }
    ensures late { StaysLate (boxed seen) nodes.old nodes.new }
{
    match root {
        None => *route = None,
        Some(root) => {
            if asks_at(nodes, root.key()) {
                grant_path(nodes, root, route.insert(Route::new()));
            } else {
                *route = None;
            }
        }
    }
}

/// Grants from the root down, if it asks, and tells the way.
pub fn grant(nodes: &mut Nodes, root: Option<NodeId>, route: &mut Option<Route>)
    requires telling { IsTelling (shown_at (boxed seen) nodes.old) Each }
    requires root { RootAt (shown_at (boxed seen) nodes.old) root }
    requires late { IsLate (boxed seen) nodes.old }
    ensures ran { Ran (shown_at (boxed seen) nodes.old) (shown_at (boxed seen) nodes.new)
        (choice_at (boxed choice) nodes.new) root route.new }
    ensures along { IsAlongRoute (shown_at (boxed seen) nodes.new) route.new }
    ensures late { StaysLate (boxed seen) nodes.old nodes.new }
{
    grant_root(nodes, root, route);
}
