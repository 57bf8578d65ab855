// What is asked is told up the tree, and the processor is taken back.
ghost use Rattle.hls_chron.specs.Ranges.{most_slots};
ghost use Rattle.std.specs.Prelude.{◌≡◌, ◌≢◌, ℕ, ◌+◌, ◌<◌, ◌≤◌, Option, Some, None, IfSome, true, false};
ghost use Rattle.slab.specs.Slab.{get};
ghost use Rattle.hls_kinds.specs.Asks.{slot_asks};
ghost use Rattle.std.specs.Prelude.{length, map, option_map, slice_get, get_or};
ghost use Rattle.std.specs.Int.{bit_at};
ghost use Rattle.hls_chron.specs.Seats.{terms_at};
ghost use Rattle.hls_machine.specs.Hierarchy.{Processor, Seat};
ghost use Rattle.hls_tree_nodes.specs.Shown.{PostedIn, ToldIn, mask_in};
ghost use Rattle.hls_tree_nodes.specs.Shown.{book_in, asks_in, level_in, place_in, seats_in};
ghost use Rattle.hls_tree_nodes.specs.Shown.{is_sched, on_post, post_freed, post_revoked};
ghost use Rattle.hls_tree_nodes.specs.Views.{shown_at, stored_at, told_place, place_view, seat_view};
ghost use Rattle.hls_tree_nodes.specs.Late.{IsLate, IsQuiet, AreQuiet, StaysLate};
ghost use Rattle.hls_tree_nodes.specs.Levels.{IsLevel, AreByLevel};
ghost use Rattle.hls_tree_nodes.specs.Known.{HaveTold, AreStill, AreKnown, IsKnown, IsFound, IsAlongRoute, has_bit};
ghost use Rattle.hls_tree_nodes.specs.TreeOf.{IsLaid, IsRanked, IsAlike, IsTelling, ToldBy};
ghost use Rattle.hls_tree_nodes.specs.TreeOf.{Tells, TellsThread, NoScheduler, IsNew, IsOn, IsRoll, AllFrom, AllUpTo};
ghost use Rattle.hls_tree_nodes.specs.TreeOf.{AreTold, Each};
ghost use Rattle.hls_sched.specs.Boxed.{boxed};

use crate::Changed;
use hls_tree_nodes::{
    Known, Node, NodeId, Nodes, Place, Role, Route, TakenSeat, asks_at, has_bit, level_at, rouse,
    with_bit,
};
use slab::Slab;

/// Tells a scheduler that is not behind whether a seat on it asks.
fn tell_on(slab: &mut Slab<Node>, key: usize, slot: u32, asks: bool)
    requires posted { PostedIn (stored_at (boxed seen) slab.old key) }
    requires taken { terms_at (book_in (stored_at (boxed seen) slab.old key)) slot ≢ None }
    requires within { slot < most_slots }
    ensures here { ToldIn slot asks (stored_at (boxed seen) slab.old key) (stored_at (boxed seen) slab.new key) }
    ensures others { (k : ℕ) → k ≢ key → get slab.new k ≡ get slab.old k }
{
    match slab.get_mut(key) {
        Some(node) => match &mut node.role {
            Role::Sched(station) => station.tell(slot, asks),
            Role::Thread { .. } => {}
        },
        None => {}
    }
}

/// Whether it is new to a scheduler that a seat on it asks, or does not.
fn is_new(nodes: &Nodes, key: usize, slot: u32, asks: bool) -> bool
    requires posted { PostedIn (shown_at (boxed seen) nodes.now key) }
    requires within { slot < most_slots }
    ensures old { result ≡ false → is_sched (shown_at (boxed seen) nodes.now key) ≡ true →
        slot_asks (mask_in (shown_at (boxed seen) nodes.now key)) slot ≡ asks }
{
    match nodes.slab.get(key) {
        Some(node) => match &node.role {
            Role::Sched(station) => station.is_new(slot, asks),
            Role::Thread { .. } => false,
        },
        None => false,
    }
}

/// Tells a scheduler whether a seat on it asks, where that is new; if it is behind, it catches up before.
fn tell_at(nodes: &mut Nodes, key: usize, slot: u32, asks: bool)
    requires posted { PostedIn (shown_at (boxed seen) nodes.old key) }
    requires taken { terms_at (book_in (shown_at (boxed seen) nodes.old key)) slot ≢ None }
    requires within { slot < most_slots }
    requires late { IsLate (boxed seen) nodes.old }
    ensures here { ToldIn slot asks (shown_at (boxed seen) nodes.old key) (shown_at (boxed seen) nodes.new key) }
    ensures others { (k : ℕ) → k ≢ key → shown_at (boxed seen) nodes.new k ≡ shown_at (boxed seen) nodes.old k }
    ensures late { StaysLate (boxed seen) nodes.old nodes.new }
{
    if !is_new(nodes, key, slot, asks) {
        return;
    }
    rouse(nodes, key);
    tell_on(&mut nodes.slab, key, slot, asks);
}

/// The scheduler and the slot of a place that is not the processor.
fn slot_of(place: Place) -> Option<(usize, u32)>
    ensures { result ≡ told_place (Some (place_view place)) }
{
    match place {
        Place::Processor => None,
        Place::At { scheduler, slot } => Some((scheduler, slot)),
    }
}

/// The scheduler and the slot where the seat of a port is.
fn slot_on(seats: &[TakenSeat], port: u8) -> Option<(usize, u32)>
    ensures { result ≡ told_place (option_map (λ (s : Seat). s.place) (slice_get (map seat_view seats.now) port)) }
{
    match seats.get(port as usize) {
        Some(seat) => slot_of(seat.place),
        None => None,
    }
}

/// The scheduler and the slot where a port sits.
fn slot_at(nodes: &Nodes, key: usize, port: u8) -> Option<(usize, u32)>
    ensures { result ≡ told_place (place_in (shown_at (boxed seen) nodes.now key) port) }
{
    match nodes.slab.get(key) {
        Some(node) => slot_on(&node.seats, port),
        None => None,
    }
}

/// Tells the scheduler where somebody sits whether that one asks.
fn tell_slot(nodes: &mut Nodes, at: Option<(usize, u32)>, asks: bool)
    requires posted { (k : ℕ) → PostedIn (shown_at (boxed seen) nodes.old k) }
    requires taken { IfSome at (λ a. terms_at (book_in (shown_at (boxed seen) nodes.old a.0)) a.1 ≢ None) }
    requires within { IfSome at (λ a. a.1 < most_slots) }
    requires late { IsLate (boxed seen) nodes.old }
    ensures told { ToldBy at asks (shown_at (boxed seen) nodes.old) (shown_at (boxed seen) nodes.new) }
    ensures late { StaysLate (boxed seen) nodes.old nodes.new }
{
    match at {
        Some((scheduler, slot)) => tell_at(nodes, scheduler, slot, asks),
        None => {}
    }
}

/// Tells where a port sits whether the node asks.
fn tell_port(nodes: &mut Nodes, key: usize, port: u8, asks: bool)
    requires laid { IsLaid (shown_at (boxed seen) nodes.old) }
    requires posted { (k : ℕ) → PostedIn (shown_at (boxed seen) nodes.old k) }
    requires late { IsLate (boxed seen) nodes.old }
    ensures told { ToldBy (told_place (place_in (shown_at (boxed seen) nodes.old key) port)) asks
        (shown_at (boxed seen) nodes.old) (shown_at (boxed seen) nodes.new) }
    ensures late { StaysLate (boxed seen) nodes.old nodes.new }
{
    let at = slot_at(nodes, key, port);
    tell_slot(nodes, at, asks);
}

/// Whether a node asks, how many ports it has, and the scheduler and the slot where the first one sits.
fn voice_at(nodes: &Nodes, key: usize) -> (bool, u8, Option<(usize, u32)>)
    requires posted { PostedIn (shown_at (boxed seen) nodes.now key) }
    requires few { length (seats_in (shown_at (boxed seen) nodes.now key)) ≤ 4 }
    requires late { IsLate (boxed seen) nodes.now }
    ensures asks { result.0 ≡ asks_in (shown_at (boxed seen) nodes.now key) }
    ensures ports { result.1 ≡ length (seats_in (shown_at (boxed seen) nodes.now key)) }
    ensures first { result.2 ≡ told_place (place_in (shown_at (boxed seen) nodes.now key) 0) }
{
    match nodes.slab.get(key) {
        Some(node) => (
            node.role.asks(),
            node.seats.len() as u8,
            slot_on(&node.seats, 0),
        ),
        None => (false, 0, None),
    }
}

/// Tells at each port of a node what it asks. Most have one, which is found with the node.
fn tell_ports(nodes: &mut Nodes, key: usize)
    requires laid { IsLaid (shown_at (boxed seen) nodes.old) }
    requires posted { (k : ℕ) → PostedIn (shown_at (boxed seen) nodes.old k) }
    requires late { IsLate (boxed seen) nodes.old }
    ensures tells { Tells key (shown_at (boxed seen) nodes.old) (shown_at (boxed seen) nodes.new) }
    ensures late { StaysLate (boxed seen) nodes.old nodes.new }
{
    let (asks, ports, first) = voice_at(nodes, key);
    tell_slot(nodes, first, asks);
    for port in 1..ports {
        tell_port(nodes, key, port, asks);
    }
}

/// Whether a node is a scheduler.
fn is_sched_at(nodes: &Nodes, key: usize) -> bool
    ensures { result ≡ is_sched (shown_at (boxed seen) nodes.now key) }
{
    match nodes.slab.get(key) {
        Some(node) => !node.role.is_thread(),
        None => false,
    }
}

/// Tells what a thread asks; a scheduler tells nothing.
fn tell_thread(nodes: &mut Nodes, key: usize)
    requires laid { IsLaid (shown_at (boxed seen) nodes.old) }
    requires posted { (k : ℕ) → PostedIn (shown_at (boxed seen) nodes.old k) }
    requires late { IsLate (boxed seen) nodes.old }
    ensures tells { TellsThread key (shown_at (boxed seen) nodes.old) (shown_at (boxed seen) nodes.new) }
    ensures late { StaysLate (boxed seen) nodes.old nodes.new }
{
    if is_sched_at(nodes, key) {
        return;
    }
    tell_ports(nodes, key);
}

/// Tells what each thread asks.
fn tell_threads(nodes: &mut Nodes)
    requires telling { IsTelling (shown_at (boxed seen) nodes.old)
        (λ c. NoScheduler (shown_at (boxed seen) nodes.old) c × ¬ IsNew None c) }
    requires late { IsLate (boxed seen) nodes.old }
    ensures telling { IsTelling (shown_at (boxed seen) nodes.new) (NoScheduler (shown_at (boxed seen) nodes.new)) }
    ensures alike { IsAlike (shown_at (boxed seen) nodes.old) (shown_at (boxed seen) nodes.new) }
    ensures still { AreStill (shown_at (boxed seen) nodes.old) (shown_at (boxed seen) nodes.new) }
    ensures late { StaysLate (boxed seen) nodes.old nodes.new }
{
    let end = nodes.slab.capacity();
    for key in 0..end {
        tell_thread(nodes, key);
    }
}

/// Tells what these threads ask.
fn tell_listed(nodes: &mut Nodes, threads: &[NodeId])
    requires telling { IsTelling (shown_at (boxed seen) nodes.old)
        (λ c. NoScheduler (shown_at (boxed seen) nodes.old) c × ¬ IsNew (Some threads.now) c) }
    requires late { IsLate (boxed seen) nodes.old }
    ensures telling { IsTelling (shown_at (boxed seen) nodes.new) (NoScheduler (shown_at (boxed seen) nodes.new)) }
    ensures alike { IsAlike (shown_at (boxed seen) nodes.old) (shown_at (boxed seen) nodes.new) }
    ensures still { AreStill (shown_at (boxed seen) nodes.old) (shown_at (boxed seen) nodes.new) }
    ensures late { StaysLate (boxed seen) nodes.old nodes.new }
{
    for id in threads {
        tell_thread(nodes, id.key());
    }
}

/// Tells what those threads ask that have something new to tell.
fn tell_changed(nodes: &mut Nodes, changed: &Option<Changed>)
    requires telling { IsTelling (shown_at (boxed seen) nodes.old)
        (λ c. NoScheduler (shown_at (boxed seen) nodes.old) c × ¬ IsNew changed.now c) }
    requires late { IsLate (boxed seen) nodes.old }
    ensures telling { IsTelling (shown_at (boxed seen) nodes.new) (NoScheduler (shown_at (boxed seen) nodes.new)) }
    ensures alike { IsAlike (shown_at (boxed seen) nodes.old) (shown_at (boxed seen) nodes.new) }
    ensures still { AreStill (shown_at (boxed seen) nodes.old) (shown_at (boxed seen) nodes.new) }
    ensures late { StaysLate (boxed seen) nodes.old nodes.new }
{
    match changed {
        Some(changed) => tell_listed(nodes, changed.threads()),
        None => tell_threads(nodes),
    }
}

/// Tells what a scheduler asks, if it is at the level.
fn tell_scheduler(nodes: &mut Nodes, schedulers: &[NodeId], at: usize, level: u8)
    requires roll { IsRoll (shown_at (boxed seen) nodes.old) schedulers.now }
    requires within { at < length schedulers.now }
    requires telling { IsTelling (shown_at (boxed seen) nodes.old) (AllUpTo (shown_at (boxed seen) nodes.old) level
        schedulers.now at) }
    requires late { IsLate (boxed seen) nodes.old }
    ensures telling { IsTelling (shown_at (boxed seen) nodes.new)
        (AllUpTo (shown_at (boxed seen) nodes.new) level schedulers.now (at + 1)) }
    ensures alike { IsAlike (shown_at (boxed seen) nodes.old) (shown_at (boxed seen) nodes.new) }
    ensures voices { (voices : ℕ) → 64 ≤ at → HaveTold (shown_at (boxed seen) nodes.old) schedulers.now voices →
        HaveTold (shown_at (boxed seen) nodes.new) schedulers.now voices }
    ensures late { StaysLate (boxed seen) nodes.old nodes.new }
{
    let key = schedulers[at].key();
    if level_at(nodes, key) != level {
        return;
    }
    tell_ports(nodes, key);
}

/// Tells what the schedulers at these places of the list ask, a bit for each place.
fn tell_places(nodes: &mut Nodes, schedulers: &[NodeId], places: u64)
    requires roll { IsRoll (shown_at (boxed seen) nodes.old) schedulers.now }
    requires within { (at : ℕ) → bit_at places at ≡ 1 → at < length schedulers.now }
    requires laid { IsLaid (shown_at (boxed seen) nodes.old) }
    requires posted { (k : ℕ) → PostedIn (shown_at (boxed seen) nodes.old k) }
    requires late { IsLate (boxed seen) nodes.old }
    ensures telling { (level : ℕ) → IsLevel (shown_at (boxed seen) nodes.old) level schedulers.now places →
        IsTelling (shown_at (boxed seen) nodes.old) (AllFrom (shown_at (boxed seen) nodes.old) (level + 1)) →
        IsTelling (shown_at (boxed seen) nodes.new) (AllUpTo (shown_at (boxed seen) nodes.new) level schedulers.now
        64) }
    ensures alike { IsAlike (shown_at (boxed seen) nodes.old) (shown_at (boxed seen) nodes.new) }
    ensures late { StaysLate (boxed seen) nodes.old nodes.new }
{
    let mut left = places;
    while left != 0 {
        let at = left.trailing_zeros();
        tell_ports(nodes, schedulers[at as usize].key());
        left &= !(1 << at);
    }
}

/// Tells what the schedulers at a level ask that stand past the 64th place of the list.
fn tell_rest(nodes: &mut Nodes, schedulers: &[NodeId], level: u8)
    requires roll { IsRoll (shown_at (boxed seen) nodes.old) schedulers.now }
    requires telling { IsTelling (shown_at (boxed seen) nodes.old) (AllUpTo (shown_at (boxed seen) nodes.old) level
        schedulers.now 64) }
    requires late { IsLate (boxed seen) nodes.old }
    ensures telling { IsTelling (shown_at (boxed seen) nodes.new) (AllFrom (shown_at (boxed seen) nodes.new) level) }
    ensures alike { IsAlike (shown_at (boxed seen) nodes.old) (shown_at (boxed seen) nodes.new) }
    ensures voices { (voices : ℕ) → HaveTold (shown_at (boxed seen) nodes.old) schedulers.now voices →
        HaveTold (shown_at (boxed seen) nodes.new) schedulers.now voices }
    ensures late { StaysLate (boxed seen) nodes.old nodes.new }
{
    for at in 64..schedulers.len() {
        tell_scheduler(nodes, schedulers, at, level);
    }
}

/// Tells what the schedulers at a level ask. They stand at these places of the list; those past the 64th are
/// looked for.
fn tell_level(nodes: &mut Nodes, schedulers: &[NodeId], level: u8, places: u64)
    requires roll { IsRoll (shown_at (boxed seen) nodes.old) schedulers.now }
    requires places { IsLevel (shown_at (boxed seen) nodes.old) level schedulers.now places }
    requires telling { IsTelling (shown_at (boxed seen) nodes.old) (AllFrom (shown_at (boxed seen) nodes.old) (level +
        1)) }
    requires late { IsLate (boxed seen) nodes.old }
    ensures telling { IsTelling (shown_at (boxed seen) nodes.new) (AllFrom (shown_at (boxed seen) nodes.new) level) }
    ensures alike { IsAlike (shown_at (boxed seen) nodes.old) (shown_at (boxed seen) nodes.new) }
    ensures late { StaysLate (boxed seen) nodes.old nodes.new }
{
    tell_places(nodes, schedulers, places);
    tell_rest(nodes, schedulers, level);
}

/// Tells what those schedulers at these places of the list ask that ask otherwise than they told, and what all have
/// told then, a bit for each place. Who is quiet asks as it told.
fn tell_news(nodes: &mut Nodes, schedulers: &[NodeId], places: u64, voices: u64) -> u64
    requires roll { IsRoll (shown_at (boxed seen) nodes.old) schedulers.now }
    requires within { (at : ℕ) → bit_at places at ≡ 1 → at < length schedulers.now }
    requires laid { IsLaid (shown_at (boxed seen) nodes.old) }
    requires posted { (k : ℕ) → PostedIn (shown_at (boxed seen) nodes.old k) }
    requires voices { HaveTold (shown_at (boxed seen) nodes.old) schedulers.now voices }
    requires late { IsLate (boxed seen) nodes.old }
    requires quiet { IsQuiet (boxed seen) nodes.old schedulers.now voices }
    ensures telling { (level : ℕ) → IsLevel (shown_at (boxed seen) nodes.old) level schedulers.now places →
        IsTelling (shown_at (boxed seen) nodes.old) (AllFrom (shown_at (boxed seen) nodes.old) (level + 1)) →
        IsTelling (shown_at (boxed seen) nodes.new) (AllUpTo (shown_at (boxed seen) nodes.new) level schedulers.now
        64) }
    ensures alike { IsAlike (shown_at (boxed seen) nodes.old) (shown_at (boxed seen) nodes.new) }
    ensures voices { HaveTold (shown_at (boxed seen) nodes.new) schedulers.now result }
    ensures late { StaysLate (boxed seen) nodes.old nodes.new }
    ensures quiet { IsQuiet (boxed seen) nodes.new schedulers.now result }
{
    let mut told = voices;
    let mut left = places & !nodes.quiet;
    while left != 0 {
        let at = left.trailing_zeros();
        let key = schedulers[at as usize].key();
        let asks = asks_at(nodes, key);
        if asks != has_bit(told, at) {
            tell_ports(nodes, key);
            told = with_bit(told, at, asks);
        }
        left &= !(1 << at);
    }
    told
}

/// As `tell_level`, where it is known what each of the first 64 told.
fn tell_level_news(
    nodes: &mut Nodes,
    schedulers: &[NodeId],
    level: u8,
    places: u64,
    voices: u64,
) -> u64
    requires roll { IsRoll (shown_at (boxed seen) nodes.old) schedulers.now }
    requires places { IsLevel (shown_at (boxed seen) nodes.old) level schedulers.now places }
    requires telling { IsTelling (shown_at (boxed seen) nodes.old) (AllFrom (shown_at (boxed seen) nodes.old) (level +
        1)) }
    requires voices { HaveTold (shown_at (boxed seen) nodes.old) schedulers.now voices }
    requires late { IsLate (boxed seen) nodes.old }
    requires quiet { IsQuiet (boxed seen) nodes.old schedulers.now voices }
    ensures telling { IsTelling (shown_at (boxed seen) nodes.new) (AllFrom (shown_at (boxed seen) nodes.new) level) }
    ensures alike { IsAlike (shown_at (boxed seen) nodes.old) (shown_at (boxed seen) nodes.new) }
    ensures voices { HaveTold (shown_at (boxed seen) nodes.new) schedulers.now result }
    ensures late { StaysLate (boxed seen) nodes.old nodes.new }
    ensures quiet { IsQuiet (boxed seen) nodes.new schedulers.now result }
{
    let told = tell_news(nodes, schedulers, places, voices);
    tell_rest(nodes, schedulers, level);
    told
}

/// The deepest level with a place.
fn deepest_placed(places: &[u64; 10]) -> u8
    ensures most { (level : ℕ) → level < 10 → get_or places.now level 0 ≢ 0 → level ≤ result }
    ensures within { result < 10 }
{
    for step in 0..10u8 {
        let level = 9 - step;
        if places[usize::from(level)] != 0 {
            return level;
        }
    }
    0
}

/// The deepest level of these nodes. The first 64 stand at these places by their levels.
fn deepest(nodes: &Nodes, keys: &[NodeId], places: &[u64; 10]) -> u8
    requires ranked { IsRanked (shown_at (boxed seen) nodes.now) }
    requires places { AreByLevel (shown_at (boxed seen) nodes.now) keys.now places.now }
    ensures most { (c : ℕ) → IsOn keys.now c → level_in (shown_at (boxed seen) nodes.now c) ≤ result }
    ensures within { result < 10 }
{
    let mut deep = deepest_placed(places);
    for at in 64..keys.len() {
        deep = deep.max(level_at(nodes, keys[at].key()));
    }
    deep
}

/// Tells what each scheduler asks, from the deepest level up. Those at level 1 sit at the processor alone.
fn tell_schedulers(nodes: &mut Nodes, schedulers: &[NodeId], places: &[u64; 10])
    requires roll { IsRoll (shown_at (boxed seen) nodes.old) schedulers.now }
    requires places { AreByLevel (shown_at (boxed seen) nodes.old) schedulers.now places.now }
    requires telling { IsTelling (shown_at (boxed seen) nodes.old) (NoScheduler (shown_at (boxed seen) nodes.old)) }
    requires late { IsLate (boxed seen) nodes.old }
    ensures telling { IsTelling (shown_at (boxed seen) nodes.new) Each }
    ensures alike { IsAlike (shown_at (boxed seen) nodes.old) (shown_at (boxed seen) nodes.new) }
    ensures late { StaysLate (boxed seen) nodes.old nodes.new }
{
    let deep = deepest(nodes, schedulers, places);
    if deep < 2 {
        return;
    }
    for step in 1..deep {
        let level = deep - step + 1;
        tell_level(nodes, schedulers, level, places[usize::from(level)]);
    }
}

/// As `tell_schedulers`, where it is known what each of the first 64 told.
fn tell_schedulers_news(nodes: &mut Nodes, schedulers: &[NodeId], known: &Known) -> u64
    requires roll { IsRoll (shown_at (boxed seen) nodes.old) schedulers.now }
    requires known { AreKnown (shown_at (boxed seen) nodes.old) schedulers.now known.now }
    requires telling { IsTelling (shown_at (boxed seen) nodes.old) (NoScheduler (shown_at (boxed seen) nodes.old)) }
    requires late { IsLate (boxed seen) nodes.old }
    requires quiet { IsQuiet (boxed seen) nodes.old schedulers.now known.now.voices }
    ensures telling { IsTelling (shown_at (boxed seen) nodes.new) Each }
    ensures alike { IsAlike (shown_at (boxed seen) nodes.old) (shown_at (boxed seen) nodes.new) }
    ensures voices { HaveTold (shown_at (boxed seen) nodes.new) schedulers.now result }
    ensures late { StaysLate (boxed seen) nodes.old nodes.new }
    ensures quiet { IsQuiet (boxed seen) nodes.new schedulers.now result }
{
    let deep = deepest(nodes, schedulers, &known.places);
    let mut voices = known.voices;
    for step in 1..deep {
        let level = deep - step + 1;
        let places = known.places[usize::from(level)];
        voices = tell_level_news(nodes, schedulers, level, places, voices);
    }
    voices
}

/// Which of the first 64 schedulers ask, a bit for each.
fn voices_of(nodes: &Nodes, schedulers: &[NodeId]) -> u64
    requires posted { (k : ℕ) → PostedIn (shown_at (boxed seen) nodes.now k) }
    requires late { IsLate (boxed seen) nodes.now }
    ensures { (at c : ℕ) → at < 64 → slice_get schedulers.now at ≡ Some c →
        has_bit result at ≡ asks_in (shown_at (boxed seen) nodes.now c) }
{
    let mut voices = 0;
    for at in 0..schedulers.len().min(64) {
        let asks = asks_at(nodes, schedulers[at].key());
        voices = with_bit(voices, at as u32, asks);
    }
    voices
}

/// Takes the processor back from a node, if it has it.
fn revoke_on(slab: &mut Slab<Node>, key: usize)
    requires posted { PostedIn (stored_at (boxed seen) slab.old key) }
    ensures here { stored_at (boxed seen) slab.new key ≡ on_post post_freed (stored_at (boxed seen) slab.old key) }
    ensures others { (k : ℕ) → k ≢ key → get slab.new k ≡ get slab.old k }
{
    match slab.get_mut(key) {
        Some(node) => match &mut node.role {
            Role::Sched(station) => station.revoke(),
            Role::Thread { .. } => {}
        },
        None => {}
    }
}

/// The same, and it may be behind.
fn revoke_at(nodes: &mut Nodes, key: usize)
    requires posted { PostedIn (shown_at (boxed seen) nodes.old key) }
    requires late { IsLate (boxed seen) nodes.old }
    requires behind { nodes.old.behind ≡ true }
    ensures here { shown_at (boxed seen) nodes.new key ≡ on_post post_revoked (shown_at (boxed seen) nodes.old key) }
    ensures others { (k : ℕ) → k ≢ key → shown_at (boxed seen) nodes.new k ≡ shown_at (boxed seen) nodes.old k }
    ensures late { StaysLate (boxed seen) nodes.old nodes.new }
{
    revoke_on(&mut nodes.slab, key);
}

/// Takes the processor back from a node, if it has it, as from one that is not behind, and tells its level.
fn begin_at(slab: &mut Slab<Node>, key: usize) -> u8
    requires posted { PostedIn (stored_at (boxed seen) slab.old key) }
    ensures level { result ≡ level_in (stored_at (boxed seen) slab.old key) }
    ensures here { stored_at (boxed seen) slab.new key ≡ on_post post_revoked (stored_at (boxed seen) slab.old key) }
    ensures others { (k : ℕ) → k ≢ key → stored_at (boxed seen) slab.new k ≡ stored_at (boxed seen) slab.old k }
{
    match slab.get_mut(key) {
        Some(node) => {
            match &mut node.role {
                Role::Sched(station) => station.begin(),
                Role::Thread { .. } => {}
            }
            node.level
        }
        None => 0,
    }
}

/// Takes the processor back from all, and tells their places by their levels, a bit for each of the first 64. None is
/// behind then, and any may be from here on.
fn begin_all(nodes: &mut Nodes, schedulers: &[NodeId]) -> [u64; 10]
    requires roll { IsRoll (shown_at (boxed seen) nodes.old) schedulers.now }
    requires ranked { IsRanked (shown_at (boxed seen) nodes.old) }
    requires posted { (k : ℕ) → PostedIn (shown_at (boxed seen) nodes.old k) }
    requires flat { nodes.old.behind ≡ false }
    ensures revoked { (k : ℕ) → shown_at (boxed seen) nodes.new k
        ≡ on_post post_revoked (shown_at (boxed seen) nodes.old k) }
    ensures places { AreByLevel (shown_at (boxed seen) nodes.old) schedulers.now result }
    ensures late { IsLate (boxed seen) nodes.new }
    ensures behind { nodes.new.behind ≡ true }
    ensures tick { nodes.new.tick ≡ 0 }
    ensures quiet { nodes.new.quiet ≡ 0 }
{
    let mut places = [0u64; 10];
    for at in 0..schedulers.len() {
        let level = begin_at(&mut nodes.slab, schedulers[at].key());
        if at < 64 {
            places[usize::from(level)] |= 1 << at;
        }
    }
    nodes.behind = true;
    nodes.tick = 0;
    nodes.quiet = 0;
    places
}

/// Takes the processor back from the nodes of a route.
fn revoke_listed(nodes: &mut Nodes, route: &[NodeId])
    requires posted { (k : ℕ) → PostedIn (shown_at (boxed seen) nodes.old k) }
    requires along { IsAlongRoute (shown_at (boxed seen) nodes.old) (Some route.now) }
    requires late { IsLate (boxed seen) nodes.old }
    requires behind { nodes.old.behind ≡ true }
    ensures revoked { (k : ℕ) → shown_at (boxed seen) nodes.new k
        ≡ on_post post_revoked (shown_at (boxed seen) nodes.old k) }
    ensures late { StaysLate (boxed seen) nodes.old nodes.new }
{
    for id in route {
        revoke_at(nodes, id.key());
    }
}

/// Takes the processor back along a route.
fn revoke_route(nodes: &mut Nodes, route: &Option<Route>)
    requires posted { (k : ℕ) → PostedIn (shown_at (boxed seen) nodes.old k) }
    requires along { IsAlongRoute (shown_at (boxed seen) nodes.old) route.now }
    requires late { IsLate (boxed seen) nodes.old }
    requires behind { nodes.old.behind ≡ true }
    ensures revoked { (k : ℕ) → shown_at (boxed seen) nodes.new k
        ≡ on_post post_revoked (shown_at (boxed seen) nodes.old k) }
    ensures late { StaysLate (boxed seen) nodes.old nodes.new }
{
    match route {
        Some(route) => revoke_listed(nodes, route.nodes()),
        None => {}
    }
}

/// As `tell`, where nothing is known of who was granted and what was told; tells what it finds.
fn tell_anew(nodes: &mut Nodes, schedulers: &[NodeId], changed: &Option<Changed>) -> Known
    requires roll { IsRoll (shown_at (boxed seen) nodes.old) schedulers.now }
    requires told { AreTold (shown_at (boxed seen) nodes.old) changed.now }
    requires laid { IsLaid (shown_at (boxed seen) nodes.old) }
    requires posted { (k : ℕ) → PostedIn (shown_at (boxed seen) nodes.old k) }
    requires flat { nodes.old.behind ≡ false }
    ensures alike { IsAlike (shown_at (boxed seen) nodes.old) (shown_at (boxed seen) nodes.new) }
    ensures telling { IsTelling (shown_at (boxed seen) nodes.new) Each }
    ensures known { AreKnown (shown_at (boxed seen) nodes.new) schedulers.now result }
    ensures late { IsLate (boxed seen) nodes.new }
    ensures quiet { IsQuiet (boxed seen) nodes.new schedulers.now result.voices }
    ensures tick { nodes.new.tick ≡ 0 }
{
    let places = begin_all(nodes, schedulers);
    tell_changed(nodes, changed);
    tell_schedulers(nodes, schedulers, &places);
    let voices = voices_of(nodes, schedulers);
    Known { places, voices }
}

/// As `tell`, where something is known.
fn tell_again(
    nodes: &mut Nodes,
    schedulers: &[NodeId],
    changed: &Option<Changed>,
    route: &Option<Route>,
    known: &mut Known,
)
    requires roll { IsRoll (shown_at (boxed seen) nodes.old) schedulers.now }
    requires told { AreTold (shown_at (boxed seen) nodes.old) changed.now }
    requires laid { IsLaid (shown_at (boxed seen) nodes.old) }
    requires posted { (k : ℕ) → PostedIn (shown_at (boxed seen) nodes.old k) }
    requires known { AreKnown (shown_at (boxed seen) nodes.old) schedulers.now known.old }
    requires along { IsAlongRoute (shown_at (boxed seen) nodes.old) route.now }
    requires late { IsLate (boxed seen) nodes.old }
    requires quiet { IsQuiet (boxed seen) nodes.old schedulers.now known.old.voices }
    ensures alike { IsAlike (shown_at (boxed seen) nodes.old) (shown_at (boxed seen) nodes.new) }
    ensures telling { IsTelling (shown_at (boxed seen) nodes.new) Each }
    ensures known { AreKnown (shown_at (boxed seen) nodes.new) schedulers.now known.new }
    ensures late { StaysLate (boxed seen) nodes.old nodes.new }
    ensures quiet { IsQuiet (boxed seen) nodes.new schedulers.now known.new.voices }
{
    revoke_route(nodes, route);
    tell_changed(nodes, changed);
    known.voices = tell_schedulers_news(nodes, schedulers, known);
}

/// Takes the processor back, and tells what asks, where it is new. Where something is known since the last pass,
/// only those along its way were granted, and a scheduler that asks as it told last need not tell it again.
pub fn tell(
    nodes: &mut Nodes,
    schedulers: &[NodeId],
    changed: &Option<Changed>,
    route: &Option<Route>,
    known: &mut Option<Known>,
)
    requires roll { IsRoll (shown_at (boxed seen) nodes.old) schedulers.now }
    requires told { AreTold (shown_at (boxed seen) nodes.old) changed.now }
    requires laid { IsLaid (shown_at (boxed seen) nodes.old) }
    requires posted { (k : ℕ) → PostedIn (shown_at (boxed seen) nodes.old k) }
    requires known { IsKnown (shown_at (boxed seen) nodes.old) schedulers.now route.now known.old }
    requires late { IsLate (boxed seen) nodes.old }
    requires quiet { AreQuiet (boxed seen) nodes.old schedulers.now known.old }
    ensures alike { IsAlike (shown_at (boxed seen) nodes.old) (shown_at (boxed seen) nodes.new) }
    ensures telling { IsTelling (shown_at (boxed seen) nodes.new) Each }
    ensures known { IsFound (shown_at (boxed seen) nodes.new) schedulers.now known.new }
    ensures late { IsLate (boxed seen) nodes.new }
    ensures quiet { AreQuiet (boxed seen) nodes.new schedulers.now known.new }
    ensures tick { nodes.new.tick ≤ nodes.old.tick }
{
    match known {
        Some(known) => tell_again(nodes, schedulers, changed, route, known),
        None => *known = Some(tell_anew(nodes, schedulers, changed)),
    }
}
