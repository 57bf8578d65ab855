// Ticks pass, one by one or many at once.
ghost use Rattle.std.specs.Prelude.{◌≡◌, ◌≢◌, ℕ, ◌+◌, ◌^◌, ◌<◌, ◌≤◌, Some, None, true, false, length, slice_get};
ghost use Rattle.slab.specs.Slab.{get};
ghost use Rattle.hls_kinds.specs.Stands.{always};
ghost use Rattle.hls_tree_nodes.specs.Shown.{PostedIn, RoomIn, asks_in, on_post, post_turned, with_ready};
ghost use Rattle.hls_tree_nodes.specs.Behind.{HasElapsed, IsNoted, LagsIn, behind_at};
ghost use Rattle.hls_tree_nodes.specs.Views.{shown_at, stored_at, choice_at};
ghost use Rattle.hls_tree_nodes.specs.TreeOf.{IsRoll, IsFrom};
ghost use Rattle.hls_tree_nodes.specs.Known.{has_bit};
ghost use Rattle.hls_tree_nodes.specs.Late.{IsLate, IsQuiet, AreQuiet, AreBehind, StaysLate, IsSameClock};
ghost use Rattle.hls_tree_nodes.specs.Leapt.{post_leapt, stands_in, StandsIn, StandsJust};
ghost use Rattle.hls_sched.specs.Boxed.{boxed};

use hls_sched::ALWAYS;
use hls_tree_nodes::{Known, Lag, Node, NodeId, Nodes, Role, has_bit, with_bit};
use slab::Slab;

/// Notes that a scheduler is behind from the present tick on, where it may be: where it is of a kind that stands always
/// while it is not granted, is not granted, and asks as it told.
fn note_at(slab: &mut Slab<Node>, key: usize, lag: Lag, told: bool) -> bool
    requires posted { PostedIn (stored_at (boxed seen) slab.old key) }
    ensures noted { result ≡ true →
        IsNoted lag told (stored_at (boxed seen) slab.old key) (stored_at (boxed seen) slab.new key) }
    ensures none { result ≡ false → get slab.new key ≡ get slab.old key }
    ensures others { (k : ℕ) → k ≢ key → get slab.new k ≡ get slab.old k }
{
    match slab.get_mut(key) {
        Some(node) => match &mut node.role {
            Role::Sched(station) => station.note_behind(lag, told),
            Role::Thread { .. } => false,
        },
        None => false,
    }
}

/// So many ticks of a node, one or as many as it stands; a scheduler that is behind has them later.
fn elapse_at(nodes: &mut Nodes, key: usize, ticks: u32)
    requires posted { PostedIn (shown_at (boxed seen) nodes.old key) }
    requires some { 0 < ticks }
    requires stands { 1 < ticks →
        ticks ≤ stands_in (choice_at (boxed choice) nodes.old key) (shown_at (boxed seen) nodes.old key) }
    requires room { RoomIn ticks (shown_at (boxed seen) nodes.old key) }
    requires lags { nodes.old.behind ≡ true → LagsIn nodes.old.tick (stored_at (boxed seen) nodes.old.slab key) }
    ensures here { HasElapsed ticks nodes.old.behind nodes.old.tick (choice_at (boxed choice) nodes.old key)
        (stored_at (boxed seen) nodes.old.slab key) (stored_at (boxed seen) nodes.new.slab key) }
    ensures others { (k : ℕ) → k ≢ key → get nodes.new.slab k ≡ get nodes.old.slab k }
    ensures same { IsSameClock nodes.old nodes.new }
    ensures quiet { nodes.new.quiet ≡ nodes.old.quiet }
{
    let behind = nodes.behind;
    match nodes.slab.get_mut(key) {
        Some(node) => match &mut node.role {
            Role::Sched(station) => {
                if !behind || station.lag.is_none() {
                    station.elapse(ticks);
                }
            }
            Role::Thread { .. } => {}
        },
        None => {}
    }
}

/// So many ticks of a scheduler at a place of the list, one or as many as it stands. Where it may be behind, it is
/// behind instead.
fn elapse_spot(nodes: &mut Nodes, key: usize, at: u32, told: bool, ticks: u32)
    requires posted { PostedIn (shown_at (boxed seen) nodes.old key) }
    requires some { 0 < ticks }
    requires stands { 1 < ticks →
        ticks ≤ stands_in (choice_at (boxed choice) nodes.old key) (shown_at (boxed seen) nodes.old key) }
    requires room { RoomIn ticks (shown_at (boxed seen) nodes.old key) }
    requires lags { LagsIn nodes.old.tick (stored_at (boxed seen) nodes.old.slab key) }
    requires behind { nodes.old.behind ≡ true }
    requires within { at < 64 }
    ensures here { HasElapsed ticks true nodes.old.tick (choice_at (boxed choice) nodes.old key)
        (stored_at (boxed seen) nodes.old.slab key) (stored_at (boxed seen) nodes.new.slab key) }
    ensures quiet { has_bit nodes.new.quiet at ≡ true → has_bit nodes.old.quiet at ≢ true →
        (behind_at (stored_at (boxed seen) nodes.new.slab key) ≡ Some at) ×
        (asks_in (stored_at (boxed seen) nodes.new.slab key) ≡ told) }
    ensures bits { (k : ℕ) → k < 64 → k ≢ at → has_bit nodes.new.quiet k ≡ has_bit nodes.old.quiet k }
    ensures others { (k : ℕ) → k ≢ key → get nodes.new.slab k ≡ get nodes.old.slab k }
    ensures same { IsSameClock nodes.old nodes.new }
{
    let lag = Lag {
        since: nodes.tick,
        at: at as u8,
    };
    if note_at(&mut nodes.slab, key, lag, told) {
        nodes.quiet = with_bit(nodes.quiet, at, true);
    } else {
        elapse_at(nodes, key, ticks);
    }
}

/// The bits of the places of a list, for each of the first 64.
fn places_of(count: usize) -> u64
    ensures all { (at : ℕ) → at < count → at < 64 → has_bit result at ≡ true }
    ensures only { (at : ℕ) → has_bit result at ≡ true → at < count }
{
    if count >= 64 {
        return u64::MAX;
    }
    (1 << count) - 1
}

/// The bits of those of them that are not quiet.
fn loud_of(count: usize, quiet: u64) -> u64
    ensures all { (at : ℕ) → at < count → at < 64 → has_bit result at ≢ true → has_bit quiet at ≡ true }
    ensures near { (at : ℕ) → has_bit result at ≡ true → at < 64 }
    ensures only { (at : ℕ) → has_bit result at ≡ true → at < count }
    ensures loud { (at : ℕ) → has_bit result at ≡ true → has_bit quiet at ≢ true }
{
    places_of(count) & !quiet
}

/// So many ticks of each of the first 64 schedulers of the list that is not quiet.
fn elapse_near(nodes: &mut Nodes, schedulers: &[NodeId], known: &Known, ticks: u32)
    requires roll { IsRoll (shown_at (boxed seen) nodes.old) schedulers.now }
    requires posted { (k : ℕ) → PostedIn (shown_at (boxed seen) nodes.old k) }
    requires some { 0 < ticks }
    requires stands { 1 < ticks →
        (k : ℕ) → ticks ≤ stands_in (choice_at (boxed choice) nodes.old k) (shown_at (boxed seen) nodes.old k) }
    requires room { (k : ℕ) → RoomIn ticks (shown_at (boxed seen) nodes.old k) }
    requires late { IsLate (boxed seen) nodes.old }
    requires quiet { IsQuiet (boxed seen) nodes.old schedulers.now known.now.voices }
    ensures near { (k : ℕ) → ¬ IsFrom 64 schedulers.now k → HasElapsed ticks true nodes.old.tick
        (choice_at (boxed choice) nodes.old k) (stored_at (boxed seen) nodes.old.slab k)
        (stored_at (boxed seen) nodes.new.slab k) }
    ensures far { (k : ℕ) → IsFrom 64 schedulers.now k → get nodes.new.slab k ≡ get nodes.old.slab k }
    ensures same { IsSameClock nodes.old nodes.new }
    ensures quiet { IsQuiet (boxed seen) nodes.new schedulers.now known.now.voices }
{
    let mut left = loud_of(schedulers.len(), nodes.quiet);
    while left != 0 {
        let at = left.trailing_zeros();
        let told = has_bit(known.voices, at);
        elapse_spot(nodes, schedulers[at as usize].key(), at, told, ticks);
        left &= !(1 << at);
    }
}

/// So many ticks of each scheduler from a place of the list on.
fn elapse_from(nodes: &mut Nodes, schedulers: &[NodeId], from: usize, ticks: u32)
    requires once { (i j c : ℕ) → slice_get schedulers.now i ≡ Some c → slice_get schedulers.now j ≡ Some c → i ≡ j }
    requires posted { (k : ℕ) → IsFrom from schedulers.now k → PostedIn (shown_at (boxed seen) nodes.old k) }
    requires some { 0 < ticks }
    requires stands { 1 < ticks → (k : ℕ) → IsFrom from schedulers.now k →
        ticks ≤ stands_in (choice_at (boxed choice) nodes.old k) (shown_at (boxed seen) nodes.old k) }
    requires room { (k : ℕ) → IsFrom from schedulers.now k → RoomIn ticks (shown_at (boxed seen) nodes.old k) }
    requires lags { nodes.old.behind ≡ true → (k : ℕ) → IsFrom from schedulers.now k →
        LagsIn nodes.old.tick (stored_at (boxed seen) nodes.old.slab k) }
    ensures from { (k : ℕ) → IsFrom from schedulers.now k → HasElapsed ticks nodes.old.behind nodes.old.tick
        (choice_at (boxed choice) nodes.old k) (stored_at (boxed seen) nodes.old.slab k)
        (stored_at (boxed seen) nodes.new.slab k) }
    ensures others { (k : ℕ) → ¬ IsFrom from schedulers.now k → get nodes.new.slab k ≡ get nodes.old.slab k }
    ensures same { IsSameClock nodes.old nodes.new }
    ensures quiet { nodes.new.quiet ≡ nodes.old.quiet }
{
    for at in from..schedulers.len() {
        elapse_at(nodes, schedulers[at].key(), ticks);
    }
}

/// So many ticks of each scheduler, one or as many as all stand, before the clock goes on.
fn elapse_each(nodes: &mut Nodes, schedulers: &[NodeId], known: &Option<Known>, ticks: u32)
    requires roll { IsRoll (shown_at (boxed seen) nodes.old) schedulers.now }
    requires posted { (k : ℕ) → PostedIn (shown_at (boxed seen) nodes.old k) }
    requires some { 0 < ticks }
    requires stands { 1 < ticks →
        (k : ℕ) → ticks ≤ stands_in (choice_at (boxed choice) nodes.old k) (shown_at (boxed seen) nodes.old k) }
    requires room { (k : ℕ) → RoomIn ticks (shown_at (boxed seen) nodes.old k) }
    requires late { IsLate (boxed seen) nodes.old }
    requires quiet { AreQuiet (boxed seen) nodes.old schedulers.now known.now }
    ensures each { (k : ℕ) → HasElapsed ticks nodes.old.behind nodes.old.tick
        (choice_at (boxed choice) nodes.old k) (stored_at (boxed seen) nodes.old.slab k)
        (stored_at (boxed seen) nodes.new.slab k) }
    ensures same { IsSameClock nodes.old nodes.new }
    ensures off { nodes.old.behind ≡ false → nodes.new.quiet ≡ 0 }
    ensures quiet { AreQuiet (boxed seen) nodes.new schedulers.now known.now }
{
    match known {
        Some(known) => {
            elapse_near(nodes, schedulers, known, ticks);
            elapse_from(nodes, schedulers, 64, ticks);
        }
        None => elapse_from(nodes, schedulers, 0, ticks),
    }
}

/// So many ticks of each scheduler, one or as many as all stand.
fn elapse_all(nodes: &mut Nodes, schedulers: &[NodeId], known: &Option<Known>, ticks: u32)
    requires roll { IsRoll (shown_at (boxed seen) nodes.old) schedulers.now }
    requires posted { (k : ℕ) → PostedIn (shown_at (boxed seen) nodes.old k) }
    requires some { 0 < ticks }
    requires stands { 1 < ticks →
        (k : ℕ) → ticks ≤ stands_in (choice_at (boxed choice) nodes.old k) (shown_at (boxed seen) nodes.old k) }
    requires room { (k : ℕ) → RoomIn ticks (shown_at (boxed seen) nodes.old k) }
    requires late { IsLate (boxed seen) nodes.old }
    requires quiet { AreQuiet (boxed seen) nodes.old schedulers.now known.now }
    requires clock { nodes.old.tick + ticks < 2 ^ 32 }
    ensures elapsed { (k : ℕ) → shown_at (boxed seen) nodes.new k ≡
        on_post (post_leapt ticks (choice_at (boxed choice) nodes.old k)) (shown_at (boxed seen) nodes.old k) }
    ensures late { IsLate (boxed seen) nodes.new }
    ensures quiet { AreQuiet (boxed seen) nodes.new schedulers.now known.now }
    ensures clock { nodes.new.tick ≡ nodes.old.tick + ticks }
{
    elapse_each(nodes, schedulers, known, ticks);
    nodes.tick += ticks;
}

/// One tick of each scheduler. Where something is known since the last pass, those that may be behind are from here on.
pub fn turn_all(nodes: &mut Nodes, schedulers: &[NodeId], known: &Option<Known>)
    requires roll { IsRoll (shown_at (boxed seen) nodes.old) schedulers.now }
    requires posted { (k : ℕ) → PostedIn (shown_at (boxed seen) nodes.old k) }
    requires room { (k : ℕ) → RoomIn 1 (shown_at (boxed seen) nodes.old k) }
    requires late { IsLate (boxed seen) nodes.old }
    requires quiet { AreQuiet (boxed seen) nodes.old schedulers.now known.now }
    requires clock { nodes.old.tick + 1 < 2 ^ 32 }
    ensures turned { (k : ℕ) → shown_at (boxed seen) nodes.new k ≡
        on_post (post_turned (choice_at (boxed choice) nodes.old k)) (shown_at (boxed seen) nodes.old k) }
    ensures late { IsLate (boxed seen) nodes.new }
    ensures quiet { AreQuiet (boxed seen) nodes.new schedulers.now known.now }
    ensures clock { nodes.new.tick ≡ nodes.old.tick + 1 }
{
    elapse_all(nodes, schedulers, known, 1);
}

/// So many ticks of each scheduler, for which all stand. Where something is known since the last pass, those that may
/// be
/// behind are from here on.
pub fn leap_all(nodes: &mut Nodes, schedulers: &[NodeId], known: &Option<Known>, ticks: u32)
    requires roll { IsRoll (shown_at (boxed seen) nodes.old) schedulers.now }
    requires posted { (k : ℕ) → PostedIn (shown_at (boxed seen) nodes.old k) }
    requires some { 0 < ticks }
    requires stands { (k : ℕ) →
        ticks ≤ stands_in (choice_at (boxed choice) nodes.old k) (shown_at (boxed seen) nodes.old k) }
    requires room { (k : ℕ) → RoomIn ticks (shown_at (boxed seen) nodes.old k) }
    requires late { IsLate (boxed seen) nodes.old }
    requires quiet { AreQuiet (boxed seen) nodes.old schedulers.now known.now }
    requires clock { nodes.old.tick + ticks < 2 ^ 32 }
    ensures leapt { (k : ℕ) → shown_at (boxed seen) nodes.new k ≡
        on_post (post_leapt ticks (choice_at (boxed choice) nodes.old k)) (shown_at (boxed seen) nodes.old k) }
    ensures late { IsLate (boxed seen) nodes.new }
    ensures quiet { AreQuiet (boxed seen) nodes.new schedulers.now known.now }
    ensures clock { nodes.new.tick ≡ nodes.old.tick + ticks }
{
    elapse_all(nodes, schedulers, known, ticks);
}

/// For how many ticks a node stands.
fn stands_at(nodes: &Nodes, key: usize) -> u32
    requires posted { PostedIn (shown_at (boxed seen) nodes.now key) }
    requires late { IsLate (boxed seen) nodes.now }
    ensures value { result ≡ stands_in (choice_at (boxed choice) nodes.now key) (shown_at (boxed seen) nodes.now key) }
    ensures within { result ≤ always }
    ensures some { 0 < result }
    ensures law { StandsIn result (choice_at (boxed choice) nodes.now key) (shown_at (boxed seen) nodes.now key) }
{
    match nodes.slab.get(key) {
        Some(node) => match &node.role {
            Role::Sched(station) => station.stands_late(nodes.behind),
            Role::Thread { .. } => ALWAYS,
        },
        None => ALWAYS,
    }
}

/// For how many ticks all schedulers stand: for as many as the one that stands the shortest.
pub fn stands_all(nodes: &Nodes, schedulers: &[NodeId]) -> u32
    requires roll { IsRoll (shown_at (boxed seen) nodes.now) schedulers.now }
    requires posted { (k : ℕ) → PostedIn (shown_at (boxed seen) nodes.now k) }
    requires late { IsLate (boxed seen) nodes.now }
    ensures least { (k : ℕ) →
        result ≤ stands_in (choice_at (boxed choice) nodes.now k) (shown_at (boxed seen) nodes.now k) }
    ensures attained { result < always →
        StandsJust (shown_at (boxed seen) nodes.now) (choice_at (boxed choice) nodes.now) result }
    ensures law { (k : ℕ) → StandsIn result (choice_at (boxed choice) nodes.now k) (shown_at (boxed seen) nodes.now k) }
    ensures some { 0 < result }
    ensures within { result ≤ always }
{
    let mut least = ALWAYS;
    for id in schedulers {
        least = least.min(stands_at(nodes, id.key()));
    }
    least
}

/// For how many ticks a node at a place of the list stands. Who is quiet stands always.
fn stands_spot(nodes: &Nodes, schedulers: &[NodeId], at: usize) -> u32
    requires posted { (k : ℕ) → PostedIn (shown_at (boxed seen) nodes.now k) }
    requires late { IsLate (boxed seen) nodes.now }
    requires quiet { AreBehind (boxed seen) nodes.now schedulers.now }
    requires within { at < length schedulers.now }
    ensures value { (c : ℕ) → slice_get schedulers.now at ≡ Some c →
        result ≡ stands_in (choice_at (boxed choice) nodes.now c) (shown_at (boxed seen) nodes.now c) }
    ensures within { result ≤ always }
    ensures some { 0 < result }
    ensures law { (c : ℕ) → slice_get schedulers.now at ≡ Some c →
        StandsIn result (choice_at (boxed choice) nodes.now c) (shown_at (boxed seen) nodes.now c) }
{
    if at < 64 && has_bit(nodes.quiet, at as u32) {
        return ALWAYS;
    }
    stands_at(nodes, schedulers[at].key())
}

/// For how many ticks all schedulers stand, at most so many. Once the least is one, nobody else is asked.
pub fn stands_within(nodes: &Nodes, schedulers: &[NodeId], most: u32) -> u32
    requires roll { IsRoll (shown_at (boxed seen) nodes.now) schedulers.now }
    requires posted { (k : ℕ) → PostedIn (shown_at (boxed seen) nodes.now k) }
    requires late { IsLate (boxed seen) nodes.now }
    requires quiet { AreBehind (boxed seen) nodes.now schedulers.now }
    requires some { 0 < most }
    requires within { most ≤ always }
    ensures least { (k : ℕ) →
        result ≤ stands_in (choice_at (boxed choice) nodes.now k) (shown_at (boxed seen) nodes.now k) }
    ensures most { result ≤ most }
    ensures attained { result < most →
        StandsJust (shown_at (boxed seen) nodes.now) (choice_at (boxed choice) nodes.now) result }
    ensures law { 1 < result → (k : ℕ) →
        StandsIn result (choice_at (boxed choice) nodes.now k) (shown_at (boxed seen) nodes.now k) }
    ensures some { 0 < result }
{
    let mut least = most;
    for at in 0..schedulers.len() {
        // Each stands for one tick.
        if least == 1 {
            return least;
        }
        least = least.min(stands_spot(nodes, schedulers, at));
    }
    least
}

/// Sets whether a thread is ready.
pub fn set_ready(nodes: &mut Nodes, key: usize, to: bool)
    requires late { IsLate (boxed seen) nodes.old }
    ensures here { shown_at (boxed seen) nodes.new key ≡ with_ready to (shown_at (boxed seen) nodes.old key) }
    ensures others { (k : ℕ) → k ≢ key → shown_at (boxed seen) nodes.new k ≡ shown_at (boxed seen) nodes.old k }
    ensures late { StaysLate (boxed seen) nodes.old nodes.new }
{
    match nodes.slab.get_mut(key) {
        Some(node) => match &mut node.role {
            Role::Sched(_) => {}
            Role::Thread { ready } => *ready = to,
        },
        None => {}
    }
}
