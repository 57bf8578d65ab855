// Ticks.
ghost use Rattle.std.specs.Prelude.{◌≡◌, ◌≢◌, ◌≤◌, ◌<◌, ◌+◌, ◌^◌, ℕ, ◌⊎◌, Bool, Option, Some, true, false, length};
ghost use Rattle.std.specs.Prelude.{if◌then◌else◌};
ghost use Rattle.hls_kinds.specs.Stands.{always};
ghost use Rattle.hls_machine.specs.Hierarchy.{Hierarchy, Thread, Admitted, is_just};
ghost use Rattle.hls_machine.specs.Legal.{IsThread};
ghost use Rattle.hls_machine.specs.Lists.{IsListed};
ghost use Rattle.hls_machine.specs.Steps.{Path as Way};
ghost use Rattle.hls_tree_nodes.specs.Leapt.{StandsIn, StandsJust, stands_in, MayLeap};
ghost use Rattle.hls_sched.specs.Boxed.{boxed};
ghost use Rattle.hls_tree_nodes.specs.Views.{shown_at, choice_at};
ghost use Rattle.hls_tree.specs.Trees.{IsTreeOf, Any, HasPassed, PassesBy, Stands, ready_of};
ghost use Rattle.hls_core_stays.specs.Tallies.{AreStays};
ghost use Rattle.hls_core_stays.specs.Changes.{flagged};
ghost use Rattle.hls_core.specs.declared.begun.Release.{Release};
ghost use Rattle.hls_core.specs.Begun.{ends_within, used, released, is_due};
ghost use Rattle.hls_core.specs.Bursts.{begun_in, left_in, next_in};
ghost use Rattle.hls_core.specs.Inside.Elapses.{IsThreadOrNone, IsWithin, IsRest, IsAfter};
ghost use Rattle.hls_core.specs.Inside.Elapses.{MayElapse, Elapses, IsStretch};

use crate::bursts::Bursts;
use crate::ways::way_of;
use hls_core_journal::Journal;
use hls_core_stays::Stays;
use hls_report_text::Path;
use hls_sched::Scheduler;
use hls_tree::{NodeId, Tree};

/// How many ticks of its burst are left of the thread that is granted, and else so many.
fn rest_of(bursts: &Bursts, thread: &Option<NodeId>, most: u32) -> u32
    ensures burst { IsWithin (left_in bursts.now) thread.now result }
    ensures most { result ≤ most }
    ensures attained { result < most → IsRest (left_in bursts.now) thread.now result }
{
    let Some(id) = thread else {
        return most;
    };
    match bursts.left(*id) {
        Some(left) => left.min(most),
        None => most,
    }
}

/// At most so many ticks from now on, and none behind the first release.
fn up_to(first: Option<u32>, now: u32, most: u32) -> u32
    requires ahead { (tick : ℕ) → first ≡ Some tick → now < tick }
    requires some { 0 < most }
    ensures some { 0 < result }
    ensures most { result ≤ most }
    ensures ahead { (tick : ℕ) → first ≡ Some tick → now + result ≤ tick }
    ensures attained { result < most → first ≡ Some (now + result) }
{
    match first {
        Some(tick) => (tick - now).min(most),
        None => most,
    }
}

/// For how many ticks the present grant stands, at most so many: for as many as each scheduler stands, and who is
/// granted has left of its burst.
fn standing(tree: &Tree, bursts: &Bursts, thread: &Option<NodeId>, most: u32) -> u32
    requires tree { Stands seen tree.now Any }
    requires some { 0 < most }
    requires within { most ≤ always }
    requires lasting { IsWithin (left_in bursts.now) thread.now 1 }
    ensures some { 0 < result }
    ensures most { result ≤ most }
    ensures attained { result < most →
        StandsJust (shown_at (boxed seen) tree.now.nodes) (choice_at (boxed choice) tree.now.nodes) result ⊎
        IsRest (left_in bursts.now) thread.now result }
    ensures least { (k : ℕ) → result ≤ stands_in (choice_at (boxed choice) tree.now.nodes k)
        (shown_at (boxed seen) tree.now.nodes k) }
    ensures law { 1 < result → (k : ℕ) → StandsIn result (choice_at (boxed choice) tree.now.nodes k)
        (shown_at (boxed seen) tree.now.nodes k) }
    ensures burst { IsWithin (left_in bursts.now) thread.now result }
{
    let rest = rest_of(bursts, thread, most);
    tree.stands_within(rest)
}

/// Lets so many ticks pass, in which each scheduler stands.
fn advance(tree: &mut Tree, ticks: u32)
    requires stands { Stands seen tree.old (λ h. h.now + ticks ≤ tree.old.horizon) }
    requires passed { HasPassed tree.old }
    requires some { 0 < ticks }
    requires least { (k : ℕ) → ticks ≤ stands_in (choice_at (boxed choice) tree.old.nodes k)
        (shown_at (boxed seen) tree.old.nodes k) }
    requires law { 1 < ticks → (k : ℕ) → StandsIn ticks (choice_at (boxed choice) tree.old.nodes k)
        (shown_at (boxed seen) tree.old.nodes k) }
    ensures elapsed { (h : Hierarchy) (asking : ℕ → Bool) (slots : ℕ → ℕ) (path : Option Way) →
        IsTreeOf seen tree.old h → PassesBy seen choice tree.old h asking slots path →
        MayLeap (shown_at (boxed seen) tree.old.nodes) (choice_at (boxed choice) tree.old.nodes) h asking slots path
        ticks → IsAfter seen tree.new h asking slots path ticks }
    ensures ready { (k : ℕ) → ready_of seen tree.new k ≡ ready_of seen tree.old k }
    ensures horizon { tree.new.horizon ≡ tree.old.horizon }
{
    if ticks == 1 {
        tree.turn();
    } else {
        tree.leap(ticks);
    }
}

/// Uses up so many ticks of the burst of the thread that was served, which is not ready any more after the last.
fn serve(tree: &mut Tree, bursts: &mut Bursts, thread: &Option<NodeId>, ticks: u32)
    requires { Stands seen tree.old (λ h. IsThreadOrNone h thread.now) }
    ensures tree { (h : Hierarchy) → IsTreeOf seen tree.old h → IsTreeOf seen tree.new h }
    ensures flags { (k : ℕ) → ready_of seen tree.new k ≡ (if is_just thread.now k then
        (if ends_within ticks (left_in bursts.old k) then false else ready_of seen tree.old k)
        else ready_of seen tree.old k) }
    ensures begun { (k : ℕ) → begun_in bursts.new k ≡ (if is_just thread.now k then
        used ticks (begun_in bursts.old k) else begun_in bursts.old k) }
    ensures horizon { tree.new.horizon ≡ tree.old.horizon }
{
    if let Some(id) = thread {
        if bursts.use_up(*id, ticks) {
            tree.set_ready(*id, false);
        }
    }
}

/// Whether the first release comes in a tick.
fn comes_in(first: Option<u32>, now: u32) -> bool
    ensures { result ≡ false → first ≢ Some now }
{
    match first {
        Some(tick) => tick == now,
        None => false,
    }
}

/// Makes a thread ready whose wake has a release in the present tick. Its stay is carried along.
fn rouse_due(tree: &mut Tree, bursts: &Bursts, stays: &mut Stays, id: NodeId, now: u32)
    requires { Stands seen tree.old (λ h. IsThread (h.nodes id) ×
        AreStays stays.old (flagged (ready_of seen tree.old) h)) }
    ensures tree { (h : Hierarchy) → IsTreeOf seen tree.old h → IsTreeOf seen tree.new h }
    ensures here { ready_of seen tree.new id ≡ (if is_due now (next_in bursts.now id) then true else
        ready_of seen tree.old id) }
    ensures others { (k : ℕ) → k ≢ id → ready_of seen tree.new k ≡ ready_of seen tree.old k }
    ensures stays { (h : Hierarchy) → IsTreeOf seen tree.old h → IsListed h → IsThread (h.nodes id) →
        AreStays stays.old (flagged (ready_of seen tree.old) h) →
        AreStays stays.new (flagged (ready_of seen tree.new) h) }
    ensures horizon { tree.new.horizon ≡ tree.old.horizon }
{
    if bursts.is_due(id, now) {
        tree.set_ready(id, true);
        stays.release(tree, id);
    }
}

/// Makes all threads ready whose wakes have a release in the present tick. Their stays are carried along.
fn rouse_all(tree: &mut Tree, bursts: &Bursts, stays: &mut Stays, now: u32)
    requires { Stands seen tree.old (λ h. AreStays stays.old (flagged (ready_of seen tree.old) h)) }
    ensures tree { (h : Hierarchy) → IsTreeOf seen tree.old h → IsTreeOf seen tree.new h }
    ensures flags { (h : Hierarchy) → IsTreeOf seen tree.old h → IsListed h → (k : ℕ) (t : Thread) →
        h.nodes k ≡ Some (Admitted t) → ready_of seen tree.new k ≡ (if is_due now (next_in bursts.now k) then true
        else ready_of seen tree.old k) }
    ensures stays { (h : Hierarchy) → IsTreeOf seen tree.old h → IsListed h →
        AreStays stays.old (flagged (ready_of seen tree.old) h) →
        AreStays stays.new (flagged (ready_of seen tree.new) h) }
    ensures horizon { tree.new.horizon ≡ tree.old.horizon }
{
    for at in 0..tree.threads() {
        let id = tree.thread(at);
        rouse_due(tree, bursts, stays, id, now);
    }
}

/// Makes threads ready whose wakes have a release in the present tick, and their bursts whole, where the first release
/// of all comes in it. Their stays are carried along.
fn release(tree: &mut Tree, bursts: &mut Bursts, stays: &mut Stays, first: Option<u32>, now: u32)
    requires stands { Stands seen tree.old (λ h. AreStays stays.old (flagged (ready_of seen tree.old) h)) }
    requires none { first ≢ Some now → (k : ℕ) → is_due now (next_in bursts.old k) ≡ false }
    requires fits { (k : ℕ) (release : Release) → next_in bursts.old k ≡ Some release → release.tick ≡ now →
        release.tick + release.every < 2 ^ 32 }
    ensures tree { (h : Hierarchy) → IsTreeOf seen tree.old h → IsTreeOf seen tree.new h }
    ensures flags { (h : Hierarchy) → IsTreeOf seen tree.old h → IsListed h → (k : ℕ) (t : Thread) →
        h.nodes k ≡ Some (Admitted t) → ready_of seen tree.new k ≡ (if is_due now (next_in bursts.old k) then true
        else ready_of seen tree.old k) }
    ensures begun { (k : ℕ) → begun_in bursts.new k ≡ released now (begun_in bursts.old k) }
    ensures stays { (h : Hierarchy) → IsTreeOf seen tree.old h → IsListed h →
        AreStays stays.old (flagged (ready_of seen tree.old) h) →
        AreStays stays.new (flagged (ready_of seen tree.new) h) }
    ensures horizon { tree.new.horizon ≡ tree.old.horizon }
{
    if !comes_in(first, now) {
        return;
    }
    rouse_all(tree, bursts, stays, now);
    bursts.release(now);
}

/// Ticks that passed with one path, or idly.
pub struct Leap {
    pub path: Option<Path>,
    pub ticks: u32,
}

/// Lets ticks pass, as many as the grant stays for up to the first release, but at most so many, and tells their path.
pub fn elapse(
    tree: &mut Tree,
    bursts: &mut Bursts,
    stays: &mut Stays,
    journal: &Journal,
    most: u32,
) -> Leap
    requires stands { Stands seen tree.old (MayElapse seen tree.old bursts.old stays.old journal.now most) }
    requires few { length journal.now.names.keys ≤ 65536 }
    requires some { 0 < most }
    requires within { most ≤ always }
    ensures elapses { (h : Hierarchy) → MayElapse seen tree.old bursts.old stays.old journal.now most h →
        Elapses seen tree.new bursts.new stays.new journal.now h result.path result.ticks }
    ensures stretch { (h : Hierarchy) → MayElapse seen tree.old bursts.old stays.old journal.now most h →
        IsStretch h most result.ticks }
    ensures some { 0 < result.ticks }
    ensures most { result.ticks ≤ most }
    ensures horizon { tree.new.horizon ≡ tree.old.horizon }
{
    let first = bursts.first_release();
    let now = tree.now();
    tree.pass();
    let path = way_of(tree, journal);
    let thread = tree.current();
    let free = up_to(first, now, most);
    let ticks = standing(tree, bursts, &thread, free);
    advance(tree, ticks);
    serve(tree, bursts, &thread, ticks);
    stays.tick(tree, thread, ticks);
    let end = now + ticks;
    release(tree, bursts, stays, first, end);
    Leap { path, ticks }
}
