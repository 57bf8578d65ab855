// The first tick of one stay at which its thread lacks what is guaranteed, or has more than the cap.
ghost use Rattle.hls_chron.specs.Ranges.{longest_horizon};
ghost use Rattle.std.specs.Prelude.{◌≡◌, ◌+◌, ◌≤◌, ℕ, Bool, true, IfOk};
ghost use Rattle.hls_guarantee.specs.declared.Guarantee.TheVariants.{All};
ghost use Rattle.hls_guarantee.specs.Cap.{KeepsCap};
ghost use Rattle.hls_guarantee.specs.Limits.{IsValid};
ghost use Rattle.hls_guarantee.specs.Satisfaction.{Satisfies};
ghost use Rattle.hls_report_text.specs.Content.{Content};
ghost use Rattle.hls_legal.specs.Accounts.{end_of};
ghost use Rattle.hls_audit_watch.specs.First.{FirstAt};
ghost use Rattle.hls_audit_threads.specs.Inside.Sites.{Starves, Exceeds};
ghost use Rattle.hls_audit_threads.specs.Inside.Ticks.{TellsReady, TellsServed};

use hls_audit_spans::Spans;
use hls_audit_watch::{first_over, first_short};
use hls_guarantee::Guarantee;
use hls_legal::Stay;
use std::alloc::{AllocError, Global};

/// Whether a guarantee promises nothing.
fn is_null(kept: &Guarantee) -> bool
    ensures { result ≡ true → (served : ℕ → Bool) (lo hi : ℕ) → Satisfies kept.now served lo hi }
{
    match *kept {
        Guarantee::Null => true,
        _ => false,
    }
}

/// Whether a guarantee promises every tick.
fn is_all(kept: &Guarantee) -> bool
    ensures { result ≡ true → kept.now ≡ All }
{
    match *kept {
        Guarantee::All => true,
        _ => false,
    }
}

/// Whether a guarantee has no cap.
fn is_uncapped(kept: &Guarantee) -> bool
    ensures { result ≡ true → (served : ℕ → Bool) (lo hi : ℕ) → KeepsCap kept.now served lo hi }
{
    match *kept {
        Guarantee::Resb { hard: true, .. } => false,
        Guarantee::Resc { hard: true, .. } => false,
        _ => true,
    }
}

/// The first tick of a stay, which ends before another, at which its thread is ready, and the longest window that ends
/// with it does not have what is guaranteed. The ticks of the stay are watched one by one where something is promised,
/// and not every tick: else the first lack is the first tick in which the thread is ready and not served.
pub(crate) fn first_starving(
    alloc: Global,
    stay: &Stay,
    until: u32,
    ready: &Spans,
    served: &Spans,
) -> Result<Option<u32>, AllocError>
    requires kept { IsValid stay.now.kept }
    requires order { stay.now.since ≤ until }
    requires few { until ≤ longest_horizon }
    ensures { IfOk result (λ first. (c : Content) → end_of c stay.now ≡ until → until ≤ c.horizon →
        TellsReady c stay.now.name ready.now.spans.items → TellsServed c stay.now.name served.now.spans.items →
        FirstAt (λ t. Starves c t stay.now) first) }
{
    if is_null(&stay.kept) {
        return Ok(None);
    }
    if is_all(&stay.kept) {
        return Ok(ready.first_beyond_in(served, stay.since, until));
    }
    let ready = ready.list(alloc, stay.since, until)?;
    let served = served.list(alloc, stay.since, until)?;
    match first_short(alloc, &stay.kept, &ready, &served)? {
        Some(at) => Ok(Some(stay.since + at as u32)),
        None => Ok(None),
    }
}

/// The first tick of a stay, which ends before another, at which its thread is served, and the ticks up to it exceed
/// the cap. The ticks of the stay are watched one by one where there is a cap.
pub(crate) fn first_exceeding(
    alloc: Global,
    stay: &Stay,
    until: u32,
    served: &Spans,
) -> Result<Option<u32>, AllocError>
    requires kept { IsValid stay.now.kept }
    requires order { stay.now.since ≤ until }
    requires few { until ≤ longest_horizon }
    ensures { IfOk result (λ first. (c : Content) → end_of c stay.now ≡ until → until ≤ c.horizon →
        TellsServed c stay.now.name served.now.spans.items → FirstAt (λ t. Exceeds c t stay.now) first) }
{
    if is_uncapped(&stay.kept) {
        return Ok(None);
    }
    let served = served.list(alloc, stay.since, until)?;
    match first_over(alloc, &stay.kept, &served)? {
        Some(at) => Ok(Some(stay.since + at as u32)),
        None => Ok(None),
    }
}
