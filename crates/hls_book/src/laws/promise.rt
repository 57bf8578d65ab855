//! What holds of promises: each function's contract is a law, and its body does nothing.

ghost use Rattle.hls_chron.specs.Ledger.{Ledger};
ghost use Rattle.hls_kinds.specs.Discipline.{KeepsDiscipline};
ghost use Rattle.hls_kinds.specs.Made.{IsMade};
ghost use Rattle.hls_book.specs.Admission.{KeepsAdmission};
ghost use Rattle.hls_book.specs.Promise.{KeepsPromise};

use hls_chron::Config;

/// Fixed priority keeps its promise by its discipline and by how its seats are admitted alone: the
/// seat of priority number 0 gets whatever the scheduler is given while it asks.
pub fn fixed_priority_promises()
    ensures { (b : Ledger) → KeepsAdmission Config.Fp b → KeepsDiscipline Config.Fp b →
        KeepsPromise Config.Fp b }
{}

/// So does a join: its seat gets what any port gets.
pub fn joins_promise(ports: u8)
    ensures { (b : Ledger) → KeepsAdmission (Config.Join ports) b → KeepsDiscipline (Config.Join ports) b →
        KeepsPromise (Config.Join ports) b }
{}

/// Round robin keeps its promise in every book that came about as it may: a seat that asks is one of at
/// most 32, which have turns of `quantum` ticks in the cyclic order of their slots. So of a share with the
/// error `d` that a port supplies it has the 32nd part, with the error `(d + 31 * quantum) / 32`, whoever
/// comes, leaves or blocks meanwhile.
pub fn round_robin_promises(quantum: u32)
    ensures { (b : Ledger) → IsMade (Config.Rr quantum) b → KeepsPromise (Config.Rr quantum) b }
{}
