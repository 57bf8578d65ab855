// The report that a journal makes in the end.
ghost use Rattle.std.specs.Prelude.{◌≡◌, ◌≤◌, IfOk};
ghost use Rattle.hls_legal.specs.Accounts.{accounts_of, idle_of};
ghost use Rattle.hls_scenario.specs.Grammar.{IsScenario};
ghost use Rattle.hls_core_journal.specs.Told.{told, IsReportOf, IsTotalled};
ghost use Rattle.hls_core_journal.specs.Kept.{IsKept};

use crate::answered::answered;
use crate::journal::Journal;
use hls_chron::{List, Name};
use hls_report_text::{Account, Report};
use hls_scenario::Scenario;
use indexmap::IndexSet;
use std::alloc::{AllocError, Global};

fn names_of(alloc: Global, names: &IndexSet<Name>) -> Result<Vec<Name>, AllocError>
    ensures { IfOk result (λ all. all.items ≡ names.now.keys) }
{
    let mut all = Vec::new(alloc);
    all.extend_from_slice(names.as_slice())?;
    Ok(all)
}

/// What a journal tells, with these accounts and idle ticks.
fn totalled(
    alloc: Global,
    journal: Journal,
    scenario: Scenario,
    depth: u8,
    accounts: Vec<Account>,
    idle: u32,
) -> Result<Report, AllocError>
    requires { journal.ticks ≡ scenario.horizon }
    ensures { IfOk result (IsTotalled scenario.version scenario.items depth journal accounts.items idle) }
{
    let Journal {
        ticks: _,
        answers,
        names,
        guesses: _,
        runs,
    } = journal;
    let answered = answered(alloc, scenario.items, answers)?;
    let names = names_of(alloc, &names)?;
    let runs = runs.to_vec(alloc)?;
    Ok(Report {
        version: scenario.version,
        horizon: scenario.horizon,
        depth,
        answered: List::of(answered),
        names: List::of(names),
        runs: List::of(runs),
        accounts: List::of(accounts),
        idle,
    })
}

impl Journal {
    /// The report of a scenario that was carried out to its end, with the accounts and the idle ticks that come
    /// of it.
    ///
    /// # Errors
    /// Returns `AllocError` for want of memory.
    pub fn finish(
        self,
        alloc: Global,
        scenario: Scenario,
        depth: u8,
        accounts: Vec<Account>,
        idle: u32,
    ) -> Result<Report, AllocError>
        requires scenario { IsScenario scenario }
        requires kept { IsKept scenario self }
        requires depth { depth ≤ 6 }
        requires whole { self.ticks ≡ scenario.horizon }
        requires accounts { accounts.items ≡ accounts_of (told scenario.version scenario.items depth self) }
        requires idle { idle ≡ idle_of (told scenario.version scenario.items depth self) }
        ensures { IfOk result (IsReportOf (told scenario.version scenario.items depth self)) }
    {
        totalled(alloc, self, scenario, depth, accounts, idle)
    }
}
