// The accounts of stays.
ghost use Rattle.std.specs.Prelude.{◌≡◌, ◌-◌, ◌++◌, ◌∷◌, [], IfOk, OnOk, flat_map, length, nat_lt, reverse};
ghost use Rattle.hls_report_text.specs.ReportText.{account_text, with_end};
ghost use Rattle.hls_machine.specs.Hierarchy.{Hierarchy};
ghost use Rattle.hls_machine.specs.Supplied.{end_of};
ghost use Rattle.hls_legal.specs.Agrees.{accounts_in, idle_in};
ghost use Rattle.hls_core_stays.specs.Tallies.{AreStays, waited};
ghost use Rattle.hls_core_stays.specs.Told.{AreValid, MayTell, lines_of};
ghost use Rattle.hls_core_stays.specs.Inside.Accounts.{account_by, accounts_by};

use crate::Stays;
use crate::tallies::Tallies;
use crate::tally::Tally;
use hls_report_text::{Account, put_account};
use std::alloc::{AllocError, Global};

/// How many ticks have passed since a thread became ready, where it is.
fn waited(now: u32, ready_since: Option<u32>) -> u32
    ensures { result ≡ waited now ready_since }
{
    match ready_since {
        Some(since) => now.saturating_sub(since),
        None => 0,
    }
}

impl Tally {
    /// The tick before which the stay ends: the present one where it is open.
    fn end(&self, now: u32) -> u32
        ensures { result ≡ end_of now self.now.until }
    {
        match self.until {
            Some(until) => until,
            None => now,
        }
    }

    /// Whether the stay had a tick.
    fn had_tick(&self, now: u32) -> bool
        ensures { result ≡ nat_lt self.now.since (end_of now self.now.until) }
    {
        self.since < self.end(now)
    }

    fn account(&self, now: u32) -> Account
        ensures { result ≡ account_by now self.now }
    {
        let end = self.end(now);
        Account {
            name: self.name,
            from: self.since,
            to: end.saturating_sub(1),
            kept: self.kept,
            ready: self.ready.saturating_add(waited(end, self.ready_since)),
            served: self.served,
        }
    }
}

/// Puts the account of a tally on a list, where it had a tick.
fn push_account(accounts: &mut Vec<Account>, tally: &Tally, now: u32) -> Result<(), AllocError>
    ensures { OnOk result (reverse accounts.new.items
        ≡ accounts_by now (tally.now ∷ []) ++ reverse accounts.old.items) }
{
    if tally.had_tick(now) {
        accounts.push(tally.account(now))?;
    }
    Ok(())
}

/// Makes an account of the last tally that is left.
fn move_last(left: &mut Tallies, accounts: &mut Vec<Account>, now: u32) -> Result<(), AllocError>
    ensures told { OnOk result (accounts_by now left.new.items ++ reverse accounts.new.items
        ≡ accounts_by now left.old.items ++ reverse accounts.old.items) }
    ensures fewer { length left.new.items ≡ length left.old.items - 1 }
{
    match left.take_last() {
        Some(tally) => push_account(accounts, &tally, now),
        None => Ok(()),
    }
}

/// The accounts of tallies, the last first.
fn accounts_from_last(alloc: Global, tallies: Tallies, now: u32) -> Result<Vec<Account>, AllocError>
    ensures { IfOk result (λ accounts. reverse accounts.items ≡ accounts_by now tallies.items) }
{
    let mut left = tallies;
    let mut accounts = Vec::with_capacity(alloc, left.len())?;
    for _at in 0..left.len() {
        move_last(&mut left, &mut accounts, now)?;
    }
    Ok(accounts)
}

/// Appends the account line of a tally, where it had a tick.
fn put_line(out: &mut Vec<u8>, tally: &Tally, now: u32) -> Result<(), AllocError>
    requires { AreValid (accounts_by now (tally.now ∷ [])) }
    ensures { OnOk result (out.new.items ≡ out.old.items ++ lines_of (accounts_by now (tally.now ∷ []))) }
{
    if tally.had_tick(now) {
        put_account(out, &tally.account(now))?;
    }
    Ok(())
}

/// Appends the account line of the last tally that is left.
fn tell_last(left: &mut Tallies, out: &mut Vec<u8>, now: u32) -> Result<(), AllocError>
    requires { AreValid (accounts_by now (reverse left.old.items)) }
    ensures told { OnOk result (out.new.items ++ lines_of (accounts_by now (reverse left.new.items))
        ≡ out.old.items ++ lines_of (accounts_by now (reverse left.old.items))) }
    ensures valid { AreValid (accounts_by now (reverse left.new.items)) }
    ensures fewer { length left.new.items ≡ length left.old.items - 1 }
{
    match left.take_last() {
        Some(tally) => put_line(out, &tally, now),
        None => Ok(()),
    }
}

/// Appends the account lines of tallies.
fn put_lines(out: &mut Vec<u8>, tallies: Tallies, now: u32) -> Result<(), AllocError>
    requires { AreValid (accounts_by now tallies.items) }
    ensures { OnOk result (out.new.items ≡ out.old.items ++ lines_of (accounts_by now tallies.items)) }
{
    let mut left = tallies;
    left.reverse();
    for _at in 0..left.len() {
        tell_last(&mut left, out, now)?;
    }
    Ok(())
}

impl Stays {
    /// The accounts of the stays of at least one tick, in the order in which they were opened.
    ///
    /// # Errors
    /// Returns `AllocError` for want of memory.
    pub fn accounts(self, alloc: Global, now: u32) -> Result<Vec<Account>, AllocError>
        ensures { IfOk result (λ accounts. (h : Hierarchy) → AreStays self h → h.now ≡ now →
            accounts.items ≡ accounts_in h) }
    {
        let Stays { tallies, .. } = self;
        let mut accounts = accounts_from_last(alloc, tallies, now)?;
        accounts.reverse();
        Ok(accounts)
    }

    /// Appends the account lines of the stays of at least one tick, in the order in which they were opened. The
    /// memory of stays that were told is given back while the text grows.
    ///
    /// # Errors
    /// Returns `AllocError` for want of memory.
    pub fn put_accounts(self, out: &mut Vec<u8>, now: u32) -> Result<(), AllocError>
        requires { MayTell self now }
        ensures { OnOk result ((h : Hierarchy) → AreStays self h → h.now ≡ now →
            out.new.items ≡ out.old.items ++ flat_map (λ a. with_end (account_text a)) (accounts_in h)) }
    {
        let Stays { tallies, .. } = self;
        put_lines(out, tallies, now)
    }

    /// How many ticks were idle.
    pub fn idle(&self) -> u32
        ensures { (h : Hierarchy) → AreStays self.now h → result ≡ idle_in h }
    {
        self.idle
    }
}
