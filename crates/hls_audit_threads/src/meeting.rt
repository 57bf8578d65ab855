// The accounts of a report, met one after another.
ghost use Rattle.std.specs.Prelude.{◌≡◌, ◌==◌, ◌&&◌, ◌++◌, List, Some, Decides, slice_get};
ghost use Rattle.std.specs.Str.{bytes_eq};
ghost use Rattle.hls_audit_threads.specs.Inside.Meeting.{AreMet, listed};

use hls_chron::Name;
use hls_guarantee::Guarantee;
use hls_report_text::Account;

/// Whether two names are the same.
fn same_name(one: &Name, other: &Name) -> bool
    ensures { result ≡ bytes_eq one.now other.now }
{
    one == other
}

/// Whether two guarantees are the same.
fn same_guarantee(one: &Guarantee, other: &Guarantee) -> bool
    ensures { Decides result (one.now ≡ other.now) }
{
    one == other
}

/// Whether two accounts are of the same ticks, and count the same of them.
fn same_ticks(one: &Account, other: &Account) -> bool
    ensures { result ≡ (one.now.from == other.now.from && (one.now.to == other.now.to
        && (one.now.ready == other.now.ready && one.now.served == other.now.served))) }
{
    one.from == other.from
        && (one.to == other.to && (one.ready == other.ready && one.served == other.served))
}

/// Whether two accounts are the same.
fn same_account(one: &Account, other: &Account) -> bool
    ensures { Decides result (one.now ≡ other.now) }
{
    if !same_name(&one.name, &other.name) {
        return false;
    }
    if !same_guarantee(&one.kept, &other.kept) {
        return false;
    }
    same_ticks(one, other)
}

/// Whether an account stands at a place.
fn is_at(accounts: &[Account], at: usize, account: &Account) -> bool
    ensures { Decides result (slice_get accounts.now at ≡ Some account.now) }
{
    match accounts.get(at) {
        Some(other) => same_account(other, account),
        None => false,
    }
}

/// How many accounts are met, once another one is found. `None`, for good, once one that was found is not the next.
pub(crate) fn meet(
    accounts: &[Account],
    met: Option<usize>,
    found: Option<Account>,
) -> Option<usize>
    ensures { (before : List Account) → AreMet accounts.now before met →
        AreMet accounts.now (before ++ listed found) result }
{
    match found {
        None => met,
        Some(account) => match met {
            None => None,
            Some(at) => {
                if is_at(accounts, at, &account) {
                    Some(at + 1)
                } else {
                    None
                }
            }
        },
    }
}

/// Whether all accounts are met, and no other was found.
pub(crate) fn are_all_met(accounts: &[Account], met: Option<usize>) -> bool
    ensures { (found : List Account) → AreMet accounts.now found met → Decides result (accounts.now ≡ found) }
{
    match met {
        None => false,
        Some(at) => at == accounts.len(),
    }
}
