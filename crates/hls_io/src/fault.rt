ghost use Rattle.std.specs.Prelude.{◌↔◌, IsTrue, Contains};

/// A read or a write that failed. The source or the sink has counted it.
#[derive(Clone, Copy, Debug, PartialEq, Eq)]
pub struct Failed;

/// Whether the call of this number is listed.
pub(crate) fn is_listed(calls: &[u32], number: u64) -> bool
    ensures { IsTrue result ↔ Contains calls.now number }
{
    calls.iter().any(|&call| u64::from(call) == number)
}
