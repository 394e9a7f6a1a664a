//! Counts of calls, faults and absences, and the calls that are made to fail.
ghost use Rattle.std.specs.Prelude.{◌≡◌, ◌↔◌, IsTrue, Contains};
ghost use Rattle.ssu_io.specs.Faults.{raised};

/// One more than the count, or its greatest value.
pub(crate) fn one_more(count: u64) -> u64
    ensures { result ≡ raised count }
{
    count.saturating_add(1)
}

/// Whether the call of this number is to fail.
pub(crate) fn is_listed(fails: &[u32], number: u64) -> bool
    ensures { IsTrue result ↔ Contains fails.now number }
{
    fails.iter().any(|listed| u64::from(*listed) == number)
}
