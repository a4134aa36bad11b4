ghost use Rattle.std.specs.Prelude.{◌≡◌, ◌≤◌};
ghost use Rattle.ql_ports.specs.Faults.{Rose, next_count_of};
ghost use Rattle.ql_ports.specs.Memory.{is_failing};

// The count increased by one, up to its type's maximum.
pub(crate) fn next_count(count: u64) -> u64
    ensures value { result ≡ next_count_of count }
    ensures rose { Rose count result }
    ensures grows { count ≤ result }
{
    count.saturating_add(1)
}

// Whether the call with this number is to fail.
pub(crate) fn is_failing_call(failing: &[u64], number: u64) -> bool
    ensures { result ≡ is_failing failing.now number }
{
    failing.contains(&number)
}
