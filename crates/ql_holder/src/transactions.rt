ghost use Rattle.std.specs.Prelude.{◌≡◌, ◌≤◌, length};
ghost use Rattle.ql_exec.specs.Relations.{sametxn};

use ql_base::EffId;
use ql_exec::Execution;

/// Whether two effects of an execution are one, or in one transaction.
pub fn is_same_txn(x: &Execution, id: u32, other: u32) -> bool
    requires first { 1 ≤ id }
    requires last { id ≤ length x.now }
    requires first_other { 1 ≤ other }
    requires last_other { other ≤ length x.now }
    ensures { result ≡ sametxn x.now id other }
{
    id == other || x.get(EffId(id)).member.is_with(x.get(EffId(other)).member)
}
