// What is found of each target.
ghost use Rattle.std.specs.Prelude.{◌≡◌, ◌<◌, IfOk, Some, length, slice_get};
ghost use Rattle.ql_warnings.specs.Warnings.{AreFindings};

use ql_base::NoMemory;
use ql_classify::{Finding, find_target};
use ql_typing::Typed;
use std::alloc::Global;

/// The finding of each target: the operations in order, and then the transactions in order.
pub fn findings(alloc: Global, t: &Typed) -> Result<Vec<Finding>, NoMemory>
    ensures { IfOk result (λ found. AreFindings t.now.program found.items) }
{
    let mut found = Vec::new(alloc);
    for target in 0..t.ops() + t.txns() {
        found.push(find_target(alloc, t, target)?)?;
    }
    Ok(found)
}

/// The finding of the target at an index.
pub fn finding_at(findings: &[Finding], k: usize) -> &Finding
    requires { k < length findings.now }
    ensures { slice_get findings.now k ≡ Some result.now }
{
    &findings[k]
}
