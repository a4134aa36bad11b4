// The strong operations that a transaction uses.
ghost use Rattle.std.specs.Prelude.{◌≡◌, ◌+◌, ◌<◌, IfOk, MatchBool, OnOk, Some, length, slice_get};
ghost use Rattle.ql_ground.specs.OfPrograms.{IsGoalOf};
ghost use Rattle.ql_typing.specs.Operations.{all_ops};
ghost use Rattle.ql_warnings.specs.Warnings.{AreFindings};
ghost use Rattle.ql_explanation.specs.Explanation.{AreStrongIn, AreUsesOf, IsStrongFinding, IsStrongIn};
ghost use Rattle.ql_explanation.specs.Parts.{AreStrongBelow};

use ql_base::{DeclId, NoMemory, OpId};
use ql_classify::Finding;
use ql_ground::Goal;
use ql_levels::Level;
use ql_typing::Typed;
use std::alloc::Global;

/// The operations that a target uses and whose least level is strong, in the order of the source.
pub fn uses_of(
    alloc: Global,
    t: &Typed,
    findings: &[Finding],
    g: Goal,
) -> Result<Vec<OpId>, NoMemory>
    requires goal { IsGoalOf t.now.program g }
    requires findings { AreFindings t.now.program findings.now }
    ensures { IfOk result (λ uses. AreUsesOf t.now.program g uses.items) }
{
    match g {
        Goal::OpAt(_, _) => Ok(Vec::new(alloc)),
        Goal::TxnAt(d, _) => strong_uses(alloc, t, findings, d),
    }
}

fn strong_uses(
    alloc: Global,
    t: &Typed,
    findings: &[Finding],
    d: DeclId,
) -> Result<Vec<OpId>, NoMemory>
    requires txn { d.0 < length t.now.program.txns }
    requires findings { AreFindings t.now.program findings.now }
    ensures { IfOk result (λ uses. AreStrongIn t.now.program d.0 uses.items) }
{
    let mut uses = Vec::new(alloc);
    for o in 0..t.ops() {
        push_strong_use(&mut uses, t, findings, d, OpId(o))?;
    }
    Ok(uses)
}

// Appends an operation that the transaction uses and whose least level is strong.
fn push_strong_use(
    uses: &mut Vec<OpId>,
    t: &Typed,
    findings: &[Finding],
    d: DeclId,
    o: OpId,
) -> Result<(), NoMemory>
    requires txn { d.0 < length t.now.program.txns }
    requires op { o.0 < length (all_ops t.now.program.types) }
    requires findings { AreFindings t.now.program findings.now }
    ensures { OnOk result
        (AreStrongBelow t.now.program d.0 o.0 uses.old.items
        → AreStrongBelow t.now.program d.0 (o.0 + 1) uses.new.items) }
{
    if !is_strong_use(t, findings, d, o) {
        return Ok(());
    }
    uses.push(o)?;
    Ok(())
}

/// Whether a transaction uses an operation and the operation's least level is strong.
pub(crate) fn is_strong_use(t: &Typed, findings: &[Finding], d: DeclId, o: OpId) -> bool
    requires txn { d.0 < length t.now.program.txns }
    requires op { o.0 < length (all_ops t.now.program.types) }
    requires findings { AreFindings t.now.program findings.now }
    ensures { MatchBool result (IsStrongIn t.now.program d.0 o)
        (IsStrongIn t.now.program d.0 o → ⊥) }
{
    if !t.uses(d, o) {
        return false;
    }
    is_strong(finding_of(findings, o))
}

fn finding_of(findings: &[Finding], o: OpId) -> &Finding
    requires { o.0 < length findings.now }
    ensures { slice_get findings.now o.0 ≡ Some result.now }
{
    &findings[o.0 as usize]
}

fn is_strong(finding: &Finding) -> bool
    ensures { MatchBool result (IsStrongFinding finding.now) (IsStrongFinding finding.now → ⊥) }
{
    matches!(
        finding,
        Finding::Least {
            goal: Goal::OpAt(_, Level::Strong),
            ..
        }
    )
}
