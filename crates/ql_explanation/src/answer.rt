// The answer about a program as a whole.
ghost use Rattle.std.specs.Prelude.{◌≡◌, ◌<◌, ℕ, MatchBool, Some, length, slice_get};
ghost use Rattle.ql_base.specs.declared.ids.OpId.{OpId};
ghost use Rattle.ql_classify.specs.declared.finding.Finding.{Finding};
ghost use Rattle.ql_explanation.specs.Explanation.{IsStatusOf, IsStrongIn};
ghost use Rattle.ql_warnings.specs.Warnings.{AreFindings, HasLevel};

use crate::finding::finding_at;
use crate::uses::is_strong_use;
use ql_base::{DeclId, OpId};
use ql_classify::Finding;
use ql_reply::Status;
use ql_typing::Typed;

/// Yes where each target has a level and no transaction uses a strong operation, else no.
pub fn answer_of(t: &Typed, findings: &[Finding]) -> Status
    requires { AreFindings t.now.program findings.now }
    ensures { IsStatusOf t.now.program result }
{
    if !all_have_levels(findings) {
        return Status::No;
    }
    if has_strong_use(t, findings) {
        return Status::No;
    }
    Status::Done
}

fn all_have_levels(findings: &[Finding]) -> bool
    ensures { MatchBool result
        ((k : ℕ) (f : Finding) → slice_get findings.now k ≡ Some f → HasLevel f)
        ((k : ℕ) × (f : Finding) × (slice_get findings.now k ≡ Some f) × (HasLevel f → ⊥)) }
{
    for k in 0..findings.len() {
        if !has_level(finding_at(findings, k)) {
            return false;
        }
    }
    true
}

fn has_level(finding: &Finding) -> bool
    ensures { MatchBool result (HasLevel finding.now) (HasLevel finding.now → ⊥) }
{
    matches!(finding, Finding::Least { .. })
}

// Whether some transaction uses a strong operation.
fn has_strong_use(t: &Typed, findings: &[Finding]) -> bool
    requires { AreFindings t.now.program findings.now }
    ensures { MatchBool result
        ((d : ℕ) × (o : OpId) × IsStrongIn t.now.program d o)
        ((d : ℕ) (o : OpId) → d < length t.now.program.txns → IsStrongIn t.now.program d o → ⊥) }
{
    for d in 0..t.txns() {
        if uses_strong(t, findings, DeclId(d)) {
            return true;
        }
    }
    false
}

fn uses_strong(t: &Typed, findings: &[Finding], d: DeclId) -> bool
    requires txn { d.0 < length t.now.program.txns }
    requires findings { AreFindings t.now.program findings.now }
    ensures { MatchBool result ((o : OpId) × IsStrongIn t.now.program d.0 o)
        ((o : OpId) → IsStrongIn t.now.program d.0 o → ⊥) }
{
    for o in 0..t.ops() {
        if is_strong_use(t, findings, d, OpId(o)) {
            return true;
        }
    }
    false
}
