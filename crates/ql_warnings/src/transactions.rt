// What no transaction can meet.
ghost use Rattle.std.specs.Prelude.{◌≡◌, ℕ, Some, slice_get, true};
ghost use Rattle.ql_lang.specs.Formulas.{statement_of};
ghost use Rattle.ql_lang.specs.declared.formula.Term.{Term};
ghost use Rattle.ql_warnings.specs.Premises.{IsNeverTrue};

use ql_lang::{Body, Term};

/// Whether a statement asks that an effect is in the current transaction, and that it isn't. False may also mean that this
/// wasn't found out.
pub(crate) fn never_holds(body: &Body) -> bool
    ensures { result ≡ true → IsNeverTrue (statement_of body.now) }
{
    match body {
        Body::And(left, right) => never_holds(left) || never_holds(right),
        Body::Txn(members, others) => share_a_term(members.items(), others.items()),
        Body::True | Body::Apply(_, _, _) | Body::Or(_, _) | Body::Implies(_, _) => false,
    }
}

fn share_a_term(members: &[Term], others: &[Term]) -> bool
    ensures { result ≡ true → (i j : ℕ) × (term : Term) × (slice_get members.now i ≡ Some term)
        × (slice_get others.now j ≡ Some term) }
{
    for i in 0..members.len() {
        if has_term(others, members[i]) {
            return true;
        }
    }
    false
}

fn has_term(terms: &[Term], term: Term) -> bool
    ensures { result ≡ true → (j : ℕ) × (slice_get terms.now j ≡ Some term) }
{
    for j in 0..terms.len() {
        if terms[j] == term {
            return true;
        }
    }
    false
}
