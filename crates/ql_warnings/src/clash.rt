// Relations that can't hold together.
ghost use Rattle.std.specs.Prelude.{◌≡◌, ◌<◌, ℕ, IfSome, Some, length, option_copied, slice_get, true};
ghost use Rattle.std.specs.List.{list_any};
ghost use Rattle.ql_typing.specs.Operations.{op_kinds};
ghost use Rattle.ql_warnings.specs.Clashes.{HaveNoCommonType, CantHold, choice_may, is_operation_of, may_be};
ghost use Rattle.ql_warnings.specs.Names.{is_on_object, is_order};

use crate::known::{Known, is_on_object, is_order, is_turned};
use ql_base::{OpId, TypeId};
use ql_ground::Goal;
use ql_lang::{OpChoice, Term};
use ql_typing::Typed;

/// A target of a program, and the variables of its contract.
#[derive(Clone, Copy)]
pub(crate) struct Scene<'a> {
    pub(crate) program: &'a Typed,
    pub(crate) goal: Goal,
    pub(crate) vars: &'a [OpChoice],
}

/// The first of some relations that can't hold together with all the others in any execution.
pub(crate) fn first_clash(scene: Scene, known: &[Known]) -> Option<Known>
    ensures member { IfSome result (λ k. (i : ℕ) × (slice_get known.now i ≡ Some k)) }
    ensures clash { IfSome result
        (λ k. CantHold scene.entry.program.now.program scene.entry.goal scene.entry.vars.now
        known.now) }
{
    for k in 0..known.len() {
        let relation = known_at(known, k);
        if is_of_two_types(scene, relation) {
            return Some(relation);
        }
        if has_turned(known, relation) {
            return Some(relation);
        }
    }
    None
}

/// Whether a relation can't hold together with all the others.
pub(crate) fn has_clash(scene: Scene, known: &[Known]) -> bool
    ensures { result ≡ true
        → CantHold scene.entry.program.now.program scene.entry.goal scene.entry.vars.now known.now }
{
    match first_clash(scene, known) {
        Some(_) => true,
        None => false,
    }
}

pub(crate) fn known_at(known: &[Known], k: usize) -> Known
    requires { k < length known.now }
    ensures { slice_get known.now k ≡ Some result }
{
    known[k]
}

// Whether a relation puts effects on one object, though no type is possible for that object.
fn is_of_two_types(scene: Scene, known: Known) -> bool
    ensures { result ≡ true → (is_on_object known.name ≡ true)
        × HaveNoCommonType (op_kinds scene.entry.program.now.program.types) scene.entry.goal
        scene.entry.vars.now known.first known.second }
{
    is_on_object(known.name) && are_apart(scene, known.first, known.second)
}

// Whether a relation puts one effect before another, and one of these puts the second before the first.
fn has_turned(known: &[Known], relation: Known) -> bool
    ensures { result ≡ true → (is_order relation.name ≡ true) × (i : ℕ) × (other : Known)
        × (slice_get known.now i ≡ Some other)
        × (is_order other.name ≡ true) × (other.first ≡ relation.second)
        × (other.second ≡ relation.first) }
{
    if !is_order(relation.name) {
        return false;
    }
    for k in 0..known.len() {
        let other = known[k];
        if is_order(other.name) && is_turned(other, relation) {
            return true;
        }
    }
    false
}

// Whether no type is possible for two terms.
fn are_apart(scene: Scene, first: Term, second: Term) -> bool
    ensures { result ≡ true
        → HaveNoCommonType (op_kinds scene.entry.program.now.program.types) scene.entry.goal
        scene.entry.vars.now first second }
{
    for o in 0..scene.program.ops() {
        let kind = scene.program.kind_of(OpId(o));
        if may_be(scene, first, kind) && may_be(scene, second, kind) {
            return false;
        }
    }
    true
}

// Whether a term may denote an effect on an object of a type.
fn may_be(scene: Scene, term: Term, kind: TypeId) -> bool
    ensures { result ≡ may_be (op_kinds scene.entry.program.now.program.types) scene.entry.goal
        scene.entry.vars.now term kind.0 }
{
    match (term, scene.goal) {
        (Term::Var(v), _) => choice_may(scene.program, scene.vars.get(v as usize), kind),
        (Term::Cur, Goal::OpAt(o, _)) => is_of(scene.program, o.0, kind),
        (Term::Cur, Goal::TxnAt(_, _)) => true,
    }
}

fn choice_may(t: &Typed, choice: Option<&OpChoice>, kind: TypeId) -> bool
    ensures { result ≡ choice_may (op_kinds t.now.program.types) (option_copied choice.entry)
        kind.0 }
{
    match choice {
        Some(OpChoice::OneOf(ops)) => one_may(t, ops.items(), kind),
        _ => true,
    }
}

fn one_may(t: &Typed, ops: &[u32], kind: TypeId) -> bool
    ensures { result ≡ list_any (λ o. is_operation_of (op_kinds t.now.program.types) o kind.0) ops.now }
{
    ops.iter().any(|o| is_of(t, *o, kind))
}

// Whether there is an operation with this number, of this type.
#[tactic(auto, using(crate::proofs::Scenes::past_kinds))]
fn is_of(t: &Typed, o: u32, kind: TypeId) -> bool
    ensures { result ≡ is_operation_of (op_kinds t.now.program.types) o kind.0 }
{
    o < t.ops() && t.kind_of(OpId(o)).0 == kind.0
}
