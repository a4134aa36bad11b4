// What an assignment states about a problem's constants.
ghost use Rattle.std.specs.Prelude.{◌≡◌, ◌<◌, ◌≤◌};
ghost use Rattle.ql_atoms.specs.Atoms.{size_of};
ghost use Rattle.ql_cnf.specs.Satisfaction.{variable_value};
ghost use Rattle.ql_counter.specs.Patterns.{least};
ghost use Rattle.ql_counter.specs.Assigned.{current_by, operation_by, related_by};

use ql_atoms::{Atom, PairKind, Shape, number};
use ql_base::OpId;

/// Whether a relation holds from one constant to another.
pub(crate) fn related(a: &[bool], s: Shape, kind: PairKind, i: u32, j: u32) -> bool
    ensures { result ≡ related_by a.now (size_of s) kind i j }
{
    i < s.constants && j < s.constants && value(a, number(Atom::Pair(kind, i, j), s))
}

/// Whether a constant is an effect of the current transaction.
pub(crate) fn is_current(a: &[bool], s: Shape, i: u32) -> bool
    ensures { result ≡ current_by a.now (size_of s) i }
{
    i < s.constants && value(a, number(Atom::Current(i), s))
}

/// The operation of a constant: the first that it has in the assignment, or else the count of operations.
pub(crate) fn operation(a: &[bool], s: Shape, i: u32) -> u32
    requires { i < s.constants }
    ensures { result ≡ operation_by a.now (size_of s) i }
{
    for o in 0..s.operations {
        if value(a, number(Atom::Is(OpId(o), i), s)) {
            return o;
        }
    }
    s.operations
}

/// The first constant of the current transaction, or else the count of constants.
pub(crate) fn first_current(a: &[bool], s: Shape) -> u32
    ensures { result ≡ least s.constants (current_by a.now (size_of s)) }
{
    for i in 0..s.constants {
        if is_current(a, s, i) {
            return i;
        }
    }
    s.constants
}

// The truth value of a variable, false past the assignment.
fn value(a: &[bool], variable: u32) -> bool
    requires { 1 ≤ variable }
    ensures { result ≡ variable_value a.now variable }
{
    let place = variable as usize - 1;
    place < a.len() && a[place]
}
