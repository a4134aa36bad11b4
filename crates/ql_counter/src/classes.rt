// Classes of constants that are alike, each named by its least member.
ghost use Rattle.std.specs.Prelude.{◌≡◌, ◌≤◌};
ghost use Rattle.ql_counter.specs.Patterns.{class_of, one_session};
ghost use Rattle.ql_counter.specs.Coded.{alike_by, said};

use crate::constants::related;
use ql_atoms::{PairKind, Shape};

/// A way in which two constants are alike.
#[derive(Clone, Copy)]
pub(crate) enum Likeness {
    Equal,
    OneSession,
    OneObject,
    OneTxn,
}

/// The least constant that is like this one.
pub(crate) fn class(a: &[bool], s: Shape, likeness: Likeness, c: u32) -> u32
    ensures value { result ≡ class_of s.constants (alike_by (said a.now s) likeness) c }
    ensures within { result ≤ s.constants }
{
    for k in 0..s.constants {
        if are_alike(a, s, likeness, k, c) {
            return k;
        }
    }
    s.constants
}

fn are_alike(a: &[bool], s: Shape, likeness: Likeness, i: u32, j: u32) -> bool
    ensures { result ≡ alike_by (said a.now s) likeness i j }
{
    match likeness {
        Likeness::Equal => related(a, s, PairKind::Eq, i, j),
        Likeness::OneSession => are_in_one_session(a, s, i, j),
        Likeness::OneObject => related(a, s, PairKind::SameObj, i, j),
        Likeness::OneTxn => related(a, s, PairKind::SameTxn, i, j),
    }
}

fn are_in_one_session(a: &[bool], s: Shape, i: u32, j: u32) -> bool
    ensures { result ≡ one_session (said a.now s) i j }
{
    related(a, s, PairKind::So, i, j)
        || (related(a, s, PairKind::So, j, i) || related(a, s, PairKind::Eq, i, j))
}
