ghost use Rattle.std.specs.Prelude.{◌≡◌, Err, IfErr, IfOk, Ok};
ghost use Rattle.ql_lang.specs.Trees.{proposition_of, relation_of};
ghost use Rattle.ql_parse.specs.Junctions.{both_props, both_relations, prop_mark, relation_mark};

use crate::fault::Refusal;
use ql_grammar::Terminal;
use ql_lang::{Prop, Rel};
use std::alloc::Global;

/// An operator of contracts: `/\` or `\/` between statements, `&` or `|` between relations.
#[derive(Clone, Copy)]
pub(crate) enum Junction {
    And,
    Or,
}

impl Junction {
    /// Its mark between statements.
    pub(crate) fn prop_mark(self) -> Terminal
        ensures { result ≡ prop_mark self }
    {
        match self {
            Junction::And => Terminal::AndMark,
            Junction::Or => Terminal::OrMark,
        }
    }

    /// Its mark between relations.
    pub(crate) fn relation_mark(self) -> Terminal
        ensures { result ≡ relation_mark self }
    {
        match self {
            Junction::And => Terminal::Ampersand,
            Junction::Or => Terminal::Bar,
        }
    }

    /// The statement that it makes of two.
    pub(crate) fn of_props(self, left: Box<Prop>, right: Box<Prop>) -> Prop
        ensures { proposition_of result
            ≡ both_props self (proposition_of left.value) (proposition_of right.value) }
    {
        match self {
            Junction::And => Prop::And(left, right),
            Junction::Or => Prop::Or(left, right),
        }
    }

    /// The relation that it makes of two.
    pub(crate) fn of_relations(self, left: Box<Rel>, right: Box<Rel>) -> Rel
        ensures { relation_of result
            ≡ both_relations self (relation_of left.value) (relation_of right.value) }
    {
        match self {
            Junction::And => Rel::Inter(left, right),
            Junction::Or => Rel::Union(left, right),
        }
    }
}

/// Two parts of a tree, where the second was read too.
pub(crate) fn both<A: Drop, B: Drop>(
    first: A,
    second: Result<B, Refusal>,
) -> Result<(A, B), Refusal>
    ensures parts { IfOk result (λ both. (both.0 ≡ first) × (second ≡ Ok both.1)) }
    ensures refused { IfErr result (λ e. second ≡ Err e) }
{
    let second = second?;
    Ok((first, second))
}

/// Two operands in boxes.
#[inline(always)]
pub(crate) fn boxed<T: Drop>(alloc: Global, left: T, right: T) -> Result<(Box<T>, Box<T>), Refusal>
    ensures left { IfOk result (λ both. both.0.value ≡ left) }
    ensures right { IfOk result (λ both. both.1.value ≡ right) }
    ensures full { IfErr result (λ e. e ≡ Refusal.NoMemory) }
{
    let left = Box::new(alloc, left)?;
    let right = Box::new(alloc, right)?;
    Ok((left, right))
}
