use crate::axiom::Axiom;
use crate::axiom::Axiom::{
    AlikeLeft, AlikeRight, FromOne, Irreflexive, OfSession, Reflexive, Symmetric, ToOne,
    Transaction, Transitive, Within,
};
use crate::axiom::TransactionAxiom::{Contiguous, InOne, OneSession, Whole};
use ql_atoms::PairKind::{Eq, Hb, Hbo, SameObj, SameTxn, So, Vis};

/// Equality: an equivalence, and equal effects are alike in each other relation.
pub(crate) const EQUALITY: [Axiom; 15] = [
    Reflexive(Eq),
    Symmetric(Eq),
    Transitive(Eq),
    AlikeLeft(So),
    AlikeRight(So),
    AlikeLeft(SameObj),
    AlikeRight(SameObj),
    AlikeLeft(Vis),
    AlikeRight(Vis),
    AlikeLeft(Hbo),
    AlikeRight(Hbo),
    AlikeLeft(Hb),
    AlikeRight(Hb),
    AlikeLeft(SameTxn),
    AlikeRight(SameTxn),
];

/// Session order: an order of each session's effects.
pub(crate) const SESSION_ORDER: [Axiom; 3] = [Transitive(So), FromOne, ToOne];

/// Objects: an equivalence, within which effects see one another.
pub(crate) const OBJECTS: [Axiom; 4] = [
    Reflexive(SameObj),
    Symmetric(SameObj),
    Transitive(SameObj),
    Within(Vis, SameObj),
];

/// Happens-before on one object.
pub(crate) const OBJECT_ORDER: [Axiom; 4] = [
    Within(Vis, Hbo),
    OfSession,
    Transitive(Hbo),
    Within(Hbo, SameObj),
];

/// Happens-before.
pub(crate) const ORDER: [Axiom; 5] = [
    Within(Hbo, Hb),
    Within(So, Hb),
    Within(Vis, Hb),
    Transitive(Hb),
    Irreflexive(Hb),
];

/// Transactions: an equivalence, each class within one session, with no other effect of the session between
/// its effects; and the current effects are one class.
pub(crate) const TRANSACTIONS: [Axiom; 7] = [
    Reflexive(SameTxn),
    Symmetric(SameTxn),
    Transitive(SameTxn),
    Transaction(OneSession),
    Transaction(Contiguous),
    Transaction(InOne),
    Transaction(Whole),
];
