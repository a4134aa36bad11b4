/// The checker's verdict on a refutation. The number is that of the first line at fault, from 1.
#[derive(Clone, Copy, PartialEq, Eq)]
pub enum Verdict {
    /// Each line follows from the clauses and the lines before it, and one is empty.
    Accepted,
    /// A hint names neither a given clause nor an earlier line.
    BadHint(u64),
    /// A hinted clause has neither all its literals false nor exactly one unset and the others false.
    NotUnit(u64),
    /// The hints end before a hinted clause has all its literals false.
    NoConflict(u64),
    /// No line is the empty clause.
    NoEmpty,
    /// The line's clause has a variable that isn't one of the clause list's.
    BadVariable(u64),
}
