ghost use Rattle.std.specs.Prelude.{◌≡◌, IfOk};

use ql_base::NoMemory;
use ql_cnf::Clause;
use std::alloc::Global;
use std::marker::Model;

/// A clause that a line is derived from, each numbered from 1.
#[derive(Clone, Copy)]
pub enum Hint {
    /// A clause of the list that is refuted.
    Given(u32),
    /// The clause of an earlier line.
    Earlier(u64),
}

/// Hints in the order in which the checker takes them.
pub struct Hints {
    items: Vec<Hint>,
}

// Written out, so that a crate above proves one call for it.
impl Drop for Hints {
    fn drop(self) {
        let Hints { items: _ } = self;
    }
}

impl Model for Hints {
    ghost use Rattle.std.specs.Prelude.{List};
    ghost use Rattle.ql_refute.specs.declared.refutation.Hint.{Hint};

    ghost Value = { List Hint };

    ghost view = { λ h. h.items.items };
}

impl Hints {
    /// These hints.
    pub fn of(items: Vec<Hint>) -> Hints
        ensures { result ≡ items.items }
    {
        Hints { items }
    }

    /// The hints.
    pub fn items(&self) -> &[Hint]
        ensures { result.now ≡ self.now }
    {
        &self.items
    }

    /// The hints.
    pub fn into_items(self) -> Vec<Hint>
        ensures { result.items ≡ self }
    {
        let Hints { items } = self;
        items
    }
}

/// A clause, and the clauses from which it follows by unit propagation.
#[derive(Drop)]
pub struct Line {
    pub clause: Clause,
    pub hints: Hints,
}

impl Line {
    fn copy(&self, alloc: Global) -> Result<Line, NoMemory>
        ensures { IfOk result (λ line. line ≡ self.now) }
    {
        let literals = Vec::from_slice(alloc, self.clause.items())?;
        let hints = Vec::from_slice(alloc, self.hints.items())?;
        Ok(Line {
            clause: Clause::of(literals),
            hints: Hints::of(hints),
        })
    }
}

/// The lines of a refutation, in order.
pub struct Lines {
    items: Vec<Line>,
}

// Written out, so that a crate above proves one call for it.
impl Drop for Lines {
    fn drop(self) {
        let Lines { items: _ } = self;
    }
}

impl Model for Lines {
    ghost use Rattle.std.specs.Prelude.{List};
    ghost use Rattle.ql_refute.specs.declared.refutation.Line.{Line};

    ghost Value = { List Line };

    ghost view = { λ l. l.items.items };
}

impl Lines {
    /// These lines.
    pub fn of(items: Vec<Line>) -> Lines
        ensures { result ≡ items.items }
    {
        Lines { items }
    }

    /// The lines.
    pub fn items(&self) -> &[Line]
        ensures { result.now ≡ self.now }
    {
        &self.items
    }

    /// The lines.
    pub fn into_items(self) -> Vec<Line>
        ensures { result.items ≡ self }
    {
        let Lines { items } = self;
        items
    }
}

/// Clauses that each follow from a clause list and those before them, down to the empty one.
#[derive(Drop)]
pub struct Refutation {
    pub lines: Lines,
}

impl Refutation {
    /// An equal refutation.
    pub fn copy(&self, alloc: Global) -> Result<Refutation, NoMemory>
        ensures { IfOk result (λ refutation. refutation ≡ self.now) }
    {
        let lines = self.lines.items();
        let mut copies = Vec::with_capacity(alloc, lines.len())?;
        for line in lines {
            copies.push(line.copy(alloc)?)?;
        }
        Ok(Refutation {
            lines: Lines::of(copies),
        })
    }
}
