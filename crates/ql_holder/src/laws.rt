ghost use Rattle.std.specs.Prelude.{◌≡◌, ◌↔◌, ℕ, ◌||◌, nat_eq, List, ◌++◌};
ghost use Rattle.ql_base.specs.IdLists.{IsAscending, has_id, with_id, union_of};
ghost use Rattle.ql_exec.specs.declared.effect.Effect.{Effect};
ghost use Rattle.ql_exec.specs.Execution.{IsExecution};
ghost use Rattle.ql_holder.specs.Closed.{Closed, Has};
ghost use Rattle.ql_holder.specs.Needs.{AreThere, AreWhole, IsPackage, JoinsNone, Needs};

/// The law of the closed part of a set of effects: it is a subset of the set, it has all that its members
/// need, each subset that has all that it needs is within it, and it grows with the set.
pub fn closed_parts()
    ensures member { (x : List Effect) (ids : List ℕ) (a : ℕ) → Closed (Needs x) (Has ids) a → Has ids a }
    ensures needed { (x : List Effect) (ids : List ℕ) (a b : ℕ) → Closed (Needs x) (Has ids) a
        → Needs x a b → Closed (Needs x) (Has ids) b }
    ensures greatest { (x : List Effect) (ids part : List ℕ) → ((a : ℕ) → Has part a → Has ids a)
        → ((a b : ℕ) → Has part a → Needs x a b → Has part b) → (a : ℕ) → Has part a
        → Closed (Needs x) (Has ids) a }
    ensures larger { (x : List Effect) (ids more : List ℕ) → ((a : ℕ) → Has ids a → Has more a)
        → (a : ℕ) → Closed (Needs x) (Has ids) a → Closed (Needs x) (Has more) a }
{}

/// The law that the closed part of a set of effects stays the same in a longer execution that adds no effect
/// to the transaction of one of them.
pub fn closed_part_stays()
    ensures { (x more : List Effect) (ids : List ℕ) → IsExecution (x ++ more) → AreThere x ids
        → JoinsNone x more ids → (a : ℕ) → Closed (Needs x) (Has ids) a
        ↔ Closed (Needs (x ++ more)) (Has ids) a }
{}

/// The law of packages: a set of whole transactions has all of a package or none of it, and with the package
/// added it is still one; and in a longer execution that adds no effect to their transactions, the package is
/// still a package, and the set still has whole transactions.
pub fn packages_are_whole()
    ensures together { (x : List Effect) (ids set : List ℕ) → IsPackage x ids → AreWhole x set
        → (a : ℕ) → Has ids a → Has set a → (b : ℕ) → Has ids b → Has set b }
    ensures added { (x : List Effect) (before ids : List ℕ) → AreWhole x before → IsPackage x ids
        → AreWhole x (union_of before ids) }
    ensures longer { (x more : List Effect) (ids : List ℕ) → AreWhole x ids → JoinsNone x more ids → AreWhole (x ++ more) ids }
    ensures carried { (x more : List Effect) (ids : List ℕ) → IsPackage x ids → JoinsNone x more ids
        → IsPackage (x ++ more) ids }
{}

/// The law of ascending lists of ids as sets: what a list has after one more id is added, what a union has, and
/// that two lists with the same ids are equal.
pub fn lists_as_sets()
    ensures inserted { (ids : List ℕ) (id a : ℕ)
        → has_id (with_id ids id) a ≡ (nat_eq id a || has_id ids a) }
    ensures union { (ids others : List ℕ) (a : ℕ)
        → has_id (union_of ids others) a ≡ (has_id ids a || has_id others a) }
    ensures same { (ids others : List ℕ) → IsAscending ids → IsAscending others
        → ((a : ℕ) → Has ids a → Has others a) → ((a : ℕ) → Has others a → Has ids a)
        → ids ≡ others }
{}
