use ql_cnf::Assignment;
use ql_refute::Refutation;

/// Whether a clause list can be satisfied, with the evidence.
#[derive(Drop)]
pub enum Decided {
    /// An assignment that satisfies the clauses.
    Model(Assignment),
    /// A refutation of the clauses.
    Refuted(Refutation),
}
