// What a search knows.
use ql_cnf::Clauses;
use ql_refute::Line;

// The given clauses, and the learned ones as the lines of a refutation.
#[derive(Clone, Copy)]
pub(crate) struct Known<'a> {
    pub given: &'a Clauses,
    pub lines: &'a [Line],
}
