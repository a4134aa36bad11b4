// The state of a search.
ghost use Rattle.std.specs.Prelude.{IfOk};
ghost use Rattle.ql_sat.specs.State.{IsReady};

use crate::guide::Guide;
use crate::learning::Analysis;
use crate::trail::Trail;
use ql_base::NoMemory;
use ql_cnf::Clauses;
use ql_refute::Line;
use std::alloc::Global;

#[derive(Drop)]
pub(crate) struct Search {
    // The learned clauses, each as a line of the refutation.
    pub lines: Vec<Line>,
    pub trail: Trail,
    pub analysis: Analysis,
    pub guide: Guide,
}

impl Search {
    pub fn new(alloc: Global, c: &Clauses) -> Result<Search, NoMemory>
        ensures { IfOk result (IsReady c.now) }
    {
        Ok(Search {
            lines: Vec::new(alloc),
            trail: Trail::new(alloc, c.variables())?,
            analysis: Analysis::new(alloc, c.variables())?,
            guide: Guide::new(alloc, c)?,
        })
    }
}
