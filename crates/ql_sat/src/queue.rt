// What is still to be propagated.
ghost use Rattle.std.specs.Prelude.{◌≡◌, ◌<◌, ◌^◌, IfOk, length};

use ql_base::NoMemory;
use ql_cnf::Clauses;
use std::alloc::Global;

#[derive(Drop)]
pub(crate) struct Queue {
    // The numbers of the given clauses with fewer than two literals that weren't read yet.
    pub units: Vec<u32>,
    // The steps of the trail before this index are propagated.
    pub done: usize,
}

impl Queue {
    pub fn new(alloc: Global, c: &Clauses) -> Result<Queue, NoMemory>
        ensures done { IfOk result (λ queue. queue.done ≡ 0) }
        ensures few { length c.now.clauses < 2 ^ 32 }
    {
        let mut units = Vec::new(alloc);
        for k in 0..c.len() {
            if c.clause(k + 1).items().len() < 2 {
                units.push(k + 1)?;
            }
        }
        Ok(Queue { units, done: 0 })
    }
}
