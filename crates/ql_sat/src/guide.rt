// What guides the search. The contract of the solver doesn't mention it.
ghost use Rattle.std.specs.Prelude.{◌<◌, ◌^◌, [], IfOk, OnOk, length};
ghost use Rattle.ql_sat.specs.Settled.{IsWatched};

use crate::order::Order;
use crate::queue::Queue;
use crate::watches::Watches;
use ql_base::NoMemory;
use ql_cnf::Clauses;
use std::alloc::Global;

pub(crate) struct Guide {
    pub queue: Queue,
    pub watches: Watches,
    pub order: Order,
}

impl Drop for Guide {
    fn drop(self) {
        let Guide {
            queue: _,
            watches: _,
            order: _,
        } = self;
    }
}

impl Guide {
    pub fn new(alloc: Global, c: &Clauses) -> Result<Guide, NoMemory>
        ensures few { OnOk result (length c.now.clauses < 2 ^ 32) }
        ensures watched { IfOk result
            (λ guide. IsWatched c.now [] guide.watches.lists.items guide.watches.pairs.items
            guide.queue.done) }
    {
        Ok(Guide {
            queue: Queue::new(alloc, c)?,
            watches: Watches::new(alloc, c)?,
            order: Order::new(alloc, c.variables())?,
        })
    }
}
