use crate::executions::member;
use crate::receipts::received;
use ql_base::{IdSet, NoMemory};
use ql_exec::Execution;
use ql_plain_holder::PlainHolder;
use ql_replica::Replica;
use ql_test_inputs::{draft, push};
use std::alloc::Global;
use std::test::Fail;

// Pseudo-random numbers, each from the one before: the generator of Knuth's MMIX.
#[derive(Drop)]
struct Numbers {
    state: u64,
}

impl Numbers {
    fn below(&mut self, bound: u32) -> u32 {
        self.state = self
            .state
            .wrapping_mul(6_364_136_223_846_793_005)
            .wrapping_add(1_442_695_040_888_963_407);
        if bound == 0 {
            0
        } else {
            ((self.state >> 33) % u64::from(bound)) as u32
        }
    }
}

#[test]
fn both_answer_the_same(rt: HostRuntime) -> Result<(), Fail> {
    for seed in 0..20 {
        let mut numbers = Numbers { state: seed };
        let x = random_execution(rt.alloc(), &mut numbers)?;
        assert!(rt; agree(rt.alloc(), &x, &mut numbers)?, "{seed}");
    }
    Ok(())
}

// Effects of two objects and three sessions, some of them in transactions.
fn random_execution(alloc: Global, numbers: &mut Numbers) -> Result<Execution, NoMemory> {
    let mut x = Execution::new(alloc);
    let mut run = 1u32;
    for _ in 0..40 {
        if numbers.below(3) == 0 {
            run = run.wrapping_add(1);
        }
        let object = numbers.below(2);
        let seen = some_on(alloc, &x, object, numbers)?;
        let session = numbers.below(3);
        let of = if numbers.below(2) == 0 {
            run.wrapping_mul(3).wrapping_add(session)
        } else {
            0
        };
        push(&mut x, draft(alloc, object, session, member(of), seen))?;
    }
    Ok(x)
}

// About a quarter of the effects on an object.
fn some_on(
    alloc: Global,
    x: &Execution,
    object: u32,
    numbers: &mut Numbers,
) -> Result<IdSet, NoMemory> {
    let mut seen = IdSet::new(alloc);
    for (k, effect) in x.effects().iter().enumerate() {
        if effect.object.0 == object && numbers.below(4) == 0 {
            seen.insert(k as u32 + 1)?;
        }
    }
    Ok(seen)
}

// Lets both holders receive packages at random, and returns whether all their answers are the same.
fn agree(alloc: Global, x: &Execution, numbers: &mut Numbers) -> Result<bool, NoMemory> {
    let mut ids = Vec::new(alloc);
    for _ in 0..120 {
        ids.push(numbers.below(x.len()).wrapping_add(1))?;
    }
    let mut out = Vec::new(alloc);
    let mut plain_out = Vec::new(alloc);
    received::<Replica>(alloc, x, &ids, true, &mut out)?;
    received::<PlainHolder>(alloc, x, &ids, true, &mut plain_out)?;
    Ok(out.as_slice() == plain_out.as_slice())
}
