use ql_base::{NoMemory, push_bytes, push_number};
use ql_eval::try_answer;
use ql_exec::{Answered, Effect, Execution, Payload};
use ql_execution_files::parse_execution;
use ql_test_inputs::{check_table, declared, push_values, spelled};
use ql_typing::Typed;
use ql_value::{Value, print_value};
use std::alloc::Global;
use std::test::Fail;

const BANK: &str = "type account { state balance: int = 0;
op deposit(n: int): unit { contract true; answer unit; emit p: int = n when true; apply { balance := balance + p; } }
op withdraw(n: int): bool { contract true; answer balance >= n;
  emit p: int = n when balance >= n; apply { balance := balance - p; } }
op getbalance(): int { contract true; answer balance; } }";

// An execution in which each call answers and emits by what it sees, from an independent implementation. Some see an effect
// and not what it saw, which no run does.
const DEPOSITS: &str = "execution
effect 1 x deposit (10) = unit emit (10) session 1 txn - stamp 1 vis
effect 2 x deposit (5) = unit emit (5) session 1 txn - stamp 2 vis
effect 3 x getbalance () = 0 emit - session 2 txn - stamp 1 vis
effect 4 x getbalance () = 15 emit - session 2 txn - stamp 3 vis 1 2 3
effect 5 x withdraw (15) = true emit (15) session 1 txn - stamp 3 vis 1 2
effect 6 x withdraw (1) = false emit - session 2 txn - stamp 4 vis 1 2 5
effect 7 x getbalance () = 5 emit - session 2 txn - stamp 5 vis 2 4 6
effect 8 y deposit (9223372036854775807) = unit emit (9223372036854775807) session 1 txn - stamp 4 vis
effect 9 y deposit (1) = unit emit (1) session 1 txn - stamp 5 vis 8
effect 10 y getbalance () = 9223372036854775807 emit - session 1 txn - stamp 6 vis 8 9
end";

// How many effects of the execution have the answer and the payload that it states.
const EXECUTIONS: &str = "
deposits -> 10 of 10
";

#[test]
fn calls_answer_by_what_they_see(rt: HostRuntime) -> Result<(), Fail> {
    check_table(rt.alloc(), EXECUTIONS, answered)
}

fn answered(alloc: Global, _name: &str) -> Result<Vec<u8>, NoMemory> {
    let Some(typed) = declared(alloc, BANK) else {
        return spelled(alloc, "no source");
    };
    let Ok(execution) = parse_execution(alloc, &typed, DEPOSITS.as_bytes()) else {
        return spelled(alloc, "no execution");
    };
    let mut out = Vec::new(alloc);
    push_number(&mut out, count_answered(alloc, &typed, &execution)?)?;
    push_bytes(&mut out, b" of ")?;
    push_number(&mut out, execution.len())?;
    Ok(out)
}

fn count_answered(alloc: Global, typed: &Typed, execution: &Execution) -> Result<u32, NoMemory> {
    let mut count = 0u32;
    for effect in execution.effects() {
        if is_answered(alloc, typed, execution, effect)? {
            count = count.saturating_add(1);
        }
    }
    Ok(count)
}

fn is_answered(
    alloc: Global,
    typed: &Typed,
    execution: &Execution,
    effect: &Effect,
) -> Result<bool, NoMemory> {
    let expected = text(alloc, &effect.answer, &effect.payload)?;
    match try_answer(
        alloc,
        typed,
        effect.op,
        &effect.args,
        execution,
        &effect.seen,
    )? {
        Some(Answered { answer, payload }) => {
            Ok(text(alloc, &answer, &payload)?.as_slice() == expected.as_slice())
        }
        None => Ok(false),
    }
}

fn text(alloc: Global, answer: &Value, payload: &Payload) -> Result<Vec<u8>, NoMemory> {
    let mut out = Vec::new(alloc);
    print_value(&mut out, answer)?;
    push_bytes(&mut out, b" emit ")?;
    match payload {
        Payload::Nothing => push_bytes(&mut out, b"-")?,
        Payload::Emitted(values) => push_values(&mut out, values)?,
    }
    Ok(out)
}
