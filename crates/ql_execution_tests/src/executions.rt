use ql_base::{DeclId, EffId, NoMemory, ObjId, OpId, RunId, SessId, push_bytes, push_number};
use ql_exec::{Draft, Effect, ExecFault, Execution, Member, Payload};
use ql_test_inputs::{check_table, field, id_set_of, number, spelled, with_number};
use ql_value::{Value, Values};
use std::alloc::Global;
use std::test::Fail;

// Effects that are pushed one after another: an object, a session, a begun transaction with its declared name (or -),
// and the seen ids; and the effect, or the fault and its effect.
const PUSHED: &str = "
0 0 - sees 1 -> NotForward 1
0 0 - sees -> effect 1 stamp 1 sees
1 0 - sees -> effect 2 stamp 2 sees
0 0 - sees 0 -> NotForward 3
0 0 - sees 2 -> OtherObject 3
0 0 - sees 2 3 -> NotForward 3
0 1 1:5 sees 1 -> effect 3 stamp 2 sees 1
0 1 1:5 sees 1 3 -> effect 4 stamp 3 sees 1 3
0 1 1:6 sees -> SplitTxn 5
0 2 1:5 sees -> SplitTxn 5
0 2 1:5 sees 2 -> OtherObject 5
0 2 - sees 4 -> effect 5 stamp 4 sees 4
1 1 1:5 sees -> effect 6 stamp 4 sees
1 1 - sees -> effect 7 stamp 5 sees
1 1 1:5 sees -> SplitTxn 8
1 3 2:5 sees 6 7 -> effect 8 stamp 6 sees 6 7
";

#[test]
fn refuses_what_no_effect_can_be(rt: HostRuntime) -> Result<(), Fail> {
    let mut execution = Execution::new(rt.alloc());
    check_table(rt.alloc(), PUSHED, |alloc, row| {
        pushed(alloc, &mut execution, row)
    })
}

fn pushed(alloc: Global, execution: &mut Execution, row: &str) -> Result<Vec<u8>, NoMemory> {
    if execution.len() >= 100 {
        return spelled(alloc, "too many");
    }
    match execution.push(draft(alloc, row)?) {
        Ok(id) if 1 <= id.0 && id.0 <= execution.len() => {
            effect_text(alloc, id, execution.get(id))
        }
        Ok(_) => spelled(alloc, "no effect"),
        Err(ExecFault::NotForward(id)) => with_number(alloc, "NotForward ", u64::from(id.0)),
        Err(ExecFault::OtherObject(id)) => with_number(alloc, "OtherObject ", u64::from(id.0)),
        Err(ExecFault::SplitTxn(id)) => with_number(alloc, "SplitTxn ", u64::from(id.0)),
        Err(ExecFault::NoMemory) => Err(NoMemory),
    }
}

fn effect_text(alloc: Global, id: EffId, effect: &Effect) -> Result<Vec<u8>, NoMemory> {
    let mut out = with_number(alloc, "effect ", u64::from(id.0))?;
    push_bytes(&mut out, b" stamp ")?;
    push_number(&mut out, effect.stamp)?;
    push_bytes(&mut out, b" sees")?;
    for id in effect.seen.items() {
        push_bytes(&mut out, b" ")?;
        push_number(&mut out, *id)?;
    }
    Ok(out)
}

fn draft(alloc: Global, row: &str) -> Result<Draft, NoMemory> {
    let (_, seen) = row.split_once("sees").unwrap_or((row, ""));
    Ok(Draft {
        object: ObjId(number(row, 0)),
        op: OpId(0),
        args: Values::of(Vec::new(alloc)),
        payload: Payload::Nothing,
        answer: Value::Unit,
        session: SessId(number(row, 1)),
        member: member(field(row, 2)),
        seen: id_set_of(alloc, seen)?,
    })
}

fn member(text: &str) -> Member {
    match text.split_once(':') {
        Some((run, name)) => Member::Inside(RunId(number(run, 0)), DeclId(number(name, 0))),
        None => Member::Alone,
    }
}

// An execution whose last effect is taken back, the effect that replaces it, and how many effects a copy of the first
// execution has.
const STEPS_BACK: &str = "
0 1 1:5 sees; 0 2 - sees 1; 0 1 - sees 2 then 0 1 1:5 sees 1 -> effect 3 stamp 2 sees 1, copy of 3
";

#[test]
fn goes_on_after_a_step_back(rt: HostRuntime) -> Result<(), Fail> {
    check_table(rt.alloc(), STEPS_BACK, stepped_back)
}

fn stepped_back(alloc: Global, row: &str) -> Result<Vec<u8>, NoMemory> {
    let (first, then) = row.split_once(" then ").unwrap_or((row, ""));
    let drafts = drafts(alloc, first)?;
    if drafts.len() > 100 {
        return spelled(alloc, "too many");
    }
    let Ok(mut execution) = Execution::from_effects(alloc, drafts) else {
        return spelled(alloc, "no execution");
    };
    let copy = execution.copy()?;
    step_back(&mut execution);
    let mut out = pushed(alloc, &mut execution, then)?;
    push_bytes(&mut out, b", copy of ")?;
    push_number(&mut out, copy.len())?;
    Ok(out)
}

fn step_back(execution: &mut Execution) {
    if execution.len() >= 1 {
        execution.pop();
    }
}

fn drafts(alloc: Global, text: &str) -> Result<Vec<Draft>, NoMemory> {
    let mut drafts = Vec::new(alloc);
    for row in text.split("; ") {
        drafts.push(draft(alloc, row)?)?;
    }
    Ok(drafts)
}
