ghost use Rattle.std.specs.Prelude.{◌≡◌, ◌+◌, ◌^◌, ◌<◌, IfOk, OnOk, length};
ghost use Rattle.ql_session.specs.Executions.{notes_of};

use ql_base::{EffId, IdSet, NoMemory, ObjId, SessId, push_bytes, push_number};
use ql_exec::{Effect, Execution, Member};
use ql_session::Sessions;
use ql_test_inputs::{check_table, draft, id_set, id_set_of, number};
use std::alloc::Global;
use std::test::Fail;

// Session 1 made effects 7, 3 and 9, the last on another object, and session 2 made effect 2.
fn notes(alloc: Global) -> Result<Sessions, NoMemory>
    ensures { IfOk result (λ sessions. length sessions ≡ 4) }
{
    let mut sessions = Sessions::new(alloc);
    sessions.note(SessId(1), ObjId(0), EffId(7), 4)?;
    sessions.note(SessId(2), ObjId(0), EffId(2), 1)?;
    sessions.note(SessId(1), ObjId(0), EffId(3), 5)?;
    sessions.note(SessId(1), ObjId(6), EffId(9), 8)?;
    Ok(sessions)
}

// The least effect that a session made on an object and that a view lacks.
const LACKED: &str = "
session 1 object 0 view -> 3
session 1 object 0 view 3 -> 7
session 1 object 0 view 3 7 -> none
session 2 object 0 view 3 7 -> 2
session 3 object 9 view 3 7 -> none
";

#[test]
fn the_least_effect_that_a_view_lacks(rt: HostRuntime) -> Result<(), Fail> {
    check_table(rt.alloc(), LACKED, lacked)
}

fn lacked(alloc: Global, row: &str) -> Result<Vec<u8>, NoMemory> {
    let (_, ids) = row.split_once("view").unwrap_or((row, ""));
    let view = id_set_of(alloc, ids)?;
    let sessions = notes(alloc)?;
    least(
        alloc,
        sessions.least_missing(SessId(number(row, 1)), ObjId(number(row, 3)), &view),
    )
}

fn least(alloc: Global, found: Option<EffId>) -> Result<Vec<u8>, NoMemory> {
    let mut out = Vec::new(alloc);
    match found {
        Some(id) => push_number(&mut out, id.0)?,
        None => push_bytes(&mut out, b"none")?,
    }
    Ok(out)
}

#[test]
fn the_last_note_goes_away(rt: HostRuntime) -> Result<(), Fail> {
    let mut sessions = notes(rt.alloc())?;
    assert!(rt; are_all_there(&sessions));
    sessions.undo();
    assert!(rt; is_last_gone(&sessions));
    Ok(())
}

fn are_all_there(sessions: &Sessions) -> bool {
    sessions.last_stamp(SessId(1)) == 8
        && sessions.last_stamp(SessId(4)) == 0
        && sessions.on(ObjId(0)) == [7, 2, 3].as_slice()
}

fn is_last_gone(sessions: &Sessions) -> bool {
    sessions.last_stamp(SessId(1)) == 5 && sessions.on(ObjId(6)).is_empty()
}

fn push(
    x: &mut Execution,
    alloc: Global,
    session: u32,
    object: u32,
    seen: IdSet,
) -> Result<(), NoMemory>
    requires { length x.old < 9 }
    ensures { OnOk result (length x.new ≡ length x.old + 1) }
{
    match x.push(draft(alloc, object, session, Member::Alone, seen)) {
        Err(_) => Err(NoMemory),
        Ok(_) => Ok(()),
    }
}

fn noted(alloc: Global, effects: &[Effect]) -> Result<Sessions, NoMemory>
    requires { length effects.now < 2 ^ 32 }
    ensures { IfOk result (λ table. table ≡ notes_of effects.now) }
{
    let mut table = Sessions::new(alloc);
    for (k, effect) in effects.iter().enumerate() {
        let id = EffId(k as u32 + 1);
        table.note(effect.session, effect.object, id, effect.stamp)?;
    }
    Ok(table)
}

// Session 1 writes on objects 0 and 1, and session 2 saw the second write.
fn three_writes(alloc: Global) -> Result<Execution, NoMemory>
    ensures { IfOk result (λ x. length x ≡ 3) }
{
    let mut x = Execution::new(alloc);
    push(&mut x, alloc, 1, 0, IdSet::new(alloc))?;
    push(&mut x, alloc, 1, 1, IdSet::new(alloc))?;
    push(&mut x, alloc, 2, 1, id_set(alloc, &[2])?)?;
    Ok(x)
}

// The first write happened before what session 2 does next, on whatever object.
#[test]
fn what_happened_before_by_way_of_another_object(rt: HostRuntime) -> Result<(), Fail> {
    let alloc = rt.alloc();
    assert!(rt; misses_the_first(alloc, &three_writes(alloc)?)?);
    Ok(())
}

fn misses_the_first(alloc: Global, x: &Execution) -> Result<bool, NoMemory>
    requires { length x.now < 2 ^ 32 }
{
    let sessions = noted(alloc, x.effects())?;
    Ok(
        lacks_the_first(&sessions, x, &id_set(alloc, &[])?)?
            && has_the_first(&sessions, x, &id_set(alloc, &[1])?)?,
    )
}

fn lacks_the_first(sessions: &Sessions, x: &Execution, view: &IdSet) -> Result<bool, NoMemory>
    requires { sessions.now ≡ notes_of x.now }
{
    let (two, three, zero) = (SessId(2), SessId(3), ObjId(0));
    Ok(
        sessions.least_missing_wide(two, zero, view, x)? == Some(EffId(1))
            && sessions.least_missing(two, zero, view).is_none()
            && sessions.least_missing_wide(three, zero, view, x)?.is_none(),
    )
}

fn has_the_first(sessions: &Sessions, x: &Execution, view: &IdSet) -> Result<bool, NoMemory>
    requires { sessions.now ≡ notes_of x.now }
{
    let missing = sessions.least_missing_wide(SessId(2), ObjId(0), view, x)?;
    Ok(missing.is_none())
}
