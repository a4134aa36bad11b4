use ql_base::{NoMemory, push_bytes, push_number};
use ql_exec::{Effect, Member, Payload};
use ql_execution_files::parse_execution;
use ql_test_inputs::{check_table, declared, spelled};
use ql_value::{Values, print_value};
use std::alloc::Global;
use std::test::Fail;

const SOURCE: &str =
    "type t { op w(): unit { contract true; answer unit; } op r(): unit { contract true; answer unit; } }
type u { op v(): unit { contract true; answer unit; } }
transaction p { uses w; contract true; }
transaction q { uses r; contract true; }";

// Files, and what they contain: the object, the operation, the arguments, the answer, the payload, the session, the
// transaction, the stamp and the seen ids of each effect. From an independent implementation.
const FILES: &str = r#"
execution␊  effect   1  y  v  ("a b",   {1, 2},{"k":  -3,"l": 4}, {}, {:})   =  {true}   emit  ("= -")   session  255  txn  4294967295:q  stamp  1  vis  ␊end␊ -> 0 2 ("a b"|{1, 2}|{"k": -3, "l": 4}|{}|{:}) {true} ("= -") 255 4294967295:1 1 []
execution␊effect 1 x w () = unit emit () session 1 txn - stamp 1 vis␊end␊ -> 0 0 () unit () 1 - 1 []
execution␊effect 1 x w (7) = unit emit (7) session 2 txn - stamp 1 vis␊effect 2 x r () = 0 emit - session 1 txn 1:p stamp 1 vis␊effect 3 x r () = 7 emit - session 1 txn 1:p stamp 2 vis 1␊end␊ -> 0 0 (7) unit (7) 2 - 1 []; 0 1 () 0 - 1 1:0 1 []; 0 1 () 7 - 1 1:0 2 [1]
"#;

#[test]
fn texts_are_files(rt: HostRuntime) -> Result<(), Fail> {
    check_table(rt.alloc(), FILES, read)
}

fn read(alloc: Global, file: &str) -> Result<Vec<u8>, NoMemory> {
    let Some(typed) = declared(alloc, SOURCE) else {
        return spelled(alloc, "no source");
    };
    match parse_execution(alloc, &typed, file.as_bytes()) {
        Ok(execution) => effects_text(alloc, execution.effects()),
        Err(_) => spelled(alloc, "a fault"),
    }
}

fn effects_text(alloc: Global, effects: &[Effect]) -> Result<Vec<u8>, NoMemory> {
    let mut out = Vec::new(alloc);
    for effect in effects {
        if !out.is_empty() {
            push_bytes(&mut out, b"; ")?;
        }
        push_call(&mut out, effect)?;
        push_place(&mut out, effect)?;
    }
    Ok(out)
}

fn push_call(out: &mut Vec<u8>, effect: &Effect) -> Result<(), NoMemory> {
    push_number(out, effect.object.0)?;
    push_bytes(out, b" ")?;
    push_number(out, effect.op.0)?;
    push_bytes(out, b" ")?;
    push_values(out, &effect.args)?;
    push_bytes(out, b" ")?;
    print_value(out, &effect.answer)
}

fn push_place(out: &mut Vec<u8>, effect: &Effect) -> Result<(), NoMemory> {
    push_payload(out, &effect.payload)?;
    push_number(out, effect.session.0)?;
    push_member(out, effect.member)?;
    push_number(out, effect.stamp)?;
    push_seen(out, effect.seen.items())
}

fn push_values(out: &mut Vec<u8>, values: &Values) -> Result<(), NoMemory> {
    let mut mark: &[u8] = b"(";
    for value in values.items() {
        push_bytes(out, mark)?;
        print_value(out, value)?;
        mark = b"|";
    }
    push_bytes(
        out,
        if values.items().is_empty() {
            b"()"
        } else {
            b")"
        },
    )
}

fn push_payload(out: &mut Vec<u8>, payload: &Payload) -> Result<(), NoMemory> {
    push_bytes(out, b" ")?;
    match payload {
        Payload::Nothing => push_bytes(out, b"-")?,
        Payload::Emitted(values) => push_values(out, values)?,
    }
    push_bytes(out, b" ")
}

fn push_member(out: &mut Vec<u8>, member: Member) -> Result<(), NoMemory> {
    match member {
        Member::Alone => push_bytes(out, b" - "),
        Member::Inside(run, name) => {
            push_bytes(out, b" ")?;
            push_number(out, run.0)?;
            push_bytes(out, b":")?;
            push_number(out, name.0)?;
            push_bytes(out, b" ")
        }
    }
}

fn push_seen(out: &mut Vec<u8>, seen: &[u32]) -> Result<(), NoMemory> {
    let mut mark: &[u8] = b" [";
    for id in seen {
        push_bytes(out, mark)?;
        push_number(out, *id)?;
        mark = b",";
    }
    push_bytes(out, if seen.is_empty() { b" []" } else { b"]" })
}
