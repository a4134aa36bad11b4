use ql_base::{NoMemory, Word, push_bytes};
use ql_eval::{Env, eval, try_eval};
use ql_lang::Expr;
use ql_parse::parse_program;
use ql_test_inputs::{check_table, spelled};
use ql_value::{Value, order, parse_value, print_value};
use std::alloc::Global;
use std::cmp::Ordering;
use std::test::Fail;

// The names in scope and the texts of their values.
const NAMES: &str = r#"
n = 7
big = 9223372036854775807
low = -9223372036854775808
yes = true
t = "ab"
s = {1, 2, 3}
words = {"a", "b"}
none = {}
m = {"a": 1, "b": 2}
deep = {"a": 9223372036854775807, "b": 1, "c": -5}
empty_map = {:}
flags = {1: true, 2: false}
"#;

// Expressions and the texts of their values, from an independent implementation. The folder `cases` has more.
const EXPRESSIONS: &str = r#"
if has(m, "a") then get(m, "a", 0) + 1 else 0 -> 2
add(s, sum(m) * size(s)) -> {1, 2, 3, 9}
not has(add(none, t), "ab") or get(flags, 1, false) -> true
"#;

#[test]
fn expressions_have_these_values(rt: HostRuntime) -> Result<(), Fail> {
    let env = in_scope(rt.alloc())?;
    check_table(rt.alloc(), EXPRESSIONS, |alloc, text| {
        evaluated(alloc, &env, text)
    })
}

fn in_scope(alloc: Global) -> Result<Env, NoMemory> {
    let mut pairs = Vec::new(alloc);
    for row in NAMES.lines() {
        let (name, text) = row.split_once(" = ").unwrap_or(("", ""));
        if let Some(pair) = bound(alloc, name.as_bytes(), text.as_bytes()) {
            pairs.push(pair)?;
        }
    }
    Ok(Env::of(pairs))
}

fn bound(alloc: Global, name: &[u8], text: &[u8]) -> Option<(Word, Value)> {
    if name.is_empty() || name.len() > 32 {
        return None;
    }
    let (value, _) = parse_value(alloc, text, 0).ok()?;
    Some((Word::of(name), value))
}

fn evaluated(alloc: Global, env: &Env, text: &str) -> Result<Vec<u8>, NoMemory> {
    let mut source = spelled(alloc, "type x { op q(): int { contract true; answer ")?;
    push_bytes(&mut source, text.as_bytes())?;
    push_bytes(&mut source, b"; } }")?;
    if source.len() > 4096 {
        return spelled(alloc, "too long");
    }
    let Ok(program) = parse_program(alloc, &source) else {
        return spelled(alloc, "no expression");
    };
    for declared in program.types.items() {
        for op in declared.ops.items() {
            return value_text(alloc, env, &op.answer);
        }
    }
    spelled(alloc, "no operation")
}

fn value_text(alloc: Global, env: &Env, expression: &Expr) -> Result<Vec<u8>, NoMemory> {
    let Some(value) = try_eval(alloc, expression, env)? else {
        return spelled(alloc, "no value");
    };
    let same = eval(alloc, expression, env)?;
    if order(&value, &same) != Ordering::Equal {
        return spelled(alloc, "two values");
    }
    let mut out = Vec::new(alloc);
    print_value(&mut out, &value)?;
    Ok(out)
}
