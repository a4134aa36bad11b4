use crate::texts::once_and_again;
use ql_base::NoMemory;
use ql_lang::print_contract;
use ql_parse::parse_contract;
use ql_test_inputs::{check_table, spelled};
use std::alloc::Global;
use std::test::Fail;

// Contracts, and how an independent implementation prints them.
const PRINTED: &str = r"
true -> true
((true)) -> true
forall a: f. sameobj(a, cur) => vis(a, cur) \/ vis(cur, a) \/ a = cur -> forall a: f. sameobj(a, cur) => ((vis(a, cur) \/ vis(cur, a)) \/ a = cur)
forall a, b, c. txn{a}{b, c} /\ sameobj(b, c) /\ vis(b, a) => vis(c, a) -> forall a, b, c. ((txn{a}{b, c} /\ sameobj(b, c)) /\ vis(b, a)) => vis(c, a)
forall a: f | g, b. [vis | so & [hb]](a, b) => (a = b => cur = a) -> forall a: f | g, b. [vis | [so & hb]](a, b) => (a = b => cur = a)
forall a,b:f|g|h,c.eq(a,b) -> forall a, b: f | g | h, c. a = b
true=>true=>true -> true => (true => true)
(true=>true)=>true -> (true => true) => true
true/\true/\true -> (true /\ true) /\ true
true/\(true/\true) -> true /\ (true /\ true)
true\/true/\true -> true \/ (true /\ true)
(true\/true)/\true -> (true \/ true) /\ true
[[vis]](a, b) -> vis(a, b)
[[eq]](a, b) -> a = b
[vis|so|soo](a,cur) -> [[vis | so] | soo](a, cur)
[vis|[so|soo]](a,cur) -> [vis | [so | soo]](a, cur)
[vis&so|hb&hbo](a,cur) -> [[vis & so] | [hb & hbo]](a, cur)
[[vis|so]&hb](a,cur) -> [[vis | so] & hb](a, cur)
txn{a,b}{c} -> txn{a, b}{c}
txn { cur } { cur , a } -> txn{cur}{cur, a}
hb(a,b)/\hbo(a,b)\/soo(b,a)=>sameobj(cur,cur) -> ((hb(a, b) /\ hbo(a, b)) \/ soo(b, a)) => sameobj(cur, cur)
eq(cur,cur) -> cur = cur
# so␊forall a. (a = a) -> forall a. a = a
";

#[test]
fn printed_as_elsewhere(rt: HostRuntime) -> Result<(), Fail> {
    check_table(rt.alloc(), PRINTED, printed_twice)
}

fn printed_twice(alloc: Global, row: &str) -> Result<Vec<u8>, NoMemory> {
    let once = printed(alloc, row.as_bytes())?;
    let twice = printed(alloc, &once)?;
    once_and_again(alloc, once, &twice)
}

fn printed(alloc: Global, text: &[u8]) -> Result<Vec<u8>, NoMemory> {
    if text.len() > 1_048_576 {
        return spelled(alloc, "too long");
    }
    match parse_contract(alloc, text) {
        Ok(contract) => print_contract(alloc, &contract),
        Err(_) => spelled(alloc, "a fault"),
    }
}
