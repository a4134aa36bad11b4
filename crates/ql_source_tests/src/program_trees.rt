use crate::texts::once_and_again;
use ql_base::NoMemory;
use ql_lang::print_program;
use ql_parse::parse_program;
use ql_test_inputs::{check_table, spelled};
use std::alloc::Global;
use std::test::Fail;

// Sources, and how an independent implementation prints them.
const PRINTED: &str = r#"
# The smallest source: one type with one operation.␊type t { op touch(): unit { contract true; answer unit; } }␊ -> type t {␊  op touch(): unit {␊    contract true;␊    answer unit;␊  }␊}␊
# A register that keeps the last text written. A read sees the earlier effects of its own session.␊type reg { state v: text = "";␊  op write(t: text): unit { contract true; answer unit;␊    emit p: text = t when true; apply { v := p; } }␊  op read(): text { contract forall a. soo(a, cur) => vis(a, cur); answer v; } }␊ -> type reg {␊  state v: text = "";␊  op write(t: text): unit {␊    contract true;␊    answer unit;␊    emit p: text = t when true;␊    apply {␊      v := p;␊    }␊  }␊  op read(): text {␊    contract forall a. soo(a, cur) => vis(a, cur);␊    answer v;␊  }␊}␊
# A bank account. Deposits need no agreement. Withdrawals are ordered among themselves, so that two of them␊# can't both take the last money. A balance shows what its own view shows.␊type account {␊  state balance: int = 0;␊  op deposit(n: int): unit { contract true; answer unit;␊    emit p: int = n when true; apply { balance := balance + p; } }␊  op withdraw(n: int): bool {␊    contract forall a: withdraw. sameobj(a, cur) => vis(a, cur) \/ vis(cur, a) \/ a = cur;␊    answer balance >= n;␊    emit p: int = n when balance >= n; apply { balance := balance - p; } }␊  op getbalance(): int {␊    contract forall a, b. vis(a, b) /\ vis(b, cur) => vis(a, cur); answer balance; }␊}␊transaction audit { uses deposit, getbalance;␊  contract forall a, b, c, d. txn{a, b}{c, d} /\ vis(c, a) /\ sameobj(d, b) => vis(d, b); }␊transaction peek { uses deposit, getbalance;␊  contract forall a, b, c. txn{a}{b, c} /\ sameobj(b, c) /\ vis(b, a) => vis(c, a); }␊transaction trail { uses deposit, getbalance;␊  contract forall a, b, c, d. (txn{a}{b, c} /\ sameobj(b, c) /\ vis(b, a) => vis(c, a))␊    /\ (txn{a, b}{c, d} /\ so(a, b) /\ vis(c, a) /\ sameobj(d, b) => vis(d, b)); }␊ -> type account {␊  state balance: int = 0;␊  op deposit(n: int): unit {␊    contract true;␊    answer unit;␊    emit p: int = n when true;␊    apply {␊      balance := balance + p;␊    }␊  }␊  op withdraw(n: int): bool {␊    contract forall a: withdraw. sameobj(a, cur) => ((vis(a, cur) \/ vis(cur, a)) \/ a = cur);␊    answer balance >= n;␊    emit p: int = n when balance >= n;␊    apply {␊      balance := balance - p;␊    }␊  }␊  op getbalance(): int {␊    contract forall a, b. (vis(a, b) /\ vis(b, cur)) => vis(a, cur);␊    answer balance;␊  }␊}␊transaction audit {␊  uses deposit, getbalance;␊  contract forall a, b, c, d. ((txn{a, b}{c, d} /\ vis(c, a)) /\ sameobj(d, b)) => vis(d, b);␊}␊transaction peek {␊  uses deposit, getbalance;␊  contract forall a, b, c. ((txn{a}{b, c} /\ sameobj(b, c)) /\ vis(b, a)) => vis(c, a);␊}␊transaction trail {␊  uses deposit, getbalance;␊  contract forall a, b, c, d. (((txn{a}{b, c} /\ sameobj(b, c)) /\ vis(b, a)) => vis(c, a)) /\ ((((txn{a, b}{c, d} /\ so(a, b)) /\ vis(c, a)) /\ sameobj(d, b)) => vis(d, b));␊}␊
# A shop: the stock of a thing, which may not fall below zero, and a cart that is filled from several places.␊# The transactions say what a customer may rely on while filling, glancing at, following and reporting.␊type stock { state left: int = 0;␊  op restock(n: int): unit { contract true; answer unit;␊    emit p: int = n when n > 0; apply { left := left + p; } }␊  op reserve(n: int): bool {␊    contract forall a: reserve. sameobj(a, cur) => vis(a, cur) \/ vis(cur, a) \/ a = cur;␊    answer left >= n;␊    emit p: int = n when left >= n; apply { left := left - p; } }␊  op stock_left(): int { contract forall a. soo(a, cur) => vis(a, cur); answer left; } }␊type cart { state items: map(text, int) = empty;␊  op add_item(item: text, n: int): unit {␊    contract forall a, b. soo(a, b) /\ vis(b, cur) => vis(a, cur); answer unit;␊    emit i: text = item, k: int = n when n > 0;␊    apply { items := put(items, i, get(items, i, 0) + k); } }␊  op show(): map(text, int) { contract true; answer items; } }␊transaction fill { uses add_item; contract true; }␊transaction glance { uses show, stock_left;␊  contract forall a, b, c. txn{a}{b, c} /\ sameobj(b, c) /\ vis(b, a) => vis(c, a); }␊transaction follow { uses show, add_item; contract forall a, b, c, d.␊  txn{a, b}{c, d} /\ so(a, b) /\ vis(c, a) /\ sameobj(d, b) => vis(d, b); }␊transaction report { uses show, stock_left; contract forall a, b, c, d.␊  txn{a, b}{c, d} /\ vis(c, a) /\ sameobj(d, b) => vis(d, b); }␊ -> type stock {␊  state left: int = 0;␊  op restock(n: int): unit {␊    contract true;␊    answer unit;␊    emit p: int = n when n > 0;␊    apply {␊      left := left + p;␊    }␊  }␊  op reserve(n: int): bool {␊    contract forall a: reserve. sameobj(a, cur) => ((vis(a, cur) \/ vis(cur, a)) \/ a = cur);␊    answer left >= n;␊    emit p: int = n when left >= n;␊    apply {␊      left := left - p;␊    }␊  }␊  op stock_left(): int {␊    contract forall a. soo(a, cur) => vis(a, cur);␊    answer left;␊  }␊}␊type cart {␊  state items: map(text, int) = empty;␊  op add_item(item: text, n: int): unit {␊    contract forall a, b. (soo(a, b) /\ vis(b, cur)) => vis(a, cur);␊    answer unit;␊    emit i: text = item, k: int = n when n > 0;␊    apply {␊      items := put(items, i, get(items, i, 0) + k);␊    }␊  }␊  op show(): map(text, int) {␊    contract true;␊    answer items;␊  }␊}␊transaction fill {␊  uses add_item;␊  contract true;␊}␊transaction glance {␊  uses show, stock_left;␊  contract forall a, b, c. ((txn{a}{b, c} /\ sameobj(b, c)) /\ vis(b, a)) => vis(c, a);␊}␊transaction follow {␊  uses show, add_item;␊  contract forall a, b, c, d. (((txn{a, b}{c, d} /\ so(a, b)) /\ vis(c, a)) /\ sameobj(d, b)) => vis(d, b);␊}␊transaction report {␊  uses show, stock_left;␊  contract forall a, b, c, d. ((txn{a, b}{c, d} /\ vis(c, a)) /\ sameobj(d, b)) => vis(d, b);␊}␊
type t {  op f(): int { contract true; answer 1+2*3-4;  } } -> type t {␊  op f(): int {␊    contract true;␊    answer (1 + (2 * 3)) - 4;␊  }␊}␊
type t {  op f(): int { contract true; answer (1-2)-3 - (4 - 5);  } } -> type t {␊  op f(): int {␊    contract true;␊    answer ((1 - 2) - 3) - (4 - 5);␊  }␊}␊
type t {  op f(): int { contract true; answer a*b*(c+d);  } } -> type t {␊  op f(): int {␊    contract true;␊    answer (a * b) * (c + d);␊  }␊}␊
type t {  op f(): int { contract true; answer - 5;  } } -> type t {␊  op f(): int {␊    contract true;␊    answer -5;␊  }␊}␊
type t {  op f(): int { contract true; answer --5;  } } -> type t {␊  op f(): int {␊    contract true;␊    answer -(-5);␊  }␊}␊
type t {  op f(): int { contract true; answer - (-a);  } } -> type t {␊  op f(): int {␊    contract true;␊    answer -(-a);␊  }␊}␊
type t {  op f(): int { contract true; answer -(1+2);  } } -> type t {␊  op f(): int {␊    contract true;␊    answer -(1 + 2);␊  }␊}␊
type t {  op f(): bool { contract true; answer not not a;  } } -> type t {␊  op f(): bool {␊    contract true;␊    answer not (not a);␊  }␊}␊
type t {  op f(): bool { contract true; answer not a and b or c;  } } -> type t {␊  op f(): bool {␊    contract true;␊    answer ((not a) and b) or c;␊  }␊}␊
type t {  op f(): bool { contract true; answer a or b and not (c or d);  } } -> type t {␊  op f(): bool {␊    contract true;␊    answer a or (b and (not (c or d)));␊  }␊}␊
type t {  op f(): bool { contract true; answer a == b or a != b;  } } -> type t {␊  op f(): bool {␊    contract true;␊    answer (a == b) or (a != b);␊  }␊}␊
type t {  op f(): bool { contract true; answer (a < b) == (c <= d);  } } -> type t {␊  op f(): bool {␊    contract true;␊    answer (a < b) == (c <= d);␊  }␊}␊
type t {  op f(): bool { contract true; answer a > b and c >= d;  } } -> type t {␊  op f(): bool {␊    contract true;␊    answer (a > b) and (c >= d);␊  }␊}␊
type t {  op f(): int { contract true; answer if a then b else c;  } } -> type t {␊  op f(): int {␊    contract true;␊    answer if a then b else c;␊  }␊}␊
type t {  op f(): int { contract true; answer if a then if b then c else d else e;  } } -> type t {␊  op f(): int {␊    contract true;␊    answer if a then if b then c else d else e;␊  }␊}␊
type t {  op f(): int { contract true; answer (if a then b else c) + 1;  } } -> type t {␊  op f(): int {␊    contract true;␊    answer (if a then b else c) + 1;␊  }␊}␊
type t {  op f(): int { contract true; answer if a or b then -1 else f(if c then d else e);  } } -> type t {␊  op f(): int {␊    contract true;␊    answer if a or b then -1 else f(if c then d else e);␊  }␊}␊
type t {  op f(): int { contract true; answer f(a, 1 + 2, g(not b));  } } -> type t {␊  op f(): int {␊    contract true;␊    answer f(a, 1 + 2, g(not b));␊  }␊}␊
type t {  op f(): int { contract true; answer put(m, "(((", get(m, "]", 0));  } } -> type t {␊  op f(): int {␊    contract true;␊    answer put(m, "(((", get(m, "]", 0));␊  }␊}␊
type t {  op f(): text { contract true; answer "a b # { }";  } } -> type t {␊  op f(): text {␊    contract true;␊    answer "a b # { }";␊  }␊}␊
type t {  op f(): int { contract true; answer 9223372036854775807;  } } -> type t {␊  op f(): int {␊    contract true;␊    answer 9223372036854775807;␊  }␊}␊
type t { state a: int = - 1; state b: int = -0; state c: int = -9223372036854775807; state d: text = "x"; state e: bool = true; state g: bool = false; state h: unit = unit; op f(): int { contract true; answer 0;  } } -> type t {␊  state a: int = -1;␊  state b: int = 0;␊  state c: int = -9223372036854775807;␊  state d: text = "x";␊  state e: bool = true;␊  state g: bool = false;␊  state h: unit = unit;␊  op f(): int {␊    contract true;␊    answer 0;␊  }␊}␊
type t { state a: set(int) = empty; state b: map(text, bool) = empty; state c: set(text) = empty; state d: map(bool, int) = empty; op f(): int { contract true; answer 0;  } } -> type t {␊  state a: set(int) = empty;␊  state b: map(text, bool) = empty;␊  state c: set(text) = empty;␊  state d: map(bool, int) = empty;␊  op f(): int {␊    contract true;␊    answer 0;␊  }␊}␊
type t {  op f(a: int, b: bool, c: text): int { contract true; answer 0; emit p: int = 1, q: text = "" when not b; apply { } } } -> type t {␊  op f(a: int, b: bool, c: text): int {␊    contract true;␊    answer 0;␊    emit p: int = 1, q: text = "" when not b;␊    apply {␊    }␊  }␊}␊
type t {  op f(): map(int, text) { contract true; answer 0; emit p: int = a when a > 0 and true; apply { x := x + p; y := if x > 0 then 1 else -1; } } } -> type t {␊  op f(): map(int, text) {␊    contract true;␊    answer 0;␊    emit p: int = a when (a > 0) and true;␊    apply {␊      x := x + p;␊      y := if x > 0 then 1 else -1;␊    }␊  }␊}␊
type a { op f(): unit { contract forall x: f | g, y. [vis | so & hb](x, y) => true; answer unit; } op g(): unit { contract true; answer unit; } } type b { op h(): set(bool) { contract true; answer v; } } transaction u { uses f, g , h; contract txn{a}{b,c} /\ true; } transaction v { uses f; contract true; } -> type a {␊  op f(): unit {␊    contract forall x: f | g, y. [vis | [so & hb]](x, y) => true;␊    answer unit;␊  }␊  op g(): unit {␊    contract true;␊    answer unit;␊  }␊}␊type b {␊  op h(): set(bool) {␊    contract true;␊    answer v;␊  }␊}␊transaction u {␊  uses f, g, h;␊  contract txn{a}{b, c} /\ true;␊}␊transaction v {␊  uses f;␊  contract true;␊}␊
"#;

#[test]
fn printed_as_elsewhere(rt: HostRuntime) -> Result<(), Fail> {
    check_table(rt.alloc(), PRINTED, printed_twice)
}

fn printed_twice(alloc: Global, row: &str) -> Result<Vec<u8>, NoMemory> {
    let once = printed(alloc, row.as_bytes())?;
    let twice = printed(alloc, &once)?;
    once_and_again(alloc, once, &twice)
}

fn printed(alloc: Global, text: &[u8]) -> Result<Vec<u8>, NoMemory> {
    if text.len() > 1_048_576 {
        return spelled(alloc, "too long");
    }
    match parse_program(alloc, text) {
        Ok(program) => print_program(alloc, &program),
        Err(_) => spelled(alloc, "a fault"),
    }
}
