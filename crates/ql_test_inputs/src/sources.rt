// Sources: two of examples/sources without their comments.

/// A bank account, with declared transactions.
pub const BANK: &str = r"type account {
  state balance: int = 0;
  op deposit(n: int): unit { contract true; answer unit;
    emit p: int = n when true; apply { balance := balance + p; } }
  op withdraw(n: int): bool {
    contract forall a: withdraw. sameobj(a, cur) => vis(a, cur) \/ vis(cur, a) \/ a = cur;
    answer balance >= n;
    emit p: int = n when balance >= n; apply { balance := balance - p; } }
  op getbalance(): int {
    contract forall a, b. vis(a, b) /\ vis(b, cur) => vis(a, cur); answer balance; }
}
transaction audit { uses deposit, getbalance;
  contract forall a, b, c, d. txn{a, b}{c, d} /\ vis(c, a) /\ sameobj(d, b) => vis(d, b); }
transaction peek { uses deposit, getbalance;
  contract forall a, b, c. txn{a}{b, c} /\ sameobj(b, c) /\ vis(b, a) => vis(c, a); }
transaction trail { uses deposit, getbalance;
  contract forall a, b, c, d. (txn{a}{b, c} /\ sameobj(b, c) /\ vis(b, a) => vis(c, a))
    /\ (txn{a, b}{c, d} /\ so(a, b) /\ vis(c, a) /\ sameobj(d, b) => vis(d, b)); }
";

/// The stock of a shop, and carts.
pub const SHOP: &str = r"type stock { state left: int = 0;
  op restock(n: int): unit { contract true; answer unit;
    emit p: int = n when n > 0; apply { left := left + p; } }
  op reserve(n: int): bool {
    contract forall a: reserve. sameobj(a, cur) => vis(a, cur) \/ vis(cur, a) \/ a = cur;
    answer left >= n;
    emit p: int = n when left >= n; apply { left := left - p; } }
  op stock_left(): int { contract forall a. soo(a, cur) => vis(a, cur); answer left; } }
type cart { state items: map(text, int) = empty;
  op add_item(item: text, n: int): unit {
    contract forall a, b. soo(a, b) /\ vis(b, cur) => vis(a, cur); answer unit;
    emit i: text = item, k: int = n when n > 0;
    apply { items := put(items, i, get(items, i, 0) + k); } }
  op show(): map(text, int) { contract true; answer items; } }
transaction fill { uses add_item; contract true; }
transaction glance { uses show, stock_left;
  contract forall a, b, c. txn{a}{b, c} /\ sameobj(b, c) /\ vis(b, a) => vis(c, a); }
transaction follow { uses show, add_item; contract forall a, b, c, d.
  txn{a, b}{c, d} /\ so(a, b) /\ vis(c, a) /\ sameobj(d, b) => vis(d, b); }
transaction report { uses show, stock_left; contract forall a, b, c, d.
  txn{a, b}{c, d} /\ vis(c, a) /\ sameobj(d, b) => vis(d, b); }
";
