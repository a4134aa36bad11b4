/// What the store guarantees to a call of an operation, in ascending order.
#[derive(Clone, Copy, PartialEq, Eq)]
pub enum Level {
    Eventual,
    Causal,
    Wide,
    Strong,
}

/// What the store guarantees to a transaction, in ascending order: read committed, monotonic atomic view,
/// repeatable read.
#[derive(Clone, Copy, PartialEq, Eq)]
pub enum TxnLevel {
    Rc,
    Mav,
    Rr,
}
