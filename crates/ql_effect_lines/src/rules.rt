/// The rules that a line of an execution file can break. Of those that one line breaks, the first in
/// this order is reported: Unexpected, Unknown, Mixed, NotForward, OtherObject, SplitTxn, Stamp, TooMany.
#[derive(Clone, Copy)]
pub enum ReportRule {
    /// No file continues with this line.
    Unexpected,
    /// The program has no such operation or transaction.
    Unknown,
    /// The operation is of another type than the object's first one.
    Mixed,
    /// The stamp isn't the Lamport stamp of the effect.
    Stamp,
    /// The effect sees an id that names no earlier effect.
    NotForward,
    /// The effect sees one on another object.
    OtherObject,
    /// The effect splits its transaction.
    SplitTxn,
    /// The 4,001st effect.
    TooMany,
}
