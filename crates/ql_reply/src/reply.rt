ghost use Rattle.std.specs.Prelude.{◌≡◌};
ghost use Rattle.std.specs.Option.{ForSome};
ghost use Rattle.ql_reply.specs.Causes.{fault_in};
ghost use Rattle.ql_reply.specs.Lines.{reported_line};
ghost use Rattle.ql_reply.specs.declared.status.Status.TheVariants.{Bad};

// The answer of a program, before it is written.

use crate::bad::bad_line;
use crate::fault::{Fault, Part, Rule};
use crate::status::Status;
use ql_base::{DeclId, NoMemory, OpId};
use std::alloc::Global;

/// What an answer is about, for a note on it.
#[derive(Clone, Copy)]
pub enum Cause {
    /// The text says all.
    Text,
    /// A file breaks a rule of its format.
    Fault(Fault),
    /// No level is enough for an operation's contract.
    NoLevelOfOp(OpId),
    /// No level is enough for a transaction's contract.
    NoLevelOfTxn(DeclId),
    /// A transaction uses a strong operation.
    StrongInTxn(DeclId, OpId),
    /// A certificate's section of this number, from 1, isn't where the order of the source has it.
    Order(u32),
    /// A refutation is refused.
    Refused(Refused),
    /// A contract is false at the effect of this number, from 1.
    FailsAt(u64),
    /// A contract is false in the begun transaction of this number.
    FailsIn(u64),
    /// The contract of a file of `holds` is true at its effect.
    Holds,
    /// Judging all choices of effects is too much work.
    TooMuch,
}

/// Where a refutation is refused, and why: the section of a certificate, from 1, or none in a proof; and the line of the
/// refutation, or none where it is refused as a whole.
#[derive(Clone, Copy)]
pub struct Refused {
    pub section: Option<u32>,
    pub line: Option<u64>,
    pub rule: Rule,
}

/// How a call of a program ends, the text that it writes, and what that is about.
#[derive(Drop)]
pub struct Reply {
    pub status: Status,
    pub text: Vec<u8>,
    pub cause: Cause,
    // A fault that the answer is about is the one that its text reports.
    ghost noted: { ForSome (fault_in cause) (λ fault.
        (status ≡ Bad) × (text.items ≡ reported_line fault)) },
}

impl Reply {
    ghost use Rattle.std.specs.Prelude.{◌≡◌, IfOk};
    ghost use Rattle.ql_reply.specs.Lines.{fault_line, part_name, rule_name};
    ghost use Rattle.ql_reply.specs.declared.status.Status.TheVariants.{Bad};

    /// The answer on a file whose first fault is at this offset of a source, or in this line of another file.
    pub fn bad(alloc: Global, part: Part, at: u64, rule: Rule) -> Result<Reply, NoMemory>
        ensures status { IfOk result (λ reply. reply.status ≡ Bad) }
        ensures text { IfOk result
            (λ reply. reply.text.items ≡ fault_line (part_name part) at (rule_name rule)) }
    {
        Ok(Reply {
            status: Status::Bad,
            text: bad_line(alloc, part.name(), at, rule.name())?,
            cause: Cause::Fault(Fault { part, at, rule }),
        })
    }
}
