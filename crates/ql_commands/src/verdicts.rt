// Where a refutation is refused, for notes.

use ql_refute::Verdict;
use ql_reply::{Refused, Rule};

/// Where a refutation is refused by a verdict, and why: that of the section of this number, from 1, or of a proof.
pub fn refused(section: Option<u32>, verdict: Verdict) -> Refused {
    let (line, rule) = match verdict {
        Verdict::BadHint(line) => (Some(line), Rule::BadHint),
        Verdict::NotUnit(line) => (Some(line), Rule::NotUnit),
        Verdict::NoConflict(line) => (Some(line), Rule::NoConflict),
        Verdict::BadVariable(line) => (Some(line), Rule::BadVariable),
        Verdict::Accepted | Verdict::NoEmpty => (None, Rule::NoEmpty),
    };
    Refused {
        section,
        line,
        rule,
    }
}
