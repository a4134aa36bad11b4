ghost use Rattle.std.specs.Prelude.{◌≡◌};
ghost use Rattle.ql_schedule.specs.Rules.{lowest};

use crate::fault::SchedFault;

/// The rules that a line can break, the lowest first.
#[derive(Clone, Copy)]
pub(crate) enum SchedRule {
    Unexpected,
    Unknown,
    Kind,
    Range,
    TooMany,
    Twice,
}

impl SchedRule {
    ghost use Rattle.ql_schedule.specs.Outcomes.{rule_at};

    /// The rule as a fault of the file, at a line.
    pub(crate) fn at(self, line: u64) -> SchedFault
        ensures { result ≡ rule_at self line }
    {
        match self {
            SchedRule::Unexpected => SchedFault::Unexpected(line),
            SchedRule::Unknown => SchedFault::Unknown(line),
            SchedRule::Kind => SchedFault::Kind(line),
            SchedRule::Range => SchedFault::Range(line),
            SchedRule::TooMany => SchedFault::TooMany(line),
            SchedRule::Twice => SchedFault::Twice(line),
        }
    }
}

/// Which rules a line of the grammar breaks.
#[derive(Clone, Copy)]
pub(crate) struct Faults {
    pub unknown: bool,
    pub kind: bool,
    pub range: bool,
    pub too_many: bool,
    pub twice: bool,
}

impl Faults {
    /// The lowest rule that is broken.
    pub(crate) fn lowest(self) -> Option<SchedRule>
        ensures { result ≡ lowest self }
    {
        if self.unknown {
            Some(SchedRule::Unknown)
        } else if self.kind {
            Some(SchedRule::Kind)
        } else if self.range {
            Some(SchedRule::Range)
        } else if self.too_many {
            Some(SchedRule::TooMany)
        } else if self.twice {
            Some(SchedRule::Twice)
        } else {
            None
        }
    }
}
