// What is wrong with a file.

/// What a file is read as.
#[derive(Clone, Copy)]
pub enum Part {
    Source,
    Schedule,
    Execution,
    Certificate,
    Proof,
    Holds,
    Baseline,
}

impl Part {
    ghost use Rattle.std.specs.Prelude.{◌≡◌};
    ghost use Rattle.ql_reply.specs.Lines.{part_name};

    /// Its name in an answer.
    pub fn name(self) -> &'static str
        ensures { result.now ≡ part_name self }
    {
        match self {
            Part::Source => "source",
            Part::Schedule => "schedule",
            Part::Execution => "execution",
            Part::Certificate => "certificate",
            Part::Proof => "proof",
            Part::Holds => "holds",
            Part::Baseline => "baseline",
        }
    }
}

/// A rule that a file can break, or for which a line of a refutation is refused.
#[derive(Clone, Copy)]
pub enum Rule {
    BadChar,
    LongWord,
    BadNumber,
    Unexpected,
    Deep,
    Wide,
    Unknown,
    Twice,
    Kind,
    TooMany,
    TxnClosure,
    TxnAtom,
    Variables,
    Range,
    Number,
    NotForward,
    OtherObject,
    Mixed,
    Stamp,
    SplitTxn,
    BadHint,
    NotUnit,
    NoConflict,
    BadVariable,
    NoEmpty,
}

impl Rule {
    ghost use Rattle.std.specs.Prelude.{◌≡◌};
    ghost use Rattle.ql_reply.specs.Lines.{rule_name};

    /// Its name in an answer.
    pub fn name(self) -> &'static str
        ensures { result.now ≡ rule_name self }
    {
        match self {
            Rule::BadChar => "BadChar",
            Rule::LongWord => "LongWord",
            Rule::BadNumber => "BadNumber",
            Rule::Unexpected => "Unexpected",
            Rule::Deep => "Deep",
            Rule::Wide => "Wide",
            Rule::Unknown => "Unknown",
            Rule::Twice => "Twice",
            Rule::Kind => "Kind",
            Rule::TooMany => "TooMany",
            Rule::TxnClosure => "TxnClosure",
            Rule::TxnAtom => "TxnAtom",
            Rule::Variables => "Variables",
            Rule::Range => "Range",
            Rule::Number => "Number",
            Rule::NotForward => "NotForward",
            Rule::OtherObject => "OtherObject",
            Rule::Mixed => "Mixed",
            Rule::Stamp => "Stamp",
            Rule::SplitTxn => "SplitTxn",
            Rule::BadHint => "BadHint",
            Rule::NotUnit => "NotUnit",
            Rule::NoConflict => "NoConflict",
            Rule::BadVariable => "BadVariable",
            Rule::NoEmpty => "NoEmpty",
        }
    }
}

/// The first fault of a file: its offset in a source, from 0, or its line in another file, from 1, and the rule that is
/// broken there.
#[derive(Clone, Copy)]
pub struct Fault {
    pub part: Part,
    pub at: u64,
    pub rule: Rule,
}
