// What is reported of a source that is none.
ghost use Rattle.std.specs.Prelude.{◌≡◌, IfOk, Some};
ghost use Rattle.std.specs.Option.{option_map};
ghost use Rattle.ql_commands.specs.Sources.{lexical_fault, source_fault_text, syntax_fault, reported_fault, typing_fault};
ghost use Rattle.ql_reply.specs.Lines.{rule_name};
ghost use Rattle.ql_reply.specs.declared.status.Status.TheVariants.{Bad};

use ql_base::NoMemory;
use ql_lex::LexFault;
use ql_parse::ParseFault;
use ql_reply::{Part, Reply, Rule};
use ql_typing::TypeFault;
use std::alloc::Global;

/// Why a text is no source of a typed program.
#[derive(Clone, Copy)]
pub enum SourceFault {
    /// It isn't in the grammar of sources.
    Parse(ParseFault),
    /// Its program isn't typed.
    Typing(TypeFault),
}

/// The answer on a source with a fault.
pub fn bad_source(alloc: Global, fault: SourceFault) -> Result<Reply, NoMemory>
    ensures status { IfOk result (λ reply. reply.status ≡ Bad) }
    ensures text { IfOk result (λ reply. source_fault_text fault ≡ Some reply.text.items) }
{
    match place_and_rule(fault) {
        Some((at, rule)) => Reply::bad(alloc, Part::Source, u64::from(at), rule),
        None => Err(NoMemory),
    }
}

// The offset of a fault and its rule; none where memory ran out.
fn place_and_rule(fault: SourceFault) -> Option<(u32, Rule)>
    ensures { option_map (λ reported. (reported.0, rule_name reported.1)) result ≡ reported_fault fault }
{
    match fault {
        SourceFault::Parse(fault) => of_syntax(fault),
        SourceFault::Typing(fault) => of_typing(fault),
    }
}

fn of_tokens(fault: LexFault) -> Option<(u32, Rule)>
    ensures { option_map (λ reported. (reported.0, rule_name reported.1)) result ≡ lexical_fault fault }
{
    match fault {
        LexFault::BadChar(at) => Some((at, Rule::BadChar)),
        LexFault::LongWord(at) => Some((at, Rule::LongWord)),
        LexFault::BadNumber(at) => Some((at, Rule::BadNumber)),
        LexFault::NoMemory => None,
    }
}

fn of_syntax(fault: ParseFault) -> Option<(u32, Rule)>
    ensures { option_map (λ reported. (reported.0, rule_name reported.1)) result ≡ syntax_fault fault }
{
    match fault {
        ParseFault::Lex(fault) => of_tokens(fault),
        ParseFault::Unexpected(at) => Some((at, Rule::Unexpected)),
        ParseFault::Deep(at) => Some((at, Rule::Deep)),
        ParseFault::Wide(at) => Some((at, Rule::Wide)),
        ParseFault::NoMemory => None,
    }
}

fn of_typing(fault: TypeFault) -> Option<(u32, Rule)>
    ensures { option_map (λ reported. (reported.0, rule_name reported.1)) result ≡ typing_fault fault }
{
    match fault {
        TypeFault::Unknown(at) => Some((at, Rule::Unknown)),
        TypeFault::Twice(at) => Some((at, Rule::Twice)),
        TypeFault::Kind(at) => Some((at, Rule::Kind)),
        TypeFault::TooMany(at) => Some((at, Rule::TooMany)),
        TypeFault::TxnClosure(at) => Some((at, Rule::TxnClosure)),
        TypeFault::Variables(at) => Some((at, Rule::Variables)),
        TypeFault::TxnAtom(at) => Some((at, Rule::TxnAtom)),
        TypeFault::NoMemory => None,
    }
}
