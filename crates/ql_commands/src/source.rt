ghost use Rattle.std.specs.Prelude.{◌<◌, ◌^◌, ℕ, List, length, IfErr, IfOk};
ghost use Rattle.ql_commands.specs.Sources.{DeniesSource, IsSourceFault, IsSourceOf};
ghost use Rattle.ql_commands.specs.declared.source_fault.SourceFault.{SourceFault};

use crate::source_fault::SourceFault;
use ql_parse::{one_program_answer, parse_program};
use ql_typing::{Typed, typecheck};
use std::alloc::Global;

/// The typed program of a source, or the source's first fault.
pub fn read_source(alloc: Global, bytes: &[u8]) -> Result<Typed, SourceFault>
    requires { length bytes.now < 2 ^ 32 }
    ensures source { IfOk result (λ t. IsSourceOf bytes.now t.program) }
    ensures fault { IfErr result (IsSourceFault bytes.now) }
    ensures none { IfErr result (DeniesSource bytes.now) }
{
    faults_deny_sources();
    let program = match parse_program(alloc, bytes) {
        Ok(program) => program,
        Err(fault) => return Err(SourceFault::Parse(fault)),
    };
    match typecheck(alloc, program) {
        Ok(typed) => Ok(typed),
        Err(fault) => Err(SourceFault::Typing(fault)),
    }
}

/// The law that a source of a typed program has no fault that is reported.
fn faults_deny_sources()
    ensures { (bytes : List ℕ) (f : SourceFault) → IsSourceFault bytes f → DeniesSource bytes f }
{
    one_program_answer();
}
