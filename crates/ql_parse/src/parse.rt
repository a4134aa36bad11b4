ghost use Rattle.std.specs.Prelude.{◌<◌, ◌^◌, length};
ghost use Rattle.ql_parse.specs.Parsing.{IsContractAnswer, IsProgramAnswer};

use crate::fault::ParseFault;
use crate::junction::both;
use crate::reader::Reader;
use ql_lang::{Contract, Program};
use ql_lex::tokens;
use std::alloc::Global;

/// Reads a contract from a text of fewer than 2^32 bytes.
pub fn parse_contract(alloc: Global, bytes: &[u8]) -> Result<Contract, ParseFault>
    requires { length bytes.now < 2 ^ 32 }
    ensures { IsContractAnswer bytes.now result }
{
    let found = tokens(alloc, bytes)?;
    let mut reader = Reader::new(bytes, found.as_slice());
    let contract = reader.contract(alloc)?;
    let ended = both(contract, reader.end())?;
    Ok(ended.0)
}

/// Reads a whole source from a text of fewer than 2^32 bytes.
pub fn parse_program(alloc: Global, bytes: &[u8]) -> Result<Program, ParseFault>
    requires { length bytes.now < 2 ^ 32 }
    ensures { IsProgramAnswer bytes.now result }
{
    let found = tokens(alloc, bytes)?;
    let mut reader = Reader::new(bytes, found.as_slice());
    let program = reader.program(alloc)?;
    reader.end()?;
    Ok(program)
}
