ghost use Rattle.std.specs.Prelude.{◌<◌, ◌^◌, IfOk, IfSome, MatchOption, length};
ghost use Rattle.std.specs.List.{flat_map};
ghost use Rattle.ql_lang.specs.Trees.{Sentence, sentence_of};
ghost use Rattle.ql_holds_files.specs.ContractLine.{IsContractLine};
ghost use Rattle.ql_holds_files.specs.NamedOperations.{IsShort};

use ql_base::NoMemory;
use ql_lang::Contract;
use ql_lines::after_word;
use ql_parse::{ParseFault, parse_contract};
use std::alloc::Global;

/// The contract of a line that is the word `contract` and then a contract; `None` for any other line.
pub(crate) fn contract_line(alloc: Global, text: &[u8]) -> Result<Option<Contract>, NoMemory>
    requires { IsShort (length text.now) }
    ensures line { IfOk result
        (λ found. MatchOption found ((c : Sentence) → IsContractLine text.now c → ⊥)
        (λ contract. IsContractLine text.now (sentence_of contract))) }
    ensures few { IfOk result
        (λ found. IfSome found
        (λ contract. length (flat_map (λ v. v.ops) contract.vars) < 2 ^ 32)) }
{
    ql_parse::one_answer();
    ql_parse::few_operations();
    let Some(rest) = after_word(text, b"contract") else {
        return Ok(None);
    };
    match parse_contract(alloc, rest) {
        Ok(contract) => Ok(Some(contract)),
        Err(fault) => match fault {
            ParseFault::NoMemory => Err(NoMemory),
            _ => Ok(None),
        },
    }
}
