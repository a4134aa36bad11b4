ghost use Rattle.std.specs.Prelude.{◌≤◌, ◌<◌, List, length, take, ℕ};
ghost use Rattle.ql_lang.specs.Trees.{Sentence};
ghost use Rattle.ql_grammar.specs.Limits.{Fault, Unexpected};
ghost use Rattle.ql_parse.specs.Parsing.{IsContractFault};
ghost use Rattle.ql_text_laws.specs.Printed.{IsInGrammar};
ghost use Rattle.ql_text_laws.specs.Prefixes.{BeginsContract, EndsContracts, offset_of};

/// The bytes before a fault are the beginning of a contract, and no contract begins with the unexpected token too.
///
/// A fault's offset is in the text or at its end (`inside`). Some contract of the grammar, limits aside, begins with the
/// bytes before it (`begins`). An unexpected token is at its offset, and no contract begins with the bytes up to its end
/// and a line feed (`token`). A text with an unexpected token or end is no contract of the grammar (`whole`).
pub fn contracts_begin_before_faults()
    ensures inside { (bytes : List ℕ) (f : Fault) → IsContractFault bytes f
        → offset_of f ≤ length bytes }
    ensures begins { (bytes : List ℕ) (f : Fault) → IsContractFault bytes f
        → BeginsContract (take (offset_of f) bytes) }
    ensures token { (bytes : List ℕ) (at : ℕ) → IsContractFault bytes (Unexpected at)
        → at < length bytes → EndsContracts bytes at }
    ensures whole { (bytes : List ℕ) (at : ℕ) → IsContractFault bytes (Unexpected at)
        → (s : Sentence) → IsInGrammar bytes s → ⊥ }
{
    ql_lex::one_answer();
}
