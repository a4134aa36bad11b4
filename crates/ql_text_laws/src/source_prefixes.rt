ghost use Rattle.std.specs.Prelude.{◌≤◌, ◌<◌, List, length, take, ℕ};
ghost use Rattle.ql_lang.specs.Programs.{Source};
ghost use Rattle.ql_grammar.specs.Limits.{Fault, Unexpected};
ghost use Rattle.ql_parse.specs.Parsing.{IsProgramFault};
ghost use Rattle.ql_text_laws.specs.PrintedPrograms.{IsSourceInGrammar};
ghost use Rattle.ql_text_laws.specs.Prefixes.{BeginsSource, EndsSources, offset_of};

/// The bytes before a fault are the beginning of a source, and no source begins with the unexpected token too.
///
/// A fault's offset is in the text or at its end (`inside`). Some source of the grammar, limits aside, begins with the
/// bytes before it (`begins`). An unexpected token is at its offset, and no source begins with the bytes up to its end
/// and a line feed (`token`). A text with an unexpected token or end is no source of the grammar (`whole`).
pub fn sources_begin_before_faults()
    ensures inside { (bytes : List ℕ) (f : Fault) → IsProgramFault bytes f
        → offset_of f ≤ length bytes }
    ensures begins { (bytes : List ℕ) (f : Fault) → IsProgramFault bytes f
        → BeginsSource (take (offset_of f) bytes) }
    ensures token { (bytes : List ℕ) (at : ℕ) → IsProgramFault bytes (Unexpected at)
        → at < length bytes → EndsSources bytes at }
    ensures whole { (bytes : List ℕ) (at : ℕ) → IsProgramFault bytes (Unexpected at) → (p : Source)
        → IsSourceInGrammar bytes p → ⊥ }
{
    ql_lex::one_answer();
}
