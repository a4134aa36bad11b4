ghost use Rattle.std.specs.Prelude.{◌≡◌, List, ℕ, Result};
ghost use Rattle.ql_lang.specs.declared.program.Program.{Program};
ghost use Rattle.ql_lang.specs.Programs.{Source};
ghost use Rattle.ql_lang.specs.ProgramSpelling.{program_text};
ghost use Rattle.ql_parse.specs.declared.fault.ParseFault.{ParseFault};
ghost use Rattle.ql_parse.specs.Parsing.{IsProgramAnswer, IsProgramText};
ghost use Rattle.ql_text_laws.specs.PrintedPrograms.{
  HasFewBrackets,
  HasFewNodes,
  IsSourceInGrammar,
  IsSourceReadAs,
  SourceFits,
  unplaced_source,
};

/// A source that is printed and read again is the same source, up to source offsets.
///
/// The source offsets of a tree don't change its text (`places`).
/// The text is in the grammar for each tree that has one (`grammar`); the trees that are read have one, with few nodes
/// in each contract and each expression (`fits`, `few`). It is read again if it is within the limits (`text`,
/// `answer`). So the printed text of a source that was read is read as the same source if it opens few brackets at
/// once within each contract and each expression (`again`); a long chain of operators may open too many.
pub fn source_printed_again()
    ensures places { (p : Source) → program_text (unplaced_source p) ≡ program_text p }
    ensures grammar { (p : Source) → SourceFits p → (q : Source)
        × IsSourceInGrammar (program_text p) q × (unplaced_source q ≡ unplaced_source p) }
    ensures fits { (bytes : List ℕ) (p : Source) → IsProgramText bytes p → SourceFits p }
    ensures few { (bytes : List ℕ) (p : Source) → IsProgramText bytes p → HasFewNodes p }
    ensures text { (p : Source) → SourceFits p → HasFewNodes p → HasFewBrackets p → (q : Source)
        × IsProgramText (program_text p) q × (unplaced_source q ≡ unplaced_source p) }
    ensures answer { (p : Source) (r : Result Program ParseFault) → SourceFits p → HasFewNodes p
        → HasFewBrackets p → IsProgramAnswer (program_text p) r → IsSourceReadAs p r }
    ensures again { (bytes : List ℕ) (p : Source) (r : Result Program ParseFault)
        → IsProgramText bytes p → HasFewBrackets p → IsProgramAnswer (program_text p) r
        → IsSourceReadAs p r }
{
    ql_parse::one_program_answer();
}
