ghost use Rattle.std.specs.Prelude.{◌≡◌, List, ℕ};
ghost use Rattle.ql_lang.specs.Trees.{Sentence};
ghost use Rattle.ql_lang.specs.Programs.{Source};
ghost use Rattle.ql_grammar.specs.Limits.{Fault};
ghost use Rattle.ql_grammar.specs.Texts.{
  FirstFault,
  IsContract,
  IsProgram,
  Parses,
  ParsesProgram,
};
ghost use Rattle.ql_grammar.specs.Tokens.{Lexeme};

/// Tokens are one contract within the limits, or have one first fault, and not both.
pub fn one_answer()
    ensures tree { (ts : List Lexeme) (s t : Sentence) → Parses ts s → Parses ts t → s ≡ t }
    ensures fault { (ts : List Lexeme) (end : ℕ) (f g : Fault) → FirstFault IsContract ts end f
        → FirstFault IsContract ts end g → f ≡ g }
    ensures apart { (ts : List Lexeme) (end : ℕ) (s : Sentence) (f : Fault) → Parses ts s
        → FirstFault IsContract ts end f → ⊥ }
{}

/// Tokens are one whole source within the limits, or have one first fault, and not both.
pub fn one_program_answer()
    ensures tree { (ts : List Lexeme) (s t : Source) → ParsesProgram ts s → ParsesProgram ts t
        → s ≡ t }
    ensures fault { (ts : List Lexeme) (end : ℕ) (f g : Fault) → FirstFault IsProgram ts end f
        → FirstFault IsProgram ts end g → f ≡ g }
    ensures apart { (ts : List Lexeme) (end : ℕ) (s : Source) (f : Fault) → ParsesProgram ts s
        → FirstFault IsProgram ts end f → ⊥ }
{}
