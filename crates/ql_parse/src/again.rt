ghost use Rattle.std.specs.Prelude.{◌≡◌, ◌≤◌, ◌*◌, ◌⊎◌, Err, List, length, ℕ};
ghost use Rattle.std.specs.List.{flat_map};
ghost use Rattle.ql_grammar.specs.Limits.{Fault};
ghost use Rattle.ql_lang.specs.Trees.{Sentence};
ghost use Rattle.ql_lex.specs.declared.token.LexFault.{LexFault};
ghost use Rattle.ql_lex.specs.Tokens.{Lexes};
ghost use Rattle.ql_lang.specs.Programs.{Source};
ghost use Rattle.ql_parse.specs.Parsing.{
  IsContractFault,
  IsContractText,
  IsProgramFault,
  IsProgramText,
};

/// A text is one contract, or has one first fault among its tokens, or has no tokens; and it is not two of these.
pub fn one_answer()
    ensures some { (bytes : List ℕ) → ((s : Sentence) × IsContractText bytes s)
        ⊎ (((f : Fault) × IsContractFault bytes f) ⊎ ((e : LexFault) × Lexes 0 bytes (Err e))) }
    ensures tree { (bytes : List ℕ) (s t : Sentence) → IsContractText bytes s
        → IsContractText bytes t → s ≡ t }
    ensures fault { (bytes : List ℕ) (f g : Fault) → IsContractFault bytes f
        → IsContractFault bytes g → f ≡ g }
    ensures apart { (bytes : List ℕ) (s : Sentence) (f : Fault) → IsContractText bytes s
        → IsContractFault bytes f → ⊥ }
    ensures no_lexical { (bytes : List ℕ) (s : Sentence) (e : LexFault) → IsContractText bytes s
        → Lexes 0 bytes (Err e) → ⊥ }
    ensures no_lexical_fault { (bytes : List ℕ) (f : Fault) (e : LexFault) → IsContractFault bytes f
        → Lexes 0 bytes (Err e) → ⊥ }
{
    ql_lex::one_answer();
    ql_grammar::one_answer();
}

/// A text is one source, or has one first fault among its tokens, or has no tokens; and it is not two of these.
pub fn one_program_answer()
    ensures some { (bytes : List ℕ) → ((s : Source) × IsProgramText bytes s)
        ⊎ (((f : Fault) × IsProgramFault bytes f) ⊎ ((e : LexFault) × Lexes 0 bytes (Err e))) }
    ensures tree { (bytes : List ℕ) (s t : Source) → IsProgramText bytes s → IsProgramText bytes t
        → s ≡ t }
    ensures fault { (bytes : List ℕ) (f g : Fault) → IsProgramFault bytes f → IsProgramFault bytes g
        → f ≡ g }
    ensures apart { (bytes : List ℕ) (s : Source) (f : Fault) → IsProgramText bytes s
        → IsProgramFault bytes f → ⊥ }
    ensures no_lexical { (bytes : List ℕ) (s : Source) (e : LexFault) → IsProgramText bytes s
        → Lexes 0 bytes (Err e) → ⊥ }
    ensures no_lexical_fault { (bytes : List ℕ) (f : Fault) (e : LexFault) → IsProgramFault bytes f
        → Lexes 0 bytes (Err e) → ⊥ }
{
    ql_lex::one_answer();
    ql_grammar::one_program_answer();
}

/// A text has at least two bytes for each operation that its contract's variables name: the name has one,
/// and a colon or a bar stands before it.
pub fn few_operations()
    ensures { (bytes : List ℕ) (s : Sentence) → IsContractText bytes s
        → 2 * length (flat_map (λ v. v.ops) s.vars) ≤ length bytes }
{}
