ghost use Rattle.std.specs.Prelude.{◌≡◌, List, ℕ, Result};
ghost use Rattle.ql_lex.specs.Tokens.{Lexes};
ghost use Rattle.ql_lex.specs.declared.token.LexFault.{LexFault};
ghost use Rattle.ql_lex.specs.declared.token.Token.{Token};

/// Each text has exactly one result: its tokens, or its first fault.
pub fn one_answer()
    ensures some { (text : List ℕ) → (r : Result (List Token) LexFault) × Lexes 0 text r }
    ensures one { (text : List ℕ) (r s : Result (List Token) LexFault) → Lexes 0 text r
        → Lexes 0 text s → r ≡ s }
{}
