ghost use Rattle.std.specs.Prelude.{◌≡◌, List, ℕ, Ok};
ghost use Rattle.ql_lines.specs.Lines.{Ahead, texts_of};
ghost use Rattle.ql_holds_files.specs.HoldsFile.{Asked, HoldsOutcome};
ghost use Rattle.ql_holds_files.specs.Grammar.{HoldsTree, IsHoldsFile};
ghost use Rattle.ql_holds_files.specs.Questions.{IsQuestionOf};
ghost use Rattle.ql_holds_files.specs.TreeRules.{HasCurrent, KeepsRules};

/// A file asks what its lines spell.
///
/// The lines of a file that asks something are those of a tree that keeps the rules, whose question it is (`spelled`).
/// Where the lines are those of such a tree, the file asks its question (`read`). Lines are those of at most one tree
/// (`tree`), and a tree has at most one question (`question`).
pub fn holds_files_are_read()
    ensures spelled { (file : Ahead) (asked : Asked) → HoldsOutcome file (Ok asked)
        → (t : HoldsTree) × IsHoldsFile (texts_of file.lines) t × KeepsRules t × HasCurrent t
        × IsQuestionOf t asked }
    ensures read { (file : Ahead) (t : HoldsTree) → IsHoldsFile (texts_of file.lines) t
        → KeepsRules t → HasCurrent t → (asked : Asked) × IsQuestionOf t asked
        × HoldsOutcome file (Ok asked) }
    ensures tree { (lines : List (List ℕ)) (t u : HoldsTree) → IsHoldsFile lines t
        → IsHoldsFile lines u → t ≡ u }
    ensures question { (t : HoldsTree) (a b : Asked) → IsQuestionOf t a → IsQuestionOf t b → a ≡ b }
{
    ql_parse::one_answer();
}
