ghost use Rattle.std.specs.Prelude.{◌≡◌, ◌⊎◌, ℕ, List};
ghost use Rattle.ql_reply.specs.declared.status.Status.TheVariants.{Done, No};
ghost use Rattle.ql_commands.specs.Check.{CheckSays, order_text};
ghost use Rattle.ql_commands.specs.Classify.{ClassifySays};
ghost use Rattle.ql_verdicts.specs.Commands.{ReportsAccepted, ReportsLeast, ReportsNone};

/// The law of what `classify` prints: the levels that are reported are least over all executions of the source's program.
/// Each guarantees its target's contract in every one, and each lower one fails in some. And where `classify` says no since
/// no level is enough for a target, the highest fails in one.
pub fn reported_levels_are_least()
    ensures yes { (source text : List ℕ) → ClassifySays source Done text → ReportsLeast source text }
    ensures no { (source text : List ℕ) → ClassifySays source No text → ReportsNone source text }
{}

/// The law of what `check` prints: each line that ends in `accepted` states a level that guarantees its contract. With yes
/// there is one for each target of the program; with no there is only the line of a section out of order, or the lines of
/// the first sections and then that of a section that isn't accepted.
pub fn accepted_lines_give_contracts()
    ensures yes { (source cert text : List ℕ) → CheckSays source cert Done text
        → ReportsAccepted source cert Done text }
    ensures no { (source cert text : List ℕ) → CheckSays source cert No text
        → ((place : ℕ) × (text ≡ order_text place)) ⊎ ReportsAccepted source cert No text }
{}
