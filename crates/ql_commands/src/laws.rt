ghost use Rattle.std.specs.Prelude.{◌≡◌, ℕ, List};
ghost use Rattle.ql_commands.specs.Check.{CheckSays};
ghost use Rattle.ql_commands.specs.Prove.{ProveSays};
ghost use Rattle.ql_reply.specs.declared.status.Status.{Status};
ghost use Rattle.ql_reply.specs.declared.status.Status.TheVariants.{Done};

use ql_parse::one_program_answer;

/// The law that what `prove` prints of a source is accepted by `check` of that source, section by section:
/// with these bytes its status is `Done`.
pub fn what_is_proved_is_accepted()
    ensures { (source certificate text : List ℕ) (status : Status)
        → ProveSays source Done certificate → CheckSays source certificate status text
        → status ≡ Done }
{
    one_program_answer();
}
