ghost use Rattle.std.specs.Prelude.{◌≡◌, ◌⊎◌, ℕ, List};
ghost use Rattle.ql_exec.specs.declared.effect.Effect.{Effect};
ghost use Rattle.ql_formula.specs.Truth.{Holds, HoldsTxn};
ghost use Rattle.ql_running.specs.Stores.{rules_of};
ghost use Rattle.ql_judging.specs.Verify.{VerifySays};
ghost use Rattle.ql_reply.specs.declared.status.Status.{Status};
ghost use Rattle.ql_reply.specs.declared.status.Status.TheVariants.{Done, TooLarge};
ghost use Rattle.ql_lang.specs.Formulas.{Resolved};
ghost use Rattle.ql_machine.specs.Promised.{AllArrived};
ghost use Rattle.ql_verdicts.specs.Printable.{IsPrintable};
ghost use Rattle.ql_verdicts.specs.Renumbered.{IsRenumbered};
ghost use Rattle.ql_running.specs.declared.form.Form.{Form};
ghost use Rattle.ql_running.specs.Forms.{IsRunText, format_of};
ghost use Rattle.ql_running.specs.Runs.{ReportsRun};
ghost use Rattle.ql_verdicts.specs.Agreement.{Agree};

use crate::printed_runs::printed_runs_are_read_again;
use ql_machine::replicas_agree;
use ql_parse::one_program_answer;

/// The numbers of objects are names alone: what holds at an effect or of a begun transaction holds in the execution with
/// other numbers too.
pub fn object_numbers_are_names()
    ensures effect { (x y : List Effect) (f : Resolved) (a : ℕ) → IsRenumbered x y → Holds x f a
        → Holds y f a }
    ensures txn { (x y : List Effect) (f : Resolved) (run : ℕ) → IsRenumbered x y → HoldsTxn x f run
        → HoldsTxn y f run }
{}

/// The execution that the text of a run shows can be printed and read again: operations, transactions and objects are found
/// by their names, all numbers fit, and all values are of the grammar.
pub fn runs_can_be_printed()
    ensures { (source schedule text : List ℕ) (reported : ReportsRun IsRunText source schedule text)
        → IsPrintable reported.program reported.schedule.objects reported.prints.last.effects }
{}

/// Of a source and the text that `run` printed of it, `verify` says that all contracts hold, or that judging them is too
/// much work.
pub fn printed_runs_hold()
    ensures { (source schedule text said : List ℕ) (status : Status)
        → ReportsRun IsRunText source schedule text
        → VerifySays source text status said → (status ≡ Done) ⊎ (status ≡ TooLarge) }
{
    runs_can_be_printed();
    one_program_answer();
    printed_runs_are_read_again();
}

/// Agreement, of the run that a text shows in either form: where every package was received, the replicas agree.
pub fn replicas_of_runs_agree()
    ensures { (form : Form) (source schedule text : List ℕ)
        (reported : ReportsRun (format_of form) source schedule text) → AllArrived reported.prints.last
        → Agree (rules_of reported.program reported.levels) reported.schedule.replicas reported.prints.last }
{
    replicas_agree();
}
