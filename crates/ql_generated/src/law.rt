ghost use Rattle.std.specs.Prelude.{◌≡◌, ◌≤◌, ℕ, List};
ghost use Rattle.ql_commands.specs.Sources.{IsSourceOf};
ghost use Rattle.ql_gen.specs.Generated.{generated};
ghost use Rattle.ql_lang.specs.declared.program.Program.{Program};
ghost use Rattle.ql_lines.specs.Lines.{ahead_from};
ghost use Rattle.ql_running.specs.Runs.{AreRunnable};
ghost use Rattle.ql_schedule.specs.Files.{IsScheduleFile};
ghost use Rattle.ql_exec.specs.declared.effect.Effect.{Effect};
ghost use Rattle.ql_machine.specs.declared.reply.Reply.{Reply};
ghost use Rattle.ql_generated.specs.Schedules.{ReportsSchedule};
ghost use Rattle.ql_generated.specs.Soaks.{ReportsSoak};
ghost use Rattle.ql_generated.specs.Summaries.{counted, summary_text};

use ql_parse::one_program_answer;
use ql_schedule::printed_is_read_again;

/// What `gen` prints of a source is the file of a schedule, and says the schedule of the number: so `run` of that source
/// accepts it.
pub fn generated_schedules_are_read()
    ensures read { (source text : List ℕ) (number events : ℕ) (p : Program) → ReportsSchedule source number events text → events ≤ 4000 → IsSourceOf source p
        → IsScheduleFile p (ahead_from 1 text) (generated p number events) }
    ensures accepted { (source text : List ℕ) (number events : ℕ)
        → ReportsSchedule source number events text → events ≤ 4000 → AreRunnable source text }
{
    one_program_answer();
    printed_is_read_again();
}

/// The counts that `soak` prints of a run's replies add up to the number of its events.
pub fn each_event_is_counted()
    ensures { (source text : List ℕ) (number : ℕ) → ReportsSoak source number text
        → (replies : List Reply) × (x : List Effect) × (text ≡ summary_text replies x) × (counted replies ≡ 4000) }
{}
