ghost use Rattle.std.specs.Prelude.{length};
ghost use Rattle.ql_lines.specs.Lines.{ahead_from};
ghost use Rattle.ql_lines.specs.Answers.{IsEndAnswer};
ghost use Rattle.ql_lines.specs.Outcomes.{Outcome};

use crate::fault::FileFault;
use crate::format::LineFormat;
use crate::lines::Lines;

/// Reads a file: what it says, or its first fault.
pub fn read_file<F: LineFormat>(format: &F, bytes: &[u8]) -> Result<F::Said, FileFault<F::Rule>>
    requires sound { F.sound format.now (F.start format.now)
        (length (ahead_from 1 bytes.now).lines) }
    requires allowed { F.allows format.now (length bytes.now) }
    ensures { IsEndAnswer
        (Outcome (F.gives format.now) (F.closes format.now) (F.start format.now)
        (ahead_from 1 bytes.now)) result }
{
    let mut lines = Lines::of(bytes);
    let mut state = format.start();
    while let Some(line) = lines.next_line() {
        state = match format.take(state, line.number, line.text) {
            Ok(more) => more,
            Err(fault) => return Err(fault.at(line.number)),
        };
    }
    format.finish(state, lines.end())
}
