ghost use Rattle.ql_schedule.specs.declared.reading.Reading.TheVariants.{Untitled};
ghost use Rattle.ql_schedule.specs.Files.{GivesLine};
ghost use Rattle.ql_schedule.specs.Outcomes.{Closes};
ghost use Rattle.ql_schedule.specs.OneLine.{closes_one, closes_some, gives_one, gives_some};

use crate::reading::{Reading, take};
use crate::rules::SchedRule;
use crate::schedule::Schedule;
use ql_lines::{Broken, FileFault, LineFault, LineFormat};
use ql_typing::Typed;
use std::alloc::Global;

/// The format of the schedules of a program.
#[derive(Clone, Copy)]
pub(crate) struct Format<'a> {
    pub t: &'a Typed,
    pub alloc: Global,
}

impl<'a> LineFormat for Format<'a> {
    type State = Reading;

    type Said = Schedule;

    type Rule = SchedRule;

    ghost start = { λ f. Untitled };

    ghost sound = { λ f read more. Unit {0} };

    ghost allows = { λ f bytes. Unit {0} };

    ghost gives = { λ f read l x. GivesLine f.t.now.program read l x };

    ghost closes = { λ f read end x. Closes read end x };

    fn start(&self) -> Reading {
        Reading::Untitled
    }

    fn take(
        &self,
        state: Reading,
        _number: u64,
        text: &[u8],
    ) -> Result<Reading, LineFault<SchedRule>> {
        take(self.alloc, self.t, state, text)
    }

    fn finish(&self, state: Reading, end: u64) -> Result<Schedule, FileFault<SchedRule>> {
        match state {
            Reading::Running(schedule, _) => Ok(schedule),
            _ => Err(FileFault::Broken(Broken {
                line: end,
                rule: SchedRule::Unexpected,
            })),
        }
    }

    ghost allows_less = { λ f n most less allowed. allowed };

    ghost stays_sound = { λ f s t l more allowed sound given. tt };

    ghost gives_one = { λ f s l x y p q. gives_one f.t.now.program s _ x y p q };

    ghost gives_some = { λ f s l none. gives_some f.t.now.program s _ none };

    ghost closes_one = { λ f s end x y p q. closes_one s end x y p q };

    ghost closes_some = { λ f s end none. closes_some s end none };
}
