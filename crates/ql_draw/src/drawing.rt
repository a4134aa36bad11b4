ghost use Rattle.std.specs.Prelude.{◌≡◌, IfOk};
ghost use Rattle.ql_draw.specs.Outcomes.{IsDrawn, IsFaultText, rule_text};

use crate::sheet::SHEET;
use ql_base::{NoMemory, push_bytes};
use ql_history::{DrawnFault, DrawnRule, History, Plan, Run, history_of, read_plan, read_run};
use ql_lines::after_word;
use ql_picture::{Scene, grid_of, marks_of, picture_of, svg_text};
use ql_reply::bad_line;
use std::alloc::Global;

/// What to draw: the bytes of a run's text and of its schedule, the description of a breach, and whether the arrows that a
/// third effect implies are drawn, too.
#[derive(Clone, Copy)]
pub struct Drawing<'a> {
    pub run: &'a [u8],
    pub schedule: Option<&'a [u8]>,
    pub breach: &'a [u8],
    pub all: bool,
}

/// Why something can't be drawn.
#[derive(Clone, Copy)]
pub enum Fault {
    /// The first faulty line of the run's text, or of the schedule.
    Run { line: u64, rule: DrawnRule },
    Schedule { line: u64, rule: DrawnRule },
    /// The replies aren't those to the events of the schedule.
    OtherRun,
    NoMemory,
}

impl From<NoMemory> for Fault {
    fn from(_error: NoMemory) -> Fault {
        Fault::NoMemory
    }
}

/// The picture in SVG.
pub fn drawing_text(alloc: Global, what: Drawing) -> Result<Vec<u8>, Fault>
    ensures { IfOk result (λ text. IsDrawn text.items) }
{
    let run = run_of(alloc, what.run)?;
    let plan = match what.schedule {
        Some(bytes) => Some(plan_of(alloc, bytes)?),
        None => None,
    };
    let Some(history) = history_of(alloc, &run, plan.as_ref())? else {
        return Err(Fault::OtherRun);
    };
    let words = breach_words(alloc, &run, what.breach)?;
    let text = drawn(alloc, &run, &history, &words, what.all)?;
    Ok(text)
}

fn drawn(
    alloc: Global,
    run: &Run,
    history: &History,
    words: &[u8],
    all: bool,
) -> Result<Vec<u8>, NoMemory>
    ensures { IfOk result (λ text. IsDrawn text.items) }
{
    let grid = grid_of(alloc, history)?;
    let marks = marks_of(alloc, words)?;
    let scene = Scene {
        run,
        history,
        marks: &marks,
        all,
    };
    let picture = picture_of(alloc, scene, words, &grid)?;
    svg_text(alloc, SHEET.as_bytes(), &picture)
}

// The description of a breach: the given one, after the effect that a `holds` file names; without a given one, that of the
// run's text.
fn breach_words(alloc: Global, run: &Run, breach: &[u8]) -> Result<Vec<u8>, NoMemory> {
    if breach.is_empty() {
        return Ok(Vec::from_slice(alloc, &run.why)?);
    }
    let mut words = Vec::new(alloc);
    if after_word(&run.why, b"at").is_some() {
        push_bytes(&mut words, &run.why)?;
        push_bytes(&mut words, b" ")?;
    }
    push_bytes(&mut words, breach)?;
    Ok(words)
}

fn run_of(alloc: Global, bytes: &[u8]) -> Result<Run, Fault> {
    match read_run(alloc, bytes) {
        Ok(run) => Ok(run),
        Err(DrawnFault::Bad { line, rule }) => Err(Fault::Run { line, rule }),
        Err(DrawnFault::NoMemory) => Err(Fault::NoMemory),
    }
}

fn plan_of(alloc: Global, bytes: &[u8]) -> Result<Plan, Fault> {
    match read_plan(alloc, bytes) {
        Ok(plan) => Ok(plan),
        Err(DrawnFault::Bad { line, rule }) => Err(Fault::Schedule { line, rule }),
        Err(DrawnFault::NoMemory) => Err(Fault::NoMemory),
    }
}

/// The line that says why something can't be drawn. Fails where memory has run out.
pub(crate) fn fault_text(alloc: Global, fault: Fault) -> Result<Vec<u8>, NoMemory>
    ensures { IfOk result (λ text. IsFaultText fault text.items) }
{
    match fault {
        Fault::Run { line, rule } => bad_line(alloc, "execution", line, rule_text(rule)),
        Fault::Schedule { line, rule } => bad_line(alloc, "schedule", line, rule_text(rule)),
        Fault::OtherRun => Ok(Vec::from_slice(alloc, b"bad schedule: it is another run's\n")?),
        Fault::NoMemory => Err(NoMemory),
    }
}

fn rule_text(rule: DrawnRule) -> &'static str
    ensures { result.now ≡ rule_text rule }
{
    match rule {
        DrawnRule::Unexpected => "Unexpected",
        DrawnRule::NotForward => "NotForward",
        DrawnRule::TooMany => "TooMany",
        DrawnRule::Range => "Range",
    }
}
