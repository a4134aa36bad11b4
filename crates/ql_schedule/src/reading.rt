ghost use Rattle.std.specs.Prelude.{◌≡◌, false, IfOk, OnOk, MatchResult, None, Some};
ghost use Rattle.std.specs.Result.{result_err};
ghost use Rattle.ql_lang.specs.declared.program.Program.{Program};
ghost use Rattle.ql_lines.specs.Answers.{IsLineAnswer};
ghost use Rattle.ql_lines.specs.declared.fault.LineFault.TheVariants.{Breaks};
ghost use Rattle.ql_schedule.specs.declared.header.Declaration.TheVariants.{Object};
ghost use Rattle.ql_schedule.specs.declared.rules.SchedRule.{SchedRule};
ghost use Rattle.ql_schedule.specs.declared.reading.Reading.TheVariants.{Declaring, Running, Titled, Untitled};
ghost use Rattle.ql_schedule.specs.Judging.{declaration_faults, event_faults, is_full};
ghost use Rattle.ql_schedule.specs.Known.{AreNumbers};
ghost use Rattle.ql_schedule.specs.Makings.{replicas_with, with_object};
ghost use Rattle.ql_schedule.specs.Outcomes.{ExtendsSchedule, reading_after, running_after};
ghost use Rattle.ql_schedule.specs.Parts.{parts_of};
ghost use Rattle.ql_schedule.specs.Rules.{lowest};

use crate::event_line::{EventLine, read_event};
use crate::header::{Declaration, read_declaration, read_replicas, read_title};
use crate::judging::{declaration_faults, event_faults, replicas_faults};
use crate::known::{Known, look_up};
use crate::making::event;
use crate::rules::{Faults, SchedRule};
use crate::schedule::{Events, Schedule, TypeIds};
use ql_base::{Names, NoMemory, TypeId, Word};
use ql_lines::LineFault;
use ql_typing::Typed;
use std::alloc::Global;

/// How far a schedule was read: not at all; its title, with the version; the number of replicas and some
/// objects; everything before the events, and some events, with the number of replicas after them.
#[derive(Drop)]
pub(crate) enum Reading {
    Untitled,
    Titled(u32),
    Declaring(Schedule),
    Running(Schedule, u32),
}

/// The state of reading after one more line.
pub(crate) fn take(
    alloc: Global,
    t: &Typed,
    read: Reading,
    text: &[u8],
) -> Result<Reading, LineFault<SchedRule>>
    ensures { IsLineAnswer (ExtendsSchedule t.now.program read (parts_of text.now)) result }
{
    match read {
        Reading::Untitled => title(text),
        Reading::Titled(version) => count(alloc, version, text),
        Reading::Declaring(so_far) => declare(t, so_far, text),
        Reading::Running(so_far, replicas) => happen(alloc, t, so_far, replicas, text),
    }
}

// Reads the title.
fn title(text: &[u8]) -> Result<Reading, LineFault<SchedRule>>
    ensures { (p : Program) → IsLineAnswer (ExtendsSchedule p Untitled (parts_of text.now)) result }
{
    match read_title(text) {
        Some(version) => Ok(Reading::Titled(version)),
        None => Err(LineFault::Breaks(SchedRule::Unexpected)),
    }
}

// Reads the number of replicas.
fn count(alloc: Global, version: u32, text: &[u8]) -> Result<Reading, LineFault<SchedRule>>
    ensures { (p : Program)
        → IsLineAnswer (ExtendsSchedule p (Titled version) (parts_of text.now)) result }
{
    let Some(number) = read_replicas(text) else {
        return Err(LineFault::Breaks(SchedRule::Unexpected));
    };
    check(replicas_faults(number))?;
    Ok(Reading::Declaring(Schedule {
        version,
        replicas: number as u32,
        objects: Names::new(alloc),
        kinds: TypeIds::of(Vec::new(alloc)),
        events: Events::of(Vec::new(alloc)),
    }))
}

// Reads one more object, or the keyword before the events.
fn declare(t: &Typed, so_far: Schedule, text: &[u8]) -> Result<Reading, LineFault<SchedRule>>
    ensures { IsLineAnswer (ExtendsSchedule t.now.program (Declaring so_far) (parts_of text.now))
        result }
{
    let mut read = so_far;
    if take_declaration(t, &mut read, text)? {
        let replicas = read.replicas;
        Ok(Reading::Running(read, replicas))
    } else {
        Ok(Reading::Declaring(read))
    }
}

// Whether a line is the keyword before the events. The object of any other is added.
fn take_declaration(
    t: &Typed,
    so_far: &mut Schedule,
    text: &[u8],
) -> Result<bool, LineFault<SchedRule>>
    ensures { IsLineAnswer
        (ExtendsSchedule t.now.program (Declaring so_far.old) (parts_of text.now))
        (reading_after so_far.new result) }
{
    let Some(line) = read_declaration(text) else {
        return Err(LineFault::Breaks(SchedRule::Unexpected));
    };
    check(declaration_faults(t, so_far, &line))?;
    match &line {
        Declaration::Object { name, kind } => {
            add_object(t, so_far, name, kind)?;
            Ok(false)
        }
        Declaration::Events => Ok(true),
    }
}

fn add_object(t: &Typed, so_far: &mut Schedule, name: &Word, kind: &Word) -> Result<(), NoMemory>
    requires { lowest (declaration_faults t.now.program so_far.old (Object name.now kind.now))
        ≡ None }
    ensures { OnOk result
        (so_far.new ≡ with_object t.now.program so_far.old name.now kind.now) }
{
    so_far.objects.number(name.bytes())?;
    so_far.kinds.push(t.type_named(kind.bytes()).unwrap())
}

// Reads one more event.
fn happen(
    alloc: Global,
    t: &Typed,
    so_far: Schedule,
    replicas: u32,
    text: &[u8],
) -> Result<Reading, LineFault<SchedRule>>
    ensures { IsLineAnswer
        (ExtendsSchedule t.now.program (Running so_far replicas) (parts_of text.now)) result }
{
    let mut read = so_far;
    let later = take_event(alloc, t, &mut read, replicas, text)?;
    Ok(Reading::Running(read, later))
}

// Adds the event of a line, and returns how many replicas there are after it.
fn take_event(
    alloc: Global,
    t: &Typed,
    so_far: &mut Schedule,
    replicas: u32,
    text: &[u8],
) -> Result<u32, LineFault<SchedRule>>
    ensures { IsLineAnswer
        (ExtendsSchedule t.now.program (Running so_far.old replicas) (parts_of text.now))
        (running_after so_far.new result) }
{
    let Some(line) = read_event(alloc, so_far.version, text)? else {
        return Err(LineFault::Breaks(SchedRule::Unexpected));
    };
    let known = judge(alloc, t, so_far, replicas, &line)?;
    let later = replicas_with(replicas, &line);
    let event = event(alloc, t, so_far, replicas, line, known)?;
    so_far.events.push(event)?;
    Ok(later)
}

// The numbers of the names of an event that breaks no rule, or the lowest rule that it breaks.
fn judge(
    alloc: Global,
    t: &Typed,
    so_far: &Schedule,
    replicas: u32,
    line: &EventLine,
) -> Result<Known, LineFault<SchedRule>>
    ensures numbers { IfOk result (AreNumbers t.now.program so_far.now line.now) }
    ensures judged { IsLineAnswer
        (λ x. lowest (event_faults t.now.program so_far.now replicas line.now) ≡ result_err x) result }
{
    let known = look_up(alloc, t, so_far, line)?;
    check(event_faults(t, so_far, replicas, line, &known))?;
    Ok(known)
}

// How many replicas there are after a line.
fn replicas_with(replicas: u32, line: &EventLine) -> u32
    requires { is_full replicas line.now ≡ false }
    ensures { result ≡ replicas_with replicas line.now }
{
    match line {
        EventLine::Join { .. } => replicas + 1,
        _ => replicas,
    }
}

// Refuses a line for the lowest rule that it breaks.
fn check(faults: Faults) -> Result<(), LineFault<SchedRule>>
    ensures { MatchResult result (λ _. lowest faults ≡ None)
        (λ fault. (rule : SchedRule) × (fault ≡ Breaks rule) × (lowest faults ≡ Some rule)) }
{
    match faults.lowest() {
        Some(rule) => Err(LineFault::Breaks(rule)),
        None => Ok(()),
    }
}
