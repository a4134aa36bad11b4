ghost use Rattle.std.specs.Prelude.{◌<◌};

use crate::effect::{Effect, Spelled, effect_of, read_spelled};
use crate::fault::{DrawnFault, DrawnRule, LineFault};
use crate::part::is_word;
use crate::reply::{Reply, reply_of};
use ql_base::{
    MAX_EFFECTS, MAX_EVENTS, MAX_NAME_BYTES, MAX_OBJECTS, MAX_OPERATIONS, MAX_TRANSACTIONS, Names,
    NoMemory, Word,
};
use ql_lines::{Line, Lines, after_name, after_number, after_spaces, after_word, first_field};
use std::alloc::Global;

/// The level of an operation or of a transaction.
pub struct Level {
    pub is_txn: bool,
    pub name: Word,
    pub level: Vec<u8>,
}

// Written out, so that a crate above proves one call for it.
impl Drop for Level {
    fn drop(self) {
        let Level {
            is_txn: _,
            name: _,
            level: _,
        } = self;
    }
}

/// The contents of the text of a run, of a countermodel, of an execution, or of a `holds` file. Parts that the text
/// lacks are empty.
pub struct Run {
    pub levels: Vec<Level>,
    pub replies: Vec<Reply>,
    pub objects: Names,
    pub effects: Vec<Effect>,
    /// What a countermodel says after its level, as `at 2 a=1`, or the effect at which a contract of `holds` is judged.
    pub why: Vec<u8>,
}

// Written out, so that a crate above proves one call for it.
impl Drop for Run {
    fn drop(self) {
        let Run {
            levels: _,
            replies: _,
            objects: _,
            effects: _,
            why: _,
        } = self;
    }
}

impl Run {
    /// The level of an operation or of a transaction, empty where the text has none.
    pub fn level_of(&self, is_txn: bool, name: Word) -> &[u8] {
        match self
            .levels
            .iter()
            .find(|one| one.is_txn == is_txn && one.name == name)
        {
            Some(one) => &one.level,
            None => b"",
        }
    }

    /// Whether an effect's operation is strong.
    pub fn is_strong(&self, effect: &Effect) -> bool {
        self.level_of(false, effect.op) == b"strong".as_slice()
    }

    /// The name of the object with this index.
    pub fn object_name(&self, number: u32) -> &[u8] {
        if number < self.objects.len() {
            self.objects.name(number).bytes()
        } else {
            b""
        }
    }
}

// In which section a line is.
#[derive(Clone, Copy)]
enum Stage {
    /// Before the effects.
    Ahead,
    /// After the word `replies`.
    Replying,
    /// After the contract of a `holds` file.
    Judging,
    Effects,
    Ended,
}

/// Reads a text up to the first line `end` after its effects. Before the effects, lines that say nothing of a run are
/// skipped.
pub fn read_run(alloc: Global, bytes: &[u8]) -> Result<Run, DrawnFault> {
    let mut run = empty(alloc);
    let mut stage = Stage::Ahead;
    let mut lines = Lines::of(bytes);
    while let Some(line) = lines.next_line() {
        stage = match take(alloc, &mut run, stage, line) {
            Ok(Stage::Ended) => return Ok(run),
            Ok(more) => more,
            Err(fault) => return Err(fault.at(line.number)),
        };
    }
    Err(LineFault::Breaks(DrawnRule::Unexpected).at(lines.end()))
}

fn empty(alloc: Global) -> Run {
    Run {
        levels: Vec::new(alloc),
        replies: Vec::new(alloc),
        objects: Names::new(alloc),
        effects: Vec::new(alloc),
        why: Vec::new(alloc),
    }
}

fn take(alloc: Global, run: &mut Run, stage: Stage, line: Line) -> Result<Stage, LineFault> {
    match stage {
        Stage::Effects | Stage::Ended => take_effect(alloc, run, line.text),
        Stage::Judging => take_at(alloc, run, line.text),
        Stage::Replying if !is_word(line.text, b"execution") => take_reply(alloc, run, line.text),
        Stage::Ahead | Stage::Replying => take_ahead(alloc, run, line.text),
    }
}

// A line before the effects that isn't a reply.
fn take_ahead(alloc: Global, run: &mut Run, text: &[u8]) -> Result<Stage, LineFault> {
    if is_word(text, b"execution") {
        return Ok(Stage::Effects);
    }
    if is_word(text, b"replies") {
        return Ok(Stage::Replying);
    }
    let Some((word, after)) = first_field(text) else {
        return Ok(Stage::Ahead);
    };
    if word == b"contract".as_slice() {
        return Ok(Stage::Judging);
    }
    take_word(alloc, run, word, after)?;
    Ok(Stage::Ahead)
}

// What a line says of a run after its first word; other words say nothing.
fn take_word(alloc: Global, run: &mut Run, word: &[u8], after: &[u8]) -> Result<(), NoMemory> {
    if word == b"why".as_slice() {
        run.why = Vec::from_slice(alloc, after_spaces(after))?;
        Ok(())
    } else if word == b"op".as_slice() {
        push_level(alloc, run, false, after)
    } else if word == b"txn".as_slice() {
        push_level(alloc, run, true, after)
    } else {
        Ok(())
    }
}

fn push_level(alloc: Global, run: &mut Run, is_txn: bool, text: &[u8]) -> Result<(), NoMemory> {
    let Some((name, after)) = after_name(text) else {
        return Ok(());
    };
    // A program has no more targets.
    if run.levels.len() >= MAX_OPERATIONS + MAX_TRANSACTIONS {
        return Ok(());
    }
    run.levels.push(Level {
        is_txn,
        name: Word::of(name),
        level: Vec::from_slice(alloc, after_spaces(after))?,
    })?;
    Ok(())
}

// The line after a contract, which names the effect at which it is judged.
fn take_at(alloc: Global, run: &mut Run, text: &[u8]) -> Result<Stage, LineFault> {
    match after_word(text, b"at") {
        Some(after) if after_number(after, u32::MAX).is_some() => {
            run.why = Vec::from_slice(alloc, after_spaces(text))?;
            Ok(Stage::Effects)
        }
        _ => Err(LineFault::Breaks(DrawnRule::Unexpected)),
    }
}

fn take_reply(alloc: Global, run: &mut Run, text: &[u8]) -> Result<Stage, LineFault> {
    let count = run.replies.len();
    if count >= MAX_EVENTS {
        return Err(LineFault::Breaks(DrawnRule::TooMany));
    }
    match reply_of(alloc, text, count as u32 + 1)? {
        Some(reply) => {
            run.replies.push(reply)?;
            Ok(Stage::Replying)
        }
        None => Err(LineFault::Breaks(DrawnRule::Unexpected)),
    }
}

fn take_effect(alloc: Global, run: &mut Run, text: &[u8]) -> Result<Stage, LineFault> {
    if is_word(text, b"end") {
        return Ok(Stage::Ended);
    }
    let count = run.effects.len();
    if count >= MAX_EFFECTS as usize {
        return Err(LineFault::Breaks(DrawnRule::TooMany));
    }
    match read_spelled(text, count as u32 + 1) {
        Some(spelled) => push_effect(alloc, run, spelled, count as u32)?,
        None => return Err(LineFault::Breaks(DrawnRule::Unexpected)),
    }
    Ok(Stage::Effects)
}

// The next effect, after this many others.
fn push_effect(
    alloc: Global,
    run: &mut Run,
    spelled: Spelled,
    count: u32,
) -> Result<(), LineFault> {
    let name = spelled.object;
    let Some(object) = object_number(&mut run.objects, name)? else {
        return Err(LineFault::Breaks(DrawnRule::TooMany));
    };
    let Some(effect) = effect_of(alloc, spelled, object)? else {
        return Err(LineFault::Breaks(DrawnRule::Unexpected));
    };
    if effect.seen.items().last().is_some_and(|last| *last > count) {
        return Err(LineFault::Breaks(DrawnRule::NotForward));
    }
    run.effects.push(effect)?;
    Ok(())
}

// The index of an object's name, which is added where it is new; none where there are too many.
fn object_number(objects: &mut Names, name: &[u8]) -> Result<Option<u32>, NoMemory> {
    if let Some(number) = objects.find(name) {
        return Ok(Some(number));
    }
    if objects.len() as usize >= MAX_OBJECTS || name.is_empty() || name.len() > MAX_NAME_BYTES {
        return Ok(None);
    }
    Ok(Some(objects.number(name)?))
}
