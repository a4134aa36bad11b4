use crate::fault::{DrawnFault, DrawnRule, LineFault};
use crate::part::is_word;
use crate::step::{Step, step_of};
use ql_base::{MAX_EVENTS, MAX_REPLICAS};
use ql_lines::{Lines, after_number, after_word, first_field};
use std::alloc::Global;

/// A schedule as a picture shows it.
pub struct Plan {
    /// How many replicas there are at the start, 1 to 16.
    pub replicas: u32,
    pub events: Vec<Step>,
}

// Written out, so that a crate above proves one call for it.
impl Drop for Plan {
    fn drop(self) {
        let Plan {
            replicas: _,
            events: _,
        } = self;
    }
}

// The state of reading a schedule.
#[derive(Clone, Copy)]
struct State {
    stage: Stage,
    /// Whether replicas may join.
    has_joins: bool,
    /// How many replicas there are after the events that were read.
    replicas: u32,
}

// Which kind of line comes next.
#[derive(Clone, Copy)]
enum Stage {
    Title,
    Replicas,
    Objects,
    Events,
}

/// Parses a schedule. The sorts of objects and of arguments aren't checked.
pub fn read_plan(alloc: Global, bytes: &[u8]) -> Result<Plan, DrawnFault> {
    let mut plan = Plan {
        replicas: 1,
        events: Vec::new(alloc),
    };
    let mut state = State {
        stage: Stage::Title,
        has_joins: false,
        replicas: 1,
    };
    let mut lines = Lines::of(bytes);
    while let Some(line) = lines.next_line() {
        state = match take(alloc, &mut plan, state, line.text) {
            Ok(more) => more,
            Err(fault) => return Err(fault.at(line.number)),
        };
    }
    match state.stage {
        Stage::Events => Ok(plan),
        _ => Err(LineFault::Breaks(DrawnRule::Unexpected).at(lines.end())),
    }
}

fn take(alloc: Global, plan: &mut Plan, state: State, text: &[u8]) -> Result<State, LineFault> {
    match state.stage {
        Stage::Title => take_title(state, text),
        Stage::Replicas => take_replicas(plan, state, text),
        Stage::Objects if is_word(text, b"events") => Ok(state.at(Stage::Events)),
        Stage::Objects if after_word(text, b"object").is_some() => Ok(state),
        Stage::Events => take_event(alloc, plan, state, text),
        _ => Err(LineFault::Breaks(DrawnRule::Unexpected)),
    }
}

impl State {
    fn at(self, stage: Stage) -> State {
        State { stage, ..self }
    }
}

fn take_title(state: State, text: &[u8]) -> Result<State, LineFault> {
    match version(text) {
        Some(version) => Ok(State {
            stage: Stage::Replicas,
            has_joins: version == 2,
            ..state
        }),
        None => Err(LineFault::Breaks(DrawnRule::Unexpected)),
    }
}

fn version(text: &[u8]) -> Option<u32> {
    let rest = after_word(text, b"quelea")?;
    let rest = after_word(rest, b"schedule")?;
    if is_word(rest, b"1") {
        Some(1)
    } else if is_word(rest, b"2") {
        Some(2)
    } else {
        None
    }
}

fn take_replicas(plan: &mut Plan, state: State, text: &[u8]) -> Result<State, LineFault> {
    let Some(number) = replicas(text) else {
        return Err(LineFault::Breaks(DrawnRule::Unexpected));
    };
    if number == 0 || number > MAX_REPLICAS {
        return Err(LineFault::Breaks(DrawnRule::Range));
    }
    plan.replicas = number;
    Ok(State {
        stage: Stage::Objects,
        replicas: number,
        ..state
    })
}

fn replicas(text: &[u8]) -> Option<u32> {
    let rest = after_word(text, b"replicas")?;
    let (number, after) = after_number(rest, u32::MAX)?;
    match first_field(after) {
        Some(_) => None,
        None => Some(number),
    }
}

fn take_event(
    alloc: Global,
    plan: &mut Plan,
    state: State,
    text: &[u8],
) -> Result<State, LineFault> {
    if plan.events.len() >= MAX_EVENTS {
        return Err(LineFault::Breaks(DrawnRule::TooMany));
    }
    let Some(step) = step_of(alloc, text, state.replicas)? else {
        return Err(LineFault::Breaks(DrawnRule::Unexpected));
    };
    let more = state_after(state, &step)?;
    plan.events.push(step)?;
    Ok(more)
}

// The state after an event.
fn state_after(state: State, step: &Step) -> Result<State, LineFault> {
    match step {
        Step::Join(_) if !state.has_joins => Err(LineFault::Breaks(DrawnRule::Unexpected)),
        Step::Join(_) if state.replicas >= MAX_REPLICAS => Err(LineFault::Breaks(
            DrawnRule::TooMany,
        )),
        Step::Join(_) => Ok(State {
            replicas: state.replicas + 1,
            ..state
        }),
        _ => Ok(state),
    }
}
