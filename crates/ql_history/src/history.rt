use crate::matching::Matching;
use crate::messages::{Passage, Span, Spot};
use crate::plan::Plan;
use crate::run::Run;
use crate::seat::{Seat, seat_of};
use ql_base::NoMemory;
use std::alloc::Global;

/// How many effects are drawn at most.
pub(crate) const MOST_DRAWN: u32 = 200;

/// How many events are drawn at most.
pub(crate) const MOST_COLUMNS: u32 = 1000;

/// What happened at an event.
#[derive(Clone, Copy)]
pub enum Happening {
    /// A call made the effect with this number, counted from 1.
    Made(u32),
    /// A call, a begin, a commit or a resend wasn't answered, for this cause.
    Stopped(Cause),
    /// A transaction began, or was committed.
    Opened,
    Closed,
    /// Something happened to a message.
    Noted,
    /// The replicas were partitioned, or the partition was healed.
    Partitioned,
}

/// What kept a call from being answered.
#[derive(Clone, Copy)]
pub enum Cause {
    Effect(u32),
    Replica(u32),
    Other,
}

/// An event, with the texts above and below its mark, and the number of the begun transaction that it belongs to.
pub struct Column {
    pub spot: Spot,
    pub happening: Happening,
    pub above: Vec<u8>,
    pub below: Vec<u8>,
    pub begun: Option<u32>,
}

// Written out, so that a crate above proves one call for it.
impl Drop for Column {
    fn drop(self) {
        let Column {
            spot: _,
            happening: _,
            above: _,
            below: _,
            begun: _,
        } = self;
    }
}

/// The part of a run that is drawn. Without a schedule each effect is an event at the one replica 0, and `replicas`
/// is 0.
pub struct History {
    /// How many replicas there are at the end.
    pub replicas: u32,
    /// The events by which replicas joined, in order; the replicas that joined are the last ones.
    pub joins: Vec<u32>,
    pub columns: Vec<Column>,
    /// One seat for each effect that is drawn, in order.
    pub seats: Vec<Seat>,
    pub passages: Vec<Passage>,
    pub spans: Vec<Span>,
}

// Written out, so that a crate above proves one call for it.
impl Drop for History {
    fn drop(self) {
        let History {
            replicas: _,
            joins: _,
            columns: _,
            seats: _,
            passages: _,
            spans: _,
        } = self;
    }
}

/// The part of a run that is drawn: its effects and events up to the limit. None where the schedule isn't the run's.
pub fn history_of(
    alloc: Global,
    run: &Run,
    plan: Option<&Plan>,
) -> Result<Option<History>, NoMemory> {
    match plan {
        Some(plan) => matched(alloc, run, plan),
        None => Ok(Some(bare(alloc, run)?)),
    }
}

// The events of a schedule with their replies.
fn matched(alloc: Global, run: &Run, plan: &Plan) -> Result<Option<History>, NoMemory> {
    if run.replies.len() != plan.events.len() {
        return Ok(None);
    }
    let mut matching = Matching::new(alloc, plan.replicas);
    for (step, reply) in plan.events.iter().zip(run.replies.iter()) {
        if matching.is_full() {
            return Ok(Some(matching.into_history()));
        }
        if !matching.take(alloc, run, step, reply)? {
            return Ok(None);
        }
    }
    if matching.made() as usize == run.effects.len() {
        Ok(Some(matching.into_history()))
    } else {
        Ok(None)
    }
}

// The history of a run without a schedule.
fn bare(alloc: Global, run: &Run) -> Result<History, NoMemory> {
    let mut history = History::new(alloc, 0);
    for (k, effect) in run.effects.iter().enumerate() {
        if k >= MOST_DRAWN as usize {
            return Ok(history);
        }
        let spot = Spot {
            column: k as u32,
            replica: 0,
            session: Some(effect.session),
        };
        history
            .seats
            .push(seat_of(alloc, run, effect, k as u32 + 1, spot)?)?;
        history.columns.push(Column {
            spot,
            happening: Happening::Made(k as u32 + 1),
            above: Vec::from_slice(alloc, &effect.call)?,
            below: Vec::from_slice(alloc, &effect.answer)?,
            begun: effect.begun.map(|begun| begun.number),
        })?;
    }
    Ok(history)
}

impl History {
    /// The event by which a replica joined; none for a replica that was there at the start.
    pub fn join_of(&self, replica: u32) -> Option<u32> {
        let from_the_end = self.replicas.checked_sub(replica)? as usize;
        let index = self.joins.len().checked_sub(from_the_end)?;
        self.joins.get(index).copied()
    }

    /// An empty history of this many replicas.
    pub(crate) fn new(alloc: Global, replicas: u32) -> History {
        History {
            replicas,
            joins: Vec::new(alloc),
            columns: Vec::new(alloc),
            seats: Vec::new(alloc),
            passages: Vec::new(alloc),
            spans: Vec::new(alloc),
        }
    }
}
