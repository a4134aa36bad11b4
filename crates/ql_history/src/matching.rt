ghost use Rattle.std.specs.Prelude.{◌≤◌};

use crate::effect::Effect;
use crate::history::{Cause, Column, Happening, History, MOST_COLUMNS, MOST_DRAWN};
use crate::messages::{Fate, Messages, Passage, Span, Spot};
use crate::open::Open;
use crate::reply::{Reply, ReplyWord};
use crate::run::Run;
use crate::seat::seat_of;
use crate::step::{Caller, Step};
use ql_base::{NoMemory, push_bytes};
use std::alloc::Global;

/// A schedule whose events are being matched with their replies, one after another.
#[derive(Drop)]
pub(crate) struct Matching {
    history: History,
    messages: Messages,
    open: Open,
}

impl Matching {
    pub(crate) fn new(alloc: Global, replicas: u32) -> Matching {
        Matching {
            history: History::new(alloc, replicas),
            messages: Messages::new(alloc),
            open: Open::new(alloc),
        }
    }

    /// How many effects were made so far.
    pub(crate) fn made(&self) -> u32
        ensures { result ≤ 200 }
    {
        self.history.seats.len().min(MOST_DRAWN as usize) as u32
    }

    /// Whether a limit on what is drawn has been reached.
    pub(crate) fn is_full(&self) -> bool {
        self.made() >= MOST_DRAWN || self.column() >= MOST_COLUMNS
    }

    pub(crate) fn into_history(self) -> History {
        self.history
    }

    // The number of the next event.
    fn column(&self) -> u32 {
        self.history.columns.len().min(MOST_COLUMNS as usize) as u32
    }

    fn spot(&self, replica: u32, session: Option<u32>) -> Spot {
        Spot {
            column: self.column(),
            replica,
            session,
        }
    }

    /// Adds the next event with its reply; false where the reply doesn't fit the event.
    pub(crate) fn take(
        &mut self,
        alloc: Global,
        run: &Run,
        step: &Step,
        reply: &Reply,
    ) -> Result<bool, NoMemory> {
        match step {
            Step::Call { caller, call } => self.call(alloc, run, *caller, call, reply),
            Step::Begin { caller, name } => self.begin(alloc, *caller, name, reply),
            Step::Commit(caller) => self.commit(alloc, *caller, reply),
            Step::Deliver(number) => self.deliver(alloc, *number, reply),
            Step::Repeat(number) => self.repeat(alloc, *number, reply),
            Step::Lose(number) => self.lose(alloc, *number, reply),
            Step::Resend { from, to } => self.resend(alloc, *from, *to, reply),
            Step::Partition(groups) => self.partition(alloc, groups, reply),
            Step::Heal => self.heal(alloc, reply),
            Step::Join(near) => self.add(alloc, *near, reply),
        }
    }

    fn call(
        &mut self,
        alloc: Global,
        run: &Run,
        caller: Caller,
        call: &[u8],
        reply: &Reply,
    ) -> Result<bool, NoMemory> {
        let spot = self.spot(caller.replica, Some(caller.session));
        if reply.word != ReplyWord::Ok {
            return self.stop(alloc, spot, call, reply);
        }
        let made = self.made();
        match run.effects.get(made as usize) {
            Some(effect) if reply.number == Some(made + 1) && effect.session == caller.session => {
                self.make(alloc, run, effect, spot)?;
                Ok(true)
            }
            _ => Ok(false),
        }
    }

    // Adds the next effect.
    fn make(
        &mut self,
        alloc: Global,
        run: &Run,
        effect: &Effect,
        spot: Spot,
    ) -> Result<(), NoMemory> {
        let number = self.made() + 1;
        let seat = seat_of(alloc, run, effect, number, spot)?;
        if effect.begun.is_none() && !seat.is_strong {
            self.messages.send_to_others(spot, self.history.replicas)?;
        }
        self.history.seats.push(seat)?;
        self.push(
            alloc,
            spot,
            Happening::Made(number),
            &effect.call,
            &effect.answer,
        )
    }

    // A call, a begin or a commit that wasn't answered.
    fn stop(
        &mut self,
        alloc: Global,
        spot: Spot,
        text: &[u8],
        reply: &Reply,
    ) -> Result<bool, NoMemory> {
        let Some(cause) = cause_of(reply) else {
            return Ok(false);
        };
        self.push(alloc, spot, Happening::Stopped(cause), text, &reply.text)?;
        Ok(true)
    }

    fn begin(
        &mut self,
        alloc: Global,
        caller: Caller,
        name: &[u8],
        reply: &Reply,
    ) -> Result<bool, NoMemory> {
        let spot = self.spot(caller.replica, Some(caller.session));
        let text = with_name(alloc, b"begin ", name)?;
        if reply.word != ReplyWord::Begun {
            return self.stop(alloc, spot, &text, reply);
        }
        self.open.begin(caller.session)?;
        self.push(alloc, spot, Happening::Opened, &text, b"")?;
        Ok(true)
    }

    fn commit(&mut self, alloc: Global, caller: Caller, reply: &Reply) -> Result<bool, NoMemory> {
        let spot = self.spot(caller.replica, Some(caller.session));
        if reply.word != ReplyWord::Committed {
            return self.stop(alloc, spot, b"commit", reply);
        }
        self.push(alloc, spot, Happening::Closed, b"commit", b"")?;
        self.open.end(caller.session);
        if reply.number.is_some() {
            self.messages.send_to_others(spot, self.history.replicas)?;
        }
        Ok(true)
    }

    fn deliver(&mut self, alloc: Global, number: u32, reply: &Reply) -> Result<bool, NoMemory> {
        let fate = match reply.word {
            ReplyWord::Applies | ReplyWord::Waits => Some(Fate::Arrived),
            ReplyWord::Again => Some(Fate::Repeated),
            ReplyWord::Cut => Some(Fate::Cut),
            ReplyWord::Gone => None,
            _ => return Ok(false),
        };
        self.pass(alloc, number, fate, reply)
    }

    fn lose(&mut self, alloc: Global, number: u32, reply: &Reply) -> Result<bool, NoMemory> {
        let fate = match reply.word {
            ReplyWord::Lost => Some(Fate::Lost),
            ReplyWord::Gone => None,
            _ => return Ok(false),
        };
        self.pass(alloc, number, fate, reply)
    }

    // A message arrives or is lost, or isn't under way.
    fn pass(
        &mut self,
        alloc: Global,
        number: u32,
        fate: Option<Fate>,
        reply: &Reply,
    ) -> Result<bool, NoMemory> {
        match (self.messages.numbered(number), fate) {
            (Some(message), Some(fate)) => {
                let to = self.spot(message.to, None);
                let from = message.from;
                self.history.passages.push(Passage { fate, from, to })?;
                self.push(alloc, to, Happening::Noted, b"", &reply.text)?;
                Ok(true)
            }
            (Some(message), None) => self.note(alloc, message.to, reply),
            (None, None) => self.note(alloc, 0, reply),
            (None, Some(_)) => Ok(false),
        }
    }

    // An event at a replica that changes nothing.
    fn note(&mut self, alloc: Global, replica: u32, reply: &Reply) -> Result<bool, NoMemory> {
        let spot = self.spot(replica, None);
        self.push(alloc, spot, Happening::Noted, b"", &reply.text)?;
        Ok(true)
    }

    fn repeat(&mut self, alloc: Global, number: u32, reply: &Reply) -> Result<bool, NoMemory> {
        let replica = self
            .messages
            .numbered(number)
            .map_or(0, |message| message.from.replica);
        match reply.word {
            ReplyWord::Sent => {
                let spot = self.spot(replica, None);
                self.push(alloc, spot, Happening::Noted, b"repeat", &reply.text)?;
                Ok(true)
            }
            ReplyWord::Gone => self.note(alloc, replica, reply),
            _ => Ok(false),
        }
    }

    fn resend(
        &mut self,
        alloc: Global,
        from: u32,
        to: u32,
        reply: &Reply,
    ) -> Result<bool, NoMemory> {
        let spot = self.spot(from, None);
        match reply.word {
            ReplyWord::Sent => {
                self.messages.send(spot, to)?;
                self.push(alloc, spot, Happening::Noted, b"resend", &reply.text)?;
                Ok(true)
            }
            _ => self.stop(alloc, spot, b"resend", reply),
        }
    }

    fn partition(
        &mut self,
        alloc: Global,
        groups: &[u32],
        reply: &Reply,
    ) -> Result<bool, NoMemory> {
        if reply.word != ReplyWord::Split {
            return Ok(false);
        }
        self.end_span();
        let first = self.column();
        self.history.spans.push(Span {
            first,
            last: None,
            groups: Vec::from_slice(alloc, groups)?,
        })?;
        self.part(alloc, reply)
    }

    fn heal(&mut self, alloc: Global, reply: &Reply) -> Result<bool, NoMemory> {
        if reply.word != ReplyWord::Healed {
            return Ok(false);
        }
        self.end_span();
        self.part(alloc, reply)
    }

    // Adds a replica, which gets the next number and joins the group of another.
    fn add(&mut self, alloc: Global, near: u32, reply: &Reply) -> Result<bool, NoMemory> {
        let joined = self.history.replicas;
        if reply.word != ReplyWord::Joined || reply.number != Some(joined) {
            return Ok(false);
        }
        let spot = self.spot(joined, None);
        self.join_group(near)?;
        self.history.joins.push(spot.column)?;
        self.history.replicas = joined.saturating_add(1);
        self.push(alloc, spot, Happening::Noted, b"join", &reply.text)?;
        Ok(true)
    }

    // While a partition lasts, a new replica joins the group of another.
    fn join_group(&mut self, near: u32) -> Result<(), NoMemory> {
        if let Some(span) = self.history.spans.last_mut() {
            if span.last.is_none() {
                let group = span.groups.get(near as usize).copied().unwrap_or(0);
                span.groups.push(group)?;
            }
        }
        Ok(())
    }

    fn part(&mut self, alloc: Global, reply: &Reply) -> Result<bool, NoMemory> {
        let spot = self.spot(0, None);
        self.push(alloc, spot, Happening::Partitioned, b"", &reply.text)?;
        Ok(true)
    }

    // Ends the last partition here, unless it has ended.
    fn end_span(&mut self) {
        let column = self.column();
        if let Some(span) = self.history.spans.last_mut() {
            if span.last.is_none() {
                span.last = Some(column);
            }
        }
    }

    fn push(
        &mut self,
        alloc: Global,
        spot: Spot,
        happening: Happening,
        above: &[u8],
        below: &[u8],
    ) -> Result<(), NoMemory> {
        let begun = self.open.of(spot.session);
        self.history.columns.push(Column {
            spot,
            happening,
            above: Vec::from_slice(alloc, above)?,
            below: Vec::from_slice(alloc, below)?,
            begun,
        })?;
        Ok(())
    }
}

// Why an event wasn't answered; none where the reply answers it.
fn cause_of(reply: &Reply) -> Option<Cause> {
    match (reply.word, reply.number) {
        (ReplyWord::Blocked, Some(effect)) => Some(Cause::Effect(effect)),
        (ReplyWord::Unavailable, Some(replica)) => Some(Cause::Replica(replica)),
        (ReplyWord::Held | ReplyWord::Refused, _) => Some(Cause::Other),
        _ => None,
    }
}

fn with_name(alloc: Global, before: &[u8], name: &[u8]) -> Result<Vec<u8>, NoMemory> {
    let mut text = Vec::from_slice(alloc, before)?;
    push_bytes(&mut text, name)?;
    Ok(text)
}
