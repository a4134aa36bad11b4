use ql_base::NoMemory;
use std::alloc::Global;

/// Where something is drawn: the event at which it happened, counted from 0, its replica, and its session if it has
/// one.
#[derive(Clone, Copy)]
pub struct Spot {
    pub column: u32,
    pub replica: u32,
    pub session: Option<u32>,
}

/// What became of a copy of a message.
#[derive(Clone, Copy)]
pub enum Fate {
    Arrived,
    /// It arrived where a copy had arrived before.
    Repeated,
    Lost,
    /// It was cut off by a partition.
    Cut,
}

/// The passage of a copy of a message, from where it was sent to where it arrived or was lost.
#[derive(Clone, Copy)]
pub struct Passage {
    pub fate: Fate,
    pub from: Spot,
    pub to: Spot,
}

/// A partition: the event that begins it, the one that ends it if any, and the group of each replica.
#[derive(Drop)]
pub struct Span {
    pub first: u32,
    pub last: Option<u32>,
    pub groups: Vec<u32>,
}

// A message that was sent from a spot to a replica.
#[derive(Clone, Copy)]
pub(crate) struct Message {
    pub from: Spot,
    pub to: u32,
}

/// The messages that were sent, in order.
#[derive(Drop)]
pub(crate) struct Messages {
    sent: Vec<Message>,
}

impl Messages {
    pub(crate) fn new(alloc: Global) -> Messages {
        Messages {
            sent: Vec::new(alloc),
        }
    }

    /// The message with this number, counted from 1.
    pub(crate) fn numbered(&self, number: u32) -> Option<Message> {
        if number == 0 {
            return None;
        }
        self.sent.get(number as usize - 1).copied()
    }

    pub(crate) fn send(&mut self, from: Spot, to: u32) -> Result<(), NoMemory> {
        self.sent.push(Message { from, to })?;
        Ok(())
    }

    /// Sends one message to each of the other replicas.
    pub(crate) fn send_to_others(&mut self, from: Spot, replicas: u32) -> Result<(), NoMemory> {
        for to in 0..replicas {
            if to != from.replica {
                self.send(from, to)?;
            }
        }
        Ok(())
    }
}
