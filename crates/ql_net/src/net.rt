ghost use Rattle.std.specs.Prelude.{◌≡◌, ◌==◌, ◌+◌, ◌^◌, ◌<◌, ◌≤◌, ◌∷◌, ◌++◌, [], Some, length, take, replicate, IfOk, OnOk, OnErr};
ghost use Rattle.std.specs.Bool.{OnTrue, OnFalse};
ghost use Rattle.std.specs.Option.{option_copied, option_map};
ghost use Rattle.ql_machine.specs.declared.message.Message.{Message};
ghost use Rattle.ql_machine.specs.State.{group_at, message_at};
ghost use Rattle.ql_machine.specs.Changes.{IsGone, IsInFlight, message_of, next_message, package_to_others, to_others};
ghost use Rattle.ql_net.specs.Network.{IsFound, IsLeastOutside, IsRepeated, IsSpent, message_in, messages_in};
ghost use Rattle.ql_net.specs.Flights.{IsFlight};

use crate::flight::Flight;
use crate::sent::Sent;
use ql_base::{IdSet, MsgId, NoMemory, ReplicaId};
use ql_machine::Groups;
use std::alloc::Global;
use std::marker::Model;
use std::rc::Rc;

/// The messages between replicas, and the groups of the replicas.
///
/// Messages are numbered from 1 in the order in which they were sent, and stay when no copy is left. Those that
/// were sent together share what they carry.
/// A call takes constant time, except for `new`, `send_to_others`, `heal` and `outside`, which go over the
/// replicas once.
pub struct Net {
    messages: Vec<Sent>,
    groups: Vec<u32>,
}

// Written out, so that a crate above proves one call for it.
impl Drop for Net {
    fn drop(self) {
        let Net {
            messages: _,
            groups: _,
        } = self;
    }
}

impl Model for Net {
    ghost use Rattle.std.specs.Prelude.{◌<◌, ◌^◌, length};
    ghost use Rattle.ql_net.specs.Network.{Network, messages_in};

    ghost Value = { Network };

    ghost view = { λ net. record { messages = messages_in net.messages.items; groups = net.groups.items } };

    ghost invariant = { λ net. (length net.messages.items < 2 ^ 32) × (length net.groups.items < 2 ^ 32) };
}

impl Net {
    /// A network of this many replicas in one group, without messages.
    pub fn new(alloc: Global, replicas: u32) -> Result<Net, NoMemory>
        ensures { IfOk result
            (λ net. net ≡ record { messages = []; groups = replicate replicas 0 }) }
    {
        Ok(Net {
            messages: Vec::new(alloc),
            groups: vec![in alloc; 0; replicas as usize]?,
        })
    }

    /// How many messages were sent.
    pub fn len(&self) -> u32
        ensures { result ≡ length self.now.messages }
    {
        self.messages.len() as u32
    }

    pub fn is_empty(&self) -> bool
        ensures { result ≡ (length self.now.messages == 0) }
    {
        self.messages.is_empty()
    }

    /// Sends one copy of a message, and returns its number. Out of memory changes nothing.
    pub fn send(
        &mut self,
        from: ReplicaId,
        to: ReplicaId,
        carried: IdSet,
    ) -> Result<MsgId, NoMemory>
        requires room { length self.old.messages + 1 < 2 ^ 32 }
        ensures number { IfOk result (λ m. m ≡ next_message self.old.messages) }
        ensures sent { OnOk result (self.new ≡ record self.old {
          messages = self.old.messages ++ message_of from to carried ∷ [];
        }) }
        ensures err { OnErr result (self.new ≡ self.old) }
    {
        let carried = Rc::new(*self.messages.allocator(), carried)?;
        self.messages.push(one_copy(from, to, carried))?;
        Ok(MsgId(self.messages.len() as u32))
    }

    /// Sends these effects to each other replica in ascending order; if there are none, sends nothing. Out of memory
    /// changes nothing.
    pub fn send_to_others(&mut self, from: ReplicaId, carried: &IdSet) -> Result<(), NoMemory>
        requires room { length self.old.messages + length self.old.groups < 2 ^ 32 }
        ensures sent { OnOk result (self.new ≡ record self.old {
          messages = self.old.messages ++ package_to_others (length self.old.groups) from carried.now;
        }) }
        ensures err { OnErr result (self.new ≡ self.old) }
    {
        if carried.is_empty() {
            return Ok(());
        }
        let count = self.messages.len();
        let carried = Rc::new(*self.messages.allocator(), carried.copy()?)?;
        match push_to_others(&mut self.messages, from, &carried, self.groups.len() as u32) {
            Ok(()) => Ok(()),
            Err(NoMemory) => {
                self.messages.truncate(count);
                Err(NoMemory)
            }
        }
    }

    /// Removes every message with a number above `n`.
    pub fn forget(&mut self, n: u32)
        requires { n ≤ length self.old.messages }
        ensures { self.new ≡ record self.old { messages = take n self.old.messages } }
    {
        self.messages.truncate(n as usize);
    }

    /// Whether the message can be delivered.
    pub fn look(&self, m: MsgId) -> Flight
        ensures { IsFlight self.now m.0 result }
    {
        match in_flight(&self.messages, m) {
            None => Flight::Gone,
            Some(message) => {
                if self.together(message.sender, message.receiver) {
                    Flight::Ready(message.sender, message.receiver)
                } else {
                    Flight::Cut
                }
            }
        }
    }

    /// The effects that a message carries.
    pub fn package(&self, m: MsgId) -> &IdSet
        requires first { 1 ≤ m.0 }
        requires last { m.0 ≤ length self.now.messages }
        ensures { (message : Message) → message_at self.now.messages m.0 ≡ Some message
            → result.now ≡ message.carried }
    {
        &self.messages[m.0 as usize - 1].carried
    }

    /// Takes a copy of the message out of flight when it is delivered.
    pub fn spend(&mut self, m: MsgId)
        requires { (message : Message) × IsInFlight self.old.messages m.0 message }
        ensures { IsSpent self.old self.new m.0 }
    {
        let message = &mut self.messages[m.0 as usize - 1];
        message.copies -= 1;
    }

    /// Adds a copy of the message, if one is in flight; returns whether one was.
    pub fn repeat(&mut self, m: MsgId) -> bool
        requires room { (message : Message) → message_at self.old.messages m.0 ≡ Some message
            → message.copies + 1 < 2 ^ 32 }
        ensures repeated { OnTrue result (IsRepeated self.old self.new m.0) }
        ensures gone { OnFalse result (IsGone self.old.messages m.0 × (self.new ≡ self.old)) }
    {
        if in_flight(&self.messages, m).is_none() {
            return false;
        }
        let message = &mut self.messages[m.0 as usize - 1];
        message.copies += 1;
        true
    }

    /// Loses a copy of the message, if one is in flight; returns whether one was.
    pub fn lose(&mut self, m: MsgId) -> bool
        ensures lost { OnTrue result (IsSpent self.old self.new m.0) }
        ensures gone { OnFalse result (IsGone self.old.messages m.0 × (self.new ≡ self.old)) }
    {
        if in_flight(&self.messages, m).is_none() {
            return false;
        }
        self.spend(m);
        true
    }

    /// Adds a replica to the group of another, and returns its number. No message is sent. Out of memory changes
    /// nothing.
    pub fn join(&mut self, near: ReplicaId) -> Result<ReplicaId, NoMemory>
        requires room { length self.old.groups + 1 < 2 ^ 32 }
        ensures number { IfOk result (λ joined. joined.0 ≡ length self.old.groups) }
        ensures joined { OnOk result (self.new ≡ record self.old {
          groups = self.old.groups ++ group_at self.old.groups near.0 ∷ [];
        }) }
        ensures err { OnErr result (self.new ≡ self.old) }
    {
        let joined = ReplicaId(self.groups.len() as u32);
        self.groups.push(group(&self.groups, near))?;
        Ok(joined)
    }

    /// Puts each replica into its group.
    pub fn partition(&mut self, groups: Groups)
        requires { length groups ≡ length self.old.groups }
        ensures { self.new ≡ record self.old { groups = groups } }
    {
        self.groups = groups.into_items();
    }

    /// Puts all replicas into one group.
    pub fn heal(&mut self)
        ensures { self.new ≡ record self.old { groups = replicate (length self.old.groups) 0 } }
    {
        self.groups.fill(0);
    }

    /// Whether two replicas are in one group.
    pub fn together(&self, a: ReplicaId, b: ReplicaId) -> bool
        ensures { result ≡ (group_at self.now.groups a.0 == group_at self.now.groups b.0) }
    {
        group(&self.groups, a) == group(&self.groups, b)
    }

    /// The least replica that isn't in the group of this one.
    pub fn outside(&self, r: ReplicaId) -> Option<ReplicaId>
        ensures { IsLeastOutside self.now.groups r result }
    {
        least_outside(&self.groups, r)
    }
}

fn one_copy(from: ReplicaId, to: ReplicaId, carried: Rc<IdSet>) -> Sent
    ensures { message_in result ≡ message_of from to carried.value }
{
    Sent {
        sender: from,
        receiver: to,
        carried,
        copies: 1,
    }
}

fn push_to_others(
    messages: &mut Vec<Sent>,
    from: ReplicaId,
    carried: &Rc<IdSet>,
    replicas: u32,
) -> Result<(), NoMemory>
    ensures sent { OnOk result
        (messages_in messages.new.items ≡ messages_in messages.old.items
        ++ to_others replicas from carried.now.value) }
    ensures before { take (length messages.old.items) messages.new.items ≡ messages.old.items }
    ensures few { length messages.new.items ≤ length messages.old.items + replicas }
{
    for r in 0..replicas {
        if r != from.0 {
            messages.push(one_copy(from, ReplicaId(r), carried.clone()?))?;
        }
    }
    Ok(())
}

// The message, if a copy of it is in flight.
fn in_flight(messages: &[Sent], m: MsgId) -> Option<&Sent>
    ensures { IsFound (messages_in messages.now) m.0
        (option_map message_in (option_copied result)) }
{
    let at = (m.0 as usize).checked_sub(1)?;
    let message = messages.get(at)?;
    if message.copies == 0 {
        return None;
    }
    Some(message)
}

fn least_outside(groups: &[u32], r: ReplicaId) -> Option<ReplicaId>
    requires { length groups.now < 2 ^ 32 }
    ensures { IsLeastOutside groups.now r result }
{
    let own = group(groups, r);
    for (q, group) in groups.iter().enumerate() {
        if *group != own {
            return Some(ReplicaId(q as u32));
        }
    }
    None
}

fn group(groups: &[u32], r: ReplicaId) -> u32
    ensures { result ≡ group_at groups.now r.0 }
{
    match groups.get(r.0 as usize) {
        None => 0,
        Some(group) => *group,
    }
}
