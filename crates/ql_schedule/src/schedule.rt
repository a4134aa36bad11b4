ghost use Rattle.std.specs.Prelude.{◌≡◌, ◌++◌, ◌∷◌, ◌+◌, ◌<◌, ◌^◌, ℕ, suc, [], OnOk, length, if◌then◌else◌};
ghost use Rattle.ql_machine.specs.Runs.{replicas_after, replicas_at_end};

use ql_base::{Names, NoMemory, TypeId};
use ql_machine::Event;
use std::marker::Model;

/// The input of a run: how many replicas the store has at the start, its objects with the type of each,
/// and the events in their order.
#[derive(Drop)]
pub struct Schedule {
    /// The version of the format, 1 or 2. Only in the second may replicas join.
    pub version: u32,
    pub replicas: u32,
    pub objects: Names,
    pub kinds: TypeIds,
    pub events: Events,
}

impl Schedule {
    /// How many replicas there are after all events: those of the start, and one for each join.
    pub fn last_replicas(&self) -> u32
        requires { self.now.replicas + length self.now.events < 2 ^ 32 }
        ensures { result ≡ replicas_at_end self.now.replicas self.now.events }
    {
        let mut replicas = self.replicas;
        for event in self.events.items() {
            if is_join(event) {
                replicas += 1;
            }
        }
        replicas
    }
}

fn is_join(event: &Event) -> bool
    ensures { (n : ℕ) → replicas_after n event.now ≡ (if result then suc n else n) }
{
    matches!(event, Event::Join { .. })
}

/// A list of types.
pub struct TypeIds {
    items: Vec<TypeId>,
}

// Written out, so that a crate above proves one call for it.
impl Drop for TypeIds {
    fn drop(self) {
        let TypeIds { items: _ } = self;
    }
}

impl Model for TypeIds {
    ghost use Rattle.std.specs.Prelude.{List};
    ghost use Rattle.ql_base.specs.declared.ids.TypeId.{TypeId};

    ghost Value = { List TypeId };

    ghost view = { λ t. t.items.items };
}

impl TypeIds {
    pub fn of(items: Vec<TypeId>) -> TypeIds
        ensures { result ≡ items.items }
    {
        TypeIds { items }
    }

    pub fn items(&self) -> &[TypeId]
        ensures { result.now ≡ self.now }
    {
        &self.items
    }

    pub fn into_items(self) -> Vec<TypeId>
        ensures { result.items ≡ self }
    {
        let TypeIds { items } = self;
        items
    }

    pub(crate) fn push(&mut self, item: TypeId) -> Result<(), NoMemory>
        ensures { OnOk result (self.new ≡ self.old ++ item ∷ []) }
    {
        self.items.push(item)?;
        Ok(())
    }
}

/// A list of events.
pub struct Events {
    items: Vec<Event>,
}

// Written out, so that a crate above proves one call for it.
impl Drop for Events {
    fn drop(self) {
        let Events { items: _ } = self;
    }
}

impl Model for Events {
    ghost use Rattle.std.specs.Prelude.{List};
    ghost use Rattle.ql_machine.specs.declared.event.Event.{Event};

    ghost Value = { List Event };

    ghost view = { λ e. e.items.items };
}

impl Events {
    pub fn of(items: Vec<Event>) -> Events
        ensures { result ≡ items.items }
    {
        Events { items }
    }

    pub fn items(&self) -> &[Event]
        ensures { result.now ≡ self.now }
    {
        &self.items
    }

    pub fn into_items(self) -> Vec<Event>
        ensures { result.items ≡ self }
    {
        let Events { items } = self;
        items
    }

    pub(crate) fn push(&mut self, item: Event) -> Result<(), NoMemory>
        ensures { OnOk result (self.new ≡ self.old ++ item ∷ []) }
    {
        self.items.push(item)?;
        Ok(())
    }
}
