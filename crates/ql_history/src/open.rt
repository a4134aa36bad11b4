use ql_base::NoMemory;
use std::alloc::Global;

// A session's open transaction.
#[derive(Clone, Copy)]
struct OpenOne {
    session: u32,
    number: u32,
}

/// The open transactions, and how many have begun.
#[derive(Drop)]
pub(crate) struct Open {
    open: Vec<OpenOne>,
    begun: u32,
}

impl Open {
    pub(crate) fn new(alloc: Global) -> Open {
        Open {
            open: Vec::new(alloc),
            begun: 0,
        }
    }

    /// The number of a session's open transaction.
    pub(crate) fn of(&self, session: Option<u32>) -> Option<u32> {
        let one = self.open.iter().find(|one| Some(one.session) == session)?;
        Some(one.number)
    }

    /// A session begins the next transaction.
    pub(crate) fn begin(&mut self, session: u32) -> Result<(), NoMemory> {
        self.begun = self.begun.saturating_add(1);
        let number = self.begun;
        self.open.push(OpenOne { session, number })?;
        Ok(())
    }

    /// A session's transaction ends.
    pub(crate) fn end(&mut self, session: u32) {
        self.open.retain(|one| one.session != session);
    }
}
