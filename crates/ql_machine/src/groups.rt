ghost use Rattle.std.specs.Prelude.{◌≡◌};

use std::marker::Model;

/// The group of each replica, in order. Messages pass only within a group.
pub struct Groups {
    numbers: Vec<u32>,
}

// Written out, so that a crate above proves one call for it.
impl Drop for Groups {
    fn drop(self) {
        let Groups { numbers: _ } = self;
    }
}

impl Model for Groups {
    ghost use Rattle.std.specs.Prelude.{List, ℕ};

    ghost Value = { List ℕ };

    ghost view = { λ groups. groups.numbers.items };
}

impl Groups {
    pub fn of(numbers: Vec<u32>) -> Groups
        ensures { result ≡ numbers.items }
    {
        Groups { numbers }
    }

    pub fn items(&self) -> &[u32]
        ensures { result.now ≡ self.now }
    {
        &self.numbers
    }

    pub fn into_items(self) -> Vec<u32>
        ensures { result.items ≡ self }
    {
        let Groups { numbers } = self;
        numbers
    }
}
