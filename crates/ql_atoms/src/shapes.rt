ghost use Rattle.std.specs.Prelude.{◌≤◌};

/// How many constants and operations a ground problem has: at most 6 and 32.
#[derive(Clone, Copy, PartialEq, Eq)]
pub struct Shape {
    pub constants: u32,
    pub operations: u32,
    pub ghost few_constants: { constants ≤ 6 },
    pub ghost few_operations: { operations ≤ 32 },
}
