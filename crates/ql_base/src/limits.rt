ghost use Rattle.std.specs.Prelude.{◌≡◌};

/// Most bytes of a source file.
pub const MAX_SOURCE_BYTES: u64 = 1_048_576;

/// Most bytes of a schedule file.
pub const MAX_SCHEDULE_BYTES: u64 = 1_048_576;

/// Most bytes of a file that asks whether a contract holds at one effect.
pub const MAX_HOLDS_BYTES: u64 = 1_048_576;

/// Most bytes of a file with a clause list and its refutation.
pub const MAX_PROOF_BYTES: u64 = 1_048_576;

/// Most bytes of a certificate file.
pub const MAX_CERTIFICATE_BYTES: u64 = 67_108_864;

/// Most bytes of an execution file.
pub const MAX_EXECUTION_BYTES: u64 = 67_108_864;

/// Most types of a program.
pub const MAX_TYPES: usize = 16;

/// Most operations of a program, over all its types.
pub const MAX_OPERATIONS: usize = 32;

/// Most transactions that a program declares.
pub const MAX_TRANSACTIONS: usize = 16;

/// Most state fields of a type.
pub const MAX_FIELDS: usize = 16;

/// Most parameters of an operation.
pub const MAX_PARAMETERS: usize = 8;

/// Most values that an operation emits.
pub const MAX_EMITTED: usize = 4;

/// Most statements of an operation.
pub const MAX_STATEMENTS: usize = 64;

/// Most variables of a contract.
pub const MAX_VARIABLES: usize = 5;

/// Most brackets that are open at once within one expression or contract.
pub const MAX_BRACKETS: usize = 64;

/// Most nodes of one expression or contract.
pub const MAX_NODES: usize = 256;

/// Most bytes of a name.
pub const MAX_NAME_BYTES: usize = 32;

/// Most bytes of a text, its quotes aside.
pub const MAX_TEXT_BYTES: usize = 64;

/// Most entries of a set or a map.
pub const MAX_ENTRIES: usize = 256;

/// Most replicas of a schedule.
pub const MAX_REPLICAS: u32 = 16;

/// Most sessions of a schedule.
pub const MAX_SESSIONS: u32 = 256;

/// Most objects of a schedule.
pub const MAX_OBJECTS: usize = 1024;

/// Most events of a schedule.
pub const MAX_EVENTS: usize = 4000;

/// Most objects that one begun transaction declares.
pub const MAX_DECLARED_OBJECTS: usize = 16;

/// Most effects of a file that holds an execution.
pub const MAX_EFFECTS: u32 = 4000;

/// Most atoms of one ground problem.
pub const MAX_ATOMS: u32 = 450;

/// Most variables that a contract's body adds to a ground problem.
pub const MAX_BODY_VARIABLES: u32 = 256;

/// Most evaluations of a contract's body that one request may ask for.
pub const MAX_WORK: u128 = 20_000_000;

/// The limits as numbers, so that a definition that cites one by its name has its value.
pub fn limits_in_figures()
    ensures small_files { (MAX_SOURCE_BYTES ≡ 1048576) × (MAX_SCHEDULE_BYTES ≡ 1048576)
        × (MAX_HOLDS_BYTES ≡ 1048576) × (MAX_PROOF_BYTES ≡ 1048576) }
    ensures large_files { (MAX_CERTIFICATE_BYTES ≡ 67108864) × (MAX_EXECUTION_BYTES ≡ 67108864) }
    ensures programs { (MAX_TYPES ≡ 16) × (MAX_OPERATIONS ≡ 32) × (MAX_TRANSACTIONS ≡ 16) }
    ensures types { (MAX_FIELDS ≡ 16) × (MAX_PARAMETERS ≡ 8) × (MAX_EMITTED ≡ 4)
        × (MAX_STATEMENTS ≡ 64) }
    ensures expressions { (MAX_VARIABLES ≡ 5) × (MAX_BRACKETS ≡ 64) × (MAX_NODES ≡ 256) }
    ensures values { (MAX_NAME_BYTES ≡ 32) × (MAX_TEXT_BYTES ≡ 64) × (MAX_ENTRIES ≡ 256) }
    ensures schedules { (MAX_REPLICAS ≡ 16) × (MAX_SESSIONS ≡ 256) × (MAX_OBJECTS ≡ 1024)
        × (MAX_EVENTS ≡ 4000) × (MAX_DECLARED_OBJECTS ≡ 16) }
    ensures problems { (MAX_EFFECTS ≡ 4000) × (MAX_ATOMS ≡ 450) × (MAX_BODY_VARIABLES ≡ 256)
        × (MAX_WORK ≡ 20000000) }
{}
