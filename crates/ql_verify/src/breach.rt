use ql_base::{EffId, NoMemory, RunId};
use ql_formula::Places;

/// Where a contract is false, and the effects chosen for its variables.
#[derive(Drop)]
pub enum Breach {
    /// The contract of an effect's operation, at the effect.
    AtOp(EffId, Places),
    /// The contract of a begun transaction.
    AtTxn(RunId, Places),
}

/// Why an execution wasn't judged.
#[derive(Clone, Copy, Debug, PartialEq, Eq)]
pub enum VerifyWhy {
    /// The work, as a number of choices of effects, is above its limit.
    TooMuch(u128),
    NoMemory,
}

impl From<NoMemory> for VerifyWhy {
    ghost use Rattle.std.specs.Prelude.{◌≡◌};
    ghost use Rattle.ql_verify.specs.declared.breach.VerifyWhy.TheVariants.{NoMemory};

    ghost from_gives = { λ _ why. why ≡ NoMemory };

    fn from(_error: ql_base::NoMemory) -> VerifyWhy {
        VerifyWhy::NoMemory
    }
}
