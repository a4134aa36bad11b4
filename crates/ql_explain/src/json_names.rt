// The kind and the name of a target.
ghost use Rattle.std.specs.Prelude.{◌≡◌};
ghost use Rattle.ql_ground.specs.OfPrograms.{IsGoalOf};
ghost use Rattle.ql_explain.specs.JsonExplanations.{goal_kind_text, name_text};

use ql_ground::Goal;
use ql_typing::Typed;

/// Whether a target is an operation or a transaction.
pub(crate) fn kind_of(g: Goal) -> &'static str
    ensures { result.now ≡ goal_kind_text g }
{
    match g {
        Goal::OpAt(_, _) => "op",
        Goal::TxnAt(_, _) => "txn",
    }
}

/// The name of a target.
pub(crate) fn name_of(t: &Typed, g: Goal) -> &[u8]
    requires { IsGoalOf t.now.program g }
    ensures { result.now ≡ name_text t.now.program g }
{
    match g {
        Goal::OpAt(o, _) => t.op(o).name.word.bytes(),
        Goal::TxnAt(d, _) => t.txn(d).name.word.bytes(),
    }
}
