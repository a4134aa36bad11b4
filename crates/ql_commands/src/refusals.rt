ghost use Rattle.std.specs.Prelude.{◌≡◌, ◌≢◌, IfOk, OnOk};
ghost use Rattle.ql_reply.specs.Causes.{IsNoFault};
ghost use Rattle.ql_reply.specs.declared.status.Status.TheVariants.{No};
ghost use Rattle.ql_commands.specs.Levels.{NamesTargets, refusal_text};

use ql_base::{DeclId, NoMemory, OpId};
use ql_classify::Classless;
use ql_reply::{Cause, Reply, Status};
use ql_report::{print_none_op, print_none_txn, print_strong_use};
use ql_typing::Typed;
use std::alloc::Global;

/// The answer that says why a program isn't accepted.
pub fn refusal(alloc: Global, t: &Typed, why: Classless) -> Result<Reply, NoMemory>
    requires { NamesTargets t.now.program why }
    ensures status { IfOk result (λ reply. reply.status ≡ No) }
    ensures text { IfOk result (λ reply. reply.text.items ≡ refusal_text t.now.program why) }
    ensures cause { IfOk result (λ reply. IsNoFault reply.cause) }
    ensures known { OnOk result (why ≢ Classless.NoMemory) }
{
    let cause = cause_of(t, &why);
    let text = match why {
        Classless::NoLevel { target, assignment } => {
            if target < t.ops() {
                print_none_op(alloc, t, OpId(target), &assignment)?
            } else {
                print_none_txn(alloc, t, DeclId(target - t.ops()), &assignment)?
            }
        }
        Classless::StrongInTxn { txn, op } => print_strong_use(alloc, t, txn, op)?,
        Classless::NoMemory => return Err(NoMemory),
    };
    Ok(Reply {
        status: Status::No,
        text,
        cause,
    })
}

// What a program's refusal is about.
fn cause_of(t: &Typed, why: &Classless) -> Cause
    ensures { IsNoFault result }
{
    match why {
        Classless::NoLevel { target, .. } => {
            if *target < t.ops() {
                Cause::NoLevelOfOp(OpId(*target))
            } else {
                Cause::NoLevelOfTxn(DeclId(*target - t.ops()))
            }
        }
        Classless::StrongInTxn { txn, op } => Cause::StrongInTxn(*txn, *op),
        Classless::NoMemory => Cause::Text,
    }
}
