ghost use Rattle.std.specs.Prelude.{◌≡◌, ◌<◌, ◌+◌, ◌^◌, ◌∷◌, ◌++◌, [], length, IfOk, OnOk, OnErr};
ghost use Rattle.ql_machine.specs.Sets.{AreThose};
ghost use Rattle.ql_machine.specs.State.{group_at};
ghost use Rattle.ql_machine.specs.Steps.{IsOfStrong};
ghost use Rattle.ql_machine.specs.declared.reply.Reply.TheVariants as reply;
ghost use Rattle.ql_store.specs.Joining.{AreAlone, IsNeededByStrong, is_strong};
ghost use Rattle.ql_store.specs.Levels.{promises_of};
ghost use Rattle.ql_store.specs.State.{AreAmongOps};

use ql_base::{IdSet, NoMemory, ReplicaId};
use ql_exec::{Effect, Execution};
use ql_holder::Holder;
use ql_levels::{Level, Levels};
use ql_machine::Reply;
use ql_net::Net;
use ql_strong::bare;
use std::alloc::Global;

/// Adds a replica in the group of another. No message is sent.
pub(crate) fn add<H: Holder>(
    holders: &mut Vec<H>,
    net: &mut Net,
    near: ReplicaId,
    joining: H,
) -> Result<Reply, NoMemory>
    requires room { length net.old.groups + 1 < 2 ^ 32 }
    ensures reply { IfOk result (λ r. r ≡ reply.Joined (record { 0 = length net.old.groups })) }
    ensures received { OnOk result (holders.new.items ≡ holders.old.items ++ joining ∷ []) }
    ensures group { OnOk result
        (net.new ≡ record net.old
        { groups = net.old.groups ++ group_at net.old.groups near.0 ∷ [] }) }
    ensures same { OnErr result (holders.new.items ≡ holders.old.items) }
    ensures same_net { OnErr result (net.new ≡ net.old) }
{
    holders.push(joining)?;
    match net.join(near) {
        Err(NoMemory) => {
            holders.pop();
            Err(NoMemory)
        }
        Ok(joined) => Ok(Reply::Joined(joined)),
    }
}

/// The holder of a bare replica: it has received the effects of strong operations and all that they
/// need, and nothing else. Goes over the execution once, and searches for what they need.
pub(crate) fn bare_holder<H: Holder>(
    alloc: Global,
    x: &Execution,
    levels: &Levels,
) -> Result<H, NoMemory>
    requires ops { AreAmongOps (length levels.now.ops) x.now }
    requires alone { AreAlone (promises_of levels.now).level x.now }
    ensures fits { IfOk result (λ bare. H.fits bare x.now) }
    ensures received { IfOk result
        (λ bare. AreThose (IsNeededByStrong (promises_of levels.now).level x.now)
        (H.received bare)) }
{
    let strong = strong_effects(alloc, x.effects(), levels)?;
    bare(alloc, x, &strong)
}

// The effects of strong operations.
fn strong_effects(alloc: Global, effects: &[Effect], levels: &Levels) -> Result<IdSet, NoMemory>
    requires few { length effects.now < 2 ^ 32 }
    requires ops { AreAmongOps (length levels.now.ops) effects.now }
    ensures { IfOk result (AreThose (IsOfStrong (promises_of levels.now).level effects.now)) }
{
    let mut ids = IdSet::new(alloc);
    for (k, effect) in effects.iter().enumerate() {
        if is_strong(effect, levels) {
            ids.insert(k as u32 + 1)?;
        }
    }
    Ok(ids)
}

fn is_strong(effect: &Effect, levels: &Levels) -> bool
    requires { effect.now.op.0 < length levels.now.ops }
    ensures { result ≡ is_strong ((promises_of levels.now).level effect.now.op) }
{
    matches!(levels.op(effect.op), Level::Strong)
}
