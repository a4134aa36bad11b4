ghost use Rattle.std.specs.Prelude.{◌≡◌, ◌<◌, ◌+◌, ◌^◌, ◌∷◌, ◌++◌, [], false, List, All, length, map, IfOk, OnOk, OnErr};
ghost use Rattle.ql_exec.specs.declared.effect.Effect.{Effect};
ghost use Rattle.ql_exec.specs.declared.effect.Member.TheVariants.{Alone};
ghost use Rattle.ql_exec.specs.Execution.{IsExecution, effect_of, next_id};
ghost use Rattle.ql_base.specs.IdLists.{has_id};
ghost use Rattle.ql_holder.specs.Needs.{IsPackage, JoinsNone};
ghost use Rattle.ql_machine.specs.State.{received_at};
ghost use Rattle.ql_machine.specs.declared.reply.Reply.TheVariants as reply;
ghost use Rattle.ql_machine.specs.Changes.{package_to_others, received_by};
ghost use Rattle.ql_session.specs.Executions.{notes_of};

use crate::spread::spread;
use ql_base::{EffId, IdSet, NoMemory, ReplicaId};
use ql_exec::{Draft, ExecFault, Execution};
use ql_holder::Holder;
use ql_machine::Reply;
use ql_net::Net;
use ql_session::Sessions;
use std::alloc::Global;

/// Adds an effect outside any transaction: its replica receives it and sends it to each other one.
pub(crate) fn make_plain<H: Holder>(
    alloc: Global,
    x: &mut Execution,
    holders: &mut Vec<H>,
    net: &mut Net,
    sessions: &mut Sessions,
    r: ReplicaId,
    draft: Draft,
) -> Result<Reply, NoMemory>
    requires replica { r.0 < length holders.old.items }
    requires room { length x.old + 1 < 2 ^ 32 }
    requires room_messages { length net.old.messages + length net.old.groups < 2 ^ 32 }
    requires fit { All (λ h. H.fits h x.old) holders.old.items }
    requires lawful { IsExecution (x.old ++ effect_of x.old draft ∷ []) }
    requires alone { draft.member ≡ Alone }
    requires apart { All (λ h. JoinsNone x.old (effect_of x.old draft ∷ []) (H.received h))
        holders.old.items }
    requires noted { sessions.old ≡ notes_of x.old }
    ensures reply { IfOk result (λ r. r ≡ reply.Ok (next_id x.old)) }
    ensures made { OnOk result (x.new ≡ x.old ++ effect_of x.old draft ∷ []) }
    ensures received { OnOk result
        (map H.received holders.new.items
        ≡ received_by (map H.received holders.old.items) r.0 ((next_id x.old).0 ∷ [])) }
    ensures sent { OnOk result (net.new ≡ record net.old {
      messages = net.old.messages ++ package_to_others (length net.old.groups) r ((next_id x.old).0 ∷ []);
    }) }
    ensures fit { All (λ h. H.fits h x.new) holders.new.items }
    ensures noted { sessions.new ≡ notes_of x.new }
    ensures same { OnErr result (x.new ≡ x.old) }
    ensures same_received { OnErr result
        (map H.received holders.new.items ≡ map H.received holders.old.items) }
    ensures same_net { OnErr result (net.new ≡ net.old) }
{
    let id = push_noted(x, sessions, draft)?;
    match spread_one(alloc, x, holders, net, r, id) {
        Err(NoMemory) => {
            sessions.undo();
            x.pop();
            return Err(NoMemory);
        }
        Ok(()) => Ok(Reply::Ok(id)),
    }
}

/// Appends an effect and its note.
pub(crate) fn push_noted(
    x: &mut Execution,
    sessions: &mut Sessions,
    draft: Draft,
) -> Result<EffId, NoMemory>
    requires room { length x.old + 1 < 2 ^ 32 }
    requires lawful { IsExecution (x.old ++ effect_of x.old draft ∷ []) }
    requires noted { sessions.old ≡ notes_of x.old }
    ensures number { IfOk result (λ id. id ≡ next_id x.old) }
    ensures made { OnOk result (x.new ≡ x.old ++ effect_of x.old draft ∷ []) }
    ensures noted { sessions.new ≡ notes_of x.new }
    ensures same { OnErr result (x.new ≡ x.old) }
{
    let session = draft.session;
    let object = draft.object;
    let id = push_lawful(x, draft)?;
    let stamp = x.get(id).stamp;
    match sessions.note(session, object, id, stamp) {
        Err(NoMemory) => {
            x.pop();
            return Err(NoMemory);
        }
        Ok(()) => Ok(id),
    }
}

// Appends an effect with which an execution stays one.
fn push_lawful(x: &mut Execution, draft: Draft) -> Result<EffId, NoMemory>
    requires room { length x.old + 1 < 2 ^ 32 }
    requires lawful { IsExecution (x.old ++ effect_of x.old draft ∷ []) }
    ensures number { IfOk result (λ id. id ≡ next_id x.old) }
    ensures made { OnOk result (x.new ≡ x.old ++ effect_of x.old draft ∷ []) }
    ensures same { OnErr result (x.new ≡ x.old) }
{
    match x.push(draft) {
        Ok(id) => Ok(id),
        Err(ExecFault::NoMemory) => Err(NoMemory),
        Err(ExecFault::NotForward(_)) => unreachable!(),
        Err(ExecFault::OtherObject(_)) => unreachable!(),
        Err(ExecFault::SplitTxn(_)) => unreachable!(),
    }
}

// A replica receives a new effect outside any transaction and sends it to each other one.
fn spread_one<H: Holder>(
    alloc: Global,
    x: &Execution,
    holders: &mut Vec<H>,
    net: &mut Net,
    r: ReplicaId,
    id: EffId,
) -> Result<(), NoMemory>
    requires replica { r.0 < length holders.old.items }
    requires room { length net.old.messages + length net.old.groups < 2 ^ 32 }
    requires fit { All (λ h. H.fits h x.now) holders.old.items }
    requires package { IsPackage x.now (id.0 ∷ []) }
    requires new { has_id (received_at (map H.received holders.old.items) r.0) id.0 ≡ false }
    ensures received { OnOk result
        (map H.received holders.new.items
        ≡ received_by (map H.received holders.old.items) r.0 (id.0 ∷ [])) }
    ensures sent { OnOk result (net.new ≡ record net.old {
      messages = net.old.messages ++ package_to_others (length net.old.groups) r (id.0 ∷ []);
    }) }
    ensures fit { All (λ h. H.fits h x.now) holders.new.items }
    ensures same { OnErr result
        (map H.received holders.new.items ≡ map H.received holders.old.items) }
    ensures fit_same { OnErr result
        ((y : List Effect) → All (λ h. H.fits h y) holders.old.items
        → All (λ h. H.fits h y) holders.new.items) }
    ensures net { OnErr result (net.new ≡ net.old) }
{
    let mut pack = IdSet::new(alloc);
    pack.insert(id.0)?;
    spread(x, holders, net, r, &pack)
}
