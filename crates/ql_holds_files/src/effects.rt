ghost use Rattle.std.specs.Prelude.{◌≡◌, ◌≤◌, ◌<◌, ◌+◌, ◌-◌, ◌^◌, ◌++◌, ◌∷◌, [], IfOk, length, slice_get};
ghost use Rattle.std.specs.Option.{option_map_or};
ghost use Rattle.ql_base.specs.Numbering.{with_name};
ghost use Rattle.ql_base.specs.declared.limits.TheConstants.{MAX_EFFECTS};
ghost use Rattle.ql_exec.specs.Execution.{effect_of};
ghost use Rattle.ql_exec.specs.declared.effect.Member.TheVariants.{Alone};
ghost use Rattle.ql_lines.specs.Answers.{IsLineAnswer};
ghost use Rattle.ql_holds_files.specs.EffectLine.{draft_rule, effect_rule, number_among, plain_draft, with_named_effect};
ghost use Rattle.ql_holds_files.specs.NamedOperations.{NamesFew};
ghost use Rattle.ql_holds_files.specs.Rules.{unless_broken, with_state};

use crate::effect_line::EffectLine;
use crate::rules::HoldsRule;
use ql_base::{IdSet, MAX_EFFECTS, Names, NoMemory, ObjId, OpId, SessId, Word};
use ql_exec::{Draft, Effect, ExecFault, Execution, Member, Payload};
use ql_lines::LineFault;
use ql_value::{Value, Values};
use std::alloc::Global;

/// Effects, and the names of their objects and operations, numbered by first occurrence. The
/// operations of the contract come before those of the effects.
#[derive(Drop)]
pub struct NamedEffects {
    pub objects: Names,
    pub ops: Names,
    pub effects: Execution,
}

impl NamedEffects {
    /// Adds the effect of a line, or reports the lowest rule that it breaks.
    pub(crate) fn put(
        &mut self,
        alloc: Global,
        line: EffectLine,
    ) -> Result<(), LineFault<HoldsRule>>
        requires few { length self.old.effects ≤ MAX_EFFECTS }
        requires objects { length self.old.objects ≤ length self.old.effects }
        requires operations { NamesFew self.old }
        ensures { IsLineAnswer
            (λ x. x ≡ unless_broken (effect_rule self.old line) (with_named_effect self.old line))
            (with_state self.new result) }
    {
        let (last_object, last_op) = last_numbers(self.effects.effects());
        let object = ObjId(number(&mut self.objects, &line.object, last_object)?);
        let op = OpId(number(&mut self.ops, &line.op, last_op)?);
        push(
            &mut self.effects,
            draft(alloc, object, op, line.session, line.seen),
        )
    }
}

// Appends an effect outside any transaction, or reports the lowest rule that it breaks.
fn push(effects: &mut Execution, draft: Draft) -> Result<(), LineFault<HoldsRule>>
    requires few { length effects.old ≤ MAX_EFFECTS }
    requires alone { draft.member ≡ Alone }
    ensures { IsLineAnswer
        (λ x. x ≡ unless_broken (draft_rule effects.old draft)
        (effects.old ++ effect_of effects.old draft ∷ [])) (with_state effects.new result) }
{
    match effects.push(draft) {
        Ok(_) if effects.len() > MAX_EFFECTS => Err(LineFault::Breaks(HoldsRule::TooMany)),
        Ok(_) => Ok(()),
        Err(ExecFault::NotForward(_)) => Err(LineFault::Breaks(HoldsRule::NotForward)),
        Err(ExecFault::OtherObject(_)) => Err(LineFault::Breaks(HoldsRule::OtherObject)),
        Err(ExecFault::SplitTxn(_)) => unreachable!(),
        Err(ExecFault::NoMemory) => Err(LineFault::NoMemory),
    }
}

// The numbers of the last effect's object and operation, 0 where there is no effect.
fn last_numbers(effects: &[Effect]) -> (u32, u32)
    ensures { result ≡ option_map_or
        (λ e. (e.object.0, e.op.0)) (slice_get effects.now (length effects.now - 1)) (0, 0) }
{
    match effects.last() {
        Some(effect) => (effect.object.0, effect.op.0),
        None => (0, 0),
    }
}

// The number of a name, which is added where it is new. The name with the number `likely` is tried
// first, so that a name that is used again isn't looked up.
fn number(names: &mut Names, word: &Word, likely: u32) -> Result<u32, NoMemory>
    requires room { length names.old + 1 < 2 ^ 32 }
    ensures names { IfOk result (λ _. names.new ≡ with_name names.old word.now) }
    ensures numbered { IfOk result (λ k. k ≡ number_among names.old word.now) }
{
    let bytes = word.bytes();
    if likely < names.len() && names.name(likely).bytes() == bytes {
        return Ok(likely);
    }
    names.number(bytes)
}

// An effect outside any transaction, without arguments, payload and answer.
fn draft(alloc: Global, object: ObjId, op: OpId, session: u32, seen: IdSet) -> Draft
    ensures { result ≡ plain_draft object op session seen }
{
    Draft {
        object,
        op,
        args: Values::of(Vec::new(alloc)),
        payload: Payload::Nothing,
        answer: Value::Unit,
        session: SessId(session),
        member: Member::Alone,
        seen,
    }
}
