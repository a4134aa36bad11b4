// What `explain` says about a target in words.
ghost use Rattle.std.specs.Prelude.{◌≡◌, ◌<◌, ◌++◌, OnOk, length};
ghost use Rattle.std.specs.List.{All};
ghost use Rattle.ql_typing.specs.Operations.{all_ops};
ghost use Rattle.ql_ground.specs.OfPrograms.{IsGoalOf};
ghost use Rattle.ql_report.specs.EffectTexts.{AreNamed};
ghost use Rattle.ql_explanation.specs.Explanation.{way_out_text, ways_out_text};

use crate::sentences::push_facts;
use crate::table::table;
use ql_base::{NoMemory, OpId, push_bytes, push_number};
use ql_counter::{At, Counter};
use ql_ground::Goal;
use ql_judging::push_places;
use ql_lang::Name;
use ql_typing::Typed;
use ql_warnings::{formula_of, reasons};
use ql_why::{level_text, vars_of};
use std::alloc::Global;

/// The line for a target at the lowest level.
pub(crate) const LOWEST: &str = "  There is no lower level.\n";

/// What a countermodel shows: its effects as a table, and why the contract is false.
pub(crate) fn counter_words(
    alloc: Global,
    t: &Typed,
    g: Goal,
    c: &Counter,
    is_top: bool,
) -> Result<Vec<u8>, NoMemory>
    requires goal { IsGoalOf t.now.program g }
    requires named { AreNamed t.now.program 7 c.now.execution }
{
    let mut text = Vec::from_slice(alloc, b"  ")?;
    push_bytes(&mut text, level_text(g).as_bytes())?;
    let top = if is_top { ", the highest level," } else { "" };
    push_bytes(&mut text, top.as_bytes())?;
    push_bytes(
        &mut text,
        b" isn't enough. Here everything that it guarantees holds, but the contract of ",
    )?;
    push_bytes(&mut text, name_of(t, g).word.bytes())?;
    push_bytes(&mut text, b" is false ")?;
    push_at(&mut text, c)?;
    push_places(&mut text, vars_of(t, g), c.places.items())?;
    push_bytes(&mut text, b":\n\n")?;
    push_bytes(&mut text, &table(alloc, t, vars_of(t, g), c)?)?;
    push_bytes(&mut text, b"\n")?;
    let facts = reasons(alloc, formula_of(t, g), c)?;
    push_facts(&mut text, t, c, &facts)?;
    Ok(text)
}

fn push_at(text: &mut Vec<u8>, c: &Counter) -> Result<(), NoMemory> {
    match c.at {
        At::Effect(id) => {
            push_bytes(text, b"at effect ")?;
            push_number(text, id.0)?;
        }
        At::Run(run) => {
            push_bytes(text, b"for transaction ")?;
            push_number(text, run.0)?;
        }
    }
    let with = if c.places.items().is_empty() {
        ""
    } else {
        " with"
    };
    push_bytes(text, with.as_bytes())
}

fn name_of(t: &Typed, g: Goal) -> Name
    requires { IsGoalOf t.now.program g }
{
    match g {
        Goal::OpAt(o, _) => t.op(o).name,
        Goal::TxnAt(d, _) => t.txn(d).name,
    }
}

/// Why a transaction can't use strong operations, and what to do instead.
pub(crate) fn push_ways_out(out: &mut Vec<u8>, t: &Typed, uses: &[OpId]) -> Result<(), NoMemory>
    requires { All (λ o. o.0 < length (all_ops t.now.program.types)) uses.now }
    ensures { OnOk result (out.new.items ≡ out.old.items ++ ways_out_text t.now.program uses.now) }
{
    let Some((o, others)) = uses.split_first() else {
        return Ok(());
    };
    push_way_out(out, t.op(*o).name.word.bytes())?;
    push_ways_out(out, t, others)
}

fn push_way_out(out: &mut Vec<u8>, name: &[u8]) -> Result<(), NoMemory>
    ensures { OnOk result (out.new.items ≡ out.old.items ++ way_out_text name.now) }
{
    push_bytes(out, b"  No transaction may use ")?;
    push_bytes(out, name)?;
    push_bytes(out, STRONG_USE.as_bytes())?;
    push_bytes(out, b"  Call ")?;
    push_bytes(out, name)?;
    push_bytes(out, WAY_OUT.as_bytes())
}

const STRONG_USE: &str = ", which is strong. A strong call is ordered with all effects on its
  object, and every replica has its effect before the next one is made; but the
  effects of a transaction reach other replicas only when it commits, together.
";

const WAY_OUT: &str = " outside the transaction, before it begins or after it commits;
  or weaken the operation's contract: a transaction can use it at a lower level.
";
