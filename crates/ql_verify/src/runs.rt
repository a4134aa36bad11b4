ghost use Rattle.std.specs.Prelude.{◌≡◌, ◌≤◌, IfOk, OnOk, length};
ghost use Rattle.ql_verify.specs.Work.{runs_of, with_run};

use ql_base::{IdSet, NoMemory};
use ql_exec::{Effect, Member};
use std::alloc::Global;

/// The begun transactions of a declared one that have an effect.
pub(crate) fn runs_of(alloc: Global, effects: &[Effect], d: u32) -> Result<IdSet, NoMemory>
    ensures all { IfOk result (λ runs. runs ≡ runs_of effects.now d) }
    ensures few { IfOk result (λ runs. length runs ≤ length effects.now) }
{
    let mut runs = IdSet::new(alloc);
    for effect in effects {
        add_run(&mut runs, d, effect.member)?;
    }
    Ok(runs)
}

fn add_run(runs: &mut IdSet, d: u32, member: Member) -> Result<(), NoMemory>
    ensures added { OnOk result (runs.new ≡ with_run d runs.old member) }
{
    if let Member::Inside(run, name) = member {
        if name.0 == d {
            runs.insert(run.0)?;
        }
    }
    Ok(())
}
