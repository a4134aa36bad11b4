// The declared transaction of which a begun one is.
ghost use Rattle.std.specs.Prelude.{◌≡◌, ℕ, option_map};
ghost use Rattle.ql_judging.specs.Members.{IsBegun, IsBegunOf, first_name, name_if};

use ql_base::{DeclId, RunId};
use ql_exec::{Effect, Execution, Member};

/// The declared transaction of a begun one that has an effect.
pub(crate) fn declared_of(x: &Execution, run: RunId) -> DeclId
    requires { IsBegun x.now run.0 }
    ensures { (name : ℕ) → IsBegunOf x.now run.0 name → result.0 ≡ name }
{
    first_name(x.effects(), run).unwrap()
}

// That of the first effect inside a begun transaction.
fn first_name(effects: &[Effect], run: RunId) -> Option<DeclId>
    ensures { option_map (λ d. d.0) result ≡ first_name run.0 effects.now }
{
    for effect in effects {
        if let Some(name) = name_if(run, effect.member) {
            return Some(name);
        }
    }
    None
}

fn name_if(run: RunId, member: Member) -> Option<DeclId>
    ensures { option_map (λ d. d.0) result ≡ name_if run.0 member }
{
    match member {
        Member::Inside(other, name) if other.0 == run.0 => Some(name),
        _ => None,
    }
}
