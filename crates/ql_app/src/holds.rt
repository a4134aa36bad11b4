ghost use Rattle.std.specs.Prelude.{◌≡◌, ◌≤◌, ◌<◌, ◌++◌, ◌^◌, IfOk, OnOk, codes, length, map};
ghost use Rattle.ql_holds_files.specs.Holdings.{asked_of};
ghost use Rattle.ql_reply.specs.declared.status.Status.TheVariants.{Bad};
ghost use Rattle.ql_app.specs.HoldsFaults.{IsReportedAs};
ghost use Rattle.ql_app.specs.HoldsFile.{HoldsSays, HoldsReports, named_places_text};

use crate::text::at_line;
use ql_base::{EffId, MAX_WORK, NoMemory, Word, push_bytes, push_number};
use ql_formula::{Relations, holds_at};
use ql_holds_files::{Holding, HoldsFault, parse_holds};
use ql_reply::{Cause, Part, Reply, Rule, Status};
use std::alloc::Global;

/// Whether the contract in a holds file is true of its effect.
pub fn holds(alloc: Global, bytes: &[u8]) -> Result<Reply, NoMemory>
    requires { length bytes.now < 2 ^ 32 }
    ensures { IfOk result (λ reply. HoldsSays bytes.now reply.status reply.text.items) }
{
    ql_holds_files::one_holding();
    ql_holds_files::holds_files_are_read();
    ql_holds_files::first_faults_are_of_the_grammar();
    match parse_holds(alloc, bytes) {
        Ok(holding) => truth_of(alloc, &holding),
        Err(fault) => bad_holds(alloc, fault),
    }
}

// The answer on a file with a fault.
fn bad_holds(alloc: Global, fault: HoldsFault) -> Result<Reply, NoMemory>
    ensures status { IfOk result (λ reply. reply.status ≡ Bad) }
    ensures text { IfOk result (λ reply. IsReportedAs fault reply.text.items) }
{
    match fault {
        HoldsFault::Unexpected(line) => Reply::bad(alloc, Part::Holds, line, Rule::Unexpected),
        HoldsFault::Unknown(line) => Reply::bad(alloc, Part::Holds, line, Rule::Unknown),
        HoldsFault::Twice(line) => Reply::bad(alloc, Part::Holds, line, Rule::Twice),
        HoldsFault::TxnAtom(line) => Reply::bad(alloc, Part::Holds, line, Rule::TxnAtom),
        HoldsFault::Variables(line) => Reply::bad(alloc, Part::Holds, line, Rule::Variables),
        HoldsFault::Range(line) => Reply::bad(alloc, Part::Holds, line, Rule::Range),
        HoldsFault::NotForward(line) => Reply::bad(alloc, Part::Holds, line, Rule::NotForward),
        HoldsFault::OtherObject(line) => Reply::bad(alloc, Part::Holds, line, Rule::OtherObject),
        HoldsFault::TooMany(line) => Reply::bad(alloc, Part::Holds, line, Rule::TooMany),
        HoldsFault::NoMemory => Err(NoMemory),
    }
}

// Whether a formula is true, where that isn't too much work.
#[tactic(auto, using(crate::proofs::Powers::power_small))]
fn truth_of(alloc: Global, holding: &Holding) -> Result<Reply, NoMemory>
    requires few { length holding.now.formula.vars ≤ 5 }
    requires few_effects { length holding.now.execution ≤ 4000 }
    ensures { IfOk result (λ reply. HoldsReports (asked_of holding.now) reply.status reply.text.items) }
{
    let variables = holding.formula.vars.items().len() as u32;
    let work = u64::from(holding.execution.len()).pow(variables);
    if u128::from(work) > MAX_WORK {
        return Ok(Reply {
            status: Status::TooLarge,
            text: at_line(alloc, b"too much ", work, b"\n")?,
            cause: Cause::TooMuch,
        });
    }
    let relations = Relations::build(alloc, &holding.execution)?;
    match holds_at(
        &holding.formula,
        &holding.execution,
        &relations,
        holding.cur,
    ) {
        None => Ok(Reply {
            status: Status::Done,
            text: Vec::from_slice(alloc, b"holds\n")?,
            cause: Cause::Holds,
        }),
        Some(places) => Ok(Reply {
            status: Status::No,
            text: fails_line(alloc, holding.names.items(), places.items())?,
            cause: Cause::FailsAt(u64::from(holding.cur.0)),
        }),
    }
}

fn fails_line(alloc: Global, names: &[Word], places: &[EffId]) -> Result<Vec<u8>, NoMemory>
    ensures { IfOk result
        (λ line. line.items ≡ codes "fails"
        ++ named_places_text names.now (map (λ id. id.0) places.now) ++ codes "\n") }
{
    let mut line = Vec::from_slice(alloc, b"fails")?;
    push_places(&mut line, names, places)?;
    line.push(b'\n')?;
    Ok(line)
}

// Appends each variable with its effect.
fn push_places(line: &mut Vec<u8>, names: &[Word], places: &[EffId]) -> Result<(), NoMemory>
    ensures { OnOk result
        (line.new.items ≡ line.old.items
        ++ named_places_text names.now (map (λ id. id.0) places.now)) }
{
    let Some((name, other_names)) = names.split_first() else {
        return Ok(());
    };
    let Some((place, other_places)) = places.split_first() else {
        return Ok(());
    };
    line.push(b' ')?;
    push_bytes(line, name.bytes())?;
    line.push(b'=')?;
    push_number(line, place.0)?;
    push_places(line, other_names, other_places)
}
