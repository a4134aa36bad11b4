ghost use Rattle.std.specs.Prelude.{◌≡◌, ◌<◌, ◌^◌, IfOk, false, length, map};
ghost use Rattle.serde_json.specs.View.{items_view, view};
ghost use Rattle.serde_json.specs.Written.{items_have_float};
ghost use Rattle.ql_warnings.specs.Warnings.{AreFindings};
ghost use Rattle.ql_explain.specs.JsonExplanations.{AreTargets, ExplainJsonSays, explanation_json};

use crate::json_target::target;
use ql_base::NoMemory;
use ql_classify::Finding;
use ql_commands::{bad_source, read_source};
use ql_explanation::{answer_of, finding_at, findings};
use ql_reply::{Cause, Reply};
use ql_typing::Typed;
use ql_warnings::Lexed;
use serde_json::{Map, Value as Json, put};
use std::alloc::Global;

/// What is found of each target of a source, as one JSON object on a line. The answer is yes where each has a level and no
/// transaction uses a strong operation.
pub fn explain_json(alloc: Global, source: &[u8]) -> Result<Reply, NoMemory>
    requires { length source.now < 2 ^ 32 }
    ensures { IfOk result (λ reply. ExplainJsonSays source.now reply.status reply.text.items) }
{
    let typed = match read_source(alloc, source) {
        Ok(typed) => typed,
        Err(fault) => return bad_source(alloc, fault),
    };
    let findings = findings(alloc, &typed)?;
    let lexed = Lexed::of(alloc, source)?;
    let targets = targets(alloc, &lexed, &typed, &findings)?;
    let text = line(alloc, targets)?;
    Ok(Reply {
        status: answer_of(&typed, &findings),
        text,
        cause: Cause::Text,
    })
}

// The values of all targets.
fn targets(
    alloc: Global,
    lexed: &Lexed,
    t: &Typed,
    findings: &[Finding],
) -> Result<Vec<Json>, NoMemory>
    requires { AreFindings t.now.program findings.now }
    ensures { IfOk result
        (λ targets. AreTargets lexed.now t.now.program findings.now (map view targets.items)) }
{
    let mut list = Vec::new(alloc);
    for k in 0..findings.len() {
        let target = target(alloc, lexed, t, findings, finding_at(findings, k))?;
        list.push(target)?;
    }
    Ok(list)
}

// The line of the whole object.
fn line(alloc: Global, targets: Vec<Json>) -> Result<Vec<u8>, NoMemory>
    requires { items_have_float (items_view targets.items) ≡ false }
    ensures { IfOk result (λ text. text.items ≡ explanation_json (map view targets.items)) }
{
    let mut members = Map::new(alloc);
    put(&mut members, alloc, "targets", Json::Array(targets))?;
    let mut text = Json::Object(members).to_vec(alloc)?;
    text.push(b'\n')?;
    Ok(text)
}
