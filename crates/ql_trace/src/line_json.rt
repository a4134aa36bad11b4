ghost use Rattle.std.specs.Prelude.{IfOk, MatchOption};
ghost use Rattle.serde_json.specs.Data.{Data};
ghost use Rattle.serde_json.specs.View.{view};
ghost use Rattle.ql_trace.specs.Meaning.{IsJson};

use ql_base::NoMemory;
use serde_json::{Category, Value as Json};
use std::alloc::Global;

/// The JSON value that a line is; `None` if it is none.
pub fn json_of(alloc: Global, text: &[u8]) -> Result<Option<Json>, NoMemory>
    ensures { IfOk result
        (λ json. MatchOption json ((d : Data) → IsJson text.now d → ⊥)
        (λ v. IsJson text.now (view v))) }
{
    match Json::from_slice(alloc, text) {
        Ok(json) => Ok(Some(json)),
        Err(error) => match error.classify() {
            Category::Memory => Err(NoMemory),
            _ => Ok(None),
        },
    }
}
