use ql_parse::parse_program;
use ql_typing::{Typed, typecheck};
use std::alloc::Global;

/// The program of a source; none if the text isn't one, or is longer than 4,096 bytes.
pub fn declared(alloc: Global, source: &str) -> Option<Typed> {
    if source.len() > 4096 {
        return None;
    }
    let program = parse_program(alloc, source.as_bytes()).ok()?;
    typecheck(alloc, program).ok()
}
