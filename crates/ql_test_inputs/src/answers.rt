use ql_base::{NoMemory, push_number};
use std::alloc::Global;

/// An answer, as a table spells it.
pub fn spelled(alloc: Global, text: &str) -> Result<Vec<u8>, NoMemory> {
    Ok(Vec::from_slice(alloc, text.as_bytes())?)
}

/// An answer that ends in a number.
pub fn with_number(alloc: Global, text: &str, number: u64) -> Result<Vec<u8>, NoMemory> {
    let mut out = spelled(alloc, text)?;
    push_number(&mut out, number)?;
    Ok(out)
}
