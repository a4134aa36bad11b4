use ql_base::{IdSet, NoMemory};
use std::alloc::Global;

/// The field at an index from 0 of a text with one space between fields, or an empty text where there is none.
pub fn field(text: &str, index: usize) -> &str {
    text.split(' ').nth(index).unwrap_or("")
}

/// The number that a field spells, or 0 where it spells none.
pub fn number(text: &str, index: usize) -> u32 {
    field(text, index).parse().unwrap_or(0)
}

/// The ids that a text spells, with white space between them.
pub fn id_set_of(alloc: Global, text: &str) -> Result<IdSet, NoMemory> {
    let mut set = IdSet::new(alloc);
    for id in text.split_whitespace() {
        set.insert(number(id, 0))?;
    }
    Ok(set)
}
